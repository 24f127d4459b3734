ghost use Rattle.std.specs.Prelude.{◌≡◌, ◌<◌, ◌≤◌, [], ℕ, Some, length, slice_get, slice_set, take, Contains, IfOk, IfSome, IsTrue, OnOk};
ghost use Rattle.std.specs.List.{AllByRecursion as Each};
ghost use Rattle.p21_express_graph.specs.Prefixes.{AreBelow, AreRunPrefixes, BeginsWith, IsEmptyPrefix, IsRunPrefix, StayBelow, list_of, lists_in};
ghost use Rattle.p21_express_graph.specs.Orders.{numbers, number_lists};
ghost use Rattle.p21_express_graph.specs.SettledOrder.{nexts_of};

use crate::collected_lists::empty_lists;
use crate::number::EntityId;
use p21_values::NoMemory;
use std::alloc::Global;

/// The first so many entities of a run.
#[derive(Clone, Copy, Debug, Drop)]
pub struct RunPrefix {
    pub run: usize,
    pub size: usize,
}

/// A list of entities for each number. Each is the front of a run, which several of them may share.
#[derive(Drop)]
pub struct PrefixLists {
    pub runs: Vec<Vec<EntityId>>,
    pub prefixes: Vec<RunPrefix>,
}

impl PrefixLists {
    /// So many empty lists.
    pub(crate) fn new(alloc: Global, count: usize) -> Result<PrefixLists, NoMemory>
        ensures prefixes { IfOk result AreRunPrefixes }
        ensures size { IfOk result (λ all. length all.prefixes.items ≡ count) }
        ensures empty { IfOk result (λ all. (x : ℕ) → nexts_of (lists_in all) x ≡ []) }
        ensures below { IfOk result (λ all. (count : ℕ) → AreBelow count (number_lists all.runs.items)) }
    {
        let runs = empty_lists(alloc, 1)?;
        let prefixes = empty_prefixes(alloc, count)?;
        Ok(PrefixLists { runs, prefixes })
    }

    /// The list of a number.
    pub fn list(&self, number: u32) -> &[EntityId]
        requires prefixes { AreRunPrefixes self.now }
        requires there { number < length self.now.prefixes.items }
        ensures { numbers result.now ≡ nexts_of (lists_in self.now) number }
    {
        self.front(self.prefix_of(number))
    }

    /// The entities of a front.
    pub(crate) fn front(&self, front: RunPrefix) -> &[EntityId]
        requires { IsRunPrefix (number_lists self.now.runs.items) front }
        ensures { numbers result.now ≡ list_of (number_lists self.now.runs.items) front }
    {
        first_of(self.run(front.run), front.size)
    }

    /// The front that is the list of a number.
    pub fn prefix_of(&self, number: u32) -> RunPrefix
        requires { number < length self.now.prefixes.items }
        ensures { slice_get self.now.prefixes.items number ≡ Some result }
    {
        self.prefixes[number as usize]
    }

    /// The entities of a run.
    pub(crate) fn run(&self, run: usize) -> &[EntityId]
        requires { run < length self.now.runs.items }
        ensures { numbers result.now ≡ nexts_of (number_lists self.now.runs.items) run }
    {
        &self.runs[run]
    }

    /// Sets the list of a number. It shares the run of the first of other entities, where it goes on from it.
    pub(crate) fn put(
        &mut self,
        number: u32,
        list: Vec<EntityId>,
        others: &[EntityId],
    ) -> Result<(), NoMemory>
        requires prefixes { AreRunPrefixes self.old }
        requires there { number < length self.old.prefixes.items }
        requires others { (e : ℕ) → Contains (numbers others.now) e → e < length self.old.prefixes.items }
        ensures prefixes { OnOk result (AreRunPrefixes self.new) }
        ensures lists { OnOk result (lists_in self.new ≡ slice_set (lists_in self.old) number (numbers list.items)) }
        ensures below { OnOk result (StayBelow (numbers list.items) self.old self.new) }
    {
        match self.run_before(&list, others) {
            Some(run) => {
                self.put_over(number, list, run);
                Ok(())
            }
            None => self.put_run(number, list),
        }
    }

    /// The run of the first of these entities, where a list begins with all of it.
    fn run_before(&self, list: &[EntityId], others: &[EntityId]) -> Option<usize>
        requires prefixes { AreRunPrefixes self.now }
        requires others { (e : ℕ) → Contains (numbers others.now) e → e < length self.now.prefixes.items }
        ensures there { IfSome result (λ run. run < length self.now.runs.items) }
        ensures begins { IfSome result (λ run. BeginsWith (numbers list.now) (nexts_of (number_lists self.now.runs.items) run)) }
    {
        if others.is_empty() {
            return None;
        }
        let front = self.prefix_of(others[0].0);
        if begins_with(list, self.run(front.run)) {
            return Some(front.run);
        }
        None
    }

    /// Sets the list of a number, and puts it in place of a run with which it begins.
    fn put_over(&mut self, number: u32, list: Vec<EntityId>, run: usize)
        requires prefixes { AreRunPrefixes self.old }
        requires there { number < length self.old.prefixes.items }
        requires run { run < length self.old.runs.items }
        requires begins { BeginsWith (numbers list.items) (nexts_of (number_lists self.old.runs.items) run) }
        ensures prefixes { AreRunPrefixes self.new }
        ensures lists { lists_in self.new ≡ slice_set (lists_in self.old) number (numbers list.items) }
        ensures below { StayBelow (numbers list.items) self.old self.new }
    {
        let size = list.len();
        self.runs[run] = list;
        self.prefixes[number as usize] = RunPrefix { run, size };
    }

    /// Sets the list of a number, with a run of its own.
    fn put_run(&mut self, number: u32, list: Vec<EntityId>) -> Result<(), NoMemory>
        requires prefixes { AreRunPrefixes self.old }
        requires there { number < length self.old.prefixes.items }
        ensures prefixes { OnOk result (AreRunPrefixes self.new) }
        ensures lists { OnOk result (lists_in self.new ≡ slice_set (lists_in self.old) number (numbers list.items)) }
        ensures below { OnOk result (StayBelow (numbers list.items) self.old self.new) }
    {
        let run = self.runs.len();
        let size = list.len();
        self.runs.push(list)?;
        self.prefixes[number as usize] = RunPrefix { run, size };
        Ok(())
    }
}

/// So many first entities of a run.
fn first_of(run: &[EntityId], size: usize) -> &[EntityId]
    requires { size ≤ length run.now }
    ensures { numbers result.now ≡ take size (numbers run.now) }
{
    &run[..size]
}

/// So many fronts with no entity.
fn empty_prefixes(alloc: Global, count: usize) -> Result<Vec<RunPrefix>, NoMemory>
    ensures size { IfOk result (λ prefixes. length prefixes.items ≡ count) }
    ensures bare { IfOk result (λ prefixes. Each IsEmptyPrefix prefixes.items) }
{
    let mut prefixes = Vec::with_capacity(alloc, count)?;
    for _ in 0..count {
        prefixes.push(RunPrefix { run: 0, size: 0 })?;
    }
    Ok(prefixes)
}

/// Whether a list begins with a run.
pub(crate) fn begins_with(list: &[EntityId], run: &[EntityId]) -> bool
    ensures { IsTrue result → BeginsWith (numbers list.now) (numbers run.now) }
{
    if list.len() < run.len() {
        return false;
    }
    for place in 0..run.len() {
        if list[place].0 != run[place].0 {
            return false;
        }
    }
    true
}
