//! Names found by name.
//!
//! A table has the position of each name, and lines stand in the order in which they came (`NamedLines`, `NameTable`),
//! so that nothing is kept twice. Names that came first by equal steps, as by one or by ten in nearly every file, are a
//! run: a first one, a step and a count, which take no memory and say where each stands. Pages have the others, and a
//! tree those that no page has. Only names in front of which all belong to the run come to it, so that its positions
//! are known without a list. The step costs a division where it isn't one; without it each name of a file that is
//! numbered by tens would take 40 bytes. Names that rise by no equal steps could stand in a list of their own, in 1 to
//! 4 bytes each, where a search by halves finds them; with a page for them a look-up is one read, and in exchange they
//! take what names in no order take.
//!
//! No list has the names. The view of `NameTable` needs the name at each position, and the code doesn't. There is one
//! list at most at whose positions run, pages and tree find names; so that there is one is a fact, which a ghost field
//! may state (`NamesOf`), and the view reads the list from it.
ghost use Rattle.std.specs.Prelude.{◌≡◌, ◌+◌, ◌<◌, ◌≤◌, ◌^◌, ℕ, [], ◌∷◌, ◌++◌, length, slice_get, Contains, IfSome, IsNone, MatchBool, None, OnErr, OnOk, Some, true};
ghost use Rattle.std.specs.BTreeMap.{get};
ghost use Rattle.std.specs.Ordering.{nat_cmp};
ghost use Rattle.p21_stream_store.specs.Numbering.{AreOnce};
ghost use Rattle.p21_stream_store.specs.Pages.{most_names};
ghost use Rattle.p21_stream_store.specs.Positions.{Changes, IsSame, NamesOf, NamesOf-prop, position_beside, position_in, position_marked};
ghost use Rattle.p21_stream_store.specs.Runs.{numbers_by};
ghost use Rattle.p21_stream_store.specs.Tables.{GrowsWithin, KeepsRoom};

use crate::pages::Pages;
use crate::runs::Run;
use p21_values::NoMemory;
use std::alloc::Global;
use std::collections::BTreeMap;
use std::marker::Model;

/// More names than memory holds, so that sums of counts stay in 64 bits.
const MOST: usize = 1 << 62;
/// So many names stand in a page of the table.
const PAGE: u64 = 4_096;

/// Names in the order in which they came, none of them twice, found by name. Those that came first are a run, while they rise by
/// equal steps, and take no memory. Pages have the positions of the others whose page is there, as of nearly all in a usual file;
/// a tree has those of the rest, so that no choice of names makes a search slow or the pages many.
#[derive(Drop)]
pub struct NameTable {
    // So many names there are.
    count: usize,
    // The names that came first.
    run: Run,
    // At each name one more than its position, or 0.
    marks: Pages<u32>,
    others: BTreeMap<u64, usize>,
    ghost few: { count ≤ 2 ^ 62 },
    ghost names: { NamesOf (position_in run marks others) count } by { NamesOf-prop (position_in run marks others) count },
}

impl Model for NameTable {
    ghost use Rattle.std.specs.Prelude.{List, ℕ};

    ghost Value = { List ℕ };

    ghost view = { λ a. a.names.0 };
}

impl NameTable {
    /// A table without names. It takes no memory.
    pub fn new(alloc: Global) -> NameTable
        ensures { result ≡ [] }
    {
        NameTable {
            count: 0,
            run: Run::new(),
            marks: Pages::new(alloc),
            others: BTreeMap::new(alloc),
        }
    }

    /// How many names there are.
    pub fn len(&self) -> usize
        ensures len { result ≡ length self.now }
        ensures small { result + 2 ^ 32 < 2 ^ 63 }
    {
        self.count
    }

    /// Whether each name rises by one step above the one that came before it.
    pub fn are_run(&self) -> bool
        ensures rising { result ≡ true → (first : ℕ) × (step : ℕ) × (0 < step) × (self.now ≡ numbers_by first step (length self.now)) }
        ensures few { result ≡ true → length self.now < 2 ^ 32 }
    {
        self.run.rises();
        self.run.len() == self.count
    }

    /// The position of a name.
    pub fn position_of(&self, name: u64) -> Option<usize>
        ensures some { IfSome result (λ place. slice_get self.now place ≡ Some name) }
        ensures none { IsNone result → Contains self.now name → ⊥ }
    {
        position_found(&self.run, &self.marks, &self.others, name)
    }

    /// The first name from this one on, and its position.
    pub fn next_from(&self, least: u64) -> Option<(u64, usize)>
        ensures found { IfSome result (λ found. (least ≤ found.0) × (found.0 < 2 ^ 64) × (slice_get self.now found.1 ≡ Some found.0)) }
        ensures between { IfSome result (λ found. (other : ℕ) → least ≤ other → other < found.0 → Contains self.now other → ⊥) }
        ensures none { IsNone result → (other : ℕ) → least ≤ other → Contains self.now other → ⊥ }
        ensures fits { (other : ℕ) → Contains self.now other → other < 2 ^ 64 }
    {
        next_position(&self.run, &self.marks, &self.others, least)
    }

    /// The first name behind this one, and its position. No name stands at two positions.
    pub fn next_behind(&self, name: u64) -> Option<(u64, usize)>
        ensures found { IfSome result (λ found. (name + 1 ≤ found.0) × (found.0 < 2 ^ 64) × (slice_get self.now found.1 ≡ Some found.0)) }
        ensures between { IfSome result (λ found. (other : ℕ) → name + 1 ≤ other → other < found.0 → Contains self.now other → ⊥) }
        ensures none { IsNone result → (other : ℕ) → name + 1 ≤ other → Contains self.now other → ⊥ }
        ensures once { AreOnce self.now }
    {
        position_behind(&self.run, &self.marks, &self.others, name)
    }

    /// Adds a name that isn't there yet.
    ///
    /// # Errors
    ///
    /// `NoMemory`, which changes nothing.
    pub fn push(&mut self, name: u64) -> Result<(), NoMemory>
        requires { Contains self.old name → ⊥ }
        ensures ok { OnOk result (self.new ≡ self.old ++ name ∷ []) }
        ensures err { OnErr result (self.new ≡ self.old) }
    {
        if self.count >= MOST {
            return Err(NoMemory);
        }
        let Ok(()) = add_position(
            &mut self.run,
            &mut self.marks,
            &mut self.others,
            name,
            self.count,
        ) else {
            return Err(NoMemory);
        };
        self.count += 1;
        Ok(())
    }
}

/// The first name that is not below this, and its position. A name of the run takes no look at the others.
fn next_position(
    run: &Run,
    marks: &Pages<u32>,
    others: &BTreeMap<u64, usize>,
    least: u64,
) -> Option<(u64, usize)>
    ensures found { IfSome result (λ found. (least ≤ found.0) × (found.0 < 2 ^ 64)
        × (position_in run.now marks.now others.now found.0 ≡ Some found.1)) }
    ensures between { IfSome result (λ found. (other : ℕ) → least ≤ other → other < found.0
        → position_in run.now marks.now others.now other ≡ None) }
    ensures none { IsNone result → (other : ℕ) → least ≤ other → other < 2 ^ 64 → position_in run.now marks.now others.now other ≡ None }
{
    let Some((name, place)) = run.next_from(least) else {
        return next_beside(marks, others, least);
    };
    if name == least {
        return Some((name, place));
    }
    match next_beside(marks, others, least) {
        Some((below, its_place)) if below < name => Some((below, its_place)),
        _ => Some((name, place)),
    }
}

/// The first name behind this one, and its position.
fn position_behind(
    run: &Run,
    marks: &Pages<u32>,
    others: &BTreeMap<u64, usize>,
    name: u64,
) -> Option<(u64, usize)>
    ensures found { IfSome result (λ found. (name + 1 ≤ found.0) × (found.0 < 2 ^ 64)
        × (position_in run.now marks.now others.now found.0 ≡ Some found.1)) }
    ensures between { IfSome result (λ found. (other : ℕ) → name + 1 ≤ other → other < found.0
        → position_in run.now marks.now others.now other ≡ None) }
    ensures none { IsNone result → (other : ℕ) → name + 1 ≤ other → other < 2 ^ 64 → position_in run.now marks.now others.now other ≡ None }
{
    let least = name.checked_add(1)?;
    next_position(run, marks, others, least)
}

/// The first name of the pages and of the tree that is not below this, and its position. No page is looked at behind that of the
/// tree's name.
fn next_beside(
    marks: &Pages<u32>,
    others: &BTreeMap<u64, usize>,
    least: u64,
) -> Option<(u64, usize)>
    ensures found { IfSome result (λ found. (least ≤ found.0) × (found.0 < 2 ^ 64)
        × (position_beside marks.now others.now found.0 ≡ Some found.1)) }
    ensures between { IfSome result (λ found. (other : ℕ) → least ≤ other → other < found.0
        → position_beside marks.now others.now other ≡ None) }
    ensures none { IsNone result → (other : ℕ) → least ≤ other → other < 2 ^ 64 → position_beside marks.now others.now other ≡ None }
{
    let other = first_from(others, least);
    let last = match other {
        Some((name, _)) => name,
        None => u64::MAX,
    };
    let Some((name, mark)) = marks.next_from(least, last) else {
        return other;
    };
    match other {
        Some((below, place)) if below < name => Some((below, place)),
        _ => Some((name, mark as usize - 1)),
    }
}

/// The first name of a tree that is not below this, and its position.
fn first_from(others: &BTreeMap<u64, usize>, least: u64) -> Option<(u64, usize)>
    ensures found { IfSome result (λ found. (least ≤ found.0) × (get nat_cmp others.now found.0 ≡ Some found.1)) }
    ensures between { IfSome result (λ found. (other : ℕ) → least ≤ other → other < found.0 → get nat_cmp others.now other ≡ None) }
    ensures none { IsNone result → (other : ℕ) → least ≤ other → get nat_cmp others.now other ≡ None }
{
    if others.is_empty() {
        return None;
    }
    match others.range(least..).next() {
        Some((name, place)) => Some((*name, *place)),
        None => None,
    }
}

/// The position of a name.
fn position_found(
    run: &Run,
    marks: &Pages<u32>,
    others: &BTreeMap<u64, usize>,
    name: u64,
) -> Option<usize>
    ensures { result ≡ position_in run.now marks.now others.now name }
{
    match run.position_of(name) {
        Some(place) => Some(place),
        None => stored_position(marks, others, name),
    }
}

/// The position of a name by the pages or the tree.
fn stored_position(marks: &Pages<u32>, others: &BTreeMap<u64, usize>, name: u64) -> Option<usize>
    ensures { result ≡ position_beside marks.now others.now name }
{
    match marked_position(marks, name) {
        Some(place) => Some(place),
        None => others.get(&name).copied(),
    }
}

/// The position that is marked for a name.
fn marked_position(marks: &Pages<u32>, name: u64) -> Option<usize>
    ensures { result ≡ position_marked marks.now name }
{
    match marks.get(name, 0) {
        0 => None,
        mark => Some(mark as usize - 1),
    }
}

/// Stores the position of a name that has none: in the run, if it has all names so far and this is its next one. So many names have
/// come. An `Err` leaves all positions as they are.
fn add_position(
    run: &mut Run,
    marks: &mut Pages<u32>,
    others: &mut BTreeMap<u64, usize>,
    name: u64,
    place: usize,
) -> Result<(), NoMemory>
    requires { position_in run.old marks.old others.old name ≡ None }
    ensures ok { OnOk result (Changes (position_in run.old marks.old others.old) name (Some place)
        (position_in run.new marks.new others.new)) }
    ensures err { OnErr result (IsSame (position_in run.old marks.old others.old) (position_in run.new marks.new others.new)) }
    ensures room { GrowsWithin (most_names place) marks.old marks.new }
{
    if extend(run, name, place) {
        return Ok(());
    }
    let Ok(()) = store_position(marks, others, name, place) else {
        return Err(NoMemory);
    };
    Ok(())
}

/// Adds a name to the run, if it has all names so far and this is its next one; says whether it did. So many names have come.
fn extend(run: &mut Run, name: u64, count: usize) -> bool
    ensures { MatchBool result ((run.new ≡ run.old ++ name ∷ []) × (count ≡ length run.old)) (run.new ≡ run.old) }
{
    run.len() == count && run.push(name as usize)
}

/// Stores the position of a name that has none, in the pages or in the tree. An `Err` leaves all positions as they are.
fn store_position(
    marks: &mut Pages<u32>,
    others: &mut BTreeMap<u64, usize>,
    name: u64,
    place: usize,
) -> Result<(), NoMemory>
    requires { position_beside marks.old others.old name ≡ None }
    ensures ok { OnOk result (Changes (position_beside marks.old others.old) name (Some place) (position_beside marks.new others.new)) }
    ensures err { OnErr result (IsSame (position_beside marks.old others.old) (position_beside marks.new others.new)) }
    ensures room { GrowsWithin (most_names place) marks.old marks.new }
{
    if mark(marks, name, place) {
        return Ok(());
    }
    let Ok(()) = make_page(marks, others, name, place) else {
        return Err(NoMemory);
    };
    if mark(marks, name, place) {
        return Ok(());
    }
    let Ok(_) = others.insert(name, place) else {
        return Err(NoMemory);
    };
    Ok(())
}

/// Makes the page of a name, where the table may have one more, and moves there what the tree has of its names. So many names
/// have come. No position changes.
fn make_page(
    marks: &mut Pages<u32>,
    others: &mut BTreeMap<u64, usize>,
    name: u64,
    count: usize,
) -> Result<(), NoMemory>
    ensures same { IsSame (position_beside marks.old others.old) (position_beside marks.new others.new) }
    ensures room { GrowsWithin (most_names count) marks.old marks.new }
{
    let marked = count.saturating_sub(others.len());
    match marks.make_page(name, marked, 0) {
        Ok(true) => move_names(marks, others, name - name % PAGE),
        Ok(false) => {}
        Err(fault) => return Err(fault),
    }
    Ok(())
}

/// Moves names from the tree to the pages, from a name on, while their pages are there. No position changes.
fn move_names(marks: &mut Pages<u32>, others: &mut BTreeMap<u64, usize>, from: u64)
    ensures same { IsSame (position_beside marks.old others.old) (position_beside marks.new others.new) }
    ensures room { KeepsRoom marks.old marks.new }
{
    for _ in 0..PAGE {
        let Some((name, place)) = first_from(others, from) else {
            return;
        };
        if marked_position(marks, name).is_some() || !mark(marks, name, place) {
            return;
        }
        others.remove(&name);
    }
}

/// Marks the position of a name, if its page is there; says whether it is.
fn mark(marks: &mut Pages<u32>, name: u64, place: usize) -> bool
    ensures marked { MatchBool result (Changes (position_marked marks.old) name (Some place) (position_marked marks.new))
        (marks.new ≡ marks.old) }
    ensures room { KeepsRoom marks.old marks.new }
{
    if place >= u32::MAX as usize {
        return false;
    }
    marks.set(name, place as u32 + 1)
}
