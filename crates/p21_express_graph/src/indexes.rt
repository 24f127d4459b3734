ghost use Rattle.std.specs.Prelude.{◌≡◌, ◌↔◌, ◌<◌, ℕ, List, Some, length, map, slice_get, slice_index_or, take, true, Contains, IfOk, IsTrue};
ghost use Rattle.p21_express_graph.specs.Prefixes.{AreBelow};
ghost use Rattle.p21_express_graph.specs.Indexes.{AreIndexes, AreUsed, HaveFirstPositions, IsIndex};
ghost use Rattle.p21_express_graph.specs.Orders.{numbers, number_lists};

use crate::above::Above;
use crate::collected_lists::rising_numbers;
use crate::number::EntityId;
use crate::orders::numbers_of;
use p21_values::NoMemory;
use std::alloc::Global;

/// The numbers of the entities of a run, rising, and for each the first place where it stands there.
#[derive(Drop)]
pub struct Index {
    pub numbers: Vec<u32>,
    pub places: Vec<usize>,
}

/// The indexes of runs whose entities are so many. A run of which no front is taken has an empty one.
///
/// # Errors
///
/// `NoMemory`.
pub fn indexes_of(
    alloc: Global,
    count: usize,
    runs: &[Vec<EntityId>],
    all: &[Above],
) -> Result<Vec<Index>, NoMemory>
    requires below { AreBelow count (number_lists runs.now) }
    requires within { (k : ℕ) (above : Above) → slice_get all.now k ≡ Some above → above.front.run < length runs.now }
    ensures { IfOk result (λ indexes. AreIndexes (number_lists runs.now) all.now indexes.items) }
{
    let used = used_runs(alloc, runs.len(), all)?;
    let mut places = vec![in alloc; 0; count]?;
    let mut indexes = Vec::with_capacity(alloc, runs.len())?;
    for at in 0..runs.len() {
        let index = index_where(alloc, used[at], &runs[at], &mut places)?;
        indexes.push(index)?;
    }
    Ok(indexes)
}

/// For each of so many runs, whether a front is taken of it.
fn used_runs(alloc: Global, count: usize, all: &[Above]) -> Result<Vec<bool>, NoMemory>
    requires { (k : ℕ) (above : Above) → slice_get all.now k ≡ Some above → above.front.run < count }
    ensures size { IfOk result (λ used. length used.items ≡ count) }
    ensures used { IfOk result (λ used. AreUsed all.now used.items) }
{
    let mut used = vec![in alloc; false; count]?;
    for above in all {
        let above: &Above = above;
        used[above.front.run] = true;
    }
    Ok(used)
}

/// The index of a run that is used, or an empty one.
fn index_where(
    alloc: Global,
    used: bool,
    run: &[EntityId],
    places: &mut Vec<usize>,
) -> Result<Index, NoMemory>
    requires { (e : ℕ) → Contains (numbers run.now) e → e < length places.old.items }
    ensures size { length places.new.items ≡ length places.old.items }
    ensures index { IfOk result (λ index. used ≡ true → IsIndex (numbers run.now) index.numbers.items index.places.items) }
{
    if used {
        return index_of(alloc, run, places);
    }
    Ok(Index {
        numbers: Vec::new(alloc),
        places: Vec::new(alloc),
    })
}

/// The index of a run; its places are noted on the way.
fn index_of(alloc: Global, run: &[EntityId], places: &mut Vec<usize>) -> Result<Index, NoMemory>
    requires { (e : ℕ) → Contains (numbers run.now) e → e < length places.old.items }
    ensures size { length places.new.items ≡ length places.old.items }
    ensures index { IfOk result (λ index. IsIndex (numbers run.now) index.numbers.items index.places.items) }
{
    let rising = rising_numbers(numbers_of(alloc, run)?);
    note_positions(run, places);
    let found = positions_at(alloc, places, &rising)?;
    Ok(Index {
        numbers: rising,
        places: found,
    })
}

/// Notes for each entity of a run the first place where it stands there.
pub(crate) fn note_positions(run: &[EntityId], places: &mut Vec<usize>)
    requires { (e : ℕ) → Contains (numbers run.now) e → e < length places.old.items }
    ensures size { length places.new.items ≡ length places.old.items }
    ensures first { HaveFirstPositions (numbers run.now) places.new.items 0 }
{
    let count = run.len();
    for past in 0..count {
        let place = count - 1 - past;
        let entity = run[place];
        places[entity.0 as usize] = place;
    }
}

/// The places that are noted for numbers.
fn positions_at(alloc: Global, places: &[usize], numbers: &[u32]) -> Result<Vec<usize>, NoMemory>
    requires { (e : ℕ) → Contains numbers.now e → e < length places.now }
    ensures { IfOk result (λ found. found.items ≡ map (λ e. slice_index_or places.now e 0) numbers.now) }
{
    let mut found = Vec::with_capacity(alloc, numbers.len())?;
    for number in numbers {
        found.push(places[*number as usize])?;
    }
    Ok(found)
}

impl Index {
    /// Whether a number is among so many entities of the run.
    pub fn has(&self, number: u32, size: usize) -> bool
        requires { length self.now.places.items ≡ length self.now.numbers.items }
        ensures { (run : List ℕ) → IsIndex run self.now.numbers.items self.now.places.items → IsTrue result ↔ Contains (take size run) number }
    {
        match self.numbers.binary_search(&number) {
            Ok(at) => self.places[at] < size,
            Err(_) => false,
        }
    }
}
