//! Sets of entities that instances of external mapping had (ISO 10303-21, mapping of EXPRESS entity data types: external
//! mapping).
//!
//! Of instances of external form the shorter way takes those whose keywords rise, as the standard demands, and whose
//! set has several leaves: then the canonical line has the simple records in the order of the file. A session keeps
//! their sets (`Sets`), each tested once by the functions of the general way, and found by a tree. Before that it tries
//! the one that was taken last behind bytes like the first ones of the simple records: that is the right one for nearly
//! all, also where instances of several sets come in turn. What it keeps of a set is less than what the file says of
//! it, since each of its entities is named there.
ghost use Rattle.std.specs.Arc.{arc_slice_items};
ghost use Rattle.std.specs.Prelude.{◌≡◌, ◌+◌, ◌<◌, ◌≤◌, [], List, ℕ, Some, length, slice_get, IfSome, IsTrue};
ghost use Rattle.p21_express_graph.specs.Orders.{numbers};
ghost use Rattle.p21_spec_schema.specs.Schema.{Schema as Meant};
ghost use Rattle.p21_shorter_instances.specs.ExternalSet.{AreExternalSets, IsExternalSet};

use p21_express_graph::EntityId;
use p21_values::NoMemory;
use std::alloc::Global;
use std::collections::BTreeMap;
use std::marker::Model;
use std::sync::ArcSlice;

/// How many guesses are kept.
const GUESSES: usize = 64;

/// Sets of entities that were found to be ones of external mapping, so that none is looked at again for each of its instances.
pub struct Sets {
    all: Vec<ArcSlice<EntityId>>,
    // The number of each. What is found so is held against the keywords of the instance.
    numbers: BTreeMap<ArcSlice<EntityId>, usize>,
    // For some bytes at the front of simple records the number of the set that was taken last behind bytes like these. It is a
    // guess, which is held against the keywords before it counts.
    guesses: [usize; GUESSES],
}

// Written out: crates above call it, where they would prove a derived one field by field.
impl Drop for Sets {
    fn drop(self) {
        let Sets {
            all: _,
            numbers: _,
            guesses: _,
        } = self;
    }
}

impl Model for Sets {
    ghost use Rattle.std.specs.Prelude.{List, ℕ};
    ghost use Rattle.p21_shorter_instances.specs.ExternalSet.{sets_of};

    ghost Value = { List (List ℕ) };

    ghost view = { λ sets. sets_of sets.all.items };
}

impl Sets {
    /// None. It takes no memory.
    pub fn new(alloc: Global) -> Sets
        ensures { result ≡ [] }
    {
        Sets {
            all: Vec::new(alloc),
            numbers: BTreeMap::new(alloc),
            guesses: [0; GUESSES],
        }
    }

    /// The set of this number. It takes no memory.
    #[inline(always)]
    pub(crate) fn get(&self, at: usize) -> Option<&[EntityId]>
        ensures { IfSome result (λ set. slice_get self.now at ≡ Some (numbers set.now)) }
    {
        let set = self.all.get(at)?;
        Some(set.as_slice())
    }

    /// The number of the set that simple records may have, by their first bytes. It takes no memory.
    pub(crate) fn guess(&self, records: &[u8]) -> usize {
        self.guesses[guess_of(records)]
    }

    /// Has this number be the guess for simple records like these.
    pub(crate) fn expect(&mut self, records: &[u8], at: usize)
        ensures { self.new ≡ self.old }
    {
        self.guesses[guess_of(records)] = at;
    }

    /// The number of a set, if it is kept. It takes no memory.
    pub(crate) fn find(&self, set: &ArcSlice<EntityId>) -> Option<usize> {
        self.numbers.get(set).copied()
    }

    /// Keeps a set, and answers its number.
    pub(crate) fn keep(&mut self, set: ArcSlice<EntityId>) -> Result<usize, NoMemory>
        ensures kept { (s : Meant) → AreExternalSets s self.old → IsExternalSet s (numbers (arc_slice_items set))
            → AreExternalSets s self.new }
        ensures one { length self.new ≤ length self.old + 1 }
    {
        let at = self.all.len();
        let shared = set.clone()?;
        self.all.push(shared)?;
        let _before = self.numbers.insert(set, at)?;
        Ok(at)
    }
}

/// Where the guess for simple records is kept: what tells most sets apart stands in their first keyword, or right behind a
/// short one.
fn guess_of(records: &[u8]) -> usize
    ensures { result < GUESSES }
{
    let Some((front, _)) = records.split_first_chunk::<14>() else {
        return 0;
    };
    let first = usize::from(front[0]);
    let fifth = usize::from(front[4]);
    let tenth = usize::from(front[9]);
    let last = usize::from(front[13]);
    (first + fifth * 3 + tenth * 5 + last * 7) % GUESSES
}

/// Whether the entities are the same, one by one.
pub(crate) fn are_same(entities: &[EntityId], others: &[EntityId]) -> bool
    ensures { IsTrue result → numbers entities.now ≡ numbers others.now }
{
    if entities.len() != others.len() {
        return false;
    }
    for at in 0..entities.len() {
        if entities[at].0 != others[at].0 {
            return false;
        }
    }
    true
}
