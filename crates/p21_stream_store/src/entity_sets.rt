//! Sets of entities by number.
//!
//! An entity set is kept once, and has a number (`EntitySets`); a membership is the number of a section and that of a
//! set, 16 bytes however large the set is. A tree finds both: with a hash whose seed is fixed, whoever writes the file
//! chooses the sets that collide. There sets of fewer entities come first, so that most are told apart by their
//! lengths. Before the tree, one or two of 64 remembered memberships are compared, which nearly all instances need
//! alone: so two sets that take turns cost no search. Entities are compared 16 at a time, in lanes. An instance still
//! costs a comparison of its whole set, since nothing but equal entities says that a set is the one with a number. A
//! tree is asked by a key of its own type: so the entities that are looked for stand in a list that has room for those
//! of the largest set, and a set that is there is found without asking for memory.
ghost use Rattle.std.specs.Prelude.{◌≡◌, ◌<◌, ◌≤◌, [], length, slice_get, vec_capacity, Contains, IfOk, None, OnErr, OnOk, Some};
ghost use Rattle.std.specs.BTreeMap.{get_by};
ghost use Rattle.p21_mapping_values.specs.TypedView.{ids_view};
ghost use Rattle.p21_stream_store.specs.EntitySets.{AreNumberedSets, key_items, sets_of};
ghost use Rattle.p21_stream_store.specs.Numbering.{AreOnce, Interns};
ghost use Rattle.p21_stream_store.specs.SetOrder.{by_size};

use crate::room;
use crate::set_key::SetKey;
use p21_express_graph::EntityId;
use p21_values::NoMemory;
use std::alloc::Global;
use std::collections::BTreeMap;
use std::marker::Model;
use std::mem;
use std::sync::ArcSlice;

/// Sets of entities, each once, by numbers in the order in which they were met. A tree has the number of each, so that no
/// choice of sets slows a search beyond the logarithm of their count. List and tree share each set.
#[derive(Drop)]
pub struct EntitySets {
    all: Vec<ArcSlice<EntityId>>,
    numbers: BTreeMap<SetKey, usize>,
    // Where entities stand while their number is looked for. There is room for those of each set.
    sought: Vec<EntityId>,
}

impl Model for EntitySets {
    ghost use Rattle.std.specs.Prelude.{List, ℕ, vec_capacity};
    ghost use Rattle.p21_stream_store.specs.EntitySets.{AreNumberedSets, HaveRoom, sets_of};

    ghost Value = { List (List ℕ) };

    ghost view = { λ sets. sets_of sets.all.items };

    ghost invariant = { λ sets. AreNumberedSets sets.all.items sets.numbers × HaveRoom (vec_capacity sets.sought) (sets_of sets.all.items) };
}

impl EntitySets {
    /// None. It takes no memory.
    pub fn new(alloc: Global) -> EntitySets
        ensures { result ≡ [] }
    {
        EntitySets {
            all: Vec::new(alloc),
            numbers: BTreeMap::new(alloc),
            sought: Vec::new(alloc),
        }
    }

    /// The set of a number. It takes no memory.
    pub fn get(&self, number: usize) -> &[EntityId]
        requires { number < length self.now }
        ensures { slice_get self.now number ≡ Some (ids_view result.now) }
    {
        self.all[number].as_slice()
    }

    /// No set has two numbers. It does nothing.
    pub fn are_once(&self)
        ensures { AreOnce self.now }
    {
        let _ = &self.all;
    }

    /// The number of a set, which stays. A set that isn't there yet is added behind the others.
    ///
    /// # Errors
    ///
    /// `NoMemory`, which changes nothing; not where the set is there.
    pub fn add(&mut self, alloc: Global, entities: &[EntityId]) -> Result<usize, NoMemory>
        ensures ok { IfOk result (λ number. Interns self.old (ids_view entities.now) number self.new) }
        ensures err { OnErr result (self.new ≡ self.old) }
        ensures known { Contains self.old (ids_view entities.now) → OnErr result ⊥ }
    {
        let Ok(()) = copy(entities, &mut self.sought) else {
            return Err(NoMemory);
        };
        match number_of(&self.numbers, &mut self.sought) {
            Some(number) => Ok(number),
            None => push(alloc, &mut self.all, &mut self.numbers, entities),
        }
    }
}

/// Adds a set that isn't there behind the others, and says its number. An `Err` changes nothing.
fn push(
    alloc: Global,
    all: &mut Vec<ArcSlice<EntityId>>,
    numbers: &mut BTreeMap<SetKey, usize>,
    entities: &[EntityId],
) -> Result<usize, NoMemory>
    requires numbered { AreNumberedSets all.old.items numbers.old }
    requires absent { get_by (λ key. by_size entities.now (key_items key)) numbers.old ≡ None }
    ensures numbered { AreNumberedSets all.new.items numbers.new }
    ensures ok { IfOk result (λ number. Interns (sets_of all.old.items) (ids_view entities.now) number (sets_of all.new.items)) }
    ensures err { OnErr result (all.new.items ≡ all.old.items) }
{
    let number = all.len();
    let set = ArcSlice::from_slice(alloc, entities)?;
    let shared = set.clone()?;
    room::add(all, shared)?;
    let Ok(_) = numbers.insert(SetKey::Kept(set), number) else {
        all.pop();
        return Err(NoMemory);
    };
    Ok(number)
}

/// Copies entities to where others stood. Where there is room for them, nothing is asked for.
///
/// # Errors
///
/// `NoMemory`.
fn copy(entities: &[EntityId], into: &mut Vec<EntityId>) -> Result<(), NoMemory>
    ensures ok { OnOk result (into.new.items ≡ entities.now) }
    ensures room { OnOk result (length entities.now ≤ vec_capacity into.new) }
    ensures kept { vec_capacity into.old ≤ vec_capacity into.new }
    ensures full { OnErr result (vec_capacity into.old < length entities.now) }
{
    into.clear();
    into.reserve(entities.len())?;
    for entity in entities {
        into.push_reserved(*entity);
    }
    Ok(())
}

/// The number of the set of these entities, which stay, if a tree has it. It takes no memory.
fn number_of(numbers: &BTreeMap<SetKey, usize>, sought: &mut Vec<EntityId>) -> Option<usize>
    ensures number { result ≡ get_by (λ key. by_size sought.old.items (key_items key)) numbers.now }
    ensures sought { sought.new ≡ sought.old }
{
    let key = SetKey::Sought(mem::replace(sought, Vec::new(*sought.allocator())));
    let number = numbers.get(&key).copied();
    match key {
        SetKey::Sought(entities) => *sought = entities,
        SetKey::Kept(_set) => {}
    }
    number
}
