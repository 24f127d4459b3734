//! Whether closures clash is found with one table of all ONEOF lists. Each entity of a closure is noted at its lists,
//! with the number of the entity whose closure it is; so nothing is cleared between two closures, a note costs a few
//! steps where a tree would cost a walk, and what a closure costs is at most the lists in which its entities stand. A
//! set of a file has a tree of its own in place of the table, since the schema may have many more lists than the set.
ghost use Rattle.std.specs.Prelude.{◌≡◌, ◌≢◌, ◌↔◌, ◌++◌, ◌∷◌, ◌<◌, [], ℕ, List, length, slice_get, IfOk, IsTrue, MatchBool, Some};
ghost use Rattle.std.specs.List.{AllByRecursion as Each};
ghost use Rattle.std.specs.BTreeMap.{get};
ghost use Rattle.std.specs.Ordering.{nat_cmp};
ghost use Rattle.p21_spec_schema.specs.OneOf.{Clashes};
ghost use Rattle.p21_spec_schema.specs.Order.{order};
ghost use Rattle.p21_express_graph.specs.Orders.{numbers};
ghost use Rattle.p21_express_graph.specs.Resolved.{IsEntity};
ghost use Rattle.p21_schema.specs.NotedEntities.{AreNoted, IsNone, NoneNoted, Notes, NotesSet, noted_in};
ghost use Rattle.p21_schema.specs.OneOf.{ClashesWith};
ghost use Rattle.p21_schema.specs.OwnSets.{AreOwnClashes};

use crate::hierarchy::Hierarchy;
use crate::schema::Schema;
use p21_express_graph::EntityId;
use p21_values::NoMemory;
use std::alloc::Global;
use std::collections::BTreeMap;

/// So many entities are looked at in pairs.
const MOST_IN_PAIRS: usize = 16;

/// For each ONEOF list the entity that was noted there last.
#[derive(Drop)]
struct Holders {
    of_lists: Vec<Option<Holder>>,
}

/// An entity of the own set of another one.
#[derive(Clone, Copy, Drop)]
struct Holder {
    set: u32,
    entity: u32,
}

impl Holders {
    /// At so many lists none is noted.
    fn new(alloc: Global, lists: usize) -> Result<Holders, NoMemory>
        ensures size { IfOk result (λ holders. length holders.of_lists.items ≡ lists) }
        ensures none { IfOk result (λ holders. Each IsNone holders.of_lists.items) }
    {
        let mut of_lists = Vec::with_capacity(alloc, lists)?;
        for _ in 0..lists {
            of_lists.push(None)?;
        }
        Ok(Holders { of_lists })
    }

    /// The entity that was noted last at a list.
    fn last(&self, list: usize) -> Option<Holder>
        requires { list < length self.now.of_lists.items }
        ensures { slice_get self.now.of_lists.items list ≡ Some result }
    {
        self.of_lists[list]
    }

    /// The entity of an own set that is noted at a list.
    fn find(&self, set: u32, list: usize) -> Option<u32>
        requires { list < length self.now.of_lists.items }
        ensures { result ≡ noted_in self.now.of_lists.items set list }
    {
        match self.last(list) {
            Some(holder) => {
                if holder.set == set {
                    Some(holder.entity)
                } else {
                    None
                }
            }
            None => None,
        }
    }

    /// Notes an entity of an own set at a list.
    fn note(&mut self, set: u32, list: usize, entity: u32)
        requires { list < length self.old.of_lists.items }
        ensures { Notes set list entity self.old.of_lists.items self.new.of_lists.items }
    {
        self.of_lists[list] = Some(Holder { set, entity });
    }

    /// Whether another entity of an own set is noted at a list.
    fn has_other(&self, set: u32, list: usize, entity: u32) -> bool
        requires { list < length self.now.of_lists.items }
        ensures { MatchBool result ((other : ℕ) × (noted_in self.now.of_lists.items set list ≡ Some other) × (other ≢ entity))
            ((other : ℕ) → noted_in self.now.of_lists.items set list ≡ Some other → other ≡ entity) }
    {
        match self.find(set, list) {
            Some(other) => other != entity,
            None => false,
        }
    }
}

impl Schema {
    /// Whether a list has two different entities of one ONEOF list (ISO 10303-11, Subtype/supertype constraints), at the
    /// cost of the lists in which they stand.
    ///
    /// # Errors
    ///
    /// `NoMemory`.
    pub fn find_clash(&self, entities: &[EntityId]) -> Result<bool, NoMemory>
        ensures { IfOk result (λ clash. IsTrue clash ↔ Clashes self.now (numbers entities.now)) }
    {
        if entities.len() <= MOST_IN_PAIRS {
            return Ok(self.clashes(entities));
        }
        self.find_noted(entities)
    }

    /// The same, with a note at each list of the entity that stands in it.
    fn find_noted(&self, entities: &[EntityId]) -> Result<bool, NoMemory>
        ensures { IfOk result (λ clash. IsTrue clash ↔ Clashes self.now (numbers entities.now)) }
    {
        let mut holders = BTreeMap::new(self.alloc);
        for entity in entities {
            let beside = self.stands_beside(*entity, &mut holders)?;
            if beside {
                return Ok(true);
            }
        }
        Ok(false)
    }

    /// Notes an entity at each list in which it stands, unless another one stands there.
    fn stands_beside(
        &self,
        entity: EntityId,
        holders: &mut BTreeMap<usize, u32>,
    ) -> Result<bool, NoMemory>
        ensures { IfOk result (λ beside. (seen : List ℕ) → AreNoted self.now seen (get nat_cmp holders.old)
            → MatchBool beside (ClashesWith self.now seen entity.0) (AreNoted self.now (seen ++ entity.0 ∷ []) (get nat_cmp holders.new))) }
    {
        for number in self.lists_with(entity) {
            if has_other(holders, *number, entity.0) {
                return Ok(true);
            }
            let Ok(_) = holders.insert(*number, entity.0) else {
                return Err(NoMemory);
            };
        }
        Ok(false)
    }
}

impl Hierarchy {
    /// Whether the own set of each entity clashes.
    pub(crate) fn all_own_clashes(&self, alloc: Global) -> Result<Vec<bool>, NoMemory>
        ensures { IfOk result (λ clashes. AreOwnClashes self.now clashes.items) }
    {
        self.holds_together();
        let mut holders = Holders::new(alloc, self.one_of_lists())?;
        let mut clashes = Vec::with_capacity(alloc, self.entities())?;
        for number in 0..self.entities() {
            clashes.push(self.find_own_clash(EntityId(number as u32), &mut holders))?;
        }
        Ok(clashes)
    }

    /// Whether two entities of the own set of an entity stand in one ONEOF list; `holders` has none of that set.
    fn find_own_clash(&self, set: EntityId, holders: &mut Holders) -> bool
        requires entity { IsEntity self.now set.0 }
        requires size { length holders.old.of_lists.items ≡ length self.now.one_of_lists }
        requires none { NoneNoted set.0 holders.old.of_lists.items }
        ensures clash { IsTrue result ↔ Clashes self.now (order self.now set.0) }
        ensures noted { NotesSet set.0 holders.old.of_lists.items holders.new.of_lists.items }
    {
        for entity in self.order_of(set) {
            if self.is_beside(*entity, set, holders) {
                return true;
            }
        }
        false
    }

    /// Notes an entity of an own set at each list in which it stands, unless another one stands there.
    fn is_beside(&self, entity: EntityId, set: EntityId, holders: &mut Holders) -> bool
        requires { length holders.old.of_lists.items ≡ length self.now.one_of_lists }
        ensures clash { (seen : List ℕ) → AreNoted self.now seen (noted_in holders.old.of_lists.items set.0)
            → MatchBool result (ClashesWith self.now seen entity.0)
            (AreNoted self.now (seen ++ entity.0 ∷ []) (noted_in holders.new.of_lists.items set.0)) }
        ensures noted { NotesSet set.0 holders.old.of_lists.items holders.new.of_lists.items }
    {
        for number in self.lists_with(entity) {
            if holders.has_other(set.0, *number, entity.0) {
                return true;
            }
            holders.note(set.0, *number, entity.0);
        }
        false
    }
}

/// Whether another number is noted at a list.
fn has_other(holders: &BTreeMap<usize, u32>, list: usize, number: u32) -> bool
    ensures { MatchBool result ((other : ℕ) × (get nat_cmp holders.now list ≡ Some other) × (other ≢ number))
        ((other : ℕ) → get nat_cmp holders.now list ≡ Some other → other ≡ number) }
{
    match holders.get(&list) {
        Some(other) => *other != number,
        None => false,
    }
}
