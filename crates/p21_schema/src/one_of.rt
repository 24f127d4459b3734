//! Two entities of one ONEOF list are found by the numbers of the lists that each of them stands in, with no memory:
//! then long lists cost nothing, and neither do entities that stand in no list.
ghost use Rattle.std.specs.Prelude.{◌≡◌, ◌↔◌, ◌<◌, ◌≤◌, ℕ, length, slice_index_or, Contains, IfOk, IsTrue};
ghost use Rattle.std.specs.List.Sorted.{IsStrictlyIncreasing};
ghost use Rattle.p21_spec_schema.specs.OneOf.{Clashes};
ghost use Rattle.p21_express_graph.specs.Orders.{numbers};
ghost use Rattle.p21_express_graph.specs.SchemaContents.{schema_of};
ghost use Rattle.p21_express_graph.specs.Resolved.{HoldsTogether};
ghost use Rattle.p21_express_graph.specs.SettledOrder.{lists_of};
ghost use Rattle.p21_schema.specs.OneOf.{AreListedIn, ClashesWith, IsListedIn};

use crate::schema::Schema;
use p21_express_graph::inverted_lists::inverted_lists;
use p21_express_graph::{EntityId, SchemaContents};
use p21_values::NoMemory;
use std::alloc::Global;

impl Schema {
    /// Whether a list has two different entities of one ONEOF list (ISO 10303-11, Subtype/supertype constraints). It
    /// takes no memory.
    pub fn clashes(&self, entities: &[EntityId]) -> bool
        ensures { IsTrue result ↔ Clashes self.now (numbers entities.now) }
    {
        for entity in entities {
            if self.clashes_with(*entity, entities) {
                return true;
            }
        }
        false
    }

    /// Whether an entity stands in one ONEOF list with another one of a list.
    fn clashes_with(&self, entity: EntityId, entities: &[EntityId]) -> bool
        ensures { IsTrue result ↔ ClashesWith self.now (numbers entities.now) entity.0 }
    {
        let lists = self.lists_with(entity);
        if lists.is_empty() {
            return false;
        }
        for other in entities {
            if other.0 != entity.0 && have_common(lists, self.lists_with(*other)) {
                return true;
            }
        }
        false
    }

    /// The numbers of the ONEOF lists with an entity, in rising order.
    pub(crate) fn lists_with(&self, entity: EntityId) -> &[usize]
        ensures each { (k : ℕ) → Contains result.now k ↔ IsListedIn self.now k entity.0 }
        ensures rising { IsStrictlyIncreasing result.now }
    {
        self.hierarchy.lists_with(entity)
    }
}

fn have_common(numbers: &[usize], others: &[usize]) -> bool
    requires rising { IsStrictlyIncreasing numbers.now }
    requires others_rising { IsStrictlyIncreasing others.now }
    ensures { IsTrue result ↔ ((k : ℕ) × Contains numbers.now k × Contains others.now k) }
{
    let mut place = 0;
    for number in numbers {
        place = position_from(others, place, *number);
        if place < others.len() && others[place] == *number {
            return true;
        }
    }
    false
}

/// The first place from one on whose number isn't below this one.
fn position_from(numbers: &[usize], first: usize, number: usize) -> usize
    requires { first ≤ length numbers.now }
    ensures from { first ≤ result }
    ensures within { result ≤ length numbers.now }
    ensures below { (k : ℕ) → first ≤ k → k < result → slice_index_or numbers.now k 0 < number }
    ensures not_below { result < length numbers.now → number ≤ slice_index_or numbers.now result 0 }
{
    for place in first..numbers.len() {
        if numbers[place] >= number {
            return place;
        }
    }
    numbers.len()
}

/// For each entity the numbers of the ONEOF lists with it, in rising order.
pub(crate) fn all_listed_in(
    alloc: Global,
    parts: &SchemaContents,
) -> Result<Vec<Vec<usize>>, NoMemory>
    requires { HoldsTogether (schema_of parts.now) }
    ensures { IfOk result (λ lists. AreListedIn (schema_of parts.now) (lists_of lists.items)) }
{
    let lists = inverted_lists(alloc, parts.entities.len(), &parts.one_of_lists)?;
    Ok(lists)
}
