ghost use Rattle.std.specs.Prelude.{◌≡◌, ◌<◌, [], ℕ, length, Contains, IfOk, IfSome, IsTrue};
ghost use Rattle.p21_express_graph.specs.Above.{AreAbove, EndsFront, HasAbove};
ghost use Rattle.p21_express_graph.specs.Orders.{AreOrders, number_lists, numbers};
ghost use Rattle.p21_express_graph.specs.Prefixes.{AreRunPrefixes, lists_in};
ghost use Rattle.p21_express_graph.specs.Resolved.{HoldsTogether};
ghost use Rattle.p21_express_graph.specs.SchemaContents.{schema_of};
ghost use Rattle.p21_express_graph.specs.SettledOrder.{nexts_of};

use crate::number::EntityId;
use crate::orders::supertypes_of;
use crate::prefixes::{PrefixLists, RunPrefix, begins_with};
use crate::schema_contents::SchemaContents;
use crate::sharing::share_fronts;
use p21_values::NoMemory;
use std::alloc::Global;

/// What has the proper supertypes of an entity, and no other entity but itself: a front of a run, and those outside of it,
/// rising.
#[derive(Drop)]
pub struct Above {
    pub front: RunPrefix,
    pub others: Vec<u32>,
}

/// What has the proper supertypes of each entity. Entities with the same supertypes share a front, whatever runs their orders
/// are; one with many supertypes shares that of a supertype, where few are outside of it.
///
/// # Errors
///
/// `NoMemory`.
pub fn all_above(
    alloc: Global,
    parts: &SchemaContents,
    orders: &PrefixLists,
) -> Result<Vec<Above>, NoMemory>
    requires holds { HoldsTogether (schema_of parts.now) }
    requires prefixes { AreRunPrefixes orders.now }
    requires orders { AreOrders (schema_of parts.now) (lists_in orders.now) }
    ensures { IfOk result (λ all. AreAbove orders.now all.items) }
{
    let mut all = fronts_above(alloc, parts, orders)?;
    share_fronts(alloc, parts, orders, &mut all)?;
    Ok(all)
}

/// The same, with all of them in the fronts.
fn fronts_above(
    alloc: Global,
    parts: &SchemaContents,
    orders: &PrefixLists,
) -> Result<Vec<Above>, NoMemory>
    requires holds { HoldsTogether (schema_of parts.now) }
    requires prefixes { AreRunPrefixes orders.now }
    requires orders { AreOrders (schema_of parts.now) (lists_in orders.now) }
    ensures { IfOk result (λ all. AreAbove orders.now all.items) }
{
    let count = parts.entities.len();
    let mut all = Vec::with_capacity(alloc, count)?;
    for number in 0..count {
        let entity = EntityId(number as u32);
        let front = front_above(orders, entity, supertypes_of(parts, entity.0));
        all.push(Above {
            front,
            others: Vec::new(alloc),
        })?;
    }
    Ok(all)
}

/// The front that has the proper supertypes of an entity: one of the run of its first supertype, where that begins with its
/// order but the last, else its order.
fn front_above(orders: &PrefixLists, entity: EntityId, supertypes: &[EntityId]) -> RunPrefix
    requires prefixes { AreRunPrefixes orders.now }
    requires there { entity.0 < length orders.now.prefixes.items }
    requires supertypes { (e : ℕ) → Contains (numbers supertypes.now) e → e < length orders.now.prefixes.items }
    requires itself { Contains (nexts_of (lists_in orders.now) entity.0) entity.0 }
    ensures { HasAbove orders.now entity.0 result [] }
{
    let own = orders.prefix_of(entity.0);
    match run_above(orders, entity, supertypes) {
        Some(run) => RunPrefix {
            run,
            size: own.size - 1,
        },
        None => own,
    }
}

/// The run of the first supertype, where it begins with the order of an entity but the last.
fn run_above(orders: &PrefixLists, entity: EntityId, supertypes: &[EntityId]) -> Option<usize>
    requires prefixes { AreRunPrefixes orders.now }
    requires there { entity.0 < length orders.now.prefixes.items }
    requires supertypes { (e : ℕ) → Contains (numbers supertypes.now) e → e < length orders.now.prefixes.items }
    ensures there { IfSome result (λ run. run < length orders.now.runs.items) }
    ensures ends { IfSome result (λ run. EndsFront (nexts_of (lists_in orders.now) entity.0) (nexts_of (number_lists orders.now.runs.items) run) entity.0) }
{
    if supertypes.is_empty() {
        return None;
    }
    let front = orders.prefix_of(supertypes[0].0);
    if ends_front(orders.list(entity.0), orders.run(front.run), entity) {
        return Some(front.run);
    }
    None
}

/// Whether a list is a front of a run with one entity behind it.
fn ends_front(list: &[EntityId], run: &[EntityId], last: EntityId) -> bool
    ensures { IsTrue result → EndsFront (numbers list.now) (numbers run.now) last.0 }
{
    if list.is_empty() {
        return false;
    }
    let size = list.len() - 1;
    list[size].0 == last.0 && begins_with(run, &list[..size])
}
