ghost use Rattle.std.specs.Prelude.{◌≡◌, ◌⊎◌, ◌<◌, ℕ, false, length, Contains, IfOk, IfSome, OnOk};
ghost use Rattle.std.specs.List.Sorted.{IsStrictlyIncreasing};
ghost use Rattle.p21_express_graph.specs.Above.{AreAbove};
ghost use Rattle.p21_express_graph.specs.Orders.{AreOrders, number_lists, numbers};
ghost use Rattle.p21_express_graph.specs.Prefixes.{AreRunPrefixes, IsRunPrefix, list_of, lists_in};
ghost use Rattle.p21_express_graph.specs.Resolved.{HoldsTogether};
ghost use Rattle.p21_express_graph.specs.SchemaContents.{schema_of};
ghost use Rattle.p21_express_graph.specs.SettledOrder.{nexts_of};

use crate::above::Above;
use crate::collected_lists::rising_numbers;
use crate::indexes::note_positions;
use crate::number::EntityId;
use crate::orders::{settled_entities, supertypes_of};
use crate::prefixes::{PrefixLists, RunPrefix};
use crate::schema_contents::SchemaContents;
use p21_values::NoMemory;
use std::alloc::Global;

/// A list of so many entities is short.
const MOST_OF_A_SHORT_LIST: usize = 64;

/// Lets entities look for their supertypes in the fronts of others, and for those outside of them in lists of their own, where
/// these are few: so a long run into which one entity alone would look needs no index.
pub(crate) fn share_fronts(
    alloc: Global,
    parts: &SchemaContents,
    orders: &PrefixLists,
    all: &mut Vec<Above>,
) -> Result<(), NoMemory>
    requires holds { HoldsTogether (schema_of parts.now) }
    requires prefixes { AreRunPrefixes orders.now }
    requires orders { AreOrders (schema_of parts.now) (lists_in orders.now) }
    requires above { AreAbove orders.now all.old.items }
    ensures { OnOk result (AreAbove orders.now all.new.items) }
{
    if !has_long(&orders.prefixes) {
        return Ok(());
    }
    let listed = settled_entities(alloc, parts)?;
    let mut indexed = vec![in alloc; false; orders.runs.len()]?;
    let mut places = vec![in alloc; 0; parts.entities.len()]?;
    for number in &listed {
        share_front(
            alloc,
            parts,
            orders,
            EntityId(*number),
            all,
            &mut indexed,
            &mut places,
        )?;
    }
    Ok(())
}

/// Whether one of the orders is long.
fn has_long(orders: &[RunPrefix]) -> bool {
    for order in orders {
        if order.size > MOST_OF_A_SHORT_LIST {
            return true;
        }
    }
    false
}

/// Lets an entity share a front, unless its own is of a run that is short or has an index anyway. The runs that have one are
/// marked.
fn share_front(
    alloc: Global,
    parts: &SchemaContents,
    orders: &PrefixLists,
    entity: EntityId,
    all: &mut Vec<Above>,
    indexed: &mut Vec<bool>,
    places: &mut Vec<usize>,
) -> Result<(), NoMemory>
    requires holds { HoldsTogether (schema_of parts.now) }
    requires prefixes { AreRunPrefixes orders.now }
    requires orders { AreOrders (schema_of parts.now) (lists_in orders.now) }
    requires entity { entity.0 < length (schema_of parts.now).entities }
    requires above { AreAbove orders.now all.old.items }
    requires indexed { length indexed.old.items ≡ length orders.now.runs.items }
    requires places { length places.old.items ≡ length (schema_of parts.now).entities }
    ensures above { OnOk result (AreAbove orders.now all.new.items) }
    ensures indexed { length indexed.new.items ≡ length indexed.old.items }
    ensures places { length places.new.items ≡ length places.old.items }
{
    let run = all[entity.0 as usize].front.run;
    if indexed[run] || orders.run(run).len() <= MOST_OF_A_SHORT_LIST {
        return Ok(());
    }
    let Some(front) = front_to_share(parts, orders, entity, all) else {
        indexed[run] = true;
        return Ok(());
    };
    let list = orders.list(entity.0);
    let others = others_of(alloc, list, orders.front(front), entity, places)?;
    all[entity.0 as usize] = Above { front, others };
    Ok(())
}

/// A front with supertypes of an entity alone, where few are outside of it: the largest one of a direct supertype, or where the
/// order is short, one with none.
fn front_to_share(
    parts: &SchemaContents,
    orders: &PrefixLists,
    entity: EntityId,
    all: &[Above],
) -> Option<RunPrefix>
    requires holds { HoldsTogether (schema_of parts.now) }
    requires prefixes { AreRunPrefixes orders.now }
    requires orders { AreOrders (schema_of parts.now) (lists_in orders.now) }
    requires entity { entity.0 < length (schema_of parts.now).entities }
    requires above { AreAbove orders.now all.now }
    ensures within { IfSome result (IsRunPrefix (number_lists orders.now.runs.items)) }
    ensures supertypes { IfSome result (λ front. (f : ℕ) → Contains (list_of (number_lists orders.now.runs.items) front) f → Contains (nexts_of (lists_in orders.now) entity.0) f) }
{
    let size = orders.prefix_of(entity.0).size;
    if size <= MOST_OF_A_SHORT_LIST {
        return Some(RunPrefix { run: 0, size: 0 });
    }
    let supertypes = supertypes_of(parts, entity.0);
    if supertypes.is_empty() {
        return None;
    }
    let supertype = supertypes[with_largest_front(all, supertypes)];
    let front = all[supertype.0 as usize].front;
    if front.size < size - size / 8 {
        return None;
    }
    Some(front)
}

/// Which of some entities has the largest front.
fn with_largest_front(all: &[Above], entities: &[EntityId]) -> usize
    requires some { 0 < length entities.now }
    requires there { (e : ℕ) → Contains (numbers entities.now) e → e < length all.now }
    ensures { result < length entities.now }
{
    let mut largest = 0;
    for at in 1..entities.len() {
        if front_size(all, entities[at]) > front_size(all, entities[largest]) {
            largest = at;
        }
    }
    largest
}

fn front_size(all: &[Above], entity: EntityId) -> usize
    requires { entity.0 < length all.now }
{
    all[entity.0 as usize].front.size
}

/// What is in a list and not in a front, but for an entity, rising. The places of the front are noted on the way.
fn others_of(
    alloc: Global,
    list: &[EntityId],
    front: &[EntityId],
    entity: EntityId,
    places: &mut Vec<usize>,
) -> Result<Vec<u32>, NoMemory>
    requires list { (e : ℕ) → Contains (numbers list.now) e → e < length places.old.items }
    requires front { (e : ℕ) → Contains (numbers front.now) e → e < length places.old.items }
    ensures rising { IfOk result (λ others. IsStrictlyIncreasing others.items) }
    ensures within { IfOk result (λ others. (f : ℕ) → Contains others.items f → Contains (numbers list.now) f) }
    ensures rest { IfOk result (λ others. (f : ℕ) → Contains (numbers list.now) f → Contains (numbers front.now) f ⊎ (Contains others.items f ⊎ (f ≡ entity.0))) }
    ensures places { length places.new.items ≡ length places.old.items }
{
    note_positions(front, places);
    let outside = outside_of(alloc, list, front, entity, places)?;
    Ok(rising_numbers(outside))
}

/// What is in a list and not in a front whose places are noted, but for an entity.
fn outside_of(
    alloc: Global,
    list: &[EntityId],
    front: &[EntityId],
    entity: EntityId,
    places: &[usize],
) -> Result<Vec<u32>, NoMemory>
    requires { (e : ℕ) → Contains (numbers list.now) e → e < length places.now }
    ensures within { IfOk result (λ outside. (f : ℕ) → Contains outside.items f → Contains (numbers list.now) f) }
    ensures rest { IfOk result (λ outside. (f : ℕ) → Contains (numbers list.now) f → Contains (numbers front.now) f ⊎ (Contains outside.items f ⊎ (f ≡ entity.0))) }
{
    let mut outside = Vec::with_capacity(alloc, list.len().saturating_sub(front.len()))?;
    for other in list {
        if is_outside(front, entity, *other, places) {
            outside.push(other.0)?;
        }
    }
    Ok(outside)
}

/// Whether another entity is not in a front whose places are noted.
fn is_outside(front: &[EntityId], entity: EntityId, other: EntityId, places: &[usize]) -> bool
    requires { other.0 < length places.now }
    ensures { result ≡ false → Contains (numbers front.now) other.0 ⊎ (other.0 ≡ entity.0) }
{
    if other.0 == entity.0 {
        return false;
    }
    match front.get(places[other.0 as usize]) {
        Some(found) => found.0 != other.0,
        None => true,
    }
}
