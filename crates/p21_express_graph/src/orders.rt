ghost use Rattle.std.specs.Prelude.{◌≡◌, ◌<◌, ℕ, [], ◌∷◌, ◌++◌, length, map, Contains, IfOk, OnOk};
ghost use Rattle.std.specs.List.{flat_map};
ghost use Rattle.p21_spec_schema.specs.Order.{order};
ghost use Rattle.p21_spec_schema.specs.Supertype.{supertypes_of as supertypes};
ghost use Rattle.p21_express_graph.specs.Prefixes.{AreBelow, AreRunPrefixes, lists_in};
ghost use Rattle.p21_express_graph.specs.Closed.{AreClosed};
ghost use Rattle.p21_express_graph.specs.Gathering.{add_firsts};
ghost use Rattle.p21_express_graph.specs.Orders.{AreOrders, numbers, supertype_lists, number_lists};
ghost use Rattle.p21_express_graph.specs.SchemaContents.{schema_of};
ghost use Rattle.p21_express_graph.specs.Resolved.{HoldsTogether};
ghost use Rattle.p21_express_graph.specs.SettledOrder.{IsSettledOrder, lists_of, nexts_of};

use crate::gathered::GatheredEntities;
use crate::number::EntityId;
use crate::prefixes::PrefixLists;
use crate::schema_contents::{Entity, SchemaContents};
use crate::settle::settled_order;
use p21_values::NoMemory;
use std::alloc::Global;

/// The order of each entity.
///
/// # Errors
///
/// `NoMemory`.
pub fn all_orders(alloc: Global, parts: &SchemaContents) -> Result<PrefixLists, NoMemory>
    requires { HoldsTogether (schema_of parts.now) }
    ensures prefixes { IfOk result AreRunPrefixes }
    ensures orders { IfOk result (λ orders. AreOrders (schema_of parts.now) (lists_in orders)) }
    ensures below { IfOk result (λ orders. AreBelow (length (schema_of parts.now).entities) (number_lists orders.runs.items)) }
{
    let listed = settled_entities(alloc, parts)?;
    orders(alloc, parts, &listed)
}

/// The entities, each behind its supertypes.
pub(crate) fn settled_entities(alloc: Global, parts: &SchemaContents) -> Result<Vec<u32>, NoMemory>
    requires { HoldsTogether (schema_of parts.now) }
    ensures { IfOk result (λ listed. IsSettledOrder (supertype_lists (schema_of parts.now)) listed.items) }
{
    let lists = supertype_numbers(alloc, &parts.entities)?;
    match settled_order(alloc, &lists)? {
        Some(listed) => Ok(listed),
        None => unreachable!(),
    }
}

fn supertype_numbers(alloc: Global, entities: &[Entity]) -> Result<Vec<Vec<u32>>, NoMemory>
    ensures { IfOk result (λ lists. lists_of lists.items ≡ map (λ x. numbers x.supertypes.items) entities.now) }
{
    let mut lists = Vec::with_capacity(alloc, entities.len())?;
    for entity in entities {
        let entity: &Entity = entity;
        lists.push(numbers_of(alloc, &entity.supertypes)?)?;
    }
    Ok(lists)
}

/// The numbers of entities, in their order.
///
/// # Errors
///
/// `NoMemory`.
pub fn numbers_of(alloc: Global, entities: &[EntityId]) -> Result<Vec<u32>, NoMemory>
    ensures { IfOk result (λ found. found.items ≡ numbers entities.now) }
{
    let mut found = Vec::with_capacity(alloc, entities.len())?;
    for entity in entities {
        let entity: &EntityId = entity;
        found.push(entity.0)?;
    }
    Ok(found)
}

/// The order of each entity, where each is listed behind its supertypes.
fn orders(alloc: Global, parts: &SchemaContents, listed: &[u32]) -> Result<PrefixLists, NoMemory>
    requires holds { HoldsTogether (schema_of parts.now) }
    requires settled_order { IsSettledOrder (supertype_lists (schema_of parts.now)) listed.now }
    ensures prefixes { IfOk result AreRunPrefixes }
    ensures orders { IfOk result (λ orders. AreOrders (schema_of parts.now) (lists_in orders)) }
    ensures below { IfOk result (λ orders. AreBelow (length (schema_of parts.now).entities) (number_lists orders.runs.items)) }
{
    let count = parts.entities.len();
    let mut gathered = GatheredEntities::new(alloc, count)?;
    let mut orders = PrefixLists::new(alloc, count)?;
    for number in listed {
        let supertypes = supertypes_of(parts, *number);
        gather(parts, supertypes, EntityId(*number), &orders, &mut gathered)?;
        let list = gathered.take()?;
        orders.put(*number, list, supertypes)?;
    }
    Ok(orders)
}

/// The direct supertypes of an entity, as listed.
pub(crate) fn supertypes_of(parts: &SchemaContents, entity: u32) -> &[EntityId]
    requires { entity < length (schema_of parts.now).entities }
    ensures { numbers result.now ≡ supertypes (schema_of parts.now) entity }
{
    &parts.entities[entity as usize].supertypes
}

/// Gathers the orders of the supertypes, then the entity itself.
fn gather(
    parts: &SchemaContents,
    supertypes: &[EntityId],
    entity: EntityId,
    orders: &PrefixLists,
    gathered: &mut GatheredEntities,
) -> Result<(), NoMemory>
    requires holds { HoldsTogether (schema_of parts.now) }
    requires prefixes { AreRunPrefixes orders.now }
    requires there { (e : ℕ) → Contains (numbers supertypes.now) e → e < length orders.now.prefixes.items }
    requires entities { (e : ℕ) → Contains (numbers supertypes.now) e → e < length (schema_of parts.now).entities }
    requires orders { (e : ℕ) → Contains (numbers supertypes.now) e → nexts_of (lists_in orders.now) e ≡ order (schema_of parts.now) e }
    requires count { gathered.old.count ≡ length (schema_of parts.now).entities }
    requires none { gathered.old.numbers ≡ [] }
    requires entity { entity.0 < gathered.old.count }
    ensures { OnOk result (gathered.new ≡ record { count = gathered.old.count; numbers = add_firsts gathered.old.numbers (flat_map (nexts_of (lists_in orders.now)) (numbers supertypes.now) ++ entity.0 ∷ []) }) }
{
    for supertype in supertypes {
        gather_order(parts, *supertype, orders, gathered)?;
    }
    gathered.add(entity)?;
    Ok(())
}

/// Gathers the order of an entity. Where its supertypes are there, only itself is left of it.
fn gather_order(
    parts: &SchemaContents,
    entity: EntityId,
    orders: &PrefixLists,
    gathered: &mut GatheredEntities,
) -> Result<(), NoMemory>
    requires holds { HoldsTogether (schema_of parts.now) }
    requires prefixes { AreRunPrefixes orders.now }
    requires there { entity.0 < length orders.now.prefixes.items }
    requires entity { entity.0 < length (schema_of parts.now).entities }
    requires order { nexts_of (lists_in orders.now) entity.0 ≡ order (schema_of parts.now) entity.0 }
    requires count { gathered.old.count ≡ length (schema_of parts.now).entities }
    requires closed { AreClosed (schema_of parts.now) gathered.old.numbers }
    ensures { OnOk result (gathered.new ≡ record { count = gathered.old.count; numbers = add_firsts gathered.old.numbers (nexts_of (lists_in orders.now) entity.0) }) }
{
    let supertypes = supertypes_of(parts, entity.0);
    if gathered.has_all(supertypes) {
        gathered.add(entity)?;
        return Ok(());
    }
    gathered.add_all(orders.list(entity.0))?;
    Ok(())
}
