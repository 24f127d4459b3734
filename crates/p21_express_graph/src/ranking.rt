//! Names of entities are put in order twice, where they are kept and where the entities are ranked. Each order by name
//! after that sorts ranks, which are numbers.
ghost use Rattle.std.specs.Prelude.{◌≡◌, ◌<◌, ◌^◌, ℕ, List, Some, length, map, slice_get, slice_index_or, Contains, IfOk};
ghost use Rattle.std.specs.List.{AllZip};
ghost use Rattle.p21_spec_schema.specs.Schema.{EntityNamed};
ghost use Rattle.p21_express_graph.specs.Orders.{numbers};
ghost use Rattle.p21_express_graph.specs.SchemaContents.{schema_of, AreNamed};
ghost use Rattle.p21_express_graph.specs.Ranking.{IsRanking};
ghost use Rattle.p21_express_graph.specs.Resolved.{HoldsTogether};
ghost use Rattle.p21_express_graph.specs.Rising.{texts_of};

use crate::number::EntityId;
use crate::schema_contents::{Entity, SchemaContents};
use p21_values::NoMemory;
use std::alloc::Global;

/// The entities of a schema, rising by name, and for each entity its rank: its place among these.
#[derive(Drop)]
pub struct Ranking {
    pub rising: Vec<EntityId>,
    pub ranks: Vec<u32>,
}

/// The entities of a schema ranked by their names.
///
/// # Errors
///
/// `NoMemory`.
pub fn rank_entities(alloc: Global, parts: &SchemaContents) -> Result<Ranking, NoMemory>
    requires named { AreNamed parts.now }
    requires holds { HoldsTogether (schema_of parts.now) }
    ensures { IfOk result (λ found. IsRanking (schema_of parts.now) (numbers found.rising.items) found.ranks.items) }
{
    let mut names = names_of(alloc, &parts.entities)?;
    names.sort_unstable();
    let rising = entities_named(alloc, parts, &names)?;
    let ranks = ranks_of(alloc, parts.entities.len(), &rising)?;
    Ok(Ranking { rising, ranks })
}

fn names_of(alloc: Global, entities: &[Entity]) -> Result<Vec<&[u8]>, NoMemory>
    ensures { IfOk result (λ names. texts_of names.items ≡ map (λ x. x.name) entities.now) }
{
    let mut names = Vec::with_capacity(alloc, entities.len())?;
    for entity in entities {
        let entity: &Entity = entity;
        names.push(entity.name.bytes())?;
    }
    Ok(names)
}

fn entities_named(
    alloc: Global,
    parts: &SchemaContents,
    names: &[&[u8]],
) -> Result<Vec<EntityId>, NoMemory>
    requires named { AreNamed parts.now }
    requires holds { HoldsTogether (schema_of parts.now) }
    requires among { (name : List ℕ) → Contains (texts_of names.now) name → Contains (map (λ x. x.name) (schema_of parts.now).entities) name }
    ensures { IfOk result (λ entities. AllZip (EntityNamed (schema_of parts.now)) (numbers entities.items) (texts_of names.now)) }
{
    let mut entities = Vec::with_capacity(alloc, names.len())?;
    for name in names {
        entities.push(entity_named(parts, name))?;
    }
    Ok(entities)
}

/// The entity of a name that is there.
fn entity_named(parts: &SchemaContents, name: &[u8]) -> EntityId
    requires named { AreNamed parts.now }
    requires holds { HoldsTogether (schema_of parts.now) }
    requires among { Contains (map (λ x. x.name) (schema_of parts.now).entities) name.now }
    ensures { EntityNamed (schema_of parts.now) result.0 name.now }
{
    match parts.names.entities.position(name) {
        Some(at) => EntityId(at as u32),
        None => unreachable!(),
    }
}

/// The ranks of so many entities, where these are the entities in their order.
fn ranks_of(alloc: Global, count: usize, rising: &[EntityId]) -> Result<Vec<u32>, NoMemory>
    requires within { (e : ℕ) → Contains (numbers rising.now) e → e < count }
    requires few { length rising.now < 2 ^ 32 }
    ensures size { IfOk result (λ ranks. length ranks.items ≡ count) }
    ensures each { IfOk result (λ ranks. (e : ℕ) → Contains (numbers rising.now) e → slice_get (numbers rising.now) (slice_index_or ranks.items e 0) ≡ Some e) }
{
    let mut ranks = vec![in alloc; 0; count]?;
    for rank in 0..rising.len() {
        let entity = rising[rank];
        ranks[entity.0 as usize] = rank as u32;
    }
    Ok(ranks)
}
