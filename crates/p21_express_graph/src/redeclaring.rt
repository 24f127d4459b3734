ghost use Rattle.std.specs.Prelude.{◌≡◌, IfOk, length, map};
ghost use Rattle.p21_express_graph.specs.SchemaContents.{AreNamed, entity as entity_of, schema_of};
ghost use Rattle.p21_express_graph.specs.Redeclaring.{redeclaring, redeclaring_as, redeclaring_each, redeclaring_schema};

use crate::schema_contents::{Entity, Redeclarations, SchemaContents};
use p21_values::NoMemory;
use std::alloc::Global;

/// SchemaContents with what their entities redeclare.
///
/// # Errors
///
/// `NoMemory`.
pub fn contents_with(
    alloc: Global,
    parts: SchemaContents,
    found: Vec<Redeclarations>,
) -> Result<SchemaContents, NoMemory>
    requires each { length parts.entities.items ≡ length found.items }
    requires named { AreNamed parts }
    ensures value { IfOk result (λ whole. schema_of whole ≡ redeclaring_schema (schema_of parts) (map redeclaring found.items)) }
    ensures named { IfOk result (λ whole. AreNamed whole) }
{
    let mut parts = parts;
    parts.entities = all_with_redeclarations(alloc, parts.entities, found)?;
    Ok(parts)
}

/// Entities, each with what it redeclares.
fn all_with_redeclarations(
    alloc: Global,
    bare: Vec<Entity>,
    found: Vec<Redeclarations>,
) -> Result<Vec<Entity>, NoMemory>
    requires { length bare.items ≡ length found.items }
    ensures { IfOk result (λ whole. map entity_of whole.items ≡ redeclaring_each (map entity_of bare.items) (map redeclaring found.items)) }
{
    let mut left = found.into_iter();
    let mut whole = Vec::with_capacity(alloc, bare.len())?;
    for entity in bare {
        let Some(found) = left.next() else {
            unreachable!()
        };
        whole.push(with_redeclarations(entity, found))?;
    }
    Ok(whole)
}

/// An entity with what it redeclares.
fn with_redeclarations(bare: Entity, found: Redeclarations) -> Entity
    ensures { entity_of result ≡ redeclaring_as (entity_of bare) (redeclaring found) }
{
    let mut entity = bare;
    entity.redeclared = found.redeclared;
    entity.derived = found.derived;
    entity
}
