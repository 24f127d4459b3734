ghost use Rattle.std.specs.Prelude.{◌≡◌, ◌≤◌, IfOk, length, map};
ghost use Rattle.p21_spec_schema.specs.Declared.{HasNoCircle, HasSupertype, most_declarations};
ghost use Rattle.p21_spec_schema.specs.WellFormed.{AreEntities};
ghost use Rattle.p21_express_outline.specs.Finding.{DecidesClaim};
ghost use Rattle.p21_express_graph.specs.Orders.{numbers};
ghost use Rattle.p21_express_graph.specs.SchemaContents.{schema_of};
ghost use Rattle.p21_express_graph.specs.SettledOrder.{lists_of};

use crate::chains::check_ends;
use crate::fault::SchemaFault;
use p21_express_graph::{Entity, EntityId, SchemaContents};
use p21_values::NoMemory;
use std::alloc::Global;

fn numbers_of(alloc: Global, entities: &[EntityId]) -> Result<Vec<u32>, NoMemory>
    ensures { IfOk result (λ found. found.items ≡ numbers entities.now) }
{
    let mut found = Vec::with_capacity(alloc, entities.len())?;
    for entity in entities {
        let entity: &EntityId = entity;
        found.push(entity.0)?;
    }
    Ok(found)
}

fn supertype_numbers(alloc: Global, entities: &[Entity]) -> Result<Vec<Vec<u32>>, NoMemory>
    ensures { IfOk result (λ lists. lists_of lists.items ≡ map (λ x. numbers x.supertypes.items) entities.now) }
{
    let mut lists = Vec::with_capacity(alloc, entities.len())?;
    for entity in entities {
        let entity: &Entity = entity;
        lists.push(numbers_of(alloc, &entity.supertypes)?)?;
    }
    Ok(lists)
}

/// No chain of supertypes comes back.
///
/// # Errors
///
/// `Circular`, `NoMemory`.
pub fn check_supertypes(alloc: Global, parts: &SchemaContents) -> Result<(), SchemaFault>
    requires few { length parts.now.entities.items ≤ most_declarations }
    requires within { AreEntities (schema_of parts.now) }
    ensures { DecidesClaim (HasNoCircle (HasSupertype (schema_of parts.now))) result }
{
    let lists = supertype_numbers(alloc, &parts.entities)?;
    check_ends(alloc, &lists)
}
