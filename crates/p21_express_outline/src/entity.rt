ghost use Rattle.std.specs.Prelude.{[], map};
ghost use Rattle.p21_express_outline.specs.Entities.{EntityFound};
ghost use Rattle.p21_express_outline.specs.Finding.{Finds, FindsEach};
ghost use Rattle.p21_express_outline.specs.Known.{AreFew, names_of};
ghost use Rattle.p21_express_outline.specs.Outline.{EntityOutline};
ghost use Rattle.p21_express_syntax.specs.Views.{entity_view};
ghost use Rattle.p21_express_graph.specs.SchemaContents.{entity as entity_of};

use crate::attributes::own_attributes;
use crate::fault::SchemaFault;
use crate::lists::{copied, entities_named};
use crate::names::{check_attribute_names, check_distinct};
use p21_express_graph::{Entity, KnownNames};
use p21_express_syntax::Entity as Declared;
use std::alloc::Global;

/// An entity, all but what it redeclares.
fn resolve_entity(
    alloc: Global,
    known: &KnownNames,
    declared: &Declared,
) -> Result<Entity, SchemaFault>
    requires { AreFew known.now }
    ensures { Finds entity_of (EntityFound (names_of known.now) (entity_view declared.now)) result }
{
    check_distinct(alloc, &declared.supertypes)?;
    check_attribute_names(alloc, declared)?;
    let supertypes = entities_named(alloc, known, &declared.supertypes)?;
    let attributes = own_attributes(alloc, known, &declared.explicit)?;
    Ok(Entity {
        name: copied(alloc, &declared.name)?,
        is_abstract: declared.constraint.is_abstract,
        supertypes,
        attributes,
        redeclared: Vec::new(alloc),
        derived: Vec::new(alloc),
    })
}

/// All entities, all but what they redeclare.
pub(crate) fn resolve_entities(
    alloc: Global,
    known: &KnownNames,
    declared: &[Declared],
) -> Result<Vec<Entity>, SchemaFault>
    requires { AreFew known.now }
    ensures { FindsEach entity_of (EntityFound (names_of known.now)) (map entity_view declared.now) result }
{
    let mut found = Vec::new(alloc);
    for entity in declared {
        let entity: &Declared = entity;
        found.push(resolve_entity(alloc, known, entity)?)?;
    }
    Ok(found)
}
