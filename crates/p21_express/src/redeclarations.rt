ghost use Rattle.std.specs.Prelude.{map};
ghost use Rattle.p21_express_outline.specs.Known.{AreFew, names_of};
ghost use Rattle.p21_express.specs.AttributeNames.{AreNamesOf};
ghost use Rattle.p21_express.specs.Found.{RedeclarationsFound};
ghost use Rattle.p21_express_syntax.specs.Views.{entity_view};
ghost use Rattle.p21_express_graph.specs.Resolved.{IsEntity};

use crate::attribute_names::AttributeNames;
use crate::derived::derived_of;
use crate::distinct::check_places;
use crate::redeclared::redeclared_of;
use p21_express_graph::{EntityId, KnownNames, Redeclarations};
use p21_express_outline::SchemaFault;
use p21_express_syntax::Entity;
use p21_schema::Hierarchy;
use std::alloc::Global;

/// What an entity redeclares (ISO 10303-11, Attribute redeclaration). `own` is its declaration, one of those of all
/// entities.
///
/// # Errors
///
/// `RedeclaredPlace` for a redeclaration that stands for no place or for several, `UnknownName` for a type that isn't
/// declared, `Duplicate` for a place that is redeclared twice, `NoMemory`.
pub(crate) fn redeclarations_of(
    alloc: Global,
    hierarchy: &Hierarchy,
    names: &AttributeNames,
    known: &KnownNames,
    declared: &[Entity],
    entity: EntityId,
    own: &Entity,
) -> Result<Redeclarations, SchemaFault>
    requires few { AreFew known.now }
    requires entity { IsEntity hierarchy.now entity.0 }
    requires names { AreNamesOf hierarchy.now names.now }
    ensures { RedeclarationsFound hierarchy.now (names_of known.now) (map entity_view declared.now) entity.0 (entity_view own.now) result }
{
    hierarchy.well_formed();
    let redeclared = redeclared_of(alloc, hierarchy, names, known, entity, &own.explicit)?;
    let derived = derived_of(alloc, hierarchy, names, entity, declared, &own.derived)?;
    check_places(alloc, &redeclared, &derived)?;
    Ok(Redeclarations {
        redeclared,
        derived,
    })
}
