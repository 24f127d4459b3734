ghost use Rattle.std.specs.Prelude.{◌≡◌, length, map};
ghost use Rattle.std.specs.List.{enumerate_from};
ghost use Rattle.p21_express_outline.specs.Finding.{FindsEach};
ghost use Rattle.p21_express_outline.specs.Known.{AreFew, names_of};
ghost use Rattle.p21_express.specs.Found.{HasDistinctAttributes};
ghost use Rattle.p21_express_outline.specs.Redeclarations.{RedeclarationsAre};
ghost use Rattle.p21_express_syntax.specs.Views.{entity_view};
ghost use Rattle.p21_express_graph.specs.Redeclaring.{redeclaring};

use crate::attribute_names::AttributeNames;
use crate::redeclarations::redeclarations_of;
use p21_express_graph::{EntityId, KnownNames, Redeclarations};
use p21_express_outline::SchemaFault;
use p21_express_syntax::Entity as Declared;
use p21_schema::Hierarchy;
use std::alloc::Global;

/// What each entity redeclares, in a hierarchy in which nothing is redeclared.
pub(crate) fn all_redeclarations(
    alloc: Global,
    hierarchy: &Hierarchy,
    known: &KnownNames,
    declared: &[Declared],
) -> Result<Vec<Redeclarations>, SchemaFault>
    requires few { AreFew known.now }
    requires each { length declared.now ≡ length hierarchy.now.entities }
    requires attributes_distinct { HasDistinctAttributes hierarchy.now }
    ensures { FindsEach redeclaring (λ own found. RedeclarationsAre hierarchy.now (names_of known.now) (map entity_view declared.now) own.0
        own.1 found) (enumerate_from 0 (map entity_view declared.now)) result }
{
    hierarchy.holds_together();
    let names = AttributeNames::of(alloc, hierarchy, declared)?;
    let mut found = Vec::new(alloc);
    for own in declared {
        let own: &Declared = own;
        let entity = EntityId(found.len() as u32);
        found.push(redeclarations_of(alloc, hierarchy, &names, known, declared, entity, own)?)?;
    }
    Ok(found)
}
