//! The outline copies words, so that the declarations stay whole for the redeclarations. It refuses a type that is just
//! the name of an entity; one that is just the name of a SELECT is refused later, since that is a fact of the whole
//! schema.
ghost use Rattle.std.specs.Prelude.{◌≡◌, ◌+◌, ◌≤◌, length, map};
ghost use Rattle.p21_express_outline.specs.Finding.{AddsEach, FindsEach};
ghost use Rattle.p21_express_outline.specs.Known.{AreFew, names_of};
ghost use Rattle.p21_express_outline.specs.Outlined.{OutlineFound, list_of};
ghost use Rattle.p21_express_outline.specs.Outline.{DigestOneOfIs, digest_one_of_lists, one_of_list};
ghost use Rattle.p21_express_syntax.specs.Views.{entity_view, schema_view, some_list};
ghost use Rattle.p21_spec_schema.specs.Declared.{most_declarations};

use crate::defined::resolve_types;
use crate::entity::resolve_entities;
use crate::fault::SchemaFault;
use crate::lists::{copied, entities_named};
use crate::names::{check_distinct, known_names};
use p21_express_graph::{EntityId, KnownNames, SchemaContents};
use p21_express_syntax::{Declarations, Entity};
use p21_values::Word;
use std::alloc::Global;

/// Adds a ONEOF list, if there is one.
fn add_list(
    alloc: Global,
    known: &KnownNames,
    names: &Option<Vec<Word>>,
    out: &mut Vec<Vec<EntityId>>,
) -> Result<(), SchemaFault>
    requires { AreFew known.now }
    ensures { AddsEach list_of (DigestOneOfIs (names_of known.now)) (one_of_list (some_list names.now)) result out.old out.new }
{
    match names {
        Some(names) => {
            check_distinct(alloc, names)?;
            let found = entities_named(alloc, known, names)?;
            out.push(found)?;
            Ok(())
        }
        None => Ok(()),
    }
}

/// The ONEOF lists of all entities.
fn resolve_lists(
    alloc: Global,
    known: &KnownNames,
    declared: &[Entity],
) -> Result<Vec<Vec<EntityId>>, SchemaFault>
    requires { AreFew known.now }
    ensures { FindsEach list_of (DigestOneOfIs (names_of known.now)) (digest_one_of_lists (map entity_view declared.now)) result }
{
    let mut found = Vec::new(alloc);
    for entity in declared {
        let entity: &Entity = entity;
        add_list(alloc, known, &entity.constraint.one_of, &mut found)?;
    }
    Ok(found)
}

/// What declarations declare, all but what they redeclare.
///
/// # Errors
///
/// `Duplicate` for a name twice among the entities and types, in a SUBTYPE OF, a ONEOF list, an enumeration or a select, or
/// among the new attributes of an entity; `UnknownName` for a name that isn't declared, a supertype or a name of a ONEOF
/// list that is no entity, and a type that is just the name of an entity; `NoMemory`.
pub fn outline(alloc: Global, declarations: &Declarations) -> Result<SchemaContents, SchemaFault>
    requires { length declarations.now.entities.items + length declarations.now.types.items ≤ most_declarations }
    ensures { OutlineFound (schema_view declarations.now) result }
{
    let known = known_names(alloc, declarations)?;
    let entities = resolve_entities(alloc, &known, &declarations.entities)?;
    let one_of_lists = resolve_lists(alloc, &known, &declarations.entities)?;
    let types = resolve_types(alloc, &known, &declarations.types)?;
    let name = copied(alloc, &declarations.name)?;
    Ok(SchemaContents {
        name,
        names: known,
        entities,
        types,
        one_of_lists,
    })
}
