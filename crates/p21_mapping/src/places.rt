ghost use Rattle.std.specs.Prelude.{◌≡◌, ◌↔◌, ℕ, length, IfOk, IsTrue, MatchBool, Contains};
ghost use Rattle.std.specs.List.{AllByRecursion as Each, AllZip, flat_map};
ghost use Rattle.p21_express_graph.specs.Lookups.{AreEntities};
ghost use Rattle.p21_express_graph.specs.Orders.{numbers};
ghost use Rattle.p21_express_graph.specs.Resolved.{IsEntity};
ghost use Rattle.p21_express_graph.specs.Meaning.{place_type};
ghost use Rattle.p21_spec_file.specs.Meaning.{HasPlaceTypes};
ghost use Rattle.p21_grammar_tree.specs.View.{part_views};
ghost use Rattle.p21_spec_schema.specs.Order.{own_places};
ghost use Rattle.p21_spec_schema.specs.PlaceType.{two_redeclarations};
ghost use Rattle.p21_mapping.specs.Shape.{HasOpenPlace, HasOpenPlaceOf, HasCount, HasOtherCount};

use crate::among::type_among;
use crate::positions::Positions;
use p21_express_graph::{EntityId, Place, PlaceType};
use p21_grammar_tree::Part;
use p21_schema::Schema;
use p21_values::NoMemory;
use std::alloc::Global;

/// Whether redeclarations leave a place of a set of entities open (ISO 10303-11, Attribute redeclaration).
pub(crate) fn has_open_place(
    alloc: Global,
    schema: &Schema,
    set: &Positions<'_>,
) -> Result<bool, NoMemory>
    requires { AreEntities schema.now set.now }
    ensures { IfOk result (λ found. MatchBool found (HasOpenPlace schema.now set.now) (Each (HasPlaceTypes schema.now set.now) set.now)) }
{
    let entities = set.entities();
    for entity in entities {
        let found = has_open_place_of(alloc, schema, set, *entity)?;
        if found {
            return Ok(true);
        }
    }
    Ok(false)
}

fn has_open_place_of(
    alloc: Global,
    schema: &Schema,
    set: &Positions<'_>,
    entity: EntityId,
) -> Result<bool, NoMemory>
    requires set { AreEntities schema.now set.now }
    requires entity { IsEntity schema.now entity.0 }
    ensures { IfOk result (λ found. MatchBool found (HasOpenPlaceOf schema.now set.now entity.0)
        (HasPlaceTypes schema.now set.now entity.0)) }
{
    for index in 0..schema.attribute_count(entity) {
        let at = type_among(alloc, schema, set, Place { entity, index })?;
        if is_open(&at) {
            return Ok(true);
        }
    }
    Ok(false)
}

/// Whether redeclarations leave a place open.
fn is_open(at: &PlaceType<'_>) -> bool
    ensures { IsTrue result ↔ (place_type at.now ≡ two_redeclarations) }
{
    matches!(at, PlaceType::Two)
}

/// Whether there are as many parameters as places of all the entities.
pub(crate) fn has_count(schema: &Schema, listed: &[EntityId], params: usize) -> bool
    requires { AreEntities schema.now (numbers listed.now) }
    ensures { IsTrue result ↔ (params ≡ length (flat_map (own_places schema.now) (numbers listed.now))) }
{
    let mut rest = params;
    for owner in listed {
        let own = schema.attribute_count(*owner) as usize;
        if rest < own {
            return false;
        }
        rest -= own;
    }
    rest == 0
}

/// Whether each simple record has as many parameters as its entity places of its own.
pub(crate) fn have_counts(schema: &Schema, listed: &[EntityId], parts: &[Part]) -> bool
    requires entities { AreEntities schema.now (numbers listed.now) }
    requires each { length parts.now ≡ length listed.now }
    ensures { MatchBool result (AllZip (HasCount schema.now) (part_views parts.now) (numbers listed.now))
        (HasOtherCount schema.now (part_views parts.now) (numbers listed.now)) }
{
    for at in 0..parts.len() {
        let part: &Part = &parts[at];
        if part.params.items().len() != schema.attribute_count(listed[at]) as usize {
            return false;
        }
    }
    true
}
