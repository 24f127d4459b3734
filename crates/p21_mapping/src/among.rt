//! What may stand at a place of a set of entities, by those of them that redeclare it (ISO 10303-11, Attribute redeclaration).
ghost use Rattle.std.specs.Prelude.{IfOk};
ghost use Rattle.p21_express_graph.specs.Lookups.{AreEntities};
ghost use Rattle.p21_express_graph.specs.Orders.{numbers};
ghost use Rattle.p21_express_graph.specs.Resolved.{IsPlace};
ghost use Rattle.p21_express_graph.specs.Meaning.{place as place_of, place_type};
ghost use Rattle.p21_mapping.specs.Redeclaring.{AreThoseAmong};
ghost use Rattle.p21_spec_schema.specs.PlaceType.{TypeAt};

use crate::positions::Positions;
use p21_express_graph::{EntityId, Place, PlaceType};
use p21_schema::Schema;
use p21_values::NoMemory;
use std::alloc::Global;

/// What may stand at a place of an instance with these entities, as `Schema::type_at` says. Of the entities and of those that
/// redeclare the place, the fewer are looked at.
///
/// # Errors
///
/// `NoMemory`, only where one of the entities redeclares the place.
pub(crate) fn type_among<'a>(
    alloc: Global,
    schema: &'a Schema,
    entities: &Positions<'_>,
    place: Place,
) -> Result<PlaceType<'a>, NoMemory>
    requires entities { AreEntities schema.now entities.now }
    requires place { IsPlace schema.now (place_of place) }
    ensures { IfOk result (λ at. TypeAt schema.now entities.now (place_of place) (place_type at)) }
{
    let redeclarers = schema.redeclarers_of(place);
    if redeclarers.len() >= entities.entities().len() {
        return Ok(schema.type_at(entities.entities(), place));
    }
    let members = those_among(alloc, entities, redeclarers)?;
    Ok(schema.type_at(&members, place))
}

/// Those of some entities that are among others.
fn those_among(
    alloc: Global,
    entities: &Positions<'_>,
    some: &[EntityId],
) -> Result<Vec<EntityId>, NoMemory>
    ensures { IfOk result (λ members. AreThoseAmong entities.now (numbers some.now) (numbers members.items)) }
{
    let mut members = Vec::new(alloc);
    for entity in some {
        if entities.has(*entity) {
            members.push(*entity)?;
        }
    }
    Ok(members)
}
