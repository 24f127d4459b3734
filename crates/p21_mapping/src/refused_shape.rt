//! Which part of a record, or which of its parameters, the shape of the record is refused for. This is asked of a record that
//! is refused already, so that the check itself doesn't look for it.
ghost use Rattle.p21_express_graph.specs.Lookups.{AreEntities};
ghost use Rattle.p21_express_graph.specs.Orders.{numbers};

use crate::key::{named, named_entities};
use crate::members::has_all;
use crate::positions::Positions;
use crate::trail::Trail;
use p21_express_graph::{EntityId, Place};
use p21_grammar_tree::{CheckFault, Part, Record};
use p21_schema::Schema;
use p21_values::NoMemory;
use std::alloc::Global;

/// Notes the part that the shape of a record is refused for, or the first parameter too many. Where one is missing it is the
/// one behind the last, with its attribute. Where memory is refused, the first part is noted.
pub(crate) fn note_refused_shape(
    alloc: Global,
    schema: &Schema,
    of: &Record,
    fault: CheckFault,
    trail: &mut Trail,
) {
    match of {
        Record::Simple(part) => note_simple(schema, part, fault, trail),
        Record::Complex(parts) => note_complex(alloc, schema, parts.items(), fault, trail),
    }
}

fn note_simple(schema: &Schema, part: &Part, fault: CheckFault, trail: &mut Trail) {
    if let CheckFault::Count = fault {
        if let Some(places) = places_of(schema, part) {
            let given = part.params.items().len();
            if let Some(place) = places.get(given) {
                trail.note_attribute(*place);
            }
            trail.note_value(0, given.min(places.len()));
            return;
        }
    }
    trail.note_part(0);
}

/// The attributes that the parameters of a record of internal form stand for, if they are known.
fn places_of(schema: &Schema, part: &Part) -> Option<Vec<Place>> {
    let entity = named(schema, &part.key)?;
    match schema.places(entity) {
        Ok(places) => Some(places),
        Err(NoMemory) => None,
    }
}

fn note_complex(
    alloc: Global,
    schema: &Schema,
    parts: &[Part],
    fault: CheckFault,
    trail: &mut Trail,
) {
    let Ok(listed) = named_entities(alloc, schema, parts) else {
        trail.note_part(first_unknown(schema, parts));
        return;
    };
    if let CheckFault::Count = fault {
        note_other_count(schema, &listed, parts, trail);
        return;
    }
    match refused_part(alloc, schema, &listed, fault) {
        Ok(part) => trail.note_part(part),
        Err(NoMemory) => trail.note_part(0),
    }
}

/// The first part whose keyword names no entity.
fn first_unknown(schema: &Schema, parts: &[Part]) -> usize {
    for at in 0..parts.len() {
        let part: &Part = &parts[at];
        if named(schema, &part.key).is_none() {
            return at;
        }
    }
    0
}

/// Notes in the first part that has another number of parameters the first one too many, or the one behind the last.
fn note_other_count(schema: &Schema, listed: &[EntityId], parts: &[Part], trail: &mut Trail)
    requires { AreEntities schema.now (numbers listed.now) }
{
    let mut number: usize = 0;
    for entity in listed {
        let wanted = schema.attribute_count(*entity);
        let given = match parts.get(number) {
            Some(part) => part.params.items().len(),
            None => wanted as usize,
        };
        if given != wanted as usize {
            if given < wanted as usize {
                trail.note_attribute(Place {
                    entity: *entity,
                    index: given as u32,
                });
            }
            trail.note_value(number, given.min(wanted as usize));
            return;
        }
        number = number.saturating_add(1);
    }
    trail.note_part(0);
}

/// The number of the part that the set of entities is refused for.
fn refused_part(
    alloc: Global,
    schema: &Schema,
    listed: &[EntityId],
    fault: CheckFault,
) -> Result<usize, NoMemory>
    requires { AreEntities schema.now (numbers listed.now) }
{
    match fault {
        CheckFault::PartTwice => second_of_one_entity(alloc, listed),
        CheckFault::PartMissing => first_without_supertype(alloc, schema, listed),
        CheckFault::Abstract => first_abstract_leaf(alloc, schema, listed),
        CheckFault::OneOf => second_of_a_clash(schema, listed),
        _ => Ok(0),
    }
}

/// The first part whose entity has a part before.
fn second_of_one_entity(alloc: Global, listed: &[EntityId]) -> Result<usize, NoMemory> {
    let positions = Positions::of(alloc, listed)?;
    for at in 0..listed.len() {
        if positions.find(listed[at]) != Some(at) {
            return Ok(at);
        }
    }
    Ok(0)
}

/// The first part of whose entity a supertype has none.
fn first_without_supertype(
    alloc: Global,
    schema: &Schema,
    listed: &[EntityId],
) -> Result<usize, NoMemory>
    requires { AreEntities schema.now (numbers listed.now) }
{
    let positions = Positions::of(alloc, listed)?;
    let mut part: usize = 0;
    for entity in listed {
        if !has_all(&positions, schema.supertypes(*entity)) {
            return Ok(part);
        }
        part = part.saturating_add(1);
    }
    Ok(0)
}

/// The first part of an abstract entity of which no subtype has one.
fn first_abstract_leaf(
    alloc: Global,
    schema: &Schema,
    listed: &[EntityId],
) -> Result<usize, NoMemory>
    requires { AreEntities schema.now (numbers listed.now) }
{
    let leaves = schema.leaves(listed)?;
    let positions = Positions::of(alloc, &leaves)?;
    let mut part: usize = 0;
    for entity in listed {
        if schema.is_abstract(*entity) && positions.find(*entity).is_some() {
            return Ok(part);
        }
        part = part.saturating_add(1);
    }
    Ok(0)
}

/// The last of the fewest first parts of which two can't stand in one instance.
fn second_of_a_clash(schema: &Schema, listed: &[EntityId]) -> Result<usize, NoMemory> {
    let mut clear = 0;
    let mut clashing = listed.len();
    // Each round halves what lies between.
    for _ in 0..usize::BITS {
        if clashing.saturating_sub(clear) < 2 {
            break;
        }
        let middle = clear + (clashing - clear) / 2;
        let front = listed.get(..middle).unwrap_or(listed);
        if schema.find_clash(front)? {
            clashing = middle;
        } else {
            clear = middle;
        }
    }
    Ok(clashing.saturating_sub(1))
}
