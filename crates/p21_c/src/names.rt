//! The names of attributes.
ghost use Rattle.std.specs.Prelude.{◌<◌, Some, length, IfOk};
ghost use Rattle.p21_c.specs.Answers.{HoldsMade, IsNameOf, MakesName};
ghost use Rattle.p21_c.specs.Contents.{boxed_content, schema_in};
ghost use Rattle.p21_spec_schema.specs.Schema.{attributes_of};

use crate::answers::{DONE, FAILED, MISUSED, REFUSED};
use crate::components::Handle;
use crate::contents::{Content, Holding, boxed};
use crate::lent::Lent;
use p21_express_graph::{EntityId, Place};
use p21_schema::Schema;
use p21_values::NoMemory;
use std::alloc::Global;

/// Hands out the name of an attribute behind that of the entity that declares it, with a point between: of one that a place
/// has.
#[unsafe(no_mangle)]
pub extern "C" fn p21_place_name(
    alloc: Global,
    schema: &Lent,
    entity: u32,
    attribute: u32,
    text: &mut Handle,
) -> u8
    ensures { HoldsMade (MakesName (schema_in schema.now.value) (record { entity = entity; index = attribute }) result) text.old.value
        text.new.value }
{
    let (made, status) = place_name(alloc, schema, entity, attribute);
    text.hand(alloc, made);
    status
}

/// The name of an attribute of the schema that is held.
fn place_name(alloc: Global, schema: &Lent, entity: u32, attribute: u32) -> (Holding, u8)
    ensures { MakesName (schema_in schema.now.value) (record { entity = entity; index = attribute }) result.1 (boxed_content result.0) }
{
    let Some(schema) = schema.plain_schema() else {
        return (None, MISUSED);
    };
    name_under(alloc, schema, entity, attribute)
}

/// The name of an attribute of a schema.
fn name_under(alloc: Global, schema: &Schema, entity: u32, attribute: u32) -> (Holding, u8)
    ensures { MakesName (Some schema.now) (record { entity = entity; index = attribute }) result.1 (boxed_content result.0) }
{
    if entity as usize >= schema.entities() {
        return (None, REFUSED);
    }
    if attribute >= schema.attribute_count(EntityId(entity)) {
        return (None, REFUSED);
    }
    let Ok(text) = full_name(alloc, schema, entity, attribute) else {
        return (None, FAILED);
    };
    match boxed(alloc, Content::Text(text)) {
        Some(content) => (Some(content), DONE),
        None => (None, FAILED),
    }
}

/// The name of an attribute that there is.
fn full_name(
    alloc: Global,
    schema: &Schema,
    entity: u32,
    attribute: u32,
) -> Result<Vec<u8>, NoMemory>
    requires entity { entity < length schema.now.entities }
    requires attribute { attribute < length (attributes_of schema.now entity) }
    ensures { IfOk result (λ text. IsNameOf schema.now (record { entity = entity; index = attribute }) text.items) }
{
    let mut text = Vec::new(alloc);
    text.extend_from_slice(schema.entity_name(EntityId(entity)))?;
    text.push(b'.')?;
    let place = Place {
        entity: EntityId(entity),
        index: attribute,
    };
    text.extend_from_slice(schema.place_name(place))?;
    Ok(text)
}
