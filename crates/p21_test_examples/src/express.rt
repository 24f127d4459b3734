//! A caller of p21_express that names no other library.
use p21_express::{EntityId, Schema, SchemaFault, read_schema};
use std::alloc::Global;

/// How many entities a schema text declares.
///
/// # Errors
///
/// Those of `read_schema`.
pub fn count_entities(alloc: Global, text: &[u8]) -> Result<usize, SchemaFault> {
    let schema = read_schema(alloc, text)?;
    Ok(schema.entities())
}

fn attribute_count(schema: &Schema, entity: EntityId) -> Option<u32> {
    if (entity.0 as usize) < schema.entities() {
        Some(schema.attribute_count(entity))
    } else {
        None
    }
}

/// How many attributes an entity declares, if the schema has one of this name. It takes no memory.
pub fn attribute_count_of(schema: &Schema, name: &[u8]) -> Option<u32> {
    match schema.entity(name) {
        Some(entity) => attribute_count(schema, entity),
        None => None,
    }
}
