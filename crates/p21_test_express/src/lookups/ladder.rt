//! Levels of two entities, each of them a subtype of both of the level before: as many ways up as two to the power of the
//! levels.
use super::entities::{has_leaves, has_order, is_a, lacks_of};
use super::entity_named;
use crate::refusals::passes;
use p21_express::read_schema;
use p21_express_graph::{EntityId, Place};
use p21_schema::Schema;
use std::alloc::{AllocError, Global};
use std::fmt::Write;

const LEVELS: usize = 31;

/// An entity of a level, and its supertypes.
fn push_entity(text: &mut String, letter: char, below: usize) -> Result<(), AllocError> {
    let above = below.saturating_sub(1);
    write!(
        text,
        "ENTITY {letter}{below} SUBTYPE OF (a{above}, b{above}); x : INTEGER; END_ENTITY;"
    )
}

fn ladder(alloc: Global) -> Result<String, AllocError> {
    let mut text = String::new(alloc);
    text.push_str(
        "SCHEMA ladder; ENTITY a0; x : INTEGER; END_ENTITY; ENTITY b0; x : INTEGER; END_ENTITY;",
    )?;
    for below in 1..LEVELS {
        push_entity(&mut text, 'a', below)?;
        push_entity(&mut text, 'b', below)?;
    }
    text.push_str("END_SCHEMA;")?;
    Ok(text)
}

/// The names of both entities of each level but the last, and that of the first of the last.
fn rungs(alloc: Global) -> Result<String, AllocError> {
    let mut names = String::new(alloc);
    for level in 0..LEVELS - 1 {
        write!(names, "A{level} B{level} ")?;
    }
    names.push_str("A30")?;
    Ok(names)
}

/// Whether places are the first attributes of the entities of an order.
fn are_first(places: &[Place], order: &[EntityId]) -> bool {
    for (place, entity) in places.iter().zip(order.iter()) {
        if place.entity != *entity || place.index != 0 {
            return false;
        }
    }
    places.len() == order.len()
}

/// Whether the places of an entity are the first attributes of the entities of its order.
fn has_first_places(schema: &Schema, name: &str) -> bool {
    let Some(entity) = entity_named(schema, name) else {
        return false;
    };
    match schema.places(entity) {
        Ok(places) => are_first(&places, schema.order_of(entity)),
        Err(_) => false,
    }
}

/// The first thing that is looked up otherwise.
fn first_otherwise(alloc: Global, schema: &Schema, rungs: &str) -> &'static str {
    if !has_order(schema, "A30", rungs) {
        return "the order of A30";
    }
    if !has_first_places(schema, "A30") {
        return "the places of A30";
    }
    if is_a(schema, "A30", "B0") != Some(true) {
        return "A30 is a B0";
    }
    if is_a(schema, "A30", "B30") != Some(false) {
        return "A30 is no B30";
    }
    if lacks_of(schema, "A30") != Some([false; 3]) {
        return "the own set of A30";
    }
    if !has_leaves(alloc, schema, rungs, "A30") {
        return "the leaf of all";
    }
    "none"
}

fn first_wrong_in(alloc: Global, text: &str, rungs: &str) -> &'static str {
    match read_schema(alloc, text.as_bytes()) {
        Ok(schema) => first_otherwise(alloc, &schema, rungs),
        Err(fault) => fault.name(),
    }
}

fn first_wrong(alloc: Global) -> &'static str {
    match (ladder(alloc), rungs(alloc)) {
        (Ok(text), Ok(rungs)) => first_wrong_in(alloc, &text, &rungs),
        _ => "want of memory",
    }
}

#[test]
fn looks_up_the_ladder(rt: HostRuntime) {
    passes(&rt, first_wrong(rt.alloc()));
}
