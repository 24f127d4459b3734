//! The instances of an accepted file, and their values.
ghost use Rattle.std.specs.Prelude.{◌≡◌, ℕ, List};
ghost use Rattle.p21_c.specs.Contents.{model_in};
ghost use Rattle.p21_c.specs.Filled.{AreFirst, IsToldNumber, IsToldRow};
ghost use Rattle.p21_c.specs.Models.{IsToldAt, SaysEntities, SaysValues, TellsInstanceFrom, TellsInstanceOf, TellsSection, TellsSome, TellsValueAt};
ghost use Rattle.p21_c.specs.Spans.{span_of};
ghost use Rattle.p21_model.specs.EntitiesLeft.{TellsEntities};
ghost use Rattle.p21_model.specs.Left.{TellsRows};
ghost use Rattle.p21_model.specs.Rows.{Row};

use crate::answers::{DONE, MISUSED, REFUSED};
use crate::lent::Lent;
use crate::spans::{Span, span_of};
use p21_express_graph::{EntityId, Place};
use p21_model::{Attributes, Entities};
use p21_values::Name;

/// An instance, by its name and its line in the canonical file.
#[repr(C)]
#[derive(Clone, Copy)]
pub struct InstanceLine {
    pub name: u64,
    pub line: Span,
}

/// An attribute, by the entity that declares it and its number there, and where the value lies that an instance has at it.
#[repr(C)]
#[derive(Clone, Copy)]
pub struct AttributeValue {
    pub entity: u32,
    pub index: u32,
    pub value: Span,
}

/// Finds the instance of this name.
#[unsafe(no_mangle)]
pub extern "C" fn p21_instance(accepted: &Lent, name: u64, instance: &mut InstanceLine) -> u8
    ensures { TellsInstanceOf (model_in accepted.now.value) name result instance.old instance.new }
{
    let Some(model) = accepted.model() else {
        return MISUSED;
    };
    let Some(found) = model.instance(Name(name)) else {
        return REFUSED;
    };
    *instance = line_of(found.name, found.line);
    DONE
}

/// Finds the first instance whose name is this one or above it.
#[unsafe(no_mangle)]
pub extern "C" fn p21_instance_from(accepted: &Lent, least: u64, instance: &mut InstanceLine) -> u8
    ensures { TellsInstanceFrom (model_in accepted.now.value) least result instance.old instance.new }
{
    let Some(model) = accepted.model() else {
        return MISUSED;
    };
    let Some(found) = model.first_from(Name(least)) else {
        return REFUSED;
    };
    *instance = line_of(found.name, found.line);
    DONE
}

/// Finds the line with which the data section of an instance begins.
#[unsafe(no_mangle)]
pub extern "C" fn p21_instance_section(accepted: &Lent, name: u64, line: &mut Span) -> u8
    ensures { TellsSection (model_in accepted.now.value) name result line.old line.new }
{
    let Some(model) = accepted.model() else {
        return MISUSED;
    };
    let Some(found) = model.section_line(Name(name)) else {
        return REFUSED;
    };
    *line = span_of(found);
    DONE
}

/// Tells the entities of an instance's set, as many as there is room for.
#[unsafe(no_mangle)]
pub extern "C" fn p21_instance_entities(
    accepted: &Lent,
    name: u64,
    entities: &mut [u32],
    count: &mut usize,
) -> u8
    ensures { TellsSome SaysEntities (model_in accepted.now.value) name entities.new result count.old count.new }
{
    let Some(model) = accepted.model() else {
        return MISUSED;
    };
    let Some(instance) = model.instance(Name(name)) else {
        return REFUSED;
    };
    *count = tell_entities(instance.entities(), entities);
    DONE
}

/// Tells the attributes of an instance with their values, as many as there is room for.
#[unsafe(no_mangle)]
pub extern "C" fn p21_instance_values(
    accepted: &Lent,
    name: u64,
    values: &mut [AttributeValue],
    count: &mut usize,
) -> u8
    ensures { TellsSome SaysValues (model_in accepted.now.value) name values.new result count.old count.new }
{
    let Some(model) = accepted.model() else {
        return MISUSED;
    };
    let Some(instance) = model.instance(Name(name)) else {
        return REFUSED;
    };
    *count = tell_values(instance.attributes(), values);
    DONE
}

/// Finds the value of an instance at an attribute.
#[unsafe(no_mangle)]
pub extern "C" fn p21_instance_value(
    accepted: &Lent,
    name: u64,
    entity: u32,
    index: u32,
    value: &mut Span,
) -> u8
    ensures { TellsValueAt (model_in accepted.now.value) name (record { entity = entity; index = index }) result value.old value.new }
{
    let Some(model) = accepted.model() else {
        return MISUSED;
    };
    let Some(instance) = model.instance(Name(name)) else {
        return REFUSED;
    };
    let place = Place {
        entity: EntityId(entity),
        index,
    };
    let Some(found) = instance.value(place) else {
        return REFUSED;
    };
    *value = span_of(found.text);
    DONE
}

/// An instance, as C has it.
fn line_of(name: Name, line: &[u8]) -> InstanceLine
    ensures { IsToldAt result name line.entry }
{
    InstanceLine {
        name: name.0,
        line: span_of(line),
    }
}

/// Tells entities, as many as there is room for, and answers how many they were.
fn tell_entities(entities: Entities<'_>, room: &mut [u32]) -> usize
    ensures { (set : List ℕ) → TellsEntities entities.entry set → AreFirst IsToldNumber set room.new result }
{
    let mut left = entities;
    for at in 0..room.len() {
        let Some(entity) = left.next() else {
            return at;
        };
        room[at] = entity.0;
    }
    room.len()
}

/// Tells attributes, as many as there is room for, and answers how many they were.
fn tell_values(attributes: Attributes<'_>, room: &mut [AttributeValue]) -> usize
    ensures { (rows : List Row) → TellsRows attributes.entry rows → AreFirst IsToldRow rows room.new result }
{
    let mut left = attributes;
    for at in 0..room.len() {
        let Some(attribute) = left.next() else {
            return at;
        };
        room[at] = told(attribute.place, attribute.value.text);
    }
    room.len()
}

/// An attribute with its value, as C has it.
fn told(place: Place, value: &[u8]) -> AttributeValue
    ensures { result ≡ record { entity = place.entity.0; index = place.index; value = span_of value.entry } }
{
    AttributeValue {
        entity: place.entity.0,
        index: place.index,
        value: span_of(value),
    }
}
