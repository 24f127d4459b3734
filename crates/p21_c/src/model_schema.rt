//! What a schema declares.
ghost use Rattle.std.specs.Prelude.{◌≡◌, Some, MatchOption};
ghost use Rattle.p21_c.specs.Answers.{HoldsMade};
ghost use Rattle.p21_c.specs.Contents.{boxed_content, model_in, schema_in};
ghost use Rattle.p21_c.specs.Filled.{AreFirst, IsToldNumber};
ghost use Rattle.p21_c.specs.Models.{FindsNumber, SharesFileSchema, TellsAscent, TellsAttribute, TellsEntity, TellsEntityList, TellsItem, TellsMember, TellsOffer, TellsPlaceType, TellsRenamed, TellsSchema, TellsType};
ghost use Rattle.p21_express_graph.specs.Meaning.{member as meant_member, place as place_of};
ghost use Rattle.p21_express_graph.specs.Orders.{numbers};
ghost use Rattle.p21_express_graph.specs.Resolved.{IsEntity, IsPlace, IsType};
ghost use Rattle.p21_spec_schema.specs.Order.{order};
ghost use Rattle.p21_spec_schema.specs.Schema.{EntityNamed, TypeNamed, entity_member, type_member};
ghost use Rattle.p21_spec_schema.specs.Supertype.{supertypes_of};

use crate::answers::{DONE, FAILED, MISUSED, REFUSED, flag};
use crate::components::Handle;
use crate::contents::{Content, Holding, boxed};
use crate::lent::Lent;
use crate::model_types::{
    Declared, Member, TypeParts, declared_kind, member_of, plain_type, type_of_place,
};
use crate::spans::{Span, span_of};
use p21_express_graph::{EntityId, Member as OfferedMember, Place, TypeId, TypeKind};
use p21_schema::Schema;
use std::alloc::Global;
use std::sync::Arc;

/// Hands out another handle of the schema under which a file was accepted.
#[unsafe(no_mangle)]
pub extern "C" fn p21_accepted_schema(alloc: Global, accepted: &Lent, schema: &mut Handle) -> u8
    ensures { HoldsMade (SharesFileSchema (model_in accepted.now.value) result) schema.old.value schema.new.value }
{
    let (made, status) = share(alloc, accepted);
    schema.hand(alloc, made);
    status
}

/// Tells the name of a schema, and how many entities and types it declares.
#[unsafe(no_mangle)]
pub extern "C" fn p21_schema_declares(
    schema: &Lent,
    name: &mut Span,
    entities: &mut u32,
    types: &mut u32,
) -> u8
    ensures { TellsSchema (schema_in schema.now.value) result name.old name.new entities.old entities.new types.old types.new }
{
    let Some(schema) = schema.plain_schema() else {
        return MISUSED;
    };
    schema.holds_together();
    *name = span_of(schema.name());
    *entities = schema.entities() as u32;
    *types = schema.types() as u32;
    DONE
}

/// Finds the entity of this name, in upper case.
#[unsafe(no_mangle)]
pub extern "C" fn p21_entity_named(schema: &Lent, name: &[u8], entity: &mut u32) -> u8
    ensures { FindsNumber (λ s e. EntityNamed s e name.now) (schema_in schema.now.value) result entity.old entity.new }
{
    let Some(schema) = schema.plain_schema() else {
        return MISUSED;
    };
    let Some(found) = schema.entity(name) else {
        return REFUSED;
    };
    *entity = found.0;
    DONE
}

/// Tells the name of an entity, whether it is abstract, and how many attributes it declares itself.
#[unsafe(no_mangle)]
pub extern "C" fn p21_entity_declares(
    schema: &Lent,
    entity: u32,
    name: &mut Span,
    is_abstract: &mut u8,
    attributes: &mut u32,
) -> u8
    ensures { TellsEntity (schema_in schema.now.value) entity result name.old name.new is_abstract.old is_abstract.new attributes.old
        attributes.new }
{
    let Some(schema) = schema.plain_schema() else {
        return MISUSED;
    };
    let Some(entity) = entity_of(schema, entity) else {
        return REFUSED;
    };
    *name = span_of(schema.entity_name(entity));
    *is_abstract = flag(schema.is_abstract(entity));
    *attributes = schema.attribute_count(entity);
    DONE
}

/// Tells the direct supertypes of an entity, as many as there is room for, and how many they are.
#[unsafe(no_mangle)]
pub extern "C" fn p21_entity_supertypes(
    schema: &Lent,
    entity: u32,
    supertypes: &mut [u32],
    count: &mut usize,
) -> u8
    ensures { TellsEntityList supertypes_of (schema_in schema.now.value) entity supertypes.old supertypes.new result count.old count.new }
{
    let Some(schema) = schema.plain_schema() else {
        return MISUSED;
    };
    let Some(entity) = entity_of(schema, entity) else {
        return REFUSED;
    };
    let found = schema.supertypes(entity);
    *count = found.len();
    let _ = tell_entities(found, supertypes);
    DONE
}

/// Tells an entity and all above it, in the order in which their attributes stand, as many as there is room for, and how many they
/// are.
#[unsafe(no_mangle)]
pub extern "C" fn p21_entity_order(
    schema: &Lent,
    entity: u32,
    entities: &mut [u32],
    count: &mut usize,
) -> u8
    ensures { TellsEntityList order (schema_in schema.now.value) entity entities.old entities.new result count.old count.new }
{
    let Some(schema) = schema.plain_schema() else {
        return MISUSED;
    };
    let Some(entity) = entity_of(schema, entity) else {
        return REFUSED;
    };
    let found = schema.order_of(entity);
    *count = found.len();
    let _ = tell_entities(found, entities);
    DONE
}

/// Whether an entity is another one, or a direct or indirect subtype of it: 1 or 0.
#[unsafe(no_mangle)]
pub extern "C" fn p21_entity_is(schema: &Lent, entity: u32, other: u32, is: &mut u8) -> u8
    ensures { TellsAscent (schema_in schema.now.value) entity other result is.old is.new }
{
    let Some(schema) = schema.plain_schema() else {
        return MISUSED;
    };
    let Some(entity) = entity_of(schema, entity) else {
        return REFUSED;
    };
    let Some(other) = entity_of(schema, other) else {
        return REFUSED;
    };
    *is = flag(schema.is_a(entity, other));
    DONE
}

/// Tells the name of the attribute of this number among those that an entity declares itself.
#[unsafe(no_mangle)]
pub extern "C" fn p21_attribute_name(schema: &Lent, entity: u32, index: u32, name: &mut Span) -> u8
    ensures { TellsAttribute (schema_in schema.now.value) (record { entity = entity; index = index }) result name.old name.new }
{
    let Some(schema) = schema.plain_schema() else {
        return MISUSED;
    };
    let Some(place) = place_in(schema, entity, index) else {
        return REFUSED;
    };
    *name = span_of(schema.place_name(place));
    DONE
}

/// Tells what may stand at an attribute of an instance of an entity.
#[unsafe(no_mangle)]
pub extern "C" fn p21_attribute_type(
    schema: &Lent,
    of: u32,
    entity: u32,
    index: u32,
    depth: u32,
    found: &mut TypeParts,
) -> u8
    ensures { TellsPlaceType (schema_in schema.now.value) of (record { entity = entity; index = index }) depth result found.old found.new }
{
    let Some(schema) = schema.plain_schema() else {
        return MISUSED;
    };
    let Some(of) = entity_of(schema, of) else {
        return REFUSED;
    };
    let Some(place) = place_in(schema, entity, index) else {
        return REFUSED;
    };
    let Some(told) = type_of_place(schema.own_type(of, place), depth) else {
        return REFUSED;
    };
    *found = told;
    DONE
}

/// Finds the type of this name, in upper case.
#[unsafe(no_mangle)]
pub extern "C" fn p21_type_named(schema: &Lent, name: &[u8], number: &mut u32) -> u8
    ensures { FindsNumber (λ s t. TypeNamed s t name.now) (schema_in schema.now.value) result number.old number.new }
{
    let Some(schema) = schema.plain_schema() else {
        return MISUSED;
    };
    let Some(found) = schema.type_named(name) else {
        return REFUSED;
    };
    *number = found.0;
    DONE
}

/// Tells the name of a type, what it is, and how many items or members it has.
#[unsafe(no_mangle)]
pub extern "C" fn p21_type_declares(
    schema: &Lent,
    number: u32,
    name: &mut Span,
    declared: &mut Declared,
) -> u8
    ensures { TellsType (schema_in schema.now.value) number result name.old name.new declared.old declared.new }
{
    let Some(schema) = schema.plain_schema() else {
        return MISUSED;
    };
    let Some(of) = type_of(schema, number) else {
        return REFUSED;
    };
    *name = span_of(schema.type_name(of));
    *declared = declared_kind(schema.type_kind(of));
    DONE
}

/// Tells the type that a type renames.
#[unsafe(no_mangle)]
pub extern "C" fn p21_type_renames(
    schema: &Lent,
    number: u32,
    depth: u32,
    found: &mut TypeParts,
) -> u8
    ensures { TellsRenamed (schema_in schema.now.value) number depth result found.old found.new }
{
    let Some(schema) = schema.plain_schema() else {
        return MISUSED;
    };
    let Some(of) = type_of(schema, number) else {
        return REFUSED;
    };
    let TypeKind::Alias(renamed) = schema.type_kind(of) else {
        return REFUSED;
    };
    let Some(told) = plain_type(false, renamed, depth) else {
        return REFUSED;
    };
    *found = told;
    DONE
}

/// Tells an item of an enumeration.
#[unsafe(no_mangle)]
pub extern "C" fn p21_type_item(schema: &Lent, number: u32, at: usize, item: &mut Span) -> u8
    ensures { TellsItem (schema_in schema.now.value) number at result item.old item.new }
{
    let Some(schema) = schema.plain_schema() else {
        return MISUSED;
    };
    let Some(of) = type_of(schema, number) else {
        return REFUSED;
    };
    let TypeKind::Items(words) = schema.type_kind(of) else {
        return REFUSED;
    };
    let Some(word) = words.items().get(at) else {
        return REFUSED;
    };
    *item = span_of(word.bytes());
    DONE
}

/// Tells a member of a select.
#[unsafe(no_mangle)]
pub extern "C" fn p21_type_member(schema: &Lent, number: u32, at: usize, member: &mut Member) -> u8
    ensures { TellsMember (schema_in schema.now.value) number at result member.old member.new }
{
    let Some(schema) = schema.plain_schema() else {
        return MISUSED;
    };
    let Some(of) = type_of(schema, number) else {
        return REFUSED;
    };
    let TypeKind::Choice(members) = schema.type_kind(of) else {
        return REFUSED;
    };
    let Some(found) = members.items().get(at) else {
        return REFUSED;
    };
    *member = member_of(*found);
    DONE
}

/// Whether a select offers an entity, itself or by a select in it: 1 or 0.
#[unsafe(no_mangle)]
pub extern "C" fn p21_type_offers_entity(
    schema: &Lent,
    number: u32,
    entity: u32,
    offers: &mut u8,
) -> u8
    ensures { TellsOffer (schema_in schema.now.value) number (entity_member entity) result offers.old offers.new }
{
    let Some(schema) = schema.plain_schema() else {
        return MISUSED;
    };
    tell_offer(
        schema,
        number,
        OfferedMember::Entity(EntityId(entity)),
        offers,
    )
}

/// Whether a select offers a type, itself or by a select in it: 1 or 0.
#[unsafe(no_mangle)]
pub extern "C" fn p21_type_offers_type(
    schema: &Lent,
    number: u32,
    other: u32,
    offers: &mut u8,
) -> u8
    ensures { TellsOffer (schema_in schema.now.value) number (type_member other) result offers.old offers.new }
{
    let Some(schema) = schema.plain_schema() else {
        return MISUSED;
    };
    tell_offer(
        schema,
        number,
        OfferedMember::Defined(TypeId(other)),
        offers,
    )
}

/// Whether a type offers a member.
fn tell_offer(schema: &Schema, number: u32, member: OfferedMember, offers: &mut u8) -> u8
    ensures { TellsOffer (Some schema.now) number (meant_member member) result offers.old offers.new }
{
    let Some(of) = type_of(schema, number) else {
        return REFUSED;
    };
    *offers = flag(schema.offers(of, member));
    DONE
}

/// Tells entities, as many as there is room for, and answers how many they were.
fn tell_entities(entities: &[EntityId], room: &mut [u32]) -> usize
    ensures { AreFirst IsToldNumber (numbers entities.now) room.new result }
{
    let mut left = entities;
    for at in 0..room.len() {
        let Some((entity, rest)) = left.split_first() else {
            return at;
        };
        room[at] = entity.0;
        left = rest;
    }
    room.len()
}

/// The entity of this number, if there is one.
fn entity_of(schema: &Schema, number: u32) -> Option<EntityId>
    ensures { MatchOption result (IsEntity schema.now number → ⊥) (λ found. (found.0 ≡ number) × IsEntity schema.now number) }
{
    if number as usize >= schema.entities() {
        return None;
    }
    Some(EntityId(number))
}

/// The type of this number, if there is one.
fn type_of(schema: &Schema, number: u32) -> Option<TypeId>
    ensures { MatchOption result (IsType schema.now number → ⊥) (λ found. (found.0 ≡ number) × IsType schema.now number) }
{
    if number as usize >= schema.types() {
        return None;
    }
    Some(TypeId(number))
}

/// The attribute of this number of an entity, if there is one.
fn place_in(schema: &Schema, entity: u32, index: u32) -> Option<Place>
    ensures { MatchOption result (IsEntity schema.now entity × IsPlace schema.now (record { entity = entity; index = index }) → ⊥)
        (λ found. (place_of found ≡ record { entity = entity; index = index }) × IsEntity schema.now entity × IsPlace schema.now (place_of found)) }
{
    let Some(entity) = entity_of(schema, entity) else {
        return None;
    };
    if index >= schema.attribute_count(entity) {
        return None;
    }
    Some(Place { entity, index })
}

/// The schema of the accepted file that is held, shared.
fn share(alloc: Global, accepted: &Lent) -> (Holding, u8)
    ensures { SharesFileSchema (model_in accepted.now.value) result.1 (boxed_content result.0) }
{
    let Some(schema) = accepted.schema_of_file() else {
        return (None, MISUSED);
    };
    let Ok(schema) = Arc::try_clone(schema) else {
        return (None, FAILED);
    };
    match boxed(alloc, Content::Schema(schema)) {
        Some(content) => (Some(content), DONE),
        None => (None, FAILED),
    }
}
