//! Of which attribute a parameter is, and which instances may be wanted at a reference in it.

use crate::way::Way;
use p21_express_graph::{EntityId, Member, Place, PlaceType, TypeId, TypeKind, TypeUse};
use p21_schema::Schema;

/// The attribute of the parameter of this number, from 1 on, in the part with this keyword; in the internal mapping this part is alone
/// and has the attributes of all supertypes.
pub(crate) fn attribute_at(
    schema: &Schema,
    keyword: &[u8],
    is_alone: bool,
    parameter: u32,
) -> Option<Place> {
    let entity = schema.entity(keyword)?;
    let before = parameter.checked_sub(1)?;
    if is_alone {
        return place_in_order(schema, entity, before);
    }
    Some(Place {
        entity,
        index: before,
    })
}

/// The attribute in front of which so many stand in the order of an entity.
fn place_in_order(schema: &Schema, entity: EntityId, before: u32) -> Option<Place> {
    if entity.0 as usize >= schema.entities() {
        return None;
    }
    let mut left = before;
    for owner in schema.order_of(entity) {
        let count = own_attributes(schema, *owner);
        if left < count {
            return Some(Place {
                entity: *owner,
                index: left,
            });
        }
        left = left.saturating_sub(count);
    }
    None
}

/// How many attributes an entity declares, if it is one of the schema.
fn own_attributes(schema: &Schema, entity: EntityId) -> u32 {
    if entity.0 as usize >= schema.entities() {
        return 0;
    }
    schema.attribute_count(entity)
}

/// Whether such an instance may be wanted at the reference to which a way leads. It may where what the way knows doesn't say it: in a
/// value whose type is named beside it, or where another part of the instance may redeclare the attribute.
pub(crate) fn could_want(schema: &Schema, way: &Way, wanted: Member) -> bool {
    let Some((parameter, elements)) = way.steps().split_first() else {
        return true;
    };
    match type_of(schema, way, *parameter) {
        Some(of) => element_could_want(schema, of, elements, wanted),
        None => true,
    }
}

/// The type of a parameter of the part that is open, where this part alone determines it.
fn type_of<'s>(schema: &'s Schema, way: &Way, parameter: u32) -> Option<&'s TypeUse> {
    let place = attribute_at(schema, way.keyword(), way.is_alone(), parameter)?;
    if place.entity.0 as usize >= schema.entities() {
        return None;
    }
    if place.index >= schema.attribute_count(place.entity) {
        return None;
    }
    let holder = if way.is_alone() {
        schema.entity(way.keyword())?
    } else if schema.redeclarers_of(place).is_empty() {
        place.entity
    } else {
        return None;
    };
    if holder.0 as usize >= schema.entities() {
        return None;
    }
    match schema.own_type(holder, place) {
        PlaceType::Stored(_, of) => Some(of),
        _ => None,
    }
}

/// Whether such an instance may be wanted at an element of a value of this type, so many levels deep.
fn element_could_want(schema: &Schema, of: &TypeUse, elements: &[u32], wanted: Member) -> bool {
    let mut inner = of;
    for _ in elements {
        match element_of(inner) {
            Some(element) => inner = element,
            None => return true,
        }
    }
    match inner {
        TypeUse::Entity(entity) => wanted == Member::Entity(*entity),
        TypeUse::Defined(named) => select_could_want(schema, *named, wanted),
        _ => true,
    }
}

/// The type of the elements of an aggregate.
fn element_of(of: &TypeUse) -> Option<&TypeUse> {
    match of {
        TypeUse::Array { element, .. } => Some(element),
        TypeUse::List { element, .. } => Some(element),
        TypeUse::Set { element, .. } => Some(element),
        TypeUse::Bag { element, .. } => Some(element),
        _ => None,
    }
}

/// Whether such an instance may be wanted at a value of a declared type. What a type renames isn't asked.
fn select_could_want(schema: &Schema, named: TypeId, wanted: Member) -> bool {
    if named.0 as usize >= schema.types() {
        return true;
    }
    match schema.type_kind(named) {
        TypeKind::Choice(_) => wanted == Member::Defined(named),
        _ => true,
    }
}
