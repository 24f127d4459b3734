use super::*;
use p21_express_graph::{EntityId, Member, TypeId};
use p21_mapping::{Ids, Need, Rows, Typed, Value, Values, write_value};
use p21_values::{NoMemory, ValueFault};
use std::alloc::AllocError;

/// `(#7,$)`
fn values(alloc: Global) -> Option<Values> {
    match Vec::from_array(alloc, [Value::Reference(Name(7)), Value::Missing]) {
        Ok(all) => Some(Values::from_vec(all)),
        Err(_) => None,
    }
}

/// Whether values are a reference and none, looked at and then moved out.
fn are_reference_and_missing(values: Values) -> bool {
    values.items().len() == 2
        && matches!(values.items().first(), Some(Value::Reference(_)))
        && ends_in_missing(&values.into_items())
}

fn ends_in_missing(values: &[Value]) -> bool {
    values.len() == 2 && matches!(values.last(), Some(Value::Missing))
}

fn holds_reference_and_missing(alloc: Global) -> bool {
    match values(alloc) {
        Some(values) => are_reference_and_missing(values),
        None => false,
    }
}

#[test]
fn holds_values(rt: HostRuntime) {
    assert!(rt; holds_reference_and_missing(rt.alloc()));
}

/// `(#7,$)` and `()`
fn rows(alloc: Global) -> Option<Rows> {
    let first = values(alloc)?;
    match Vec::from_array(alloc, [first, Values::from_vec(Vec::new(alloc))]) {
        Ok(all) => Some(Rows::from_vec(all)),
        Err(_) => None,
    }
}

fn entities(alloc: Global) -> Option<Ids<'static>> {
    match Vec::from_array(alloc, [EntityId(3), EntityId(0)]) {
        Ok(all) => Some(Ids::from_vec(all)),
        Err(_) => None,
    }
}

fn typed(alloc: Global) -> Option<Typed<'static>> {
    let parts = entities(alloc)?;
    let values = rows(alloc)?;
    Some(Typed { parts, values })
}

fn are_entities(ids: &[EntityId]) -> bool {
    ids == [EntityId(3), EntityId(0)].as_slice()
}

fn are_rows(rows: &[Values]) -> bool {
    rows.len() == 2 && rows[0].items().len() == 2 && rows[1].items().is_empty()
}

/// Whether a typed record has those parts, its rows looked at and then moved out.
fn has_parts(typed: Typed<'_>) -> bool {
    let Typed { parts, values } = typed;
    are_entities(parts.items()) && are_rows(values.items()) && are_rows(&values.into_items())
}

fn holds_parts(alloc: Global) -> bool {
    match typed(alloc) {
        Some(typed) => has_parts(typed),
        None => false,
    }
}

#[test]
fn holds_a_typed_record(rt: HostRuntime) {
    assert!(rt; holds_parts(rt.alloc()));
}

const AN_ENTITY: Need = Need {
    target: Name(7),
    wanted: Member::Entity(EntityId(3)),
};

const A_TYPE: Need = Need {
    target: Name(7),
    wanted: Member::Defined(TypeId(3)),
};

#[test]
fn compares_needs(rt: HostRuntime) {
    assert_eq!(rt; AN_ENTITY, AN_ENTITY);
    assert_ne!(rt; AN_ENTITY, A_TYPE);
}

const FAULTS: &[(CheckFault, u8, &str)] = &[
    (CheckFault::NumberRange, 8, "NumberRange"),
    (CheckFault::UnknownEntity, 41, "UnknownEntity"),
    (CheckFault::Abstract, 42, "Abstract"),
    (CheckFault::PartMissing, 43, "PartMissing"),
    (CheckFault::PartTwice, 44, "PartTwice"),
    (CheckFault::Count, 45, "Count"),
    (CheckFault::Missing, 46, "Missing"),
    (CheckFault::StarNotDerived, 47, "StarNotDerived"),
    (CheckFault::DerivedNotStar, 48, "DerivedNotStar"),
    (CheckFault::WrongKind, 49, "WrongKind"),
    (CheckFault::Width, 50, "Width"),
    (CheckFault::Bounds, 51, "Bounds"),
    (CheckFault::NotDistinct, 52, "NotDistinct"),
    (CheckFault::UnknownItem, 53, "UnknownItem"),
    (CheckFault::SelectType, 54, "SelectType"),
    (CheckFault::TwoRedeclarations, 55, "TwoRedeclarations"),
    (CheckFault::OneOf, 58, "OneOf"),
    (CheckFault::NoMemory, 90, "NoMemory"),
];

/// The first fault with another number or name.
fn first_misnamed() -> &'static str {
    for (fault, number, name) in FAULTS {
        if fault.number() != *number || fault.name() != *name {
            return name;
        }
    }
    "none"
}

#[test]
fn faults_have_numbers_and_names(rt: HostRuntime) {
    passes(&rt, first_misnamed());
}

#[test]
fn faults_come_from_those_below(rt: HostRuntime) {
    let rows = [
        (CheckFault::from(NoMemory), CheckFault::NoMemory),
        (CheckFault::from(AllocError), CheckFault::NoMemory),
        (CheckFault::from(ValueFault::NoMemory), CheckFault::NoMemory),
        (
            CheckFault::from(ValueFault::NumberRange),
            CheckFault::NumberRange,
        ),
    ];
    for (found, wanted) in rows {
        assert_eq!(rt; found, wanted);
    }
}

/// Whether a bag of `#2` and `#10` is written with its texts in their order.
fn writes_bag(alloc: Global, schema: &Schema) -> bool {
    let Ok(elements) = Vec::from_array(
        alloc,
        [Value::Reference(Name(2)), Value::Reference(Name(10))],
    ) else {
        return false;
    };
    let bag = Value::Bag(Values::from_vec(elements));
    let mut out = Vec::new(alloc);
    let Ok(()) = write_value(schema, &bag, &mut out) else {
        return false;
    };
    out.as_slice() == b"(#10,#2)".as_slice()
}

fn writes_bag_under_schema(alloc: Global) -> bool {
    match read_schema(alloc, b"SCHEMA s; END_SCHEMA;") {
        Ok(schema) => writes_bag(alloc, &schema),
        Err(_) => false,
    }
}

#[test]
fn writes_a_bag_by_itself(rt: HostRuntime) {
    assert!(rt; writes_bag_under_schema(rt.alloc()));
}
