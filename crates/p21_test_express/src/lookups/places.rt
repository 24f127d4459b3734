ghost use Rattle.p21_express_graph.specs.Lookups.{AreEntities};
ghost use Rattle.p21_express_graph.specs.Orders.{numbers};
ghost use Rattle.p21_express_graph.specs.Resolved.{IsPlace};
ghost use Rattle.p21_express_graph.specs.Meaning.{place as place_of};

use super::{
    DEMO, PlaceTexts, Rows, Texts, Wrong, check, entities_named, entity_named, is_printed,
    place_named,
};
use p21_express_graph::{EntityId, Place};
use p21_schema::Schema;
use std::alloc::Global;

/// Whether a place has this name.
fn is_named(schema: &Schema, place: Place, name: &str) -> bool {
    (place.entity.0 as usize) < schema.entities()
        && place.index < schema.attribute_count(place.entity)
        && schema.place_name(place) == name.as_bytes()
}

/// Whether these are the names of places.
fn are_named(schema: &Schema, places: &[Place], names: &str) -> bool {
    let mut left = names.split_whitespace();
    for place in places {
        match left.next() {
            Some(name) => {
                if !is_named(schema, *place, name) {
                    return false;
                }
            }
            None => return false,
        }
    }
    left.next().is_none()
}

fn has_places(schema: &Schema, name: &str, wanted: &str) -> bool {
    let Some(entity) = entity_named(schema, name) else {
        return false;
    };
    match schema.places(entity) {
        Ok(places) => are_named(schema, &places, wanted),
        Err(_) => false,
    }
}

pub(super) fn wrong_places(schema: &Schema, rows: Texts) -> Wrong {
    for (name, wanted) in rows {
        if !has_places(schema, name, wanted) {
            return Some((name, wanted));
        }
    }
    None
}

const PLACES: Rows = Rows::Places(&[
    ("SHAPE", "LABEL"),
    ("POINT", "LABEL X Y"),
    ("MARKED", "LABEL MARK"),
    ("ORIGIN", "LABEL X Y"),
    ("CLOUD", "MEMBERS SIZES VALUES"),
]);

#[test]
fn lists_places(rt: HostRuntime) {
    check(&rt, rt.alloc(), DEMO, PLACES);
}

/// Whether this may stand at a place of an instance with these entities.
fn has_type(
    alloc: Global,
    schema: &Schema,
    entities: &[EntityId],
    place: Place,
    wanted: &str,
) -> bool
    requires entities { AreEntities schema.now (numbers entities.now) }
    requires place { IsPlace schema.now (place_of place) }
{
    is_printed(alloc, &schema.type_at(entities, place), wanted)
}

/// The same by their names.
fn is_type_at(alloc: Global, schema: &Schema, names: &str, place: Place, wanted: &str) -> bool
    requires { IsPlace schema.now (place_of place) }
{
    match entities_named(alloc, schema, names) {
        Ok(entities) => has_type(alloc, schema, &entities, place, wanted),
        Err(_) => false,
    }
}

pub(super) fn wrong_type(alloc: Global, schema: &Schema, rows: PlaceTexts) -> Wrong {
    for (names, entity, index, wanted) in rows {
        let Some(place) = place_named(schema, entity, *index) else {
            return Some((names, entity));
        };
        if !is_type_at(alloc, schema, names, place, wanted) {
            return Some((names, wanted));
        }
    }
    None
}

const DECLARED: Rows = Rows::PlaceTypes(&[
    ("SHAPE", "SHAPE", 0, "Stored(true, Text(None))"),
    ("POINT", "POINT", 1, "Stored(false, Defined(TypeId(0)))"),
    ("MARKED", "MARKED", 0, "Stored(false, Defined(TypeId(2)))"),
    (
        "CLOUD",
        "CLOUD",
        0,
        "Stored(false, Set { low: 0, high: None, element: Entity(EntityId(1)) })",
    ),
    (
        "CLOUD",
        "CLOUD",
        1,
        "Stored(false, Bag { low: 0, high: None, element: Bag { low: 0, high: None, element: Real } })",
    ),
    (
        "CLOUD",
        "CLOUD",
        2,
        "Stored(false, List { low: 1, high: Some(3), unique: true, element: Defined(TypeId(4)) })",
    ),
]);

#[test]
fn knows_declared_types(rt: HostRuntime) {
    check(&rt, rt.alloc(), DEMO, DECLARED);
}

const WIDE: &str = "SCHEMA wide;
ENTITY e; s : STRING(3); f : STRING(2) FIXED; b : BINARY(4);
o : ARRAY [1:2] OF OPTIONAL INTEGER; n : BOOLEAN; u : ARRAY [0:7] OF UNIQUE LOGICAL;
m : OPTIONAL NUMBER; END_ENTITY;
END_SCHEMA;
";

/// The attributes of its entity.
const WIDTHS: Rows = Rows::PlaceTypes(&[
    (
        "E",
        "E",
        0,
        "Stored(false, Text(Some(Width { most: 3, fixed: false })))",
    ),
    (
        "E",
        "E",
        1,
        "Stored(false, Text(Some(Width { most: 2, fixed: true })))",
    ),
    (
        "E",
        "E",
        2,
        "Stored(false, Bits(Some(Width { most: 4, fixed: false })))",
    ),
    (
        "E",
        "E",
        3,
        "Stored(false, Array { low: 1, high: 2, optional: true, unique: false, element: Whole })",
    ),
    ("E", "E", 4, "Stored(false, Boolean)"),
    (
        "E",
        "E",
        5,
        "Stored(false, Array { low: 0, high: 7, optional: false, unique: true, element: Logical })",
    ),
    ("E", "E", 6, "Stored(true, Number)"),
]);

#[test]
fn knows_widths_and_bounds(rt: HostRuntime) {
    check(&rt, rt.alloc(), WIDE, WIDTHS);
}

const REDECLARED: &str = "SCHEMA redeclared;
ENTITY r; k : NUMBER; END_ENTITY;
ENTITY a SUBTYPE OF (r); SELF\\r.k : INTEGER; END_ENTITY;
ENTITY b SUBTYPE OF (r); SELF\\r.k : REAL; END_ENTITY;
ENTITY c SUBTYPE OF (a, b); SELF\\a.k : OPTIONAL INTEGER; END_ENTITY;
ENTITY d SUBTYPE OF (r); SELF\\r.k : OPTIONAL REAL; END_ENTITY;
ENTITY e SUBTYPE OF (d); SELF\\d.k : REAL; END_ENTITY;
ENTITY f SUBTYPE OF (r); DERIVE SELF\\r.k : REAL := 0.0; END_ENTITY;
ENTITY g SUBTYPE OF (a, b); END_ENTITY;
END_SCHEMA;
";

const IN_SETS: Rows = Rows::PlaceTypes(&[
    ("R", "R", 0, "Stored(false, Number)"),
    ("R A", "R", 0, "Stored(false, Whole)"),
    ("R B", "R", 0, "Stored(false, Real)"),
    ("R A B", "R", 0, "Two"),
    ("R A B C", "R", 0, "Stored(true, Whole)"),
    ("R A B G", "R", 0, "Two"),
    ("R D", "R", 0, "Stored(true, Real)"),
    ("R D E", "R", 0, "Stored(false, Real)"),
    ("R A B C D", "R", 0, "Two"),
    ("R F", "R", 0, "Derived"),
    ("R A B F", "R", 0, "Derived"),
]);

#[test]
fn knows_redeclared_types(rt: HostRuntime) {
    check(&rt, rt.alloc(), REDECLARED, IN_SETS);
}

/// Entities without their supertypes, in any order.
const IN_PARTS: Rows = Rows::PlaceTypes(&[
    ("", "R", 0, "Stored(false, Number)"),
    ("A", "R", 0, "Stored(false, Whole)"),
    ("B A", "R", 0, "Two"),
    ("C B", "R", 0, "Stored(true, Whole)"),
    ("B C", "R", 0, "Stored(true, Whole)"),
    ("C", "R", 0, "Stored(true, Whole)"),
    ("G", "R", 0, "Stored(false, Number)"),
    ("E", "R", 0, "Stored(false, Real)"),
    ("E C", "R", 0, "Two"),
    ("F", "R", 0, "Derived"),
]);

#[test]
fn knows_types_at_parts_of_sets(rt: HostRuntime) {
    check(&rt, rt.alloc(), REDECLARED, IN_PARTS);
}

fn has_own_type(alloc: Global, schema: &Schema, name: &str, place: Place, wanted: &str) -> bool
    requires { IsPlace schema.now (place_of place) }
{
    match entity_named(schema, name) {
        Some(entity) => {
            is_printed(alloc, &schema.own_type(entity, place), wanted)
                && schema.own_derives(entity, place) == (wanted == "Derived")
        }
        None => false,
    }
}

pub(super) fn wrong_own_type(alloc: Global, schema: &Schema, rows: PlaceTexts) -> Wrong {
    for (name, owner, index, wanted) in rows {
        let Some(place) = place_named(schema, owner, *index) else {
            return Some((name, owner));
        };
        if !has_own_type(alloc, schema, name, place, wanted) {
            return Some((name, wanted));
        }
    }
    None
}

const IN_OWN_SETS: Rows = Rows::OwnTypes(&[
    ("R", "R", 0, "Stored(false, Number)"),
    ("A", "R", 0, "Stored(false, Whole)"),
    ("C", "R", 0, "Stored(true, Whole)"),
    ("D", "R", 0, "Stored(true, Real)"),
    ("E", "R", 0, "Stored(false, Real)"),
    ("F", "R", 0, "Derived"),
    ("G", "R", 0, "Two"),
]);

#[test]
fn knows_types_in_own_sets(rt: HostRuntime) {
    check(&rt, rt.alloc(), REDECLARED, IN_OWN_SETS);
}

pub(super) fn wrong_derived(schema: &Schema, rows: &[(&'static str, u32, bool)]) -> Wrong {
    for (owner, index, derived) in rows {
        let Some(place) = place_named(schema, owner, *index) else {
            return Some((owner, "no such place"));
        };
        if schema.is_derived(place) != *derived {
            return Some((owner, "derived or not"));
        }
    }
    None
}

const DERIVED: Rows = Rows::Derived(&[
    ("SHAPE", 0, false),
    ("POINT", 0, true),
    ("POINT", 1, false),
    ("CLOUD", 2, false),
]);

#[test]
fn knows_which_attributes_are_derived(rt: HostRuntime) {
    check(&rt, rt.alloc(), DEMO, DERIVED);
}

const TWO: &str = "SCHEMA two;
ENTITY r; k : NUMBER; END_ENTITY;
ENTITY a SUBTYPE OF (r); k : NUMBER; END_ENTITY;
ENTITY b SUBTYPE OF (a); SELF\\a.k : REAL; SELF\\r.k : INTEGER; END_ENTITY;
END_SCHEMA;
";

/// A supertype's own attribute goes before those that it inherits.
const IN_TWO: Rows = Rows::PlaceTypes(&[
    ("R A B", "R", 0, "Stored(false, Whole)"),
    ("R A B", "A", 0, "Stored(false, Real)"),
]);

#[test]
fn knows_which_attribute_is_redeclared(rt: HostRuntime) {
    check(&rt, rt.alloc(), TWO, IN_TWO);
}
