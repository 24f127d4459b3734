use super::{
    DEMO, Facts, PairFacts, Rows, Texts, Wrong, check, entity_named, is_printed, type_named,
};
use p21_express_graph::{Member, TypeKind, TypeUse};
use p21_schema::{Base, Schema};
use p21_values::Word;
use std::alloc::Global;

const CHAINS: &str = "SCHEMA chains;
TYPE a = b; END_TYPE;
TYPE b = c; END_TYPE;
TYPE c = ENUMERATION OF (red, green); END_TYPE;
TYPE m = n; END_TYPE;
TYPE n = LIST [0:2] OF m; END_TYPE;
TYPE s = SELECT (t, a); END_TYPE;
TYPE t = SELECT (u, m); END_TYPE;
TYPE u = SELECT (e, a); END_TYPE;
TYPE v = SELECT (m, w); END_TYPE;
TYPE w = SELECT (a); END_TYPE;
ENTITY e; END_ENTITY;
ENTITY f SUBTYPE OF (e); END_ENTITY;
END_SCHEMA;
";

/// Whether there is a type of this name, which has it then.
fn has_type(schema: &Schema, name: &str) -> bool {
    match type_named(schema, name) {
        Some(found) => schema.type_name(found) == name.as_bytes(),
        None => false,
    }
}

pub(super) fn wrong_name(schema: &Schema, rows: Facts) -> Wrong {
    for (name, wanted) in rows {
        if has_type(schema, name) != *wanted {
            return Some((name, "type"));
        }
    }
    None
}

const TYPES: Rows = Rows::Types(&[
    ("DISTANCE", true),
    ("TALLY", true),
    ("COLOUR", true),
    ("MEASURE", true),
    ("ITEM", true),
    ("distance", false),
    ("DISTANC", false),
    ("POINT", false),
    ("RED", false),
    ("", false),
]);

#[test]
fn finds_types_by_their_names(rt: HostRuntime) {
    check(&rt, rt.alloc(), DEMO, TYPES);
}

/// Whether these are the items of an enumeration.
fn are_items(items: &[Word], wanted: &str) -> bool {
    let mut left = wanted.split_whitespace();
    for item in items {
        match left.next() {
            Some(word) => {
                if item.bytes() != word.as_bytes() {
                    return false;
                }
            }
            None => return false,
        }
    }
    left.next().is_none()
}

fn is_kind(alloc: Global, kind: &TypeKind, wanted: &str) -> bool {
    match kind {
        TypeKind::Alias(renamed) => is_printed(alloc, renamed, wanted),
        TypeKind::Choice(members) => is_printed(alloc, &members.items(), wanted),
        TypeKind::Items(words) => are_items(words.items(), wanted),
    }
}

fn has_kind(alloc: Global, schema: &Schema, name: &str, wanted: &str) -> bool {
    match type_named(schema, name) {
        Some(of) => is_kind(alloc, schema.type_kind(of), wanted),
        None => false,
    }
}

pub(super) fn wrong_kind(alloc: Global, schema: &Schema, rows: Texts) -> Wrong {
    for (name, wanted) in rows {
        if !has_kind(alloc, schema, name, wanted) {
            return Some((name, wanted));
        }
    }
    None
}

const KINDS: Rows = Rows::Kinds(&[
    ("DISTANCE", "Real"),
    ("TALLY", "Whole"),
    ("COLOUR", "RED GREEN"),
    ("MEASURE", "[Defined(TypeId(0)), Defined(TypeId(1))]"),
    ("ITEM", "[Defined(TypeId(3)), Entity(EntityId(1))]"),
]);

#[test]
fn knows_what_types_are(rt: HostRuntime) {
    check(&rt, rt.alloc(), DEMO, KINDS);
}

fn is_base(alloc: Global, base: &Base, wanted: &str) -> bool {
    match base {
        Base::Plain(plain) => is_printed(alloc, plain, wanted),
        Base::Select(select) => is_printed(alloc, select, wanted),
        Base::Items(words) => are_items(words.items(), wanted),
    }
}

fn has_base(alloc: Global, schema: &Schema, name: &str, wanted: &str) -> bool {
    match type_named(schema, name) {
        Some(of) => is_base(alloc, &schema.base(&TypeUse::Defined(of)), wanted),
        None => false,
    }
}

pub(super) fn wrong_base(alloc: Global, schema: &Schema, rows: Texts) -> Wrong {
    for (name, wanted) in rows {
        if !has_base(alloc, schema, name, wanted) {
            return Some((name, wanted));
        }
    }
    None
}

const LIST: &str = "List { low: 0, high: Some(2), unique: false, element: Defined(TypeId(3)) }";

const BASES: Rows = Rows::Bases(&[
    ("A", "RED GREEN"),
    ("C", "RED GREEN"),
    ("M", LIST),
    ("N", LIST),
    ("S", "TypeId(5)"),
]);

#[test]
fn follows_renamed_types(rt: HostRuntime) {
    check(&rt, rt.alloc(), CHAINS, BASES);
}

/// Whether a select offers an entity at all, and whether it offers E and F.
fn offered_of(schema: &Schema, name: &str) -> Option<[bool; 3]> {
    let of = type_named(schema, name)?;
    let upper = entity_named(schema, "E")?;
    let lower = entity_named(schema, "F")?;
    Some([
        schema.offers_entity(of),
        schema.offers(of, Member::Entity(upper)),
        schema.offers(of, Member::Entity(lower)),
    ])
}

pub(super) fn wrong_entity_offered(schema: &Schema, rows: Facts) -> Wrong {
    for (name, wanted) in rows {
        if offered_of(schema, name) != Some([*wanted, *wanted, false]) {
            return Some((name, "offers E"));
        }
    }
    None
}

const OFFERED_ENTITIES: Rows = Rows::OffersEntity(&[
    ("S", true),
    ("T", true),
    ("U", true),
    ("V", false),
    ("W", false),
    ("A", false),
    ("N", false),
]);

#[test]
fn knows_entities_that_selects_offer(rt: HostRuntime) {
    check(&rt, rt.alloc(), CHAINS, OFFERED_ENTITIES);
}

fn offers_type(schema: &Schema, name: &str, other: &str) -> Option<bool> {
    let of = type_named(schema, name)?;
    let member = type_named(schema, other)?;
    Some(schema.offers(of, Member::Defined(member)))
}

pub(super) fn wrong_type_offered(schema: &Schema, rows: PairFacts) -> Wrong {
    for (name, other, wanted) in rows {
        if offers_type(schema, name, other) != Some(*wanted) {
            return Some((name, other));
        }
    }
    None
}

const OFFERED_TYPES: Rows = Rows::OffersType(&[
    ("S", "A", true),
    ("S", "M", true),
    ("S", "T", false),
    ("S", "S", false),
    ("S", "B", false),
    ("T", "A", true),
    ("V", "A", true),
    ("V", "W", false),
    ("W", "M", false),
    ("A", "B", false),
    ("A", "A", false),
]);

#[test]
fn knows_types_that_selects_offer(rt: HostRuntime) {
    check(&rt, rt.alloc(), CHAINS, OFFERED_TYPES);
}
