use super::{
    DEMO, Facts, Numbers, PairFacts, Rows, Texts, Wrong, are_named, check, entities_named,
    entity_named,
};
use p21_express::SchemaFault;
use p21_express_graph::EntityId;
use p21_schema::Schema;
use std::alloc::Global;

const DIAMOND: &str = "SCHEMA diamond;
ENTITY r; k : INTEGER; END_ENTITY;
ENTITY a SUBTYPE OF (r); p : INTEGER; END_ENTITY;
ENTITY b SUBTYPE OF (r); q : INTEGER; END_ENTITY;
ENTITY c SUBTYPE OF (a, b); z : INTEGER; END_ENTITY;
ENTITY d SUBTYPE OF (b, r, a); END_ENTITY;
END_SCHEMA;
";

const ONE_OF: &str = "SCHEMA sole;
ENTITY s SUPERTYPE OF (ONEOF (a, b)); k : INTEGER; END_ENTITY;
ENTITY a SUBTYPE OF (s); END_ENTITY;
ENTITY b SUBTYPE OF (s); END_ENTITY;
ENTITY c ABSTRACT SUPERTYPE OF (ONEOF (e, b, d)) SUBTYPE OF (s); END_ENTITY;
ENTITY d SUBTYPE OF (a); END_ENTITY;
ENTITY e SUPERTYPE OF (ONEOF (s, c) ANDOR d); END_ENTITY;
END_SCHEMA;
";

const OWN: &str = "SCHEMA own;
ENTITY r SUPERTYPE OF (ONEOF (a, b)); k : NUMBER; END_ENTITY;
ENTITY a ABSTRACT SUBTYPE OF (r); SELF\\r.k : INTEGER; END_ENTITY;
ENTITY b SUBTYPE OF (r); SELF\\r.k : REAL; END_ENTITY;
ENTITY c SUBTYPE OF (a, b); END_ENTITY;
ENTITY d SUBTYPE OF (c); SELF\\b.k : NUMBER; END_ENTITY;
END_SCHEMA;
";

pub(super) fn wrong_schema(
    schema: &Schema,
    rows: &'static [(&'static str, usize, usize)],
) -> Wrong {
    for (name, entities, types) in rows {
        if schema.name() != name.as_bytes()
            || schema.entities() != *entities
            || schema.types() != *types
        {
            return Some((name, "schema"));
        }
    }
    None
}

#[test]
fn has_a_name_and_numbers(rt: HostRuntime) {
    let rows = Rows::Schema(&[("DEMO", 5, 5)]);
    check(&rt, rt.alloc(), DEMO, rows);
}

pub(super) fn wrong_number(schema: &Schema, rows: Numbers) -> Wrong {
    for (name, number) in rows {
        if schema.entity(name.as_bytes()).map(|entity| entity.0) != *number {
            return Some((name, "entity"));
        }
    }
    None
}

const ENTITIES: Rows = Rows::Entities(&[
    ("SHAPE", Some(0)),
    ("POINT", Some(1)),
    ("CLOUD", Some(4)),
    ("point", None),
    ("POIN", None),
    ("COLOUR", None),
    ("LABEL", None),
    ("", None),
]);

#[test]
fn finds_entities_by_their_names(rt: HostRuntime) {
    check(&rt, rt.alloc(), DEMO, ENTITIES);
}

fn is_abstract(schema: &Schema, name: &str) -> Option<bool> {
    match entity_named(schema, name) {
        Some(entity) => Some(schema.is_abstract(entity)),
        None => None,
    }
}

pub(super) fn wrong_abstract(schema: &Schema, rows: Facts) -> Wrong {
    for (name, wanted) in rows {
        if is_abstract(schema, name) != Some(*wanted) {
            return Some((name, "is abstract"));
        }
    }
    None
}

const ABSTRACT: Rows = Rows::Abstract(&[("SHAPE", true), ("POINT", false), ("CLOUD", false)]);

#[test]
fn knows_abstract_entities(rt: HostRuntime) {
    check(&rt, rt.alloc(), DEMO, ABSTRACT);
}

pub(super) fn is_a(schema: &Schema, sub: &str, sup: &str) -> Option<bool> {
    match (entity_named(schema, sub), entity_named(schema, sup)) {
        (Some(lower), Some(upper)) => Some(schema.is_a(lower, upper)),
        _ => None,
    }
}

pub(super) fn wrong_is_a(schema: &Schema, rows: PairFacts) -> Wrong {
    for (sub, sup, wanted) in rows {
        if is_a(schema, sub, sup) != Some(*wanted) {
            return Some((sub, sup));
        }
    }
    None
}

const SUPERTYPES: Rows = Rows::IsA(&[
    ("R", "R", true),
    ("A", "R", true),
    ("R", "A", false),
    ("A", "B", false),
    ("C", "R", true),
    ("C", "A", true),
    ("C", "B", true),
    ("C", "C", true),
    ("B", "C", false),
    ("D", "C", false),
]);

#[test]
fn knows_supertypes(rt: HostRuntime) {
    check(&rt, rt.alloc(), DIAMOND, SUPERTYPES);
}

/// Whether these are the entities of the order of one, both as it is copied and as it stands.
pub(super) fn has_order(schema: &Schema, name: &str, wanted: &str) -> bool {
    let Some(entity) = entity_named(schema, name) else {
        return false;
    };
    match schema.order(entity) {
        Ok(order) => {
            are_named(schema, &order, wanted) && are_named(schema, schema.order_of(entity), wanted)
        }
        Err(_) => false,
    }
}

pub(super) fn wrong_order(schema: &Schema, rows: Texts) -> Wrong {
    for (name, wanted) in rows {
        if !has_order(schema, name, wanted) {
            return Some((name, wanted));
        }
    }
    None
}

const ORDERS: Rows = Rows::Orders(&[("R", "R"), ("A", "R A"), ("C", "R A B C"), ("D", "R B A D")]);

#[test]
fn puts_supertypes_first(rt: HostRuntime) {
    check(&rt, rt.alloc(), DIAMOND, ORDERS);
}

/// The leaves of a set.
fn leaves_of(alloc: Global, schema: &Schema, names: &str) -> Result<Vec<EntityId>, SchemaFault> {
    let entities = entities_named(alloc, schema, names)?;
    Ok(schema.leaves(&entities)?)
}

/// Whether these are the leaves of a set.
pub(super) fn has_leaves(alloc: Global, schema: &Schema, names: &str, wanted: &str) -> bool {
    match leaves_of(alloc, schema, names) {
        Ok(leaves) => are_named(schema, &leaves, wanted),
        Err(_) => false,
    }
}

pub(super) fn wrong_leaves(alloc: Global, schema: &Schema, rows: Texts) -> Wrong {
    for (names, wanted) in rows {
        if !has_leaves(alloc, schema, names, wanted) {
            return Some((names, wanted));
        }
    }
    None
}

/// Also of sets that lack supertypes of their members, in any order.
const LEAVES: Rows = Rows::Leaves(&[
    ("SHAPE POINT MARKED", "POINT MARKED"),
    ("MARKED POINT SHAPE", "MARKED POINT"),
    ("SHAPE POINT ORIGIN", "ORIGIN"),
    ("SHAPE ORIGIN", "ORIGIN"),
    ("ORIGIN CLOUD", "ORIGIN CLOUD"),
    ("SHAPE", "SHAPE"),
    ("", ""),
]);

#[test]
fn finds_leaves(rt: HostRuntime) {
    check(&rt, rt.alloc(), DEMO, LEAVES);
}

fn clashes(alloc: Global, schema: &Schema, names: &str) -> Option<bool> {
    match entities_named(alloc, schema, names) {
        Ok(entities) => Some(schema.clashes(&entities)),
        Err(_) => None,
    }
}

pub(super) fn wrong_clash(alloc: Global, schema: &Schema, rows: Facts) -> Wrong {
    for (names, wanted) in rows {
        if clashes(alloc, schema, names) != Some(*wanted) {
            return Some((names, "clashes"));
        }
    }
    None
}

/// Also of sets that lack supertypes of their members.
const CLASHES: Rows = Rows::Clashes(&[
    ("A B S", true),
    ("B A", true),
    ("A C S", false),
    ("A", false),
    ("A A", false),
    ("D B", true),
    ("E S D", true),
    ("E A", false),
    ("S C", false),
    ("", false),
]);

#[test]
fn finds_clashes(rt: HostRuntime) {
    check(&rt, rt.alloc(), ONE_OF, CLASHES);
}

/// Whether an entity is abstract, and whether its own set leaves something open, and clashes.
pub(super) fn lacks_of(schema: &Schema, name: &str) -> Option<[bool; 3]> {
    match entity_named(schema, name) {
        Some(entity) => Some([
            schema.is_abstract(entity),
            schema.leaves_open(entity),
            schema.own_clashes(entity),
        ]),
        None => None,
    }
}

pub(super) fn wrong_lack(schema: &Schema, rows: &'static [(&'static str, [bool; 3])]) -> Wrong {
    for (name, wanted) in rows {
        if lacks_of(schema, name) != Some(*wanted) {
            return Some((name, "lacks"));
        }
    }
    None
}

const LACKS: Rows = Rows::Lacks(&[
    ("R", [false, false, false]),
    ("A", [true, false, false]),
    ("B", [false, false, false]),
    ("C", [false, true, true]),
    ("D", [false, false, true]),
]);

#[test]
fn knows_what_the_own_set_lacks(rt: HostRuntime) {
    check(&rt, rt.alloc(), OWN, LACKS);
}
