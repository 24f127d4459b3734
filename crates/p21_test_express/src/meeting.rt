//! Texts with several faults, each with the refusal that comes first.
use crate::refusals::{passes, refusal, refusal_between};
use p21_express::SchemaFault;
use std::alloc::Global;

/// Declarations, with their refusal.
type Refusals = &'static [(&'static str, SchemaFault)];

/// The first declarations that aren't refused so.
fn first_wrong(alloc: Global, rows: Refusals) -> &'static str {
    for (text, fault) in rows {
        if refusal(alloc, text) != Some(*fault) {
            return text;
        }
    }
    "none"
}

/// The first declarations that aren't refused so between two others.
fn first_wrong_between(alloc: Global, front: &str, rows: Refusals, rest: &str) -> &'static str {
    for (text, fault) in rows {
        if refusal_between(alloc, front, text, rest) != Some(*fault) {
            return text;
        }
    }
    "none"
}

/// What is found as the text is read comes in the order of the text.
const FROM_THE_FRONT: Refusals = &[
    ("TYPE t = STRING (0 (* open", SchemaFault::Bounds),
    ("TYPE t = (* open STRING (0)", SchemaFault::Token),
    ("TYPE t = STRING (0); USE", SchemaFault::Bounds),
    ("USE TYPE t = STRING (0);", SchemaFault::LeftOut),
    ("ENTITY USE 'open", SchemaFault::LeftOut),
    ("ENTITY 1 USE", SchemaFault::Syntax),
    ("TYPE t = LIST [2:1;", SchemaFault::Bounds),
    ("TYPE t = LIST [1;", SchemaFault::Syntax),
];

#[test]
fn reads_from_the_front(rt: HostRuntime) {
    passes(&rt, first_wrong(rt.alloc(), FROM_THE_FRONT));
}

/// What is found as the text is read comes before what is looked for in the whole schema.
const READ_FIRST: Refusals = &[
    (
        "ENTITY a; END_ENTITY; ENTITY a; END_ENTITY; ENTITY",
        SchemaFault::Syntax,
    ),
    (
        "ENTITY a SUBTYPE OF (z); END_ENTITY; USE FROM t;",
        SchemaFault::LeftOut,
    ),
    (
        "ENTITY a SUBTYPE OF (a); x : STRING (0); END_ENTITY;",
        SchemaFault::Bounds,
    ),
    (
        "ENTITY a; SELF\\a.z : REAL; END_ENTITY; (* open",
        SchemaFault::Token,
    ),
];

#[test]
fn reads_before_it_resolves(rt: HostRuntime) {
    passes(&rt, first_wrong(rt.alloc(), READ_FIRST));
}

const DUPLICATES: Refusals = &[
    (
        "ENTITY a; x : foo; END_ENTITY; ENTITY a; END_ENTITY;",
        SchemaFault::Duplicate,
    ),
    (
        "TYPE t = t; END_TYPE; ENTITY a; x, x : REAL; END_ENTITY;",
        SchemaFault::Duplicate,
    ),
    (
        "TYPE s = SELECT (t, t); END_TYPE; TYPE t = s; END_TYPE;",
        SchemaFault::Duplicate,
    ),
    (
        "ENTITY a; DERIVE SELF\\a.z : REAL := 0.0; END_ENTITY; TYPE t = ENUMERATION OF (b, b); END_TYPE;",
        SchemaFault::Duplicate,
    ),
    (
        "ENTITY a SUBTYPE OF (z); END_ENTITY; ENTITY b SUBTYPE OF (a, a); END_ENTITY;",
        SchemaFault::Duplicate,
    ),
    (
        "ENTITY a SUPERTYPE OF (ONEOF (z, z)); END_ENTITY;",
        SchemaFault::Duplicate,
    ),
];

#[test]
fn looks_for_duplicates_first(rt: HostRuntime) {
    passes(&rt, first_wrong(rt.alloc(), DUPLICATES));
}

/// Each kind of duplicate behind a name that isn't declared.
const EACH_DUPLICATE: Refusals = &[
    (
        "ENTITY a; x, y, x : REAL; END_ENTITY;",
        SchemaFault::Duplicate,
    ),
    (
        "ENTITY a; x : REAL; DERIVE x : REAL := 0.0; END_ENTITY;",
        SchemaFault::Duplicate,
    ),
    (
        "ENTITY a; DERIVE x : REAL := 0.0; y : REAL := 0.0; X : REAL := 0.0; END_ENTITY;",
        SchemaFault::Duplicate,
    ),
    (
        "ENTITY a SUBTYPE OF (u, u); END_ENTITY;",
        SchemaFault::Duplicate,
    ),
    (
        "ENTITY a SUPERTYPE OF (ONEOF (a, u, a)); END_ENTITY;",
        SchemaFault::Duplicate,
    ),
    (
        "TYPE t = ENUMERATION OF (red, green, red); END_TYPE;",
        SchemaFault::Duplicate,
    ),
    ("TYPE t = SELECT (u, u); END_TYPE;", SchemaFault::Duplicate),
    ("TYPE u = REAL; END_TYPE;", SchemaFault::Duplicate),
];

#[test]
fn finds_each_duplicate_behind_another_fault(rt: HostRuntime) {
    let front = "SCHEMA s; ENTITY u; z : foo; END_ENTITY; ";
    passes(
        &rt,
        first_wrong_between(rt.alloc(), front, EACH_DUPLICATE, " END_SCHEMA;"),
    );
}

const DIAMOND: &str =
    "SCHEMA s; TYPE t = foo; END_TYPE; ENTITY r; k : REAL; END_ENTITY; ENTITY a SUBTYPE OF (r); l : REAL; END_ENTITY; ENTITY b SUBTYPE OF (r); l : REAL; END_ENTITY; ENTITY c SUBTYPE OF (a, b); END_ENTITY; ENTITY d SUBTYPE OF (c); ";

/// Redeclarations in a diamond, behind a name that isn't declared.
const PLACES: Refusals = &[
    ("SELF\\r.k, SELF\\r.k : REAL;", SchemaFault::Duplicate),
    (
        "SELF\\c.k : REAL; DERIVE SELF\\r.k : REAL := 0.0;",
        SchemaFault::Duplicate,
    ),
    (
        "DERIVE SELF\\a.k : REAL := 0.0; SELF\\b.k : REAL := 0.0;",
        SchemaFault::Duplicate,
    ),
    ("SELF\\b.l, SELF\\b.l : REAL;", SchemaFault::Duplicate),
    ("SELF\\a.l, SELF\\b.l : REAL;", SchemaFault::UnknownName),
    ("SELF\\c.l, SELF\\c.l : REAL;", SchemaFault::UnknownName),
    ("SELF\\r.k, k : REAL;", SchemaFault::UnknownName),
];

#[test]
fn finds_each_place_redeclared_twice(rt: HostRuntime) {
    let rest = " END_ENTITY; END_SCHEMA;";
    passes(&rt, first_wrong_between(rt.alloc(), DIAMOND, PLACES, rest));
}

/// Schemas up to a redeclaration, with other faults.
const FRONTS: &[&str] = &[
    "SCHEMA s; ENTITY r; k : REAL; END_ENTITY; TYPE t = t; END_TYPE; ENTITY a SUBTYPE OF (r); ",
    "SCHEMA s; ENTITY r; k : REAL; END_ENTITY; TYPE s = SELECT (r); END_TYPE; TYPE t = s; END_TYPE; ENTITY a SUBTYPE OF (r); ",
    "SCHEMA s; ENTITY r; k : REAL; END_ENTITY; ENTITY b; SELF\\r.k : REAL; END_ENTITY; ENTITY a SUBTYPE OF (r); ",
];

/// Names that only redeclarations have.
const UNKNOWN: Refusals = &[
    ("SELF\\r.k : foo;", SchemaFault::UnknownName),
    ("SELF\\foo.k : REAL;", SchemaFault::UnknownName),
    (
        "DERIVE SELF\\foo.k : REAL := 0.0;",
        SchemaFault::UnknownName,
    ),
    ("SELF\\r.k : LIST OF foo;", SchemaFault::UnknownName),
];

/// The first front with the first redeclaration that isn't refused so behind it.
fn first_wrong_behind(alloc: Global) -> Option<(&'static str, &'static str)> {
    for front in FRONTS {
        let wrong = first_wrong_between(alloc, front, UNKNOWN, " END_ENTITY; END_SCHEMA;");
        if wrong != "none" {
            return Some((front, wrong));
        }
    }
    None
}

#[test]
fn finds_unknown_names_of_redeclarations_first(rt: HostRuntime) {
    assert_eq!(rt; first_wrong_behind(rt.alloc()), None);
}

/// Also where one place is redeclared twice, in a schema that is wrong elsewhere.
const REDECLARED_TWICE: Refusals = &[
    (
        "ENTITY r; k : foo; END_ENTITY; ENTITY a SUBTYPE OF (r); SELF\\r.k, SELF\\r.k : REAL; END_ENTITY;",
        SchemaFault::Duplicate,
    ),
    (
        "ENTITY r; k : REAL; END_ENTITY; ENTITY a; SELF\\r.k, SELF\\r.k : REAL; END_ENTITY;",
        SchemaFault::Duplicate,
    ),
    (
        "ENTITY r SUBTYPE OF (a); k : REAL; END_ENTITY; ENTITY a SUBTYPE OF (r); SELF\\r.k, SELF\\a.k : REAL; END_ENTITY;",
        SchemaFault::Duplicate,
    ),
    (
        "ENTITY r; END_ENTITY; ENTITY a SUBTYPE OF (r); SELF\\r.k, SELF\\r.k : REAL; END_ENTITY;",
        SchemaFault::RedeclaredPlace,
    ),
    (
        "ENTITY a; SELF\\r.k, SELF\\r.k : REAL; END_ENTITY;",
        SchemaFault::UnknownName,
    ),
    (
        "ENTITY a; k : REAL; SELF\\a.k, SELF\\a.k : REAL; END_ENTITY;",
        SchemaFault::Duplicate,
    ),
];

#[test]
fn looks_for_places_redeclared_twice(rt: HostRuntime) {
    passes(&rt, first_wrong(rt.alloc(), REDECLARED_TWICE));
}

const UNKNOWN_NAMES: Refusals = &[
    (
        "ENTITY a SUBTYPE OF (a); END_ENTITY; ENTITY b; x : foo; END_ENTITY;",
        SchemaFault::UnknownName,
    ),
    (
        "TYPE s = SELECT (s, foo); END_TYPE;",
        SchemaFault::UnknownName,
    ),
    (
        "ENTITY a; SELF\\a.z : REAL; SELF\\b.z : REAL; END_ENTITY;",
        SchemaFault::UnknownName,
    ),
    (
        "TYPE s = SELECT (e); END_TYPE; TYPE t = s; END_TYPE; ENTITY e; END_ENTITY; TYPE u = e; END_TYPE;",
        SchemaFault::UnknownName,
    ),
    (
        "TYPE s = SELECT (s); END_TYPE; TYPE t = s; END_TYPE;",
        SchemaFault::Circular,
    ),
    (
        "ENTITY a SUBTYPE OF (a); SELF\\a.z : REAL; END_ENTITY;",
        SchemaFault::Circular,
    ),
    (
        "ENTITY a; SELF\\a.z : REAL; END_ENTITY; TYPE t = t; END_TYPE;",
        SchemaFault::Circular,
    ),
];

#[test]
fn looks_for_unknown_names_then_for_circles(rt: HostRuntime) {
    passes(&rt, first_wrong(rt.alloc(), UNKNOWN_NAMES));
}

const RENAMED_SELECTS: Refusals = &[
    (
        "TYPE a = b; END_TYPE; TYPE b = SELECT (a); END_TYPE;",
        SchemaFault::LeftOut,
    ),
    (
        "ENTITY e; SELF\\e.z : REAL; END_ENTITY; TYPE s = SELECT (e); END_TYPE; TYPE t = s; END_TYPE;",
        SchemaFault::LeftOut,
    ),
    (
        "ENTITY e; SELF\\e.z : REAL; END_ENTITY; TYPE s = SELECT (e); END_TYPE; TYPE t = LIST OF s; END_TYPE;",
        SchemaFault::RedeclaredPlace,
    ),
    (
        "ENTITY e; SELF\\e.z : REAL; END_ENTITY; TYPE t = LIST OF e; END_TYPE;",
        SchemaFault::RedeclaredPlace,
    ),
];

#[test]
fn looks_for_renamed_selects_then_for_places(rt: HostRuntime) {
    passes(&rt, first_wrong(rt.alloc(), RENAMED_SELECTS));
}
