//! Each refusal by several texts, each beside a text near it that is read.
use p21_express::{SchemaFault, read_schema};
use std::alloc::Global;
use std::process::Abort;

/// What a text is refused with: none where it is read.
fn refusal_of(alloc: Global, text: &[u8]) -> Option<SchemaFault> {
    read_schema(alloc, text).err()
}

/// A text between two others.
fn between(alloc: Global, front: &str, part: &str, rest: &str) -> Result<Vec<u8>, SchemaFault> {
    let mut text = Vec::from_slice(alloc, front.as_bytes())?;
    text.extend_from_slice(part.as_bytes())?;
    text.extend_from_slice(rest.as_bytes())?;
    Ok(text)
}

/// What a text is refused with between two others: none where it is read.
pub(crate) fn refusal_between(
    alloc: Global,
    front: &str,
    part: &str,
    rest: &str,
) -> Option<SchemaFault> {
    match between(alloc, front, part, rest) {
        Ok(text) => refusal_of(alloc, &text),
        Err(fault) => Some(fault),
    }
}

/// What a schema of these declarations is refused with: none where it is read.
pub(crate) fn refusal(alloc: Global, declarations: &str) -> Option<SchemaFault> {
    refusal_between(alloc, "SCHEMA s; ", declarations, " END_SCHEMA;")
}

/// Fails where a row is wrong.
pub(crate) fn passes(rt: &impl Abort, wrong: &str) {
    assert_eq!(*rt; wrong, "none");
}

/// Refused declarations, each with others that are read.
type Pairs = &'static [(&'static str, &'static str)];

/// The first declarations that aren't refused so, or whose neighbour isn't read.
fn first_wrong_pair(alloc: Global, pairs: Pairs, fault: SchemaFault) -> &'static str {
    for (refused, neighbour) in pairs {
        if refusal(alloc, refused) != Some(fault) {
            return refused;
        }
        if refusal(alloc, neighbour).is_some() {
            return neighbour;
        }
    }
    "none"
}

const BYTES: Pairs = &[
    ("(* open", "(* closed *)"),
    ("(* a (* b *) c", "(* a (* b *) c *)"),
    ("(*)", "(**)"),
    (
        "TYPE t = REAL; WHERE w : SELF <> 'it''s; END_TYPE;",
        "TYPE t = REAL; WHERE w : SELF <> 'it''s'; END_TYPE;",
    ),
    (
        "CONSTANT c : STRING := \"00000041; END_CONSTANT;",
        "CONSTANT c : STRING := \"00000041\"; END_CONSTANT;",
    ),
    ("\u{e9}", "-- \u{e9}\n"),
];

#[test]
fn refuses_bytes_that_are_no_tokens(rt: HostRuntime) {
    passes(&rt, first_wrong_pair(rt.alloc(), BYTES, SchemaFault::Token));
}

const GRAMMAR: Pairs = &[
    ("ENTITY a END_ENTITY;", "ENTITY a; END_ENTITY;"),
    (
        "ENTITY a; x : REAL END_ENTITY;",
        "ENTITY a; x : REAL; END_ENTITY;",
    ),
    (
        "ENTITY unique; END_ENTITY;",
        "ENTITY uniqueness; END_ENTITY;",
    ),
    (
        "TYPE t = ENUMERATION OF (); END_TYPE;",
        "TYPE t = ENUMERATION OF (t); END_TYPE;",
    ),
    (
        "ENTITY r; END_ENTITY; ENTITY a SUBTYPE OF (r) SUPERTYPE OF (r); END_ENTITY;",
        "ENTITY r; END_ENTITY; ENTITY a SUPERTYPE OF (r) SUBTYPE OF (r); END_ENTITY;",
    ),
    ("END_SCHEMA; SCHEMA t;", "-- END_SCHEMA; SCHEMA t;\n"),
];

#[test]
fn refuses_what_the_grammar_does_not_have(rt: HostRuntime) {
    passes(
        &rt,
        first_wrong_pair(rt.alloc(), GRAMMAR, SchemaFault::Syntax),
    );
}

const NAMES_TWICE: Pairs = &[
    (
        "ENTITY a; END_ENTITY; ENTITY A; END_ENTITY;",
        "ENTITY a; END_ENTITY; ENTITY aa; END_ENTITY;",
    ),
    (
        "ENTITY a; END_ENTITY; TYPE a = REAL; END_TYPE;",
        "ENTITY a; END_ENTITY; TYPE b = REAL; END_TYPE;",
    ),
    (
        "TYPE a = REAL; END_TYPE; TYPE a = REAL; END_TYPE;",
        "TYPE a = REAL; END_TYPE; TYPE b = REAL; END_TYPE;",
    ),
    (
        "TYPE t = ENUMERATION OF (red, blue, RED); END_TYPE;",
        "TYPE t = ENUMERATION OF (red, blue, t); END_TYPE;",
    ),
    (
        "TYPE t = REAL; END_TYPE; TYPE s = SELECT (t, t); END_TYPE;",
        "TYPE t = REAL; END_TYPE; TYPE s = SELECT (t, u); END_TYPE; TYPE u = SELECT (t); END_TYPE;",
    ),
    (
        "ENTITY r SUPERTYPE OF (ONEOF (r, r)); END_ENTITY;",
        "ENTITY r SUPERTYPE OF (ONEOF (r)); END_ENTITY;",
    ),
    (
        "ENTITY r; END_ENTITY; ENTITY a SUBTYPE OF (r, r); END_ENTITY;",
        "ENTITY r; END_ENTITY; ENTITY a SUBTYPE OF (r); END_ENTITY;",
    ),
];

#[test]
fn refuses_names_twice(rt: HostRuntime) {
    passes(
        &rt,
        first_wrong_pair(rt.alloc(), NAMES_TWICE, SchemaFault::Duplicate),
    );
}

const ATTRIBUTES_TWICE: Pairs = &[
    (
        "ENTITY a; x, y, X : REAL; END_ENTITY;",
        "ENTITY a; x, y, a : REAL; END_ENTITY;",
    ),
    (
        "ENTITY a; x : REAL; x : REAL; END_ENTITY;",
        "ENTITY a; x : REAL; END_ENTITY; ENTITY b; x : REAL; END_ENTITY;",
    ),
    (
        "ENTITY a; x : REAL; DERIVE x : REAL := 0.0; END_ENTITY;",
        "ENTITY a; x : REAL; END_ENTITY; ENTITY b SUBTYPE OF (a); DERIVE x : REAL := 0.0; END_ENTITY;",
    ),
    (
        "ENTITY a; DERIVE x : REAL := 0.0; x : REAL := 1.0; END_ENTITY;",
        "ENTITY a; DERIVE x : REAL := 0.0; INVERSE x : a FOR a; END_ENTITY;",
    ),
    (
        "ENTITY r; k : REAL; END_ENTITY; ENTITY a SUBTYPE OF (r); SELF\\r.k : REAL; SELF\\r.k : REAL; END_ENTITY;",
        "ENTITY r; k : REAL; END_ENTITY; ENTITY a SUBTYPE OF (r); SELF\\r.k : REAL; k : REAL; END_ENTITY;",
    ),
    (
        "ENTITY r; k : REAL; END_ENTITY; ENTITY a SUBTYPE OF (r); SELF\\r.k : REAL; DERIVE SELF\\r.k : REAL := 0.0; END_ENTITY;",
        "ENTITY r; k : REAL; END_ENTITY; ENTITY a SUBTYPE OF (r); k : REAL; DERIVE SELF\\r.k : REAL := 0.0; END_ENTITY;",
    ),
    (
        "ENTITY r; k : REAL; END_ENTITY; ENTITY a SUBTYPE OF (r); END_ENTITY; ENTITY b SUBTYPE OF (a); SELF\\r.k, SELF\\a.k : REAL; END_ENTITY;",
        "ENTITY r; k : REAL; END_ENTITY; ENTITY a SUBTYPE OF (r); k : REAL; END_ENTITY; ENTITY b SUBTYPE OF (a); SELF\\r.k, SELF\\a.k : REAL; END_ENTITY;",
    ),
];

#[test]
fn refuses_attributes_twice(rt: HostRuntime) {
    passes(
        &rt,
        first_wrong_pair(rt.alloc(), ATTRIBUTES_TWICE, SchemaFault::Duplicate),
    );
}

const NOT_DECLARED: Pairs = &[
    (
        "ENTITY a; x : foo; END_ENTITY;",
        "ENTITY a; x : foo; END_ENTITY; TYPE foo = REAL; END_TYPE;",
    ),
    (
        "ENTITY a SUBTYPE OF (r); END_ENTITY;",
        "ENTITY a SUBTYPE OF (r); END_ENTITY; ENTITY r; END_ENTITY;",
    ),
    (
        "ENTITY a SUBTYPE OF (r); END_ENTITY; TYPE r = REAL; END_TYPE;",
        "ENTITY a SUBTYPE OF (r); END_ENTITY; ENTITY r; END_ENTITY;",
    ),
    (
        "ENTITY a; END_ENTITY; TYPE t = a; END_TYPE;",
        "ENTITY a; END_ENTITY; TYPE t = SET OF a; END_TYPE;",
    ),
    (
        "TYPE s = SELECT (t, u); END_TYPE; TYPE t = REAL; END_TYPE;",
        "TYPE s = SELECT (t, u); END_TYPE; TYPE t = REAL; END_TYPE; ENTITY u; END_ENTITY;",
    ),
    (
        "TYPE t = LIST OF SET OF u; END_TYPE;",
        "TYPE t = LIST OF SET OF t; END_TYPE;",
    ),
];

#[test]
fn refuses_names_that_are_not_declared(rt: HostRuntime) {
    passes(
        &rt,
        first_wrong_pair(rt.alloc(), NOT_DECLARED, SchemaFault::UnknownName),
    );
}

const NO_ENTITY: Pairs = &[
    (
        "ENTITY s SUPERTYPE OF (ONEOF (s, z)); END_ENTITY;",
        "ENTITY s SUPERTYPE OF (ONEOF (s, z)); END_ENTITY; ENTITY z; END_ENTITY;",
    ),
    (
        "ENTITY s SUPERTYPE OF (ONEOF (s, z)); END_ENTITY; TYPE z = REAL; END_TYPE;",
        "ENTITY s SUPERTYPE OF (ONEOF (s, z) ANDOR s); END_ENTITY; TYPE z = REAL; END_TYPE;",
    ),
    (
        "ENTITY a; SELF\\r.k : REAL; END_ENTITY;",
        "ENTITY a; r_k : REAL; END_ENTITY;",
    ),
    (
        "ENTITY a; DERIVE SELF\\r.k : REAL := 0.0; END_ENTITY;",
        "ENTITY a; DERIVE r_k : REAL := SELF\\r.k; END_ENTITY;",
    ),
    (
        "ENTITY r; k : REAL; END_ENTITY; ENTITY a SUBTYPE OF (r); SELF\\r.k : foo; END_ENTITY;",
        "ENTITY r; k : REAL; END_ENTITY; ENTITY a SUBTYPE OF (r); SELF\\r.k : r; END_ENTITY;",
    ),
];

#[test]
fn refuses_names_of_no_entity(rt: HostRuntime) {
    passes(
        &rt,
        first_wrong_pair(rt.alloc(), NO_ENTITY, SchemaFault::UnknownName),
    );
}

const CHAINS: Pairs = &[
    (
        "ENTITY a SUBTYPE OF (b); END_ENTITY; ENTITY b SUBTYPE OF (a); END_ENTITY;",
        "ENTITY a SUBTYPE OF (b); END_ENTITY; ENTITY b; END_ENTITY;",
    ),
    (
        "ENTITY a SUBTYPE OF (a); END_ENTITY;",
        "ENTITY a; x : a; END_ENTITY;",
    ),
    (
        "ENTITY r SUBTYPE OF (c); END_ENTITY; ENTITY a SUBTYPE OF (r); END_ENTITY; ENTITY b SUBTYPE OF (r); END_ENTITY; ENTITY c SUBTYPE OF (a, b); END_ENTITY;",
        "ENTITY r; END_ENTITY; ENTITY a SUBTYPE OF (r); END_ENTITY; ENTITY b SUBTYPE OF (r); END_ENTITY; ENTITY c SUBTYPE OF (a, b); END_ENTITY;",
    ),
    ("TYPE t = t; END_TYPE;", "TYPE t = LIST OF t; END_TYPE;"),
    (
        "TYPE t = u; END_TYPE; TYPE u = v; END_TYPE; TYPE v = t; END_TYPE;",
        "TYPE t = u; END_TYPE; TYPE u = v; END_TYPE; TYPE v = REAL; END_TYPE;",
    ),
    (
        "TYPE s = SELECT (s); END_TYPE;",
        "TYPE s = SELECT (t); END_TYPE; TYPE t = SET OF s; END_TYPE;",
    ),
    (
        "TYPE s = SELECT (t, u); END_TYPE; TYPE t = REAL; END_TYPE; TYPE u = SELECT (t, s); END_TYPE;",
        "TYPE s = SELECT (t, u); END_TYPE; TYPE t = REAL; END_TYPE; TYPE u = SELECT (t); END_TYPE;",
    ),
];

#[test]
fn refuses_chains_that_come_back(rt: HostRuntime) {
    passes(
        &rt,
        first_wrong_pair(rt.alloc(), CHAINS, SchemaFault::Circular),
    );
}

const LEFT_OUT: Pairs = &[
    ("USE FROM t;", "CONSTANT c : t := USE; END_CONSTANT;"),
    ("REFERENCE FROM t (a);", "(* REFERENCE FROM t (a); *)"),
    (
        "TYPE s = SELECT (t); END_TYPE; TYPE t = REAL; END_TYPE; TYPE u = s; END_TYPE;",
        "TYPE s = SELECT (t); END_TYPE; TYPE t = REAL; END_TYPE; TYPE u = SET OF s; END_TYPE;",
    ),
    (
        "TYPE s = EXTENSIBLE SELECT (s); END_TYPE;",
        "TYPE s = SELECT (t); END_TYPE; TYPE t = REAL; END_TYPE;",
    ),
    (
        "TYPE t = STRING (n); END_TYPE;",
        "TYPE t = STRING (9); END_TYPE;",
    ),
    (
        "TYPE t = LIST [0:n] OF REAL; END_TYPE;",
        "TYPE t = LIST [0:?] OF REAL; END_TYPE;",
    ),
    (
        "ENTITY a; x : GENERIC; END_ENTITY;",
        "ENTITY a; x : NUMBER; WHERE w : GENERIC; END_ENTITY;",
    ),
];

#[test]
fn refuses_what_is_left_out(rt: HostRuntime) {
    passes(
        &rt,
        first_wrong_pair(rt.alloc(), LEFT_OUT, SchemaFault::LeftOut),
    );
}

const BOUNDS: Pairs = &[
    (
        "ENTITY a; x : LIST [3:1] OF REAL; END_ENTITY;",
        "ENTITY a; x : LIST [1:3] OF REAL; END_ENTITY;",
    ),
    (
        "TYPE t = BAG [1:0] OF REAL; END_TYPE;",
        "TYPE t = BAG [0:0] OF REAL; END_TYPE;",
    ),
    (
        "TYPE t = ARRAY [1:?] OF REAL; END_TYPE;",
        "TYPE t = LIST [1:?] OF REAL; END_TYPE;",
    ),
    (
        "TYPE t = SET [?:1] OF REAL; END_TYPE;",
        "TYPE t = SET [1:1] OF REAL; END_TYPE;",
    ),
    (
        "TYPE t = STRING (0); END_TYPE;",
        "TYPE t = STRING (01); END_TYPE;",
    ),
    (
        "TYPE t = BINARY (4294967296) FIXED; END_TYPE;",
        "TYPE t = BINARY (4294967295) FIXED; END_TYPE;",
    ),
    (
        "TYPE t = ARRAY [0:4294967296] OF REAL; END_TYPE;",
        "TYPE t = ARRAY [0:4294967295] OF REAL; END_TYPE;",
    ),
];

#[test]
fn refuses_bounds_that_allow_nothing(rt: HostRuntime) {
    passes(
        &rt,
        first_wrong_pair(rt.alloc(), BOUNDS, SchemaFault::Bounds),
    );
}

const NO_PLACE: Pairs = &[
    (
        "ENTITY a; y : REAL; END_ENTITY; ENTITY b SUBTYPE OF (a); DERIVE SELF\\a.z : REAL := 0.0; END_ENTITY;",
        "ENTITY a; z : REAL; END_ENTITY; ENTITY b SUBTYPE OF (a); DERIVE SELF\\a.z : REAL := 0.0; END_ENTITY;",
    ),
    (
        "ENTITY a; y : REAL; END_ENTITY; ENTITY b SUBTYPE OF (a); z : REAL; SELF\\a.z : REAL; END_ENTITY;",
        "ENTITY a; y : REAL; END_ENTITY; ENTITY b SUBTYPE OF (a); z : REAL; SELF\\a.y : REAL; END_ENTITY;",
    ),
    (
        "ENTITY a; z : REAL; END_ENTITY; ENTITY b; SELF\\a.z : REAL; END_ENTITY;",
        "ENTITY a; z : REAL; END_ENTITY; ENTITY b SUBTYPE OF (a); SELF\\a.z : REAL; END_ENTITY;",
    ),
    (
        "ENTITY a; z : REAL; SELF\\a.z : REAL; END_ENTITY;",
        "ENTITY a; z : REAL; END_ENTITY; ENTITY b SUBTYPE OF (a); SELF\\a.z : REAL; END_ENTITY;",
    ),
    (
        "ENTITY a; z : REAL; END_ENTITY; ENTITY b SUBTYPE OF (a); SELF\\t.z : REAL; END_ENTITY; TYPE t = REAL; END_TYPE;",
        "ENTITY a; z : REAL; END_ENTITY; ENTITY b SUBTYPE OF (a); SELF\\a.z : t; END_ENTITY; TYPE t = REAL; END_TYPE;",
    ),
    (
        "ENTITY a; END_ENTITY; ENTITY b SUBTYPE OF (a); z : REAL; END_ENTITY; ENTITY c SUBTYPE OF (b); SELF\\a.z : REAL; END_ENTITY;",
        "ENTITY a; z : REAL; END_ENTITY; ENTITY b SUBTYPE OF (a); END_ENTITY; ENTITY c SUBTYPE OF (b); SELF\\b.z : REAL; END_ENTITY;",
    ),
];

#[test]
fn refuses_redeclarations_of_no_place(rt: HostRuntime) {
    passes(
        &rt,
        first_wrong_pair(rt.alloc(), NO_PLACE, SchemaFault::RedeclaredPlace),
    );
}

const SEVERAL_PLACES: Pairs = &[
    (
        "ENTITY p; k : REAL; END_ENTITY; ENTITY q; k : REAL; END_ENTITY; ENTITY a SUBTYPE OF (p, q); END_ENTITY; ENTITY b SUBTYPE OF (a); SELF\\a.k : REAL; END_ENTITY;",
        "ENTITY p; k : REAL; END_ENTITY; ENTITY q; k : REAL; END_ENTITY; ENTITY a SUBTYPE OF (p, q); END_ENTITY; ENTITY b SUBTYPE OF (a); SELF\\q.k : REAL; END_ENTITY;",
    ),
    (
        "ENTITY p; k : REAL; END_ENTITY; ENTITY q; k : REAL; END_ENTITY; ENTITY a SUBTYPE OF (p, q); END_ENTITY; ENTITY b SUBTYPE OF (a); DERIVE SELF\\a.k : REAL := 0.0; END_ENTITY;",
        "ENTITY p; k : REAL; END_ENTITY; ENTITY q; k : REAL; END_ENTITY; ENTITY a SUBTYPE OF (p, q); k : REAL; END_ENTITY; ENTITY b SUBTYPE OF (a); DERIVE SELF\\a.k : REAL := 0.0; END_ENTITY;",
    ),
    (
        "ENTITY p; k : REAL; END_ENTITY; ENTITY q; k : REAL; END_ENTITY; ENTITY a SUBTYPE OF (p, q); DERIVE k : REAL := 0.0; END_ENTITY; ENTITY b SUBTYPE OF (a); DERIVE SELF\\a.k : REAL := 0.0; END_ENTITY;",
        "ENTITY p; k : REAL; END_ENTITY; ENTITY q; END_ENTITY; ENTITY a SUBTYPE OF (p, q); DERIVE k : REAL := 0.0; END_ENTITY; ENTITY b SUBTYPE OF (a); DERIVE SELF\\a.k : REAL := 0.0; END_ENTITY;",
    ),
];

#[test]
fn refuses_redeclarations_of_several_places(rt: HostRuntime) {
    passes(
        &rt,
        first_wrong_pair(rt.alloc(), SEVERAL_PLACES, SchemaFault::RedeclaredPlace),
    );
}

/// A derived attribute that is derived anew has no place; only DERIVE may do that.
const DERIVED_ANEW: Pairs = &[
    (
        "ENTITY r; DERIVE z : REAL := 0.0; END_ENTITY; ENTITY a SUBTYPE OF (r); SELF\\r.z : REAL; END_ENTITY;",
        "ENTITY r; DERIVE z : REAL := 0.0; END_ENTITY; ENTITY a SUBTYPE OF (r); DERIVE SELF\\r.z : REAL := 1.0; END_ENTITY;",
    ),
    (
        "ENTITY r; DERIVE z : REAL := 0.0; END_ENTITY; ENTITY a; DERIVE SELF\\r.z : REAL := 1.0; END_ENTITY;",
        "ENTITY r; DERIVE z : REAL := 0.0; END_ENTITY; ENTITY a SUBTYPE OF (r); END_ENTITY; ENTITY b SUBTYPE OF (a); DERIVE SELF\\a.z : REAL := 1.0; END_ENTITY;",
    ),
    (
        "ENTITY r; DERIVE z : REAL := 0.0; END_ENTITY; ENTITY a SUBTYPE OF (r); DERIVE SELF\\r.y : REAL := 1.0; END_ENTITY;",
        "ENTITY r; DERIVE z : REAL := 0.0; END_ENTITY; ENTITY a SUBTYPE OF (r); DERIVE SELF\\r.z : REAL := 1.0; SELF\\r.z : REAL := 2.0; END_ENTITY;",
    ),
];

#[test]
fn reads_derived_attributes_that_are_derived_anew(rt: HostRuntime) {
    passes(
        &rt,
        first_wrong_pair(rt.alloc(), DERIVED_ANEW, SchemaFault::RedeclaredPlace),
    );
}

/// A schema up to what 32 aggregates, one in another, are of.
const LISTS: &str = "SCHEMA s; TYPE t =
LIST OF LIST OF LIST OF LIST OF LIST OF LIST OF LIST OF LIST OF
LIST OF LIST OF LIST OF LIST OF LIST OF LIST OF LIST OF LIST OF
LIST OF LIST OF LIST OF LIST OF LIST OF LIST OF LIST OF LIST OF
LIST OF LIST OF LIST OF LIST OF LIST OF LIST OF LIST OF LIST OF
";

fn refusal_in_lists(alloc: Global, element: &str) -> Option<SchemaFault> {
    refusal_between(alloc, LISTS, element, "; END_TYPE; END_SCHEMA;")
}

#[test]
fn refuses_aggregates_that_are_too_deep(rt: HostRuntime) {
    assert_eq!(rt;
        refusal_in_lists(rt.alloc(), "LIST OF REAL"),
        Some(SchemaFault::TooLarge)
    );
    assert_eq!(rt; refusal_in_lists(rt.alloc(), "REAL"), None);
}
