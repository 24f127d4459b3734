//! Schemas, each with the text that is printed of it.
use super::{DIAMOND, PRINTED_DIAMOND};
use crate::run::Command::Schema;
use crate::run::Left::Answer;
use crate::run::Row::Leaves;
use crate::run::{AMPLE_ROOMS, Rows, first_wrong, leaves_of};
use crate::schemas::File::{Declares, Text};
use crate::schemas::Subject::{Demo, Redecl, Wide};
use crate::schemas::push_numbered;
use std::alloc::{AllocError, Global};

const PRINTED_DEMO: &str = "SCHEMA DEMO
ABSTRACT SHAPE(LABEL)
POINT(LABEL,X,Y)
MARKED(LABEL,MARK)
ORIGIN(LABEL,*,Y)
CLOUD(MEMBERS,SIZES,VALUES)
";

const ROWS: Rows = &[
    Leaves(Schema, Declares(Demo), Answer(PRINTED_DEMO)),
    Leaves(Schema, Text(DIAMOND), Answer(PRINTED_DIAMOND)),
    // what is redeclared, once
    Leaves(
        Schema,
        Declares(Redecl),
        Answer("SCHEMA REDECL\nR(K)\nA(K)\nB(K)\n"),
    ),
    // attributes of each type
    Leaves(
        Schema,
        Declares(Wide),
        Answer("SCHEMA WIDE\nE(S,F,B,O,N)\n"),
    ),
    // one of two subtypes
    Leaves(
        Schema,
        Text(
            "SCHEMA sole; ENTITY s SUPERTYPE OF (ONEOF (a, b)); k : INTEGER; END_ENTITY; ENTITY a SUBTYPE OF (s); END_ENTITY; ENTITY b SUBTYPE OF (s); END_ENTITY; ENTITY c SUBTYPE OF (s); END_ENTITY; END_SCHEMA;",
        ),
        Answer("SCHEMA SOLE\nS(K)\nA(K)\nB(K)\nC(K)\n"),
    ),
    // small schemas
    Leaves(Schema, Text("SCHEMA s; END_SCHEMA;"), Answer("SCHEMA S\n")),
    Leaves(
        Schema,
        Text(
            "(* a (* b *) c *) SCHEMA t 'v1'; FUNCTION f : REAL; FUNCTION g : REAL; END_FUNCTION; END_FUNCTION; END_SCHEMA; -- end",
        ),
        Answer("SCHEMA T\n"),
    ),
    Leaves(
        Schema,
        Text("schema Mixed_1; entity Point abstract; End_Entity; end_schema;"),
        Answer("SCHEMA MIXED_1\nABSTRACT POINT()\n"),
    ),
    Leaves(
        Schema,
        Text(
            "SCHEMA s; TYPE t = LIST [0:0] OF REAL; END_TYPE; ENTITY e; x : t; END_ENTITY; END_SCHEMA;",
        ),
        Answer("SCHEMA S\nE(X)\n"),
    ),
    Leaves(
        Schema,
        Text(
            "SCHEMA s; ENTITY b SUBTYPE OF (a); z : REAL; END_ENTITY; ENTITY a; y : REAL; END_ENTITY; END_SCHEMA;",
        ),
        Answer("SCHEMA S\nB(Y,Z)\nA(Y)\n"),
    ),
    Leaves(
        Schema,
        Text("SCHEMA s; TYPE t = REAL; END_TYPE; TYPE u = SELECT (t); END_TYPE; END_SCHEMA;"),
        Answer("SCHEMA S\n"),
    ),
    // a place is derived in the entities below the one that derives it, and not beside or above it
    Leaves(
        Schema,
        Text(
            "SCHEMA s; ENTITY r; k, l : REAL; END_ENTITY; ENTITY a SUBTYPE OF (r); DERIVE SELF\\r.l : REAL := 0.0; END_ENTITY; ENTITY b SUBTYPE OF (r); END_ENTITY; ENTITY c SUBTYPE OF (b, a); m : REAL; END_ENTITY; END_SCHEMA;",
        ),
        Answer("SCHEMA S\nR(K,L)\nA(K,*)\nB(K,L)\nC(K,*,M)\n"),
    ),
    Leaves(
        Schema,
        Text(
            "SCHEMA s; ENTITY r; k : REAL; DERIVE z : REAL := 0.0; END_ENTITY; ENTITY a SUBTYPE OF (r); DERIVE SELF\\r.z : REAL := 1.0; y : REAL := 2.0; END_ENTITY; END_SCHEMA;",
        ),
        Answer("SCHEMA S\nR(K)\nA(K)\n"),
    ),
    Leaves(
        Schema,
        Text(
            "SCHEMA s; ENTITY r; k : NUMBER; END_ENTITY; ENTITY a SUBTYPE OF (r); SELF\\r.k : REAL; END_ENTITY; ENTITY b SUBTYPE OF (a); DERIVE SELF\\a.k : REAL := 0.0; END_ENTITY; END_SCHEMA;",
        ),
        Answer("SCHEMA S\nR(K)\nA(K)\nB(*)\n"),
    ),
    Leaves(
        Schema,
        Text(
            "SCHEMA s; ENTITY r; k : NUMBER; END_ENTITY; ENTITY a SUBTYPE OF (r); SELF\\r.k : INTEGER; END_ENTITY; ENTITY b SUBTYPE OF (r); SELF\\r.k : REAL; END_ENTITY; ENTITY c SUBTYPE OF (a, b); END_ENTITY; END_SCHEMA;",
        ),
        Answer("SCHEMA S\nR(K)\nA(K)\nB(K)\nC(K)\n"),
    ),
];

#[test]
fn prints_schemas(rt: HostRuntime) {
    assert_eq!(rt; first_wrong(rt.alloc(), ROWS), "none");
}

/// So many entities that their lines have more bytes than a piece.
const MANY: u32 = 10_000;

fn push_entities(text: &mut String) -> Result<(), AllocError> {
    text.push_str("SCHEMA many;")?;
    push_numbered(text, 0..MANY, "ENTITY e", "; END_ENTITY;")?;
    text.push_str("END_SCHEMA;")
}

fn push_printed(text: &mut String) -> Result<(), AllocError> {
    text.push_str("SCHEMA MANY\n")?;
    push_numbered(text, 0..MANY, "E", "()\n")
}

fn prints_entities(alloc: Global) -> bool {
    let mut text = String::new(alloc);
    let mut wanted = String::new(alloc);
    if push_entities(&mut text).is_err() || push_printed(&mut wanted).is_err() {
        return false;
    }
    leaves_of(alloc, Schema, "", &text, AMPLE_ROOMS, Answer(&wanted))
}

#[test]
fn prints_many_entities(rt: HostRuntime) {
    assert!(rt; prints_entities(rt.alloc()));
}
