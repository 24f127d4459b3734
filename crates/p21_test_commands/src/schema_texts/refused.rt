//! Texts that declare no schema, each with its line.
use crate::run::Command::Schema;
use crate::run::Left::{self, Answer, Refusal};
use crate::run::Row::Leaves;
use crate::run::{AMPLE_ROOMS, Rows, first_wrong, schema};
use crate::schemas::File::Text;
use std::alloc::Global;
use std::io::{self, Read};

const ROWS: Rows = &[
    Leaves(
        Schema,
        Text("SCHEMA s; (* open END_SCHEMA;"),
        Refusal("schema refused S1 Token\n"),
    ),
    Leaves(
        Schema,
        Text("SCHEMA s; END_SCHEMA"),
        Refusal("schema refused S2 Syntax\n"),
    ),
    Leaves(Schema, Text(""), Refusal("schema refused S2 Syntax\n")),
    Leaves(
        Schema,
        Text("SCHEMA s; END_SCHEMA; SCHEMA t; END_SCHEMA;"),
        Refusal("schema refused S2 Syntax\n"),
    ),
    Leaves(
        Schema,
        Text("SCHEMA s; USE FROM t; END_SCHEMA;"),
        Refusal("schema refused S6 LeftOut\n"),
    ),
    Leaves(
        Schema,
        Text("SCHEMA s; ENTITY a; x : LIST [3:1] OF REAL; END_ENTITY; END_SCHEMA;"),
        Refusal("schema refused S7 Bounds\n"),
    ),
    // schemas that can be read
    Leaves(
        Schema,
        Text("SCHEMA s; ENTITY a; END_ENTITY; ENTITY a; END_ENTITY; END_SCHEMA;"),
        Refusal("schema refused S3 Duplicate\n"),
    ),
    Leaves(
        Schema,
        Text("SCHEMA s; ENTITY a; x : foo; END_ENTITY; END_SCHEMA;"),
        Refusal("schema refused S4 UnknownName\n"),
    ),
    Leaves(
        Schema,
        Text(
            "SCHEMA s; ENTITY a SUBTYPE OF (b); END_ENTITY; ENTITY b SUBTYPE OF (a); END_ENTITY; END_SCHEMA;",
        ),
        Refusal("schema refused S5 Circular\n"),
    ),
    Leaves(
        Schema,
        Text(
            "SCHEMA s; TYPE t = REAL; END_TYPE; TYPE s = SELECT (t); END_TYPE; TYPE u = s; END_TYPE; END_SCHEMA;",
        ),
        Refusal("schema refused S6 LeftOut\n"),
    ),
    Leaves(
        Schema,
        Text(
            "SCHEMA s; ENTITY a; y : REAL; END_ENTITY; ENTITY b SUBTYPE OF (a); DERIVE SELF\\a.z : REAL := 0.0; END_ENTITY; END_SCHEMA;",
        ),
        Refusal("schema refused S8 RedeclaredPlace\n"),
    ),
];

#[test]
fn refuses_texts(rt: HostRuntime) {
    assert_eq!(rt; first_wrong(rt.alloc(), ROWS), "none");
}

const TOO_LARGE: Left<'static> = Refusal("schema refused S9 TooLarge\n");

/// Whether a schema with so many spaces behind it leaves this.
fn leaves_padded(alloc: Global, spaces: u64, left: Left) -> bool {
    let text = b"SCHEMA s; END_SCHEMA;".as_slice();
    let mut padded = text.chain(io::repeat(b' ').take(spaces));
    schema(alloc, &mut padded, AMPLE_ROOMS).is(left)
}

fn refuses_endless(alloc: Global) -> bool {
    schema(alloc, &mut io::repeat(b'('), AMPLE_ROOMS).is(TOO_LARGE)
}

/// What is wrong with texts that are as long as may be, and longer.
fn wrong_of_long(alloc: Global) -> &'static str {
    if !leaves_padded(alloc, 16_777_195, Answer("SCHEMA S\n")) {
        return "as long as may be";
    }
    if !leaves_padded(alloc, 16_777_196, TOO_LARGE) {
        return "one byte more";
    }
    if !refuses_endless(alloc) {
        return "endless";
    }
    "none"
}

/// One byte more is refused, whatever stands in front of it.
#[test]
fn refuses_texts_that_are_too_long(rt: HostRuntime) {
    assert_eq!(rt; wrong_of_long(rt.alloc()), "none");
}
