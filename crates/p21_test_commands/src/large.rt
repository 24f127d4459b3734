//! Many instances, and a schema without end.
use crate::devices::EndlessReader;
use crate::run::Command::{Check, Same};
use crate::run::Left::{Answer, Different, Refusal};
use crate::run::Row::Leaves;
use crate::run::{AMPLE_ROOMS, Rows, canon, first_wrong};
use crate::schemas::EMPTY;
use crate::schemas::File::{self, Points};
use std::alloc::Global;

/// Files of some pieces of 64 KiB.
const POINTS: File = Points("10 000 points", "", 10_000, "");

const LATE: File = Points("a point before", "#0=POINT($,1.,1.);\n", 10_000, "");

const EARLY: File = Points("a point behind", "", 10_000, "#00=POINT($,1.0,1.0);\n");

const ROWS: Rows = &[
    Leaves(
        Check,
        POINTS,
        Answer("accepted, instances 10000, canonical bytes 219046\n"),
    ),
    Leaves(Same(EARLY), LATE, Answer("same\n")),
    Leaves(Same(POINTS), LATE, Different),
];

#[test]
fn counts_and_compares_10_000_instances(rt: HostRuntime) {
    assert_eq!(rt; first_wrong(rt.alloc(), ROWS), "none");
}

/// How much of an endless schema is read: none where it isn't refused so.
fn read_of_endless_schema(alloc: Global) -> Option<u64> {
    let mut schema = EndlessReader { given: 0 };
    let run = canon(alloc, &mut schema, EMPTY.as_bytes(), AMPLE_ROOMS);
    run.is(Refusal("schema refused S9 TooLarge\n"))
        .then_some(schema.given)
}

#[test]
fn reads_no_more_of_a_schema_than_one_byte_too_many(rt: HostRuntime) {
    assert_eq!(rt; read_of_endless_schema(rt.alloc()), Some(16_777_217));
}
