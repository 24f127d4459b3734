//! The command `schema` over texts, and over readers and writers that fail.
use crate::run::Command::Schema;
use crate::run::Left::{Answer, Failure};
use crate::run::Row::{LeavesIn, SchemaFails};
use crate::run::{AMPLE, Rows, first_wrong};
use crate::schemas::File::Text;

mod printed;
mod refused;

const DIAMOND: &str = "SCHEMA diamond;
ENTITY r; k : INTEGER; END_ENTITY;
ENTITY a SUBTYPE OF (r); p : INTEGER; END_ENTITY;
ENTITY b SUBTYPE OF (r); q : INTEGER; END_ENTITY;
ENTITY c SUBTYPE OF (a, b); z : INTEGER; END_ENTITY;
END_SCHEMA;
";

const PRINTED_DIAMOND: &str = "SCHEMA DIAMOND\nR(K)\nA(K,P)\nB(K,Q)\nC(K,P,Q,Z)\n";

const ROWS: Rows = &[
    // a reader that fails
    SchemaFails("read fault at once", ""),
    SchemaFails("read fault inside", "SCHEMA"),
    SchemaFails("read fault behind", "SCHEMA s; END_SCHEMA;"),
    SchemaFails("read fault behind no schema", "END_SCHEMA"),
    // writers that take little
    LeavesIn(
        "room for 17 bytes",
        Schema,
        Text(DIAMOND),
        ((1, 17), AMPLE),
        Failure("SCHEMA DIAMOND\nR(", "write fault\n"),
    ),
    LeavesIn(
        "no room for a fault line",
        Schema,
        Text("SCHEMA s;"),
        (AMPLE, (1, 15)),
        Failure("", "schema refused "),
    ),
    LeavesIn(
        "just enough room",
        Schema,
        Text(DIAMOND),
        ((1, 45), AMPLE),
        Answer(PRINTED_DIAMOND),
    ),
];

#[test]
fn fails_with_its_reader_and_writers(rt: HostRuntime) {
    assert_eq!(rt; first_wrong(rt.alloc(), ROWS), "none");
}
