//! Writers that take little, and fail.
use crate::run::Command::{Canon, Check, Same, Show};
use crate::run::Left::{Answer, Failure, Refusal};
use crate::run::Row::LeavesIn;
use crate::run::{AMPLE, Rows, Space, first_wrong};
use crate::schemas::EMPTY;
use crate::schemas::File::{self, Lines, Text};

const NO_INSTANCES: File = Text(EMPTY);

const ONE: File = Lines("#2 = POINT($, 1.0, 10.E-1);\n");

const NOTHING: File = Text("");

/// The file without instances up to its last line feed.
const UNENDED: &str = "ISO-10303-21;
HEADER;
FILE_DESCRIPTION((''),'2;1');
FILE_NAME('','',(''),(''),'','','');
FILE_SCHEMA(('DEMO'));
ENDSEC;
DATA;
ENDSEC;
END-ISO-10303-21;";

/// One byte a call.
const ONE_BYTE: Space = (1, 1000);

const ROWS: Rows = &[
    // canonical files that are cut off
    LeavesIn(
        "canon 0",
        Canon,
        NO_INSTANCES,
        ((1000, 0), AMPLE),
        Failure("", "write fault\n"),
    ),
    LeavesIn(
        "canon 10",
        Canon,
        NO_INSTANCES,
        ((1000, 10), AMPLE),
        Failure("ISO-10303-", "write fault\n"),
    ),
    LeavesIn(
        "canon 151",
        Canon,
        NO_INSTANCES,
        ((1000, 151), AMPLE),
        Failure(UNENDED, "write fault\n"),
    ),
    // answers that are cut off
    LeavesIn(
        "check 8",
        Check,
        ONE,
        ((1, 8), AMPLE),
        Failure("accepted", "write fault\n"),
    ),
    LeavesIn(
        "show 8",
        Show(2),
        ONE,
        ((1, 8), AMPLE),
        Failure("#2=POINT", "write fault\n"),
    ),
    LeavesIn(
        "same 3",
        Same(NO_INSTANCES),
        NO_INSTANCES,
        ((1, 3), AMPLE),
        Failure("sam", "write fault\n"),
    ),
    LeavesIn(
        "different 3",
        Same(NO_INSTANCES),
        ONE,
        ((1, 3), AMPLE),
        Failure("dif", "write fault\n"),
    ),
    // one byte at a time
    LeavesIn(
        "canon",
        Canon,
        NO_INSTANCES,
        (ONE_BYTE, AMPLE),
        Answer(EMPTY),
    ),
    LeavesIn(
        "check",
        Check,
        NO_INSTANCES,
        (ONE_BYTE, AMPLE),
        Answer("accepted, instances 0, canonical bytes 152\n"),
    ),
    LeavesIn(
        "show",
        Show(2),
        NO_INSTANCES,
        (ONE_BYTE, ONE_BYTE),
        Refusal("no #2\n"),
    ),
    LeavesIn(
        "same",
        Same(NO_INSTANCES),
        NO_INSTANCES,
        (ONE_BYTE, AMPLE),
        Answer("same\n"),
    ),
    // no room for a fault line
    LeavesIn(
        "check refused",
        Check,
        NOTHING,
        (AMPLE, (1000, 7)),
        Failure("", "refused"),
    ),
    LeavesIn(
        "canon refused",
        Canon,
        NOTHING,
        (AMPLE, (1000, 7)),
        Failure("", "refused"),
    ),
    LeavesIn(
        "show refused",
        Show(2),
        NOTHING,
        (AMPLE, (1000, 7)),
        Failure("", "refused"),
    ),
    LeavesIn(
        "same refused",
        Same(NO_INSTANCES),
        NOTHING,
        (AMPLE, (1000, 7)),
        Failure("", "first: "),
    ),
    LeavesIn(
        "no instance",
        Show(2),
        NO_INSTANCES,
        (AMPLE, (1, 4)),
        Failure("", "no #"),
    ),
];

#[test]
fn writes_into_small_rooms(rt: HostRuntime) {
    assert_eq!(rt; first_wrong(rt.alloc(), ROWS), "none");
}
