//! Where a file may end, and tokens that no file has.
use super::answers::{Answers, Bytes};
use super::files::{ENDED, OPEN, SHAPES, WHOLE};
use super::{Rows, check};

const BEHIND: Answers = &[
    ("", ""),
    ("/* end */", ""),
    ("\x1a", ""),
    ("/*", "refused 3 OpenComment at statement 10"),
    ("X", "refused 25 AfterEnd at statement 10"),
    ("X-", "refused 1 BadByte at statement 10"),
    (";", "refused 25 AfterEnd at statement 10"),
    (
        "SIGNATURE;",
        "refused 26 LeftOut(Signature) at statement 10",
    ),
    ("1.E99999", "refused 8 NumberRange at statement 10"),
];

#[test]
fn takes_gaps_alone_behind_the_end(rt: HostRuntime) {
    check(&rt, rt.alloc(), SHAPES, Rows::Answers(ENDED, BEHIND));
}

const INSTANCES: Answers = &[
    // the end
    ("ENDSEC;\nEND-ISO-10303-21;", "ENDSEC;\nEND-ISO-10303-21;\n"),
    ("", "refused 24 EndsEarly at statement 8"),
    ("ENDSEC;\n", "refused 24 EndsEarly at statement 9"),
    (
        "ENDSEC;\nEND-ISO-10303-21",
        "refused 24 EndsEarly at statement 9",
    ),
    ("#1=POINT('a", "refused 2 OpenString at statement 8"),
    ("#1=POINT('a'", "refused 24 EndsEarly at statement 8"),
    ("#1=POINT/", "refused 24 EndsEarly at statement 8"),
    ("#1=POINT/*", "refused 3 OpenComment at statement 8"),
    (
        "#1=POINT($,1.E99999",
        "refused 8 NumberRange at statement 8",
    ),
    // what is left out
    ("#1=&SCOPE", "refused 26 LeftOut(Scope) at statement 8"),
    ("#1=@", "refused 26 LeftOut(ValueName) at statement 8"),
    ("#A", "refused 26 LeftOut(ConstantName) at statement 8"),
    ("#1=!A();", "refused 26 LeftOut(UserKeyword) at statement 8"),
    (
        "\\N\\#1=POINT($,1.,1.);",
        "refused 1 BadByte at statement 8",
    ),
    ("#1=point();", "refused 1 BadByte at statement 8"),
    ("#1=POINT(;", "refused 20 Unexpected at statement 8"),
    ("X=", "refused 20 Unexpected at statement 8"),
    // scalars
    ("#1=POINT('\\N\\", "refused 4 BadDirective at statement 8"),
    (
        "#1=POINT('\\X2\\DC00",
        "refused 5 BadCodePoint at statement 8",
    ),
    ("#1=POINT($,+.", "refused 7 BadNumber at statement 8"),
    (
        "#1=POINT($,1.E9999999999,",
        "refused 8 NumberRange at statement 8",
    ),
    ("#1=POINT(\"33B\"", "refused 9 BadBinary at statement 8"),
    ("#1=POINT(#)", "refused 11 BadName at statement 8"),
    (
        "#18446744073709551616=POINT($,1.,1.);",
        "refused 10 NameRange at statement 8",
    ),
];

#[test]
fn refuses_where_no_file_goes_on(rt: HostRuntime) {
    check(&rt, rt.alloc(), SHAPES, Rows::Answers(OPEN, INSTANCES));
}

/// Bytes that are part of no character: `é` as ISO 8859-1 has it, the rest of a character without its beginning, and a
/// beginning without its rest.
const BYTES: Bytes = &[
    (
        b"#1=POINT('caf\xE9',1.,1.);",
        "refused 6 NotUtf8 at statement 8",
    ),
    (
        b"#1=POINT('\xC3\xA9',1.,1.);#2=POINT('\xA9",
        "refused 6 NotUtf8 at statement 9",
    ),
    (b"#1=POINT('\xC3',", "refused 6 NotUtf8 at statement 8"),
    (b"#1=POINT(\xE9", "refused 1 BadByte at statement 8"),
];

#[test]
fn refuses_bytes_of_no_character(rt: HostRuntime) {
    check(&rt, rt.alloc(), SHAPES, Rows::Bytes(OPEN, BYTES));
}

const FRONTS: Answers = &[
    ("", "refused 24 EndsEarly at statement 1"),
    (" /* no file */\n", "refused 24 EndsEarly at statement 1"),
    ("\u{feff}", "refused 1 BadByte at statement 1"),
    ("ISO-10303-21", "refused 24 EndsEarly at statement 1"),
    ("ISO-10303-21 ;", "refused 24 EndsEarly at statement 2"),
    ("HEADER;", "refused 20 Unexpected at statement 1"),
];

#[test]
fn refuses_nothing_at_all(rt: HostRuntime) {
    check(&rt, rt.alloc(), SHAPES, Rows::Answers(WHOLE, FRONTS));
}
