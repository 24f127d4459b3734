//! The first signpost in bytes, however they are cut into pieces.
ghost use Rattle.std.specs.Prelude.{◌<◌};

use p21_stream_resume::{
    Numeral, Seeker, Signpost, is_opened_behind, signpost_in_remark, signpost_in_string,
};
use std::alloc::Global;

/// The first signpost in bytes that come in pieces of this size, and how many stand in front of its last byte. None where the bytes that are
/// held of it aren't those that end there, or memory is refused.
fn first_signpost(
    alloc: Global,
    opened: bool,
    bytes: &[u8],
    size: usize,
) -> Option<(usize, Signpost)>
    requires { 0 < size }
{
    let mut seeker = Seeker::new(alloc, opened);
    let mut taken: usize = 0;
    for piece in bytes.chunks(size) {
        let Ok(found) = seeker.seek(piece) else {
            return None;
        };
        if let Some((place, signpost)) = found {
            let last = taken.saturating_add(place);
            if !stands_there(bytes, last, seeker.signpost_bytes()) {
                return None;
            }
            return Some((last, signpost));
        }
        taken = taken.saturating_add(piece.len());
    }
    None
}

/// Whether the bytes of a signpost stand in others, the last of them behind so many.
fn stands_there(bytes: &[u8], last: usize, signpost: &[u8]) -> bool {
    let Some(front) = bytes.get(..last.saturating_add(1)) else {
        return false;
    };
    match signpost.first() {
        Some(first) => b"#EI".contains(first) && front.ends_with(signpost),
        None => false,
    }
}

/// A text with a signpost, how many bytes stand in front of its last one, and the signpost.
type Rows = &'static [(&'static str, usize, Signpost)];

/// The first row of which something else is found, in pieces of some size.
fn first_wrong(alloc: Global, opened: bool, rows: Rows) -> Option<usize> {
    for (row, (text, place, signpost)) in rows.iter().enumerate() {
        for size in 1..=text.len() {
            if first_signpost(alloc, opened, text.as_bytes(), size) != Some((*place, *signpost)) {
                return Some(row);
            }
        }
    }
    None
}

/// The first text in which a signpost is found, in pieces of some size.
fn first_found(alloc: Global, opened: bool, texts: &'static [&'static str]) -> Option<usize> {
    for (row, text) in texts.iter().enumerate() {
        for size in 1..=text.len() {
            if first_signpost(alloc, opened, text.as_bytes(), size).is_some() {
                return Some(row);
            }
        }
    }
    None
}

const SIGNPOSTS: Rows = &[
    (
        "nan);\n#61 = CARTESIAN_POINT",
        10,
        Signpost::Instance(
            Numeral {
                count: 2,
                value: 61,
                fits: true,
            },
            1,
        ),
    ),
    (
        "'see\n#12 = x' 'y','BasePlate','',(#50));\n#50 = P",
        9,
        Signpost::Instance(
            Numeral {
                count: 2,
                value: 12,
                fits: true,
            },
            1,
        ),
    ),
    (
        "(#1;#58,#93,#121,#149));\n#58 = O",
        29,
        Signpost::Instance(
            Numeral {
                count: 2,
                value: 58,
                fits: true,
            },
            1,
        ),
    ),
    (
        "&SCOPE\n#9000=DIRECTION('',(1.,0.,0.));\nENDSCOPE\n",
        12,
        Signpost::Instance(
            Numeral {
                count: 4,
                value: 9000,
                fits: true,
            },
            0,
        ),
    ),
    (
        "nan\n/* sixty */ #60 = V('',#61);\n#61 = C",
        37,
        Signpost::Instance(
            Numeral {
                count: 2,
                value: 61,
                fits: true,
            },
            1,
        ),
    ),
    (
        "60 = V('',#61);\n#61 = C",
        20,
        Signpost::Instance(
            Numeral {
                count: 2,
                value: 61,
                fits: true,
            },
            1,
        ),
    ),
    ("$)\nENDSEC;\nEND-ISO-10303-21;", 9, Signpost::SectionEnd(0)),
    (
        "#700 = CARTESIAN_POI\nISO-10303-21;\nHEADER;",
        32,
        Signpost::FileBegin,
    ),
    ("$)\nEND-ISO-10303-21;", 18, Signpost::FileEnd),
    (
        ")#1=A",
        3,
        Signpost::Instance(
            Numeral {
                count: 1,
                value: 1,
                fits: true,
            },
            0,
        ),
    ),
    (
        "1,#2=,3\r#4=A",
        10,
        Signpost::Instance(
            Numeral {
                count: 1,
                value: 4,
                fits: true,
            },
            0,
        ),
    ),
    (
        ";ENDSEC\n#5=A",
        10,
        Signpost::Instance(
            Numeral {
                count: 1,
                value: 5,
                fits: true,
            },
            0,
        ),
    ),
    (
        ";#1\n#2=A",
        6,
        Signpost::Instance(
            Numeral {
                count: 1,
                value: 2,
                fits: true,
            },
            0,
        ),
    ),
    (
        ";#1;#2\t\n =A",
        9,
        Signpost::Instance(
            Numeral {
                count: 1,
                value: 2,
                fits: true,
            },
            3,
        ),
    ),
    (
        ";#00012=A",
        7,
        Signpost::Instance(
            Numeral {
                count: 5,
                value: 12,
                fits: true,
            },
            0,
        ),
    ),
    (
        ";#18446744073709551615=A",
        22,
        Signpost::Instance(
            Numeral {
                count: 20,
                value: 18446744073709551615,
                fits: true,
            },
            0,
        ),
    ),
    (
        ";#18446744073709551616=A",
        22,
        Signpost::Instance(
            Numeral {
                count: 19,
                value: 1844674407370955161,
                fits: false,
            },
            0,
        ),
    ),
    (
        ";#0018446744073709551619 =A",
        25,
        Signpost::Instance(
            Numeral {
                count: 21,
                value: 1844674407370955161,
                fits: false,
            },
            1,
        ),
    ),
    (
        ";ENDSCOPE\n#3=A",
        12,
        Signpost::Instance(
            Numeral {
                count: 1,
                value: 3,
                fits: true,
            },
            0,
        ),
    ),
    (
        ";ENDISO-10303-21;#1=A",
        19,
        Signpost::Instance(
            Numeral {
                count: 1,
                value: 1,
                fits: true,
            },
            0,
        ),
    ),
    (";ENDSEC \n;", 9, Signpost::SectionEnd(2)),
    (";END-ISO-10303-20;ENDSEC;", 24, Signpost::SectionEnd(0)),
    (
        ";#1,\n\u{7f}#1=A",
        8,
        Signpost::Instance(
            Numeral {
                count: 1,
                value: 1,
                fits: true,
            },
            0,
        ),
    ),
];

const AT_THE_FRONT: Rows = &[
    (
        "#1=A",
        2,
        Signpost::Instance(
            Numeral {
                count: 1,
                value: 1,
                fits: true,
            },
            0,
        ),
    ),
    (
        " \u{7f}#7 =A",
        5,
        Signpost::Instance(
            Numeral {
                count: 1,
                value: 7,
                fits: true,
            },
            1,
        ),
    ),
    ("ENDSEC;", 6, Signpost::SectionEnd(0)),
    ("ISO-10303-21", 11, Signpost::FileBegin),
    (
        "x#1=A;#2=A",
        8,
        Signpost::Instance(
            Numeral {
                count: 1,
                value: 2,
                fits: true,
            },
            0,
        ),
    ),
];

const NONE: &[&str] = &[
    "#1=A",
    "; #\n#1 ;END",
    ";##1=A",
    ";# 1=A",
    ";#1A=",
    ";ISO-10303-22;",
    ";ENDSEC,",
    "'#1=A'",
    ";/**/#1=A",
    ";#1/**/=A",
];

const NONE_AT_THE_FRONT: &[&str] = &["", " ,#1=A", "ENDSE", "END-ISO-10303-2"];

#[test]
fn finds_signposts(rt: HostRuntime) {
    assert_eq!(rt; first_wrong(rt.alloc(), false, SIGNPOSTS), None);
    assert_eq!(rt; first_wrong(rt.alloc(), true, AT_THE_FRONT), None);
    assert_eq!(rt; first_found(rt.alloc(), false, NONE), None);
    assert_eq!(rt; first_found(rt.alloc(), true, NONE_AT_THE_FRONT), None);
}

/// Texts, whether a signpost may begin in front of them, and whether one may behind them.
const BEHIND: &[(bool, &str, bool)] = &[
    (true, "", true),
    (false, "", false),
    (true, " \t", true),
    (false, " \t", false),
    (false, "1; \u{7f}", true),
    (false, "1\r ", true),
    (false, "A()", true),
    (true, ";1", false),
    (true, ";/**/", false),
    (true, "=", false),
];

#[test]
fn tells_where_one_may_begin(rt: HostRuntime) {
    let mut wrong = None;
    for (row, (before, text, behind)) in BEHIND.iter().enumerate() {
        if is_opened_behind(*before, text.as_bytes()) != *behind {
            wrong = Some(row);
        }
    }
    assert_eq!(rt; wrong, None);
}

/// Digits, and each of them by how many they are and by their number.
#[test]
fn tells_digits(rt: HostRuntime) {
    let name = Numeral {
        count: 22,
        value: 18_446_744_073_709_551_615,
        fits: true,
    };
    let mut wrong = None;
    for (place, digit) in b"0018446744073709551615".iter().enumerate() {
        if name.digit(place as u64) != *digit {
            wrong = Some(place);
        }
    }
    assert_eq!(rt; wrong, None);
}

/// Statements, and how many bytes of each stand in front of the first signpost in a string of it.
const IN_STRINGS: &[(&str, Option<usize>)] = &[
    ("#1=A('x);\n#2=B('y');", Some(10)),
    ("#1=A('x');\n", None),
    ("#1=A('a',/*;#2=B*/'b;#3=C", Some(21)),
    ("#1=A('\\S\\'x;\n#79=NO();',nan", Some(13)),
    ("#1=A('\\S\\'',/*\n#79=NO()*/nan", None),
    ("#1=A('it''s;#4=x'", Some(12)),
    ("#1=A('ENDSEC;')", None),
    ("#1=A('\nENDSEC ;", Some(7)),
    ("#1=A(')ISO-10303-21", Some(7)),
    ("#1=A('x;\n#2", None),
    ("ISO-10303-21;'x;#2=", Some(16)),
    ("END-ISO-10303-21 '\n#7  =", Some(19)),
    ("#1=A(\"0FF\",.T.,-1.5E+3,#2,!B('\n #3=", Some(32)),
    ("#1=A(');# 1=', ';#1 \n=", Some(17)),
    ("#1=A(';#1\n#2=)')", Some(10)),
];

#[test]
fn finds_signposts_in_strings(rt: HostRuntime) {
    let mut wrong = None;
    for (row, (statement, place)) in IN_STRINGS.iter().enumerate() {
        let found = match signpost_in_string(statement.as_bytes()) {
            Some((found, _)) => Some(found),
            None => None,
        };
        if found != *place {
            wrong = Some(row);
        }
    }
    assert_eq!(rt; wrong, None);
}

/// Statements, and how many bytes of each stand in front of the first signpost in the remark in which it ends.
const IN_REMARKS: &[(&str, Option<usize>)] = &[
    ("#1=A(/*\n#2=B();\n#3=C();", Some(8)),
    ("#1=A(/*\n#2=B();*/\n", None),
    ("#1=A(/*\n#2=B();*/ /* x; #3=C();", Some(24)),
    ("#1=A('/*;#2=B();", None),
    ("#1=A(/* #2=B()", None),
    ("/*;#2", None),
    ("/**;ENDSEC ;*", Some(4)),
    ("#1=A(/*)ISO-10303-21", Some(8)),
    ("/*", None),
];

#[test]
fn finds_signposts_in_remarks(rt: HostRuntime) {
    let mut wrong = None;
    for (row, (statement, place)) in IN_REMARKS.iter().enumerate() {
        let found = match signpost_in_remark(statement.as_bytes()) {
            Some((found, _)) => Some(found),
            None => None,
        };
        if found != *place {
            wrong = Some(row);
        }
    }
    assert_eq!(rt; wrong, None);
}
