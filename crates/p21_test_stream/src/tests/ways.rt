//! Statements that a session takes straight from their bytes, between others, and where that way ends: at other spellings, at
//! the end of a piece, and at limits.
use super::answers::{Answers, Cut, Wanted, comes_alike, comes_in_pieces};
use super::cuts::Files;
use super::files::{DEMO, Frame, framed};
use super::kinds::{KINDS, KINDS_SCHEMA};
use super::limits::Limited;
use super::{Rows, Wrong, check};
use p21_stream::{Limits, Schema};
use std::alloc::{AllocError, Global};

/// The sections behind a header.
const HEADED: Frame = Frame {
    before: "ISO-10303-21;\nHEADER;\nFILE_DESCRIPTION((''),'2;1');\nFILE_NAME('','',(''),(''),'','','');\nFILE_SCHEMA(('KINDS'));\nENDSEC;\n",
    behind: "END-ISO-10303-21;\n",
};

const NAMES: Answers = &[
    (
        "#999999999999999999=NODE($,#1000000000000000000);#1000000000000000000=NODE($,#99999999999999999);#99999999999999999=NODE($,$);",
        "#99999999999999999=NODE($,$);\n#999999999999999999=NODE($,#1000000000000000000);\n#1000000000000000000=NODE($,#99999999999999999);\n",
    ),
    (
        "#18446744073709551615=NODE($,#18446744073709551614);#18446744073709551614=NODE($,#0);#0=NODE($,#00);",
        "#0=NODE($,#0);\n#18446744073709551614=NODE($,#0);\n#18446744073709551615=NODE($,#18446744073709551614);\n",
    ),
    (
        "#01=NODE($,#2);#2=NODE($,#001);#000000000000000000003=NODE($,#1);",
        "#1=NODE($,#2);\n#2=NODE($,#1);\n#3=NODE($,#1);\n",
    ),
    (
        "#1=NODE($,#18446744073709551616);",
        "refused 10 NameRange at statement 8",
    ),
    (
        "#18446744073709551616=NODE($,$);",
        "refused 10 NameRange at statement 8",
    ),
    ("#1=NODE($,#);", "refused 11 BadName at statement 8"),
    ("#1=NODE($,# 1);", "refused 11 BadName at statement 8"),
    ("#=NODE($,$);", "refused 11 BadName at statement 8"),
    ("#1a=NODE($,$);", "refused 1 BadByte at statement 8"),
    (
        "#1=NODE($,$);#01=NODE($,$);",
        "refused 40 DuplicateName in #1",
    ),
    (
        "#01=NODE($,$);#1=NODE($,$);",
        "refused 40 DuplicateName in #1",
    ),
    (
        "#1=NODE($,$);#2=NODE($,$);#1=FOO();",
        "refused 40 DuplicateName in #1",
    ),
];

#[test]
fn takes_names(rt: HostRuntime) {
    check(&rt, rt.alloc(), KINDS_SCHEMA, Rows::Answers(KINDS, NAMES));
}

const REFERENCES: Answers = &[
    ("#1=NODE($,#1);", "#1=NODE($,#1);\n"),
    (
        "#1=NODE($,#2);#2=NODE($,#3);#3=LAST_NODE('a',*);",
        "#1=NODE($,#2);\n#2=NODE($,#3);\n#3=LAST_NODE('a',*);\n",
    ),
    (
        "#3=LAST_NODE($,*);#2=NODE($,#3);#1=NODE($,#2);",
        "#1=NODE($,#2);\n#2=NODE($,#3);\n#3=LAST_NODE($,*);\n",
    ),
    (
        "#1=OF_NODES((#3,#10,#2),(#3,#3,#10));#10=NODE($,$);#3=NODE($,#10);#2=LAST_NODE($,*);",
        "#1=OF_NODES((#10,#2,#3),(#3,#3,#10));\n#2=LAST_NODE($,*);\n#3=NODE($,#10);\n#10=NODE($,$);\n",
    ),
    (
        "#2=NODE($,$);#1=OF_NODES((#2),(#2,#3));#3=(BASE($)LEAF(.RED.)NODE($));",
        "#1=OF_NODES((#2),(#2,#3));\n#2=NODE($,$);\n#3=(BASE($)LEAF(.RED.)NODE($));\n",
    ),
    (
        "#1=NODE($,#3);#2=(BASE($)LEAF(.RED.)NODE(#1));#3=NODE($,#2);",
        "#1=NODE($,#3);\n#2=(BASE($)LEAF(.RED.)NODE(#1));\n#3=NODE($,#2);\n",
    ),
    ("#1=NODE($,#2);", "refused 56 Dangling in #1"),
    (
        "#1=NODE($,#2);#2=LEAF($,.RED.);",
        "refused 57 WrongTarget in #1",
    ),
    (
        "#2=LEAF($,.RED.);#1=NODE($,#2);",
        "refused 57 WrongTarget in #1",
    ),
    ("#1=OF_NODES((#2,#02),());", "refused 52 NotDistinct in #1"),
    ("#1=OF_NODES((#2,#2),());", "refused 52 NotDistinct in #1"),
    ("#5=NODE($,#9);#1=NODE($,#8);", "refused 56 Dangling in #5"),
    (
        "#5=NODE( $,#9);#1=NODE($,#2);#2=LEAF($,.RED.);",
        "refused 56 Dangling in #5",
    ),
    (
        "#5=NODE($,#2);#1=NODE($ ,#9);#2=LEAF($,.RED.);",
        "refused 57 WrongTarget in #5",
    ),
    (
        "#1=OF_NODES((),(#3,#2));#2=LEAF($,.RED.);#3=OF_SET(());",
        "refused 57 WrongTarget in #1",
    ),
    (
        "#1=OF_ITEM(#2);#2=OF_SET(());",
        "refused 57 WrongTarget in #1",
    ),
    (
        "#1=NODE($,#2);#2=NODE($,#3);#3=FOO();",
        "refused 41 UnknownEntity in #3",
    ),
];

#[test]
fn serves_references(rt: HostRuntime) {
    check(
        &rt,
        rt.alloc(),
        KINDS_SCHEMA,
        Rows::Answers(KINDS, REFERENCES),
    );
}

const BETWEEN: Answers = &[
    (
        "#1=NODE($,$);#2=(BASE($)LEAF(.RED.)NODE(#1));#3=NODE($,#2);",
        "#1=NODE($,$);\n#2=(BASE($)LEAF(.RED.)NODE(#1));\n#3=NODE($,#2);\n",
    ),
    (
        "#2=(BASE($)LEAF(.RED.)NODE(#1));#1=NODE('a',#2);#3=(BASE($)LEAF(.RED.)NODE(#1));#4=NODE($,#3);",
        "#1=NODE('a',#2);\n#2=(BASE($)LEAF(.RED.)NODE(#1));\n#3=(BASE($)LEAF(.RED.)NODE(#1));\n#4=NODE($,#3);\n",
    ),
    (
        "#1=NODE($,$);#2=( LEAF(.GREEN.) NODE(#3) BASE('a') ) ;#3 = NODE($,#2);#4=NODE($,#3);",
        "#1=NODE($,$);\n#2=(BASE('a')LEAF(.GREEN.)NODE(#3));\n#3=NODE($,#2);\n#4=NODE($,#3);\n",
    ),
    (
        "#1=NODE($,$);#2=OF_REAL(01.);#3=OF_REAL(1.);#4=OF_STRING('\\X\\41');#5=OF_STRING('A');",
        "#1=NODE($,$);\n#2=OF_REAL(1.);\n#3=OF_REAL(1.);\n#4=OF_STRING('A');\n#5=OF_STRING('A');\n",
    ),
    (
        "#1=(NODE($)BASE('a'));#2=NODE('a',#1);#3=(LAST_NODE()NODE(*)BASE($));#4=LAST_NODE($,*);",
        "#1=NODE('a',$);\n#2=NODE('a',#1);\n#3=LAST_NODE($,*);\n#4=LAST_NODE($,*);\n",
    ),
    (
        "#1=NODE($,$);#2=(BASE($)LEAF(.RED.)NODE($))#3=NODE($,$);",
        "refused 20 Unexpected at statement 9",
    ),
    (
        "#1=NODE($,$);#2=(BASE($)LEAF(.RED.));#3=NODE($,$);#4=(BASE($)NODE($)NODE($));",
        "refused 44 PartTwice in #4",
    ),
    (
        "#1=NODE($,$);#2=NODE($,$)#3=NODE($,$);",
        "refused 20 Unexpected at statement 9",
    ),
    ("#1=NODE($,$);;", "refused 20 Unexpected at statement 9"),
    (
        "#1=NODE($,$);NODE($,$);",
        "refused 20 Unexpected at statement 9",
    ),
    (
        "#1=NODE($,$);#2=NODE;",
        "refused 20 Unexpected at statement 9",
    ),
    (
        "#1=NODE($,$);#2=();",
        "refused 20 Unexpected at statement 9",
    ),
    ("#1=NODE($,$);#2=BASE($);", "refused 42 Abstract in #2"),
    (
        "#1=NODE($,$);#2=LAST_NODE($,#1);#3=NODE($,$);",
        "refused 48 DerivedNotStar in #2",
    ),
    (
        "#1=NODE($,$);#2=NODE(*,$);",
        "refused 47 StarNotDerived in #2",
    ),
    ("#1=NODE($,$);#2=NODE($,$,$);", "refused 45 Count in #2"),
    ("#1=NODE($,$);#2=NODE($);", "refused 45 Count in #2"),
    (
        "#1=NODE($,$);#2=NODES($,$);",
        "refused 41 UnknownEntity in #2",
    ),
    (
        "#1=NODE($,$);#2=NODE-X($,$);",
        "refused 1 BadByte at statement 9",
    ),
    (
        "#1=NODE($,$);#2=!NODE($,$);",
        "refused 26 LeftOut(UserKeyword) at statement 9",
    ),
    (
        "#1=NODE($,$);#2==NODE($,$);",
        "refused 20 Unexpected at statement 9",
    ),
];

#[test]
fn takes_others_between(rt: HostRuntime) {
    check(&rt, rt.alloc(), KINDS_SCHEMA, Rows::Answers(KINDS, BETWEEN));
}

const GAPS: Answers = &[
    (
        " \n\r\t #1 = NODE ( $ , $ ) ; \x7f #2\n=\nNODE\n(\n'a'\n,\n#1\n)\n;\n",
        "#1=NODE($,$);\n#2=NODE('a',#1);\n",
    ),
    (
        "/* a; ' */#1/**/=/***/NODE/*/*/(/*//*/$/* */,/* ( */#2)/**/;/**//**/#2=NODE($,$)/* ; */;/* # */",
        "#1=NODE($,#2);\n#2=NODE($,$);\n",
    ),
    (
        "#1=NODE($,$);/* #2=NODE($,$); */#3=NODE($,#1);",
        "#1=NODE($,$);\n#3=NODE($,#1);\n",
    ),
    (
        "#1=OF_SET( ( 2. , 1. ) ) ;#2=OF_SET((\n)\n);#3=OF_BAG((( /* 1 */ ) ,(1 ) ));",
        "#1=OF_SET((1.,2.));\n#2=OF_SET(());\n#3=OF_BAG(((),(1.)));\n",
    ),
    ("#1=NODE($,$);/*", "refused 3 OpenComment at statement 9"),
    (
        "#1=NODE($,$);/* *#2=NODE($,$);",
        "refused 3 OpenComment at statement 9",
    ),
    ("#1=NODE($,$);/ *a*/", "refused 1 BadByte at statement 9"),
    ("# 1=NODE($,$);", "refused 11 BadName at statement 8"),
    ("#1=NO DE($,$);", "refused 20 Unexpected at statement 8"),
    ("#1=OF_REAL(1 .);", "refused 1 BadByte at statement 8"),
    (
        "#1=OF_REAL(1./**/5);",
        "refused 20 Unexpected at statement 8",
    ),
    (
        "#1=NODE($,$);\\N\\#2=NODE($,$);",
        "refused 1 BadByte at statement 9",
    ),
    (
        "#1=NODE($,$);\u{a0}#2=NODE($,$);",
        "refused 1 BadByte at statement 9",
    ),
];

#[test]
fn passes_separators(rt: HostRuntime) {
    check(&rt, rt.alloc(), KINDS_SCHEMA, Rows::Answers(KINDS, GAPS));
}

const SECTIONS: Answers = &[
    (
        "DATA('b',('KINDS'));#1=NODE($,#2);#3=NODE($,#1);ENDSEC;DATA('a',('kinds'));#2=NODE($,#3);#4=OF_SET((2.,1.));ENDSEC;",
        "DATA('a',('kinds'));\n#2=NODE($,#3);\n#4=OF_SET((1.,2.));\nENDSEC;\nDATA('b',('KINDS'));\n#1=NODE($,#2);\n#3=NODE($,#1);\nENDSEC;\n",
    ),
    (
        "DATA('b',('KINDS'));#1=NODE($,#2);ENDSEC;DATA('a',('KINDS'));#2=(BASE($)LEAF(.RED.)NODE(#1));#3=NODE($,#2);ENDSEC;",
        "DATA('a',('KINDS'));\n#2=(BASE($)LEAF(.RED.)NODE(#1));\n#3=NODE($,#2);\nENDSEC;\nDATA('b',('KINDS'));\n#1=NODE($,#2);\nENDSEC;\n",
    ),
    (
        "DATA('b',('KINDS'));ENDSEC;DATA('a',('KINDS'));#2=NODE($,$);ENDSEC;",
        "DATA('a',('KINDS'));\n#2=NODE($,$);\nENDSEC;\nDATA('b',('KINDS'));\nENDSEC;\n",
    ),
    (
        "DATA('b',('KINDS'));#2=NODE($,$);ENDSEC;#3=NODE($,$);",
        "refused 20 Unexpected at statement 10",
    ),
    (
        "DATA('b',('KINDS'));#2=NODE($,$);ENDSEC;DATA('a',('KINDS'));#3=NODE($,#2);#2=NODE($,$);ENDSEC;",
        "refused 40 DuplicateName in #2",
    ),
    (
        "DATA('b',('KINDS'));#2=NODE($,#4);ENDSEC;DATA('a',('KINDS'));#3=NODE($,#2);ENDSEC;",
        "refused 56 Dangling in #2",
    ),
];

#[test]
fn takes_sections(rt: HostRuntime) {
    check(
        &rt,
        rt.alloc(),
        KINDS_SCHEMA,
        Rows::Answers(HEADED, SECTIONS),
    );
}

/// Instances of both ways, and their canonical lines.
const MIXED: &str =
    "#1=NODE('it''s \\X2\\00E9\\X0\\',#2);\n#2 = LAST_NODE ( $ , * ) ; /* ; */#3=(BASE($)LEAF(.RED.)NODE(#1));#4=OF_ITEM(NEST((LEN(1.50),#3)));#5=OF_SET((2.,-10.,+01.));#6=OF_WIDTHS('abc','xy',\"31F\",\"0FF\");#7=OF_ITEMS($,.T.,.U.);\r\n";

const MIXED_CANONICAL: &str =
    "#1=NODE('it''s \\X2\\00E9\\X0\\',#2);\n#2=LAST_NODE($,*);\n#3=(BASE($)LEAF(.RED.)NODE(#1));\n#4=OF_ITEM(NEST((LEN(1.5),#3)));\n#5=OF_SET((-1.E1,1.,2.));\n#6=OF_WIDTHS('abc','xy',\"31F\",\"0FF\");\n#7=OF_ITEMS($,.T.,.U.);\n";

const PIECES: Files = &[(KINDS, MIXED, MIXED_CANONICAL)];

/// An instance that is cut by the end of a piece is taken token by token, and those around it aren't.
#[test]
fn takes_instances_cut_anywhere(rt: HostRuntime) {
    check(&rt, rt.alloc(), KINDS_SCHEMA, Rows::Pieces(PIECES));
}

/// By what is limited: from one number to another, instances of which the same has to come byte by byte within each number.
pub(super) type Ranges = &'static [(Limited, (usize, usize), &'static str)];

fn is_alike(alloc: Global, schema: &Schema, limits: Option<Limits>, text: &[u8]) -> bool {
    match limits {
        Some(limits) => comes_alike(alloc, schema, limits, text),
        None => false,
    }
}

/// The first number within which something else comes.
fn first_border(
    alloc: Global,
    schema: &Schema,
    limited: Limited,
    (first, last): (usize, usize),
    text: &[u8],
) -> Option<usize> {
    for most in first..=last {
        if !is_alike(alloc, schema, limited.limits(most), text) {
            return Some(most);
        }
    }
    None
}

fn first_border_of(
    alloc: Global,
    schema: &Schema,
    limited: Limited,
    range: (usize, usize),
    (frame, text): (Frame, &str),
) -> Option<usize> {
    match framed(alloc, frame, text.as_bytes()) {
        Some(file) => first_border(alloc, schema, limited, range, &file),
        None => Some(0),
    }
}

pub(super) fn wrong_border(alloc: Global, schema: &Schema, frame: Frame, rows: Ranges) -> Wrong {
    for (limited, range, text) in rows {
        if let Some(most) = first_border_of(alloc, schema, *limited, *range, (frame, text)) {
            return Some((text, most));
        }
    }
    None
}

/// Some that are longer than the records of the header, and others.
const SOME_INSTANCES: &str =
    "#1=NODE('it''s a label of some letters',#2);#2=NODE ( $ , $ ) ;#3=OF_SET((2.,-10.,+01.));";

const BORDERS: Ranges = &[
    (Limited::Records, (36, 46), SOME_INSTANCES),
    (Limited::CanonicalRecords, (36, 46), SOME_INSTANCES),
    (Limited::Files, (126, 242), SOME_INSTANCES),
    (Limited::CanonicalFiles, (126, 242), SOME_INSTANCES),
];

#[test]
fn keeps_to_each_limit_both_ways(rt: HostRuntime) {
    check(&rt, rt.alloc(), KINDS_SCHEMA, Rows::Borders(KINDS, BORDERS));
}

/// Texts one behind the other, each so many times.
type Repeated = &'static [(&'static str, usize)];

/// By its name: instances, with what stands in the frame in the canonical file.
pub(super) type Cases = &'static [(&'static str, Repeated, Repeated)];

fn push_many(out: &mut String, text: &str, count: usize) -> Result<(), AllocError> {
    for _ in 0..count {
        out.push_str(text)?;
    }
    Ok(())
}

fn push_repeated(out: &mut String, texts: Repeated) -> Result<(), AllocError> {
    for (text, count) in texts {
        push_many(out, text, *count)?;
    }
    Ok(())
}

fn push_file(out: &mut String, frame: Frame, texts: Repeated) -> Result<(), AllocError> {
    out.push_str(frame.before)?;
    push_repeated(out, texts)?;
    out.push_str(frame.behind)
}

/// Texts in a frame: none where memory runs out.
fn file_of(alloc: Global, frame: Frame, texts: Repeated) -> Option<String> {
    let mut out = String::new(alloc);
    match push_file(&mut out, frame, texts) {
        Ok(()) => Some(out),
        Err(_) => None,
    }
}

/// How many bytes a piece has that cuts each long instance.
const CUTTING: usize = 1_000;

/// Whether this canonical file comes of a text that a session takes whole, and of one that it takes in pieces.
fn comes_in_both(alloc: Global, schema: &Schema, text: &[u8], canonical: &[u8]) -> bool {
    let limits = Limits::usual();
    let wanted = Wanted::File(canonical);
    comes_in_pieces(alloc, schema, limits, text, Cut::Each(text.len()), wanted)
        && comes_in_pieces(alloc, schema, limits, text, Cut::Each(CUTTING), wanted)
}

/// Whether this comes of long instances: none where memory runs out.
fn comes_of(
    alloc: Global,
    schema: &Schema,
    frame: Frame,
    (text, canonical): (Repeated, Repeated),
) -> Option<bool> {
    let text = file_of(alloc, frame, text)?;
    let canonical = file_of(alloc, frame, canonical)?;
    Some(comes_in_both(alloc, schema, text.as_bytes(), canonical.as_bytes()))
}

pub(super) fn wrong_long(alloc: Global, schema: &Schema, frame: Frame, rows: Cases) -> Wrong {
    for (place, (name, text, canonical)) in rows.iter().enumerate() {
        if comes_of(alloc, schema, frame, (text, canonical)) != Some(true) {
            return Some((name, place));
        }
    }
    None
}

const LONG: Cases = &[
    (
        "a line of 16,384 bytes",
        &[("#1=OF_STRING('", 1), ("a", 16_367), ("');", 1)],
        &[("#1=OF_STRING('", 1), ("a", 16_367), ("');\n", 1)],
    ),
    (
        "a line of 16,385 bytes",
        &[("#1=OF_STRING('", 1), ("a", 16_368), ("');", 1)],
        &[("#1=OF_STRING('", 1), ("a", 16_368), ("');\n", 1)],
    ),
    (
        "a line behind one that is longer",
        &[
            ("#1=OF_STRING('", 1),
            ("a", 20_000),
            ("');#2=OF_STRING('');", 1),
        ],
        &[
            ("#1=OF_STRING('", 1),
            ("a", 20_000),
            ("');\n#2=OF_STRING('');\n", 1),
        ],
    ),
    (
        "a binary of 65,536 digits",
        &[("#1=OF_BINARY(\"0", 1), ("F", 65_536), ("\");", 1)],
        &[("#1=OF_BINARY(\"0", 1), ("F", 65_536), ("\");\n", 1)],
    ),
    (
        "65,536 digits in front of a point",
        &[("#1=OF_REAL(-", 1), ("0", 65_535), ("1.);", 1)],
        &[("#1=OF_REAL(-1.);\n", 1)],
    ),
    (
        "65,537 digits in front of a point",
        &[("#1=OF_REAL(-", 1), ("0", 65_536), ("1.);", 1)],
        &[("#1=OF_REAL(-1.);\n", 1)],
    ),
    (
        "65,537 digits at a NUMBER",
        &[("#1=OF_NUMBER(", 1), ("0", 65_536), ("1);", 1)],
        &[("#1=OF_NUMBER(1.);\n", 1)],
    ),
    (
        "65,536 zeros behind a point",
        &[("#1=OF_REAL(0.", 1), ("0", 65_536), ("E5);", 1)],
        &[("#1=OF_REAL(0.);\n", 1)],
    ),
    (
        "65,537 zeros behind a point",
        &[("#1=OF_REAL(1.", 1), ("0", 65_537), (");", 1)],
        &[("#1=OF_REAL(1.);\n", 1)],
    ),
    (
        "an integer with zeros in front",
        &[("#1=OF_INTEGER(-", 1), ("0", 70_000), ("7);", 1)],
        &[("#1=OF_INTEGER(-7);\n", 1)],
    ),
    (
        "an exponent with zeros in front",
        &[("#1=OF_REAL(1.E-", 1), ("0", 70_000), ("7);", 1)],
        &[("#1=OF_REAL(1.E-7);\n", 1)],
    ),
    (
        "names with zeros in front",
        &[
            ("#", 1),
            ("0", 70_000),
            ("1=NODE($,#", 1),
            ("0", 70_000),
            ("1);", 1),
        ],
        &[("#1=NODE($,#1);\n", 1)],
    ),
    (
        "a long comment and many blanks",
        &[
            ("#1=NODE(/*", 1),
            ("*", 70_000),
            ("*/$,", 1),
            (" \n", 70_000),
            ("#1);", 1),
        ],
        &[("#1=NODE($,#1);\n", 1)],
    ),
    (
        "many equal elements",
        &[("#1=OF_BAG((", 1), ("(2,1),", 2_000), ("()));", 1)],
        &[("#1=OF_BAG((()", 1), (",(1.,2.)", 2_000), ("));\n", 1)],
    ),
];

#[test]
fn takes_long_instances(rt: HostRuntime) {
    check(&rt, rt.alloc(), KINDS_SCHEMA, Rows::Long(KINDS, LONG));
}

/// Enumerations of as many items as are looked up one by one, and of one more.
const MANY_ITEMS_SCHEMA: &str = "SCHEMA items;
TYPE most = ENUMERATION OF (
a1, a2, a3, a4, a5, a6, a7, a8, a9, a10, a11, a12, a13, a14, a15, a16, a17, a18, a19, a20, a21, a22, a23, a24,
a25, a26, a27, a28, a29, a30, a31, a32, a33, a34, a35, a36, a37, a38, a39, a40, a41, a42, a43, a44, a45, a46,
a47, a48, a49, a50, a51, a52, a53, a54, a55, a56, a57, a58, a59, a60, a61, a62, a63, a64, a65, a66, a67, a68,
a69, a70, a71, a72, a73, a74, a75, a76, a77, a78, a79, a80, a81, a82, a83, a84, a85, a86, a87, a88, a89, a90,
a91, a92, a93, a94, a95, a96, a97, a98, a99, a100, a101, a102, a103, a104, a105, a106, a107, a108, a109, a110,
a111, a112, a113, a114, a115, a116, a117, a118, a119, a120, a121, a122, a123, a124, a125, a126, a127, a128); END_TYPE;
TYPE more = ENUMERATION OF (
a1, a2, a3, a4, a5, a6, a7, a8, a9, a10, a11, a12, a13, a14, a15, a16, a17, a18, a19, a20, a21, a22, a23, a24,
a25, a26, a27, a28, a29, a30, a31, a32, a33, a34, a35, a36, a37, a38, a39, a40, a41, a42, a43, a44, a45, a46,
a47, a48, a49, a50, a51, a52, a53, a54, a55, a56, a57, a58, a59, a60, a61, a62, a63, a64, a65, a66, a67, a68,
a69, a70, a71, a72, a73, a74, a75, a76, a77, a78, a79, a80, a81, a82, a83, a84, a85, a86, a87, a88, a89, a90,
a91, a92, a93, a94, a95, a96, a97, a98, a99, a100, a101, a102, a103, a104, a105, a106, a107, a108, a109, a110,
a111, a112, a113, a114, a115, a116, a117, a118, a119, a120, a121, a122, a123, a124, a125, a126, a127, a128,
a129); END_TYPE;
ENTITY of_most; v : most; END_ENTITY;
ENTITY of_more; v : more; END_ENTITY;
END_SCHEMA;
";

const MANY_ITEMS: Frame = Frame {
    before: "ISO-10303-21;\nHEADER;\nFILE_DESCRIPTION((''),'2;1');\nFILE_NAME('','',(''),(''),'','','');\nFILE_SCHEMA(('ITEMS'));\nENDSEC;\nDATA;\n",
    ..DEMO
};

const ITEMS: Answers = &[
    (
        "#1=OF_MOST(.A128.);#2=OF_MORE(.A129.);#3=OF_MORE(.A1.);",
        "#1=OF_MOST(.A128.);\n#2=OF_MORE(.A129.);\n#3=OF_MORE(.A1.);\n",
    ),
    ("#1=OF_MOST(.A129.);", "refused 53 UnknownItem in #1"),
    ("#1=OF_MORE(.A130.);", "refused 53 UnknownItem in #1"),
];

#[test]
fn takes_items_of_many(rt: HostRuntime) {
    check(
        &rt,
        rt.alloc(),
        MANY_ITEMS_SCHEMA,
        Rows::Answers(MANY_ITEMS, ITEMS),
    );
}
