use super::schemas::{KINDS, NESTED, WIDE};
use super::*;

const COUNTED: Rows = &[
    (
        "#1=E('abc','xy',\"0A\",($,1),.T.);",
        "#1=E('abc','xy',\"0A\",($,1),.T.);",
    ),
    (
        "#1=E('','''\\\\',\"0\",(1,2),.F.);",
        "#1=E('','''\\\\',\"0\",(1,2),.F.);",
    ),
    (
        "#1=E('\u{e9}\u{e9}\u{e9}','\u{1f600}~',\"17\",($,$),.T.);",
        "#1=E('\\X2\\00E9\\X0\\\\X2\\00E9\\X0\\\\X2\\00E9\\X0\\','\\X4\\0001F600\\X0\\~',\"17\",($,$),.T.);",
    ),
    ("#1=E('abcd','xy',\"0A\",($,1),.T.);", "50 Width"),
    (
        "#1=E('\u{e9}\u{e9}\u{e9}\u{e9}','xy',\"0A\",($,1),.T.);",
        "50 Width",
    ),
    ("#1=E('abc','x',\"0A\",($,1),.T.);", "50 Width"),
    ("#1=E('abc','xyz',\"0A\",($,1),.T.);", "50 Width"),
    ("#1=E('abc','xy',\"23B\",($,1),.T.);", "50 Width"),
];

#[test]
fn counts_characters_and_bits(rt: HostRuntime) {
    check(&rt, rt.alloc(), WIDE, Table::Instances(COUNTED));
}

const REFUSED_AT_WIDTHS: Rows = &[
    ("#1=E(5,'xy',\"0A\",($,1),.T.);", "49 WrongKind"),
    ("#1=E('abc',\"0A\",'xy',($,1),.T.);", "49 WrongKind"),
    ("#1=E('abc','xy',\"0A\",(1),.T.);", "51 Bounds"),
    ("#1=E('abc','xy',\"0A\",(1,2,3),.T.);", "51 Bounds"),
    ("#1=E('abc','xy',\"0A\",(1,*),.T.);", "47 StarNotDerived"),
    ("#1=E('abc','xy',\"0A\",($,1),.U.);", "53 UnknownItem"),
    ("#1=E('abc','xy',\"0A\",($,1),$);", "46 Missing"),
];

#[test]
fn refuses_other_values_at_widths(rt: HostRuntime) {
    check(&rt, rt.alloc(), WIDE, Table::Instances(REFUSED_AT_WIDTHS));
}

const SCALARS: Rows = &[
    ("#1=OF_INTEGER(-000);", "#1=OF_INTEGER(0);"),
    (
        "#1=OF_INTEGER(+0123456789012345678901234567890);",
        "#1=OF_INTEGER(123456789012345678901234567890);",
    ),
    ("#1=OF_REAL(-0.00E7);", "#1=OF_REAL(0.);"),
    ("#1=OF_REAL(0.1E10000);", "#1=OF_REAL(1.E9999);"),
    ("#1=OF_REAL(-10.E-10000);", "#1=OF_REAL(-1.E-9999);"),
    ("#1=OF_NUMBER(-0);", "#1=OF_NUMBER(0.);"),
    ("#1=OF_NUMBER(-1200);", "#1=OF_NUMBER(-1.2E3);"),
    ("#1=OF_LOGICAL(.U.);", "#1=OF_LOGICAL(.U.);"),
    ("#1=OF_STRING('\\X\\41''\\\\');", "#1=OF_STRING('A''\\\\');"),
    ("#1=OF_BINARY(\"30\");", "#1=OF_BINARY(\"30\");"),
];

#[test]
fn writes_scalars(rt: HostRuntime) {
    check(&rt, rt.alloc(), KINDS, Table::Instances(SCALARS));
}

const SORTED: Rows = &[
    ("#1=I((100,2,+10,1,-1));", "#1=I((-1,1,10,100,2));"),
    (
        "#1=W((('b','a'),('a'),(),('ab')));",
        "#1=W((('a'),('a','b'),('ab'),()));",
    ),
    ("#1=W((('a''','a','ab')));", "#1=W((('a','a''','ab')));"),
    ("#1=B(((2,1),(1,2),()));", "#1=B(((),(1,2),(1,2)));"),
    ("#1=N(((1,2,2),(2,1,1)));", "#1=N(((1,1,2),(1,2,2)));"),
    ("#1=M(((2,1),(1,2),()));", "#1=M(((),(1,2),(1,2)));"),
    ("#1=A(((2,1),()));", "#1=A(((2,1),()));"),
    ("#1=L(((3),(2,1)));", "#1=L(((3.),(1.,2.)));"),
    ("#1=U(($,1,$));", "#1=U(($,1,$));"),
];

#[test]
fn puts_elements_in_order(rt: HostRuntime) {
    check(&rt, rt.alloc(), NESTED, Table::Instances(SORTED));
}

const EQUAL: Rows = &[
    ("#1=I((1,2,+01));", "52 NotDistinct"),
    ("#1=W((('a','b'),('b','a')));", "52 NotDistinct"),
    ("#1=W((('a'),('\\X\\61')));", "52 NotDistinct"),
    ("#1=W((('b','b')));", "52 NotDistinct"),
    ("#1=N(((1,2),(2,1)));", "52 NotDistinct"),
    ("#1=M(((1,1)));", "52 NotDistinct"),
    ("#1=L(((2.0,1.),(1,2)));", "52 NotDistinct"),
    ("#1=U((1,$,01));", "52 NotDistinct"),
    ("#1=A(((1,1)));", "51 Bounds"),
];

#[test]
fn refuses_equal_elements(rt: HostRuntime) {
    check(&rt, rt.alloc(), NESTED, Table::Instances(EQUAL));
}

const TYPED: Rows = &[
    ("#1=OF_CHOICE(LENGTH(1.0));", "#1=OF_CHOICE(LENGTH(1.));"),
    ("#1=OF_CHOICE(ROW((02,1)));", "#1=OF_CHOICE(ROW((2,1)));"),
    ("#1=OF_CHOICE(LENGTH(1));", "49 WrongKind"),
    ("#1=OF_CHOICE(LENGTH(LENGTH(1.)));", "49 WrongKind"),
    ("#1=OF_CHOICE(ROW(()));", "51 Bounds"),
    ("#1=OF_CHOICE(COLOUR(.BLUE.));", "53 UnknownItem"),
    ("#1=OPTIONAL_CHOICE(LENGTH($));", "46 Missing"),
    ("#1=OPTIONAL_CHOICE(LENGTH(*));", "47 StarNotDerived"),
];

#[test]
fn reads_typed_parameters(rt: HostRuntime) {
    check(&rt, rt.alloc(), KINDS, Table::Instances(TYPED));
}

const OTHER_TYPES: Rows = &[
    ("#1=OF_CHOICE(DEPTH(1.));", "54 SelectType"),
    ("#1=OF_CHOICE(PLAIN(LENGTH(1.)));", "54 SelectType"),
    ("#1=OF_CHOICE(CHOICE(#2));", "54 SelectType"),
    ("#1=OF_CHOICE(NODE(#2));", "54 SelectType"),
    ("#1=OF_CHOICE(FOO(1.));", "54 SelectType"),
    ("#1=OF_DEPTH(DEPTH(1.));", "49 WrongKind"),
    ("#1=OF_PLAIN(#2);", "54 SelectType"),
];

#[test]
fn refuses_keywords_of_other_types(rt: HostRuntime) {
    check(&rt, rt.alloc(), KINDS, Table::Instances(OTHER_TYPES));
}

/// A parameter of each kind.
const PARAMS: [&str; 17] = [
    "$",
    "*",
    "1",
    "1.",
    "'a'",
    "\"0\"",
    ".T.",
    ".U.",
    ".RED.",
    "#2",
    "()",
    "(1)",
    "(1.)",
    "LENGTH(1.)",
    "COLOUR(.RED.)",
    "ROW((1))",
    "PLAIN(LENGTH(1.))",
];

/// What comes of a parameter at the one place of an entity: `.` it is taken, and a letter for each refusal.
fn letter(alloc: Global, schema: &Schema, key: &str, param: &str) -> u8 {
    let mut reader = Reader::behind(alloc, HEAD);
    for piece in ["#1=", key, "(", param, ");"] {
        reader.feed(piece.as_bytes());
    }
    match reader.take_instance() {
        Some(instance) => letter_of(alloc, schema, &instance),
        None => b'?',
    }
}

fn letter_of(alloc: Global, schema: &Schema, instance: &Instance) -> u8 {
    let mut out = Vec::new(alloc);
    match append_statement(alloc, schema, instance, &mut out) {
        Ok(()) => b'.',
        Err(fault) => letter_of_fault(fault),
    }
}

fn letter_of_fault(fault: CheckFault) -> u8 {
    match fault.number() {
        46 => b'm',
        47 => b's',
        48 => b'd',
        49 => b'k',
        51 => b'b',
        53 => b'i',
        54 => b't',
        _ => b'?',
    }
}

/// Whether an entity takes and refuses the parameters as these letters say.
fn has_letters(alloc: Global, schema: &Schema, key: &str, letters: &[u8]) -> bool {
    for (param, expected) in PARAMS.iter().zip(letters.iter()) {
        if letter(alloc, schema, key, param) != *expected {
            return false;
        }
    }
    letters.len() == PARAMS.len()
}

/// Entities, with a letter for each parameter.
pub(super) type Letters = &'static [(&'static str, &'static str)];

/// The first entity that takes or refuses a parameter otherwise.
pub(super) fn first_otherwise(alloc: Global, schema: &Schema, rows: Letters) -> &'static str {
    for (key, letters) in rows {
        if !has_letters(alloc, schema, key, letters.as_bytes()) {
            return key;
        }
    }
    "none"
}

const SIMPLE_TYPES: Letters = &[
    ("OF_INTEGER", "ms.kkkkkkkkkkkkkk"),
    ("OF_REAL", "msk.kkkkkkkkkkkkk"),
    ("OF_NUMBER", "ms..kkkkkkkkkkkkk"),
    ("OF_STRING", "mskk.kkkkkkkkkkkk"),
    ("OF_BINARY", "mskkk.kkkkkkkkkkk"),
    ("OF_BOOLEAN", "mskkkk.iikkkkkkkk"),
    ("OF_LOGICAL", "mskkkk..ikkkkkkkk"),
    ("OPTIONAL_INTEGER", ".s.kkkkkkkkkkkkkk"),
    ("DERIVED", "d.ddddddddddddddd"),
];

#[test]
fn takes_each_kind_at_simple_types(rt: HostRuntime) {
    check(&rt, rt.alloc(), KINDS, Table::Letters(SIMPLE_TYPES));
}

const OTHER_KINDS: Letters = &[
    ("OF_COLOUR", "mskkkkii.kkkkkkkk"),
    ("OF_PAINT", "mskkkkii.kkkkkkkk"),
    ("OF_DEPTH", "msk.kkkkkkkkkkkkk"),
    ("OF_NODE", "mskkkkkkk.kkkkkkk"),
    ("OF_ROW", "mskkkkkkkkb.kkkkk"),
    ("OF_LINE", "mskkkkkkkkb.kkkkk"),
    ("OF_SET", "mskkkkkkkk.k.kkkk"),
    ("OF_ARRAY", "mskkkkkkkkb.kkkkk"),
    ("OF_PLAIN", "msttttttttttt..tt"),
    ("OF_CHOICE", "msttttttt.ttt...t"),
    ("OPTIONAL_CHOICE", ".sttttttt.ttt...t"),
];

#[test]
fn takes_each_kind_at_other_types(rt: HostRuntime) {
    check(&rt, rt.alloc(), KINDS, Table::Letters(OTHER_KINDS));
}
