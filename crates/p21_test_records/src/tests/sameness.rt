use super::schemas::{DEMO, KINDS, NESTED};
use super::*;
use p21_canon::same;
use p21_mapping::{Typed, Value, Values};

/// Whether values are the same, place by place.
fn same_values(a: &[Value], b: &[Value]) -> bool {
    for (a, b) in a.iter().zip(b.iter()) {
        if !same(a, b) || !same(b, a) {
            return false;
        }
    }
    a.len() == b.len()
}

/// Whether the values of two records are the same, place by place.
fn same_rows(a: &[Values], b: &[Values]) -> bool {
    for (a, b) in a.iter().zip(b.iter()) {
        if !same_values(a.items(), b.items()) {
            return false;
        }
    }
    a.len() == b.len()
}

/// The typed record of the instance that a text is.
fn typed_of<'a>(alloc: Global, schema: &'a Schema, text: &str) -> Option<Typed<'a>> {
    match read_instance(alloc, text.as_bytes()) {
        Some(instance) => typed_record(alloc, schema, &instance.record),
        None => None,
    }
}

fn typed_record<'a>(alloc: Global, schema: &'a Schema, record: &Record) -> Option<Typed<'a>> {
    match check_record(alloc, schema, record) {
        Ok((typed, _needs)) => Some(typed),
        Err(_) => None,
    }
}

/// Whether the values of two instances are the same: none where one is refused.
fn mean_the_same(alloc: Global, schema: &Schema, a: &str, b: &str) -> Option<bool> {
    match typed_of(alloc, schema, a) {
        Some(a) => has_rows(alloc, schema, a.values.items(), b),
        None => None,
    }
}

fn has_rows(alloc: Global, schema: &Schema, rows: &[Values], text: &str) -> Option<bool> {
    match typed_of(alloc, schema, text) {
        Some(typed) => Some(same_rows(rows, typed.values.items())),
        None => None,
    }
}

/// The canonical statement of the instance that a text is.
fn line_of(alloc: Global, schema: &Schema, text: &str) -> Option<Vec<u8>> {
    match read_instance(alloc, text.as_bytes()) {
        Some(instance) => line_of_instance(alloc, schema, &instance),
        None => None,
    }
}

fn line_of_instance(alloc: Global, schema: &Schema, instance: &Instance) -> Option<Vec<u8>> {
    let mut out = Vec::new(alloc);
    match append_statement(alloc, schema, instance, &mut out) {
        Ok(()) => Some(out),
        Err(_) => None,
    }
}

/// Whether the canonical statements of two instances are equal: none where one is refused.
fn lines_are_equal(alloc: Global, schema: &Schema, a: &str, b: &str) -> Option<bool> {
    match line_of(alloc, schema, a) {
        Some(line) => has_line(alloc, schema, &line, b),
        None => None,
    }
}

fn has_line(alloc: Global, schema: &Schema, line: &[u8], text: &str) -> Option<bool> {
    match line_of(alloc, schema, text) {
        Some(other) => Some(line == other.as_slice()),
        None => None,
    }
}

/// Pairs of instances, and whether their values are the same and their canonical statements equal.
pub(super) type Pairs = &'static [(&'static str, &'static str, bool)];

/// The second instance of the first pair of which that isn't so.
pub(super) fn first_unlike(alloc: Global, schema: &Schema, rows: Pairs) -> &'static str {
    for (a, b, wanted) in rows {
        if mean_the_same(alloc, schema, a, b) != Some(*wanted)
            || lines_are_equal(alloc, schema, a, b) != Some(*wanted)
        {
            return b;
        }
    }
    "none"
}

const RECORDS: Pairs = &[
    (
        "#1=CLOUD((),((1.,2.)),(TALLY(1)));",
        "#1=CLOUD((),((2.,1.)),(TALLY(1)));",
        true,
    ),
    (
        "#1=CLOUD((),((1.,1.,2.)),(TALLY(1)));",
        "#1=CLOUD((),((1.,2.,2.)),(TALLY(1)));",
        false,
    ),
    (
        "#1=CLOUD((),((2.,1.),(3.)),(TALLY(1)));",
        "#1=CLOUD((),((3.0),(1.,2.0)),(TALLY(01)));",
        true,
    ),
    (
        "#1=CLOUD((),((2.,1.),(3.)),(TALLY(1)));",
        "#1=CLOUD((),((1.),(2.,3.)),(TALLY(1)));",
        false,
    ),
    (
        "#1=CLOUD((#2,#3),(),(TALLY(1),TALLY(2)));",
        "#1=CLOUD((#3,#2),(),(TALLY(1),TALLY(2)));",
        true,
    ),
    (
        "#1=CLOUD((#2,#3),(),(TALLY(1),TALLY(2)));",
        "#1=CLOUD((#2,#3),(),(TALLY(2),TALLY(1)));",
        false,
    ),
    (
        "#1=CLOUD((),(),(TALLY(1)));",
        "#1=CLOUD((),(),(DISTANCE(1.)));",
        false,
    ),
];

#[test]
fn compares_records(rt: HostRuntime) {
    check(&rt, rt.alloc(), DEMO, Table::Pairs(RECORDS));
}

const AGGREGATES: Pairs = &[
    ("#1=N(((1,1,2),(3)));", "#1=N(((3),(2,1,1)));", true),
    ("#1=N(((1,1,2),(3)));", "#1=N(((3),(2,2,1)));", false),
    ("#1=M(((1,2),(1,2)));", "#1=M(((2,1),(1,2)));", true),
    ("#1=M(((1,2),(1,2)));", "#1=M(((1,2)));", false),
    ("#1=A(((1,2),()));", "#1=A(((2,1),()));", false),
    ("#1=A(((1,2),()));", "#1=A(((),(1,2)));", false),
    ("#1=U((1,$,$));", "#1=U(($,1,$));", false),
    ("#1=L(((1,2),(3)));", "#1=L(((2.,1.),(3.)));", true),
    ("#1=B(((2,1),(3)));", "#1=B(((3),(1,2)));", true),
    ("#1=B(((2,1),(3)));", "#1=B(((1),(2,3)));", false),
];

#[test]
fn compares_aggregates_in_aggregates(rt: HostRuntime) {
    check(&rt, rt.alloc(), NESTED, Table::Pairs(AGGREGATES));
}

const SCALARS: Pairs = &[
    ("#1=OF_INTEGER(+012);", "#1=OF_INTEGER(12);", true),
    ("#1=OF_INTEGER(12);", "#1=OF_INTEGER(-12);", false),
    ("#1=OF_REAL(12.5);", "#1=OF_REAL(1.25E1);", true),
    ("#1=OF_REAL(12.5);", "#1=OF_REAL(1.25);", false),
    ("#1=OF_NUMBER(0.);", "#1=OF_NUMBER(-0.0E7);", true),
    ("#1=OF_NUMBER(1.);", "#1=OF_NUMBER(2.);", false),
    ("#1=OF_NUMBER(1.);", "#1=OF_REAL(1.);", false),
    ("#1=OF_REAL(1.);", "#1=OF_INTEGER(1);", false),
    ("#1=OF_STRING('ab');", "#1=OF_STRING('ab');", true),
    ("#1=OF_STRING('ab');", "#1=OF_STRING('ac');", false),
    ("#1=OF_BINARY(\"23B\");", "#1=OF_BINARY(\"23B\");", true),
    ("#1=OF_BINARY(\"23B\");", "#1=OF_BINARY(\"03B\");", false),
    ("#1=OF_COLOUR(.RED.);", "#1=OF_COLOUR(.RED.);", true),
    ("#1=OF_COLOUR(.RED.);", "#1=OF_STRING('RED');", false),
    ("#1=OF_NODE(#7);", "#1=OF_NODE(#07);", true),
    ("#1=OF_NODE(#7);", "#1=OF_NODE(#8);", false),
    ("#1=DERIVED(*);", "#1=DERIVED(*);", true),
    ("#1=OPTIONAL_INTEGER($);", "#1=OPTIONAL_INTEGER($);", true),
    ("#1=OPTIONAL_INTEGER($);", "#1=DERIVED(*);", false),
    // of one type, of two types
    ("#1=OF_SIZE(LENGTH(1.));", "#1=OF_SIZE(LENGTH(1.0));", true),
    ("#1=OF_SIZE(LENGTH(1.));", "#1=OF_SIZE(BREADTH(1.));", false),
    ("#1=OF_SIZE(LENGTH(1.));", "#1=OF_SIZE(LENGTH(2.));", false),
];

#[test]
fn compares_scalars(rt: HostRuntime) {
    check(&rt, rt.alloc(), KINDS, Table::Pairs(SCALARS));
}
