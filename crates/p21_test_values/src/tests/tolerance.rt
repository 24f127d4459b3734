use super::passes;
use p21_model_values::Value;
use p21_tolerance::{Tolerance, are_near, are_within, are_within_share};

/// Tolerances as they are given, with their units and the power of ten.
type Given = &'static [(&'static str, u64, i32)];

const GIVEN: Given = &[
    ("0.001", 1, -3),
    ("1e-3", 1, -3),
    ("1E-3", 1, -3),
    ("5", 5, 0),
    ("0", 0, 0),
    ("00012", 12, 0),
    ("5.", 5, 0),
    (".5", 5, -1),
    ("1.50", 150, -2),
    ("2.5e+2", 25, 1),
    ("1e999999999", 1, 999_999_999),
    ("1e-0000000000000000009", 1, -9),
    ("0.1e-999999999", 1, -1_000_000_000),
    ("123456789012345678", 123_456_789_012_345_678, 0),
    ("0000000000000000000000001", 1, 0),
    ("0.0000000000000000000000001", 1, -25),
];

fn first_misread(rows: Given) -> &'static str {
    for (text, units, power) in rows {
        let Some(tolerance) = Tolerance::of(text.as_bytes()) else {
            return text;
        };
        if tolerance.units != *units || tolerance.power != *power {
            return text;
        }
    }
    "none"
}

const REFUSED: &[&str] = &[
    "",
    "x",
    "-1",
    "+1",
    "--1",
    ".",
    "e5",
    ".e5",
    "1e",
    "1e+",
    "1e--1",
    "1e5x",
    "1e5.",
    "1.5.2",
    "1,5",
    " 1",
    "1 ",
    "0x1",
    "nan",
    "inf",
    "1e1000000000",
    "1234567890123456789",
    "1.000000000000000000",
];

fn first_taken(texts: &'static [&'static str]) -> &'static str {
    for text in texts {
        if Tolerance::of(text.as_bytes()).is_some() {
            return text;
        }
    }
    "none"
}

/// Two values, a tolerance, and whether they are within it.
type Rows = &'static [(&'static str, &'static str, &'static str, bool)];

const WITHIN: Rows = &[
    ("1.", "1.001", "0.001", true),
    ("1.001", "1.", "0.001", true),
    ("1.", "1.001", "0.0009", false),
    ("1.", "1.001", "0.000999999999999999", false),
    ("1.", "1.001", "1e-3", true),
    ("1.", "1.001", "1", true),
    // signs
    ("-1.", "1.", "2", true),
    ("-1.", "1.", "1.999999", false),
    ("1.", "-1.", "2", true),
    ("-1.", "-1.5", "0.5", true),
    ("-1.", "-1.5", "0.4999", false),
    ("-1.E-1", "2.E-1", "0.3", true),
    ("-1.E-1", "2.E-1", "0.29", false),
    // numbers that are equal, and spelled apart
    ("1.", "1.", "0", true),
    ("0.", "0.", "0", true),
    ("10", "1.E1", "0", true),
    ("0", "0.", "0", true),
    ("-10", "-1.E1", "0", true),
    ("-10", "1.E1", "0", false),
    ("-10", "1.E1", "20", true),
    ("-0.0", "0.", "0", true),
    ("1.E0", "100.E-2", "0", true),
    ("007", "7.000E0", "0", true),
    // a tolerance of 0
    ("1.", "1.0000000000000000000000000000000000001", "0", false),
    ("1", "2", "0", false),
    ("1", "2", "0.E5", false),
    // carries
    ("9.99", "1.E1", "0.01", true),
    ("9.99", "1.E1", "0.009", false),
    ("9.99999999999999999999999999", "1.E1", "1e-26", true),
    ("9.99999999999999999999999999", "1.E1", "0.9e-26", false),
    ("1.E3", "9.99E2", "1", true),
    ("1.E3", "9.989E2", "1", false),
    // many digits
    (
        "1.2345678901234567890123456789012345678901",
        "1.2345678901234567890123456789012345678902",
        "1e-40",
        true,
    ),
    (
        "1.2345678901234567890123456789012345678901",
        "1.2345678901234567890123456789012345678902",
        "0.9e-40",
        false,
    ),
    (
        "123456789012345678901234567890123456789012345678901234567890",
        "123456789012345678901234567890123456789012345678901234567893",
        "3",
        true,
    ),
    (
        "123456789012345678901234567890123456789012345678901234567890",
        "123456789012345678901234567890123456789012345678901234567893",
        "2.9",
        false,
    ),
    // exponents far apart
    ("1.E400", "1.E-400", "0", false),
    ("1.E400", "1.E-400", "1e400", true),
    ("1.E400", "1.E-400", "9.99e399", false),
    ("1.E400", "-1.E-400", "1e400", false),
    ("-1.E400", "1.E-400", "1e400", false),
    ("-1.E400", "-1.E-400", "1e400", true),
    ("1.E9999", "1.E-9999", "1e9998", false),
    ("1.E-9999", "2.E-9999", "1e-9999", true),
    ("1.E-9999", "2.E-9999", "1e-99999999", false),
    ("1.E999999999", "1.E-999999999", "1e999999999", true),
    ("0.", "1.E-999999999", "1e-999999999", true),
    ("0.", "1.E-999999999", "0.9e-999999999", false),
    // what is no number
    ("1.", "'1.'", "5", false),
    ("$", "$", "5", false),
    ("(1.)", "(1.)", "5", false),
    ("#1", "#1", "5", false),
    ("A(1.)", "A(1.)", "5", false),
];

fn first_wrong(rows: Rows) -> &'static str {
    for (first, second, given, is_within) in rows {
        let Some(tolerance) = Tolerance::of(given.as_bytes()) else {
            return given;
        };
        if are_within(value(first), value(second), tolerance) != *is_within {
            return second;
        }
    }
    "none"
}

const WITHIN_SHARE: Rows = &[
    ("1.", "2.", "0.5", true),
    ("2.", "1.", "0.5", true),
    ("1.", "2.", "0.49", false),
    ("-1.", "-2.", "0.5", true),
    ("-1.", "1.", "2", true),
    ("-1.", "1.", "1.999", false),
    ("0.", "1.", "1", true),
    ("0.", "1.", "0.999", false),
    ("0.", "0.", "0", true),
    ("1.", "1.", "0", true),
    ("1.E6", "1.000001E6", "1e-6", true),
    ("1.E6", "1.000001E6", "9.99e-7", false),
    ("1.E400", "1.001E400", "0.001", true),
    ("1.E-400", "1.1E-400", "0.001", false),
    ("1.E-400", "1.1E-400", "0.1", true),
    ("1.E400", "1.E-400", "1", true),
    ("1.E400", "1.E-400", "0.999", false),
    (
        "1.2345678901234567890123456789012345678901",
        "1.2345678901234567890123456789012345678902",
        "1e-40",
        true,
    ),
    (
        "1.2345678901234567890123456789012345678901",
        "1.2345678901234567890123456789012345678902",
        "0.8e-40",
        false,
    ),
    ("1.", "'1.'", "5", false),
];

fn first_wrong_share(rows: Rows) -> &'static str {
    for (first, second, given, is_within) in rows {
        let Some(tolerance) = Tolerance::of(given.as_bytes()) else {
            return given;
        };
        if are_within_share(value(first), value(second), tolerance) != *is_within {
            return second;
        }
    }
    "none"
}

const NEAR: Rows = &[
    ("1.", "1.001", "0.001", true),
    ("1.", "1.0011", "0.001", false),
    // by a share of the greater one
    ("1.", "1.001001", "0.001", true),
    ("1.E6", "1.000001E6", "1e-6", true),
    ("1.E6", "1.000002E6", "1e-6", false),
    // aggregates
    ("(1.,2.,3.)", "(1.0001,2.,3.)", "0.001", true),
    ("(1.,2.,3.)", "(1.01,2.,3.)", "0.001", false),
    ("(1.,2.,3.)", "(1.,2.,3.01)", "0.001", false),
    ("((1.),(2.))", "((1.),(2.0001))", "0.001", true),
    ("((1.),(2.))", "((1.),(2.1))", "0.001", false),
    ("(1.,2.)", "(1.,2.,3.)", "5", false),
    ("(1.,2.,3.)", "(1.,2.)", "5", false),
    ("()", "()", "0", true),
    ("()", "(1.)", "5", false),
    ("(1.)", "()", "5", false),
    ("(1.,'x',#2)", "(1.0001,'x',#2)", "0.001", true),
    ("(1.,'x',#2)", "(1.0001,'y',#2)", "0.001", false),
    ("(1.,'x',#2)", "(1.0001,'x',#3)", "0.001", false),
    ("(1.)", "1.", "5", false),
    // values with a keyword
    ("LENGTH(1.)", "LENGTH(1.0001)", "0.001", true),
    ("LENGTH(1.)", "LENGTH(1.1)", "0.001", false),
    ("LENGTH(1.)", "MASS(1.)", "5", false),
    ("LENGTH(1.)", "1.", "5", false),
    ("A(B((1.,2.)))", "A(B((1.,2.0001)))", "0.001", true),
    ("A(B((1.,2.)))", "A(C((1.,2.0001)))", "0.001", false),
    ("!OWN(1.)", "!OWN(1.)", "1", true),
    ("!OWN(1.)", "!OWN(1.0001)", "1", false),
    ("!OWN(1.)", "OWN(1.)", "1", false),
    // all else
    ("'1.'", "'2.'", "5", false),
    ("'1.'", "'1.'", "0", true),
    ("1", "2", "5", false),
    ("1", "1.", "5", false),
    ("(1)", "(2)", "5", false),
    ("$", "$", "0", true),
    ("$", "*", "5", false),
    (".T.", ".F.", "5", false),
    ("\"0\"", "\"0\"", "0", true),
];

fn first_far(rows: Rows) -> &'static str {
    for (first, second, given, is_near) in rows {
        let Some(tolerance) = Tolerance::of(given.as_bytes()) else {
            return given;
        };
        if are_near(value(first), value(second), tolerance) != *is_near {
            return second;
        }
    }
    "none"
}

fn value(text: &str) -> Value<'_> {
    Value {
        text: text.as_bytes(),
    }
}

#[test]
fn is_read_as_given(rt: HostRuntime) {
    passes(&rt, first_misread(GIVEN));
    passes(&rt, first_taken(REFUSED));
}

#[test]
fn holds_of_numbers(rt: HostRuntime) {
    passes(&rt, first_wrong(WITHIN));
    passes(&rt, first_wrong_share(WITHIN_SHARE));
}

#[test]
fn holds_at_any_depth(rt: HostRuntime) {
    passes(&rt, first_far(NEAR));
}
