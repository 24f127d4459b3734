use super::{Pairs, Refusals, Spellings, are_equal, is_spelled, passes};
use p21_values::{Decimal, ValueFault, Whole};

fn read(rt: &HostRuntime, text: &str) -> Result<Decimal, ValueFault> {
    Decimal::read(rt.alloc(), text.as_bytes())
}

const ROWS: Spellings = &[
    ("+012.500E+03", "1.25E4"),
    ("123.450", "1.2345E2"),
    ("1.E0000000001", "1.E1"),
    ("0.E999999999", "0."),
    ("-0.0", "0."),
    ("-0.E-999999999", "0."),
    ("0.00250", "2.5E-3"),
    ("1.E9999", "1.E9999"),
    ("-10.E-1", "-1."),
    ("1.E-07", "1.E-7"),
    ("0.1E-9998", "1.E-9999"),
    ("0.01E10001", "1.E9999"),
    ("1230.E1000", "1.23E1003"),
    ("100.001", "1.00001E2"),
    // of fewer digits than lie in place, of as many, of one more and of many more: 24 do
    ("1.", "1."),
    ("1.2345678912345678912345", "1.2345678912345678912345"),
    ("12345678912.345678912345", "1.2345678912345678912345E10"),
    ("12345678912345678912345.", "1.2345678912345678912345E22"),
    ("1.23456789123456789123456", "1.23456789123456789123456"),
    ("123456789123.456789123456", "1.23456789123456789123456E11"),
    ("123456789123456789123456.", "1.23456789123456789123456E23"),
    ("1.234567891234567891234567", "1.234567891234567891234567"),
    (
        "123456789123.4567891234567",
        "1.234567891234567891234567E11",
    ),
    (
        "123456789123456789123456.7",
        "1.234567891234567891234567E23",
    ),
    (
        "1234567891234567891234567.",
        "1.234567891234567891234567E24",
    ),
    (
        "1.23456789123456789123456789123456789",
        "1.23456789123456789123456789123456789",
    ),
    (
        "123456789123456789.123456789123456789",
        "1.23456789123456789123456789123456789E17",
    ),
    (
        "123456789123456789123456789123456789.",
        "1.23456789123456789123456789123456789E35",
    ),
];

fn first_wrong(rt: &HostRuntime, rows: Spellings) -> &'static str {
    for (text, spelling) in rows {
        let is_equal = are_equal(read(rt, text), read(rt, spelling)) == Some(true);
        if !is_equal || !is_spelled(rt, read(rt, text), spelling.as_bytes()) {
            return text;
        }
    }
    "none"
}

const REFUSED: Refusals = &[
    ("1", ValueFault::BadNumber),
    ("", ValueFault::BadNumber),
    (".5", ValueFault::BadNumber),
    ("+.5", ValueFault::BadNumber),
    ("1.E", ValueFault::BadNumber),
    ("1.EX", ValueFault::BadNumber),
    ("1.E+", ValueFault::BadNumber),
    ("1.5E1.", ValueFault::BadNumber),
    ("1.5 ", ValueFault::BadNumber),
    ("1,5", ValueFault::BadNumber),
    ("1.e2", ValueFault::BadNumber),
    ("+-1.", ValueFault::BadNumber),
    ("10.E9999", ValueFault::NumberRange),
    ("0.E1000000000", ValueFault::NumberRange),
    ("0.1E-9999", ValueFault::NumberRange),
    ("1.E10000", ValueFault::NumberRange),
    ("1.E-10000", ValueFault::NumberRange),
    ("1.E-1000000000", ValueFault::NumberRange),
];

fn first_taken(rt: &HostRuntime, rows: Refusals) -> &'static str {
    for (text, fault) in rows {
        if read(rt, text).err() != Some(*fault) {
            return text;
        }
    }
    "none"
}

const PAIRS: Pairs = &[
    ("1.0", "10.E-1", true),
    ("-0.", "0.E5", true),
    ("1.", "-1.", false),
    ("1.", "10.", false),
    ("1.1", "1.2", false),
    (
        "1.2345678912345678912345",
        "1.23456789123456789123456",
        false,
    ),
    (
        "1.23456789123456789123456",
        "1.234567891234567891234567",
        false,
    ),
    (
        "1.234567891234567891234567",
        "1.2345678912345678912345678",
        false,
    ),
    (
        "1.23456789123456789123456",
        "1.23456789123456789123457",
        false,
    ),
    (
        "1.234567891234567891234567",
        "1.234567891234567891234568",
        false,
    ),
];

/// The second text of the first pair that doesn't mean what its row says.
fn first_unlike(rt: &HostRuntime, pairs: Pairs) -> &'static str {
    for (one, other, equal) in pairs {
        if are_equal(read(rt, one), read(rt, other)) != Some(*equal) {
            return other;
        }
    }
    "none"
}

fn of_whole(rt: &HostRuntime, whole: Result<Whole, ValueFault>) -> Result<Decimal, ValueFault> {
    match whole {
        Ok(whole) => Decimal::of_whole(rt.alloc(), &whole),
        Err(fault) => Err(fault),
    }
}

// A 1 and zeros behind it, so many digits in all.
fn power_of_ten(rt: &HostRuntime, digits: usize) -> Result<Whole, ValueFault> {
    let mut text = Vec::from_slice(rt.alloc(), b"1")?;
    text.resize(digits, b'0')?;
    Whole::read(rt.alloc(), &text)
}

const WHOLES: Spellings = &[("0", "0."), ("-7", "-7."), ("1250", "1.25E3")];

fn first_of_another_ratio(rt: &HostRuntime, rows: Spellings) -> &'static str {
    for (text, spelling) in rows {
        let whole = Whole::read(rt.alloc(), text.as_bytes());
        if !is_spelled(rt, of_whole(rt, whole), spelling.as_bytes()) {
            return text;
        }
    }
    "none"
}

/// Whether the greatest power of ten in range keeps its ratio, and the next one is refused.
fn keeps_to_the_range(rt: &HostRuntime) -> bool {
    is_spelled(rt, of_whole(rt, power_of_ten(rt, 10000)), b"1.E9999")
        && of_whole(rt, power_of_ten(rt, 10001)).err() == Some(ValueFault::NumberRange)
}

#[test]
fn reads_refuses_and_compares(rt: HostRuntime) {
    passes(&rt, first_wrong(&rt, ROWS));
    passes(&rt, first_taken(&rt, REFUSED));
    passes(&rt, first_unlike(&rt, PAIRS));
    passes(&rt, first_of_another_ratio(&rt, WHOLES));
    assert!(rt; keeps_to_the_range(&rt));
}
