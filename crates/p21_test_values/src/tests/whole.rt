use super::{Pairs, Refusals, Spellings, appended, are_equal, is_spelled, passes};
use p21_values::{ValueFault, Whole};

fn read(rt: &HostRuntime, text: &str) -> Result<Whole, ValueFault> {
    Whole::read(rt.alloc(), text.as_bytes())
}

const ROWS: Spellings = &[
    ("+007", "7"),
    ("-0", "0"),
    ("+0", "0"),
    ("000", "0"),
    ("-0120", "-120"),
    ("18446744073709551616", "18446744073709551616"),
];

fn first_wrong(rt: &HostRuntime, rows: Spellings) -> &'static str {
    for (text, spelling) in rows {
        if !is_spelled(rt, read(rt, text), spelling.as_bytes()) {
            return text;
        }
    }
    "none"
}

const REFUSED: Refusals = &[
    ("1.", ValueFault::BadNumber),
    ("", ValueFault::BadNumber),
    ("+", ValueFault::BadNumber),
    ("-", ValueFault::BadNumber),
    ("+-1", ValueFault::BadNumber),
    ("1 ", ValueFault::BadNumber),
    (" 1", ValueFault::BadNumber),
    ("1-", ValueFault::BadNumber),
    ("A", ValueFault::BadNumber),
    ("1E2", ValueFault::BadNumber),
];

fn first_taken(rt: &HostRuntime, rows: Refusals) -> &'static str {
    for (text, fault) in rows {
        if read(rt, text).err() != Some(*fault) {
            return text;
        }
    }
    "none"
}

const PAIRS: Pairs = &[
    ("+012", "12", true),
    ("-0", "0", true),
    ("-12", "12", false),
    ("12", "120", false),
];

/// The second text of the first pair that doesn't mean what its row says.
fn first_unlike(rt: &HostRuntime, pairs: Pairs) -> &'static str {
    for (one, other, equal) in pairs {
        if are_equal(read(rt, one), read(rt, other)) != Some(*equal) {
            return other;
        }
    }
    "none"
}

#[test]
fn reads_refuses_and_compares(rt: HostRuntime) {
    passes(&rt, first_wrong(&rt, ROWS));
    passes(&rt, first_taken(&rt, REFUSED));
    passes(&rt, first_unlike(&rt, PAIRS));
    let out = appended(&rt, b"(", Whole::read(rt.alloc(), b"-12"));
    assert!(rt; out.as_slice() == b"(-12".as_slice());
}
