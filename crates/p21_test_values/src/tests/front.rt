use super::{passes, spelled};
use p21_values::{Number, read_number};

/// How many bytes the number at the front has, and its canonical spelling: none where there is none, or no memory.
fn front(rt: &HostRuntime, bytes: &[u8]) -> (usize, Vec<u8>) {
    match read_number(rt.alloc(), bytes) {
        None => (0, Vec::new(rt.alloc())),
        Some(Err(_no_memory)) => (0, Vec::new(rt.alloc())),
        Some(Ok((count, Number::Whole(whole)))) => (count, spelled(rt, Ok(whole))),
        Some(Ok((count, Number::Real(real)))) => (count, spelled(rt, Ok(real))),
    }
}

/// Texts with how many bytes of each are a number, and its spelling.
type Fronts = &'static [(&'static str, usize, &'static str)];

const ROWS: Fronts = &[
    ("0.)", 2, "0."),
    ("1.5,2.5", 3, "1.5"),
    ("-012.500", 8, "-1.25E1"),
    ("+0.00250)", 8, "2.5E-3"),
    ("1.e5", 2, "1."),
    ("-0017,1", 5, "-17"),
    ("+1.25E+03)", 9, "1.25E3"),
    ("1.E-0000000001E", 14, "1.E-1"),
    (
        "12345678901234567890.12345678900,",
        32,
        "1.2345678901234567890123456789E19",
    ),
    ("", 0, ""),
    ("A", 0, ""),
    (".5", 0, ""),
    ("+.5", 0, ""),
    ("-", 0, ""),
    ("1.E,", 2, "1."),
    ("1.5E+)", 3, "1.5"),
    ("1.E9999999999,", 0, ""),
    ("10.E9999,", 0, ""),
];

fn first_wrong(rt: &HostRuntime, rows: Fronts) -> &'static str {
    for (text, count, spelling) in rows {
        let (found, number) = front(rt, text.as_bytes());
        if found != *count || number.as_slice() != spelling.as_bytes() {
            return text;
        }
    }
    "none"
}

/// How many bytes are a number at the front of a 1 with zeros behind it, so many digits in all, and a point: none for want of
/// memory.
fn front_of_digits(rt: &HostRuntime, digits: usize) -> Option<usize> {
    let mut text = Vec::new(rt.alloc());
    if text.push(b'1').is_err()
        || text.resize(digits, b'0').is_err()
        || text.extend_from_slice(b".)").is_err()
    {
        return None;
    }
    Some(front(rt, &text).0)
}

#[test]
fn reads_the_front(rt: HostRuntime) {
    passes(&rt, first_wrong(&rt, ROWS));
    assert!(rt; front_of_digits(&rt, 10_000) == Some(10_001));
    assert!(rt; front_of_digits(&rt, 10_001) == Some(0));
}
