mod bits;
mod decimal;
mod fault;
mod front;
mod limits;
mod name;
mod text;
mod tolerance;
mod want_of_memory;
mod whole;
mod word;

use p21_values::{Canonical, ValueFault};
use std::process::Abort;

/// The canonical spelling by itself: nothing where there is no value.
fn spelled<T: Canonical + Drop>(rt: &HostRuntime, value: Result<T, ValueFault>) -> Vec<u8> {
    let mut out = Vec::new(rt.alloc());
    if let Ok(value) = value {
        if value.write_canonical(&mut out).is_err() {
            out.clear();
        }
    }
    out
}

/// What stands there once a value is written behind `before`.
fn appended<T: Canonical + Drop>(
    rt: &HostRuntime,
    before: &[u8],
    value: Result<T, ValueFault>,
) -> Vec<u8> {
    let mut out = Vec::new(rt.alloc());
    if out.extend_from_slice(before).is_ok() {
        if let Ok(value) = value {
            let _ = value.write_canonical(&mut out);
        }
    }
    out
}

/// Whether these bytes are the canonical spelling: they aren't where there is no value.
fn is_spelled<T: Canonical + Drop>(
    rt: &HostRuntime,
    value: Result<T, ValueFault>,
    spelling: &[u8],
) -> bool {
    spelled(rt, value).as_slice() == spelling
}

/// Whether two values mean the same: none where one is no value.
fn are_equal<T: PartialEq + Drop>(
    one: Result<T, ValueFault>,
    other: Result<T, ValueFault>,
) -> Option<bool> {
    let Ok(one) = one else {
        return None;
    };
    let Ok(other) = other else {
        return None;
    };
    Some(one == other)
}

/// Texts with their canonical spellings.
type Spellings = &'static [(&'static str, &'static str)];

/// Pairs of texts, and whether they mean the same.
type Pairs = &'static [(&'static str, &'static str, bool)];

/// Texts with their refusals.
type Refusals = &'static [(&'static str, ValueFault)];

/// Fails where a row is wrong, which this names.
fn passes(rt: &impl Abort, wrong: &str) {
    assert_eq!(*rt; wrong, "none");
}
