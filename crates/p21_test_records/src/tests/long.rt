use super::schemas::{DEMO, KINDS, REDECL};
use super::*;
use std::alloc::AllocError;

/// Texts one behind the other, each so many times.
pub(super) type Pieces = &'static [(&'static str, u32)];

fn push_pieces(out: &mut String, pieces: Pieces) -> Result<(), AllocError> {
    for (text, count) in pieces {
        push_many(out, text, *count)?;
    }
    Ok(())
}

fn push_many(out: &mut String, text: &str, count: u32) -> Result<(), AllocError> {
    for _ in 0..count {
        out.push_str(text)?;
    }
    Ok(())
}

fn joined(alloc: Global, pieces: Pieces) -> Option<String> {
    let mut out = String::new(alloc);
    match push_pieces(&mut out, pieces) {
        Ok(()) => Some(out),
        Err(_) => None,
    }
}

/// By its name: an instance, with the canonical statement, or the refusal of its record.
pub(super) type LongRows = &'static [(&'static str, Pieces, Pieces)];

/// Whether such a row holds.
fn holds_long(alloc: Global, schema: &Schema, text: Pieces, wanted: Pieces) -> bool {
    match joined(alloc, text) {
        Some(text) => holds_joined(alloc, schema, text.as_bytes(), wanted),
        None => false,
    }
}

fn holds_joined(alloc: Global, schema: &Schema, text: &[u8], wanted: Pieces) -> bool {
    match joined(alloc, wanted) {
        Some(wanted) => holds(alloc, schema, text, wanted.as_bytes()),
        None => false,
    }
}

/// The name of the first row that doesn't hold.
pub(super) fn first_wrong_long(alloc: Global, schema: &Schema, rows: LongRows) -> &'static str {
    for (name, text, wanted) in rows {
        if !holds_long(alloc, schema, text, wanted) {
            return name;
        }
    }
    "none"
}

const NUMBERS: LongRows = &[
    (
        "10,000 digits at a NUMBER",
        &[("#1=R(1", 1), ("0", 9_999), (");", 1)],
        &[("#1=R(1.E9999);", 1)],
    ),
    (
        "10,001 digits at a NUMBER",
        &[("#1=R(1", 1), ("0", 10_000), (");", 1)],
        &[("8 NumberRange", 1)],
    ),
    (
        "zeros at a NUMBER",
        &[("#1=R(-0", 1), ("0", 10_000), (");", 1)],
        &[("#1=R(0.);", 1)],
    ),
    (
        "10,001 digits at a REAL",
        &[("#1=B(1", 1), ("0", 10_000), (");", 1)],
        &[("49 WrongKind", 1)],
    ),
];

#[test]
fn reads_long_numbers(rt: HostRuntime) {
    check(&rt, rt.alloc(), REDECL, Table::Long(NUMBERS));
}

const TEXTS: LongRows = &[
    (
        "no character",
        &[("#1=OF_STRING('');", 1)],
        &[("#1=OF_STRING('');", 1)],
    ),
    (
        "1,000,000 characters",
        &[("#1=OF_STRING('", 1), ("a", 1_000_000), ("');", 1)],
        &[("#1=OF_STRING('", 1), ("a", 1_000_000), ("');", 1)],
    ),
];

#[test]
fn keeps_long_texts(rt: HostRuntime) {
    check(&rt, rt.alloc(), KINDS, Table::Long(TEXTS));
}

/// Lists at a place for a real, one in another.
const LISTS: LongRows = &[(
    "64 lists",
    &[("#1=POINT($,", 1), ("(", 64), (")", 64), (",1.);", 1)],
    &[("49 WrongKind", 1)],
)];

#[test]
fn refuses_deep_lists(rt: HostRuntime) {
    check(&rt, rt.alloc(), DEMO, Table::Long(LISTS));
}

fn push_members(out: &mut String, last: &str) -> Result<(), AllocError> {
    out.push_str("#1=CLOUD((#2")?;
    for name in 3..2002 {
        write!(out, ",#{name}")?;
    }
    out.push_str(last)?;
    out.push_str("),(),(TALLY(1)));")
}

/// `#1`, with the points `#2` to `#2001` as its members, and one more.
fn many_members(alloc: Global, last: &str) -> Option<String> {
    let mut out = String::new(alloc);
    match push_members(&mut out, last) {
        Ok(()) => Some(out),
        Err(_) => None,
    }
}

/// Whether the canonical statement of an instance has so many bytes and begins so.
fn is_written(
    alloc: Global,
    schema: &Schema,
    instance: &Instance,
    len: usize,
    front: &str,
) -> bool {
    let mut out = Vec::new(alloc);
    append_statement(alloc, schema, instance, &mut out).is_ok()
        && out.len() == len
        && out.starts_with(front.as_bytes())
}

fn is_sorted(alloc: Global, schema: &Schema, text: &[u8], front: &str) -> bool {
    match read_instance(alloc, text) {
        Some(instance) => is_written(alloc, schema, &instance, text.len(), front),
        None => false,
    }
}

/// What the canonical statement of many members should begin with, where it doesn't or has another length.
pub(super) fn unsorted(alloc: Global, schema: &Schema, front: &'static str) -> &'static str {
    match many_members(alloc, "") {
        Some(text) => {
            if is_sorted(alloc, schema, text.as_bytes(), front) {
                "none"
            } else {
                front
            }
        }
        None => front,
    }
}

#[test]
fn sorts_many_members(rt: HostRuntime) {
    check(
        &rt,
        rt.alloc(),
        DEMO,
        Table::Members("#1=CLOUD((#10,#100,#1000,#1001,"),
    );
}

/// The member that stands there already, where it isn't refused behind the others.
pub(super) fn taken(alloc: Global, schema: &Schema, last: &'static str) -> &'static str {
    match many_members(alloc, last) {
        Some(text) => {
            if holds(alloc, schema, text.as_bytes(), b"52 NotDistinct") {
                "none"
            } else {
                last
            }
        }
        None => last,
    }
}

#[test]
fn finds_an_equal_one_among_many(rt: HostRuntime) {
    check(&rt, rt.alloc(), DEMO, Table::OneMore(",#02"));
}
