//! As much as may be, and one more.
use super::{refusal_of, repeated};
use p21_express_lexemes::SyntaxFault;
use p21_express_syntax::{Declarations, read_declarations};
use std::alloc::Global;

/// What a text is refused with that has a part so many times over.
fn refusal(
    alloc: Global,
    front: &str,
    part: &str,
    count: usize,
    rest: &str,
) -> Option<SyntaxFault> {
    match repeated(alloc, front, part, count, rest) {
        Ok(text) => refusal_of(alloc, &text),
        Err(fault) => Some(fault),
    }
}

/// What stands before a part and behind it, the part, and how many times over it may stand there.
type Parts = &'static [(&'static str, &'static str, &'static str, usize)];

/// What stands before and behind the first part that may stand there less often or more often, and the part.
fn first_wrong(alloc: Global, rows: Parts) -> Option<(&'static str, &'static str, &'static str)> {
    for (front, rest, part, most) in rows {
        if refusal(alloc, front, part, *most, rest).is_some()
            || refusal(alloc, front, part, most.saturating_add(1), rest)
                != Some(SyntaxFault::TooLarge)
        {
            return Some((front, rest, part));
        }
    }
    None
}

const TYPE: &str = "SCHEMA s; TYPE t = ";

const REAL: &str = "REAL; END_TYPE; END_SCHEMA;";

const OPTIONAL: &str = "SCHEMA s; ENTITY e; x : OPTIONAL ";

const ENTITY: &str = "e; END_ENTITY; END_SCHEMA;";

/// Aggregate types, one in another, in a declared type and in an attribute.
const AGGREGATES: Parts = &[
    (TYPE, REAL, "LIST OF ", 32),
    (TYPE, REAL, "LIST [0:1] OF UNIQUE ", 32),
    (TYPE, REAL, "SET [0:?] OF ", 32),
    (TYPE, REAL, "BAG OF ", 32),
    (TYPE, REAL, "ARRAY [1:2] OF OPTIONAL UNIQUE ", 32),
    (OPTIONAL, ENTITY, "LIST OF ", 32),
    (OPTIONAL, ENTITY, "LIST [0:1] OF UNIQUE ", 32),
    (OPTIONAL, ENTITY, "SET [0:?] OF ", 32),
    (OPTIONAL, ENTITY, "BAG OF ", 32),
    (OPTIONAL, ENTITY, "ARRAY [1:2] OF OPTIONAL UNIQUE ", 32),
];

#[test]
fn nests_32_aggregates_of_each_kind(rt: HostRuntime) {
    assert_eq!(rt; first_wrong(rt.alloc(), AGGREGATES), None);
}

const RULE: &str = "SCHEMA s; RULE r; END_RULE;";

const LAST_RULE: &str = "RULE r; END_RULE; END_SCHEMA;";

const DECLARATIONS: Parts = &[
    (RULE, LAST_RULE, "ENTITY e; END_ENTITY; ", 65_535),
    (RULE, LAST_RULE, "TYPE t = REAL; END_TYPE; ", 65_535),
];

#[test]
fn counts_declarations_of_one_kind(rt: HostRuntime) {
    assert_eq!(rt; first_wrong(rt.alloc(), DECLARATIONS), None);
}

/// How many entities and how many types are read, or the refusal.
type Counts = Result<(usize, usize), SyntaxFault>;

fn counts_of(alloc: Global, text: &[u8]) -> Counts {
    let declarations = read_declarations(alloc, text)?;
    Ok((declarations.entities.len(), declarations.types.len()))
}

/// What stands before a part, the part, how many times over it stands there, what stands behind it, and what is read then.
type Large = &'static [(&'static str, &'static str, usize, &'static str, Counts)];

const BOTH: &str = "ENTITY e; END_ENTITY; TYPE t = REAL; END_TYPE; ";

const LARGE: Large = &[
    // the deepest type, and one that is too deep at its first word
    (TYPE, "LIST OF ", 32, REAL, Ok((0, 1))),
    (
        TYPE,
        "LIST OF ",
        32,
        "BAG [x END_SCHEMA;",
        Err(SyntaxFault::TooLarge),
    ),
    // the most entities and types together, and one more
    (
        "SCHEMA s; ",
        BOTH,
        32_767,
        "ENTITY e; END_ENTITY; RULE r; END_RULE; END_SCHEMA;",
        Ok((32_768, 32_767)),
    ),
    (
        "SCHEMA s; ",
        BOTH,
        32_767,
        "ENTITY e; END_ENTITY; RULE r; END_RULE; TYPE ; END_SCHEMA;",
        Err(SyntaxFault::TooLarge),
    ),
    // the longest text, and a longer one
    ("SCHEMA s; END_SCHEMA;", " ", 16_777_195, "", Ok((0, 0))),
    (
        "SCHEMA s; END_SCHEMA;",
        " ",
        16_777_195,
        "'",
        Err(SyntaxFault::TooLarge),
    ),
];

fn repeated_counts(alloc: Global, front: &str, part: &str, count: usize, rest: &str) -> Counts {
    match repeated(alloc, front, part, count, rest) {
        Ok(text) => counts_of(alloc, &text),
        Err(fault) => Err(fault),
    }
}

/// The part and the end of the first text of which something else is read.
fn first_wrong_count(alloc: Global) -> Option<(&'static str, &'static str)> {
    for (front, part, count, rest, counts) in LARGE {
        if repeated_counts(alloc, front, part, *count, rest) != *counts {
            return Some((part, rest));
        }
    }
    None
}

#[test]
fn reads_texts_up_to_the_limits(rt: HostRuntime) {
    assert_eq!(rt; first_wrong_count(rt.alloc()), None);
}

fn has_bytes(bytes: &[u8], byte: u8, count: usize) -> bool {
    for other in bytes {
        if *other != byte {
            return false;
        }
    }
    bytes.len() == count
}

/// Whether the name of the first entity is of so many Z.
fn begins_with_name(declarations: &Declarations, length: usize) -> bool {
    match declarations.entities.get(0) {
        Some(entity) => has_bytes(entity.name.bytes(), b'Z', length),
        None => false,
    }
}

fn has_name(alloc: Global, text: &[u8], length: usize) -> bool {
    match read_declarations(alloc, text) {
        Ok(declarations) => begins_with_name(&declarations, length),
        Err(_) => false,
    }
}

fn keeps_name(alloc: Global, length: usize) -> bool {
    match repeated(
        alloc,
        "SCHEMA s; ENTITY ",
        "z",
        length,
        "; END_ENTITY; END_SCHEMA;",
    ) {
        Ok(text) => has_name(alloc, &text, length),
        Err(_) => false,
    }
}

/// Lengths around the one up to which names take no memory, and a long one.
const LENGTHS: &[usize] = &[1, 23, 24, 25, 26, 300];

/// The first length of which a name is lost.
fn first_lost(alloc: Global) -> Option<usize> {
    for length in LENGTHS {
        if !keeps_name(alloc, *length) {
            return Some(*length);
        }
    }
    None
}

#[test]
fn keeps_names_of_any_length(rt: HostRuntime) {
    assert_eq!(rt; first_lost(rt.alloc()), None);
}
