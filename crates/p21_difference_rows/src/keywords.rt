//! The keywords of records, by their canonical lines, and the names of what stands in a header. What these answer is tested.
use p21_model_values::Elements;
use p21_scan::scan_keyword;
use p21_values::NoMemory;
use std::alloc::Global;

/// The attributes of the header entities (ISO 10303-21, header section).
const HEADER_ATTRIBUTES: &[(&[u8], u64, &[u8])] = &[
    (b"FILE_DESCRIPTION", 0, b"DESCRIPTION"),
    (b"FILE_DESCRIPTION", 1, b"IMPLEMENTATION_LEVEL"),
    (b"FILE_NAME", 0, b"NAME"),
    (b"FILE_NAME", 1, b"TIME_STAMP"),
    (b"FILE_NAME", 2, b"AUTHOR"),
    (b"FILE_NAME", 3, b"ORGANIZATION"),
    (b"FILE_NAME", 4, b"PREPROCESSOR_VERSION"),
    (b"FILE_NAME", 5, b"ORIGINATING_SYSTEM"),
    (b"FILE_NAME", 6, b"AUTHORIZATION"),
    (b"FILE_SCHEMA", 0, b"SCHEMA_IDENTIFIERS"),
    (b"FILE_POPULATION", 0, b"GOVERNING_SCHEMA"),
    (b"FILE_POPULATION", 1, b"DETERMINATION_METHOD"),
    (b"FILE_POPULATION", 2, b"GOVERNED_SECTIONS"),
    (b"SECTION_LANGUAGE", 0, b"SECTION"),
    (b"SECTION_LANGUAGE", 1, b"DEFAULT_LANGUAGE"),
    (b"SECTION_CONTEXT", 0, b"SECTION"),
    (b"SECTION_CONTEXT", 1, b"CONTEXT_IDENTIFIERS"),
];

/// The name of an attribute of a header entity, by its number from 0 on, if the standard has it.
pub(crate) fn header_attribute(keyword: &[u8], number: u64) -> Option<&'static [u8]> {
    for (entity, index, name) in HEADER_ATTRIBUTES {
        if *entity == keyword && *index == number {
            return Some(name);
        }
    }
    None
}

/// The keyword of a header record.
pub(crate) fn keyword_of(line: &[u8]) -> &[u8] {
    for at in 0..line.len() {
        if line[at] == b'(' {
            return &line[..at];
        }
    }
    line
}

/// Appends the keywords of the record of an instance, with `+` between each two.
///
/// # Errors
///
/// Want of memory.
pub(crate) fn push_keywords(line: &[u8], words: &mut Vec<u8>) -> Result<(), NoMemory> {
    let record = record_of(line);
    let mut rest = match record.split_first() {
        Some((first, behind)) if *first == b'(' => behind,
        _ => record,
    };
    for number in 0..record.len() {
        let Some((word, values)) = scan_keyword(rest) else {
            break;
        };
        if number > 0 {
            words.push(b'+')?;
        }
        words.extend_from_slice(word)?;
        rest = behind_values(values);
    }
    Ok(())
}

/// What stands behind the first `=`.
fn record_of(line: &[u8]) -> &[u8] {
    for at in 0..line.len() {
        if line[at] == b'=' {
            return &line[at + 1..];
        }
    }
    &[]
}

/// What stands behind values in parentheses.
fn behind_values(bytes: &[u8]) -> &[u8] {
    let Some((_, rest)) = bytes.split_first() else {
        return bytes;
    };
    let mut values = Elements { rest };
    for _ in 0..bytes.len() {
        if values.next().is_none() {
            break;
        }
    }
    match values.rest.split_first() {
        Some((_, behind)) => behind,
        None => values.rest,
    }
}
