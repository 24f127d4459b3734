//! What stands behind the beginnings of rows. What these functions append is tested.
use crate::narrowing::narrow;
use crate::row::RowForm;
use p21_model_values::Value;
use p21_values::NoMemory;
use std::alloc::Global;

/// The characters of a value that stand in a line for people, where it is longer.
const MOST_SHOWN: usize = 100;

/// Appends the texts of both files, where they have one, and the end of an object.
///
/// # Errors
///
/// Want of memory.
pub(crate) fn push_both(
    form: RowForm,
    before: Option<&[u8]>,
    after: Option<&[u8]>,
    rest: &mut Vec<u8>,
) -> Result<(), NoMemory> {
    match form {
        RowForm::Text => push_shown_both(before, after, b" ", rest),
        RowForm::Json => push_members(before, after, rest),
    }
}

/// Appends where two values differ, and the texts there.
///
/// # Errors
///
/// Want of memory.
pub(crate) fn push_values(
    alloc: Global,
    form: RowForm,
    before: Value<'_>,
    after: Value<'_>,
    rest: &mut Vec<u8>,
) -> Result<(), NoMemory> {
    let texts = narrow(alloc, before, after)?;
    push_narrowed(alloc, form, &texts.indices, texts.before, texts.after, rest)
}

/// Appends the way to the place where two values differ, and the texts there.
///
/// # Errors
///
/// Want of memory.
pub(crate) fn push_narrowed(
    alloc: Global,
    form: RowForm,
    indices: &[u64],
    before: &[u8],
    after: &[u8],
    rest: &mut Vec<u8>,
) -> Result<(), NoMemory> {
    push_way(alloc, form, indices, rest)?;
    push_both(form, Some(before), Some(after), rest)
}

/// Appends the indices of an element, if there are some.
fn push_way(
    alloc: Global,
    form: RowForm,
    indices: &[u64],
    rest: &mut Vec<u8>,
) -> Result<(), NoMemory> {
    let (front, behind) = match form {
        RowForm::Text => ("[", "] "),
        RowForm::Json => ("\"indices\":[", "],"),
    };
    let mut sign = front;
    for index in indices {
        let text = format!(in alloc; "{sign}{index}")?;
        rest.extend_from_slice(text.as_bytes())?;
        sign = ",";
    }
    if !indices.is_empty() {
        rest.extend_from_slice(behind.as_bytes())?;
    }
    Ok(())
}

/// Appends the texts of both files for people, with a text between them.
///
/// # Errors
///
/// Want of memory.
pub(crate) fn push_shown_both(
    before: Option<&[u8]>,
    after: Option<&[u8]>,
    between: &[u8],
    rest: &mut Vec<u8>,
) -> Result<(), NoMemory> {
    let (Some(first), Some(second)) = (before, after) else {
        return push_shown(before.or(after).unwrap_or_default(), 0, rest);
    };
    let at = common(first, second);
    push_shown(first, at, rest)?;
    rest.extend_from_slice(between)?;
    push_shown(second, at, rest)
}

/// How many bytes two texts begin alike.
fn common(one: &[u8], other: &[u8]) -> usize {
    let least = one.len().min(other.len());
    for at in 0..least {
        if one[at] != other[at] {
            return at;
        }
    }
    least
}

/// Appends a text, or what stands around a place of it; `..` stands for what is left out, and `-` for an element that isn't there.
fn push_shown(text: &[u8], at: usize, rest: &mut Vec<u8>) -> Result<(), NoMemory> {
    let size = text.len();
    if size == 0 {
        rest.push(b'-')?;
        return Ok(());
    }
    if size <= MOST_SHOWN {
        rest.extend_from_slice(text)?;
        return Ok(());
    }
    let start = at.saturating_sub(MOST_SHOWN / 2).min(size - MOST_SHOWN);
    if start > 0 {
        rest.extend_from_slice(b".. ")?;
    }
    rest.extend_from_slice(&text[start..start + MOST_SHOWN])?;
    if start + MOST_SHOWN < size {
        rest.extend_from_slice(b" ..")?;
    }
    Ok(())
}

/// Appends the texts of both files as members, but for one that is empty, as of an element that isn't there; and the end of the object.
fn push_members(
    before: Option<&[u8]>,
    after: Option<&[u8]>,
    rest: &mut Vec<u8>,
) -> Result<(), NoMemory> {
    let first = before.unwrap_or_default();
    let second = after.unwrap_or_default();
    if !first.is_empty() {
        push_member(b"\"before\":\"", first, rest)?;
    }
    if !first.is_empty() && !second.is_empty() {
        rest.push(b',')?;
    }
    if !second.is_empty() {
        push_member(b"\"after\":\"", second, rest)?;
    }
    rest.push(b'}')?;
    Ok(())
}

/// Appends a member, by what stands before its text, which has printable characters alone.
///
/// # Errors
///
/// Want of memory.
pub(crate) fn push_member(front: &[u8], text: &[u8], rest: &mut Vec<u8>) -> Result<(), NoMemory> {
    rest.extend_from_slice(front)?;
    for byte in text {
        if *byte == b'"' || *byte == b'\\' {
            rest.push(b'\\')?;
        }
        rest.push(*byte)?;
    }
    rest.push(b'"')?;
    Ok(())
}
