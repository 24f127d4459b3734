//! What the first line of a list and its last one say: what is left out, and how much there is. What these functions answer is tested.
use crate::left_out::{AttributeName, GivenTolerance, LeftOut};
use crate::row::{RowForm, Style};
use crate::rows::Rows;
use p21_values::NoMemory;
use std::alloc::Global;

/// What is left out, behind the beginning of the first line.
///
/// # Errors
///
/// Want of memory.
pub(crate) fn words_of(style: &Style<'_>) -> Result<Vec<u8>, NoMemory> {
    match style.form {
        RowForm::Text => text_of(style.alloc, style.left_out),
        RowForm::Json => members_of(style.alloc, style.left_out),
    }
}

/// What is left out, in words.
fn text_of(alloc: Global, left_out: LeftOut<'_>) -> Result<Vec<u8>, NoMemory> {
    let mut words = Vec::new(alloc);
    let mut between = "";
    if left_out.header {
        words.extend_from_slice(b"the header")?;
        between = ", ";
    }
    for name in left_out.attributes {
        words.extend_from_slice(between.as_bytes())?;
        push_name(name, &mut words)?;
        between = ", ";
    }
    if let Some(given) = left_out.tolerance {
        words.extend_from_slice(between.as_bytes())?;
        words.extend_from_slice(b"reals within the tolerance ")?;
        words.extend_from_slice(given.text)?;
    }
    Ok(words)
}

/// What is left out, as members of an object, and the end of the object.
fn members_of(alloc: Global, left_out: LeftOut<'_>) -> Result<Vec<u8>, NoMemory> {
    let mut words = Vec::new(alloc);
    let mut between = "\"ignore\":[";
    if left_out.header {
        words.extend_from_slice(b"\"header\":true")?;
        between = ",\"ignore\":[";
    }
    for name in left_out.attributes {
        words.extend_from_slice(between.as_bytes())?;
        words.push(b'"')?;
        push_name(name, &mut words)?;
        words.push(b'"')?;
        between = ",";
    }
    if !left_out.attributes.is_empty() {
        words.push(b']')?;
    }
    if let Some(given) = left_out.tolerance {
        if !words.is_empty() {
            words.push(b',')?;
        }
        push_tolerance(given, &mut words)?;
    }
    words.push(b'}')?;
    Ok(words)
}

/// Appends a tolerance as a member of an object.
fn push_tolerance(given: GivenTolerance<'_>, words: &mut Vec<u8>) -> Result<(), NoMemory> {
    words.extend_from_slice(b"\"tolerance\":\"")?;
    words.extend_from_slice(given.text)?;
    words.push(b'"')?;
    Ok(())
}

/// Appends the name of an attribute.
fn push_name(name: &AttributeName<'_>, words: &mut Vec<u8>) -> Result<(), NoMemory> {
    words.extend_from_slice(name.entity)?;
    words.push(b'.')?;
    words.extend_from_slice(name.attribute)?;
    Ok(())
}

/// How many rows there are of each kind, and how many differences were left out: in words where some were, in an object where some could
/// have been, as those within a tolerance in words too.
///
/// # Errors
///
/// Want of memory.
pub(crate) fn counts_of(style: &Style<'_>, rows: &Rows) -> Result<Vec<u8>, NoMemory> {
    match style.form {
        RowForm::Text => text_counts(style, rows),
        RowForm::Json => member_counts(style, rows),
    }
}

/// How much there is, in words.
fn text_counts(style: &Style<'_>, rows: &Rows) -> Result<Vec<u8>, NoMemory> {
    let alloc = style.alloc;
    let (changed, came, went) = (rows.changed, rows.came, rows.went);
    let mut text = Vec::new(alloc);
    let counts = format!(in alloc; "{changed} changed, {came} came, {went} went")?;
    text.extend_from_slice(counts.as_bytes())?;
    push_left_out(alloc, rows.in_header, "in the header", &mut text)?;
    push_left_out(alloc, rows.ignored, "at ignored attributes", &mut text)?;
    if let Some(given) = style.left_out.tolerance {
        push_near(alloc, rows.near, given, &mut text)?;
    }
    Ok(text)
}

/// Appends how many values were within a tolerance.
fn push_near(
    alloc: Global,
    number: u64,
    given: GivenTolerance<'_>,
    text: &mut Vec<u8>,
) -> Result<(), NoMemory> {
    let count = match number {
        1 => format!(in alloc; "; 1 value within the tolerance ")?,
        _ => format!(in alloc; "; {number} values within the tolerance ")?,
    };
    text.extend_from_slice(count.as_bytes())?;
    text.extend_from_slice(given.text)?;
    text.extend_from_slice(b" not listed")?;
    Ok(())
}

/// Appends how many differences were left out somewhere, if some were.
fn push_left_out(
    alloc: Global,
    number: u64,
    place: &str,
    text: &mut Vec<u8>,
) -> Result<(), NoMemory> {
    let count = match number {
        0 => return Ok(()),
        1 => format!(in alloc; "; 1 difference {place} not listed")?,
        _ => format!(in alloc; "; {number} differences {place} not listed")?,
    };
    text.extend_from_slice(count.as_bytes())?;
    Ok(())
}

/// How much there is, as members of an object, and the end of the object.
fn member_counts(style: &Style<'_>, rows: &Rows) -> Result<Vec<u8>, NoMemory> {
    let (changed, came, went) = (rows.changed, rows.came, rows.went);
    let mut text = Vec::new(style.alloc);
    let counts = format!(in style.alloc; "\"changed\":{changed},\"came\":{came},\"went\":{went}")?;
    text.extend_from_slice(counts.as_bytes())?;
    if style.left_out.header {
        let count = format!(in style.alloc; ",\"in_header\":{}", rows.in_header)?;
        text.extend_from_slice(count.as_bytes())?;
    }
    if !style.left_out.attributes.is_empty() {
        let (ignored, in_header) = (rows.ignored, rows.ignored_in_header);
        let count = format!(in style.alloc;
            ",\"ignored\":{ignored},\"ignored_in_header\":{in_header}"
        )?;
        text.extend_from_slice(count.as_bytes())?;
    }
    if let Some(given) = style.left_out.tolerance {
        text.push(b',')?;
        push_tolerance(given, &mut text)?;
        let count = format!(in style.alloc; ",\"near\":{}", rows.near)?;
        text.extend_from_slice(count.as_bytes())?;
    }
    text.push(b'}')?;
    Ok(text)
}
