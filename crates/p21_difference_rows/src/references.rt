//! References in texts, by the names that instances have in both files. What these functions answer is tested.
//!
//! Where the first file stands under other names than its own, a value shows both: `#17/#5` is the instance that is `#17` in the first
//! file and `#5` in the second, `A#17` one of the first file alone, and `B#9` one of the second. A line of an instance that came or went
//! has the names of its own file.
use crate::names::{push_both_named, real_name};
use crate::narrowing::narrow;
use crate::pushing::push_number;
use crate::row::Style;
use crate::texts::{push_narrowed, push_values};
use p21_model_values::Value;
use p21_values::{Name, NoMemory};
use std::collections::BTreeMap;

/// How the references of a text are shown.
#[derive(Clone, Copy)]
enum Shown {
    /// In a line of the first file: by the names that it really has.
    OfFirst,
    /// In a value of the first file: by those of both.
    InFirst,
    /// In a value of the second file: by those of both.
    InSecond,
}

/// The place in a text: whether it is inside a string, and the digits of a reference so far.
#[derive(Clone, Copy)]
struct Place {
    is_quoted: bool,
    number: Option<u64>,
}

/// Appends where two values of instances differ, and the texts there.
///
/// # Errors
///
/// Want of memory.
pub(crate) fn push_instance_values(
    style: &Style<'_>,
    before: Value<'_>,
    after: Value<'_>,
    rest: &mut Vec<u8>,
) -> Result<(), NoMemory> {
    let Some(names) = style.names else {
        return push_values(style.alloc, style.form, before, after, rest);
    };
    let texts = narrow(style.alloc, before, after)?;
    let first = renamed(style, names, Shown::InFirst, texts.before)?;
    let second = renamed(style, names, Shown::InSecond, texts.after)?;
    push_narrowed(
        style.alloc,
        style.form,
        &texts.indices,
        &first,
        &second,
        rest,
    )
}

/// A line of the first file, by the names that it really has.
///
/// # Errors
///
/// Want of memory.
pub(crate) fn line_of_first(style: &Style<'_>, line: &[u8]) -> Result<Vec<u8>, NoMemory> {
    match style.names {
        Some(names) => renamed(style, names, Shown::OfFirst, line),
        None => Ok(Vec::from_slice(style.alloc, line)?),
    }
}

/// A text with other names in its references.
fn renamed(
    style: &Style<'_>,
    names: &BTreeMap<u64, u64>,
    shown: Shown,
    text: &[u8],
) -> Result<Vec<u8>, NoMemory> {
    let mut made = Vec::new(style.alloc);
    let mut place = Place {
        is_quoted: false,
        number: None,
    };
    for byte in text {
        place = push_byte(style, names, shown, place, *byte, &mut made)?;
    }
    end_reference(style, names, shown, place.number, &mut made)?;
    Ok(made)
}

/// Appends a byte, or takes it for one of a reference; answers the place behind it.
fn push_byte(
    style: &Style<'_>,
    names: &BTreeMap<u64, u64>,
    shown: Shown,
    place: Place,
    byte: u8,
    made: &mut Vec<u8>,
) -> Result<Place, NoMemory> {
    if let Some(number) = place.number {
        if byte.is_ascii_digit() {
            let digit = u64::from(byte - b'0');
            return Ok(Place {
                is_quoted: false,
                number: Some(number.saturating_mul(10).saturating_add(digit)),
            });
        }
    }
    end_reference(style, names, shown, place.number, made)?;
    if byte == b'#' && !place.is_quoted {
        return Ok(Place {
            is_quoted: false,
            number: Some(0),
        });
    }
    made.push(byte)?;
    Ok(Place {
        is_quoted: place.is_quoted != (byte == b'\''),
        number: None,
    })
}

/// Appends the reference that ends here, if one does.
fn end_reference(
    style: &Style<'_>,
    names: &BTreeMap<u64, u64>,
    shown: Shown,
    number: Option<u64>,
    made: &mut Vec<u8>,
) -> Result<(), NoMemory> {
    let Some(name) = number else {
        return Ok(());
    };
    let real = real_name(Some(names), name);
    let (letter, is_of_one) = match shown {
        Shown::OfFirst => ("", true),
        Shown::InFirst => ("A", style.second.line(Name(name)).is_none()),
        Shown::InSecond => ("B", !names.contains_key(&name)),
    };
    if is_of_one {
        made.extend_from_slice(letter.as_bytes())?;
        made.push(b'#')?;
        return push_number(style.alloc, real, made);
    }
    push_both_named(style.alloc, b"#", real, name, b"", made)
}
