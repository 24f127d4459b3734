//! Texts behind others.
ghost use Rattle.std.specs.Prelude.{◌≡◌, ◌++◌, OnOk, decimal};
ghost use Rattle.p21_difference_rows.specs.Fronts.{in_both, named};
ghost use Rattle.p21_difference_rows.specs.Steps.{AddsRest, AddsText};

use p21_values::NoMemory;
use std::alloc::Global;

/// Appends bytes.
pub(crate) fn push(bytes: &[u8], text: &mut Vec<u8>) -> Result<(), NoMemory>
    ensures { OnOk result (text.new.items ≡ text.old.items ++ bytes.now) }
{
    text.extend_from_slice(bytes)?;
    Ok(())
}

/// Appends a number.
pub(crate) fn push_number(alloc: Global, number: u64, text: &mut Vec<u8>) -> Result<(), NoMemory>
    ensures { OnOk result (text.new.items ≡ text.old.items ++ decimal number) }
{
    let digits = format!(in alloc; "{number}")?;
    push(digits.as_bytes(), text)
}

/// Appends a text, the number of a name, and a text.
pub(crate) fn push_named(
    alloc: Global,
    before: &[u8],
    name: u64,
    behind: &[u8],
    text: &mut Vec<u8>,
) -> Result<(), NoMemory>
    ensures { OnOk result (text.new.items ≡ text.old.items ++ named before.now name behind.now) }
{
    push(before, text)?;
    push_number(alloc, name, text)?;
    push(behind, text)
}

/// Appends a text, the names that an instance has in both files as members of an object, and a text.
pub(crate) fn push_in_both(
    alloc: Global,
    before: &[u8],
    real: u64,
    name: u64,
    behind: &[u8],
    text: &mut Vec<u8>,
) -> Result<(), NoMemory>
    ensures { OnOk result (text.new.items ≡ text.old.items ++ in_both before.now real name behind.now) }
{
    push(before, text)?;
    push_named(alloc, b"\"a\":", real, b",\"b\":", text)?;
    push_number(alloc, name, text)?;
    push(behind, text)
}

/// Appends the rest of a row and the line feed that ends it. A line feed in it would begin another row, so none is taken over.
pub(crate) fn push_rest(rest: &[u8], text: &mut Vec<u8>) -> Result<(), NoMemory>
    ensures { OnOk result (AddsRest text.old.items text.new.items) }
{
    for byte in rest {
        push_within(*byte, text)?;
    }
    text.push(b'\n')?;
    Ok(())
}

/// Appends a byte, but no line feed.
fn push_within(byte: u8, text: &mut Vec<u8>) -> Result<(), NoMemory>
    ensures { OnOk result (AddsText text.old.items text.new.items) }
{
    if byte == b'\n' {
        return Ok(());
    }
    text.push(byte)?;
    Ok(())
}
