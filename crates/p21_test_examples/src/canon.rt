//! A caller of p21_canon that names no other library.
use p21_canon::{NoMemory, Part, Value, same, write_header};
use std::alloc::Global;

/// The canonical text of a header record.
///
/// # Errors
///
/// `NoMemory`.
pub fn header_text(alloc: Global, part: &Part) -> Result<Vec<u8>, NoMemory> {
    let mut text = Vec::new(alloc);
    write_header(part, &mut text)?;
    Ok(text)
}

/// Whether two values are the same. It takes no memory.
pub fn are_same(first: &Value, second: &Value) -> bool {
    same(first, second)
}
