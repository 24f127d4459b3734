ghost use Rattle.std.specs.List.{AllByRecursion as Each};
ghost use Rattle.std.specs.Prelude.{◌≡◌, ◌↔◌, ◌<◌, ◌≤◌, ◌⊎◌, ℕ, IfOk, IsTrue, length, take, map};
ghost use Rattle.p21_spec_schema.specs.Express.{IsIdentifierByte, upper};
ghost use Rattle.p21_spec_schema.specs.SchemaName.{NamesSchema};
ghost use Rattle.p21_stream_syntax.specs.Prefix.{IsLongestPrefix};

use p21_values::NoMemory;
use std::alloc::Global;

/// Whether a text names a schema: the longest prefix of letters, digits and `_` is its name, without case.
pub(crate) fn names_schema(text: &[char], name: &[u8]) -> bool
    ensures { IsTrue result ↔ NamesSchema text.now name.now }
{
    let end = prefix_length(text);
    is_upper_case_of(name, &text[..end])
}

/// The name with which a text begins, in upper case: the longest prefix of letters, digits and `_`.
///
/// # Errors
///
/// `NoMemory`.
pub(crate) fn schema_name(alloc: Global, text: &[char]) -> Result<Vec<u8>, NoMemory>
    ensures { IfOk result (λ name. NamesSchema text.now name.items) }
{
    let end = prefix_length(text);
    upper_case_of(alloc, &text[..end])
}

/// The length of the longest prefix of letters, digits and `_`.
fn prefix_length(text: &[char]) -> usize
    ensures longest { IsLongestPrefix text.now result }
    ensures within { result ≤ length text.now }
{
    for (place, character) in text.iter().enumerate() {
        if !is_identifier_character(*character) {
            return place;
        }
    }
    text.len()
}

/// Whether the bytes are these characters in upper case.
fn is_upper_case_of(bytes: &[u8], characters: &[char]) -> bool
    ensures { IsTrue result ↔ (map upper characters.now ≡ bytes.now) }
{
    if characters.len() != bytes.len() {
        return false;
    }
    for (place, character) in characters.iter().enumerate() {
        if upper(*character) != u32::from(bytes[place]) {
            return false;
        }
    }
    true
}

/// Letters, digits and `_` in upper case.
fn upper_case_of(alloc: Global, characters: &[char]) -> Result<Vec<u8>, NoMemory>
    requires { Each IsIdentifierByte characters.now }
    ensures { IfOk result (λ bytes. bytes.items ≡ map upper characters.now) }
{
    let mut bytes = Vec::with_capacity(alloc, characters.len())?;
    for character in characters {
        bytes.push(upper(*character) as u8)?;
    }
    Ok(bytes)
}

/// Whether a character is a letter, a digit or `_`.
fn is_identifier_character(character: char) -> bool
    ensures { IsTrue result ↔ IsIdentifierByte character }
{
    let code = character as u32;
    (65 <= code && code <= 90)
        || (97 <= code && code <= 122)
        || (48 <= code && code <= 57)
        || code == 95
}

/// A letter in upper case; any other character as it is.
fn upper(character: char) -> u32
    ensures { result ≡ upper character }
{
    let code = character as u32;
    if 97 <= code && code <= 122 {
        code - 32
    } else {
        code
    }
}
