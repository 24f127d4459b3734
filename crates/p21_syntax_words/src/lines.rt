//! Lines of texts.
ghost use Rattle.std.specs.Prelude.{◌≡◌, ◌++◌, OnOk};
ghost use Rattle.std.specs.List.{flat_map};
ghost use Rattle.p21_syntax_words.specs.HeaderText.{is_hidden, shown_character, text_behind, text_line};

use p21_values::{NoMemory, short_directive};

/// Appends the line of a text behind a word.
pub(crate) fn push_line(out: &mut Vec<u8>, word: &str, characters: &[char]) -> Result<(), NoMemory>
    ensures { OnOk result (out.new.items ≡ out.old.items ++ text_line word.now characters.now) }
{
    out.extend_from_slice(word.as_bytes())?;
    out.push(b':')?;
    push_behind(out, characters)?;
    out.push(b'\n')?;
    Ok(())
}

/// Appends the characters of a text, behind a blank where there are any.
fn push_behind(out: &mut Vec<u8>, characters: &[char]) -> Result<(), NoMemory>
    ensures { OnOk result (out.new.items ≡ out.old.items ++ text_behind characters.now) }
{
    if characters.is_empty() {
        return Ok(());
    }
    out.push(b' ')?;
    push_shown(out, characters)
}

/// Appends characters as they are shown.
fn push_shown(out: &mut Vec<u8>, characters: &[char]) -> Result<(), NoMemory>
    ensures { OnOk result (out.new.items ≡ out.old.items ++ flat_map shown_character characters.now) }
{
    for character in characters {
        push_character(out, *character)?;
    }
    Ok(())
}

/// Appends a character in UTF-8, or its directive where a line or a terminal would not show it.
fn push_character(out: &mut Vec<u8>, character: char) -> Result<(), NoMemory>
    ensures { OnOk result (out.new.items ≡ out.old.items ++ shown_character character) }
{
    if is_hidden(character) {
        out.extend_from_slice(&short_directive(u32::from(character)))?;
        return Ok(());
    }
    let mut buffer = [0; 4];
    let text = character.encode_utf8(&mut buffer);
    out.extend_from_slice(text.as_bytes())?;
    Ok(())
}

/// Whether a character is a control character, ends a line, or turns the direction of the others.
fn is_hidden(character: char) -> bool
    ensures { result ≡ is_hidden character }
{
    let code = u32::from(character);
    code < 0x20
        || (0x7f <= code && code < 0xa0)
        || code == 0x61c
        || (0x200e <= code && code <= 0x200f)
        || (0x2028 <= code && code <= 0x202e)
        || (0x2066 <= code && code <= 0x2069)
}
