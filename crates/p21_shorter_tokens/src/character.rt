//! Characters of a string in their canonical spellings (ISO 10303-21, clause 6: tokens, string).
ghost use Rattle.p21_spec_exchange.specs.Spelling.{character_spelling};
ghost use Rattle.p21_shorter_tokens.specs.Appending.{AppendsAllOrNone};

use crate::draft::Draft;
use p21_values::{long_directive, short_directive};

/// Appends the canonical spelling of a character; says whether there was room.
pub(crate) fn append_character(character: char, draft: &mut Draft) -> bool
    ensures { AppendsAllOrNone result (character_spelling character) draft.old draft.new }
{
    let code = u32::from(character);
    match character {
        '\'' | '\\' => draft.append(&[code as u8, code as u8]),
        ' '..='~' => draft.put(code as u8),
        '\0'..='\u{FFFF}' => draft.append(&short_directive(code)),
        _ => draft.append(&long_directive(code)),
    }
}
