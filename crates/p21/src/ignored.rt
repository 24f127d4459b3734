//! The attributes that the command line tells `diff` to leave out.
//!
//! A word that names no attribute is refused with status 1, as a name is that the schema doesn't have: either leaves out nothing, and
//! nobody would see it. It isn't a wrong command line, since a command over files answers 2 only where `clap` finds a mistake
//! (`IsOfWords`), and `clap` takes any word here. The names of header records aren't looked up: a file may have records of its own.
use crate::shown::Shown;
use clap::ArgMatches;
use p21_commands::{AttributeName, CommandFault};
use std::alloc::{AllocError, Global};

/// What stands behind each `--ignore`, in upper case; or the fault that one of these names no attribute.
pub(crate) fn words_given(
    alloc: Global,
    found: &ArgMatches<'_>,
) -> Result<Vec<String>, CommandFault> {
    let mut words = Vec::new(alloc);
    if let Some(given) = found.get_strs("ignore") {
        for word in given {
            if name_in(word).is_none() {
                return Err(misnamed(alloc, word));
            }
            words.push(word.to_ascii_uppercase(alloc)?)?;
        }
    }
    Ok(words)
}

/// The names of attributes in these words.
pub(crate) fn names_in<'a>(
    alloc: Global,
    words: &'a [String],
) -> Result<Vec<AttributeName<'a>>, AllocError> {
    let mut names = Vec::new(alloc);
    for word in words {
        if let Some(name) = name_in(word) {
            names.push(name)?;
        }
    }
    Ok(names)
}

/// The name of an attribute in `ENTITY.ATTRIBUTE`, where both are letters, digits and `_`. In front of the keyword of a header record that
/// isn't one of the standard stands `!`.
fn name_in(word: &str) -> Option<AttributeName<'_>> {
    let (entity, attribute) = word.split_once('.')?;
    let keyword = entity.strip_prefix('!').unwrap_or(entity);
    if !is_word(keyword) || !is_word(attribute) {
        return None;
    }
    Some(AttributeName {
        entity: entity.as_bytes(),
        attribute: attribute.as_bytes(),
    })
}

/// Whether these are letters, digits and `_`, one at least.
fn is_word(text: &str) -> bool {
    for byte in text.as_bytes() {
        if !byte.is_ascii_alphanumeric() && *byte != b'_' {
            return false;
        }
    }
    !text.is_empty()
}

/// The refusal of a word that names no attribute.
fn misnamed(alloc: Global, word: &str) -> CommandFault {
    let word = Shown(word);
    match format!(in alloc; "--ignore {word}: an attribute is named as ENTITY.ATTRIBUTE\n") {
        Ok(line) => CommandFault::Refused(line),
        Err(AllocError) => CommandFault::NoMemory,
    }
}
