//! The tolerance that the command line gives `diff`.
//!
//! A word that is no such number is refused with status 1, as a word behind `--ignore` is that names no attribute.
use crate::shown::Shown;
use clap::ArgMatches;
use p21_commands::{CommandFault, GivenTolerance};
use std::alloc::{AllocError, Global};

/// The number behind `--tolerance`, if there is one; or the fault that it is none.
pub(crate) fn tolerance_given<'a>(
    alloc: Global,
    found: &'a ArgMatches<'_>,
) -> Result<Option<GivenTolerance<'a>>, CommandFault> {
    let Some(word) = found.get_str("tolerance") else {
        return Ok(None);
    };
    match GivenTolerance::of(word.as_bytes()) {
        Some(given) => Ok(Some(given)),
        None => Err(misspelled(alloc, word)),
    }
}

/// The refusal of a word that is no number.
fn misspelled(alloc: Global, word: &str) -> CommandFault {
    let word = Shown(word);
    match format!(in alloc; "--tolerance {word}: a tolerance is a number of 0 or more, as 1E-6\n") {
        Ok(line) => CommandFault::Refused(line),
        Err(AllocError) => CommandFault::NoMemory,
    }
}
