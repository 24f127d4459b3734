//! The data sections of two files, which rise by the spellings of their names.
use crate::lines::{Lines, split_line};
use p21_model_values::Elements;

/// What changed about a data section, by the line with which it begins.
#[derive(Clone, Copy)]
pub enum SectionChange<'a> {
    /// Only the second file has it.
    Came(&'a [u8]),
    /// Only the first one has.
    Went(&'a [u8]),
}

/// The data sections of two files, of which some have been compared.
#[derive(Clone, Copy)]
pub struct SectionChanges<'a> {
    pub(crate) first: Lines<'a>,
    pub(crate) second: Lines<'a>,
}

impl<'a> SectionChanges<'a> {
    /// The next data section that one of the files has alone. It takes no memory.
    pub fn next(&mut self) -> Option<SectionChange<'a>> {
        for _ in 0..u64::MAX {
            let mut first = self.first;
            let mut second = self.second;
            match (first.next(), second.next()) {
                (Some(went), Some(came)) => {
                    if went == came {
                        self.first = first;
                        self.second = second;
                    } else if name_in(went) <= name_in(came) {
                        self.first = first;
                        return Some(SectionChange::Went(went));
                    } else {
                        self.second = second;
                        return Some(SectionChange::Came(came));
                    }
                }
                (Some(went), None) => {
                    self.first = first;
                    return Some(SectionChange::Went(went));
                }
                (None, Some(came)) => {
                    self.second = second;
                    return Some(SectionChange::Came(came));
                }
                (None, None) => return None,
            }
        }
        None
    }
}

/// The spelling of the name of a data section; nothing where it has none.
fn name_in(line: &[u8]) -> &[u8] {
    let (_, rest) = split_line(line);
    let mut parameters = Elements { rest };
    match parameters.next() {
        Some(name) => name.text,
        None => &[],
    }
}
