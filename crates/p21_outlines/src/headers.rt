//! Header records side by side, the first with the first and so on.
use crate::lines::{Lines, split_line};
use p21_model_values::{Elements, Value};

/// What changed about the header record of a number, by its canonical lines.
#[derive(Clone, Copy)]
pub enum RecordChange<'a> {
    /// Only the second header has so many records.
    Came(&'a [u8]),
    /// Only the first one has.
    Went(&'a [u8]),
    /// The keyword, or how many parameters there are.
    Record(&'a [u8], &'a [u8]),
    /// Parameters alone.
    Parameters(&'a [u8], &'a [u8]),
}

/// The header records of two files, of which some have been compared.
#[derive(Clone, Copy)]
pub struct RecordChanges<'a> {
    pub(crate) first: Lines<'a>,
    pub(crate) second: Lines<'a>,
}

impl<'a> RecordChanges<'a> {
    /// What changed about the next record that did. It takes no memory.
    pub fn next(&mut self) -> Option<RecordChange<'a>> {
        for _ in 0..u64::MAX {
            match (self.first.next(), self.second.next()) {
                (Some(first), Some(second)) => {
                    if first != second {
                        return Some(change_of(first, second));
                    }
                }
                (Some(first), None) => return Some(RecordChange::Went(first)),
                (None, Some(second)) => return Some(RecordChange::Came(second)),
                (None, None) => return None,
            }
        }
        None
    }
}

/// What changed from one record to another one.
fn change_of<'a>(first: &'a [u8], second: &'a [u8]) -> RecordChange<'a> {
    let (keyword, parameters) = split_line(first);
    let (other, others) = split_line(second);
    if keyword == other && have_one_count(parameters, others) {
        return RecordChange::Parameters(first, second);
    }
    RecordChange::Record(first, second)
}

/// Whether there are as many parameters.
fn have_one_count(parameters: &[u8], others: &[u8]) -> bool {
    let mut left = Elements { rest: parameters };
    let mut left_of_others = Elements { rest: others };
    for _ in 0..parameters.len() {
        match (left.next(), left_of_others.next()) {
            (Some(_), Some(_)) => {}
            (None, None) => return true,
            _ => return false,
        }
    }
    left_of_others.is_empty()
}

/// A parameter that is another one, by its number from 0 on, with both.
#[derive(Clone, Copy)]
pub struct OtherParameter<'a> {
    pub number: u64,
    pub before: Value<'a>,
    pub after: Value<'a>,
}

/// The parameters of two records side by side, of which some have been compared.
#[derive(Clone, Copy)]
pub struct OtherParameters<'a> {
    /// The keyword of the first record.
    pub keyword: &'a [u8],
    first: Elements<'a>,
    second: Elements<'a>,
    number: u64,
}

impl<'a> OtherParameters<'a> {
    /// The parameters of two records, by their canonical lines.
    pub fn new(first: &'a [u8], second: &'a [u8]) -> OtherParameters<'a> {
        let (keyword, parameters) = split_line(first);
        let (_, others) = split_line(second);
        OtherParameters {
            keyword,
            first: Elements { rest: parameters },
            second: Elements { rest: others },
            number: 0,
        }
    }

    /// The next parameter that is another one. It takes no memory.
    pub fn next(&mut self) -> Option<OtherParameter<'a>> {
        for _ in 0..u64::MAX {
            let (Some(before), Some(after)) = (self.first.next(), self.second.next()) else {
                return None;
            };
            let number = self.number;
            self.number = number.saturating_add(1);
            if before.text != after.text {
                return Some(OtherParameter {
                    number,
                    before,
                    after,
                });
            }
        }
        None
    }
}
