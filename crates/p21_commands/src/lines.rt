//! Lines and columns of a text that is read.
//!
//! Which byte is refused is known when it was read, and standard input can't be read again. So where lines begin is kept,
//! 8 bytes for each. Where memory is refused for that nothing more is kept, and no place is told. Of characters of more
//! bytes than one those behind the first are kept in the same way, up to a million; where there are more, columns are
//! counted in bytes alone.

use p21_values::NoMemory;
use std::alloc::Global;

/// The most bytes inside characters that are kept.
const MOST_INSIDE: usize = 1_048_576;

/// A place in a text: its line, and its byte in the line, both from 1 on. A line ends with a line feed, a carriage return, or
/// both in this order.
#[derive(Clone, Copy, Debug, PartialEq, Eq)]
pub struct Position {
    pub line: u64,
    pub column: u64,
}

/// Where lines begin in the bytes that were taken.
#[derive(Drop)]
pub struct LineStarts {
    is_kept: bool,
    // So many bytes were taken.
    taken: u64,
    // The bytes with which lines begin, but for the first one.
    begins: Vec<u64>,
    // Whether the last byte is a carriage return, with which a line feed would be one end of a line.
    is_behind_return: bool,
    characters: Characters,
}

/// Where characters have more bytes than one, and where bytes are no UTF-8.
#[derive(Drop)]
struct Characters {
    is_kept: bool,
    // The bytes of characters behind their first ones, and those that belong to no character.
    inside: Vec<u64>,
    broken: Vec<u64>,
    // How many bytes the open character lacks, and between which two the next one is.
    lacks: u8,
    low: u8,
    high: u8,
}

impl LineStarts {
    /// Of no bytes, and of those that come, where that is asked for. It takes no memory.
    pub fn new(alloc: Global, is_kept: bool) -> LineStarts {
        LineStarts {
            is_kept,
            taken: 0,
            begins: Vec::new(alloc),
            is_behind_return: false,
            characters: Characters::new(alloc),
        }
    }

    /// Takes bytes; where memory is refused, nothing is kept from then on.
    pub fn take(&mut self, bytes: &[u8]) {
        for byte in bytes {
            if !self.is_kept {
                return;
            }
            if let Err(NoMemory) = self.take_byte(*byte) {
                self.is_kept = false;
            }
        }
    }

    fn take_byte(&mut self, byte: u8) -> Result<(), NoMemory> {
        self.characters.take(self.taken, byte);
        self.taken = self.taken.saturating_add(1);
        if self.is_behind_return && byte == b'\n' {
            self.begins.pop();
        }
        self.is_behind_return = byte == b'\r';
        if byte == b'\n' || byte == b'\r' {
            self.begins.push(self.taken)?;
        }
        Ok(())
    }

    /// Where so many bytes stand in front, if they were taken and lines are kept.
    pub fn position(&self, byte: u64) -> Option<Position> {
        if !self.is_kept || byte > self.taken {
            return None;
        }
        let before = count_up_to(&self.begins, byte);
        let start = self.start_of(before);
        Some(Position {
            line: (before as u64).saturating_add(1),
            column: byte.saturating_sub(start).saturating_add(1),
        })
    }

    /// The column in characters of the byte in front of which so many stand, where the line is UTF-8 up to there and that is another one
    /// than in bytes.
    pub fn column_in_characters(&self, byte: u64) -> Option<u64> {
        let position = self.position(byte)?;
        let start = self.start_of(count_up_to(&self.begins, byte));
        let inside = self.characters.inside_between(start, byte)?;
        if inside == 0 {
            return None;
        }
        Some(position.column.saturating_sub(inside))
    }

    /// The byte with which a line begins in front of which so many others begin.
    fn start_of(&self, before: usize) -> u64 {
        match before.checked_sub(1) {
            Some(last) => self.begins.get(last).copied().unwrap_or(0),
            None => 0,
        }
    }
}

impl Characters {
    fn new(alloc: Global) -> Characters {
        Characters {
            is_kept: true,
            inside: Vec::new(alloc),
            broken: Vec::new(alloc),
            lacks: 0,
            low: 0x80,
            high: 0xBF,
        }
    }

    /// Takes a byte in front of which so many stand.
    fn take(&mut self, at: u64, byte: u8) {
        if !self.is_kept || (byte < 0x80 && self.lacks == 0) {
            return;
        }
        if self.inside.len() >= MOST_INSIDE || self.broken.len() >= MOST_INSIDE {
            self.is_kept = false;
            return;
        }
        if let Err(NoMemory) = self.keep(at, byte) {
            self.is_kept = false;
        }
    }

    fn keep(&mut self, at: u64, byte: u8) -> Result<(), NoMemory> {
        if self.lacks == 0 {
            (self.lacks, self.low, self.high) = behind_first(byte);
            if self.lacks == 0 {
                self.broken.push(at)?;
            }
            return Ok(());
        }
        if self.low <= byte && byte <= self.high {
            self.lacks = self.lacks.saturating_sub(1);
            self.inside.push(at)?;
        } else {
            self.lacks = 0;
            self.broken.push(at)?;
        }
        self.low = 0x80;
        self.high = 0xBF;
        Ok(())
    }

    /// How many bytes stand inside characters between two places, if all between them is UTF-8.
    fn inside_between(&self, start: u64, end: u64) -> Option<u64> {
        if !self.is_kept || count_between(&self.broken, start, end) > 0 {
            return None;
        }
        Some(count_between(&self.inside, start, end))
    }
}

/// How many bytes are lacking behind the first one of a character, none where it begins none, and between which two the next one is
/// (Unicode, table 3-7).
fn behind_first(byte: u8) -> (u8, u8, u8) {
    match byte {
        0xC2..=0xDF => (1, 0x80, 0xBF),
        0xE0 => (2, 0xA0, 0xBF),
        0xED => (2, 0x80, 0x9F),
        0xE1..=0xEF => (2, 0x80, 0xBF),
        0xF0 => (3, 0x90, 0xBF),
        0xF1..=0xF3 => (3, 0x80, 0xBF),
        0xF4 => (3, 0x80, 0x8F),
        _ => (0, 0x80, 0xBF),
    }
}

/// How many of rising numbers lie between two, the first one counted and the second not.
fn count_between(numbers: &[u64], start: u64, end: u64) -> u64 {
    count_below(numbers, end).saturating_sub(count_below(numbers, start)) as u64
}

/// How many of rising numbers are less.
fn count_below(numbers: &[u64], number: u64) -> usize {
    match number.checked_sub(1) {
        Some(before) => count_up_to(numbers, before),
        None => 0,
    }
}

/// How many of rising numbers aren't more.
fn count_up_to(numbers: &[u64], number: u64) -> usize {
    let mut front: usize = 0;
    let mut left = numbers.len();
    // Each round halves what is left.
    for _ in 0..64 {
        if left == 0 {
            return front;
        }
        let half = left / 2;
        let middle = front.saturating_add(half);
        match numbers.get(middle) {
            Some(found) if *found <= number => {
                front = middle.saturating_add(1);
                left = left.saturating_sub(half).saturating_sub(1);
            }
            _ => left = half,
        }
    }
    front
}
