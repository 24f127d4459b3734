//! Lines that are looked up together.
//!
//! Lines are looked up 64 at a time where a file is written or held against a text (`Lines`). Lines in no order lie in
//! no order in memory: one by one, each would be waited for, and looked up together many are on their way at once. They
//! stand in an array of slices on the stack, which takes no memory. The block of a text is guessed by its number, since
//! blocks have about as many texts each, and the guess is compared before it counts.
ghost use Rattle.std.specs.Prelude.{◌≡◌, ◌+◌, ◌<◌, ◌≤◌, ℕ, [], ◌∷◌, ◌++◌, length, map, take, drop};
ghost use Rattle.std.specs.List.{AllByRecursion as Each};
ghost use Rattle.p21_stream_store.specs.Lines.{read_lines};
ghost use Rattle.p21_stream_store.specs.StoredInstance.{text_at};

use crate::instances::Instances;
use crate::numbers::Numbers;
use std::marker::Model;

/// So many lines are looked up together at most.
const MOST: usize = 64;

/// The canonical texts of some instances, in the order that was asked for. They may lie anywhere in memory: looked up one right
/// behind the other, many of them are fetched at a time.
#[derive(Drop)]
pub struct Lines<'a> {
    texts: [&'a [u8]; MOST],
    count: usize,
}

impl<'a> Model for Lines<'a> {
    ghost use Rattle.std.specs.Prelude.{◌≤◌, List, ℕ, take};
    ghost use Rattle.p21_stream_store.specs.Lines.{read_lines};

    ghost Value = { List (List ℕ) };

    ghost view = { λ a. read_lines (take a.count a.texts) };

    ghost invariant = { λ a. a.count ≤ 64 };
}

impl<'a> Lines<'a> {
    /// No lines.
    fn new() -> Lines<'a>
        ensures { result ≡ [] }
    {
        Lines {
            texts: [b""; MOST],
            count: 0,
        }
    }

    /// How many lines there are.
    pub fn len(&self) -> usize
        ensures { result ≡ length self.now }
    {
        self.count
    }

    /// The lines, one behind the other.
    pub fn texts(&self) -> &[&'a [u8]]
        ensures { read_lines result.now ≡ self.now }
    {
        &self.texts[..self.count]
    }

    /// Adds a line.
    fn push(&mut self, text: &'a [u8])
        requires { length self.old < 64 }
        ensures { self.new ≡ self.old ++ text.now ∷ [] }
    {
        self.texts[self.count] = text;
        self.count += 1;
    }
}

impl Instances {
    /// The canonical texts of the instances at positions of a list, from an index of it on: as many as are looked up together, and
    /// one at least where there is one. It takes no memory.
    pub fn lines(&self, positions: &Numbers, from: usize) -> Lines<'_>
        requires { Each (λ (place : ℕ). place < length self.now) positions.now }
        ensures texts { result ≡ map (text_at self.now) (take (length result) (drop from positions.now)) }
        ensures some { from < length positions.now → 0 < length result }
    {
        let count = positions.len().saturating_sub(from).min(MOST);
        let mut lines = Lines::new();
        for index in 0..count {
            let place = positions.get(from + index);
            lines.push(self.text(place));
        }
        lines
    }
}
