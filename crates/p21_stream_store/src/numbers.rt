//! Numbers of any size, in as few bytes as hold them.
//!
//! Positions stand in a list whose first part takes no memory while they rise by equal steps; behind it each takes one
//! byte up to the first that a byte doesn't hold, then two, three, four and eight (`Numbers`). The numbers of
//! memberships have these widths alone (`Widths`). Only memory limits the numbers. No list is copied when it gets
//! wider, which would briefly take twice its memory.
ghost use Rattle.std.specs.List.{range_with_len};
ghost use Rattle.std.specs.Prelude.{◌≡◌, ◌+◌, ◌<◌, ◌≤◌, ◌^◌, [], ◌∷◌, ◌++◌, length, slice_get, OnErr, OnOk, Some};

use crate::rows::{Layer, Row};
use crate::runs::Run;
use crate::widths::ThreeBytes;
use p21_values::NoMemory;
use std::alloc::Global;
use std::marker::Model;

/// Numbers in their order, each in a width that holds it.
pub type Widths = Layer<u8, Layer<u16, Layer<ThreeBytes, Layer<u32, Vec<usize>>>>>;

/// Numbers in their order. Those that rise by equal steps from the first take no memory. Each behind them takes one byte up to the
/// first that a byte doesn't hold; that one and those behind it take two, and so on over three and four to eight.
#[derive(Drop)]
pub struct Numbers {
    run: Run,
    behind: Widths,
}

impl Model for Numbers {
    ghost use Rattle.std.specs.Prelude.{◌++◌, List, ℕ};

    ghost Value = { List ℕ };

    ghost view = { λ a. a.run ++ ⟦<Widths as Row>⟧.numbers a.behind };
}

impl Numbers {
    /// A list without numbers. It takes no memory.
    pub fn new(alloc: Global) -> Numbers
        ensures { result ≡ [] }
    {
        Numbers {
            run: Run::new(),
            behind: Widths::new(alloc),
        }
    }

    /// The numbers below this, in their order. They take no memory.
    pub fn below(alloc: Global, count: usize) -> Numbers
        requires { count < 2 ^ 32 }
        ensures { result ≡ range_with_len 0 count }
    {
        Numbers {
            run: Run::below(count),
            behind: Widths::new(alloc),
        }
    }

    /// How many numbers there are.
    pub fn len(&self) -> usize
        ensures { result ≡ length self.now }
    {
        self.run.len() + self.behind.len()
    }

    /// The number at a position.
    pub fn get(&self, place: usize) -> usize
        requires { place < length self.now }
        ensures { slice_get self.now place ≡ Some result }
    {
        let first = self.run.len();
        if place < first {
            return self.run.get(place);
        }
        self.behind.get(place - first)
    }

    /// Adds a number.
    ///
    /// # Errors
    ///
    /// `NoMemory`, which changes nothing.
    pub fn push(&mut self, number: usize) -> Result<(), NoMemory>
        ensures ok { OnOk result (self.new ≡ self.old ++ number ∷ []) }
        ensures err { OnErr result (self.new ≡ self.old) }
    {
        if self.behind.is_empty() && self.run.push(number) {
            return Ok(());
        }
        self.behind.make_place()?;
        self.behind.put(number);
        Ok(())
    }
}
