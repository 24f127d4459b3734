//! The text that is written of some statements.
ghost use Rattle.std.specs.Prelude.{◌≡◌, ℕ, ◌+◌, ◌≤◌, [], ◌∷◌, ◌++◌, length, drop, take, slice_range};
ghost use Rattle.p21_spec_basics.specs.Digits.{AllDigits};
ghost use Rattle.p21_scan.specs.Digits.{WithoutTrailingZeros};
ghost use Rattle.p21_shorter_tokens.specs.Appending.{AppendsAllOrNone};

use p21_scan::without_trailing_zeros;
use p21_values::NoMemory;
use std::alloc::Global;
use std::marker::Model;
use std::simd::prelude::*;

/// How many bytes are written at once, where fewer count.
pub(crate) const WIDE: usize = 32;

/// Text that is written into room of a fixed size, which is used again for the next one. Behind the text any bytes may
/// stand.
#[derive(Drop)]
pub struct Draft {
    pub(crate) room: Vec<u8>,
    pub(crate) used: usize,
}

impl Model for Draft {
    ghost use Rattle.std.specs.Prelude.{◌≤◌, ℕ, List, length, take};

    ghost Value = { List ℕ };

    ghost view = { λ draft. take draft.used draft.room.items };

    ghost invariant = { λ draft. draft.used ≤ length draft.room.items };
}

impl Draft {
    /// No text and no room. It takes no memory.
    pub fn new(alloc: Global) -> Draft
        ensures { result ≡ [] }
    {
        Draft {
            room: Vec::new(alloc),
            used: 0,
        }
    }

    /// How many bytes the text may have.
    #[inline(always)]
    pub fn room(&self) -> usize {
        self.room.len()
    }

    /// Makes room for so many bytes in all, where there is less.
    pub fn make_room(&mut self, size: usize) -> Result<(), NoMemory>
        ensures { self.new ≡ self.old }
    {
        if self.room.len() < size {
            self.room.resize(size, 0)?;
        }
        Ok(())
    }

    /// How many bytes the text has.
    #[inline(always)]
    pub fn len(&self) -> usize
        ensures { result ≡ length self.now }
    {
        self.used
    }

    /// The text between two places.
    #[inline(always)]
    pub fn between(&self, start: usize, end: usize) -> &[u8]
        requires rises { start ≤ end }
        requires within { end ≤ length self.now }
        ensures { result.now ≡ slice_range self.now start end }
    {
        &self.room[start..end]
    }

    /// Takes the text back to so many bytes.
    #[inline(always)]
    pub fn cut(&mut self, len: usize)
        requires { len ≤ length self.old }
        ensures { self.new ≡ take len self.old }
    {
        self.used = len;
    }

    /// Takes away the zeros at the end, but none before a place.
    #[inline(always)]
    pub(crate) fn cut_zeros(&mut self, from: usize)
        requires within { from ≤ length self.old }
        requires digits { AllDigits (drop from self.old) }
        ensures front { take from self.new ≡ take from self.old }
        ensures behind { WithoutTrailingZeros (drop from self.old) (drop from self.new) }
    {
        let kept = without_trailing_zeros(&self.room[from..self.used]).len();
        self.used = from + kept;
    }

    /// Appends a byte; says whether there was room.
    #[inline(always)]
    pub fn put(&mut self, byte: u8) -> bool
        ensures { AppendsAllOrNone result (byte ∷ []) self.old self.new }
    {
        let used = self.used;
        if used >= self.room.len() {
            return false;
        }
        self.room[used] = byte;
        self.used = used + 1;
        true
    }

    /// Appends bytes; says whether there was room.
    #[cold]
    #[inline(never)]
    pub fn append(&mut self, bytes: &[u8]) -> bool
        ensures { AppendsAllOrNone result bytes.now self.old self.new }
    {
        let used = self.used;
        if self.room.len() - used < bytes.len() {
            return false;
        }
        let end = used + bytes.len();
        self.room[used..end].copy_from_slice(bytes);
        self.used = end;
        true
    }

    /// Appends so many of the bytes; says whether there was room.
    #[inline(always)]
    pub fn append_prefix(&mut self, bytes: &[u8], count: usize) -> bool
        requires { count ≤ length bytes.now }
        ensures { AppendsAllOrNone result (take count bytes.now) self.old self.new }
    {
        let used = self.used;
        if count > WIDE || bytes.len() < WIDE || self.room.len() - used < WIDE {
            return self.append(&bytes[..count]);
        }
        write_wide(&mut self.room, used, bytes);
        self.used = used + count;
        true
    }
}

/// Writes the first 32 of the bytes at a place.
#[inline(always)]
pub(crate) fn write_wide(room: &mut [u8], at: usize, bytes: &[u8])
    requires bytes { WIDE ≤ length bytes.now }
    requires room { at + WIDE ≤ length room.old }
    ensures front { (count : ℕ) → count ≤ WIDE → take (at + count) room.new ≡ take at room.old ++ take count bytes.now }
    ensures len { length room.new ≡ length room.old }
{
    u8x32::from_slice(bytes).copy_to_slice(&mut room[at..]);
}
