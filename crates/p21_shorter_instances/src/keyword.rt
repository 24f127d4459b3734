//! The name of an entity, as it is held against the keyword of an instance.
ghost use Rattle.std.specs.Prelude.{◌≡◌, ◌⊎◌, ◌≤◌, [], ℕ, length, take, IsTrue};
ghost use Rattle.p21_spec_exchange.specs.Keyword.{IsKeyword};

use p21_shorter_tokens::leading_keyword;
use std::marker::Model;
use std::simd::prelude::*;

/// So many bytes are compared at once.
pub(crate) const ROW: usize = 32;

/// A keyword of at most 32 bytes, or none.
#[derive(Debug, Drop)]
pub struct Keyword {
    // Behind the keyword any bytes may stand.
    row: [u8; ROW],
    len: usize,
}

impl Model for Keyword {
    ghost use Rattle.std.specs.Prelude.{◌≤◌, ℕ, List, take};

    ghost Value = { List ℕ };

    ghost view = { λ k. take k.len k.row };

    ghost invariant = { λ k. k.len ≤ 32 };
}

impl Keyword {
    /// The bytes, where they are a keyword, and few enough; else none.
    pub(crate) fn new(bytes: &[u8]) -> Keyword
        ensures { (result ≡ []) ⊎ ((result ≡ bytes.now) × IsKeyword bytes.now) }
    {
        let mut row = [0; ROW];
        let len = bytes.len();
        if len > ROW || !is_keyword(bytes) {
            return Keyword { row, len: 0 };
        }
        row[..len].copy_from_slice(bytes);
        Keyword { row, len }
    }

    /// Whether it is so many bytes at the front of a row or more.
    #[inline(always)]
    pub(crate) fn is_front(&self, bytes: &[u8], count: usize) -> bool
        requires { 32 ≤ length bytes.now }
        ensures { IsTrue result → take count bytes.now ≡ self.now }
    {
        self.len == count && same_front(&self.row, bytes) >= count
    }
}

/// How many bytes at the front of the row are those of the others.
#[inline(always)]
fn same_front(row: &[u8; ROW], bytes: &[u8]) -> usize
    requires { 32 ≤ length bytes.now }
    ensures { (count : ℕ) → count ≤ result → count ≤ 32 → take count row.now ≡ take count bytes.now }
{
    let same = u8x32::from_slice(bytes)
        .simd_eq(u8x32::from_array(*row))
        .to_bitmask();
    same.trailing_ones() as usize
}

/// Whether the bytes are a keyword.
fn is_keyword(bytes: &[u8]) -> bool
    ensures { IsTrue result → IsKeyword bytes.now }
{
    match leading_keyword(bytes) {
        Some(word) => word.len() == bytes.len(),
        None => false,
    }
}
