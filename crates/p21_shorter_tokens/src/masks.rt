//! Bytes tested 16 at a time: a bit for each, the lowest for the first.
//!
//! A real is found in lanes where 64 bytes of the piece are left, and digit by digit elsewhere, by the same contract.
//! The masks (`masks` of `p21_shorter_tokens`) stand on the definitions of digits alone, so that other tokens can be found
//! by them too, and their proofs know no token. Rows of 32 bytes are written whole, past what counts, so a real isn't
//! taken so where less than 96 bytes of room are left for its line.
ghost use Rattle.std.specs.Prelude.{◌+◌, ◌≤◌, length};
ghost use Rattle.p21_shorter_tokens.specs.Masks.{Shows};
ghost use Rattle.p21_shorter_tokens.specs.Places.{is_other_at, is_zero_at, ShowDigits};

use std::simd::prelude::*;

/// Which of the 16 bytes from there on are no digits, and which are `0`.
#[inline(always)]
pub(crate) fn digit_masks(bytes: &[u8], at: usize) -> (u64, u64)
    requires { at + 16 ≤ length bytes.now }
    ensures others { Shows (is_other_at bytes.now at) 16 result.0 }
    ensures zeros { Shows (is_zero_at bytes.now at) 16 result.1 }
{
    let lanes = u8x16::from_slice(&bytes[at..]) - u8x16::splat(b'0');
    let others = lanes.simd_ge(u8x16::splat(10)).to_bitmask();
    let zeros = lanes.simd_eq(u8x16::splat(0)).to_bitmask();
    (others, zeros)
}

/// The same of the 16 bytes, and of the 16 behind them where fewer than two are no digits.
#[inline(always)]
pub(crate) fn real_masks(bytes: &[u8], at: usize) -> (u64, u64)
    requires { at + 32 ≤ length bytes.now }
    ensures { ShowDigits bytes.now at result.0 result.1 }
{
    let (low, zeros) = digit_masks(bytes, at);
    if low & low.wrapping_sub(1) != 0 {
        return (low, zeros);
    }
    let (high, more) = digit_masks(bytes, at + 16);
    (low | high << 16, zeros | more << 16)
}
