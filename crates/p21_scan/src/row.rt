//! Digits at the front, tested 16 bytes at a time.
ghost use Rattle.std.specs.Prelude.{◌≡◌, ◌≤◌, ◌++◌, drop, length, map, not, take};
ghost use Rattle.std.specs.Simd.Lanes.{mask_l};
ghost use Rattle.p21_spec_basics.specs.Digits.{AllDigits, is_digit};
ghost use Rattle.p21_spec_exchange.proofs.Forms.{NoDigitFirst};

use crate::digits::split_digits;
use std::simd::prelude::*;

/// How many bytes are tested at once.
const LANES: usize = 16;

/// The digits at the front, of which there are often several and seldom many, and what stands behind them.
#[inline(always)]
pub(crate) fn split_near_digits(bytes: &[u8]) -> (&[u8], &[u8])
    ensures bytes_are { bytes.now ≡ result.0.now ++ result.1.now }
    ensures digits { AllDigits result.0.now }
    ensures rest { NoDigitFirst result.1.now }
{
    bytes.split_at(near_digits(bytes))
}

/// How many digits stand at the front.
#[inline(always)]
fn near_digits(bytes: &[u8]) -> usize
    ensures within { result ≤ length bytes.now }
    ensures digits { AllDigits (take result bytes.now) }
    ensures ends { NoDigitFirst (drop result bytes.now) }
{
    if bytes.len() >= LANES {
        let others = no_digits(u8x16::from_slice(bytes));
        if others != 0 {
            return others.trailing_zeros() as usize;
        }
    }
    far_digits(bytes)
}

/// The same for a row of digits, or where the bytes are no whole row. It answers a number alone, so that no slice has to lie
/// in memory.
#[inline(never)]
fn far_digits(bytes: &[u8]) -> usize
    ensures within { result ≤ length bytes.now }
    ensures digits { AllDigits (take result bytes.now) }
    ensures ends { NoDigitFirst (drop result bytes.now) }
{
    let (digits, _rest) = split_digits(bytes);
    digits.len()
}

/// A bit for each byte that is no digit, the lowest for the first.
#[inline(always)]
fn no_digits(bytes: u8x16) -> u64
    ensures { result ≡ mask_l (map (λ byte. not (is_digit byte)) bytes) }
{
    (bytes - u8x16::splat(b'0'))
        .simd_ge(u8x16::splat(10))
        .to_bitmask()
}
