//! Bytes of a class, tested 32 at a time.
//!
//! The proofs `wide/no_*` look alike: each cites one lemma (`mask-tests` in `proofs/Lanes`) with the test of its own
//! class, which the prover can't find.
ghost use Rattle.std.specs.Prelude.{◌≡◌, ◌<◌, false, length, map, slice_index};
ghost use Rattle.std.specs.Simd.Lanes.{mask_l};
ghost use Rattle.p21_scan.specs.Class.{AreOfClass, is_of_class, is_of_other_class};
ghost use Rattle.p21_scan.specs.declared.class.Class.TheVariants.{Blank, Commented, Digit, KeywordByte, HexDigit, Plain, CharacterByte};

use crate::class::{Class, short_prefix};
use std::simd::prelude::*;

/// How many bytes at the front are of the class. Inlined, so that each class has a loop of its own.
#[inline(always)]
pub fn long_prefix(class: Class, bytes: &[u8]) -> usize
    ensures are { AreOfClass class bytes.now result }
    ensures ends { result < length bytes.now → is_of_class class (slice_index bytes.now result) ≡ false }
{
    let mut count = 0;
    while bytes.len() - count >= 32 {
        let found = others(class, u8x32::from_slice(&bytes[count..]));
        if found != 0 {
            return count + found.trailing_zeros() as usize;
        }
        count += 32;
    }
    count + short_prefix(class, &bytes[count..])
}

/// A bit for each byte that is not of the class, the lowest for the first.
#[inline(always)]
fn others(class: Class, bytes: u8x32) -> u64
    ensures { result ≡ mask_l (map (is_of_other_class class) bytes) }
{
    match class {
        Class::Blank => no_blanks(bytes),
        Class::Commented => stars(bytes),
        Class::Digit => no_digits(bytes),
        Class::KeywordByte => no_keyword_bytes(bytes),
        Class::HexDigit => no_hex_digits(bytes),
        Class::Plain => no_plain_bytes(bytes),
        Class::CharacterByte => no_character_bytes(bytes),
    }
}

#[inline(always)]
fn no_blanks(bytes: u8x32) -> u64
    ensures { result ≡ mask_l (map (is_of_other_class Blank) bytes) }
{
    ((bytes - u8x32::splat(33)).simd_lt(u8x32::splat(94))
        | bytes.simd_ge(u8x32::splat(128))).to_bitmask()
}

#[inline(always)]
fn stars(bytes: u8x32) -> u64
    ensures { result ≡ mask_l (map (is_of_other_class Commented) bytes) }
{
    bytes.simd_eq(u8x32::splat(b'*')).to_bitmask()
}

#[inline(always)]
fn no_digits(bytes: u8x32) -> u64
    ensures { result ≡ mask_l (map (is_of_other_class Digit) bytes) }
{
    (bytes - u8x32::splat(b'0'))
        .simd_ge(u8x32::splat(10))
        .to_bitmask()
}

#[inline(always)]
fn no_keyword_bytes(bytes: u8x32) -> u64
    ensures { result ≡ mask_l (map (is_of_other_class KeywordByte) bytes) }
{
    (bytes.simd_lt(u8x32::splat(b'0'))
        | (bytes - u8x32::splat(58)).simd_lt(u8x32::splat(7))
        | (bytes - u8x32::splat(91)).simd_lt(u8x32::splat(4))
        | bytes.simd_ge(u8x32::splat(96))).to_bitmask()
}

#[inline(always)]
fn no_hex_digits(bytes: u8x32) -> u64
    ensures { result ≡ mask_l (map (is_of_other_class HexDigit) bytes) }
{
    (bytes.simd_lt(u8x32::splat(b'0'))
        | (bytes - u8x32::splat(58)).simd_lt(u8x32::splat(7))
        | bytes.simd_ge(u8x32::splat(71))).to_bitmask()
}

#[inline(always)]
fn no_plain_bytes(bytes: u8x32) -> u64
    ensures { result ≡ mask_l (map (is_of_other_class Plain) bytes) }
{
    (bytes.simd_lt(u8x32::splat(b' '))
        | bytes.simd_ge(u8x32::splat(127))
        | bytes.simd_eq(u8x32::splat(b'\''))
        | bytes.simd_eq(u8x32::splat(b'\\'))).to_bitmask()
}

#[inline(always)]
fn no_character_bytes(bytes: u8x32) -> u64
    ensures { result ≡ mask_l (map (is_of_other_class CharacterByte) bytes) }
{
    (bytes.simd_lt(u8x32::splat(b' '))
        | bytes.simd_eq(u8x32::splat(b'\''))
        | bytes.simd_eq(u8x32::splat(b'\\'))
        | bytes.simd_eq(u8x32::splat(127))).to_bitmask()
}
