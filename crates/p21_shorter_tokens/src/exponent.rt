//! The exponent of a real (ISO 10303-21, clause 6: tokens, real).
ghost use Rattle.std.specs.Prelude.{◌≡◌, ◌+◌, ◌<◌, ◌≤◌, ◌<ℤ◌, ◌≤ℤ◌, ◌-ℤ◌, pos, true, false, [], ◌∷◌, ◌++◌, length, nat_abs, take, IfSome, if◌then◌else◌};
ghost use Rattle.p21_spec_exchange.proofs.Forms.{NoDigitFirst};
ghost use Rattle.p21_spec_exchange.specs.Spelling.{exponent_spelling};
ghost use Rattle.p21_shorter_tokens.specs.Appending.{AppendsAllOrNone, AppendsAllOrSome};
ghost use Rattle.p21_shorter_tokens.specs.Numbers.{EndsReal, few_digits};

use crate::draft::Draft;
use p21_scan::{begins_exponent, exponent_value, scan_exponent};

/// The most bytes of an exponent of two digits.
const LONGEST: usize = 4;

/// The exponent at the front, 0 where there is none, and what stands behind it.
#[inline(always)]
pub(crate) fn split_exponent(bytes: &[u8]) -> Option<(i32, &[u8])>
    requires { NoDigitFirst bytes.now }
    ensures { IfSome result (λ parts. EndsReal bytes.now parts.0 parts.1.now) }
{
    if begins_exponent(bytes) {
        return written_exponent(bytes);
    }
    Some((0, bytes))
}

#[cold]
#[inline(never)]
fn written_exponent(bytes: &[u8]) -> Option<(i32, &[u8])>
    requires { NoDigitFirst bytes.now }
    ensures { IfSome result (λ parts. EndsReal bytes.now parts.0 parts.1.now) }
{
    let (exponent, rest) = scan_exponent(bytes);
    if begins_exponent(rest) {
        return None;
    }
    let value = exponent_value(exponent)?;
    Some((value, rest))
}

/// Appends a minus, or nothing; says whether there was room.
#[inline(always)]
pub(crate) fn append_minus(negative: bool, draft: &mut Draft) -> bool
    ensures { AppendsAllOrNone result (if negative then 45 ∷ [] else []) draft.old draft.new }
{
    if !negative {
        return true;
    }
    draft.put(b'-')
}

/// Appends an exponent of at most two digits; says whether there was room. For 0 nothing is written.
#[inline(always)]
pub(crate) fn append_exponent(exponent: i32, draft: &mut Draft) -> bool
    requires { nat_abs exponent < 100 }
    ensures { AppendsAllOrSome result (exponent_spelling exponent) draft.old draft.new }
{
    let used = draft.used;
    if draft.room.len() - used < LONGEST {
        return false;
    }
    draft.used = write_exponent(exponent, &mut draft.room, used);
    true
}

/// Writes the exponent at a place: where the text ends behind it.
#[inline(always)]
pub(crate) fn write_exponent(exponent: i32, room: &mut [u8], at: usize) -> usize
    requires small { nat_abs exponent < 100 }
    requires room { at + LONGEST ≤ length room.old }
    ensures text { take result room.new ≡ take at room.old ++ exponent_spelling exponent }
    ensures within { result ≤ at + LONGEST }
    ensures len { length room.new ≡ length room.old }
{
    if exponent == 0 {
        return at;
    }
    let value = exponent.unsigned_abs();
    let digits = write_mark(is_below_zero(exponent), room, at);
    if value < 10 {
        room[digits] = b'0' + value as u8;
        return digits + 1;
    }
    room[digits] = b'0' + (value / 10) as u8;
    room[digits + 1] = b'0' + (value % 10) as u8;
    digits + 2
}

/// Writes an exponent of at most two digits that isn't below zero: where the text ends behind it. For 0 nothing is written.
#[inline(always)]
pub(crate) fn write_raised(value: usize, room: &mut [u8], at: usize) -> usize
    requires small { value < 100 }
    requires room { at + LONGEST ≤ length room.old }
    ensures text { take result room.new ≡ take at room.old ++ exponent_spelling (pos value) }
    ensures within { result ≤ at + LONGEST }
    ensures len { length room.new ≡ length room.old }
{
    if value == 0 {
        return at;
    }
    room[at] = b'E';
    write_digits(value, room, at + 1)
}

/// Writes an exponent that is so much below zero, of at most two digits: where the text ends behind it.
#[inline(always)]
pub(crate) fn write_lowered(value: usize, room: &mut [u8], at: usize) -> usize
    requires some { 0 < value }
    requires small { value < 100 }
    requires room { at + LONGEST ≤ length room.old }
    ensures text { take result room.new ≡ take at room.old ++ exponent_spelling (pos 0 -ℤ pos value) }
    ensures within { result ≤ at + LONGEST }
    ensures len { length room.new ≡ length room.old }
{
    let sign = at + 1;
    room[at] = b'E';
    room[sign] = b'-';
    write_digits(value, room, at + 2)
}

/// Writes a number of at most two digits at a place: where the text ends behind it.
#[inline(always)]
fn write_digits(number: usize, room: &mut [u8], at: usize) -> usize
    requires small { number < 100 }
    requires room { at + 2 ≤ length room.old }
    ensures text { take result room.new ≡ take at room.old ++ few_digits number }
    ensures few { result ≤ at + 2 }
    ensures len { length room.new ≡ length room.old }
{
    if number < 10 {
        room[at] = b'0' + number as u8;
        return at + 1;
    }
    room[at] = b'0' + (number / 10) as u8;
    room[at + 1] = b'0' + (number % 10) as u8;
    at + 2
}

/// Writes `E`, and a minus or none.
#[inline(always)]
fn write_mark(negative: bool, room: &mut [u8], at: usize) -> usize
    requires { at + 2 ≤ length room.old }
    ensures text { take result room.new ≡ take at room.old ++ 69 ∷ (if negative then 45 ∷ [] else []) }
    ensures few { result ≤ at + 2 }
    ensures len { length room.new ≡ length room.old }
{
    room[at] = b'E';
    room[at + 1] = b'-';
    at + 1 + negative as usize
}

#[inline(always)]
fn is_below_zero(exponent: i32) -> bool
    ensures below { result ≡ true → exponent <ℤ pos 0 }
    ensures above { result ≡ false → pos 0 ≤ℤ exponent }
{
    exponent < 0
}
