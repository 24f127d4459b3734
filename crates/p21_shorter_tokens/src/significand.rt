//! The significand of a real, written by whole rows of bytes, of which some count, and its exponent behind it.
ghost use Rattle.std.specs.Prelude.{◌≡◌, IsTrue, false, true, pos, ℕ, ◌+◌, ◌<◌, ◌≤◌, [], ◌∷◌, ◌++◌, length, nat_abs, take, slice_index, if◌then◌else◌};
ghost use Rattle.p21_spec_exchange.specs.Spelling.{exponent_spelling};
ghost use Rattle.p21_shorter_tokens.specs.Places.{HasPlaces};
ghost use Rattle.p21_shorter_tokens.specs.Appending.{AppendsAllOrNone};
ghost use Rattle.p21_shorter_tokens.specs.Numbers.{AppendsNumber, AppendsNumberBefore};
ghost use Rattle.p21_shorter_tokens.specs.Significands.{further_digits, placed_ratio, significand};

use crate::draft::{Draft, WIDE, write_wide};
use crate::exponent::{write_exponent, write_lowered, write_raised};
use crate::places::Places;
use std::simd::prelude::*;

/// How many bytes are written at once where no more are needed.
const NARROW: usize = 16;

/// The room that is asked for: a minus, a digit and the point, and two rows; more than a significand with its exponent has.
const ROOM_OF_A_REAL: usize = 3 * WIDE;

/// Appends a minus or none, the first digit that counts, the point, the others that count, and an exponent of at most two
/// digits; says whether there was room.
#[inline(always)]
pub(crate) fn append_scaled(
    negative: bool,
    bytes: &[u8],
    places: &Places,
    power: i32,
    draft: &mut Draft,
) -> bool
    requires places { HasPlaces bytes.now 0 places.now.point places.now.end places.now.first places.now.behind }
    requires some { 0 < places.now.behind }
    requires bytes { WIDE + WIDE ≤ length bytes.now }
    requires small { nat_abs power < 100 }
    ensures { AppendsAllOrNone result (significand negative bytes.now 0 places.now.point places.now.first places.now.behind ++ exponent_spelling power) draft.old draft.new }
{
    let used = draft.used;
    if draft.room.len() - used < ROOM_OF_A_REAL {
        return false;
    }
    let end = write_significand(negative, bytes, 0, places, &mut draft.room, used);
    draft.used = write_exponent(power, &mut draft.room, end);
    true
}

/// Appends the canonical spelling of the number of the digits at these places, and a byte behind it; says whether there was room.
#[inline(always)]
pub(crate) fn append_marked(
    negative: bool,
    bytes: &[u8],
    places: &Places,
    mark: u8,
    draft: &mut Draft,
) -> bool
    requires places { HasPlaces bytes.now 0 places.now.point places.now.end places.now.first places.now.behind }
    requires bytes { WIDE + WIDE ≤ length bytes.now }
    ensures whole { IsTrue result → AppendsNumberBefore mark (placed_ratio negative bytes.now 0 places.now.point places.now.end (pos 0))
        draft.old draft.new }
    ensures none { result ≡ false → draft.new ≡ draft.old }
{
    let used = draft.used;
    if draft.room.len() - used < ROOM_OF_A_REAL {
        return false;
    }
    draft.used = write_marked(negative, bytes, places, mark, &mut draft.room, used);
    true
}

/// Writes the canonical spelling of the number of the digits at these places, and a byte behind it: where the text ends.
#[inline(always)]
fn write_marked(
    negative: bool,
    bytes: &[u8],
    places: &Places,
    mark: u8,
    room: &mut [u8],
    used: usize,
) -> usize
    requires places { HasPlaces bytes.now 0 places.now.point places.now.end places.now.first places.now.behind }
    requires bytes { WIDE + WIDE ≤ length bytes.now }
    requires room { used + WIDE + WIDE + WIDE ≤ length room.old }
    ensures text { AppendsNumberBefore mark (placed_ratio negative bytes.now 0 places.now.point places.now.end (pos 0)) (take used
        room.old) (take result room.new) }
    ensures within { result ≤ used + WIDE + WIDE + WIDE }
    ensures len { length room.new ≡ length room.old }
{
    let end = write_number(negative, bytes, places, room, used);
    room[end] = mark;
    end + 1
}

/// Writes the canonical spelling of the number of the digits at these places: where the text ends behind it.
#[inline(always)]
fn write_number(
    negative: bool,
    bytes: &[u8],
    places: &Places,
    room: &mut [u8],
    used: usize,
) -> usize
    requires places { HasPlaces bytes.now 0 places.now.point places.now.end places.now.first places.now.behind }
    requires bytes { WIDE + WIDE ≤ length bytes.now }
    requires room { used + WIDE + WIDE + WIDE ≤ length room.old }
    ensures text { AppendsNumber true (placed_ratio negative bytes.now 0 places.now.point places.now.end (pos 0)) (take used room.old)
        (take result room.new) }
    ensures within { result < used + WIDE + WIDE + WIDE }
    ensures len { length room.new ≡ length room.old }
{
    if places.behind == 0 {
        return write_front(false, b'0', room, used);
    }
    let end = write_significand(negative, bytes, 0, places, room, used);
    if places.first < places.point {
        return write_raised(places.point - places.first - 1, room, end);
    }
    write_lowered(places.first - places.point, room, end)
}

/// Appends the spelling of zero; says whether there was room.
#[inline(always)]
pub(crate) fn append_zero(draft: &mut Draft) -> bool
    ensures { AppendsAllOrNone result (48 ∷ 46 ∷ []) draft.old draft.new }
{
    let used = draft.used;
    if draft.room.len() - used < ROOM_OF_A_REAL {
        return false;
    }
    draft.used = write_front(false, b'0', &mut draft.room, used);
    true
}

/// Writes the significand at a place: where the text ends behind it.
#[inline(always)]
fn write_significand(
    negative: bool,
    bytes: &[u8],
    at: usize,
    places: &Places,
    room: &mut [u8],
    used: usize,
) -> usize
    requires places { HasPlaces bytes.now at places.now.point places.now.end places.now.first places.now.behind }
    requires some { 0 < places.now.behind }
    requires near { places.now.end < WIDE }
    requires bytes { at + WIDE + WIDE ≤ length bytes.now }
    requires room { used + WIDE + WIDE + WIDE ≤ length room.old }
    ensures text { take result room.new ≡ take used room.old ++ ((if negative then 45 ∷ [] else []) ++ slice_index bytes.now (at + places.now.first) ∷ 46 ∷ further_digits bytes.now at places.now.point places.now.first places.now.behind) }
    ensures within { result ≤ used + WIDE + WIDE }
    ensures len { length room.new ≡ length room.old }
{
    let first = places.first;
    let point = places.point;
    let behind = places.behind;
    let out = write_front(negative, bytes[at + first], room, used);
    write_row(room, out, &bytes[at + first + 1..], places.end);
    if first < point {
        write_row(
            room,
            out + (point - first - 1),
            &bytes[at + point + 1..],
            places.end,
        );
        return out + (behind - first - 1 - (point < behind) as usize);
    }
    out + (behind - first - 1)
}

/// Writes so many of the bytes at a place, or more of them.
#[inline(always)]
fn write_row(room: &mut [u8], at: usize, bytes: &[u8], needed: usize)
    requires few { needed ≤ WIDE }
    requires bytes { WIDE ≤ length bytes.now }
    requires room { at + WIDE ≤ length room.old }
    ensures front { (count : ℕ) → count ≤ needed → take (at + count) room.new ≡ take at room.old ++ take count bytes.now }
    ensures len { length room.new ≡ length room.old }
{
    if needed <= NARROW {
        write_narrow(room, at, bytes);
        return;
    }
    write_wide(room, at, bytes);
}

/// Writes the first 16 of the bytes at a place.
#[inline(always)]
fn write_narrow(room: &mut [u8], at: usize, bytes: &[u8])
    requires bytes { NARROW ≤ length bytes.now }
    requires room { at + NARROW ≤ length room.old }
    ensures front { (count : ℕ) → count ≤ NARROW → take (at + count) room.new ≡ take at room.old ++ take count bytes.now }
    ensures len { length room.new ≡ length room.old }
{
    u8x16::from_slice(bytes).copy_to_slice(&mut room[at..]);
}

/// Writes a minus or none, a digit and the point.
#[inline(always)]
fn write_front(negative: bool, digit: u8, room: &mut [u8], used: usize) -> usize
    requires { used + 3 ≤ length room.old }
    ensures text { take result room.new ≡ take used room.old ++ ((if negative then 45 ∷ [] else []) ++ digit ∷ 46 ∷ []) }
    ensures few { result ≤ used + 3 }
    ensures len { length room.new ≡ length room.old }
{
    room[used] = b'-';
    let out = used + negative as usize;
    room[out] = digit;
    room[out + 1] = b'.';
    out + 2
}
