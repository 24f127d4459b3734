//! Reals, and whole numbers where a NUMBER may stand (ISO 10303-21, clause 6: tokens, real and integer).
ghost use Rattle.std.specs.Prelude.{◌≡◌, ◌⊎◌, Bool, IsTrue, false, ℕ, ℤ, ◌+◌, ◌^◌, ◌<◌, ◌≤◌, ◌++◌, length, drop, nat_abs, take, true, IfNone, IfSome};
ghost use Rattle.p21_shorter_tokens.specs.Places.{HasPlaces};
ghost use Rattle.p21_values.specs.Canonical.{Continues};
ghost use Rattle.p21_scan.specs.Digits.{HasNoLeadingZero};
ghost use Rattle.p21_values.specs.RealComponents.{digits_ratio};
ghost use Rattle.p21_shorter_tokens.specs.Appending.{AppendsAllOrNone};
ghost use Rattle.p21_shorter_tokens.specs.Numbers.{AppendsMarkedReal, AppendsNormalised, AppendsNumber, AppendsNumberToken, AppendsWithoutExponent, EndsReal};
ghost use Rattle.p21_shorter_tokens.specs.Runs.{AreDigits};
ghost use Rattle.p21_shorter_tokens.specs.Significands.{AppendsSignificand, placed_ratio, significand};

use crate::digits::leading_zeros;
use crate::draft::{Draft, WIDE};
use crate::exponent::{append_exponent, append_minus, split_exponent};
use crate::places::{Places, real_places};
use crate::significand::{append_marked, append_scaled, append_zero};
use p21_scan::{begins_exponent, exponent_value, scan_number, split_sign};

/// A number with more digits on one side of the point isn't usual.
const MOST_DIGITS: usize = 65_536;

/// Digits at the front of bytes: so many of these.
#[derive(Clone, Copy)]
struct Digits<'a> {
    bytes: &'a [u8],
    count: usize,
}

/// Appends the real at the front: how many bytes it has. Where a whole number may stand too, it is written as a real.
#[inline(always)]
pub fn append_real(bytes: &[u8], wholes: bool, draft: &mut Draft) -> Option<usize>
    ensures some { IfSome result (λ count. AppendsNumberToken wholes bytes.now count draft.old draft.new) }
    ensures none { IfNone result (Continues draft.old draft.new) }
{
    match append_plain_real(bytes, draft) {
        Some(count) => Some(count),
        None => append_other_real(bytes, wholes, draft),
    }
}

/// Appends the real at the front, if it has no exponent and its digits end near: how many bytes it has.
#[inline(always)]
pub fn append_plain_real(bytes: &[u8], draft: &mut Draft) -> Option<usize>
    ensures some { IfSome result (λ count. (wholes : Bool) → AppendsNumberToken wholes bytes.now count draft.old draft.new) }
    ensures none { IfNone result (draft.new ≡ draft.old) }
{
    let (negative, unsigned) = split_sign(bytes);
    let places = near_places(unsigned)?;
    let behind = &unsigned[places.end..];
    if begins_exponent(behind) {
        return None;
    }
    if !append_placed(negative, unsigned, &places, 0, draft) {
        return None;
    }
    Some(bytes.len() - behind.len())
}

/// Appends the real at the front, if it has no exponent and its digits end near, and the `,` or `)` right behind it: how many bytes
/// both have.
#[inline(always)]
pub fn append_marked_real(bytes: &[u8], draft: &mut Draft) -> Option<usize>
    ensures some { IfSome result (λ count. AppendsMarkedReal bytes.now count draft.old draft.new) }
    ensures none { IfNone result (draft.new ≡ draft.old) }
{
    let (negative, unsigned) = split_sign(bytes);
    let places = near_places(unsigned)?;
    let mark = unsigned[places.end];
    if !is_mark(mark) {
        return None;
    }
    if !append_marked(negative, unsigned, &places, mark, draft) {
        return None;
    }
    let behind = &unsigned[places.end..];
    Some(bytes.len() - behind.len() + 1)
}

/// Whether the byte is a `,` or a `)`.
#[inline(always)]
fn is_mark(byte: u8) -> bool
    ensures { IsTrue result → (byte ≡ 44) ⊎ (byte ≡ 41) }
{
    byte == b',' || byte == b')'
}

/// Appends the real at the front, which has an exponent or doesn't end near, or a whole number: how many bytes it has.
#[cold]
#[inline(never)]
pub fn append_other_real(bytes: &[u8], wholes: bool, draft: &mut Draft) -> Option<usize>
    ensures some { IfSome result (λ count. AppendsNumberToken wholes bytes.now count draft.old draft.new) }
    ensures none { IfNone result (Continues draft.old draft.new) }
{
    let (negative, unsigned) = split_sign(bytes);
    if let Some(places) = near_places(unsigned) {
        if begins_exponent(&unsigned[places.end..]) {
            let rest = append_near(negative, unsigned, &places, draft)?;
            return Some(bytes.len() - rest.len());
        }
    }
    append_far(bytes, wholes, draft)
}

/// The same for a real of more digits, at the end of a piece, and for a whole number.
#[cold]
#[inline(never)]
fn append_far(bytes: &[u8], wholes: bool, draft: &mut Draft) -> Option<usize>
    ensures some { IfSome result (λ count. AppendsNumberToken wholes bytes.now count draft.old draft.new) }
    ensures none { IfNone result (Continues draft.old draft.new) }
{
    let (number, rest) = scan_number(bytes)?;
    if number.whole.len() > MOST_DIGITS {
        return None;
    }
    let whole = Digits {
        bytes: number.whole,
        count: number.whole.len(),
    };
    let Some(decimals) = number.decimals else {
        let none = Digits {
            bytes: &[],
            count: 0,
        };
        if !wholes || !append_decimal(number.negative, whole, none, 0, draft) {
            return None;
        }
        return Some(bytes.len() - rest.len());
    };
    if decimals.fraction.len() > MOST_DIGITS {
        return None;
    }
    if begins_exponent(rest) {
        return None;
    }
    let fraction = Digits {
        bytes: decimals.fraction,
        count: decimals.fraction.len(),
    };
    let exponent = exponent_value(decimals.exponent)?;
    if !append_decimal(number.negative, whole, fraction, exponent, draft) {
        return None;
    }
    Some(bytes.len() - rest.len())
}

/// Where the parts of a real stand whose digits end within a row of bytes, with a row behind it in the piece.
#[inline(always)]
fn near_places(unsigned: &[u8]) -> Option<Places>
    ensures places { IfSome result (λ places. HasPlaces unsigned.now 0 places.point places.end places.first places.behind) }
    ensures room { IfSome result (λ places. WIDE + WIDE ≤ length unsigned.now) }
{
    if unsigned.len() < 2 * WIDE {
        return None;
    }
    real_places(unsigned, 0)
}

/// Appends the real of these places: what stands behind it.
#[inline(always)]
fn append_near<'a>(
    negative: bool,
    unsigned: &'a [u8],
    places: &Places,
    draft: &mut Draft,
) -> Option<&'a [u8]>
    requires places { HasPlaces unsigned.now 0 places.now.point places.now.end places.now.first places.now.behind }
    requires room { WIDE + WIDE ≤ length unsigned.now }
    ensures some { IfSome result (λ rest. (k : ℤ) × EndsReal (drop places.now.end unsigned.now) k rest.now × AppendsNumber true (placed_ratio negative unsigned.now 0 places.now.point places.now.end k) draft.old draft.new) }
    ensures within { IfSome result (λ rest. length rest.now ≤ length unsigned.now) }
    ensures none { IfNone result (Continues draft.old draft.new) }
{
    let (exponent, rest) = split_exponent(&unsigned[places.end..])?;
    if !append_placed(negative, unsigned, places, exponent, draft) {
        return None;
    }
    Some(rest)
}

/// Appends the canonical spelling of the number of the digits at these places, times ten to the exponent; says whether it did.
#[inline(always)]
fn append_placed(
    negative: bool,
    unsigned: &[u8],
    places: &Places,
    exponent: i32,
    draft: &mut Draft,
) -> bool
    requires places { HasPlaces unsigned.now 0 places.now.point places.now.end places.now.first places.now.behind }
    requires room { WIDE + WIDE ≤ length unsigned.now }
    requires small { nat_abs exponent < 10 ^ 9 }
    ensures whole { IsTrue result → AppendsNumber true (placed_ratio negative unsigned.now 0 places.now.point places.now.end exponent) draft.old draft.new }
    ensures none { result ≡ false → draft.new ≡ draft.old }
{
    if places.behind == 0 {
        return append_zero(draft);
    }
    let power = if places.first < places.point {
        exponent + (places.point - places.first - 1) as i32
    } else {
        exponent - (places.first - places.point) as i32
    };
    append_at_power(negative, unsigned, places, power, draft)
}

/// Appends the digits at these places with this exponent; says whether it did. An exponent of more than two digits isn't usual.
#[inline(always)]
fn append_at_power(
    negative: bool,
    unsigned: &[u8],
    places: &Places,
    power: i32,
    draft: &mut Draft,
) -> bool
    requires places { HasPlaces unsigned.now 0 places.now.point places.now.end places.now.first places.now.behind }
    requires some { 0 < places.now.behind }
    requires room { WIDE + WIDE ≤ length unsigned.now }
    ensures whole { IsTrue result → AppendsSignificand true (significand negative unsigned.now 0 places.now.point places.now.first places.now.behind) power draft.old draft.new }
    ensures none { result ≡ false → draft.new ≡ draft.old }
{
    if power < -99 || power > 99 {
        return false;
    }
    append_scaled(negative, unsigned, places, power, draft)
}

/// Appends the canonical spelling of the number that these digits before and behind the point stand for, times ten to the
/// exponent, or a part of it; says whether it is whole.
#[inline(always)]
fn append_decimal(
    negative: bool,
    whole: Digits<'_>,
    fraction: Digits<'_>,
    exponent: i32,
    draft: &mut Draft,
) -> bool
    requires whole { AreDigits whole.bytes.now whole.count }
    requires fraction { AreDigits fraction.bytes.now fraction.count }
    requires short { (whole.count ≤ MOST_DIGITS) × (fraction.count ≤ MOST_DIGITS) }
    requires small { nat_abs exponent < 10 ^ 9 }
    ensures { AppendsNumber result (digits_ratio negative (take whole.entry.count whole.entry.bytes.now) (take fraction.entry.count fraction.entry.bytes.now) exponent) draft.old draft.new }
{
    let zeros = leading_zeros(&whole.bytes[..whole.count]);
    if zeros < whole.count {
        let first = Digits {
            bytes: &whole.bytes[zeros..],
            count: whole.count - zeros,
        };
        let places = (first.count - 1) as i32;
        return append_normalised(negative, first, fraction, exponent + places, draft);
    }
    let zeros = leading_zeros(&fraction.bytes[..fraction.count]);
    if zeros < fraction.count {
        let first = Digits {
            bytes: &fraction.bytes[zeros..],
            count: fraction.count - zeros,
        };
        let none = Digits {
            bytes: &[],
            count: 0,
        };
        let places = (zeros + 1) as i32;
        return append_normalised(negative, first, none, exponent - places, draft);
    }
    draft.append(b"0.")
}

/// Appends digits with a point behind the first, which is no zero, and the exponent, or a part of that; says whether it is
/// whole. An exponent of more than two digits isn't usual.
#[inline(always)]
fn append_normalised(
    negative: bool,
    first: Digits<'_>,
    others: Digits<'_>,
    exponent: i32,
    draft: &mut Draft,
) -> bool
    requires some { 0 < first.count }
    requires first { AreDigits first.bytes.now first.count }
    requires others { AreDigits others.bytes.now others.count }
    requires no_zero { HasNoLeadingZero first.bytes.now }
    ensures { AppendsNormalised result negative (take first.entry.count first.entry.bytes.now ++ take others.entry.count others.entry.bytes.now) exponent draft.old draft.new }
{
    if exponent < -99 || exponent > 99 {
        return false;
    }
    if !append_pointed(negative, first, others, draft) {
        return false;
    }
    append_exponent(exponent, draft)
}

/// The same with no exponent.
#[inline(always)]
fn append_pointed(negative: bool, first: Digits<'_>, others: Digits<'_>, draft: &mut Draft) -> bool
    requires some { 0 < first.count }
    requires first { AreDigits first.bytes.now first.count }
    requires others { AreDigits others.bytes.now others.count }
    requires no_zero { HasNoLeadingZero first.bytes.now }
    ensures { AppendsWithoutExponent result negative (take first.entry.count first.entry.bytes.now ++ take others.entry.count others.entry.bytes.now) draft.old draft.new }
{
    if !append_minus(negative, draft) {
        return false;
    }
    if !draft.put(first.bytes[0]) {
        return false;
    }
    if !draft.put(b'.') {
        return false;
    }
    let start = draft.len();
    if !draft.append_prefix(&first.bytes[1..], first.count - 1) {
        return false;
    }
    if !append_some(others, draft) {
        return false;
    }
    draft.cut_zeros(start);
    true
}

/// Appends digits, of which there are often none.
#[inline(always)]
fn append_some(digits: Digits<'_>, draft: &mut Draft) -> bool
    requires { digits.count ≤ length digits.bytes.now }
    ensures { AppendsAllOrNone result (take digits.entry.count digits.entry.bytes.now) draft.old draft.new }
{
    if digits.count == 0 {
        return true;
    }
    draft.append_prefix(digits.bytes, digits.count)
}
