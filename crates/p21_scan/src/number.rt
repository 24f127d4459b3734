//! Numbers (ISO 10303-21, clause 6: tokens, integer and real).
ghost use Rattle.std.specs.Prelude.{◌≡◌, ◌^◌, ◌<◌, ◌≤◌, ◌∷◌, ◌↔◌, false, nat_abs, IfNone, IfSome};
ghost use Rattle.p21_spec_basics.specs.Digits.{AllDigits, number};
ghost use Rattle.p21_spec_exchange.proofs.Forms.{NoDigitFirst};
ghost use Rattle.p21_spec_exchange.specs.Number.{Exponent, IsExponent, signed};
ghost use Rattle.p21_scan.specs.Digits.{BeginsWithoutByte};
ghost use Rattle.p21_scan.specs.Number.{AreDecimalsAt, HasExponent, IsExponentAt, IsIntegerAt, IsNumberAt, NoIntegerAt, ReadsExponent};

use crate::digits::{behind, short_number, split_digits, split_sign, without_leading_zeros};

/// Digits behind a sign or none: an integer, or what an exponent has behind its `E`.
#[derive(Clone, Copy)]
pub struct Integer<'a> {
    /// Whether the sign is a minus.
    pub negative: bool,
    pub digits: &'a [u8],
}

/// What a real has from its point on.
#[derive(Clone, Copy)]
pub struct Decimals<'a> {
    /// The digits behind the point.
    pub fraction: &'a [u8],
    pub exponent: Option<Integer<'a>>,
}

/// An integer, or a real where it has decimals.
#[derive(Clone, Copy)]
pub struct Number<'a> {
    /// Whether the sign is a minus.
    pub negative: bool,
    /// The digits before the point, or all of them.
    pub whole: &'a [u8],
    pub decimals: Option<Decimals<'a>>,
}

/// The sign and the digits at the front, and what stands behind them.
#[inline(always)]
pub fn scan_integer(bytes: &[u8]) -> Option<(Integer<'_>, &[u8])>
    ensures none { IfNone result (NoIntegerAt bytes.now) }
    ensures some { IfSome result (λ front. IsIntegerAt bytes.now front.0.negative front.0.digits.now front.1.now) }
{
    let (negative, unsigned) = split_sign(bytes);
    let (digits, rest) = split_digits(unsigned);
    if digits.is_empty() {
        return None;
    }
    Some((Integer { negative, digits }, rest))
}

/// Whether the `E` of an exponent stands first.
#[inline(always)]
pub fn begins_exponent(bytes: &[u8]) -> bool
    ensures { result ≡ false ↔ BeginsWithoutByte 69 bytes.now }
{
    behind_exponent_mark(bytes).is_some()
}

/// What stands behind the `E` of an exponent, where it stands first.
#[inline(always)]
fn behind_exponent_mark(bytes: &[u8]) -> Option<&[u8]>
    ensures none { IfNone result (BeginsWithoutByte 69 bytes.now) }
    ensures some { IfSome result (λ rest. bytes.now ≡ 69 ∷ rest.now) }
{
    behind(b'E', bytes)
}

/// The exponent at the front, if there is one, and what stands behind it.
#[inline(always)]
pub fn scan_exponent(bytes: &[u8]) -> (Option<Integer<'_>>, &[u8])
    requires { NoDigitFirst bytes.now }
    ensures { (power : Exponent) × HasExponent result.0 power × IsExponentAt bytes.now power result.1.now }
{
    let Some(written) = behind_exponent_mark(bytes) else {
        return (None, bytes);
    };
    match scan_integer(written) {
        Some((exponent, rest)) => (Some(exponent), rest),
        None => (None, bytes),
    }
}

/// The number at the front, and what stands behind it.
#[inline(always)]
pub fn scan_number(bytes: &[u8]) -> Option<(Number<'_>, &[u8])>
    ensures none { IfNone result (NoIntegerAt bytes.now) }
    ensures some { IfSome result (λ front. IsNumberAt bytes.now front.0 front.1.now) }
{
    let (integer, rest) = scan_integer(bytes)?;
    let (decimals, rest) = scan_decimals(rest);
    let number = Number {
        negative: integer.negative,
        whole: integer.digits,
        decimals,
    };
    Some((number, rest))
}

/// The point, the digits and the exponent at the front, if a point stands there, and what stands behind them.
#[inline(always)]
fn scan_decimals(bytes: &[u8]) -> (Option<Decimals<'_>>, &[u8])
    ensures { AreDecimalsAt bytes.now result.0 result.1.now }
{
    let Some(digits) = behind(b'.', bytes) else {
        return (None, bytes);
    };
    let (fraction, rest) = split_digits(digits);
    let (exponent, rest) = scan_exponent(rest);
    (Some(Decimals { fraction, exponent }), rest)
}

/// The number of an exponent, 0 where there is none. `None` where it has more than nine digits apart from leading zeros.
#[inline(always)]
pub fn exponent_value(exponent: Option<Integer<'_>>) -> Option<i32>
    requires { (power : Exponent) × HasExponent exponent power × IsExponent power }
    ensures value { (power : Exponent) → HasExponent exponent.entry power → ReadsExponent power result }
    ensures small { IfSome result (λ value. nat_abs value < 10 ^ 9) }
{
    match exponent {
        Some(exponent) => short_exponent(exponent.negative, exponent.digits),
        None => Some(0),
    }
}

#[inline(always)]
fn short_exponent(negative: bool, digits: &[u8]) -> Option<i32>
    requires { AllDigits digits.now }
    ensures none { IfNone result (10 ^ 9 ≤ number digits.now) }
    ensures short { IfSome result (λ value. number digits.now < 10 ^ 9) }
    ensures some { IfSome result (λ value. value ≡ signed negative (number digits.now)) }
    ensures small { IfSome result (λ value. nat_abs value < 10 ^ 9) }
{
    let significant = without_leading_zeros(digits);
    if significant.len() > 9 {
        return None;
    }
    let value = short_number(significant) as i32;
    Some(if negative { -value } else { value })
}
