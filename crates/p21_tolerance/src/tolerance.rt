//! The number behind a tolerance, as somebody gives it.
ghost use Rattle.std.specs.Prelude.{◌≡◌, ◌+◌, ◌*◌, ◌^◌, ◌<◌, ◌≤◌, ◌-ℤ◌, ℤ, pos, nat_abs, length, IfNone, IfSome};
ghost use Rattle.p21_spec_basics.specs.Digits.{AllDigits, number};
ghost use Rattle.p21_spec_exchange.proofs.Forms.{NoDigitFirst};
ghost use Rattle.p21_spec_exchange.specs.Number.{SpellsWhole};
ghost use Rattle.p21_tolerance.specs.Spelled.{IsFractionAt, IsPower, SpellsTolerance};
ghost use Rattle.p21_tolerance.specs.declared.tolerance.Tolerance.{Tolerance};

use p21_scan::{behind, exponent_value, scan_integer, split_digits};

/// A number from 0 on: so many units of a power of ten.
#[derive(Clone, Copy)]
pub struct Tolerance {
    pub units: u64,
    pub power: i32,
}

impl Tolerance {
    /// The number of digits with a point or none, and an exponent or none, as `0.001`, `1e-3` and `5`. Nothing of a text that is no
    /// such, so of one with a sign in front, and of a number that has more than 18 digits apart from the zeros in front, 10^9 digits or
    /// more behind its point, or more than nine in its exponent apart from the zeros in front.
    pub fn of(text: &[u8]) -> Option<Tolerance>
        ensures some { IfSome result (λ tolerance. SpellsTolerance text.now tolerance) }
        ensures none { IfNone result ((tolerance : Tolerance) → SpellsTolerance text.now tolerance → ⊥) }
    {
        let (whole, more) = split_digits(text);
        let (fraction, written) = split_fraction(more);
        if whole.is_empty() && fraction.is_empty() {
            return None;
        }
        if fraction.len() >= 1_000_000_000 {
            return None;
        }
        let Some(exponent) = exponent_of(written) else {
            return None;
        };
        let Some(front) = with_digits(0, whole) else {
            return None;
        };
        let Some(units) = with_digits(front, fraction) else {
            return None;
        };
        Some(Tolerance {
            units,
            power: exponent - fraction.len() as i32,
        })
    }
}

/// The digits behind a point at the front, none where no point stands there, and what stands behind them.
fn split_fraction(bytes: &[u8]) -> (&[u8], &[u8])
    requires { NoDigitFirst bytes.now }
    ensures { IsFractionAt bytes.now result.0.now result.1.now }
{
    let Some(digits) = behind(b'.', bytes) else {
        return (&[], bytes);
    };
    split_digits(digits)
}

/// The number of an exponent behind its `E` or `e`, and 0 where there is none.
fn exponent_of(bytes: &[u8]) -> Option<i32>
    ensures some { IfSome result (λ value. IsPower bytes.now value) }
    ensures small { IfSome result (λ value. nat_abs value < 10 ^ 9) }
    ensures none { IfNone result ((value : ℤ) → IsPower bytes.now value → ⊥) }
{
    let Some((mark, written)) = bytes.split_first() else {
        return Some(0);
    };
    if *mark == b'E' || *mark == b'e' {
        return integer_of(written);
    }
    None
}

/// An integer of at most nine digits apart from the zeros in front.
fn integer_of(bytes: &[u8]) -> Option<i32>
    ensures some { IfSome result (λ value. SpellsWhole bytes.now value) }
    ensures small { IfSome result (λ value. nat_abs value < 10 ^ 9) }
    ensures none { IfNone result ((value : ℤ) → SpellsWhole bytes.now value → nat_abs value < 10 ^ 9 → ⊥) }
{
    let Some((integer, rest)) = scan_integer(bytes) else {
        return None;
    };
    if !rest.is_empty() {
        return None;
    }
    exponent_value(Some(integer))
}

/// A number with further digits behind its own; nothing where that is 10^18 or more.
fn with_digits(front: u64, digits: &[u8]) -> Option<u64>
    requires front { front < 10 ^ 18 }
    requires are_digits { AllDigits digits.now }
    ensures some { IfSome result (λ all. all ≡ front * 10 ^ length digits.now + number digits.now) }
    ensures few { IfSome result (λ all. all < 10 ^ 18) }
    ensures none { IfNone result (10 ^ 18 ≤ front * 10 ^ length digits.now + number digits.now) }
{
    let mut all = front;
    for digit in digits {
        all = all * 10 + u64::from(digit.saturating_sub(b'0'));
        if all >= 1_000_000_000_000_000_000 {
            return None;
        }
    }
    Some(all)
}
