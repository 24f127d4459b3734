//! Equality of `Decimal` is equality of what is kept. The significand is no multiple of ten, so one ratio has one form.
//! `==` needs no memory and no arithmetic.
ghost use Rattle.std.specs.Prelude.{◌≡◌, ◌-◌, ◌^◌, ◌<◌, ◌≤◌, ◌+ℤ◌, ◌-ℤ◌, pos, [], ◌∷◌, ◌++◌, length, if◌then◌else◌, IfNone, IfOk, IfSome, OnErr, OnOk};
ghost use Rattle.p21_spec_basics.specs.Digits.{AllDigits, number};
ghost use Rattle.p21_spec_exchange.specs.Number.{IsExponentInRange, whole_ratio};
ghost use Rattle.p21_spec_exchange.specs.Spelling.{exponent_spelling, real_spelling};
ghost use Rattle.p21_values.specs.Canonical.{Continues};
ghost use Rattle.p21_values.specs.Decimal.{IsDecimal, ReducesRatio, ReadsReal};
ghost use Rattle.p21_values.specs.RealComponents.{digits_ratio};
ghost use Rattle.p21_values.specs.Stored.{significand_spelling};
ghost use Rattle.p21_scan.specs.Digits.{WithoutTrailingZeros, WithoutLeadingZeros};

use crate::bytes::Bytes;
use crate::canonical::{Canonical, restore_on_failure};
use crate::fault::{NoMemory, ValueFault};
use crate::whole::Whole;
use p21_scan::{exponent_value, scan_number, without_leading_zeros, without_trailing_zeros};
use std::alloc::{AllocError, Global};
use std::marker::Model;

/// A decimal number of any length: the value of a REAL or a NUMBER.
#[derive(Debug, Drop)]
pub struct Decimal {
    negative: bool,
    // Of the form with one digit before the point: 0 for the number zero.
    exponent: i16,
    // ASCII, no zero at either end: none for the number zero.
    digits: Bytes,
}

impl Model for Decimal {
    ghost use Rattle.p21_spec_exchange.specs.Number as numbers;
    ghost use Rattle.p21_values.specs.Stored.{IsStoredDecimal, stored_decimal};

    ghost Value = { numbers.Decimal };

    ghost view = { λ decimal. stored_decimal decimal.negative decimal.digits decimal.exponent };

    ghost invariant = { λ decimal. IsStoredDecimal decimal.negative decimal.digits decimal.exponent };
}

// The digits of a real on both sides of the point.
#[derive(Clone, Copy)]
pub(crate) struct Digits<'a> {
    pub(crate) whole: &'a [u8],
    pub(crate) fraction: &'a [u8],
}

impl Decimal {
    /// Reads the bytes of one real (ISO 10303-21, tokens: real): a sign or none, digits, a point, digits or none, and
    /// an exponent or none.
    ///
    /// # Errors
    ///
    /// `BadNumber` where the bytes are no real. `NumberRange` where they are, and the written exponent has more than
    /// nine digits apart from leading zeros, or the exponent of the form with one digit before the point isn't in
    /// -9999 to 9999. `NoMemory`.
    pub fn read(alloc: Global, bytes: &[u8]) -> Result<Decimal, ValueFault>
        ensures { ReadsReal bytes.now result }
    {
        let Some((number, rest)) = scan_number(bytes) else {
            return Err(ValueFault::BadNumber);
        };
        let Some(decimals) = number.decimals else {
            return Err(ValueFault::BadNumber);
        };
        if !rest.is_empty() {
            return Err(ValueFault::BadNumber);
        }
        let Some(exponent) = exponent_value(decimals.exponent) else {
            return Err(ValueFault::NumberRange);
        };
        let digits = Digits {
            whole: number.whole,
            fraction: decimals.fraction,
        };
        Decimal::of_digits(alloc, number.negative, digits, exponent)
    }

    /// The number with the same ratio.
    ///
    /// # Errors
    ///
    /// `NumberRange` where the exponent of the form with one digit before the point is over 9999, `NoMemory`.
    pub fn of_whole(alloc: Global, whole: &Whole) -> Result<Decimal, ValueFault>
        ensures { ReducesRatio (whole_ratio whole.now) result }
    {
        let (negative, digits) = whole.parts();
        let digits = Digits {
            whole: digits,
            fraction: &[],
        };
        Decimal::of_digits(alloc, negative, digits, 0)
    }

    /// Each decimal is reduced, and in the range of a real. It does nothing.
    pub fn holds(&self)
        ensures { IsDecimal self.now }
    {
        let _negative = self.negative;
    }

    // The number of the digits, times ten to the exponent.
    #[inline(always)]
    pub(crate) fn of_digits(
        alloc: Global,
        negative: bool,
        digits: Digits<'_>,
        exponent: i32,
    ) -> Result<Decimal, ValueFault>
        requires { AllDigits (digits.whole.now ++ digits.fraction.now) }
        ensures { ReducesRatio (digits_ratio negative digits.entry.whole.now digits.entry.fraction.now exponent) result }
    {
        let places = digits.fraction.len();
        let significant = digits.without_leading_zeros();
        let count = significant.len();
        if count == 0 {
            return Ok(Decimal {
                negative: false,
                digits: Bytes::empty(),
                exponent: 0,
            });
        }
        let Some(exponent) = normalised_exponent(exponent, count, places) else {
            return Err(ValueFault::NumberRange);
        };
        let digits = significant.without_trailing_zeros().to_bytes(alloc)?;
        Ok(Decimal {
            negative,
            exponent,
            digits,
        })
    }
}

impl<'a> Digits<'a> {
    // Without the zeros in front of all: no digits for the number zero.
    fn without_leading_zeros(self) -> Digits<'a>
        requires { AllDigits (self.whole.now ++ self.fraction.now) }
        ensures { WithoutLeadingZeros (self.entry.whole.now ++ self.entry.fraction.now) (result.whole.now ++ result.fraction.now) }
    {
        let whole = without_leading_zeros(self.whole);
        let fraction = if whole.is_empty() {
            without_leading_zeros(self.fraction)
        } else {
            self.fraction
        };
        Digits { whole, fraction }
    }

    // Without the zeros behind all.
    fn without_trailing_zeros(self) -> Digits<'a>
        requires { AllDigits (self.whole.now ++ self.fraction.now) }
        ensures { WithoutTrailingZeros (self.entry.whole.now ++ self.entry.fraction.now) (result.whole.now ++ result.fraction.now) }
    {
        let fraction = without_trailing_zeros(self.fraction);
        let whole = if fraction.is_empty() {
            without_trailing_zeros(self.whole)
        } else {
            self.whole
        };
        Digits { whole, fraction }
    }

    fn len(self) -> usize
        ensures { result ≡ length (self.entry.whole.now ++ self.entry.fraction.now) }
    {
        self.whole.len() + self.fraction.len()
    }

    fn to_bytes(self, alloc: Global) -> Result<Bytes, AllocError>
        ensures { IfOk result (λ digits. digits ≡ self.entry.whole.now ++ self.entry.fraction.now) }
    {
        Bytes::of_both(alloc, self.whole, self.fraction)
    }
}

// The exponent of so many digits, `places` of them behind the point, times ten to the exponent that is written.
fn normalised_exponent(written: i32, digits: usize, places: usize) -> Option<i16>
    requires { 0 < digits }
    ensures none { IfNone result (IsExponentInRange (written +ℤ pos (digits - 1) -ℤ pos places) → ⊥) }
    ensures some { IfSome result (λ exponent. exponent ≡ written +ℤ pos (digits - 1) -ℤ pos places) }
    ensures in_range { IfSome result IsExponentInRange }
{
    let exponent = i128::from(written) + (digits as i128 - 1) - places as i128;
    if exponent < -9999 || exponent > 9999 {
        return None;
    }
    Some(exponent as i16)
}

impl PartialEq for Decimal {
    ghost use Rattle.std.proofs.Common.{rules};
    ghost use Rattle.std.specs.Cmp.Rules.{comparing};
    ghost use Rattle.std.specs.Prelude.{◌≡◌, ◌↔◌, IsTrue};
    ghost use Rattle.std.specs.Ordering.{eq_of_both, int_eq, on};
    ghost use Rattle.p21_spec_exchange.specs.Number.{SameRatio, ratio_of};
    ghost use Rattle.p21_values.specs.Decimal.{decimal_eq};

    ghost eq = { decimal_eq };

    ghost laws = { Prim.search (comparing, rules) };

    /// Whether both mean the same. It takes no memory.
    fn eq(&self, other: &Decimal) -> bool
        ensures eq { result ≡ decimal_eq self.now other.now }
        ensures same { IsTrue result ↔ SameRatio (ratio_of self.now) (ratio_of other.now) }
    {
        if self.negative != other.negative {
            return false;
        }
        if self.exponent != other.exponent {
            return false;
        }
        self.digits == other.digits
    }
}

impl Eq for Decimal {
    ghost use Rattle.std.proofs.Common.{rules};
    ghost use Rattle.std.specs.Cmp.Rules.{comparing};

    ghost laws = { Prim.search (comparing, rules) };
}

impl Canonical for Decimal {
    ghost use Rattle.p21_spec_exchange.specs.Number.{SameRatio, SpellsReal, ratio_of};
    ghost use Rattle.p21_spec_exchange.specs.Spelling.{real_spelling};
    ghost use Rattle.p21_spec_exchange.proofs.RealSpellings.{real_spelling_same, real_spells};
    ghost use Rattle.p21_values.specs.Decimal.{IsDecimal};

    ghost is_value = { IsDecimal };

    ghost same = { λ a b. SameRatio (ratio_of a) (ratio_of b) };

    ghost spells = { SpellsReal };

    ghost spelling = { real_spelling };

    ghost same_spelling = { λ a b p q. real_spelling_same a b p.reduced p.in_range q.reduced q.in_range };

    ghost spells_value = { λ a p. real_spells a p.reduced p.in_range };

    fn write_canonical(&self, out: &mut Vec<u8>) -> Result<(), NoMemory> {
        let before = out.len();
        let written = append(self, out);
        restore_on_failure(out, before, written)
    }
}

// Appends the canonical spelling, or a part of it where memory runs out.
fn append(decimal: &Decimal, out: &mut Vec<u8>) -> Result<(), NoMemory>
    ensures value { IsDecimal decimal.now }
    ensures ok { OnOk result (out.new.items ≡ out.old.items ++ real_spelling decimal.now) }
    ensures err { OnErr result (Continues out.old.items out.new.items) }
{
    append_significand(decimal.negative, &decimal.digits, out)?;
    append_exponent(decimal.exponent, out)?;
    Ok(())
}

fn append_significand(negative: bool, digits: &[u8], out: &mut Vec<u8>) -> Result<(), NoMemory>
    ensures ok { OnOk result (out.new.items ≡ out.old.items ++ ((if negative then 45 ∷ [] else []) ++ significand_spelling digits.now)) }
    ensures err { OnErr result (Continues out.old.items out.new.items) }
{
    if negative {
        out.push(b'-')?;
    }
    if digits.is_empty() {
        out.extend_from_slice(b"0.")?;
        return Ok(());
    }
    out.push(digits[0])?;
    out.push(b'.')?;
    out.extend_from_slice(&digits[1..])?;
    Ok(())
}

fn append_exponent(exponent: i16, out: &mut Vec<u8>) -> Result<(), NoMemory>
    requires { IsExponentInRange exponent }
    ensures ok { OnOk result (out.new.items ≡ out.old.items ++ exponent_spelling exponent) }
    ensures err { OnErr result (Continues out.old.items out.new.items) }
{
    if exponent == 0 {
        return Ok(());
    }
    out.push(b'E')?;
    if exponent < 0 {
        out.push(b'-')?;
    }
    let digits = four_digits(exponent.unsigned_abs());
    out.extend_from_slice(without_leading_zeros(&digits))?;
    Ok(())
}

// The digits of a number below 10000, with zeros in front.
fn four_digits(value: u16) -> [u8; 4]
    requires { value < 10000 }
    ensures digits { AllDigits result }
    ensures value { number result ≡ value }
{
    [
        b'0' + (value / 1000) as u8,
        b'0' + (value / 100 % 10) as u8,
        b'0' + (value / 10 % 10) as u8,
        b'0' + (value % 10) as u8,
    ]
}
