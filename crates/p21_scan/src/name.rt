//! Names of instances (ISO 10303-21, clause 6: tokens, entity instance name).
ghost use Rattle.std.specs.Prelude.{◌≡◌, ◌^◌, ◌≤◌, IfNone, IfSome};
ghost use Rattle.p21_spec_basics.specs.Digits.{AllDigits, number};
ghost use Rattle.p21_scan.specs.Name.{IsNameAt, NoNameAt};

use crate::digits::{behind, number_of};
use crate::row::split_near_digits;

/// So many digits stand for a number of 64 bits, whichever they are.
const SURE_DIGITS: usize = 18;

/// The digits of the name at the front, and what stands behind them.
#[inline(always)]
pub fn scan_name(bytes: &[u8]) -> Option<(&[u8], &[u8])>
    ensures none { IfNone result (NoNameAt bytes.now) }
    ensures some { IfSome result (λ front. IsNameAt bytes.now front.0.now front.1.now) }
{
    let (digits, rest) = split_near_digits(behind(b'#', bytes)?);
    if digits.is_empty() {
        return None;
    }
    Some((digits, rest))
}

/// The number that the digits of a name stand for. `None` where it is above 18446744073709551615.
#[inline(always)]
pub fn name_number(digits: &[u8]) -> Option<u64>
    requires { AllDigits digits.now }
    ensures some { IfSome result (λ n. n ≡ number digits.now) }
    ensures none { IfNone result (2 ^ 64 ≤ number digits.now) }
{
    if digits.len() <= SURE_DIGITS {
        return Some(number_of(digits));
    }
    long_number(digits)
}

#[inline(never)]
#[tactic(auto, using(crate::proofs::DigitRuns::digit_at))]
fn long_number(digits: &[u8]) -> Option<u64>
    requires { AllDigits digits.now }
    ensures some { IfSome result (λ n. n ≡ number digits.now) }
    ensures none { IfNone result (2 ^ 64 ≤ number digits.now) }
{
    let mut number = 0u64;
    for digit in digits {
        number = number
            .checked_mul(10)?
            .checked_add(u64::from(*digit - b'0'))?;
    }
    Some(number)
}
