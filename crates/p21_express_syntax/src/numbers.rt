//! `?` as an upper bound is taken like digits: behind either one an operator or a name is refused as S6, since bounds
//! by an expression aren't read, and a number as S2.
ghost use Rattle.std.specs.Prelude.{◌≡◌, ◌<◌, ◌≤◌, MatchOption};
ghost use Rattle.p21_spec_basics.specs.Digits.{AllDigits, number};

/// The number that digits stand for, leading zeros included, if it is 4294967295 at most.
#[tactic(auto, using(p21_scan::proofs::DigitRuns::digit_at))]
pub(crate) fn number_of(digits: &[u8]) -> Option<u32>
    requires { AllDigits digits.now }
    ensures { MatchOption result (4294967295 < number digits.now) (λ n. n ≡ number digits.now) }
{
    let mut number = 0u32;
    for digit in digits {
        number = number
            .checked_mul(10)?
            .checked_add(u32::from(*digit - b'0'))?;
    }
    Some(number)
}
