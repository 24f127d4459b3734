//! Whether the numbers of two values are within a tolerance.
ghost use Rattle.std.specs.Prelude.{◌≡◌, ◌↔◌, ◌⊎◌, IsTrue};
ghost use Rattle.p21_model_values.specs.Written.{IsTextOf};
ghost use Rattle.p21_spec_exchange.specs.Parameter.{Param};
ghost use Rattle.p21_tolerance.specs.Numbers.{AreDigitsOf, AreNumbersWithin, AreNumbersWithinShare, number_in};
ghost use Rattle.p21_tolerance.specs.Within.{tolerance_of};

use crate::digits::{are_digits_within, are_digits_within_share};
use crate::tolerance::Tolerance;
use p21_model_values::{Digits, Kind, Value};

/// Whether two values are whole numbers or reals that differ by no more than a tolerance. It takes no memory.
pub fn are_within(first: Value<'_>, second: Value<'_>, tolerance: Tolerance) -> bool
    ensures { (p q : Param) → IsTextOf first.entry.text.now p → IsTextOf second.entry.text.now q → IsTrue result ↔ AreNumbersWithin
        (number_in p) (number_in q) (tolerance_of tolerance) }
{
    let Some(first) = number(first) else {
        return false;
    };
    let Some(second) = number(second) else {
        return false;
    };
    are_digits_within(first, second, tolerance)
}

/// Whether two values are whole numbers or reals that differ by no more than one of them, whatever its sign, times a tolerance. It takes
/// no memory.
pub fn are_within_share(first: Value<'_>, second: Value<'_>, tolerance: Tolerance) -> bool
    ensures { (p q : Param) → IsTextOf first.entry.text.now p → IsTextOf second.entry.text.now q → IsTrue result ↔ AreNumbersWithinShare
        (number_in p) (number_in q) (tolerance_of tolerance) }
{
    let Some(first) = number(first) else {
        return false;
    };
    let Some(second) = number(second) else {
        return false;
    };
    are_digits_within_share(first, second, first, tolerance)
        || are_digits_within_share(first, second, second, tolerance)
}

/// The digits of a whole number or a real; nothing where the value is neither.
fn number(value: Value<'_>) -> Option<Digits<'_>>
    ensures { (p : Param) → IsTextOf value.entry.text.now p → AreDigitsOf result (number_in p) }
{
    match value.kind() {
        Kind::Whole => value.digits(),
        Kind::Real => value.digits(),
        _ => None,
    }
}
