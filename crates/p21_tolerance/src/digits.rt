//! Whether two numbers are within a tolerance, by their digits.
ghost use Rattle.std.specs.Prelude.{◌≡◌, ◌↔◌, ◌⊎◌, ◌+◌, ◌*◌, ◌^◌, ◌<◌, ◌≤◌, pos, negsuc, ◌+ℤ◌, ◌-ℤ◌, ◌≤ℤ◌, length, IsTrue};
ghost use Rattle.p21_tolerance.specs.Near.{AreNear};
ghost use Rattle.p21_tolerance.specs.Places.{IsReadable, value_of};
ghost use Rattle.p21_tolerance.specs.Within.{AreWithin, number_of, share_of, tolerance_of};

use crate::places::Places;
use crate::sums::{Sum, is_at_most};
use crate::tolerance::Tolerance;
use p21_model_values::Digits;

/// Whether two numbers differ by no more than a tolerance.
pub(crate) fn are_digits_within(first: Digits<'_>, second: Digits<'_>, tolerance: Tolerance) -> bool
    ensures { IsTrue result ↔ AreWithin (number_of first.entry) (number_of second.entry) (tolerance_of tolerance) }
{
    let one = Digits {
        negative: false,
        whole: b"1",
        fraction: &[],
        exponent: 0,
    };
    are_digits_within_share(first, second, one, tolerance)
}

/// Whether two numbers differ by no more than a third one, whatever its sign, times the tolerance.
pub(crate) fn are_digits_within_share(
    first: Digits<'_>,
    second: Digits<'_>,
    third: Digits<'_>,
    tolerance: Tolerance,
) -> bool
    ensures { IsTrue result ↔ AreWithin (number_of first.entry) (number_of second.entry)
        (share_of (tolerance_of tolerance) (number_of third.entry)) }
{
    let first_last = last_place(first, 0);
    let second_last = last_place(second, 0);
    let third_last = last_place(third, tolerance.power);
    let lowest = lowest(first_last, second_last, third_last);
    let first_places = Places::of(
        first.whole,
        first.fraction,
        places_between(first_last, lowest),
    );
    let second_places = Places::of(
        second.whole,
        second.fraction,
        places_between(second_last, lowest),
    );
    let third_places = Places::of(
        third.whole,
        third.fraction,
        places_between(third_last, lowest),
    );
    let is_one_sign = first.negative == second.negative;
    are_sizes_near(
        is_one_sign,
        first_places,
        second_places,
        third_places,
        tolerance.units,
    )
}

/// Whether two numbers of one sign or of two, by their sizes, differ by no more than a third one so many times.
fn are_sizes_near(
    is_one_sign: bool,
    first: Places<'_>,
    second: Places<'_>,
    third: Places<'_>,
    times: u64,
) -> bool
    requires first { IsReadable first }
    requires second { IsReadable second }
    requires third { IsReadable third }
    ensures { IsTrue result ↔ AreNear is_one_sign (value_of first.entry) (value_of second.entry) (times * value_of third.entry) }
{
    if is_one_sign {
        is_at_most(
            Sum::of(first, Places::none(), 1),
            Sum::of(second, third, times),
        ) && is_at_most(
            Sum::of(second, Places::none(), 1),
            Sum::of(first, third, times),
        )
    } else {
        is_at_most(
            Sum::of(first, second, 1),
            Sum::of(Places::none(), third, times),
        )
    }
}

/// The place of the last digit of a number times a power of ten.
fn last_place(digits: Digits<'_>, power: i32) -> i128
    ensures place { result ≡ (digits.entry.exponent -ℤ pos (length digits.entry.fraction.now)) +ℤ power }
    ensures low { negsuc (2 ^ 66) ≤ℤ result }
    ensures high { result ≤ℤ pos (2 ^ 33) }
{
    i128::from(digits.exponent) - digits.fraction.len() as i128 + i128::from(power)
}

/// The lowest one of three places.
fn lowest(first: i128, second: i128, third: i128) -> i128
    requires first { negsuc (2 ^ 66) ≤ℤ first }
    requires second { negsuc (2 ^ 66) ≤ℤ second }
    requires third { negsuc (2 ^ 66) ≤ℤ third }
    ensures first { result ≤ℤ first }
    ensures second { result ≤ℤ second }
    ensures third { result ≤ℤ third }
    ensures low { negsuc (2 ^ 66) ≤ℤ result }
{
    if first <= second && first <= third {
        return first;
    }
    if second <= third { second } else { third }
}

/// How many places there are from one down to another one.
fn places_between(high: i128, low: i128) -> u128
    requires order { low ≤ℤ high }
    requires low { negsuc (2 ^ 66) ≤ℤ low }
    requires high { high ≤ℤ pos (2 ^ 33) }
    ensures places { pos result ≡ high -ℤ low }
    ensures short { result < 2 ^ 126 }
{
    (high - low) as u128
}
