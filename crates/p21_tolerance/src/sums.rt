//! Two sums, digit by digit from the highest place down.
ghost use Rattle.std.specs.Prelude.{◌≡◌, ◌↔◌, ◌+◌, ◌*◌, ◌^◌, ◌<◌, ◌≤◌, ℕ, min, IsTrue, IfNone, Some, true, false};
ghost use Rattle.p21_tolerance.specs.Places.{IsReadable, value_of};
ghost use Rattle.p21_tolerance.specs.Sums.{AreReadable, IsSumBelow, sum_of};

use crate::places::Places;

/// A number, and another one so many times.
#[derive(Clone, Copy)]
pub(crate) struct Sum<'a> {
    first: Places<'a>,
    second: Places<'a>,
    times: u64,
}

/// What one sum has more than the other in the places so far: of the two one is 0.
#[derive(Clone, Copy)]
struct Ahead {
    left: u128,
    right: u128,
}

/// All digits that are left make less than this, in units of the last place.
const DECIDED: u128 = 1 << 70;

/// Whether a sum is at most another one.
pub(crate) fn is_at_most(first: Sum<'_>, second: Sum<'_>) -> bool
    requires first { AreReadable first }
    requires second { AreReadable second }
    ensures { IsTrue result ↔ sum_of first.entry ≤ sum_of second.entry }
{
    let mut left = first;
    let mut right = second;
    let mut ahead = Ahead { left: 0, right: 0 };
    let mut place = higher(left.top(), right.top());
    while place > 0 {
        let here = place - 1;
        let (left_digit, left_rest) = left.taken(here);
        let (right_digit, right_rest) = right.taken(here);
        ahead = ahead.then(left_digit, right_digit);
        if let Some(answer) = ahead.answer() {
            return answer;
        }
        left = left_rest;
        right = right_rest;
        place = ahead.next_place(here, left, right);
    }
    ahead.left <= ahead.right
}

impl<'a> Sum<'a> {
    /// A number, and another one so many times.
    pub(crate) fn of(first: Places<'a>, second: Places<'a>, times: u64) -> Sum<'a>
        requires first { IsReadable first }
        requires second { IsReadable second }
        ensures readable { AreReadable result }
        ensures value { sum_of result ≡ value_of first.entry + times * value_of second.entry }
    {
        Sum {
            first,
            second,
            times,
        }
    }

    /// How many places the digits reach up to.
    fn top(self) -> u128
        requires { AreReadable self }
        ensures above { IsSumBelow self.entry result }
        ensures least { (place : ℕ) → IsSumBelow self.entry place → result ≤ place }
    {
        higher(self.first.top(), self.second.top())
    }

    /// What the digits at this place count for, and what is left below it.
    fn taken(self, place: u128) -> (u128, Sum<'a>)
        requires readable { AreReadable self }
        requires below { IsSumBelow self (place + 1) }
        ensures value { sum_of self.entry ≡ result.0 * 10 ^ place + sum_of result.1 }
        ensures below { IsSumBelow result.1 place }
        ensures readable { AreReadable result.1 }
        ensures small { result.0 < 2 ^ 73 }
    {
        let (first_digit, first) = self.first.taken(place);
        let (second_digit, second) = self.second.taken(place);
        let times = self.times;
        let digit = first_digit + u128::from(times) * second_digit;
        (
            digit,
            Sum {
                first,
                second,
                times,
            },
        )
    }
}

impl Ahead {
    /// The same one place further, with what the digits there count for.
    fn then(self, left: u128, right: u128) -> Ahead
        requires self_left { self.left < 2 ^ 70 }
        requires self_right { self.right < 2 ^ 70 }
        requires left { left < 2 ^ 73 }
        requires right { right < 2 ^ 73 }
        ensures one { min result.left result.right ≡ 0 }
        ensures same { (both : ℕ) × (self.left * 10 + left ≡ both + result.left) × (self.right * 10 + right ≡ both + result.right) }
    {
        let left = self.left * 10 + left;
        let right = self.right * 10 + right;
        if left < right {
            Ahead {
                left: 0,
                right: right - left,
            }
        } else {
            Ahead {
                left: left - right,
                right: 0,
            }
        }
    }

    /// Whether the left sum is at most the right one, where that is known whatever digits follow.
    fn answer(self) -> Option<bool>
        requires { min self.left self.right ≡ 0 }
        ensures none { IfNone result ((self.left < 2 ^ 70) × (self.right < 2 ^ 70)) }
        ensures less { result ≡ Some true → self.left + 2 ^ 70 ≤ self.right }
        ensures more { result ≡ Some false → self.right + 2 ^ 70 ≤ self.left }
    {
        if self.left >= DECIDED {
            return Some(false);
        }
        if self.right >= DECIDED {
            return Some(true);
        }
        None
    }

    /// The place above the next digits: where neither sum is ahead, the highest digit that is left stands below it.
    fn next_place(self, place: u128, left: Sum<'_>, right: Sum<'_>) -> u128
        requires ahead { min self.left self.right ≡ 0 }
        requires left { AreReadable left }
        requires right { AreReadable right }
        requires left_below { IsSumBelow left place }
        requires right_below { IsSumBelow right place }
        ensures within { result ≤ place }
        ensures left { self.left * 10 ^ result ≡ self.left * 10 ^ place }
        ensures right { self.right * 10 ^ result ≡ self.right * 10 ^ place }
        ensures left_below { IsSumBelow left.entry result }
        ensures right_below { IsSumBelow right.entry result }
    {
        if self.left == self.right {
            return higher(left.top(), right.top());
        }
        place
    }
}

/// The greater one of two numbers.
fn higher(one: u128, other: u128) -> u128
    ensures one { one ≤ result }
    ensures other { other ≤ result }
    ensures least { (most : ℕ) → one ≤ most → other ≤ most → result ≤ most }
{
    if one < other { other } else { one }
}
