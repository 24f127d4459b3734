//! The digits of a number, the highest first.
ghost use Rattle.std.specs.Prelude.{◌≡◌, ◌+◌, ◌-◌, ◌*◌, ◌^◌, ◌<◌, ◌≤◌, ◌++◌, ℕ, length};
ghost use Rattle.p21_spec_basics.specs.Digits.{number};
ghost use Rattle.p21_tolerance.specs.Places.{AreBelow, IsReadable, digits_left, value_of};

/// The digits that are left of a number, those before its point and those behind it, and how many places there are behind the last
/// one.
#[derive(Clone, Copy)]
pub(crate) struct Places<'a> {
    pub(crate) whole: &'a [u8],
    pub(crate) fraction: &'a [u8],
    pub(crate) behind: u128,
}

impl<'a> Places<'a> {
    /// No digits: the number zero.
    pub(crate) fn none() -> Places<'a>
        ensures readable { IsReadable result }
        ensures value { value_of result ≡ 0 }
    {
        Places {
            whole: &[],
            fraction: &[],
            behind: 0,
        }
    }

    /// Digits on both sides of a point, and so many places behind them.
    pub(crate) fn of(whole: &'a [u8], fraction: &'a [u8], behind: u128) -> Places<'a>
        requires { behind < 2 ^ 126 }
        ensures readable { IsReadable result }
        ensures value { value_of result ≡ number (whole.now ++ fraction.now) * 10 ^ behind }
    {
        Places {
            whole,
            fraction,
            behind,
        }
    }

    /// How many places the digits reach up to: none where no digit is left.
    pub(crate) fn top(self) -> u128
        requires { IsReadable self }
        ensures above { AreBelow self.entry result }
        ensures least { (place : ℕ) → AreBelow self.entry place → result ≤ place }
    {
        let count = self.whole.len() as u128 + self.fraction.len() as u128;
        if count == 0 {
            return 0;
        }
        self.behind + count
    }

    /// The digit at this place, 0 where none stands there, and what is left below it.
    pub(crate) fn taken(self, place: u128) -> (u128, Places<'a>)
        requires readable { IsReadable self }
        requires below { AreBelow self (place + 1) }
        ensures value { value_of self.entry ≡ result.0 * 10 ^ place + value_of result.1 }
        ensures below { AreBelow result.1 place }
        ensures readable { IsReadable result.1 }
        ensures digit { result.0 < 208 }
    {
        if self.top() <= place {
            return (0, self);
        }
        if let Some((first, whole)) = self.whole.split_first() {
            let rest = Places {
                whole,
                fraction: self.fraction,
                behind: self.behind,
            };
            return (digit_of(*first), rest);
        }
        if let Some((first, fraction)) = self.fraction.split_first() {
            let rest = Places {
                whole: &[],
                fraction,
                behind: self.behind,
            };
            return (digit_of(*first), rest);
        }
        (0, self)
    }
}

/// What a digit counts for.
fn digit_of(byte: u8) -> u128
    ensures { result ≡ byte - 48 }
{
    u128::from(byte.saturating_sub(b'0'))
}
