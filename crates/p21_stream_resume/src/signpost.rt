ghost use Rattle.std.specs.Prelude.{◌≡◌, ◌≤◌, ◌<◌};
ghost use Rattle.p21_stream_resume.specs.Shape.{IsDigitOf};
ghost use Rattle.p21_stream_resume.specs.Step.{next_value, one_more, with_digit};

/// The digits of an instance name, of which none is kept.
#[derive(Clone, Copy, Debug, PartialEq, Eq)]
pub struct Numeral {
    /// How many they are, up to 2^64 - 1: all, or where they stand for no number below 2^64 those in front of the first digit with
    /// which they don't.
    pub count: u64,
    /// The number that so many of them stand for.
    pub value: u64,
    /// Whether these are all.
    pub fits: bool,
}

impl Numeral {
    /// No digits.
    pub(crate) const NONE: Numeral = Numeral {
        count: 0,
        value: 0,
        fits: true,
    };

    /// The digit in front of which so many of these stand.
    pub fn digit(&self, place: u64) -> u8
        requires { place < self.now.count }
        ensures { IsDigitOf self.now.count self.now.value place result }
    {
        let behind = self.count - 1 - place;
        let mut left = self.value;
        let mut dropped: u64 = 0;
        while dropped < behind && left > 0 {
            left /= 10;
            dropped += 1;
        }
        b'0' + (left % 10) as u8
    }

    /// These and one digit more.
    pub(crate) fn with_digit(self, digit: u8) -> Numeral
        requires { 48 ≤ digit }
        ensures { result ≡ with_digit self digit }
    {
        if !self.fits {
            return self;
        }
        match next_value(self.value, digit - b'0') {
            None => Numeral {
                count: self.count,
                value: self.value,
                fits: false,
            },
            Some(value) => Numeral {
                count: one_more(self.count),
                value,
                fits: true,
            },
        }
    }
}

/// One more, up to 2^64 - 1.
pub(crate) fn one_more(count: u64) -> u64
    ensures { result ≡ one_more count }
{
    count.saturating_add(1)
}

/// The number of digits and one more, if it is below 2^64.
fn next_value(value: u64, digit: u8) -> Option<u64>
    ensures { result ≡ next_value value digit }
{
    value.checked_mul(10)?.checked_add(u64::from(digit))
}

/// A landmark, or how a file begins or ends.
#[derive(Clone, Copy, Debug, PartialEq, Eq)]
pub enum Signpost {
    /// `#`, digits, so many blanks up to 2^64 - 1, and `=`.
    Instance(Numeral, u64),
    /// `ENDSEC`, so many blanks, and `;`.
    SectionEnd(u64),
    /// `ISO-10303-21`.
    FileBegin,
    /// `END-ISO-10303-21`.
    FileEnd,
}
