//! The widths in which numbers are stored.
ghost use Rattle.std.specs.Prelude.{◌≡◌, ◌≤◌, ◌+◌, ◌*◌, ◌^◌, ℕ, IfSome, IsNone};

/// A width in which numbers are stored.
pub trait Width: Copy {
    ghost value: { Self → ℕ };

    // It holds the numbers below this.
    ghost bound: { ℕ };

    /// The number in this width, if it holds it.
    fn of(number: usize) -> Option<Self>
        ensures some { IfSome result (λ kept. value kept ≡ number) }
        ensures none { IsNone result → bound ≤ number };

    /// The number.
    fn number(self) -> usize
        ensures { result ≡ value self };
}

impl Width for u8 {
    ghost value = { λ kept. kept };

    ghost bound = { 2 ^ 8 };

    fn of(number: usize) -> Option<u8> {
        if number >= 1 << 8 {
            return None;
        }
        Some(number as u8)
    }

    fn number(self) -> usize {
        self as usize
    }
}

impl Width for u16 {
    ghost value = { λ kept. kept };

    ghost bound = { 2 ^ 16 };

    fn of(number: usize) -> Option<u16> {
        if number >= 1 << 16 {
            return None;
        }
        Some(number as u16)
    }

    fn number(self) -> usize {
        self as usize
    }
}

impl Width for u32 {
    ghost value = { λ kept. kept };

    ghost bound = { 2 ^ 32 };

    fn of(number: usize) -> Option<u32> {
        if number >= 1 << 32 {
            return None;
        }
        Some(number as u32)
    }

    fn number(self) -> usize {
        self as usize
    }
}

/// A number of 24 bits: its lowest byte first.
#[derive(Clone, Copy)]
pub struct ThreeBytes {
    low: u8,
    middle: u8,
    high: u8,
}

impl Width for ThreeBytes {
    ghost value = { λ kept. kept.low + 256 * kept.middle + 65536 * kept.high };

    ghost bound = { 2 ^ 24 };

    fn of(number: usize) -> Option<ThreeBytes> {
        if number >= 1 << 24 {
            return None;
        }
        Some(ThreeBytes {
            low: (number % 256) as u8,
            middle: (number / 256 % 256) as u8,
            high: (number / 65536) as u8,
        })
    }

    fn number(self) -> usize {
        self.low as usize + 256 * self.middle as usize + 65536 * self.high as usize
    }
}
