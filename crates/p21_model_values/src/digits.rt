//! The exact digits of a number.

/// A number by its digits: those on both sides of the point as one number, times ten to the exponent, less one for each digit of
/// the fraction. A whole number has no fraction, and the exponent 0.
#[derive(Clone, Copy)]
pub struct Digits<'a> {
    pub negative: bool,
    /// In ASCII, one digit or more.
    pub whole: &'a [u8],
    /// In ASCII.
    pub fraction: &'a [u8],
    pub exponent: i32,
}
