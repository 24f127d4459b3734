//! Hex digits, in upper case (ISO 10303-21, clause 5: the basic alphabet).
ghost use Rattle.std.specs.Prelude.{◌≡◌, ◌++◌, ◌^◌, ◌<◌, ◌≤◌, length, IfNone, IfSome, IsTrue};
ghost use Rattle.p21_spec_basics.specs.Digits.{hex_digits};
ghost use Rattle.p21_scan.specs.Hex.{AllHexDigits, IsGroupAt, NoGroupAt, NoHexDigitFirst, hex_value, is_hex_digit};

use hex::FromHex;

/// A hex digit in upper case.
#[inline(always)]
pub fn is_hex_digit(byte: u8) -> bool
    ensures { result ≡ is_hex_digit byte }
{
    matches!(byte, b'0'..=b'9' | b'A'..=b'F')
}

/// The number that a hex digit stands for: it is read as the second digit of a byte.
#[inline(always)]
pub fn hex_value(digit: u8) -> u8
    requires { IsTrue (is_hex_digit digit) }
    ensures value { result ≡ hex_value digit }
    ensures small { result < 16 }
{
    match <[u8; 1]>::from_hex([b'0', digit]) {
        Ok(bytes) => bytes[0],
        Err(_fault) => 0,
    }
}

/// The hex digits at the front, and what stands behind them.
#[tactic(auto, using(crate::proofs::HexRuns::hex_more))]
#[inline(always)]
pub(crate) fn split_hex_digits(bytes: &[u8]) -> (&[u8], &[u8])
    ensures bytes_are { bytes.now ≡ result.0.now ++ result.1.now }
    ensures digits { AllHexDigits result.0.now }
    ensures rest { NoHexDigitFirst result.1.now }
{
    for (i, byte) in bytes.iter().enumerate() {
        if !is_hex_digit(*byte) {
            return bytes.split_at(i);
        }
    }
    (bytes, &[])
}

/// The number of so many hex digits at the front, at most eight, and what stands behind them.
#[inline(always)]
pub(crate) fn scan_group(count: usize, bytes: &[u8]) -> Option<(u32, &[u8])>
    requires { count ≤ 8 }
    ensures none { IfNone result (NoGroupAt count bytes.now) }
    ensures some { IfSome result (λ front. IsGroupAt count bytes.now front.0 front.1.now) }
{
    let (digits, rest) = bytes.split_at_checked(count)?;
    let code = hex_number(digits)?;
    Some((code, rest))
}

/// The number that at most eight hex digits stand for.
#[inline(always)]
fn hex_number(digits: &[u8]) -> Option<u32>
    requires { length digits.now ≤ 8 }
    ensures none { IfNone result (¬ AllHexDigits digits.now) }
    ensures small { IfSome result (λ code. code < 16 ^ length digits.now) }
    ensures some { IfSome result (λ code. digits.now ≡ hex_digits (length digits.now) code) }
{
    let mut code = 0u32;
    for digit in digits {
        if !is_hex_digit(*digit) {
            return None;
        }
        code = code * 16 + u32::from(hex_value(*digit));
    }
    Some(code)
}
