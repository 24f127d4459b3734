//! Binaries (ISO 10303-21, clause 6: tokens, binary).
ghost use Rattle.std.specs.Prelude.{◌≡◌, ℕ, ◌+◌, ◌<◌, ◌↔◌, List, ◌∷◌, IfNone, IfSome, IsTrue};
ghost use Rattle.p21_scan.specs.Binary.{IsBinaryAt, IsPadded, NoBinaryAt};
ghost use Rattle.p21_scan.specs.Hex.{AllHexDigits};

use crate::digits::behind;
use crate::hex_digits::{hex_value, split_hex_digits};

/// What a binary has between its quotes.
#[derive(Clone, Copy)]
pub struct Binary<'a> {
    /// How many zero bits fill the first hex digit: at most three.
    pub padding: u8,
    pub digits: &'a [u8],
}

/// The binary at the front, and what stands behind it.
#[inline(always)]
pub fn scan_binary(bytes: &[u8]) -> Option<(Binary<'_>, &[u8])>
    ensures none { IfNone result (NoBinaryAt bytes.now) }
    ensures some { IfSome result (λ front. IsBinaryAt bytes.now front.0.padding front.0.digits.now front.1.now) }
{
    let inside = behind(b'"', bytes)?;
    let (padding, unpadded) = split_padding(inside)?;
    let (digits, closing) = split_hex_digits(unpadded);
    let rest = behind(b'"', closing)?;
    if !is_padded(padding, digits) {
        return None;
    }
    Some((Binary { padding, digits }, rest))
}

/// The number of the digit that counts the padding, and what stands behind it.
#[inline(always)]
fn split_padding(inside: &[u8]) -> Option<(u8, &[u8])>
    ensures none { IfNone result ((padding : ℕ) (rest : List ℕ) → padding < 4 → inside.now ≡ (48 + padding) ∷ rest → ⊥) }
    ensures some { IfSome result (λ parts. (parts.0 < 4) × (inside.now ≡ (48 + parts.0) ∷ parts.1.now)) }
{
    let (digit, rest) = inside.split_first()?;
    if !matches!(*digit, b'0'..=b'3') {
        return None;
    }
    Some((*digit - b'0', rest))
}

/// Whether the padding is zero bits of the first hex digit.
#[inline(always)]
fn is_padded(padding: u8, digits: &[u8]) -> bool
    requires padding { padding < 4 }
    requires digits { AllHexDigits digits.now }
    ensures { IsTrue result ↔ IsPadded padding digits.now }
{
    match digits.split_first() {
        Some((first, _)) => hex_value(*first) < 16 >> padding,
        None => padding == 0,
    }
}
