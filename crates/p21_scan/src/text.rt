//! What stands inside a string (ISO 10303-21, clause 6: tokens, string).
ghost use Rattle.std.specs.Prelude.{◌≡◌, ◌≤◌, ◌∷◌, ◌++◌, ◌↔◌, IfSome, IsTrue};
ghost use Rattle.std.specs.Char.{IsScalar};
ghost use Rattle.p21_spec_exchange.specs.Text.{end_extended};
ghost use Rattle.p21_scan.specs.Hex.{IsGroupAt};
ghost use Rattle.p21_scan.specs.Text.{EndsText, IsDirectiveAt};

use crate::digits::behind;
use crate::hex_digits::scan_group;

/// What an apostrophe or a backslash begins inside a string.
#[derive(Clone, Copy)]
pub enum Directive {
    /// An apostrophe or a backslash that stands twice, and stands for itself.
    Doubled(u8),
    /// `\S\` with its byte, or `\X\` with its two digits: a character of ISO 8859-1, by its code.
    Latin(u8),
    /// `\PA\`, which stands for nothing.
    Alphabet,
    /// `\X2\`: groups of four digits stand behind it, up to the end of an extended directive.
    Extended2,
    /// `\X4\`: groups of eight digits stand behind it, up to the end of an extended directive.
    Extended4,
}

/// The directive at the front, and what stands behind it.
#[inline(always)]
pub fn scan_directive(bytes: &[u8]) -> Option<(Directive, &[u8])>
    ensures { IfSome result (λ front. IsDirectiveAt bytes.now front.0 front.1.now) }
{
    match bytes {
        [b'\'', b'\'', rest @ ..] => Some((Directive::Doubled(b'\''), rest)),
        [b'\\', marked @ ..] => scan_marked(marked),
        _ => None,
    }
}

/// The directive whose backslash stands before these bytes.
#[inline(always)]
fn scan_marked(marked: &[u8]) -> Option<(Directive, &[u8])>
    ensures { IfSome result (λ front. IsDirectiveAt (92 ∷ marked.now) front.0 front.1.now) }
{
    match marked {
        [b'\\', rest @ ..] => Some((Directive::Doubled(b'\\'), rest)),
        [b'X', b'2', b'\\', rest @ ..] => Some((Directive::Extended2, rest)),
        [b'X', b'4', b'\\', rest @ ..] => Some((Directive::Extended4, rest)),
        [b'X', b'\\', digits @ ..] => scan_arbitrary(digits),
        [b'S', b'\\', page @ ..] => scan_page(page),
        [b'P', b'A', b'\\', rest @ ..] => Some((Directive::Alphabet, rest)),
        _ => None,
    }
}

/// The character of the two digits behind `\X\`.
#[inline(always)]
fn scan_arbitrary(digits: &[u8]) -> Option<(Directive, &[u8])>
    ensures { IfSome result (λ front. IsDirectiveAt (92 ∷ 88 ∷ 92 ∷ digits.now) front.0 front.1.now) }
{
    let (code, rest) = scan_group(2, digits)?;
    Some((Directive::Latin(code as u8), rest))
}

/// The character of the byte behind `\S\`.
#[inline(always)]
fn scan_page(page: &[u8]) -> Option<(Directive, &[u8])>
    ensures { IfSome result (λ front. IsDirectiveAt (92 ∷ 83 ∷ 92 ∷ page.now) front.0 front.1.now) }
{
    let (byte, rest) = page.split_first()?;
    if *byte < b' ' || b'~' < *byte {
        return None;
    }
    Some((Directive::Latin(*byte + 128), rest))
}

/// The character of the group of so many hex digits at the front, unless it is a surrogate, and what stands behind the
/// group.
#[inline(always)]
pub fn scan_character(width: usize, bytes: &[u8]) -> Option<(char, &[u8])>
    requires { width ≤ 8 }
    ensures scalar { IfSome result (λ front. IsScalar front.0) }
    ensures group { IfSome result (λ front. IsGroupAt width bytes.now front.0 front.1.now) }
{
    let (code, rest) = scan_group(width, bytes)?;
    Some((char::from_u32(code)?, rest))
}

/// What stands behind the `\X0\` at the front, which ends an extended directive.
#[inline(always)]
pub fn behind_extended(bytes: &[u8]) -> Option<&[u8]>
    ensures { IfSome result (λ rest. bytes.now ≡ end_extended ++ rest.now) }
{
    match bytes {
        [b'\\', b'X', b'0', b'\\', rest @ ..] => Some(rest),
        _ => None,
    }
}

/// Whether an apostrophe at the front ends a string: no other stands behind it.
#[inline(always)]
pub fn ends_text(bytes: &[u8]) -> bool
    ensures { IsTrue result ↔ EndsText bytes.now }
{
    match behind(b'\'', bytes) {
        Some(rest) => behind(b'\'', rest).is_none(),
        None => false,
    }
}
