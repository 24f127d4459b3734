//! Keywords and enumeration items (ISO 10303-21, clause 6: tokens, keyword and enumeration).
ghost use Rattle.std.specs.Prelude.{IfNone, IfSome};
ghost use Rattle.p21_spec_exchange.specs.Token.{item, keyword, user_keyword};
ghost use Rattle.p21_scan.specs.Word.{IsTokenAt, IsWordAt, NoTokenAt, NoWordAt};

use crate::bytes::is_upper;
use crate::class::Class;
use crate::digits::behind;
use crate::wide::long_prefix;

/// The keyword at the front, and what stands behind it, which doesn't begin with a `-`.
#[inline(always)]
pub fn scan_keyword(bytes: &[u8]) -> Option<(&[u8], &[u8])>
    ensures none { IfNone result (NoTokenAt keyword bytes.now) }
    ensures some { IfSome result (λ front. IsTokenAt bytes.now (keyword front.0.now) front.1.now) }
{
    let (word, rest) = split_word(bytes)?;
    match behind(b'-', rest) {
        Some(_dash) => None,
        None => Some((word, rest)),
    }
}

/// The keyword behind the `!` of a user-defined one at the front, and what stands behind it, which doesn't begin with a `-`.
#[inline(always)]
pub fn scan_user_keyword(bytes: &[u8]) -> Option<(&[u8], &[u8])>
    ensures none { IfNone result (NoTokenAt user_keyword bytes.now) }
    ensures some { IfSome result (λ front. IsTokenAt bytes.now (user_keyword front.0.now) front.1.now) }
{
    scan_keyword(behind(b'!', bytes)?)
}

/// The word between the points of an enumeration item at the front, and what stands behind the item.
#[inline(always)]
pub fn scan_item(bytes: &[u8]) -> Option<(&[u8], &[u8])>
    ensures none { IfNone result (NoTokenAt item bytes.now) }
    ensures some { IfSome result (λ front. IsTokenAt bytes.now (item front.0.now) front.1.now) }
{
    let (word, rest) = split_word(behind(b'.', bytes)?)?;
    Some((word, behind(b'.', rest)?))
}

/// The characters of a keyword at the front, and what stands behind them: an upper-case letter or `_`, then all upper-case
/// letters, digits and `_` that follow.
#[inline(always)]
fn split_word(bytes: &[u8]) -> Option<(&[u8], &[u8])>
    ensures none { IfNone result (NoWordAt bytes.now) }
    ensures some { IfSome result (λ front. IsWordAt bytes.now front.0.now front.1.now) }
{
    let (first, _rest) = bytes.split_first()?;
    if !is_upper(*first) {
        return None;
    }
    Some(bytes.split_at(long_prefix(Class::KeywordByte, bytes)))
}
