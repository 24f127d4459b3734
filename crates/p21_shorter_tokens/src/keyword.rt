//! Keywords (ISO 10303-21, clause 6: tokens, keyword).
ghost use Rattle.std.specs.Prelude.{◌≡◌, length, IfNone, IfSome};
ghost use Rattle.p21_spec_exchange.specs.Token.{keyword};
ghost use Rattle.p21_shorter_tokens.specs.LeadingToken.{AppendsToken, IsCanonicalLeadingToken};

use crate::draft::Draft;
use p21_scan::scan_keyword;

/// Appends the keyword at the front: its word.
#[inline(always)]
pub fn append_keyword<'a>(bytes: &'a [u8], draft: &mut Draft) -> Option<&'a [u8]>
    ensures some { IfSome result (λ word. AppendsToken bytes.now (length word.now) (keyword word.now) draft.old draft.new) }
    ensures none { IfNone result (draft.new ≡ draft.old) }
{
    let word = leading_keyword(bytes)?;
    if !draft.append_prefix(bytes, word.len()) {
        return None;
    }
    Some(word)
}

/// The word of the keyword at the front.
#[inline(always)]
pub fn leading_keyword(bytes: &[u8]) -> Option<&[u8]>
    ensures { IfSome result (λ word. IsCanonicalLeadingToken bytes.now (length word.now) (keyword word.now)) }
{
    let (word, _rest) = scan_keyword(bytes)?;
    Some(word)
}
