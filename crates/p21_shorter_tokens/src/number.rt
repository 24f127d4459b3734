//! Whole numbers (ISO 10303-21, clause 6: tokens, integer).
ghost use Rattle.std.specs.Prelude.{◌<◌, ◌≤◌, ℤ, length, take, IfNone, IfSome};
ghost use Rattle.p21_spec_basics.specs.Digits.{AllDigits, number};
ghost use Rattle.p21_spec_exchange.specs.Number.{signed};
ghost use Rattle.p21_spec_exchange.specs.Spelling.{whole_spelling};
ghost use Rattle.p21_spec_exchange.specs.Token.{whole};
ghost use Rattle.p21_values.specs.Canonical.{Continues};
ghost use Rattle.p21_shorter_tokens.specs.Appending.{AppendsAllOrSome};
ghost use Rattle.p21_shorter_tokens.specs.LeadingToken.{AppendsToken};

use crate::digits::{begins_with, leading_zeros};
use crate::draft::Draft;
use p21_scan::scan_integer;

/// Appends the whole number at the front: how many bytes it has.
pub fn append_whole(bytes: &[u8], draft: &mut Draft) -> Option<usize>
    ensures some { IfSome result (λ count. (value : ℤ) × AppendsToken bytes.now count (whole value) draft.old draft.new) }
    ensures none { IfNone result (Continues draft.old draft.new) }
{
    let (integer, rest) = scan_integer(bytes)?;
    if begins_with(b'.', rest) {
        return None;
    }
    let count = integer.digits.len();
    let start = bytes.len() - rest.len() - count;
    if !append_digits(integer.negative, &bytes[start..], count, draft) {
        return None;
    }
    Some(bytes.len() - rest.len())
}

/// Appends the whole number of the first so many bytes, which are digits, or a part of it; says whether there was room.
#[inline(always)]
pub(crate) fn append_digits(negative: bool, bytes: &[u8], count: usize, draft: &mut Draft) -> bool
    requires some { 0 < count }
    requires within { count ≤ length bytes.now }
    requires digits { AllDigits (take count bytes.now) }
    ensures { AppendsAllOrSome result (whole_spelling (signed negative (number (take count bytes.now)))) draft.old draft.new }
{
    let zeros = leading_zeros(&bytes[..count - 1]);
    let plain = &bytes[zeros..];
    if !negative || plain[0] == b'0' {
        return draft.append_prefix(plain, count - zeros);
    }
    if !draft.put(b'-') {
        return false;
    }
    draft.append_prefix(plain, count - zeros)
}
