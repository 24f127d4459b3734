//! Names of instances (ISO 10303-21, clause 6: tokens, entity instance name).
ghost use Rattle.std.specs.Prelude.{◌≡◌, ◌<◌, ◌≤◌, ◌∷◌, IfNone, IfSome, length, take};
ghost use Rattle.p21_spec_basics.specs.Digits.{AllDigits, number};
ghost use Rattle.p21_spec_exchange.specs.Spelling.{name_spelling};
ghost use Rattle.p21_spec_exchange.specs.Token.{name};
ghost use Rattle.p21_shorter_tokens.specs.Appending.{AppendsAllOrNone};
ghost use Rattle.p21_shorter_tokens.specs.LeadingToken.{AppendsToken};

use crate::digits::begins_with;
use crate::draft::Draft;
use crate::number::append_digits;
use p21_scan::{name_number, scan_name};

/// Appends the name at the front: how many bytes it has, and its number.
#[inline(always)]
pub fn append_name(bytes: &[u8], draft: &mut Draft) -> Option<(usize, u64)>
    ensures some { IfSome result (λ front. AppendsToken bytes.now front.0 (name front.1) draft.old draft.new) }
    ensures none { IfNone result (draft.new ≡ draft.old) }
{
    let (digits, rest) = scan_name(bytes)?;
    let number = name_number(digits)?;
    let count = bytes.len() - rest.len();
    if !append_spelling(bytes, count, digits, draft) {
        return None;
    }
    Some((count, number))
}

/// Appends the canonical spelling of the name of these digits, which is mostly the first so many bytes; says whether there was
/// room.
#[inline(always)]
fn append_spelling(bytes: &[u8], count: usize, digits: &[u8], draft: &mut Draft) -> bool
    requires within { count ≤ length bytes.now }
    requires name { take count bytes.now ≡ 35 ∷ digits.now }
    requires digits { AllDigits digits.now }
    requires some { 0 < length digits.now }
    ensures { AppendsAllOrNone result (name_spelling (number digits.now)) draft.old draft.new }
{
    if begins_with(b'0', digits) {
        return append_padded(digits, draft);
    }
    draft.append_prefix(bytes, count)
}

/// The same with the first digits zeros.
#[cold]
#[inline(never)]
fn append_padded(digits: &[u8], draft: &mut Draft) -> bool
    requires digits { AllDigits digits.now }
    requires some { 0 < length digits.now }
    ensures { AppendsAllOrNone result (name_spelling (number digits.now)) draft.old draft.new }
{
    let start = draft.len();
    if !draft.put(b'#') {
        return false;
    }
    if !append_digits(false, digits, digits.len(), draft) {
        draft.cut(start);
        return false;
    }
    true
}
