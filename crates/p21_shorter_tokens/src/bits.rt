//! Binaries (ISO 10303-21, clause 6: tokens, binary).
ghost use Rattle.std.specs.Prelude.{◌≡◌, Bool, List, length, IfNone, IfSome};
ghost use Rattle.p21_spec_exchange.specs.Token.{bits};
ghost use Rattle.p21_shorter_tokens.specs.LeadingToken.{AppendsToken, IsCanonicalLeadingToken};

use crate::draft::Draft;
use p21_scan::scan_binary;

/// More hex digits aren't usual.
const MOST_HEX_DIGITS: usize = 65_536;

/// Appends the binary at the front: how many bytes it has, and how many bits.
#[cold]
#[inline(never)]
pub fn append_bits(bytes: &[u8], draft: &mut Draft) -> Option<(usize, usize)>
    ensures some { IfSome result (λ front. (value : List Bool) × (front.1 ≡ length value) × AppendsToken bytes.now front.0 (bits value) draft.old draft.new) }
    ensures none { IfNone result (draft.new ≡ draft.old) }
{
    let (count, size) = leading_bits(bytes)?;
    if !draft.append_prefix(bytes, count) {
        return None;
    }
    Some((count, size))
}

fn leading_bits(bytes: &[u8]) -> Option<(usize, usize)>
    ensures { IfSome result (λ front. (value : List Bool) × (front.1 ≡ length value) × IsCanonicalLeadingToken bytes.now front.0 (bits value)) }
{
    let (binary, _rest) = scan_binary(bytes)?;
    let count = binary.digits.len();
    if count > MOST_HEX_DIGITS {
        return None;
    }
    Some((count + 3, 4 * count - usize::from(binary.padding)))
}
