//! A byte that is a token (ISO 10303-21, clause 6: tokens).
ghost use Rattle.std.specs.Prelude.{◌≡◌, IfNone, IfSome};
ghost use Rattle.p21_shorter_instances.specs.TakenParameters.{TakesDelimiter};

use crate::delimiter::append_next_delimiter;
use p21_shorter_tokens::Draft;

/// Appends the byte, if it stands first behind separators: what stands behind it.
#[inline(always)]
pub(crate) fn append_delimiter<'a>(mark: u8, bytes: &'a [u8], draft: &mut Draft) -> Option<&'a [u8]>
    ensures some { IfSome result (λ rest. TakesDelimiter mark bytes.now rest.now draft.old draft.new) }
    ensures none { IfNone result (draft.new ≡ draft.old) }
{
    append_next_delimiter(mark, bytes, draft)
}
