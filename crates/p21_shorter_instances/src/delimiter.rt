//! A byte that is a token (ISO 10303-21, clause 6: tokens).
ghost use Rattle.std.specs.Prelude.{◌≡◌, [], ◌∷◌, ◌++◌, IfNone, IfSome};
ghost use Rattle.p21_shorter_instances.specs.TakenValues.{PassesDelimiter};

use p21_shorter_tokens::{Draft, behind_separators};

/// Appends the byte, if it stands first: what stands behind it.
#[inline(always)]
pub(crate) fn append_delimiter<'a>(mark: u8, bytes: &'a [u8], draft: &mut Draft) -> Option<&'a [u8]>
    ensures some { IfSome result (λ rest. (bytes.now ≡ mark ∷ rest.now) × (draft.new ≡ draft.old ++ mark ∷ [])) }
    ensures none { IfNone result (draft.new ≡ draft.old) }
{
    let (first, rest) = bytes.split_first()?;
    if *first != mark || !draft.put(mark) {
        return None;
    }
    Some(rest)
}

/// Appends the byte, if it stands first behind the separators, of which there are mostly none: what stands behind it.
#[inline(always)]
pub(crate) fn append_next_delimiter<'a>(
    mark: u8,
    bytes: &'a [u8],
    draft: &mut Draft,
) -> Option<&'a [u8]>
    ensures some { IfSome result (λ rest. PassesDelimiter mark bytes.now rest.now × (draft.new ≡ draft.old ++ mark ∷ [])) }
    ensures none { IfNone result (draft.new ≡ draft.old) }
{
    match append_delimiter(mark, bytes, draft) {
        Some(rest) => Some(rest),
        None => append_distant_delimiter(mark, bytes, draft),
    }
}

/// The same with separators before it.
#[inline(always)]
fn append_distant_delimiter<'a>(mark: u8, bytes: &'a [u8], draft: &mut Draft) -> Option<&'a [u8]>
    ensures some { IfSome result (λ rest. PassesDelimiter mark bytes.now rest.now × (draft.new ≡ draft.old ++ mark ∷ [])) }
    ensures none { IfNone result (draft.new ≡ draft.old) }
{
    append_delimiter(mark, behind_separators(bytes), draft)
}
