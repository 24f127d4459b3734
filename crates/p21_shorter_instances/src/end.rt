//! The end of an instance (ISO 10303-21, data sections).
ghost use Rattle.std.specs.Prelude.{◌≡◌, [], ◌∷◌, IfNone, IfSome};
ghost use Rattle.p21_spec_exchange.specs.Token.{right, semicolon};
ghost use Rattle.p21_shorter_instances.specs.TakenParameters.{TakesTokens};
ghost use Rattle.p21_values.specs.Canonical.{Continues};

use crate::separated_delimiter::append_delimiter;
use p21_shorter_tokens::Draft;

/// Appends `)` and `;`: what stands behind them.
#[inline(always)]
pub(crate) fn append_end<'a>(bytes: &'a [u8], draft: &mut Draft) -> Option<&'a [u8]>
    ensures some { IfSome result (λ rest. TakesTokens (right ∷ semicolon ∷ []) (41 ∷ 59 ∷ []) bytes.now rest.now draft.old draft.new) }
    ensures none { IfNone result (Continues draft.old draft.new) }
{
    match append_joined_end(bytes, draft) {
        Some(rest) => Some(rest),
        None => append_separated_end(bytes, draft),
    }
}

/// The same where nothing stands before them or between them.
#[inline(always)]
fn append_joined_end<'a>(bytes: &'a [u8], draft: &mut Draft) -> Option<&'a [u8]>
    ensures some { IfSome result (λ rest. TakesTokens (right ∷ semicolon ∷ []) (41 ∷ 59 ∷ []) bytes.now rest.now draft.old draft.new) }
    ensures none { IfNone result (draft.new ≡ draft.old) }
{
    let [b')', b';', ..] = bytes else {
        return None;
    };
    if !draft.append_prefix(bytes, 2) {
        return None;
    }
    Some(&bytes[2..])
}

/// The same with separators.
#[cold]
#[inline(never)]
fn append_separated_end<'a>(bytes: &'a [u8], draft: &mut Draft) -> Option<&'a [u8]>
    ensures some { IfSome result (λ rest. TakesTokens (right ∷ semicolon ∷ []) (41 ∷ 59 ∷ []) bytes.now rest.now draft.old draft.new) }
    ensures none { IfNone result (Continues draft.old draft.new) }
{
    let closed = append_delimiter(b')', bytes, draft)?;
    let rest = append_delimiter(b';', closed, draft)?;
    Some(rest)
}
