//! What separates tokens (ISO 10303-21, clause 5: token separators).
ghost use Rattle.std.specs.Prelude.{◌≡◌, ◌↔◌, ◌++◌, ◌∷◌, ◌<◌, ℕ, List, false, length, IfNone, IfSome, IsTrue};
ghost use Rattle.p21_spec_exchange.proofs.OneGap.{HasNoSeparator};
ghost use Rattle.p21_spec_exchange.specs.Separator.{IsCommentText, IsSeparator, blank};
ghost use Rattle.p21_shorter_tokens.specs.Gaps.{BeginsComment, HasNoLeadingBlank, PassesBlank, PassesSeparator, PassesSeparators};

use p21_scan::behind;

const DELETE: u8 = 127;

/// What stands behind the separators at the front. Between most tokens stands none, or one blank.
#[inline(always)]
pub fn behind_separators(bytes: &[u8]) -> &[u8]
    ensures { PassesSeparators bytes.now result.now }
{
    if !may_separate(bytes) {
        return bytes;
    }
    let Some(rest) = behind_blank(bytes) else {
        return behind_many(bytes);
    };
    if !may_separate(rest) {
        return rest;
    }
    behind_many(rest)
}

/// Whether the first byte may be that of a separator.
#[inline(always)]
fn may_separate(bytes: &[u8]) -> bool
    ensures { result ≡ false → HasNoSeparator bytes.now }
{
    match bytes.split_first() {
        Some((byte, _)) => is_blank(*byte) || *byte == b'/',
        None => false,
    }
}

#[inline(always)]
fn is_blank(byte: u8) -> bool
    ensures { IsTrue result ↔ IsSeparator (blank byte) }
{
    byte <= b' ' || byte == DELETE
}

/// What stands behind any number of separators.
#[cold]
#[inline(never)]
fn behind_many(bytes: &[u8]) -> &[u8]
    ensures { PassesSeparators bytes.now result.now }
{
    let mut rest = bytes;
    while let Some(next) = behind_separator(rest) {
        rest = next;
    }
    rest
}

/// What stands behind the separator at the front, if one stands there.
fn behind_separator(bytes: &[u8]) -> Option<&[u8]>
    ensures none { IfNone result (HasNoSeparator bytes.now) }
    ensures some { IfSome result (λ rest. PassesSeparator bytes.now rest.now) }
{
    match behind_blank(bytes) {
        Some(rest) => Some(rest),
        None => behind_comment(bytes),
    }
}

/// What stands behind the blank at the front.
#[inline(always)]
fn behind_blank(bytes: &[u8]) -> Option<&[u8]>
    ensures none { IfNone result (HasNoLeadingBlank bytes.now) }
    ensures some { IfSome result (λ rest. PassesBlank bytes.now rest.now) }
{
    let (byte, rest) = bytes.split_first()?;
    if is_blank(*byte) { Some(rest) } else { None }
}

/// What stands behind the comment at the front.
fn behind_comment(bytes: &[u8]) -> Option<&[u8]>
    ensures none { IfNone result ((inside rest : List ℕ) → IsCommentText inside → BeginsComment inside bytes.now rest → ⊥) }
    ensures some { IfSome result (λ rest. (inside : List ℕ) × IsCommentText inside × BeginsComment inside bytes.now rest.now) }
{
    let star = behind(b'/', bytes)?;
    let inside = behind(b'*', star)?;
    behind_end(inside)
}

/// What stands behind the first `*/`.
fn behind_end(inside: &[u8]) -> Option<&[u8]>
    ensures none { IfNone result ((front rest : List ℕ) → inside.now ≡ front ++ (42 ∷ 47 ∷ rest) → ⊥) }
    ensures some { IfSome result (λ rest. (front : List ℕ) × IsCommentText front × (inside.now ≡ front ++ (42 ∷ 47 ∷ rest.now))) }
{
    for i in 1..inside.len() {
        if inside[i - 1] == b'*' && inside[i] == b'/' {
            return Some(&inside[i + 1..]);
        }
    }
    None
}
