ghost use Rattle.std.specs.Prelude.{◌≡◌, ◌≤◌, ℕ, Some, None, length, MatchOption};
ghost use Rattle.p21_express_lexemes.specs.Skipping.{skip, between, line, remark};

use crate::bytes::{Class, begins_both, begins_of, behind, split_of};

/// What stands behind the separators at the front, unless a remark stays open.
#[tactic(auto, using(crate::proofs::Skips::opens_remark, crate::proofs::Skips::opens_line, crate::proofs::Skips::passes_blank, crate::proofs::Skips::stops, crate::proofs::Skips::both_long, crate::proofs::Skips::of_long))]
pub(crate) fn behind_separators(bytes: &[u8]) -> Option<&[u8]>
    ensures { MatchOption result (skip between bytes.now ≡ None) (λ rest. skip between bytes.now ≡ Some rest.now) }
{
    let mut rest = bytes;
    loop {
        if begins_both(b'(', b'*', rest) {
            match behind_remark(behind(2, rest)) {
                Some(outside) => rest = outside,
                None => return None,
            }
        } else if begins_both(b'-', b'-', rest) {
            rest = behind_line(behind(2, rest));
        } else if begins_of(Class::Blank, rest) {
            rest = behind(1, rest);
        } else {
            return Some(rest);
        }
    }
}

/// What stands behind an embedded remark, within it.
#[tactic(auto, using(crate::proofs::Skips::opens_inner, crate::proofs::Skips::closes_outer, crate::proofs::Skips::closes_inner, crate::proofs::Skips::no_mark, crate::proofs::Skips::no_close, crate::proofs::Skips::both_long))]
fn behind_remark(bytes: &[u8]) -> Option<&[u8]>
    ensures found { MatchOption result (skip (remark 0) bytes.now ≡ None) (λ rest. skip (remark 0) bytes.now ≡ skip between rest.now) }
    ensures shorter { MatchOption result (0 ≤ 0) (λ rest. length rest.now ≤ length bytes.now) }
{
    let mut inner = 0usize;
    let mut rest = bytes;
    while !rest.is_empty() {
        if begins_both(b'(', b'*', rest) {
            inner += 1;
            rest = behind(2, rest);
        } else if begins_both(b'*', b')', rest) {
            rest = behind(2, rest);
            if inner == 0 {
                return Some(rest);
            }
            inner -= 1;
        } else {
            rest = behind(1, rest);
        }
    }
    None
}

/// What stands behind a tail remark, within it.
#[tactic(auto, using(crate::proofs::Skips::line_ends, crate::proofs::Spans::behind_shorter))]
fn behind_line(bytes: &[u8]) -> &[u8]
    ensures found { skip line bytes.now ≡ skip between result.now }
    ensures shorter { length result.now ≤ length bytes.now }
{
    let (_line, rest) = split_of(Class::LineByte, bytes);
    if rest.is_empty() {
        rest
    } else {
        behind(1, rest)
    }
}
