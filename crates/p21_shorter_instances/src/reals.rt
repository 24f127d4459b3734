//! Reals one behind the other, as the coordinates of a point (ISO 10303-21, mapping of EXPRESS aggregation data types).
ghost use Rattle.std.specs.Prelude.{◌≡◌, ◌⊎◌, ◌≤◌, false, length, IfNone, IfSome, IsTrue};
ghost use Rattle.p21_express_graph.specs.Meaning.{type_use};
ghost use Rattle.p21_shorter_tokens.specs.Gaps.{PassesSeparators};
ghost use Rattle.p21_spec_schema.specs.Schema.{real};
ghost use Rattle.p21_shorter_instances.specs.ArrangedElements.{compares_elements};
ghost use Rattle.p21_shorter_instances.specs.Reals.{IsRealBase, TakesClosedReals, TakesMark, TakesMarkedReal, TakesRealAggregate};
ghost use Rattle.p21_shorter_instances.specs.TakenValues.{TakesScalar};
ghost use Rattle.p21_values.specs.Canonical.{Continues};

use crate::delimiter::{append_delimiter, append_next_delimiter};
use p21_express_graph::TypeUse;
use p21_mapping::allows_count;
use p21_schema::Base;
use p21_shorter_tokens::{Draft, append_marked_real, append_real, behind_separators};

/// Whether a type comes down to REAL.
#[inline(always)]
pub(crate) fn is_real(base: &Base<'_>) -> bool
    ensures { IsTrue result → IsRealBase base.now }
{
    match base {
        Base::Plain(of) => matches!(*of, TypeUse::Real),
        _ => false,
    }
}

/// An aggregate of reals that aren't compared, in parentheses: how many bytes it has.
#[inline(never)]
pub(crate) fn append_all_reals(of: &TypeUse, bytes: &[u8], draft: &mut Draft) -> Option<usize>
    requires { compares_elements (type_use of.now) ≡ false }
    ensures some { IfSome result (λ count. TakesRealAggregate (type_use of.now) bytes.now count draft.old draft.new) }
    ensures none { IfNone result (Continues draft.old draft.new) }
{
    let inside = append_delimiter(b'(', bytes, draft)?;
    let (count, rest) = append_each_real(inside, draft)?;
    if !allows_count(of, count) {
        return None;
    }
    Some(bytes.len() - rest.len())
}

/// Reals with a comma between each two, and the `)` behind them: how many, and what stands behind it.
#[inline(always)]
fn append_each_real<'a>(bytes: &'a [u8], draft: &mut Draft) -> Option<(usize, &'a [u8])>
    ensures some { IfSome result (λ found. TakesClosedReals found.0 bytes.now found.1.now draft.old draft.new) }
    ensures shorter { IfSome result (λ found. length found.1.now ≤ length bytes.now) }
    ensures draft { Continues draft.old draft.new }
{
    if let Some(rest) = append_delimiter(b')', bytes, draft) {
        return Some((0, rest));
    }
    let mut front = bytes;
    let mut count = 0;
    loop {
        let size = append_next_real(front, draft)?;
        let mark = front[size - 1];
        front = &front[size..];
        count += 1;
        if mark == b')' {
            return Some((count, front));
        }
    }
}

/// The real at the front, behind separators, and the `,` or `)` behind it: how many bytes they have. Mostly no separators stand there
/// but blanks before the real, and it has no exponent.
#[inline(always)]
fn append_next_real(bytes: &[u8], draft: &mut Draft) -> Option<usize>
    ensures some { IfSome result (λ count. TakesMarkedReal bytes.now count draft.old draft.new) }
    ensures draft { Continues draft.old draft.new }
{
    let front = behind_blanks(bytes);
    match append_marked_real(front, draft) {
        Some(count) => Some(bytes.len() - front.len() + count),
        None => append_other_next(bytes, draft),
    }
}

/// What stands behind the separators at the front, if the first of them is a blank; else the bytes.
#[inline(always)]
fn behind_blanks(bytes: &[u8]) -> &[u8]
    ensures passes { (result.now ≡ bytes.now) ⊎ PassesSeparators bytes.now result.now }
    ensures shorter { length result.now ≤ length bytes.now }
{
    match bytes.first() {
        Some(byte) if *byte <= b' ' => behind_separators(bytes),
        _ => bytes,
    }
}

/// The same for any real, with any separators.
#[cold]
#[inline(never)]
fn append_other_next(bytes: &[u8], draft: &mut Draft) -> Option<usize>
    ensures some { IfSome result (λ count. TakesMarkedReal bytes.now count draft.old draft.new) }
    ensures draft { Continues draft.old draft.new }
{
    let front = behind_separators(bytes);
    let count = append_single(front, draft)?;
    let behind = append_mark(&front[count..], draft)?;
    Some(bytes.len() - behind.len())
}

/// The real at the front: how many bytes it has.
#[inline(always)]
fn append_single(bytes: &[u8], draft: &mut Draft) -> Option<usize>
    ensures some { IfSome result (λ count. TakesScalar real bytes.now count draft.old draft.new) }
    ensures draft { Continues draft.old draft.new }
{
    append_real(bytes, false, draft)
}

/// The `,` or `)` at the front, behind separators: what stands behind it.
#[inline(always)]
fn append_mark<'a>(bytes: &'a [u8], draft: &mut Draft) -> Option<&'a [u8]>
    ensures some { IfSome result (λ rest. TakesMark bytes.now rest.now draft.old draft.new) }
    ensures none { IfNone result (draft.new ≡ draft.old) }
{
    if let Some(rest) = append_next_delimiter(b',', bytes, draft) {
        return Some(rest);
    }
    let rest = append_next_delimiter(b')', bytes, draft)?;
    Some(rest)
}
