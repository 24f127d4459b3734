//! Scalars, which need no instance (ISO 10303-21, mapping of EXPRESS simple data types and of enumerations).
//!
//! An item of an ENUMERATION of more than 128 items goes the general way, which looks it up in a set, where the shorter
//! way compares it with each.
ghost use Rattle.std.specs.Prelude.{◌≡◌, ◌≤◌, ℕ, [], length, IfNone, IfSome, Some, drop};
ghost use Rattle.p21_spec_laws.specs.Needs.{FitsWithNeeds};
ghost use Rattle.p21_express_graph.specs.Meaning.{type_use, width_option};
ghost use Rattle.p21_spec_schema.specs.Schema as schema;
ghost use Rattle.p21_shorter_tokens.specs.Numbers.{AppendsNumberToken};
ghost use Rattle.p21_shorter_instances.specs.TakenValues.{TakesScalar, TakesValue};
ghost use Rattle.p21_values.specs.Canonical.{Continues};

use p21_express_graph::{TypeUse, Width, Words};
use p21_mapping::is_within;
use p21_shorter_tokens::{
    Draft, append_bits, append_item, append_logical, append_real, append_text, append_whole,
};

/// More items are looked up elsewhere, in a set: here they are compared one by one.
const MOST_ITEMS: usize = 128;

/// Appends the scalar at the front, at a type that is no declared one: what stands behind it.
#[inline(always)]
pub(crate) fn append_scalar<'a>(
    of: &TypeUse,
    bytes: &'a [u8],
    draft: &mut Draft,
) -> Option<&'a [u8]>
    ensures some { IfSome result (λ rest. (s : schema.Schema)
        → TakesValue s (λ p v. FitsWithNeeds s (type_use of.now) p v []) 0 bytes.now rest.now draft.old draft.new) }
    ensures none { IfNone result (Continues draft.old draft.new) }
{
    let count = append_simple(of, bytes, draft)?;
    Some(&bytes[count..])
}

/// Appends the item at the front, at an enumeration with these items: how many bytes it has.
#[inline(never)]
pub(crate) fn append_listed(words: &Words, bytes: &[u8], draft: &mut Draft) -> Option<usize>
    ensures some { IfSome result (λ count. (count ≤ length bytes.now)
        × ((s : schema.Schema) (t : ℕ) → schema.kind_of s t ≡ Some (schema.items words.now)
        → TakesValue s (λ p v. FitsWithNeeds s (schema.defined t) p v []) 0 bytes.now (drop count bytes.now) draft.old draft.new)) }
    ensures none { IfNone result (draft.new ≡ draft.old) }
{
    let known = words.items();
    if known.len() > MOST_ITEMS {
        return None;
    }
    append_item(bytes, known, draft)
}

/// Appends the scalar at the front, at a simple type: how many bytes it has.
#[inline(always)]
fn append_simple(of: &TypeUse, bytes: &[u8], draft: &mut Draft) -> Option<usize>
    ensures some { IfSome result (λ count. TakesScalar (type_use of.now) bytes.now count draft.old draft.new) }
    ensures none { IfNone result (Continues draft.old draft.new) }
{
    match of {
        TypeUse::Whole => append_whole(bytes, draft),
        TypeUse::Real => append_single_real(bytes, false, draft),
        TypeUse::Number => append_single_real(bytes, true, draft),
        TypeUse::Boolean => append_logical(bytes, false, draft),
        TypeUse::Logical => append_logical(bytes, true, draft),
        TypeUse::Text(width) => append_string(*width, bytes, draft),
        TypeUse::Bits(width) => append_binary(*width, bytes, draft),
        _ => None,
    }
}

/// Appends the real at the front, or the whole number where one may stand: how many bytes it has.
#[inline(never)]
fn append_single_real(bytes: &[u8], wholes: bool, draft: &mut Draft) -> Option<usize>
    ensures some { IfSome result (λ count. AppendsNumberToken wholes bytes.now count draft.old draft.new) }
    ensures none { IfNone result (Continues draft.old draft.new) }
{
    append_real(bytes, wholes, draft)
}

/// Appends the string at the front, if the width allows its characters: how many bytes it has.
#[inline(always)]
fn append_string(width: Option<Width>, bytes: &[u8], draft: &mut Draft) -> Option<usize>
    ensures some { IfSome result (λ count. TakesScalar (schema.text (width_option width)) bytes.now count draft.old draft.new) }
    ensures none { IfNone result (Continues draft.old draft.new) }
{
    let (count, characters) = append_text(bytes, draft)?;
    if !is_within(width, characters as u128) {
        return None;
    }
    Some(count)
}

/// Appends the binary at the front, if the width allows its bits: how many bytes it has.
#[inline(never)]
fn append_binary(width: Option<Width>, bytes: &[u8], draft: &mut Draft) -> Option<usize>
    ensures some { IfSome result (λ count. TakesScalar (schema.bits (width_option width)) bytes.now count draft.old draft.new) }
    ensures none { IfNone result (Continues draft.old draft.new) }
{
    let (count, size) = append_bits(bytes, draft)?;
    if !is_within(width, size as u128) {
        return None;
    }
    Some(count)
}
