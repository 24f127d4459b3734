//! Elements put into order (this project's own choice for what has none).
//!
//! Elements that are compared are first held each against the one before it. In most files they rise, as names of
//! instances do that were written in turn; then none is twice and their order stays, and nothing is copied or sorted.
ghost use Rattle.std.specs.Prelude.{◌≡◌, ℕ, ◌≤◌, [], ◌∷◌, ◌++◌, List, true, drop, length, sum, take, IfOk, IfSome, IsTrue};
ghost use Rattle.p21_express_graph.specs.Meaning.{type_use};
ghost use Rattle.p21_spec_file.specs.ParameterKind.{IsUnique};
ghost use Rattle.p21_spec_file.specs.Sorting.{is_below, sort_texts};
ghost use Rattle.p21_spec_file.specs.ValueText.{list_text};
ghost use Rattle.p21_mapping_values.specs.SplitTexts.{NoneTwice, joined, split_texts};
ghost use Rattle.p21_shorter_instances.specs.Leaving.{LeavesText};
ghost use Rattle.p21_shorter_instances.specs.ArrangedElements.{AreStrictlyRising, ArrangesElements, ClosesAggregate, HoldsElements, compares_elements, has_no_order};
ghost use Rattle.p21_shorter_instances.specs.TakenValues.{PassesDelimiter};

use crate::aggregate::are_compared;
use crate::delimiter::append_next_delimiter;
use crate::given_up::GivenUp;
use p21_express_graph::TypeUse;
use p21_mapping::is_unique;
use p21_mapping_values::{append_rising, are_distinct};
use p21_shorter_tokens::Draft;
use p21_values::NoMemory;
use std::alloc::Global;

/// Puts the elements of an aggregate into rising order, where they have none. The text of the aggregate begins at a place,
/// and its elements are as long as the lengths say. Where two are equal that may not be, it isn't usual. Where it is given
/// up, the text goes on from that before the place.
#[inline(never)]
fn arrange(
    alloc: Global,
    of: &TypeUse,
    start: usize,
    lengths: &[usize],
    draft: &mut Draft,
) -> Result<(), GivenUp>
    requires start { start ≤ length draft.old }
    requires holds { (texts : List (List ℕ)) × HoldsElements (drop start draft.old) lengths.now texts }
    ensures some { IfOk result (λ done. (texts : List (List ℕ)) → HoldsElements (drop start draft.old) lengths.now texts
        → ArrangesElements (type_use of.now) (take start draft.old) texts draft.new) }
    ensures none { LeavesText result (take start draft.old) draft.new }
{
    if lengths.len() < 2 {
        return Ok(());
    }
    let text = text_behind(draft, start);
    if are_rising(text, lengths) {
        return Ok(());
    }
    let Ok(joined) = joined_texts(alloc, text, lengths) else {
        return Err(GivenUp::NoMemory);
    };
    let Some(bytes) = joined else {
        return Err(GivenUp::NotUsual);
    };
    let all: &[u8] = &bytes;
    let Ok(unique) = keeps_unique(alloc, of, all, lengths) else {
        return Err(GivenUp::NoMemory);
    };
    if !unique {
        return Err(GivenUp::NotUsual);
    }
    if !is_unordered(of) {
        return Ok(());
    }
    rewrite_in_order(alloc, start, all, lengths, draft)
}

/// Whether each element is below the one behind it. Most stand so in a file; then none is twice, and their order stays.
fn are_rising(text: &[u8], lengths: &[usize]) -> bool
    ensures { IsTrue result → (texts : List (List ℕ)) → HoldsElements text.now lengths.now texts → AreStrictlyRising texts }
{
    let Some((size, others)) = lengths.split_first() else {
        return false;
    };
    let Some((first, behind)) = split_element(text, *size) else {
        return false;
    };
    let mut before = first;
    let mut rest = behind;
    for size in others {
        let Some((element, behind)) = split_element(rest, *size) else {
            return false;
        };
        if !is_below(before, element) {
            return false;
        }
        before = element;
        rest = behind;
    }
    true
}

/// Whether a text is below another one, byte by byte.
#[inline(always)]
fn is_below(text: &[u8], other: &[u8]) -> bool
    ensures { result ≡ is_below text.now other.now }
{
    text.cmp(other).is_lt()
}

/// The text from a place on.
fn text_behind(draft: &Draft, start: usize) -> &[u8]
    requires { start ≤ length draft.now }
    ensures { result.now ≡ drop start draft.now }
{
    draft.between(start, draft.len())
}

/// Whether no two of the texts are equal, where no two may be.
fn keeps_unique(
    alloc: Global,
    of: &TypeUse,
    bytes: &[u8],
    lengths: &[usize],
) -> Result<bool, NoMemory>
    requires { sum lengths.now ≤ length bytes.now }
    ensures { IfOk result (λ keeps. IsTrue keeps → IsUnique (type_use of.now) → NoneTwice (split_texts bytes.now lengths.now)) }
{
    if !is_unique(of) {
        return Ok(true);
    }
    let distinct = are_distinct(alloc, bytes, lengths)?;
    Ok(distinct)
}

/// The texts of the elements, one behind the other.
fn joined_texts(alloc: Global, text: &[u8], lengths: &[usize]) -> Result<Option<Vec<u8>>, NoMemory>
    ensures { IfOk result (λ found. IfSome found (λ bytes. (texts : List (List ℕ)) → HoldsElements text.now lengths.now texts
        → bytes.items ≡ joined texts)) }
{
    let mut bytes = Vec::new(alloc);
    let mut rest = text;
    for size in lengths {
        let Some((element, behind)) = split_element(rest, *size) else {
            return Ok(None);
        };
        bytes.extend_from_slice(element)?;
        rest = behind;
    }
    Ok(Some(bytes))
}

/// The element of this length, behind one byte, and what stands behind it.
fn split_element(text: &[u8], size: usize) -> Option<(&[u8], &[u8])>
    ensures { IfSome result (λ parts. (mark : ℕ) × (text.now ≡ mark ∷ (parts.0.now ++ parts.1.now)) × (size ≡ length parts.0.now)) }
{
    let (_mark, inside) = text.split_first()?;
    if inside.len() < size {
        return None;
    }
    Some(inside.split_at(size))
}

/// Whether the elements of the aggregate have no order.
fn is_unordered(of: &TypeUse) -> bool
    ensures { result ≡ has_no_order (type_use of.now) }
{
    matches!(of, TypeUse::Set { .. } | TypeUse::Bag { .. })
}

/// Writes the texts in rising order as a list, from a place on.
fn rewrite_in_order(
    alloc: Global,
    start: usize,
    bytes: &[u8],
    lengths: &[usize],
    draft: &mut Draft,
) -> Result<(), GivenUp>
    requires start { start ≤ length draft.old }
    requires within { sum lengths.now ≤ length bytes.now }
    ensures some { IfOk result (λ done. draft.new ≡ take start draft.old ++ list_text (sort_texts (split_texts bytes.now lengths.now))) }
    ensures none { LeavesText result (take start draft.old) draft.new }
{
    let mut list = Vec::new(alloc);
    let Ok(()) = append_rising(bytes, lengths, &mut list) else {
        return Err(GivenUp::NoMemory);
    };
    draft.cut(start);
    if !draft.append(&list) {
        return Err(GivenUp::NotUsual);
    }
    Ok(())
}

/// Closes the text of an aggregate that begins at a place, and puts its elements into order: what stands behind the
/// parenthesis. Where elements are compared, they are as long as the lengths say.
pub(crate) fn append_close<'a>(
    of: &TypeUse,
    start: usize,
    lengths: &Vec<usize>,
    bytes: &'a [u8],
    draft: &mut Draft,
) -> Result<&'a [u8], GivenUp>
    requires start { start ≤ length draft.old }
    requires holds { compares_elements (type_use of.now) ≡ true
        → (texts : List (List ℕ)) × HoldsElements (drop start (draft.old ++ 41 ∷ [])) lengths.now.items texts }
    ensures some { IfOk result (λ rest. PassesDelimiter 41 bytes.now rest.now
        × ClosesAggregate (type_use of.now) start (draft.old ++ 41 ∷ []) lengths.now.items draft.new) }
    ensures none { LeavesText result (take start draft.old) draft.new }
{
    let Some(rest) = append_next_delimiter(b')', bytes, draft) else {
        return Err(GivenUp::NotUsual);
    };
    if !are_compared(of) {
        return Ok(rest);
    }
    arrange(*lengths.allocator(), of, start, lengths, draft)?;
    Ok(rest)
}
