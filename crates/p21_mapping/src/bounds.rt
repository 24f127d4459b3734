ghost use Rattle.std.specs.Prelude.{◌≡◌, ◌+◌, ◌↔◌, Contains, IsTrue};
ghost use Rattle.p21_spec_file.specs.Fits.{IsWithinBounds, IsWithinWidth, boolean_items, logical_items};
ghost use Rattle.p21_express_graph.specs.Meaning.{width_option};

use p21_express_graph::Width;
use p21_values::Word;

/// Whether a width allows so many characters or bits (ISO 10303-11, String data type, Binary data type). It takes no memory.
#[inline]
pub fn is_within(width: Option<Width>, count: u128) -> bool
    ensures { IsTrue result ↔ IsWithinWidth (width_option width) count }
{
    match width {
        None => true,
        Some(width) => {
            let most = u128::from(width.most);
            if width.fixed {
                count == most
            } else {
                count <= most
            }
        }
    }
}

/// Whether bounds allow so many elements (ISO 10303-11, Aggregation data types).
#[inline]
pub(crate) fn is_bounded(low: u32, high: Option<u32>, count: usize) -> bool
    ensures { IsTrue result ↔ IsWithinBounds low high count }
{
    if count < low as usize {
        return false;
    }
    match high {
        None => true,
        Some(high) => count <= high as usize,
    }
}

/// Whether an array with these bounds has so many elements, one for each index.
#[inline]
pub(crate) fn is_array_count(low: u32, high: u32, count: usize) -> bool
    ensures { IsTrue result ↔ (count + low ≡ high + 1) }
{
    let behind = high as usize + 1;
    let low = low as usize;
    low <= behind && count == behind - low
}

/// Whether the word is an item of BOOLEAN.
pub(crate) fn is_boolean(word: &Word) -> bool
    ensures { IsTrue result ↔ Contains boolean_items word.now }
{
    matches!(word.bytes(), b"T" | b"F")
}

/// Whether the word is an item of LOGICAL.
pub(crate) fn is_logical(word: &Word) -> bool
    ensures { IsTrue result ↔ Contains logical_items word.now }
{
    matches!(word.bytes(), b"T" | b"F" | b"U")
}
