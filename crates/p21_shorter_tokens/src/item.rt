//! Enumeration items and truth values (ISO 10303-21, clause 6: tokens, enumeration).
ghost use Rattle.std.specs.Prelude.{◌≡◌, ℕ, ◌+◌, List, length, Contains, IfNone, IfSome, IsTrue, [], ◌∷◌, if◌then◌else◌};
ghost use Rattle.p21_spec_exchange.specs.Keyword.{IsUpper};
ghost use Rattle.p21_spec_exchange.specs.Token.{item};
ghost use Rattle.p21_spec_file.specs.Fits.{boolean_items, logical_items};
ghost use Rattle.p21_shorter_tokens.specs.LeadingToken.{AppendsToken, IsCanonicalLeadingToken};

use crate::draft::Draft;
use p21_scan::scan_item;
use p21_values::Word;

/// Appends the item at the front, if its word is one of these: how many bytes it has.
pub fn append_item(bytes: &[u8], words: &[Word], draft: &mut Draft) -> Option<usize>
    ensures some { IfSome result (λ count. (word : List ℕ) × Contains words.now word × AppendsToken bytes.now count (item word) draft.old draft.new) }
    ensures none { IfNone result (draft.new ≡ draft.old) }
{
    let word = leading_item(bytes)?;
    let count = word.len() + 2;
    if !has_word(words, word) || !draft.append_prefix(bytes, count) {
        return None;
    }
    Some(count)
}

/// Appends the truth value at the front, `.T.` or `.F.`, or `.U.` where that is allowed: how many bytes it has.
pub fn append_logical(bytes: &[u8], unknown: bool, draft: &mut Draft) -> Option<usize>
    ensures some { IfSome result (λ count. (word : List ℕ) × Contains (if unknown then logical_items else boolean_items) word × AppendsToken bytes.now count (item word) draft.old draft.new) }
    ensures none { IfNone result (draft.new ≡ draft.old) }
{
    let [b'.', letter, b'.', ..] = bytes else {
        return None;
    };
    if !is_truth_value(*letter, unknown) || !draft.append_prefix(bytes, 3) {
        return None;
    }
    Some(3)
}

#[inline(always)]
fn is_truth_value(letter: u8, unknown: bool) -> bool
    ensures word { IsTrue result → Contains (if unknown then logical_items else boolean_items) (letter ∷ []) }
    ensures upper { IsTrue result → IsUpper letter }
{
    match letter {
        b'T' | b'F' => true,
        b'U' => unknown,
        _ => false,
    }
}

/// The word of the item at the front.
#[inline(always)]
fn leading_item(bytes: &[u8]) -> Option<&[u8]>
    ensures { IfSome result (λ word. IsCanonicalLeadingToken bytes.now (length word.now + 2) (item word.now)) }
{
    let (word, _rest) = scan_item(bytes)?;
    Some(word)
}

/// Whether the bytes are those of one of the words.
fn has_word(words: &[Word], wanted: &[u8]) -> bool
    ensures { IsTrue result → Contains words.now wanted.now }
{
    for word in words {
        if word.bytes() == wanted {
            return true;
        }
    }
    false
}
