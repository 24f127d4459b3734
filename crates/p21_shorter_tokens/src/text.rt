//! Strings, of which most have each character in its canonical spelling (ISO 10303-21, clause 6: tokens, string).
ghost use Rattle.std.specs.Prelude.{◌≡◌, ℕ, ◌<◌, ◌≤◌, ◌⊎◌, List, length, IfNone, IfSome, IsTrue};
ghost use Rattle.p21_spec_exchange.specs.Token.{text};
ghost use Rattle.p21_shorter_tokens.specs.Characters.{AreCharacters, IsLoneGroup};
ghost use Rattle.p21_shorter_tokens.specs.LeadingToken.{AppendsToken, IsCanonicalLeadingToken};

use crate::draft::Draft;
use crate::respelled_text::append_respelled;
use p21_scan::{Directive, behind, behind_extended, ends_text, scan_character, scan_directive};
use p21_tokens_automaton::plain_characters;

/// Appends the string at the front: how many bytes it has, and how many characters. Where each character stands in its
/// canonical spelling, its bytes are copied.
#[inline(always)]
pub fn append_text(bytes: &[u8], draft: &mut Draft) -> Option<(usize, usize)>
    ensures some { IfSome result (λ front. (characters : List ℕ) × (front.1 ≡ length characters) × AppendsToken bytes.now front.0 (text characters) draft.old draft.new) }
    ensures none { IfNone result (draft.new ≡ draft.old) }
{
    match leading_text(bytes) {
        Some((count, characters)) => {
            if !draft.append_prefix(bytes, count) {
                return None;
            }
            Some((count, characters))
        }
        None => append_respelled(bytes, draft),
    }
}

#[inline(always)]
fn leading_text(bytes: &[u8]) -> Option<(usize, usize)>
    ensures { IfSome result (λ front. (characters : List ℕ) × (front.1 ≡ length characters) × IsCanonicalLeadingToken bytes.now front.0 (text characters)) }
{
    let inside = behind(b'\'', bytes)?;
    let (count, characters) = inside_text(inside);
    if !ends_text(&inside[count..]) {
        return None;
    }
    Some((count + 2, characters))
}

/// The characters at the front that stand in their canonical spellings: how many bytes, and how many characters. Some texts
/// have none.
#[inline(always)]
fn inside_text(inside: &[u8]) -> (usize, usize)
    ensures { AreCharacters inside.now result.0 result.1 }
{
    if ends_text(inside) {
        return (0, 0);
    }
    long_text(inside)
}

#[inline(never)]
fn long_text(inside: &[u8]) -> (usize, usize)
    ensures { AreCharacters inside.now result.0 result.1 }
{
    let mut count = 0;
    let mut characters = 0;
    while count < inside.len() {
        let (bytes, more) = some_characters(&inside[count..]);
        if bytes == 0 {
            break;
        }
        count += bytes;
        characters += more;
    }
    (count, characters)
}

/// Some of the characters at the front: a run of plain ones, or one that has a spelling of more bytes. None where the first
/// doesn't stand in its canonical spelling.
#[inline(always)]
pub(crate) fn some_characters(rest: &[u8]) -> (usize, usize)
    ensures { AreCharacters rest.now result.0 result.1 }
{
    match rest.first() {
        Some(b'\'') | Some(b'\\') => long_character(rest),
        _ => {
            let count = plain_characters(rest);
            (count, count)
        }
    }
}

/// The character at the front that is doubled, or has a directive.
#[tactic(auto, using(crate::proofs::TextTokens::doubled_at, crate::proofs::TextTokens::lone_character, crate::proofs::TextTokens::no_characters))]
fn long_character(rest: &[u8]) -> (usize, usize)
    ensures { AreCharacters rest.now result.0 result.1 }
{
    match scan_directive(rest) {
        Some((Directive::Doubled(_byte), _behind)) => (2, 1),
        Some((Directive::Extended2, groups)) => match lone_group(groups) {
            Some(character) if is_extended(character) => (EXTENDED, 1),
            _ => (0, 0),
        },
        _ => (0, 0),
    }
}

/// The bytes of an extended directive of one character with four hex digits.
const EXTENDED: usize = 12;

/// The digits of its group.
const GROUP: usize = 4;

/// The character of the group at the front, where it is the only one of its directive.
#[tactic(auto, using(crate::proofs::TextTokens::lone_group_at))]
fn lone_group(groups: &[u8]) -> Option<char>
    ensures { IfSome result (λ character. IsLoneGroup groups.now character) }
{
    if groups.len() < GROUP {
        return None;
    }
    let _rest = behind_extended(&groups[GROUP..])?;
    let (character, _behind) = scan_character(GROUP, groups)?;
    Some(character)
}

/// A character that isn't written as itself.
fn is_extended(character: char) -> bool
    ensures { IsTrue result → (character < 32) ⊎ (127 ≤ character) }
{
    !matches!(character, ' '..='~')
}
