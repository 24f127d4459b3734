//! Strings with characters that don't stand in their canonical spellings, as several ones in a directive, or one in UTF-8
//! (ISO 10303-21, clause 6: tokens, string).
ghost use Rattle.std.specs.Prelude.{◌≡◌, ℕ, List, length, IfNone, IfSome, IsTrue};
ghost use Rattle.p21_spec_exchange.specs.Text.{Encodes};
ghost use Rattle.p21_spec_exchange.specs.Token.{text};
ghost use Rattle.p21_tokens_automaton.specs.declared.mode.Mode.TheVariants.{Text};
ghost use Rattle.p21_tokens_automaton.specs.declared.mode.TextMode.TheVariants.{Inside};
ghost use Rattle.p21_shorter_tokens.specs.LeadingToken.{AppendsToken};
ghost use Rattle.p21_shorter_tokens.specs.Respelling.{Respells, RespellsAll};
ghost use Rattle.p21_values.specs.Canonical.{Continues};

use crate::character::append_character;
use crate::directive::append_directive;
use crate::draft::Draft;
use crate::text::some_characters;
use p21_scan::{behind, ends_text};
use p21_tokens_automaton::{Action, Mode, TextMode, advance};

/// Appends the string at the front: how many bytes it has, and how many characters.
#[inline(never)]
pub(crate) fn append_respelled(bytes: &[u8], draft: &mut Draft) -> Option<(usize, usize)>
    ensures some { IfSome result (λ front. (characters : List ℕ) × (front.1 ≡ length characters) × AppendsToken bytes.now front.0 (text characters) draft.old draft.new) }
    ensures none { IfNone result (draft.new ≡ draft.old) }
{
    let before = draft.len();
    let found = append_string(bytes, draft);
    if found.is_none() {
        draft.cut(before);
    }
    found
}

fn append_string(bytes: &[u8], draft: &mut Draft) -> Option<(usize, usize)>
    ensures some { IfSome result (λ front. (characters : List ℕ) × (front.1 ≡ length characters) × AppendsToken bytes.now front.0 (text characters) draft.old draft.new) }
    ensures none { IfNone result (Continues draft.old draft.new) }
{
    let inside = behind(b'\'', bytes)?;
    if !draft.put(b'\'') {
        return None;
    }
    let (count, characters) = append_inside(inside, draft)?;
    if !draft.put(b'\'') {
        return None;
    }
    Some((count + 2, characters))
}

/// Appends the characters up to the apostrophe that ends the string: how many bytes they have, and how many they are.
fn append_inside(inside: &[u8], draft: &mut Draft) -> Option<(usize, usize)>
    ensures some { IfSome result (λ front. RespellsAll inside.now front.0 front.1 draft.old draft.new) }
    ensures none { IfNone result (Continues draft.old draft.new) }
{
    let mut count = 0;
    let mut characters = 0;
    while count < inside.len() {
        if ends_text(&inside[count..]) {
            return Some((count, characters));
        }
        let (bytes, more) = append_some(&inside[count..], draft)?;
        if bytes == 0 {
            return None;
        }
        count += bytes;
        characters += more;
    }
    None
}

/// Appends some of the characters at the front: those that stand in their canonical spellings, or what one unit stands for.
fn append_some(rest: &[u8], draft: &mut Draft) -> Option<(usize, usize)>
    ensures some { IfSome result (λ front. Respells Encodes rest.now front.0 front.1 draft.old draft.new) }
    ensures none { IfNone result (Continues draft.old draft.new) }
{
    let (count, characters) = some_characters(rest);
    if count == 0 {
        return append_unit(rest, draft);
    }
    if !draft.append_prefix(rest, count) {
        return None;
    }
    Some((count, characters))
}

/// Appends what the unit at the front stands for: the characters of a directive, one character, or none.
fn append_unit(rest: &[u8], draft: &mut Draft) -> Option<(usize, usize)>
    ensures some { IfSome result (λ front. Respells Encodes rest.now front.0 front.1 draft.old draft.new) }
    ensures none { IfNone result (Continues draft.old draft.new) }
{
    if is_long_run(rest) {
        return None;
    }
    let before = draft.len();
    let found = append_directive(rest, draft);
    if found.is_some() {
        return found;
    }
    draft.cut(before);
    append_by_steps(rest, draft)
}

/// A run of so many bytes in UTF-8 is left to the lexer, which takes it at once.
const LONG_RUN: usize = 48;

/// Whether a run of bytes in UTF-8 at the front has at least as many.
fn is_long_run(rest: &[u8]) -> bool {
    match rest.first_chunk::<LONG_RUN>() {
        Some(front) => front.iter().all(|byte| *byte >= 0x80),
        None => false,
    }
}

/// Appends what the unit at the front stands for, by the steps of the lexer.
fn append_by_steps(rest: &[u8], draft: &mut Draft) -> Option<(usize, usize)>
    ensures some { IfSome result (λ front. Respells Encodes rest.now front.0 front.1 draft.old draft.new) }
    ensures none { IfNone result (Continues draft.old draft.new) }
{
    let mut mode = Mode::Text(TextMode::Inside);
    let mut characters = 0;
    for (index, byte) in rest.iter().enumerate() {
        match advance(mode, *byte) {
            Action::Skip(next) => mode = next,
            Action::Put(next, character) => {
                if !append_character(character, draft) {
                    return None;
                }
                characters += 1;
                mode = next;
            }
            _ => return None,
        }
        if is_inside(mode) {
            return Some((index + 1, characters));
        }
    }
    None
}

/// Whether this is between two units of a string.
fn is_inside(mode: Mode) -> bool
    ensures { IsTrue result → mode ≡ Text Inside }
{
    match mode {
        Mode::Text(TextMode::Inside) => true,
        _ => false,
    }
}
