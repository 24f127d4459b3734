ghost use Rattle.std.specs.Prelude.{◌≡◌, slice_get};
ghost use Rattle.p21_tokens_automaton.specs.Step.{word_action, marker_text, marker_action};

use crate::mode::{Action, Marker, Mode, WordMode, Wrong};
use p21_scan::{is_keyword_byte, is_upper};

/// What a byte does inside a keyword or an enumeration item.
pub(crate) fn word_action(mode: WordMode, byte: u8) -> Action
    ensures { result ≡ word_action mode byte }
{
    match mode {
        WordMode::Keyword => {
            if is_keyword_byte(byte) {
                Action::Keep(Mode::Word(WordMode::Keyword))
            } else if byte == b'-' {
                Action::Dash
            } else {
                Action::End
            }
        }
        WordMode::Marker(marker, taken) => marker_action(marker, taken, byte),
        WordMode::Marked(_marker) => {
            if is_keyword_byte(byte) {
                Action::Refuse(Wrong::Byte)
            } else {
                Action::End
            }
        }
        WordMode::Exclamation => begin_word_action(WordMode::UserKeyword, byte),
        WordMode::UserKeyword => {
            if is_keyword_byte(byte) {
                Action::Keep(Mode::Word(WordMode::UserKeyword))
            } else if byte == b'-' {
                Action::Refuse(Wrong::Byte)
            } else {
                Action::End
            }
        }
        WordMode::Point => begin_word_action(WordMode::Item, byte),
        WordMode::Item => {
            if is_keyword_byte(byte) {
                Action::Keep(Mode::Word(WordMode::Item))
            } else if byte == b'.' {
                Action::Close
            } else {
                Action::Refuse(Wrong::Byte)
            }
        }
    }
}

/// The first keyword character behind a mark.
fn begin_word_action(mode: WordMode, byte: u8) -> Action
    ensures { result ≡ begin_word_action mode byte }
{
    if is_upper(byte) {
        Action::Keep(Mode::Word(mode))
    } else {
        Action::Refuse(Wrong::Byte)
    }
}

ghost use Rattle.p21_tokens_automaton.specs.Step.{begin_word_action};

/// The bytes of the first or the last token of a file.
fn marker_text(marker: Marker) -> &'static [u8]
    ensures { result.now ≡ marker_text marker }
{
    match marker {
        Marker::Begin => b"ISO-10303-21",
        Marker::Finish => b"END-ISO-10303-21",
    }
}

fn marker_action(marker: Marker, taken: u8, byte: u8) -> Action
    ensures { result ≡ marker_action marker taken byte (slice_get (marker_text marker) taken) }
{
    let text = marker_text(marker);
    let taken = usize::from(taken);
    match text.get(taken) {
        None => Action::Refuse(Wrong::Byte),
        Some(expected) => {
            if byte != *expected {
                Action::Refuse(Wrong::Byte)
            } else if taken + 1 < text.len() {
                Action::Keep(Mode::Word(WordMode::Marker(marker, taken as u8 + 1)))
            } else {
                Action::Keep(Mode::Word(WordMode::Marked(marker)))
            }
        }
    }
}
