//! A fault of form is named by the automaton. The clause names the mode in which the open bytes end and what `advance`
//! does there, so that no rule of the standard is written a second time. The definitions say that a real is out of
//! range where a byte or the end of the bytes ends it.
ghost use Rattle.std.specs.Prelude.{◌≡◌};
ghost use Rattle.p21_tokens_automaton.specs.Step.{advance};

use crate::binary::binary_action;
use crate::gap::between_action;
use crate::mode::{Action, Mode, Wrong};
use crate::name::name_action;
use crate::number::number_action;
use crate::text::text_action;
use crate::word::word_action;

/// What a byte does behind the bytes that led to a mode.
pub fn advance(mode: Mode, byte: u8) -> Action
    ensures { result ≡ advance mode byte }
{
    match mode {
        Mode::Between => between_action(byte),
        Mode::Slash => {
            if byte == b'*' {
                Action::Pass(Mode::Comment)
            } else {
                Action::Refuse(Wrong::Byte)
            }
        }
        Mode::Comment => {
            if byte == b'*' {
                Action::Pass(Mode::Star)
            } else {
                Action::Pass(Mode::Comment)
            }
        }
        Mode::Star => {
            if byte == b'/' {
                Action::Pass(Mode::Between)
            } else if byte == b'*' {
                Action::Pass(Mode::Star)
            } else {
                Action::Pass(Mode::Comment)
            }
        }
        Mode::Number(mode) => number_action(mode, byte),
        Mode::Word(mode) => word_action(mode, byte),
        Mode::Name(mode) => name_action(mode, byte),
        Mode::Binary(mode) => binary_action(mode, byte),
        Mode::Text(mode) => text_action(mode, byte),
    }
}
