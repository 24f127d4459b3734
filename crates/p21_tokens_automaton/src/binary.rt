ghost use Rattle.std.specs.Prelude.{◌≡◌};
ghost use Rattle.p21_tokens_automaton.specs.Step.{binary_action, has_zero_padding};

use crate::mode::{Action, BinaryMode, Mode, Wrong};
use p21_scan::{hex_value, is_hex_digit};

/// What a byte does inside a binary.
pub(crate) fn binary_action(mode: BinaryMode, byte: u8) -> Action
    ensures { result ≡ binary_action mode byte }
{
    match mode {
        BinaryMode::Quote => {
            if b'0' <= byte && byte <= b'3' {
                Action::Keep(Mode::Binary(BinaryMode::Padding(byte - b'0')))
            } else {
                Action::Refuse(Wrong::Binary)
            }
        }
        BinaryMode::Padding(padding) => {
            if is_hex_digit(byte) {
                if is_padded(padding, hex_value(byte)) {
                    Action::Keep(Mode::Binary(BinaryMode::Hex))
                } else {
                    Action::Refuse(Wrong::Binary)
                }
            } else if byte == b'"' && padding == 0 {
                Action::Close
            } else {
                Action::Refuse(Wrong::Binary)
            }
        }
        BinaryMode::Hex => {
            if is_hex_digit(byte) {
                Action::Keep(Mode::Binary(BinaryMode::Hex))
            } else if byte == b'"' {
                Action::Close
            } else {
                Action::Refuse(Wrong::Binary)
            }
        }
    }
}

/// Whether so many of the highest of four bits are zero.
fn is_padded(padding: u8, value: u8) -> bool
    ensures { result ≡ has_zero_padding padding value }
{
    match padding {
        0 => value < 16,
        1 => value < 8,
        2 => value < 4,
        _ => value < 2,
    }
}
