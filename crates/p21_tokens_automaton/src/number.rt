ghost use Rattle.std.specs.Prelude.{◌≡◌};
ghost use Rattle.p21_tokens_automaton.specs.Step.{number_action, mode_behind_digit, non_digit_action};

use crate::mode::{Action, Mode, NumberMode, Wrong};
use p21_scan::is_digit;

/// What a byte does inside a number.
pub(crate) fn number_action(mode: NumberMode, byte: u8) -> Action
    ensures { result ≡ number_action mode byte }
{
    if is_digit(byte) {
        Action::Keep(Mode::Number(mode_behind_digit(mode)))
    } else {
        non_digit_action(mode, byte)
    }
}

/// The part of the number that a digit belongs to.
fn mode_behind_digit(mode: NumberMode) -> NumberMode
    ensures { result ≡ mode_behind_digit mode }
{
    match mode {
        NumberMode::Sign => NumberMode::Whole,
        NumberMode::Whole => NumberMode::Whole,
        NumberMode::Fraction => NumberMode::Fraction,
        NumberMode::Exponent => NumberMode::ExponentDigits,
        NumberMode::ExponentSign => NumberMode::ExponentDigits,
        NumberMode::ExponentDigits => NumberMode::ExponentDigits,
    }
}

fn non_digit_action(mode: NumberMode, byte: u8) -> Action
    ensures { result ≡ non_digit_action mode byte }
{
    match mode {
        NumberMode::Sign => Action::Refuse(Wrong::Number),
        NumberMode::Whole => {
            if byte == b'.' {
                Action::Keep(Mode::Number(NumberMode::Fraction))
            } else {
                Action::End
            }
        }
        NumberMode::Fraction => {
            if byte == b'E' {
                Action::Keep(Mode::Number(NumberMode::Exponent))
            } else {
                Action::End
            }
        }
        NumberMode::Exponent => {
            if byte == b'+' || byte == b'-' {
                Action::Keep(Mode::Number(NumberMode::ExponentSign))
            } else {
                Action::Refuse(Wrong::Number)
            }
        }
        NumberMode::ExponentSign => Action::Refuse(Wrong::Number),
        NumberMode::ExponentDigits => Action::End,
    }
}
