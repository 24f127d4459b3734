ghost use Rattle.std.specs.Prelude.{◌≡◌};
ghost use Rattle.p21_tokens_automaton.specs.Step.{name_action, name_digit_action};

use crate::mode::{Absent, Action, Mode, NameMode, Wrong};
use p21_scan::{is_digit, is_upper};

/// What a byte does inside an instance name.
pub(crate) fn name_action(mode: NameMode, byte: u8) -> Action
    ensures { result ≡ name_action mode byte }
{
    match mode {
        NameMode::Hash => {
            if is_digit(byte) {
                name_digit_action(0, byte - b'0')
            } else if is_upper(byte) {
                Action::Refuse(Wrong::LeftOut(Absent::ConstantName))
            } else {
                Action::Refuse(Wrong::Name)
            }
        }
        NameMode::Digits(value) => {
            if is_digit(byte) {
                name_digit_action(value, byte - b'0')
            } else {
                Action::End
            }
        }
    }
}

/// A further digit, if the number stays below 2^64.
fn name_digit_action(value: u64, digit: u8) -> Action
    ensures { result ≡ name_digit_action value digit }
{
    match value.checked_mul(10) {
        None => Action::Refuse(Wrong::NameRange),
        Some(tens) => match tens.checked_add(u64::from(digit)) {
            None => Action::Refuse(Wrong::NameRange),
            Some(number) => Action::Skip(Mode::Name(NameMode::Digits(number))),
        },
    }
}
