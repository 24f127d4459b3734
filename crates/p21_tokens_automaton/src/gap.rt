ghost use Rattle.std.specs.Prelude.{◌≡◌};
ghost use Rattle.p21_tokens_automaton.specs.Step.{between_action, punctuation_action};

use crate::mode::{
    Absent, Action, BinaryMode, Mode, NameMode, NumberMode, Single, TextMode, WordMode, Wrong,
};
use p21_scan::{is_blank, is_digit, is_upper};

/// A byte between tokens.
pub(crate) fn between_action(byte: u8) -> Action
    ensures { result ≡ between_action byte }
{
    if is_blank(byte) {
        Action::Pass(Mode::Between)
    } else if is_digit(byte) {
        Action::Keep(Mode::Number(NumberMode::Whole))
    } else if is_upper(byte) {
        Action::Keep(Mode::Word(WordMode::Keyword))
    } else {
        punctuation_action(byte)
    }
}

/// A byte between tokens that is no separator, digit or letter.
fn punctuation_action(byte: u8) -> Action
    ensures { result ≡ punctuation_action byte }
{
    match byte {
        b',' => Action::Give(Single::Comma),
        b'#' => Action::Skip(Mode::Name(NameMode::Hash)),
        b'(' => Action::Give(Single::Left),
        b')' => Action::Give(Single::Right),
        b'\'' => Action::Skip(Mode::Text(TextMode::Inside)),
        b'.' => Action::Keep(Mode::Word(WordMode::Point)),
        b';' => Action::Give(Single::Semicolon),
        b'=' => Action::Give(Single::Equals),
        b'$' => Action::Give(Single::Dollar),
        b'*' => Action::Give(Single::Star),
        b'+' => Action::Keep(Mode::Number(NumberMode::Sign)),
        b'-' => Action::Keep(Mode::Number(NumberMode::Sign)),
        b'"' => Action::Keep(Mode::Binary(BinaryMode::Quote)),
        b'!' => Action::Keep(Mode::Word(WordMode::Exclamation)),
        b'/' => Action::Pass(Mode::Slash),
        b'&' => Action::Refuse(Wrong::LeftOut(Absent::Scope)),
        b'@' => Action::Refuse(Wrong::LeftOut(Absent::ValueName)),
        _ => Action::Refuse(Wrong::Byte),
    }
}
