ghost use Rattle.std.specs.Prelude.{◌≡◌, ◌≤◌, ◌↔◌, IfSome, IsTrue, drop, length, take};
ghost use Rattle.p21_stream_resume.specs.Lexing.{AreLexed, IsInString, marker_by, mode_first, mode_on};
ghost use Rattle.p21_stream_resume.specs.Standing.{FindsInString, FindsThere};
ghost use Rattle.p21_tokens_automaton.specs.Reading.{State};

use crate::behind::is_opened_behind;
use crate::front::signpost_at_front;
use crate::signpost::Signpost;
use p21_tokens_automaton::{Action, Marker, Mode, TextMode, WordMode, advance};

/// The first signpost in a string of a statement, and how many bytes of the statement stand in front of it. A string that nothing ends runs
/// on over whole statements, so what stands in it by itself is seldom text. The statement may be one that hasn't ended. Where a lexer refuses a
/// byte of it nothing is claimed.
pub fn signpost_in_string(statement: &[u8]) -> Option<(usize, Signpost)>
    ensures { (behind : State) → AreLexed statement.now behind → FindsInString statement.now result }
{
    let mut mode = Mode::Between;
    let mut last = 0;
    for (at, byte) in statement.iter().enumerate() {
        if let Some(signpost) = signpost_in(mode, statement, at) {
            return Some((at, signpost));
        }
        mode = behind(mode, last, *byte);
        last = *byte;
    }
    None
}

/// The signpost that stands behind so many bytes, where the mode is one of a string.
fn signpost_in(mode: Mode, statement: &[u8], place: usize) -> Option<Signpost>
    requires { place ≤ length statement.now }
    ensures in_string { IfSome result (λ found. IsInString mode) }
    ensures there { IsInString mode → FindsThere (take place statement.now) (drop place statement.now) result }
{
    if !is_in_string(mode) {
        return None;
    }
    signpost_at(statement, place)
}

/// The signpost that stands behind so many bytes.
pub(crate) fn signpost_at(bytes: &[u8], place: usize) -> Option<Signpost>
    requires { place ≤ length bytes.now }
    ensures { FindsThere (take place bytes.now) (drop place bytes.now) result }
{
    // It is looked at first: mostly the first byte tells that none is there.
    match signpost_at_front(&bytes[place..]) {
        None => None,
        Some(found) => {
            if is_opened_behind(false, &bytes[..place]) {
                Some(found)
            } else {
                None
            }
        }
    }
}

/// Whether a string is open, and not behind the apostrophe that ends it.
pub(crate) fn is_in_string(mode: Mode) -> bool
    ensures { IsTrue result ↔ IsInString mode }
{
    match mode {
        Mode::Text(TextMode::Apostrophe) => false,
        Mode::Text(_) => true,
        _ => false,
    }
}

/// Where a byte leads from a mode, by the byte in front of it.
pub(crate) fn behind(mode: Mode, last: u8, byte: u8) -> Mode
    ensures { result ≡ mode_on mode last byte }
{
    match advance(mode, byte) {
        Action::Pass(next) => next,
        Action::Skip(next) => next,
        Action::Keep(next) => next,
        Action::Put(next, _) => next,
        Action::End => first(advance(Mode::Between, byte)),
        Action::Dash => Mode::Word(WordMode::Marker(marker_by(last), 4)),
        Action::Give(_) => Mode::Between,
        Action::Close => Mode::Between,
        Action::Refuse(_) => Mode::Between,
    }
}

/// Where a byte between tokens leads, by what it does.
fn first(action: Action) -> Mode
    ensures { result ≡ mode_first action }
{
    match action {
        Action::Pass(next) => next,
        Action::Skip(next) => next,
        Action::Keep(next) => next,
        Action::Put(next, _) => next,
        Action::Give(_) => Mode::Between,
        Action::Close => Mode::Between,
        Action::End => Mode::Between,
        Action::Dash => Mode::Between,
        Action::Refuse(_) => Mode::Between,
    }
}

/// The marker that a `-` behind this byte belongs to, where it belongs to one.
fn marker_by(last: u8) -> Marker
    ensures { result ≡ marker_by last }
{
    if last == b'O' {
        Marker::Begin
    } else {
        Marker::Finish
    }
}
