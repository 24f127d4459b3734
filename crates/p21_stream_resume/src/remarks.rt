ghost use Rattle.std.specs.Prelude.{◌≡◌, ◌≤◌, ◌↔◌, IsTrue, length};
ghost use Rattle.p21_stream_resume.specs.Lexing.{AreLexed, IsInRemark};
ghost use Rattle.p21_stream_resume.specs.Standing.{FindsInRemark, FindsNext, kept_in};
ghost use Rattle.p21_tokens_automaton.specs.Reading.{State};

use crate::signpost::Signpost;
use crate::strings::{behind, signpost_at};
use p21_tokens_automaton::Mode;

/// The first signpost in the remark in which a statement ends, and how many bytes of the statement stand in front of it. A remark that
/// nothing ends runs on over all that is left of a file, so what stands in it by itself is seldom text. Where a lexer refuses a byte of the
/// statement nothing is claimed.
pub fn signpost_in_remark(statement: &[u8]) -> Option<(usize, Signpost)>
    ensures { (behind : State) → AreLexed statement.now behind → FindsInRemark statement.now result }
{
    let mut mode = Mode::Between;
    let mut last = 0;
    let mut found = None;
    for (at, byte) in statement.iter().enumerate() {
        let next = next_in(found, mode, statement, at);
        mode = behind(mode, last, *byte);
        found = kept_in(mode, next);
        last = *byte;
    }
    found
}

/// What is found, or the signpost that stands behind so many bytes, where the mode is one of a remark.
fn next_in(
    found: Option<(usize, Signpost)>,
    mode: Mode,
    statement: &[u8],
    place: usize,
) -> Option<(usize, Signpost)>
    requires { place ≤ length statement.now }
    ensures { FindsNext statement.now place mode found result }
{
    if let Some(first) = found {
        return Some(first);
    }
    if !is_in_remark(mode) {
        return None;
    }
    match signpost_at(statement, place) {
        None => None,
        Some(signpost) => Some((place, signpost)),
    }
}

/// What is found in a remark, as long as this is open.
fn kept_in(mode: Mode, found: Option<(usize, Signpost)>) -> Option<(usize, Signpost)>
    ensures { result ≡ kept_in mode found }
{
    if is_in_remark(mode) { found } else { None }
}

/// Whether a remark is open.
pub(crate) fn is_in_remark(mode: Mode) -> bool
    ensures { IsTrue result ↔ IsInRemark mode }
{
    match mode {
        Mode::Comment => true,
        Mode::Star => true,
        _ => false,
    }
}
