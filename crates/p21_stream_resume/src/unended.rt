ghost use Rattle.std.specs.Prelude.{◌≤◌, ◌⊎◌, IfSome, drop, length, take};
ghost use Rattle.p21_stream_resume.specs.Lexing.{AreLexed, IsInRemark, IsInString};
ghost use Rattle.p21_stream_resume.specs.Standing.{EndsNoRemark, FindsInText, FindsThere};
ghost use Rattle.p21_tokens_automaton.specs.Reading.{State};

use crate::remarks::is_in_remark;
use crate::signpost::Signpost;
use crate::strings::{behind, is_in_string, signpost_at};
use p21_tokens_automaton::Mode;

/// The first signpost in a string of a statement, or else in the remark in which it ends, and how many bytes of the statement stand in
/// front of it. No `*/` stands in the statement: so each remark runs on to its end, and nothing is read behind the signpost. Where a lexer
/// refuses a byte of the statement nothing is claimed.
pub fn signpost_in_unended(statement: &[u8]) -> Option<(usize, Signpost)>
    requires { EndsNoRemark statement.now }
    ensures { (behind : State) → AreLexed statement.now behind → FindsInText statement.now result }
{
    let mut mode = Mode::Between;
    let mut last = 0;
    for (at, byte) in statement.iter().enumerate() {
        if let Some(signpost) = signpost_in_text(mode, statement, at) {
            return Some((at, signpost));
        }
        mode = behind(mode, last, *byte);
        last = *byte;
    }
    None
}

/// The signpost that stands behind so many bytes, where the mode is one of a string or of a remark.
fn signpost_in_text(mode: Mode, statement: &[u8], place: usize) -> Option<Signpost>
    requires { place ≤ length statement.now }
    ensures in_text { IfSome result (λ found. IsInString mode ⊎ IsInRemark mode) }
    ensures there { IsInString mode ⊎ IsInRemark mode → FindsThere (take place statement.now) (drop place statement.now) result }
{
    if is_in_string(mode) {
        return signpost_at(statement, place);
    }
    if is_in_remark(mode) {
        return signpost_at(statement, place);
    }
    None
}
