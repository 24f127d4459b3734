ghost use Rattle.std.specs.Prelude.{◌≡◌, ◌<◌, ◌-◌, ◌^◌};
ghost use Rattle.p21_stream_resume.specs.Reading.{size_in};
ghost use Rattle.p21_stream_resume.specs.Standing.{FindsAtFront};

use crate::mode::{Mode, Step};
use crate::signpost::Signpost;
use crate::step::step;

/// The signpost whose bytes stand at the front.
pub(crate) fn signpost_at_front(bytes: &[u8]) -> Option<Signpost>
    ensures { FindsAtFront bytes.now result }
{
    let mut mode = Mode::Opened;
    for (at, byte) in bytes.iter().enumerate() {
        match step(mode, *byte) {
            Step::Ends(signpost) => return Some(signpost),
            Step::Goes(next) => {
                // It belongs to the signpost that the first byte began.
                if size_in(next, at) != at + 1 {
                    return None;
                }
                mode = next;
            }
        }
    }
    None
}

/// How many bytes the open signpost has behind a byte that led to a mode, where it had so many.
fn size_in(mode: Mode, size: usize) -> usize
    requires { size < 2 ^ 64 - 1 }
    ensures { result ≡ size_in mode size }
{
    match mode {
        Mode::Closed => 0,
        Mode::Opened => 0,
        Mode::Hash => 1,
        Mode::Digits(_) => size + 1,
        Mode::NameGap(_, _, _) => size + 1,
        Mode::Word(_, taken) => usize::from(taken),
        Mode::SectionGap(_, _) => size + 1,
    }
}
