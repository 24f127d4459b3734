ghost use Rattle.std.specs.Prelude.{◌↔◌, IsTrue};
ghost use Rattle.p21_stream_log.specs.Passage.{FindsInside, IsFrontSize, IsMark, IsTooFarAt};
ghost use Rattle.p21_stream_resume.specs.Lexing.{AreLexed};
ghost use Rattle.p21_tokens_automaton.specs.Reading.{State};

use p21_stream_resume::{Seeker, Signpost, signpost_in_remark, signpost_in_string};

/// How a statement is passed over by bytes that are in hand.
#[derive(Drop)]
pub enum Passage {
    /// The reading goes on behind so many of them. Those from there on are to be offered next.
    GoesOn(usize),
    /// A file begins or ends where it would go on.
    AtFileMark,
    /// The file may not have as many bytes.
    TooLong,
    /// No signpost is whole in them. The seeker has taken those from the refused byte on.
    Sought(Seeker),
}

/// The first signpost in a string of a statement. Where none are known behind it also the first one in the remark in which it ends: no
/// string stands behind that.
pub(crate) fn signpost_inside(statement: &[u8], behind: &[u8]) -> Option<(usize, Signpost)>
    ensures { (state : State) → AreLexed statement.now state → FindsInside statement.now behind.now result }
{
    if let Some(found) = signpost_in_string(statement) {
        return Some(found);
    }
    if behind.is_empty() {
        signpost_in_remark(statement)
    } else {
        None
    }
}

/// Whether a file begins or ends with a signpost.
pub(crate) fn is_file_mark(signpost: Signpost) -> bool
    ensures { IsTrue result ↔ IsMark signpost }
{
    match signpost {
        Signpost::Instance(_, _) => false,
        Signpost::SectionEnd(_) => false,
        Signpost::FileBegin => true,
        Signpost::FileEnd => true,
    }
}

/// What comes of a signpost that no place of 64 bits is in front of.
pub(crate) fn too_far(signpost: Signpost) -> Passage
    ensures { IsTooFarAt signpost result }
{
    if is_file_mark(signpost) {
        Passage::AtFileMark
    } else {
        Passage::TooLong
    }
}

/// How many bytes stand in front of a signpost of so many, where these are taken and it ends behind so many others; none where 64 bits
/// can't say it.
pub(crate) fn front_size(taken: usize, count: usize, size: usize) -> Option<usize>
    ensures { IsFrontSize taken count size result }
{
    if count < size {
        Some(taken.saturating_sub(size - count))
    } else {
        taken.checked_add(count - size)
    }
}
