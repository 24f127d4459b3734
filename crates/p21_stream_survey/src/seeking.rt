//! Where the reading goes on behind a broken statement is looked for in one piece after the other.
ghost use Rattle.std.specs.Prelude.{◌≡◌, ◌≤◌, IfNone, IfOk, IfSome, length};
ghost use Rattle.p21_stream_log.specs.Passage.{GoesOnAt, StaysAt};
ghost use Rattle.p21_stream_survey.specs.Seeking.{SeeksFurther};

use crate::going::list_passed;
use crate::listing::Listing;
use crate::noting::Noted;
use p21_stream_log::{Log, Passage};
use p21_stream_resume::Seeker;
use p21_stream_statements::Fault;
use p21_values::NoMemory;

/// A broken statement behind which no signpost is found yet: its refusal, where it begins, and how many bytes are taken from there on.
#[derive(Clone, Copy)]
pub(crate) struct Stretch {
    pub fault: Fault,
    pub begins: u64,
    pub taken: usize,
}

/// The broken statement, and what looks for where the reading goes on behind it.
#[derive(Drop)]
pub(crate) struct Sought {
    pub seeker: Seeker,
    pub stretch: Stretch,
}

/// Looks for where the reading goes on in the next piece, and lists the statement where it does. Where it goes on, or ends, so many bytes
/// of the piece are read. Else the seeker has taken all of them.
///
/// # Errors
///
/// `NoMemory`.
pub(crate) fn seek_further(
    log: &mut Log,
    listing: &mut Listing,
    seeker: &mut Seeker,
    stretch: Stretch,
    piece: &[u8],
) -> Result<Option<(usize, Passage)>, NoMemory>
    ensures within { IfOk result (λ found. IfSome found (λ f. f.0 ≤ length piece.now)) }
    ensures seeks { IfOk result (λ found. SeeksFurther log.old listing.old seeker.old stretch.fault stretch.begins stretch.taken piece.now
        found log.new listing.new seeker.new) }
    ensures stays { IfOk result (λ found. IfNone found (log.new ≡ log.old)) }
    ensures stays_there { IfOk result (λ found. IfSome found (λ f. StaysAt f.1 log.old log.new)) }
    ensures begins { IfOk result (λ found. IfSome found (λ f. GoesOnAt log.old f.1 log.new)) }
{
    let noted = Noted::of(log, stretch.fault, &[]);
    let (count, passage) = match log.pass_on(seeker, stretch.taken, piece) {
        Ok(Some(found)) => found,
        Ok(None) => return Ok(None),
        Err(NoMemory) => return Err(NoMemory),
    };
    let passed = match passage {
        Passage::GoesOn(passed) => passed,
        Passage::AtFileMark => return Ok(Some((count, Passage::AtFileMark))),
        Passage::TooLong => return Ok(Some((count, Passage::TooLong))),
        Passage::Sought(further) => return Ok(Some((count, Passage::Sought(further)))),
    };
    let size = stretch.taken.saturating_add(piece.len());
    match list_passed(listing, stretch.fault, stretch.begins, passed, size, noted) {
        Ok(listed) => Ok(Some((count, listed))),
        Err(NoMemory) => Err(NoMemory),
    }
}
