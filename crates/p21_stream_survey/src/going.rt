//! A statement of which a step refused some bytes is passed over, and listed.
ghost use Rattle.std.specs.Prelude.{IfOk};
ghost use Rattle.p21_stream_log.specs.Passage.{GoesOnAt, StaysAt};
ghost use Rattle.p21_stream_survey.specs.Passing.{GoesOnBroken, ListsPassed};

use crate::breaking::pass_broken;
use crate::listing::Listing;
use crate::noting::Noted;
use p21_stream_log::{Log, Passage};
use p21_stream_statements::{At, Fault};
use p21_values::{Limits, NoMemory};
use std::alloc::Global;

/// A statement of which a step refused some: why, where what is refused stands in the file, and how many bytes stand in front of the
/// statement.
#[derive(Clone, Copy)]
pub(crate) struct Broken {
    pub fault: Fault,
    pub place: u64,
    pub begins: u64,
}

/// Passes over a statement of which a step refused some, with these bytes behind the last statement, and lists it where the reading goes
/// on.
///
/// # Errors
///
/// `NoMemory`.
pub(crate) fn go_on_behind(
    log: &mut Log,
    listing: &mut Listing,
    alloc: Global,
    limits: Limits,
    broken: Broken,
    bytes: &[u8],
) -> Result<Passage, NoMemory>
    ensures goes { IfOk result (λ passage. GoesOnBroken log.old listing.old broken.fault broken.begins bytes.now passage log.new
        listing.new) }
    ensures stays { IfOk result (λ passage. StaysAt passage log.old log.new) }
    ensures begins { IfOk result (λ passage. GoesOnAt log.old passage log.new) }
{
    let noted = Noted::of(log, broken.fault, bytes);
    match pass_broken(log, alloc, limits, broken.fault, broken.place, bytes) {
        Ok(Passage::GoesOn(count)) => {
            list_passed(
                listing,
                broken.fault,
                broken.begins,
                count,
                bytes.len(),
                noted,
            )
        }
        Ok(Passage::AtFileMark) => Ok(Passage::AtFileMark),
        Ok(Passage::TooLong) => Ok(Passage::TooLong),
        Ok(Passage::Sought(seeker)) => Ok(Passage::Sought(seeker)),
        Err(NoMemory) => Err(NoMemory),
    }
}

/// Lists a statement that is passed over by so many of as many bytes.
pub(crate) fn list_passed(
    listing: &mut Listing,
    fault: Fault,
    begins: u64,
    count: usize,
    size: usize,
    noted: Noted<'_>,
) -> Result<Passage, NoMemory>
    ensures { IfOk result (λ passage. ListsPassed listing.old fault begins count size passage listing.new) }
{
    let at = At::Statement(listing.statement);
    match listing.pass_over(fault, at, begins, count.min(size), noted) {
        Ok(()) => Ok(Passage::GoesOn(count)),
        Err(NoMemory) => Err(NoMemory),
    }
}
