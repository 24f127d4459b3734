//! An instance that is refused, with a signpost in a string of it, is passed over and listed.
ghost use Rattle.std.specs.Prelude.{◌≡◌, IfOk};
ghost use Rattle.p21_stream_log.specs.Passage.{GoesOnAt};
ghost use Rattle.p21_stream_survey.specs.Wrong.{ListsWrong, PassesWrong};

use crate::listing::Listing;
use crate::noting::Noted;
use p21_stream_log::{Log, Passage, log_laws};
use p21_stream_statements::{At, Fault};
use p21_values::{Name, NoMemory};
use std::alloc::Global;

/// An instance that is refused: its name, why, and how many bytes stand in front of it.
#[derive(Clone, Copy)]
pub(crate) struct Wrong {
    pub name: Name,
    pub fault: Fault,
    pub begins: u64,
}

/// Passes over an instance that has ended and is refused, with a signpost in a string of it, by its bytes, and lists it where the reading
/// goes on.
///
/// # Errors
///
/// `NoMemory`.
pub(crate) fn pass_wrong(
    log: &mut Log,
    listing: &mut Listing,
    alloc: Global,
    wrong: Wrong,
    bytes: &[u8],
    noted: Noted<'_>,
) -> Result<Passage, NoMemory>
    ensures passes { IfOk result (λ passage. PassesWrong log.old listing.old wrong.name wrong.fault wrong.begins bytes.now passage log.new
        listing.new) }
    ensures begins { IfOk result (λ passage. GoesOnAt log.old passage log.new) }
{
    log_laws();
    match log.pass(alloc, bytes, &[]) {
        Ok(Passage::GoesOn(count)) => list_wrong(listing, wrong, count, bytes.len(), noted),
        Ok(Passage::AtFileMark) => Ok(Passage::AtFileMark),
        Ok(Passage::TooLong) => Ok(Passage::TooLong),
        Ok(Passage::Sought(seeker)) => Ok(Passage::Sought(seeker)),
        Err(NoMemory) => Err(NoMemory),
    }
}

/// Lists an instance that is passed over by so many of as many bytes.
fn list_wrong(
    listing: &mut Listing,
    wrong: Wrong,
    count: usize,
    size: usize,
    noted: Noted<'_>,
) -> Result<Passage, NoMemory>
    ensures { IfOk result (λ passage. ListsWrong listing.old wrong.name wrong.fault wrong.begins count size passage listing.new) }
{
    match listing.pass(wrong.name) {
        Ok(()) => {}
        Err(NoMemory) => return Err(NoMemory),
    }
    let at = At::Instance(wrong.name);
    match listing.pass_over(wrong.fault, at, wrong.begins, count.min(size), noted) {
        Ok(()) => Ok(Passage::GoesOn(count)),
        Err(NoMemory) => Err(NoMemory),
    }
}
