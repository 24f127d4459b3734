//! What is done with a statement that has ended and is judged: it is taken, or left out.
ghost use Rattle.std.specs.Prelude.{IfOk, IsTrue, OnOk};
ghost use Rattle.p21_stream_log.specs.Log.{Closes};
ghost use Rattle.p21_stream_statements.specs.Source.{IsOfStatement};
ghost use Rattle.p21_stream_survey.specs.Following.{LeavesOut, TakesRight};
ghost use Rattle.p21_stream_survey.specs.Sifted.{sieved};

use crate::listing::Listing;
use crate::noting::Noted;
use p21_stream_log::Log;
use p21_stream_sieve::Sieve;
use p21_stream_statements::{At, Fault};
use p21_values::{Name, NoMemory};

/// Takes a statement that is right and kept.
///
/// # Errors
///
/// `NoMemory`.
pub(crate) fn take_right(log: &mut Log, listing: &mut Listing) -> Result<(), NoMemory>
    ensures takes { OnOk result (TakesRight log.old listing.old log.new listing.new) }
    ensures closes { Closes log.old log.new }
{
    log.take();
    listing.count()
}

/// Leaves out an instance that is refused, and says whether it did: where a signpost stands in a string of it nothing changes.
///
/// # Errors
///
/// `NoMemory`.
pub(crate) fn leave_out(
    log: &mut Log,
    sieve: &mut Sieve,
    listing: &mut Listing,
    name: Name,
    fault: Fault,
    noted: Noted<'_>,
) -> Result<bool, NoMemory>
    requires { IsOfStatement fault }
    ensures leaves { IfOk result (λ left. LeavesOut log.old (sieved sieve.old) listing.old name fault left log.new (sieved sieve.new)
        listing.new) }
    ensures closes { IfOk result (λ left. IsTrue left → Closes log.old log.new) }
{
    let begins = match log.leave_out() {
        Some(begins) => begins,
        None => return Ok(false),
    };
    let Ok(()) = sieve.list_or_end(name, fault) else {
        return Err(NoMemory);
    };
    match listing.list(fault, At::Instance(name), begins, noted) {
        Ok(()) => Ok(true),
        Err(NoMemory) => Err(NoMemory),
    }
}
