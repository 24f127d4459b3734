//! What is written of a file by itself, with where each of its refusals stands.
ghost use Rattle.p21_commands.specs.Checks.{IsOfCheck};
ghost use Rattle.p21_commands.specs.Streams.{stream_of};
ghost use Rattle.p21_commands.specs.Tells.{TellsAlone, TellsWellFormed};

use crate::answer::answer;
use crate::fault::{CommandFault, report};
use crate::listing::Listing;
use crate::located::tell_refused;
use crate::syntax::{Details, told_text};
use crate::telling::Telling;
use p21_stream::{LocatedAlone, SurveyedAlone, Watched};
use p21_stream_syntax::WellFormed;
use p21_values::NoMemory;
use std::alloc::Global;
use std::io::Write;

/// Writes what is told of a file that is well formed; or a line for each refusal, and one that counts them where `is_counted`.
pub(crate) fn write_survey_alone<W: Write, F: Write>(
    alloc: Global,
    found: &LocatedAlone,
    details: Details,
    telling: &Telling<'_>,
    is_counted: bool,
    output: &mut Watched<W>,
    faults: &mut Watched<F>,
) -> u8
    ensures status { IsOfCheck result }
    ensures tells { TellsAlone details telling.now.form is_counted found.now.found (stream_of W.contents output.old output.new)
        (stream_of F.contents faults.old faults.new) result }
{
    match &found.found {
        SurveyedAlone::WellFormed(well_formed) => {
            write_told(alloc, well_formed, details, output, faults)
        }
        SurveyedAlone::Refused(refusals) => {
            let listing = Listing::ByItself(found);
            tell_refused(alloc, listing, refusals, telling, is_counted, faults)
        }
    }
}

/// Writes what is told of a file that is well formed.
fn write_told<W: Write, F: Write>(
    alloc: Global,
    found: &WellFormed,
    details: Details,
    output: &mut Watched<W>,
    faults: &mut Watched<F>,
) -> u8
    ensures status { IsOfCheck result }
    ensures tells { TellsWellFormed details found.now (stream_of W.contents output.old output.new)
        (stream_of F.contents faults.old faults.new) result }
{
    match told_text(alloc, found, details) {
        Ok(text) => answer(&text, output, faults),
        Err(NoMemory) => report(&CommandFault::NoMemory, faults),
    }
}
