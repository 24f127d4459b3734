//! The refusals that one reading finds of a file by itself, without a schema: by the same going on as `survey`. A record is refused for its
//! name alone, and a reference where no instance has its name.
ghost use Rattle.std.specs.Prelude.{◌≡◌, ◌≤◌, ◌+◌, ◌⊎◌, IfOk, OnErr};
ghost use Rattle.p21_stream_io.specs.Watch.{one_call_more};
ghost use Rattle.p21_stream.specs.Alone.{EndsByRead, HandsOn, ListsAtMost, SurveysAlone};
ghost use Rattle.p21_stream.specs.ReaderInput.{ConsumesAtMost};
ghost use Rattle.p21_stream.specs.Survey.{asked_for};

use crate::listing::{Refusals, feed_all, located_in, refusals_of};
use crate::located::Located;
use p21_spec_survey::list_laws;
use p21_stream_io::Watched;
use p21_stream_sieve::{PassedOver, Spots};
use p21_stream_survey::{Found, Survey};
use p21_stream_syntax::WellFormed;
use p21_values::{Limits, NoMemory};
use std::alloc::Global;
use std::io::Read;

/// What a survey finds of a file by itself.
#[derive(Debug, Drop)]
pub enum SurveyedAlone {
    /// Nothing is refused.
    WellFormed(WellFormed),
    /// Something is refused.
    Refused(Refusals),
}

/// What a survey finds of a file by itself, and where each refusal of its list stands.
#[derive(Drop)]
pub struct LocatedAlone {
    pub found: SurveyedAlone,
    spots: Spots,
}

impl LocatedAlone {
    ghost use Rattle.std.specs.Prelude.{◌≡◌, option_map};
    ghost use Rattle.p21_stream.specs.Alone.{refusal_at};

    /// The refusal of this number in the list, counted from 0, and where it stands; a reference has no place. None where the file is well formed,
    /// or the list ends in front of it. It takes no memory.
    pub fn located(&self, number: usize) -> Option<Located>
        ensures { option_map (λ located. located.refusal) result ≡ refusal_at self.now.found number }
    {
        let SurveyedAlone::Refused(refusals) = &self.found else {
            return None;
        };
        located_in(refusals, &self.spots, number)
    }

    /// The statement of this number, counted from 0, of those that are passed over. None behind the last one. It takes no memory.
    pub fn passed_over(&self, number: usize) -> Option<PassedOver> {
        self.spots.passed_over(number)
    }
}

/// Reads a file to its end by itself, without a schema, and lists what is refused of it, up to so many refusals; one is listed where none
/// is asked for. An instance that has the name of one before it is left out, and a statement of a data section that is broken is passed
/// over; the reading goes on behind both. Where a statement is passed over no reference is said to have no target. Every other refusal ends
/// the reading, and is the last one; of references nothing is said then.
///
/// # Errors
///
/// `NoMemory`.
pub fn survey_alone<R: Read>(
    alloc: Global,
    limits: Limits,
    most: u64,
    reader: &mut Watched<R>,
) -> Result<SurveyedAlone, NoMemory>
    ensures surveys { IfOk result (λ found. SurveysAlone limits (R.remaining reader.old.inner) (R.remaining reader.new.inner) found) }
    ensures counted { IfOk result (λ found. ListsAtMost (asked_for most) found) }
    ensures consumed { ConsumesAtMost limits (R.remaining reader.old.inner) (R.remaining reader.new.inner) }

    ensures moved { reader.new.moved ≤ reader.old.moved + (limits.file_source + 1) }
    ensures failed { IfOk result (λ found. (reader.new.failures ≡ reader.old.failures)
        ⊎ ((reader.new.failures ≡ one_call_more reader.old.failures) × EndsByRead found)) }
    ensures ends_by_read { IfOk result (λ found. EndsByRead found → reader.new.failures ≡ one_call_more reader.old.failures) }
    ensures failed_once { OnErr result ((reader.new.failures ≡ reader.old.failures)
        ⊎ (reader.new.failures ≡ one_call_more reader.old.failures)) }
{
    match survey_noting(alloc, limits, most, false, reader) {
        Ok(LocatedAlone { found, .. }) => Ok(found),
        Err(NoMemory) => Err(NoMemory),
    }
}

/// As `survey_alone`, with where each refusal of the list stands.
///
/// # Errors
///
/// `NoMemory`.
pub fn survey_alone_located<R: Read>(
    alloc: Global,
    limits: Limits,
    most: u64,
    reader: &mut Watched<R>,
) -> Result<LocatedAlone, NoMemory>
    ensures surveys { IfOk result (λ located. SurveysAlone limits (R.remaining reader.old.inner) (R.remaining reader.new.inner)
        located.found) }
    ensures counted { IfOk result (λ located. ListsAtMost (asked_for most) located.found) }
    ensures consumed { ConsumesAtMost limits (R.remaining reader.old.inner) (R.remaining reader.new.inner) }

    ensures moved { reader.new.moved ≤ reader.old.moved + (limits.file_source + 1) }
    ensures failed { IfOk result (λ located. (reader.new.failures ≡ reader.old.failures)
        ⊎ ((reader.new.failures ≡ one_call_more reader.old.failures) × EndsByRead located.found)) }
    ensures ends_by_read { IfOk result (λ located. EndsByRead located.found → reader.new.failures ≡ one_call_more reader.old.failures) }
    ensures failed_once { OnErr result ((reader.new.failures ≡ reader.old.failures)
        ⊎ (reader.new.failures ≡ one_call_more reader.old.failures)) }
{
    survey_noting(alloc, limits, most, true, reader)
}

/// Surveys what a reader has, and notes where the refusals stand if that is asked for.
fn survey_noting<R: Read>(
    alloc: Global,
    limits: Limits,
    most: u64,
    are_places_asked: bool,
    reader: &mut Watched<R>,
) -> Result<LocatedAlone, NoMemory>
    ensures surveys { IfOk result (λ located. SurveysAlone limits (R.remaining reader.old.inner) (R.remaining reader.new.inner)
        located.found) }
    ensures counted { IfOk result (λ located. ListsAtMost (asked_for most) located.found) }
    ensures consumed { ConsumesAtMost limits (R.remaining reader.old.inner) (R.remaining reader.new.inner) }

    ensures moved { reader.new.moved ≤ reader.old.moved + (limits.file_source + 1) }
    ensures failed { IfOk result (λ located. (reader.new.failures ≡ reader.old.failures)
        ⊎ ((reader.new.failures ≡ one_call_more reader.old.failures) × EndsByRead located.found)) }
    ensures ends_by_read { IfOk result (λ located. EndsByRead located.found → reader.new.failures ≡ one_call_more reader.old.failures) }
    ensures failed_once { OnErr result ((reader.new.failures ≡ reader.old.failures)
        ⊎ (reader.new.failures ≡ one_call_more reader.old.failures)) }
{
    list_laws();
    let mut survey = Survey::by_itself(alloc, limits, most, are_places_asked);
    let has_failed = match feed_all(&mut survey, limits, reader) {
        Ok(has_failed) => has_failed,
        Err(NoMemory) => return Err(NoMemory),
    };
    let found = match survey.finish(has_failed) {
        Ok(found) => found,
        Err(NoMemory) => return Err(NoMemory),
    };
    hand_on(alloc, found)
}

/// What is handed on of what was found.
fn hand_on(alloc: Global, found: Found) -> Result<LocatedAlone, NoMemory>
    ensures { IfOk result (λ located. HandsOn found located.found) }
{
    let Found {
        list,
        references,
        extent,
        accepted: _,
        well_formed,
        spots,
    } = found;
    if let Some(well_formed) = well_formed {
        return Ok(LocatedAlone {
            found: SurveyedAlone::WellFormed(well_formed),
            spots,
        });
    }
    match refusals_of(alloc, &list, &references, extent) {
        Ok(refusals) => Ok(LocatedAlone {
            found: SurveyedAlone::Refused(refusals),
            spots,
        }),
        Err(NoMemory) => Err(NoMemory),
    }
}
