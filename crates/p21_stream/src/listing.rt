//! The refusals that one reading finds of a file.
//!
//! A survey goes on behind refusals of records, of names and of references, and behind a statement of a data section that is broken
//! (p21_stream_survey). A wrong header or schema name makes every record wrong, and behind a statement that nothing ends nobody knows what
//! the next one is: so these, and what no landmark comes behind, are the last of the list, and of references nothing is said then, since
//! their targets may stand in what wasn't read.
ghost use Rattle.std.specs.Prelude.{◌≡◌, ◌≤◌, ◌<◌, ◌+◌, ◌-◌, ◌^◌, ◌⊎◌, ◌++◌, ℕ, List, [], Option, length, map, option_map, slice_get, IfOk, OnErr, OnOk};
ghost use Rattle.p21_stream_io.specs.Watch.{one_call_more};
ghost use Rattle.p21_stream_survey.specs.Course.{AsksTheSame};
ghost use Rattle.p21_stream.specs.Feeding.{TakesAtMost};
ghost use Rattle.p21_stream.specs.ReaderInput.{ConsumesAtMost};
ghost use Rattle.p21_stream.specs.Survey.{EndsByRead, ListsAtMost, SurveysInput, asked_for, refusal_of};
ghost use Rattle.p21_stream.specs.SurveyFeeding.{HandsOn, HasTakenPiece, IsMovedTo, IsSurveyedFrom, IsSurveyedTo, StandsBehind, SurveysMore, TakesPiece, failures_behind, failures_by};

use crate::located::Located;
use crate::read::PIECE;
use p21_mapping_values::Need;
use p21_schema::Schema;
use p21_spec_survey::list_laws;
use p21_stream_io::{Watched, read_piece};
use p21_stream_output::Accepted;
use p21_stream_sieve::{PassedOver, Spots};
use p21_stream_statements::Refusal;
use p21_stream_survey::{Extent, Found, Listed, Survey};
use p21_values::{Limits, NoMemory};
use std::alloc::Global;
use std::io::Read;

/// What a survey finds of a file.
#[derive(Debug, Drop)]
pub enum Surveyed {
    /// Nothing is refused.
    Accepted(Accepted),
    /// Something is refused.
    Refused(Refusals),
}

/// What is refused of a file.
#[derive(Debug, Drop)]
pub struct Refusals {
    /// The refusals, one or more: those of statements in the order of the file, the one that ended the reading as the last of them, and
    /// then those of references in the same order.
    pub list: Vec<Refusal>,
    /// For each refusal of a statement how many bytes of the file stand in front of this statement: so it is as long as there are such.
    pub begins: Vec<u64>,
    /// How much of the file they are about.
    pub extent: Extent,
}

/// What a survey finds of a file, and where each refusal of its list stands.
#[derive(Drop)]
pub struct LocatedSurvey {
    pub found: Surveyed,
    spots: Spots,
}

impl LocatedSurvey {
    ghost use Rattle.std.specs.Prelude.{◌≡◌, option_map};
    ghost use Rattle.p21_stream.specs.Listed.{refusal_at};

    /// The refusal of this number in the list, counted from 0, and where it stands. None where nothing is refused, or the list ends
    /// in front of it. It takes no memory.
    pub fn located(&self, number: usize) -> Option<Located>
        ensures { option_map (λ located. located.refusal) result ≡ refusal_at self.now.found number }
    {
        let Surveyed::Refused(refusals) = &self.found else {
            return None;
        };
        located_in(refusals, &self.spots, number)
    }

    /// What is wanted at the reference that the refusal of this number is of. None where it is of no reference. It takes no memory.
    pub fn need(&self, number: usize) -> Option<Need> {
        self.spots.need(number)
    }

    /// The statement of this number, counted from 0, of those that are passed over. None behind the last one. It takes no memory.
    pub fn passed_over(&self, number: usize) -> Option<PassedOver> {
        self.spots.passed_over(number)
    }
}

/// The refusal of this number in a list, and where it stands, by the places of the list.
pub(crate) fn located_in(refusals: &Refusals, spots: &Spots, number: usize) -> Option<Located>
    ensures { option_map (λ located. located.refusal) result ≡ slice_get refusals.now.list.items number }
{
    let refusal = *refusals.list.get(number)?;
    Some(Located {
        refusal,
        place: spots.place(number),
        attribute: spots.attribute(number),
        indices: spots.indices(number),
        expected: spots.expected(number),
    })
}

/// Reads a file to its end, and lists what is refused of it, up to so many refusals; one is listed where none is asked for. An instance
/// that is refused is left out, and a statement of a data section that is broken is passed over; the reading goes on behind both. Of
/// references of an instance that is refused nothing is said, nor of references to its name; and where a statement is passed over no
/// reference is said to have no target. Every other refusal ends the reading, and is the last one; of references nothing is said then.
///
/// # Errors
///
/// `NoMemory`.
pub fn survey<R: Read>(
    alloc: Global,
    schema: &Schema,
    limits: Limits,
    most: u64,
    reader: &mut Watched<R>,
) -> Result<Surveyed, NoMemory>
    ensures surveys { IfOk result (λ found. SurveysInput schema.now limits (R.remaining reader.old.inner) (R.remaining reader.new.inner)
        found) }
    ensures counted { IfOk result (ListsAtMost (asked_for most)) }
    ensures consumed { ConsumesAtMost limits (R.remaining reader.old.inner) (R.remaining reader.new.inner) }

    ensures moved { reader.new.moved ≤ reader.old.moved + (limits.file_source + 1) }
    ensures failed { IfOk result (λ found. (reader.new.failures ≡ reader.old.failures)
        ⊎ ((reader.new.failures ≡ one_call_more reader.old.failures) × EndsByRead found)) }
    ensures ends_by_read { IfOk result (λ found. EndsByRead found → reader.new.failures ≡ one_call_more reader.old.failures) }
    ensures failed_once { OnErr result ((reader.new.failures ≡ reader.old.failures)
        ⊎ (reader.new.failures ≡ one_call_more reader.old.failures)) }
{
    match survey_noting(alloc, schema, limits, most, false, reader) {
        Ok(LocatedSurvey { found, .. }) => Ok(found),
        Err(NoMemory) => Err(NoMemory),
    }
}

/// As `survey`, with where each refusal of the list stands.
///
/// # Errors
///
/// `NoMemory`.
pub fn survey_located<R: Read>(
    alloc: Global,
    schema: &Schema,
    limits: Limits,
    most: u64,
    reader: &mut Watched<R>,
) -> Result<LocatedSurvey, NoMemory>
    ensures surveys { IfOk result (λ located. SurveysInput schema.now limits (R.remaining reader.old.inner) (R.remaining reader.new.inner)
        located.found) }
    ensures counted { IfOk result (λ located. ListsAtMost (asked_for most) located.found) }
    ensures consumed { ConsumesAtMost limits (R.remaining reader.old.inner) (R.remaining reader.new.inner) }

    ensures moved { reader.new.moved ≤ reader.old.moved + (limits.file_source + 1) }
    ensures failed { IfOk result (λ located. (reader.new.failures ≡ reader.old.failures)
        ⊎ ((reader.new.failures ≡ one_call_more reader.old.failures) × EndsByRead located.found)) }
    ensures ends_by_read { IfOk result (λ located. EndsByRead located.found → reader.new.failures ≡ one_call_more reader.old.failures) }
    ensures failed_once { OnErr result ((reader.new.failures ≡ reader.old.failures)
        ⊎ (reader.new.failures ≡ one_call_more reader.old.failures)) }
{
    survey_noting(alloc, schema, limits, most, true, reader)
}

/// Surveys what a reader has, and notes where the refusals stand if that is asked for.
fn survey_noting<R: Read>(
    alloc: Global,
    schema: &Schema,
    limits: Limits,
    most: u64,
    are_places_asked: bool,
    reader: &mut Watched<R>,
) -> Result<LocatedSurvey, NoMemory>
    ensures surveys { IfOk result (λ located. SurveysInput schema.now limits (R.remaining reader.old.inner) (R.remaining reader.new.inner)
        located.found) }
    ensures counted { IfOk result (λ located. ListsAtMost (asked_for most) located.found) }
    ensures consumed { ConsumesAtMost limits (R.remaining reader.old.inner) (R.remaining reader.new.inner) }

    ensures moved { reader.new.moved ≤ reader.old.moved + (limits.file_source + 1) }
    ensures failed { IfOk result (λ located. (reader.new.failures ≡ reader.old.failures)
        ⊎ ((reader.new.failures ≡ one_call_more reader.old.failures) × EndsByRead located.found)) }
    ensures ends_by_read { IfOk result (λ located. EndsByRead located.found → reader.new.failures ≡ one_call_more reader.old.failures) }
    ensures failed_once { OnErr result ((reader.new.failures ≡ reader.old.failures)
        ⊎ (reader.new.failures ≡ one_call_more reader.old.failures)) }
{
    schema.well_formed();
    list_laws();
    let mut survey = Survey::new(alloc, schema, limits, most, are_places_asked);
    let has_failed = match feed_all(&mut survey, limits, reader) {
        Ok(has_failed) => has_failed,
        Err(NoMemory) => return Err(NoMemory),
    };
    let found = match survey.finish(has_failed) {
        Ok(found) => found,
        Err(NoMemory) => return Err(NoMemory),
    };
    hand_on(alloc, found)
}

/// Has a survey that is new read what a reader has, until its list has ended or more was read than a file may have; says whether a read
/// failed.
pub(crate) fn feed_all<R: Read>(
    survey: &mut Survey<'_>,
    limits: Limits,
    reader: &mut Watched<R>,
) -> Result<bool, NoMemory>
    requires new { StandsBehind survey.old [] }
    ensures surveyed { IfOk result (IsSurveyedTo limits (R.remaining reader.old.inner) (R.remaining reader.new.inner) survey.new) }
    ensures same { OnOk result (AsksTheSame survey.old survey.new) }
    ensures counted { limits.file_source < 2 ^ 64 }
    ensures consumed { ConsumesAtMost limits (R.remaining reader.old.inner) (R.remaining reader.new.inner) }

    ensures moved { reader.new.moved ≤ reader.old.moved + (limits.file_source + 1) }
    ensures failures { IfOk result (λ has_failed. reader.new.failures ≡ failures_behind reader.old.failures has_failed) }
    ensures unread { OnErr result (reader.new.failures ≡ reader.old.failures) }
{
    let mut piece = [0; PIECE];
    let mut taken: u64 = 0;
    loop {
        if survey.has_ended() {
            return Ok(false);
        }
        let given = match feed_piece(survey, limits, reader, &mut piece, taken) {
            Ok(given) => given,
            Err(NoMemory) => return Err(NoMemory),
        };
        let Some(next) = given else {
            return Ok(true);
        };
        if next == taken {
            return Ok(false);
        }
        if next > limits.file_source() {
            return Ok(false);
        }
        taken = next;
    }
}

/// Has a survey that has read so many bytes read what a reader gives at once, and says how many it has read then: no more at the end alone.
/// None where the read failed. No file has as many bytes as 64 bits don't count, so that want of memory is said of one that had.
fn feed_piece<R: Read>(
    survey: &mut Survey<'_>,
    limits: Limits,
    reader: &mut Watched<R>,
    piece: &mut [u8],
    taken: u64,
) -> Result<Option<u64>, NoMemory>
    requires room { 0 < length piece.old }
    requires within { taken ≤ limits.file_source }
    requires stands { (start : Option (List ℕ)) × IsSurveyedFrom start (R.remaining reader.old.inner) survey.old taken }
    ensures more { IfOk result (SurveysMore (R.remaining reader.old.inner) (R.remaining reader.new.inner) survey.old survey.new taken) }
    ensures same { OnOk result (AsksTheSame survey.old survey.new) }
    ensures consumed { TakesAtMost ((limits.file_source - taken) + 1) (R.remaining reader.old.inner) (R.remaining reader.new.inner) }

    ensures moved { IfOk result (IsMovedTo reader.old.moved reader.new.moved taken) }
    ensures moved_once { reader.new.moved ≤ reader.old.moved + 1 }
    ensures failures { IfOk result (λ given. reader.new.failures ≡ failures_by reader.old.failures given) }
    ensures unread { OnErr result (reader.new.failures ≡ reader.old.failures) }
{
    let left = limits.file_source() - taken;
    let count = match read_piece(reader, piece, left) {
        Ok(count) => count,
        Err(_) => return Ok(None),
    };
    let Some(next) = taken.checked_add(count as u64) else {
        return Err(NoMemory);
    };
    match take_piece(survey, &piece[..count], next) {
        Ok(()) => Ok(Some(next)),
        Err(NoMemory) => Err(NoMemory),
    }
}

/// Has a survey read a piece, behind which it has read so many bytes. It stands by itself since the prover knows of a parameter, and of no
/// part of one, that it holds bytes.
fn take_piece(survey: &mut Survey<'_>, piece: &[u8], next: u64) -> Result<(), NoMemory>
    requires { TakesPiece survey.old piece.now next }
    ensures taken { OnOk result (HasTakenPiece survey.old piece.now survey.new) }
    ensures same { OnOk result (AsksTheSame survey.old survey.new) }
{
    match survey.feed(piece) {
        Ok(()) => Ok(()),
        Err(NoMemory) => Err(NoMemory),
    }
}

/// What is handed on of what was found.
fn hand_on(alloc: Global, found: Found) -> Result<LocatedSurvey, NoMemory>
    ensures { IfOk result (λ located. HandsOn found located.found) }
{
    let Found {
        list,
        references,
        extent,
        accepted,
        well_formed: _,
        spots,
    } = found;
    if let Some(accepted) = accepted {
        return Ok(LocatedSurvey {
            found: Surveyed::Accepted(accepted),
            spots,
        });
    }
    match refusals_of(alloc, &list, &references, extent) {
        Ok(refusals) => Ok(LocatedSurvey {
            found: Surveyed::Refused(refusals),
            spots,
        }),
        Err(NoMemory) => Err(NoMemory),
    }
}

/// The refusals of statements, and behind them those of references.
pub(crate) fn refusals_of(
    alloc: Global,
    list: &[Listed],
    references: &[Refusal],
    extent: Extent,
) -> Result<Refusals, NoMemory>
    ensures list { IfOk result (λ refusals. refusals.list.items ≡ map refusal_of list.now ++ references.now) }
    ensures begins { IfOk result (λ refusals. refusals.begins.items ≡ map (λ (refusal : Listed). refusal.begins) list.now) }
    ensures extent { IfOk result (λ refusals. refusals.extent ≡ extent) }
{
    let mut all = match without_begins(alloc, list) {
        Ok(all) => all,
        Err(NoMemory) => return Err(NoMemory),
    };
    let Ok(()) = all.extend_from_slice(references) else {
        return Err(NoMemory);
    };
    match begins_of(alloc, list) {
        Ok(begins) => Ok(Refusals {
            list: all,
            begins,
            extent,
        }),
        Err(NoMemory) => Err(NoMemory),
    }
}

/// The refusals of statements, without where these begin.
fn without_begins(alloc: Global, list: &[Listed]) -> Result<Vec<Refusal>, NoMemory>
    ensures { IfOk result (λ refusals. refusals.items ≡ map refusal_of list.now) }
{
    let mut refusals = Vec::new(alloc);
    for listed in list {
        let listed: &Listed = listed;
        refusals.push(Refusal {
            fault: listed.fault,
            at: listed.at,
        })?;
    }
    Ok(refusals)
}

/// Where the statements begin that are refused.
fn begins_of(alloc: Global, list: &[Listed]) -> Result<Vec<u64>, NoMemory>
    ensures { IfOk result (λ begins. begins.items ≡ map (λ (refusal : Listed). refusal.begins) list.now) }
{
    let mut begins = Vec::new(alloc);
    for listed in list {
        let listed: &Listed = listed;
        begins.push(listed.begins)?;
    }
    Ok(begins)
}
