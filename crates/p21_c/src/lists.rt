//! All refusals that one reading finds of a file.
ghost use Rattle.std.specs.Prelude.{◌≡◌, None, Some};
ghost use Rattle.p21_c.specs.Answers.{CountsList, HoldsMade, MakesList, ShowsRefusal, TellsBegins, TellsRead};
ghost use Rattle.p21_c.specs.Contents.{boxed_content, list_in, schema_in};
ghost use Rattle.p21_c.specs.Reports.{begins_at, counts_of, extent_of, listed_count, read_of};

use crate::answers::{
    Answer, DONE, FILE, MISUSED, REFUSED, Report, accepted, done, misused, no_memory, refused,
};
use crate::components::Handle;
use crate::contents::{Content, Holding, boxed};
use crate::lent::Lent;
use crate::places::{Place, place_of};
use p21_schema::Schema;
use p21_stream::{Extent, LocatedSurvey, Surveyed, survey_located};
use p21_stream_io::Watched;
use p21_values::Limits;
use std::alloc::Global;

/// Reads a file to its end, and hands out a list of what is refused of it, up to so many refusals. The report has the counts of a
/// file that is accepted.
#[unsafe(no_mangle)]
pub extern "C" fn p21_survey(
    alloc: Global,
    schema: &Lent,
    file: &[u8],
    most: u64,
    list: &mut Handle,
    report: &mut Report,
) -> u8
    ensures { HoldsMade (MakesList (schema_in schema.now.value) file.now most (record { status = result; report = report.new }))
        list.old.value list.new.value }
{
    let (made, answer) = survey(alloc, schema, file, most);
    list.hand(alloc, made);
    *report = answer.report;
    answer.status
}

/// How many refusals a list has, and how much of the file they are about.
#[unsafe(no_mangle)]
pub extern "C" fn p21_list_count(list: &Lent, count: &mut usize, extent: &mut u8) -> u8
    ensures { CountsList (list_in list.now.value) result count.old count.new extent.old extent.new }
{
    let Some(list) = list.list() else {
        return MISUSED;
    };
    *count = count_of(&list.found);
    *extent = extent_of(&list.found);
    DONE
}

/// How many bytes of the file stand in front of the statement whose refusal ended the reading.
#[unsafe(no_mangle)]
pub extern "C" fn p21_list_read(list: &Lent, bytes: &mut u64) -> u8
    ensures { TellsRead (list_in list.now.value) result bytes.old bytes.new }
{
    let Some(list) = list.list() else {
        return MISUSED;
    };
    let Some(read) = read_of(&list.found) else {
        return REFUSED;
    };
    *bytes = read;
    DONE
}

/// The refusal of this number in a list, counted from 0, and where it stands.
#[unsafe(no_mangle)]
pub extern "C" fn p21_list_refusal(
    list: &Lent,
    number: usize,
    report: &mut Report,
    place: &mut Place,
) -> u8
    ensures { ShowsRefusal (list_in list.now.value) number result report.old report.new }
{
    let Some(list) = list.list() else {
        return MISUSED;
    };
    let Some(located) = list.located(number) else {
        return REFUSED;
    };
    *place = place_of(&located);
    let answer = refused(FILE, located.refusal);
    *report = answer.report;
    DONE
}

/// How many bytes of the file stand in front of the statement of the refusal of this number in a list, counted from 0.
#[unsafe(no_mangle)]
pub extern "C" fn p21_list_begins(list: &Lent, number: usize, begins: &mut u64) -> u8
    ensures { TellsBegins (list_in list.now.value) number result begins.old begins.new }
{
    let Some(list) = list.list() else {
        return MISUSED;
    };
    let Some(found) = begins_at(&list.found, number) else {
        return REFUSED;
    };
    *begins = found;
    DONE
}

/// Lets go of a list.
#[unsafe(no_mangle)]
pub extern "C" fn p21_list_free(alloc: Global, list: &mut Handle)
    ensures { list.new.value ≡ None }
{
    list.put(alloc, None);
}

/// What is refused of a file under the schema that is held.
fn survey(alloc: Global, schema: &Lent, file: &[u8], most: u64) -> (Holding, Answer)
    ensures { MakesList (schema_in schema.now.value) file.now most result.1 (boxed_content result.0) }
{
    let Some(schema) = schema.plain_schema() else {
        return (None, misused());
    };
    survey_under(alloc, schema, file, most)
}

/// What is refused of a file under a schema.
fn survey_under(alloc: Global, schema: &Schema, file: &[u8], most: u64) -> (Holding, Answer)
    ensures { MakesList (Some schema.now) file.now most result.1 (boxed_content result.0) }
{
    let mut reader = Watched::new(file);
    let Ok(list) = survey_located(alloc, schema, Limits::usual(), most, &mut reader) else {
        return (None, no_memory());
    };
    let answer = answer_of(&list.found);
    match boxed(alloc, Content::List(list)) {
        Some(content) => (Some(content), answer),
        None => (None, no_memory()),
    }
}

/// The counts of a file that is accepted.
fn answer_of(found: &Surveyed) -> Answer
    ensures { result ≡ counts_of found.now }
{
    match found {
        Surveyed::Accepted(output) => accepted(output),
        Surveyed::Refused(_) => done(),
    }
}

/// How many refusals are listed.
fn count_of(found: &Surveyed) -> usize
    ensures { result ≡ listed_count found.now }
{
    match found {
        Surveyed::Accepted(_) => 0,
        Surveyed::Refused(refusals) => refusals.list.len(),
    }
}

/// The number of how much of the file the refusals are about.
fn extent_of(found: &Surveyed) -> u8
    ensures { result ≡ extent_of found.now }
{
    let Surveyed::Refused(refusals) = found else {
        return 1;
    };
    match refusals.extent {
        Extent::Whole => 1,
        Extent::ReadTo(_) => 2,
        Extent::Most => 3,
    }
}

/// How many bytes stand in front of the statement whose refusal ended the reading, where one did.
fn read_of(found: &Surveyed) -> Option<u64>
    ensures { result ≡ read_of found.now }
{
    let Surveyed::Refused(refusals) = found else {
        return None;
    };
    match refusals.extent {
        Extent::Whole => None,
        Extent::ReadTo(bytes) => Some(bytes),
        Extent::Most => None,
    }
}

/// How many bytes stand in front of the statement of the refusal of this number, where it is one of a statement.
fn begins_at(found: &Surveyed, number: usize) -> Option<u64>
    ensures { result ≡ begins_at found.now number }
{
    let Surveyed::Refused(refusals) = found else {
        return None;
    };
    match refusals.begins.get(number) {
        Some(begins) => Some(*begins),
        None => None,
    }
}
