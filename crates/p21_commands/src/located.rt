//! What is written of a file, with where each of its refusals stands.
ghost use Rattle.std.specs.Prelude.{◌≡◌, ◌⊎◌, ◌++◌, IfOk, List, OnOk, [], string_bytes, true, ℕ};
ghost use Rattle.p21_commands.specs.CheckAll.{count_line};
ghost use Rattle.p21_commands.specs.Checks.{IsOfCheck};
ghost use Rattle.p21_commands.specs.Refusals.{IsFaultOf};
ghost use Rattle.p21_commands.specs.Streams.{stream_of};
ghost use Rattle.p21_commands.specs.Tells.{IsToldBy, TellsAccepted, TellsFound, TellsSurvey, WritesRefused};
ghost use Rattle.p21_commands.specs.declared.fault.CommandFault.{CommandFault as MeantFault};
ghost use Rattle.p21_commands.specs.declared.telling.Form.TheVariants.{Text};

use crate::answer::answer;
use crate::check::answer_line_of;
use crate::check_all::{RefusedLines, count_of, count_text, write_refused};
use crate::fault::{CommandFault, report};
use crate::file_fault::fault_of;
use crate::listing::Listing;
use crate::telling::{Form, Telling, push_end, push_front, push_line, survey_lines};
use p21_schema::Schema;
use p21_stream::{Counted, Extent, Located, LocatedSurvey, Refusal, Refusals, Surveyed, Watched};
use std::alloc::{AllocError, Global};
use std::io::Write;

/// Writes the line of a file that is accepted, or that of its refusal.
pub(crate) fn write_found<W: Write, F: Write>(
    alloc: Global,
    schema: &Schema,
    found: Result<Counted, Located>,
    telling: &Telling<'_>,
    output: &mut Watched<W>,
    faults: &mut Watched<F>,
) -> u8
    ensures status { IsOfCheck result }
    ensures tells { TellsFound found (stream_of W.contents output.old output.new) (stream_of F.contents faults.old faults.new) result }
{
    match found {
        Ok(counted) => write_accepted(alloc, counted.instances, counted.bytes, output, faults),
        Err(located) => report(&fault_located(alloc, schema, &located, telling), faults),
    }
}

/// What is answered to a refusal: as `check` has it, but for the line of one that has a number.
fn fault_located(
    alloc: Global,
    schema: &Schema,
    located: &Located,
    telling: &Telling<'_>,
) -> CommandFault
    ensures { (fault : MeantFault) × IsFaultOf [] located.now.refusal fault × IsToldBy fault result }
{
    let refusal = Refusal {
        fault: located.refusal.fault,
        at: located.refusal.at,
    };
    match fault_of(alloc, "", refusal) {
        CommandFault::Refused(_) => own_line(alloc, schema, located, telling),
        CommandFault::NoMemory => CommandFault::NoMemory,
        CommandFault::Read => CommandFault::Read,
        CommandFault::Write => CommandFault::Write,
    }
}

/// The line of a refusal with its place, or want of memory for it.
fn own_line(
    alloc: Global,
    schema: &Schema,
    located: &Located,
    telling: &Telling<'_>,
) -> CommandFault
    ensures { ((line : _) × (result ≡ CommandFault.Refused line)) ⊎ (result ≡ CommandFault.NoMemory) }
{
    let mut line = String::new(alloc);
    match push_line(alloc, schema, located, telling, &mut line) {
        Ok(()) => CommandFault::Refused(line),
        Err(AllocError) => CommandFault::NoMemory,
    }
}

/// Writes the line of a file that is accepted, or a line for each refusal and one that counts them.
pub(crate) fn write_survey<W: Write, F: Write>(
    alloc: Global,
    schema: &Schema,
    found: &LocatedSurvey,
    telling: &Telling<'_>,
    output: &mut Watched<W>,
    faults: &mut Watched<F>,
) -> u8
    ensures status { IsOfCheck result }
    ensures tells { TellsSurvey telling.now.form found.now.found (stream_of W.contents output.old output.new)
        (stream_of F.contents faults.old faults.new) result }
{
    match &found.found {
        Surveyed::Accepted(accepted) => {
            write_accepted(alloc, accepted.count(), accepted.len(), output, faults)
        }
        Surveyed::Refused(refusals) => {
            let listing = Listing::OfSchema(schema, found);
            tell_refused(alloc, listing, refusals, telling, true, faults)
        }
    }
}

/// Writes a line for each refusal, and one that counts them where `is_counted`.
pub(crate) fn tell_refused<F: Write>(
    alloc: Global,
    listing: Listing<'_>,
    refusals: &Refusals,
    telling: &Telling<'_>,
    is_counted: bool,
    faults: &mut Watched<F>,
) -> u8
    ensures status { IsOfCheck result }
    ensures writes { WritesRefused telling.now.form is_counted refusals.now (stream_of F.contents faults.old faults.new) result }
{
    let (count, is_unread) = count_of(&refusals.list);
    match refused_lines(alloc, listing, count, refusals.extent, telling, is_counted) {
        Ok(lines) => write_refused(RefusedLines { lines, is_unread }, faults),
        Err(AllocError) => report(&CommandFault::NoMemory, faults),
    }
}

/// Writes the line of a file that is accepted.
pub(crate) fn write_accepted<W: Write, F: Write>(
    alloc: Global,
    instances: u64,
    bytes: u64,
    output: &mut Watched<W>,
    faults: &mut Watched<F>,
) -> u8
    ensures status { IsOfCheck result }
    ensures tells { TellsAccepted instances bytes (stream_of W.contents output.old output.new) (stream_of F.contents faults.old faults.new)
        result }
{
    match answer_line_of(alloc, instances, bytes) {
        Ok(line) => answer(line.as_bytes(), output, faults),
        Err(AllocError) => report(&CommandFault::NoMemory, faults),
    }
}

/// A line for each refusal, and one that counts them where `is_counted`.
fn refused_lines(
    alloc: Global,
    listing: Listing<'_>,
    count: u64,
    extent: Extent,
    telling: &Telling<'_>,
    is_counted: bool,
) -> Result<String, AllocError>
    ensures { telling.now.form ≡ Text → is_counted ≡ true
        → IfOk result (λ lines. (front : List ℕ) × (string_bytes lines ≡ front ++ count_line count extent)) }
{
    let mut lines = survey_lines(alloc, listing, telling)?;
    if !is_counted {
        return Ok(lines);
    }
    push_count(alloc, count, extent, telling, &mut lines)?;
    Ok(lines)
}

/// Appends the line that counts the refusals.
pub(crate) fn push_count(
    alloc: Global,
    count: u64,
    extent: Extent,
    telling: &Telling<'_>,
    lines: &mut String,
) -> Result<(), AllocError>
    ensures { telling.now.form ≡ Text → OnOk result ((front : List ℕ) × (string_bytes lines.new ≡ front ++ count_line count extent)) }
{
    match telling.form {
        Form::Text => {
            push_front(telling, lines)?;
            lines.push_str(&count_text(alloc, count, extent)?)
        }
        Form::Json => push_end(alloc, count, extent, telling, lines),
    }
}
