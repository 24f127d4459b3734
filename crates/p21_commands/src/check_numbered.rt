//! The command `check --names`.
ghost use Rattle.p21_spec_basics.specs.Limits.{usual};
ghost use Rattle.p21_commands.specs.Checks.{EndsCheckingApart, IsOfCheck};
ghost use Rattle.p21_commands.specs.Command.{EndsUnder};
ghost use Rattle.p21_commands.specs.Numbered.{IsCheckedApart, IsUnnumberedUnder};
ghost use Rattle.p21_commands.specs.Streams.{stream_of};
ghost use Rattle.p21_commands.specs.Transfer as text;
ghost use Rattle.p21_stream.specs.ReaderInput.{ConsumesAtMost};

use crate::answer::answer;
use crate::check::answer_line_of;
use crate::fault::{CommandFault, report};
use crate::load::load_schema;
use crate::located::{push_count, write_accepted};
use crate::numbered::fault_of_names;
use crate::telling::{Form, Telling, push_front, push_numbering};
use p21_schema::Schema;
use p21_stream::{Extent, Watched};
use p21_stream_numbered::{NumberingRefusal, count_numbered};
use p21_values::Limits;
use std::alloc::{AllocError, Global};
use std::io::{Read, Write};

/// Reads a schema and a file, and writes to `output` what `check_command` does where the file has a numbered file; or to `faults` one line
/// that says why there is none. Answers the exit status.
pub fn check_numbered_command<S: Read, R: Read, W: Write, F: Write>(
    alloc: Global,
    schema: &mut Watched<S>,
    file: &mut Watched<R>,
    output: &mut Watched<W>,
    faults: &mut Watched<F>,
) -> u8
    ensures consumed_schema { text.ConsumesAtMost (S.remaining schema.old.inner) (S.remaining schema.new.inner) }
    ensures consumed_file { ConsumesAtMost usual (R.remaining file.old.inner) (R.remaining file.new.inner) }
    ensures ends { EndsUnder IsCheckedApart IsUnnumberedUnder (record {
      schema = stream_of S.remaining schema.old schema.new;
      file = stream_of R.remaining file.old file.new;
      output = stream_of W.contents output.old output.new;
      faults = stream_of F.contents faults.old faults.new;
    }) result }
{
    match load_schema(alloc, schema) {
        Ok(schema) => check_file_numbered(alloc, &schema, file, output, faults),
        Err(fault) => report(&fault, faults),
    }
}

/// Reads a file of a schema, and writes its line where it has a numbered file, or the line that says why it has none. Answers the exit
/// status.
pub(crate) fn check_file_numbered<R: Read, W: Write, F: Write>(
    alloc: Global,
    schema: &Schema,
    file: &mut Watched<R>,
    output: &mut Watched<W>,
    faults: &mut Watched<F>,
) -> u8
    ensures status { IsOfCheck result }
    ensures consumed { ConsumesAtMost usual (R.remaining file.old.inner) (R.remaining file.new.inner) }
    ensures ends { EndsCheckingApart schema.now (stream_of R.remaining file.old file.new)
        (stream_of W.contents output.old output.new) (stream_of F.contents faults.old faults.new) result }
{
    let counted = match count_numbered(alloc, schema, Limits::usual(), file) {
        Ok(counted) => counted,
        Err(refusal) => return report(&fault_of_names(alloc, "", refusal), faults),
    };
    match answer_line_of(alloc, counted.instances, counted.bytes) {
        Ok(line) => answer(line.as_bytes(), output, faults),
        Err(AllocError) => report(&CommandFault::NoMemory, faults),
    }
}

/// As `check_file_numbered`, with why there is no numbered file in the form in which refusals are told, and behind it how many these are
/// where `is_counted`.
pub(crate) fn tell_file_numbered<R: Read, W: Write, F: Write>(
    alloc: Global,
    schema: &Schema,
    file: &mut Watched<R>,
    telling: &Telling<'_>,
    is_counted: bool,
    output: &mut Watched<W>,
    faults: &mut Watched<F>,
) -> u8
    ensures { IsOfCheck result }
{
    match count_numbered(alloc, schema, Limits::usual(), file) {
        Ok(counted) => write_accepted(alloc, counted.instances, counted.bytes, output, faults),
        Err(refusal) => report(&told_fault(alloc, &refusal, telling, is_counted), faults),
    }
}

/// What is told of a file that has no numbered file.
fn told_fault(
    alloc: Global,
    refusal: &NumberingRefusal,
    telling: &Telling<'_>,
    is_counted: bool,
) -> CommandFault {
    let line = match fault_of_names(alloc, "", *refusal) {
        CommandFault::Refused(line) => line,
        CommandFault::NoMemory => return CommandFault::NoMemory,
        CommandFault::Read => return CommandFault::Read,
        CommandFault::Write => return CommandFault::Write,
    };
    match told_lines(alloc, &line, refusal, telling, is_counted) {
        Ok(lines) => CommandFault::Refused(lines),
        Err(AllocError) => CommandFault::NoMemory,
    }
}

/// The line of a refusal in the form in which refusals are told, and behind it how many these are where `is_counted`.
fn told_lines(
    alloc: Global,
    line: &str,
    refusal: &NumberingRefusal,
    telling: &Telling<'_>,
    is_counted: bool,
) -> Result<String, AllocError> {
    let mut lines = String::new(alloc);
    match telling.form {
        Form::Text => {
            push_front(telling, &mut lines)?;
            lines.push_str(line)?;
        }
        Form::Json => push_numbering(alloc, refusal, telling, &mut lines)?,
    }
    if is_counted {
        push_count(alloc, 1, Extent::Whole, telling, &mut lines)?;
    }
    Ok(lines)
}
