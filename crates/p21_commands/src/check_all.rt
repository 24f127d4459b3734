//! The command `check --all`.
//!
//! The list is written when all is known. Then out of memory is one line alone, and whoever reads the list knows by its
//! last line that it is whole.
//!
//! A read that fails has the status 3, as always, with the line `read fault` behind the refusals that were found
//! before. It isn't counted among these.
//!
//! `--most N` alone lists too: it means `--all`, up to N. N is 1 at least. The last line says that no more were looked
//! for, since whether there are more isn't known.
ghost use Rattle.std.specs.Prelude.{◌≡◌, ◌++◌, IfOk, List, OnErr, OnOk, Option, flat_map, string_bytes, ℕ};
ghost use Rattle.p21_spec_basics.specs.Limits.{usual};
ghost use Rattle.p21_commands.specs.CheckAll.{Answers, EndsListing, IsLeftBy, IsReadBy, Lists, WritesLines, count_line, has_read_fault};
ghost use Rattle.p21_commands.specs.CheckAll.{is_read, listed_count, listed_line};
ghost use Rattle.p21_commands.specs.Checks.{EndsListingOf, IsOfCheck};
ghost use Rattle.p21_commands.specs.Failures.{failures_of};
ghost use Rattle.p21_commands.specs.Load.{DeclaresRead};
ghost use Rattle.p21_commands.specs.Streams.{stream_of};
ghost use Rattle.p21_commands.specs.Transfer as text;
ghost use Rattle.p21_stream.specs.ReaderInput.{ConsumesAtMost};

use crate::answer::answer;
use crate::check::answer_line_of;
use crate::fault::{CommandFault, report};
use crate::file_fault::refusal_text;
use crate::load::load_schema;
use crate::status::FAILED;
use crate::transfer::write_whole;
use p21_schema::Schema;
use p21_stream::{Extent, Fault, Refusal, Refusals, Surveyed, Watched, survey};
use p21_values::{Limits, NoMemory};
use std::alloc::{AllocError, Global};
use std::io::{Read, Write};

/// What a survey of a file has to say.
#[derive(Drop)]
enum Answer {
    /// The line of a file that is accepted.
    Accepted(String),
    /// What is refused of one that isn't.
    Refused(RefusedLines),
}

/// A line for each refusal of a file, and the line that counts them.
#[derive(Drop)]
pub(crate) struct RefusedLines {
    pub lines: String,
    /// Whether a read failed.
    pub is_unread: bool,
}

/// Reads a schema and a file, and writes to `output` what `check_command` does where the file is accepted; or to `faults` a
/// line for each refusal that a survey lists, up to so many, and one that counts them. Answers the exit status.
pub fn check_all_command<S: Read, R: Read, W: Write, F: Write>(
    alloc: Global,
    schema: &mut Watched<S>,
    file: &mut Watched<R>,
    most: u64,
    output: &mut Watched<W>,
    faults: &mut Watched<F>,
) -> u8
    ensures consumed_schema { text.ConsumesAtMost (S.remaining schema.old.inner) (S.remaining schema.new.inner) }
    ensures consumed_file { ConsumesAtMost usual (R.remaining file.old.inner) (R.remaining file.new.inner) }
    ensures ends { EndsListing most (record {
      schema = stream_of S.remaining schema.old schema.new;
      file = stream_of R.remaining file.old file.new;
      output = stream_of W.contents output.old output.new;
      faults = stream_of F.contents faults.old faults.new;
    }) result }
{
    match load_schema(alloc, schema) {
        Ok(schema) => list_refusals(alloc, &schema, file, most, output, faults),
        Err(fault) => report(&fault, faults),
    }
}

/// Reads a file of a schema, and writes what a survey has to say of it.
pub(crate) fn list_refusals<R: Read, W: Write, F: Write>(
    alloc: Global,
    schema: &Schema,
    file: &mut Watched<R>,
    most: u64,
    output: &mut Watched<W>,
    faults: &mut Watched<F>,
) -> u8
    ensures status { IsOfCheck result }
    ensures consumed { ConsumesAtMost usual (R.remaining file.old.inner) (R.remaining file.new.inner) }
    ensures ends { EndsListingOf most schema.now (stream_of R.remaining file.old file.new)
        (stream_of W.contents output.old output.new) (stream_of F.contents faults.old faults.new) result }
{
    match find_answer(alloc, schema, file, most) {
        Ok(Answer::Accepted(line)) => answer(line.as_bytes(), output, faults),
        Ok(Answer::Refused(said)) => write_refused(said, faults),
        Err(NoMemory) => report(&CommandFault::NoMemory, faults),
    }
}

/// Reads a file of a schema, and gives what the survey has to say.
fn find_answer<R: Read>(
    alloc: Global,
    schema: &Schema,
    file: &mut Watched<R>,
    most: u64,
) -> Result<Answer, NoMemory>
    ensures ok { (reader : Option (List ℕ)) → DeclaresRead reader schema.now
        → IfOk result (Answers most reader (R.remaining file.old.inner) (R.remaining file.new.inner)) }
    ensures consumed { ConsumesAtMost usual (R.remaining file.old.inner) (R.remaining file.new.inner) }

    ensures read { IfOk result (IsReadBy (failures_of file.old file.new)) }
    ensures failed { OnErr result (IsLeftBy (failures_of file.old file.new)) }
{
    let found = match survey(alloc, schema, Limits::usual(), most, file) {
        Ok(found) => found,
        Err(NoMemory) => return Err(NoMemory),
    };
    match found {
        Surveyed::Accepted(accepted) => {
            let line = answer_line_of(alloc, accepted.count(), accepted.len())?;
            Ok(Answer::Accepted(line))
        }
        Surveyed::Refused(refusals) => {
            let said = lines_of(alloc, &refusals)?;
            Ok(Answer::Refused(said))
        }
    }
}

/// The lines of what is refused.
pub(crate) fn lines_of(alloc: Global, refusals: &Refusals) -> Result<RefusedLines, AllocError>
    ensures { IfOk result (Lists refusals.now) }
{
    let mut lines = refusal_lines(alloc, &refusals.list)?;
    let (count, is_unread) = count_of(&refusals.list);
    lines.push_str(&count_text(alloc, count, refusals.extent)?)?;
    Ok(RefusedLines { lines, is_unread })
}

/// Writes the lines of what is refused.
pub(crate) fn write_refused<F: Write>(said: RefusedLines, faults: &mut Watched<F>) -> u8
    ensures status { IsOfCheck result }
    ensures writes { WritesLines (string_bytes said.lines) said.is_unread (stream_of F.contents faults.old faults.new) result }
{
    let RefusedLines { lines, is_unread } = said;
    if is_unread {
        // The status is the same where the lines can't be written.
        let _ = write_whole(faults, lines.as_bytes());
        return FAILED;
    }
    report(&CommandFault::Refused(lines), faults)
}

/// A line for each refusal.
fn refusal_lines(alloc: Global, list: &[Refusal]) -> Result<String, AllocError>
    ensures { IfOk result (λ lines. string_bytes lines ≡ flat_map listed_line list.now) }
{
    let mut lines = String::new(alloc);
    for refusal in list {
        push_line(alloc, *refusal, &mut lines)?;
    }
    Ok(lines)
}

/// Appends the line of a refusal, or of a read that failed.
fn push_line(alloc: Global, refusal: Refusal, lines: &mut String) -> Result<(), AllocError>
    ensures { OnOk result (string_bytes lines.new ≡ string_bytes lines.old ++ listed_line refusal) }
{
    if is_read(refusal.fault) {
        lines.push_str("read fault\n")?;
        return Ok(());
    }
    lines.push_str(&refusal_text(alloc, "", refusal)?)?;
    Ok(())
}

/// How many refusals are listed, and whether a read failed, which isn't counted.
pub(crate) fn count_of(list: &[Refusal]) -> (u64, bool)
    ensures count { result.0 ≡ listed_count list.now }
    ensures unread { result.1 ≡ has_read_fault list.now }
{
    let mut count: u64 = 0;
    let mut unread = false;
    for refusal in list {
        if is_read(refusal.fault) {
            unread = true;
        } else {
            count += 1;
        }
    }
    (count, unread)
}

/// Whether the fault is that of a read that failed.
fn is_read(fault: Fault) -> bool
    ensures { result ≡ is_read fault }
{
    fault == Fault::Read
}

/// The line that counts the refusals.
pub(crate) fn count_text(alloc: Global, count: u64, extent: Extent) -> Result<String, AllocError>
    ensures { IfOk result (λ line. string_bytes line ≡ count_line count extent) }
{
    match extent {
        Extent::Whole => format!(in alloc; "refusals {count}\n"),
        Extent::ReadTo(bytes) => format!(in alloc; "refusals {count}, read {bytes} bytes\n"),
        Extent::Most => format!(in alloc; "refusals {count}, no more were looked for\n"),
    }
}
