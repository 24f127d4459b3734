//! The command `check`.
ghost use Rattle.std.specs.Prelude.{◌≡◌, IfOk, string_bytes};
ghost use Rattle.p21_spec_basics.specs.Limits.{usual};
ghost use Rattle.p21_commands.specs.Check.{IsChecked, check_answer_line};
ghost use Rattle.p21_commands.specs.Command.{EndsUnder};
ghost use Rattle.p21_commands.specs.Checks.{EndsChecking, IsOfCheck};
ghost use Rattle.p21_commands.specs.Files.{IsRefusedUnder};
ghost use Rattle.p21_commands.specs.Streams.{stream_of};
ghost use Rattle.p21_commands.specs.Transfer as text;
ghost use Rattle.p21_stream.specs.ReaderInput.{ConsumesAtMost};

use crate::answer::answer;
use crate::fault::{CommandFault, report};
use crate::file_fault::fault_of;
use crate::load::load_schema;
use p21_schema::Schema;
use p21_stream::{Fault, Located, Watched, count_located};
use p21_values::Limits;
use std::alloc::{AllocError, Global};
use std::io::{Read, Write};

/// How a check ends.
#[derive(Debug, Drop)]
pub struct Told {
    /// The exit status.
    pub status: u8,
    /// Why and where the file is refused, if it is. A reference has its place by a second reading of the file alone.
    pub located: Option<Located>,
}

/// Reads a schema and a file, and writes to `output` how many instances the file has and how many bytes its canonical
/// file; or to `faults` one line that says why it isn't accepted. Answers the exit status.
pub fn check_command<S: Read, R: Read, W: Write, F: Write>(
    alloc: Global,
    schema: &mut Watched<S>,
    file: &mut Watched<R>,
    output: &mut Watched<W>,
    faults: &mut Watched<F>,
) -> u8
    ensures consumed_schema { text.ConsumesAtMost (S.remaining schema.old.inner) (S.remaining schema.new.inner) }
    ensures consumed_file { ConsumesAtMost usual (R.remaining file.old.inner) (R.remaining file.new.inner) }
    ensures ends { EndsUnder IsChecked IsRefusedUnder (record {
      schema = stream_of S.remaining schema.old schema.new;
      file = stream_of R.remaining file.old file.new;
      output = stream_of W.contents output.old output.new;
      faults = stream_of F.contents faults.old faults.new;
    }) result }
{
    check_located(alloc, schema, file, output, faults).status
}

/// As `check_command`, with where the file is refused.
pub fn check_located<S: Read, R: Read, W: Write, F: Write>(
    alloc: Global,
    schema: &mut Watched<S>,
    file: &mut Watched<R>,
    output: &mut Watched<W>,
    faults: &mut Watched<F>,
) -> Told
    ensures consumed_schema { text.ConsumesAtMost (S.remaining schema.old.inner) (S.remaining schema.new.inner) }
    ensures consumed_file { ConsumesAtMost usual (R.remaining file.old.inner) (R.remaining file.new.inner) }
    ensures ends { EndsUnder IsChecked IsRefusedUnder (record {
      schema = stream_of S.remaining schema.old schema.new;
      file = stream_of R.remaining file.old file.new;
      output = stream_of W.contents output.old output.new;
      faults = stream_of F.contents faults.old faults.new;
    }) result.status }
{
    match load_schema(alloc, schema) {
        Ok(schema) => check_file_located(alloc, &schema, file, output, faults),
        Err(fault) => Told {
            status: report(&fault, faults),
            located: None,
        },
    }
}

/// Reads a file of a schema, and writes its line, or the one that says why it isn't accepted. Answers the exit status.
pub(crate) fn check_file<R: Read, W: Write, F: Write>(
    alloc: Global,
    schema: &Schema,
    file: &mut Watched<R>,
    output: &mut Watched<W>,
    faults: &mut Watched<F>,
) -> u8
    ensures status { IsOfCheck result }
    ensures consumed { ConsumesAtMost usual (R.remaining file.old.inner) (R.remaining file.new.inner) }
    ensures ends { EndsChecking schema.now (stream_of R.remaining file.old file.new)
        (stream_of W.contents output.old output.new) (stream_of F.contents faults.old faults.new) result }
{
    check_file_located(alloc, schema, file, output, faults).status
}

/// As `check_file`, with where the file is refused.
pub(crate) fn check_file_located<R: Read, W: Write, F: Write>(
    alloc: Global,
    schema: &Schema,
    file: &mut Watched<R>,
    output: &mut Watched<W>,
    faults: &mut Watched<F>,
) -> Told
    ensures status { IsOfCheck result.status }
    ensures consumed { ConsumesAtMost usual (R.remaining file.old.inner) (R.remaining file.new.inner) }
    ensures ends { EndsChecking schema.now (stream_of R.remaining file.old file.new)
        (stream_of W.contents output.old output.new) (stream_of F.contents faults.old faults.new) result.status }
{
    let counted = match count_located(alloc, schema, Limits::usual(), file) {
        Ok(counted) => counted,
        Err(located) => {
            return Told {
                status: report(&fault_of(alloc, "", located.refusal), faults),
                located: Some(located),
            };
        }
    };
    match answer_line_of(alloc, counted.instances, counted.bytes) {
        Ok(line) => Told {
            status: answer(line.as_bytes(), output, faults),
            located: None,
        },
        Err(AllocError) => Told {
            status: report(&CommandFault::NoMemory, faults),
            located: None,
        },
    }
}

/// Whether a fault is one of a reference.
pub fn is_of_reference(fault: Fault) -> bool {
    match fault {
        Fault::Dangling => true,
        Fault::WrongTarget => true,
        Fault::Token(_) => false,
        Fault::Grammar(_) => false,
        Fault::Check(_) => false,
        Fault::SchemaName => false,
        Fault::SectionTwice => false,
        Fault::DuplicateName => false,
        Fault::CanonicalTooLong => false,
        Fault::NoMemory => false,
        Fault::Read => false,
        Fault::Write => false,
    }
}

/// The line of a file that is accepted, by how many instances it has and how many bytes its canonical file.
pub(crate) fn answer_line_of(
    alloc: Global,
    instances: u64,
    bytes: u64,
) -> Result<String, AllocError>
    ensures { IfOk result (λ line. string_bytes line ≡ check_answer_line instances bytes) }
{
    format!(in alloc; "accepted, instances {instances}, canonical bytes {bytes}\n")
}
