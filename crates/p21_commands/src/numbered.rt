//! The command `canon --names`: the canonical file with the numbers that the model itself gives its instances for names.
ghost use Rattle.std.specs.Prelude.{◌≡◌, IfErr, IfOk, OnOk, [], ◌∷◌, string_bytes};
ghost use Rattle.p21_spec_basics.specs.Limits.{usual};
ghost use Rattle.p21_commands.specs.Command.{EndsUnder, FailsBy};
ghost use Rattle.p21_commands.specs.Failures.{FailedBy, NoneFailed, failures_of};
ghost use Rattle.p21_commands.specs.Numbered.{IsFaultOfNames, IsNumberedUnder, IsUnnumberedUnder, alike_line};
ghost use Rattle.p21_commands.specs.Streams.{stream_of};
ghost use Rattle.p21_commands.specs.Transfer as text;
ghost use Rattle.p21_commands.specs.Transfer.{Writes};
ghost use Rattle.p21_stream.specs.ReaderInput.{ConsumesAtMost};

use crate::fault::{CommandFault, report};
use crate::file_fault::fault_of;
use crate::load::load_schema;
use crate::status::DONE;
use p21_stream::Watched;
use p21_stream_numbered::{NumberingRefusal, numbered};
use p21_values::{Limits, Name};
use std::alloc::{AllocError, Global};
use std::io::{Read, Write};

/// Reads a schema and a file, and writes the numbered file to `output`; or to `faults` one line that says why there is none. Answers the
/// exit status.
pub fn numbered_command<S: Read, R: Read, W: Write, F: Write>(
    alloc: Global,
    schema: &mut Watched<S>,
    file: &mut Watched<R>,
    output: &mut Watched<W>,
    faults: &mut Watched<F>,
) -> u8
    ensures consumed_schema { text.ConsumesAtMost (S.remaining schema.old.inner) (S.remaining schema.new.inner) }
    ensures consumed_file { ConsumesAtMost usual (R.remaining file.old.inner) (R.remaining file.new.inner) }
    ensures ends { EndsUnder IsNumberedUnder IsUnnumberedUnder (record {
      schema = stream_of S.remaining schema.old schema.new;
      file = stream_of R.remaining file.old file.new;
      output = stream_of W.contents output.old output.new;
      faults = stream_of F.contents faults.old faults.new;
    }) result }
{
    match write_numbered(alloc, schema, file, output) {
        Ok(()) => DONE,
        Err(fault) => report(&fault, faults),
    }
}

/// Writes the numbered file of a file.
fn write_numbered<S: Read, R: Read, W: Write>(
    alloc: Global,
    schema: &mut Watched<S>,
    file: &mut Watched<R>,
    output: &mut Watched<W>,
) -> Result<(), CommandFault>
    ensures ok { OnOk result (Writes (IsNumberedUnder (S.remaining schema.old.inner) (R.remaining file.old.inner)
        (R.remaining file.new.inner)) (W.contents output.old.inner) (W.contents output.new.inner)) }
    ensures err { IfErr result (FailsBy (IsNumberedUnder (S.remaining schema.old.inner) (R.remaining file.old.inner)
        (R.remaining file.new.inner)) (IsUnnumberedUnder (S.remaining schema.old.inner) (R.remaining file.old.inner)
        (R.remaining file.new.inner))
        (W.contents output.old.inner) (W.contents output.new.inner)) }
    ensures consumed_schema { text.ConsumesAtMost (S.remaining schema.old.inner) (S.remaining schema.new.inner) }
    ensures consumed_file { ConsumesAtMost usual (R.remaining file.old.inner) (R.remaining file.new.inner) }

    ensures unfailed { OnOk result (NoneFailed (failures_of schema.old schema.new ∷ failures_of file.old file.new ∷ failures_of output.old
        output.new ∷ [])) }
    ensures failed { IfErr result (FailedBy (failures_of schema.old schema.new ∷ failures_of file.old file.new ∷ [])
        (failures_of output.old output.new ∷ [])) }
{
    let schema = load_schema(alloc, schema)?;
    let numbered = match numbered(alloc, &schema, Limits::usual(), file) {
        Ok(numbered) => numbered,
        Err(refusal) => return Err(fault_of_names(alloc, "", refusal)),
    };
    match numbered.write_to(output) {
        Ok(()) => Ok(()),
        Err(_) => Err(CommandFault::Write),
    }
}

/// What a command answers to a refusal.
pub(crate) fn fault_of_names(alloc: Global, file: &str, refusal: NumberingRefusal) -> CommandFault
    ensures { IsFaultOfNames file.now refusal result }
{
    match refusal {
        NumberingRefusal::Refused(refusal) => fault_of(alloc, file, refusal),
        NumberingRefusal::Alike(one, _) => match alike_text(alloc, file, one) {
            Ok(line) => CommandFault::Refused(line),
            Err(AllocError) => CommandFault::NoMemory,
        },
    }
}

/// The line that names an instance which the model doesn't tell apart from another one, behind a word for the file.
fn alike_text(alloc: Global, file: &str, instance: Name) -> Result<String, AllocError>
    ensures { IfOk result (λ line. string_bytes line ≡ alike_line file.now instance) }
{
    let Name(name) = instance;
    format!(in alloc; "{file}refused 59 Alike in #{name}\n")
}
