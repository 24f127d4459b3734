//! The command `canon`.
ghost use Rattle.std.specs.Prelude.{IfErr, OnOk, [], ◌∷◌};
ghost use Rattle.p21_spec_basics.specs.Limits.{usual};
ghost use Rattle.p21_commands.specs.Command.{EndsUnder, FailsBy};
ghost use Rattle.p21_commands.specs.Failures.{FailedBy, NoneFailed, failures_of};
ghost use Rattle.p21_commands.specs.Streams.{stream_of};
ghost use Rattle.p21_commands.specs.Transfer as text;
ghost use Rattle.p21_commands.specs.Transfer.{Writes};
ghost use Rattle.p21_commands.specs.Canon.{IsCanonicalUnder};
ghost use Rattle.p21_commands.specs.Files.{IsRefusedUnder};
ghost use Rattle.p21_stream.specs.ReaderInput.{ConsumesAtMost};

use crate::fault::{CommandFault, report};
use crate::file_fault::fault_of;
use crate::load::load_schema;
use crate::status::DONE;
use p21_stream::{Watched, rewrite};
use p21_values::Limits;
use std::alloc::Global;
use std::io::{Read, Write};

/// Reads a schema and a file, and writes the canonical file to `output`; or to `faults` one line that says why there is
/// none. Answers the exit status.
pub fn canon_command<S: Read, R: Read, W: Write, F: Write>(
    alloc: Global,
    schema: &mut Watched<S>,
    file: &mut Watched<R>,
    output: &mut Watched<W>,
    faults: &mut Watched<F>,
) -> u8
    ensures consumed_schema { text.ConsumesAtMost (S.remaining schema.old.inner) (S.remaining schema.new.inner) }
    ensures consumed_file { ConsumesAtMost usual (R.remaining file.old.inner) (R.remaining file.new.inner) }
    ensures ends { EndsUnder IsCanonicalUnder IsRefusedUnder (record {
      schema = stream_of S.remaining schema.old schema.new;
      file = stream_of R.remaining file.old file.new;
      output = stream_of W.contents output.old output.new;
      faults = stream_of F.contents faults.old faults.new;
    }) result }
{
    match write_canonical(alloc, schema, file, output) {
        Ok(()) => DONE,
        Err(fault) => report(&fault, faults),
    }
}

/// Writes the canonical file of a file.
fn write_canonical<S: Read, R: Read, W: Write>(
    alloc: Global,
    schema: &mut Watched<S>,
    file: &mut Watched<R>,
    output: &mut Watched<W>,
) -> Result<(), CommandFault>
    ensures ok { OnOk result (Writes (IsCanonicalUnder (S.remaining schema.old.inner) (R.remaining file.old.inner)
        (R.remaining file.new.inner)) (W.contents output.old.inner) (W.contents output.new.inner)) }
    ensures err { IfErr result (FailsBy (IsCanonicalUnder (S.remaining schema.old.inner) (R.remaining file.old.inner)
        (R.remaining file.new.inner)) (IsRefusedUnder (S.remaining schema.old.inner) (R.remaining file.old.inner)
        (R.remaining file.new.inner))
        (W.contents output.old.inner) (W.contents output.new.inner)) }
    ensures consumed_schema { text.ConsumesAtMost (S.remaining schema.old.inner) (S.remaining schema.new.inner) }
    ensures consumed_file { ConsumesAtMost usual (R.remaining file.old.inner) (R.remaining file.new.inner) }

    ensures unfailed { OnOk result (NoneFailed (failures_of schema.old schema.new ∷ failures_of file.old file.new ∷ failures_of output.old
        output.new ∷ [])) }
    ensures failed { IfErr result (FailedBy (failures_of schema.old schema.new ∷ failures_of file.old file.new ∷ [])
        (failures_of output.old output.new ∷ [])) }
{
    let schema = load_schema(alloc, schema)?;
    match rewrite(alloc, &schema, Limits::usual(), file, output) {
        Ok(_) => Ok(()),
        Err(refusal) => Err(fault_of(alloc, "", refusal)),
    }
}
