//! The command `schema`.
ghost use Rattle.std.specs.Prelude.{◌≡◌, [], ◌∷◌, IfErr, IfOk, OnOk};
ghost use Rattle.p21_commands.specs.Command.{EndsOver, FailsBy};
ghost use Rattle.p21_commands.specs.Failures.{FailedBy, NoneFailed, failures_of};
ghost use Rattle.p21_commands.specs.Streams.{stream_of};
ghost use Rattle.p21_commands.specs.Transfer.{ConsumesAtMost, Writes};
ghost use Rattle.p21_commands.specs.Load.{DeclaresRead, IsSchemaRefused, RefusesRead};
ghost use Rattle.p21_commands.specs.OwnTexts.{AreOwnTexts};
ghost use Rattle.p21_commands.specs.Print.{IsPrinted};

use crate::fault::{CommandFault, report};
use crate::load::load_schema;
use crate::print::{own_texts, write_text};
use crate::status::DONE;
use p21_schema::Schema;
use p21_stream_io::Watched;
use std::alloc::Global;
use std::io::{Read, Write};

/// Writes to `output` the name of the schema whose text `reader` holds, and a line for each of its entities; or to `faults`
/// one line that says why there is none. Answers the exit status.
pub fn schema_command<S: Read, W: Write, F: Write>(
    alloc: Global,
    reader: &mut Watched<S>,
    output: &mut Watched<W>,
    faults: &mut Watched<F>,
) -> u8
    ensures consumed { ConsumesAtMost (S.remaining reader.old.inner) (S.remaining reader.new.inner) }
    ensures ends { EndsOver IsPrinted IsSchemaRefused (record {
      input = stream_of S.remaining reader.old reader.new;
      output = stream_of W.contents output.old output.new;
      faults = stream_of F.contents faults.old faults.new;
    }) result }
{
    match write_schema(alloc, reader, output) {
        Ok(()) => DONE,
        Err(fault) => report(&fault, faults),
    }
}

/// Writes the text of the schema that `reader` holds.
fn write_schema<S: Read, W: Write>(
    alloc: Global,
    reader: &mut Watched<S>,
    output: &mut Watched<W>,
) -> Result<(), CommandFault>
    ensures consumed { ConsumesAtMost (S.remaining reader.old.inner) (S.remaining reader.new.inner) }
    ensures ok { OnOk result
        (Writes (IsPrinted (S.remaining reader.old.inner)) (W.contents output.old.inner) (W.contents output.new.inner)) }
    ensures err { IfErr result (FailsBy (IsPrinted (S.remaining reader.old.inner)) (IsSchemaRefused (S.remaining reader.old.inner))
        (W.contents output.old.inner) (W.contents output.new.inner)) }

    ensures unfailed { OnOk result (NoneFailed (failures_of reader.old reader.new ∷ failures_of output.old output.new ∷ [])) }
    ensures failed { IfErr result (FailedBy (failures_of reader.old reader.new ∷ []) (failures_of output.old output.new ∷ [])) }
{
    let (schema, texts) = load_texts(alloc, reader)?;
    match write_text(output, &schema, &texts) {
        Ok(()) => Ok(()),
        Err(_) => Err(CommandFault::Write),
    }
}

/// The schema that `reader` holds, and the texts of its entities of which its lines are put together.
fn load_texts<S: Read>(
    alloc: Global,
    reader: &mut Watched<S>,
) -> Result<(Schema, Vec<Option<Vec<u8>>>), CommandFault>
    ensures consumed { ConsumesAtMost (S.remaining reader.old.inner) (S.remaining reader.new.inner) }
    ensures declares { IfOk result (λ found. DeclaresRead (S.remaining reader.old.inner) found.0) }
    ensures texts { IfOk result (λ found. AreOwnTexts found.0 found.1.items) }
    ensures err { IfErr result (RefusesRead (S.remaining reader.old.inner)) }

    ensures read { OnOk result (reader.new.failures ≡ reader.old.failures) }
    ensures failed { IfErr result (FailedBy (failures_of reader.old reader.new ∷ []) []) }
{
    let schema = load_schema(alloc, reader)?;
    match own_texts(alloc, &schema) {
        Ok(texts) => Ok((schema, texts)),
        Err(_no_memory) => Err(CommandFault::NoMemory),
    }
}
