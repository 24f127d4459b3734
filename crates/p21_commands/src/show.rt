//! The command `show`.
//!
//! The line of an entity in what is printed of a schema is put together from texts of its supertypes. Each entity that
//! declares places has one text for them, where no entity of the schema derives one: then the words are the names,
//! whatever the subtype. So an entity in a long chain costs a copy for each supertype, and no look-up for each place.
//!
//! No line of that text is kept. All that memory is asked for are those texts, one for each entity, before the first
//! byte is written; the lines go through the 64 KiB that wait for the writer. So a few attributes that thousands of
//! subtypes inherit cost what the schema costs, and not what is printed of it.
ghost use Rattle.std.specs.Prelude.{◌≡◌, IfErr, IfOk, List, OnOk, Option, [], ◌∷◌, string_bytes, ℕ};
ghost use Rattle.p21_spec_basics.specs.Limits.{usual};
ghost use Rattle.p21_commands.specs.Command.{EndsUnder};
ghost use Rattle.p21_commands.specs.Failures.{FailedBy, failures_of};
ghost use Rattle.p21_commands.specs.Load.{DeclaresRead};
ghost use Rattle.p21_commands.specs.Refusing.{RefusesWith};
ghost use Rattle.p21_commands.specs.Show.{IsNotShown, IsShown, IsStatementLine, RefusesMissing, missing_refusal_line};
ghost use Rattle.p21_commands.specs.Streams.{stream_of};
ghost use Rattle.p21_commands.specs.Transfer as text;
ghost use Rattle.p21_stream.specs.ReaderInput.{ConsumesAtMost};

use crate::answer::answer;
use crate::fault::{CommandFault, report};
use crate::file_fault::fault_of;
use crate::load::load_schema;
use p21_schema::Schema;
use p21_stream::{Accepted, Watched, accept};
use p21_values::{Limits, Name};
use std::alloc::{AllocError, Global};
use std::io::{Read, Write};

/// Reads a schema and a file, and writes the canonical statement of the instance of this name to `output`; or to `faults`
/// one line that says why there is none. Answers the exit status.
pub fn show_command<S: Read, R: Read, W: Write, F: Write>(
    alloc: Global,
    schema: &mut Watched<S>,
    file: &mut Watched<R>,
    name: Name,
    output: &mut Watched<W>,
    faults: &mut Watched<F>,
) -> u8
    ensures consumed_schema { text.ConsumesAtMost (S.remaining schema.old.inner) (S.remaining schema.new.inner) }
    ensures consumed_file { ConsumesAtMost usual (R.remaining file.old.inner) (R.remaining file.new.inner) }
    ensures ends { EndsUnder (IsShown name) (IsNotShown name) (record {
      schema = stream_of S.remaining schema.old schema.new;
      file = stream_of R.remaining file.old file.new;
      output = stream_of W.contents output.old output.new;
      faults = stream_of F.contents faults.old faults.new;
    }) result }
{
    let schema = match load_schema(alloc, schema) {
        Ok(schema) => schema,
        Err(fault) => return report(&fault, faults),
    };
    match shown_line(alloc, &schema, file, name) {
        Ok(line) => answer(&line, output, faults),
        Err(fault) => report(&fault, faults),
    }
}

/// The canonical statement of an instance of a file of a schema, and a line feed.
fn shown_line<R: Read>(
    alloc: Global,
    schema: &Schema,
    file: &mut Watched<R>,
    name: Name,
) -> Result<Vec<u8>, CommandFault>
    ensures ok { (reader : Option (List ℕ)) → DeclaresRead reader schema.now
        → IfOk result (λ line. IsShown name reader (R.remaining file.old.inner) (R.remaining file.new.inner) line.items) }
    ensures err { (reader : Option (List ℕ)) → DeclaresRead reader schema.now
        → IfErr result (RefusesWith (IsNotShown name reader (R.remaining file.old.inner) (R.remaining file.new.inner))) }
    ensures consumed { ConsumesAtMost usual (R.remaining file.old.inner) (R.remaining file.new.inner) }

    ensures read { OnOk result (file.new.failures ≡ file.old.failures) }
    ensures failed { IfErr result (FailedBy (failures_of file.old file.new ∷ []) []) }
{
    match accept(alloc, schema, Limits::usual(), file) {
        Ok(accepted) => statement_answer_line(alloc, &accepted, name),
        Err(refusal) => Err(fault_of(alloc, "", refusal)),
    }
}

/// The canonical statement of an instance, and a line feed.
fn statement_answer_line(
    alloc: Global,
    accepted: &Accepted,
    name: Name,
) -> Result<Vec<u8>, CommandFault>
    ensures ok { IfOk result (λ line. IsStatementLine accepted.now name line.items) }
    ensures err { IfErr result (RefusesMissing accepted.now name) }
{
    let Some(statement) = accepted.line(name) else {
        return Err(CommandFault::Refused(missing_text(alloc, name)?));
    };
    let mut line = Vec::new(alloc);
    line.extend_from_slice(statement)?;
    line.push(b'\n')?;
    Ok(line)
}

/// The line that says that there is no instance of a name.
fn missing_text(alloc: Global, name: Name) -> Result<String, AllocError>
    ensures { IfOk result (λ line. string_bytes line ≡ missing_refusal_line name) }
{
    let number = name.0;
    format!(in alloc; "no #{number}\n")
}
