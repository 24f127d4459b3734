//! The numbered file of what a reader gives.
ghost use Rattle.std.specs.Prelude.{◌≡◌, ◌≤◌, ◌+◌, IfErr, IfOk, OnOk};
ghost use Rattle.p21_spec_numbering.specs.Claim.{NumberingClaim};
ghost use Rattle.p21_spec_numbering.specs.Laws.{ranking_of};
ghost use Rattle.p21_spec_schema.specs.WellFormed.{IsWellFormed};
ghost use Rattle.p21_stream.specs.Answers.{IsCanonicalOfRead};
ghost use Rattle.p21_stream.specs.ReaderInput.{ConsumesAtMost, RefusesRead, read_failures};
ghost use Rattle.p21_stream_output.specs.Output.{output_text};
ghost use Rattle.p21_stream_statements.specs.declared.fault.Fault.TheVariants as fault;
ghost use Rattle.p21_stream_numbered.specs.Numbered.{IsNumberedInput, IsRefusalOf, RefusesNumbers, numbering_failures};

use crate::refusal::NumberingRefusal;
use p21_numbered_file::{Unnumbered, numbered_text, text_of};
use p21_stream::{Accepted, At, Fault, Limits, Refusal, Schema, Watched, accept, headline};
use std::alloc::Global;
use std::io::Read;

/// The numbered file of what a reader gives: its canonical file with the numbers that its model gives to its instances for names. No
/// more than one byte past the limit of a file is read.
///
/// # Errors
///
/// Those of `accept`; `CanonicalTooLong` for the numbered file, which can be longer than the canonical one; `Alike`, with two names that
/// the model doesn't tell apart, where it isn't decided.
pub fn numbered<R: Read>(
    alloc: Global,
    schema: &Schema,
    limits: Limits,
    reader: &mut Watched<R>,
) -> Result<Accepted, NumberingRefusal>
    ensures ok { IfOk result (λ file. IsNumberedInput schema.now limits (R.remaining reader.old.inner) (R.remaining reader.new.inner) file) }
    ensures err { IfErr result (λ refusal. RefusesNumbers schema.now limits (R.remaining reader.old.inner) (R.remaining reader.new.inner)
        refusal) }
    ensures consumed { ConsumesAtMost limits (R.remaining reader.old.inner) (R.remaining reader.new.inner) }
    ensures claim { NumberingClaim schema.now limits (ranking_of schema.now) }

    ensures moved { reader.new.moved ≤ reader.old.moved + (limits.file_source + 1) }
    ensures read { OnOk result (reader.new.failures ≡ reader.old.failures) }
    ensures failed { IfErr result (λ refusal. reader.new.failures ≡ numbering_failures reader.old.failures refusal) }
{
    numbering_headline(schema, limits);
    let text = match canonical_text(alloc, schema, limits, reader) {
        Ok(text) => text,
        Err(refusal) => return Err(NumberingRefusal::Refused(refusal)),
    };
    let statement = statement_behind(&text);
    match numbered_text(alloc, schema, limits, &text, statement) {
        Ok(file) => Ok(file),
        Err(fault) => Err(refused(fault, statement)),
    }
}

/// The canonical text of what a reader gives.
///
/// # Errors
///
/// Those of `accept`.
pub(crate) fn canonical_text<R: Read>(
    alloc: Global,
    schema: &Schema,
    limits: Limits,
    reader: &mut Watched<R>,
) -> Result<Vec<u8>, Refusal>
    ensures ok { IfOk result (λ text. IsCanonicalOfRead schema.now limits (R.remaining reader.old.inner) (R.remaining reader.new.inner)
        text.items) }
    ensures err { IfErr result (λ refusal. RefusesRead schema.now limits (R.remaining reader.old.inner) (R.remaining reader.new.inner)
        refusal.fault) }
    ensures consumed { ConsumesAtMost limits (R.remaining reader.old.inner) (R.remaining reader.new.inner) }

    ensures moved { reader.new.moved ≤ reader.old.moved + (limits.file_source + 1) }
    ensures read { OnOk result (reader.new.failures ≡ reader.old.failures) }
    ensures failed { IfErr result (λ refusal. reader.new.failures ≡ read_failures reader.old.failures refusal.fault) }
{
    headline(schema, limits);
    match accept(alloc, schema, limits, reader) {
        Ok(accepted) => whole_text(alloc, accepted),
        Err(refusal) => Err(refusal),
    }
}

/// The text of an accepted file, which is let go.
///
/// # Errors
///
/// `NoMemory`.
pub(crate) fn whole_text(alloc: Global, accepted: Accepted) -> Result<Vec<u8>, Refusal>
    ensures ok { IfOk result (λ text. text.items ≡ output_text accepted) }
    ensures err { IfErr result (λ refusal. refusal.fault ≡ fault.NoMemory) }
{
    match text_of(alloc, &accepted) {
        Ok(text) => Ok(text),
        Err(_) => Err(refusal_of(Fault::NoMemory, accepted.count())),
    }
}

/// The refusal of a file that has no numbered file, by the number of the statement behind its last one.
pub(crate) fn refused(fault: Unnumbered, statement: u64) -> NumberingRefusal
    ensures { IsRefusalOf fault result }
{
    match fault {
        Unnumbered::Alike(one, other) => NumberingRefusal::Alike(one, other),
        Unnumbered::TooLong => {
            NumberingRefusal::Refused(refusal_of(Fault::CanonicalTooLong, statement))
        }
        Unnumbered::NoMemory => NumberingRefusal::Refused(refusal_of(Fault::NoMemory, statement)),
    }
}

/// A refusal at a statement.
fn refusal_of(fault: Fault, statement: u64) -> Refusal
    ensures { result.fault ≡ fault }
{
    Refusal {
        fault,
        at: At::Statement(statement),
    }
}

/// The number of the statement behind the last one of a canonical text, counted from 1: each of them has a line.
pub(crate) fn statement_behind(text: &[u8]) -> u64 {
    let mut statement: u64 = 1;
    for byte in text {
        if *byte == b'\n' {
            statement = statement.saturating_add(1);
        }
    }
    statement
}

/// The claim of numbered files, of every schema that was read and of all limits. It does nothing.
pub(crate) fn numbering_headline(schema: &Schema, limits: Limits)
    ensures claim { NumberingClaim schema.now limits (ranking_of schema.now) }
    ensures formed { IsWellFormed schema.now }
{
    headline(schema, limits);
}
