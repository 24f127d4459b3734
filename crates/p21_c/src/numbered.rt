//! Files in memory under the numbers that their models give to their instances.
//!
//! A file is read and accepted as by the calls of `src/files`, and its canonical text is numbered by `p21_numbered_file`. What is
//! said of the canonical text is said of the file, since both mean the same (`proofs/Numbering`).
ghost use Rattle.std.specs.Prelude.{◌≡◌, ◌⊎◌, Some, IfErr, IfOk};
ghost use Rattle.p21_spec_basics.specs.Limits.{usual};
ghost use Rattle.p21_spec_numbering.specs.Claim.{NumberingClaim};
ghost use Rattle.p21_spec_numbering.specs.Laws.{ranking_of};
ghost use Rattle.p21_spec_schema.specs.WellFormed.{IsWellFormed};
ghost use Rattle.p21_stream.specs.Answers.{IsOnlyCanonicalFile};
ghost use Rattle.p21_c.specs.Answers.{HoldsMade, IsRefusedBy, TellsAnswer};
ghost use Rattle.p21_c.specs.Contents.{boxed_content, schema_in};
ghost use Rattle.p21_c.specs.Numbered.{ComparesNumbered, HoldsNumbered, MakesNumbered, unnumbered_answer};
ghost use Rattle.p21_c.specs.Reports.{no_memory_answer};

use crate::accepting::accept_text;
use crate::answers::{
    Answer, FILE, Report, SECOND, accepted, alike, done, misused, no_memory, refused,
};
use crate::components::Handle;
use crate::contents::Holding;
use crate::files::tell;
use crate::lent::Lent;
use crate::places::{Place, Placed, nowhere, place_of};
use crate::texts::{file_of, text_of};
use p21_numbered_file::{Unnumbered, are_same_but_for_names, numbered_text};
use p21_schema::Schema;
use p21_stream::headline;
use p21_stream_output::Accepted;
use p21_stream_statements::{At, Fault, Refusal};
use p21_values::{Limits, Name};
use std::alloc::Global;

/// Hands out the numbered file of a file: its canonical file with the numbers that its model gives to its instances for names. The
/// file isn't copied, but its canonical text is made.
#[unsafe(no_mangle)]
pub extern "C" fn p21_numbered(
    alloc: Global,
    schema: &Lent,
    file: &[u8],
    text: &mut Handle,
    report: &mut Report,
    place: &mut Place,
) -> u8
    ensures { HoldsMade (MakesNumbered (schema_in schema.now.value) file.now (record { status = result; report = report.new }))
        text.old.value text.new.value }
{
    let (made, placed) = numbered(alloc, schema, file);
    let Placed {
        answer,
        place: found,
    } = placed;
    text.hand(alloc, made);
    *report = answer.report;
    *place = found;
    answer.status
}

/// Whether two files mean the same but for the names of their instances: 1 or 0. They aren't copied, but their canonical texts are
/// made.
#[unsafe(no_mangle)]
pub extern "C" fn p21_same_but_for_names(
    alloc: Global,
    schema: &Lent,
    first: &[u8],
    second: &[u8],
    same: &mut u8,
    report: &mut Report,
    place: &mut Place,
) -> u8
    ensures { TellsAnswer (ComparesNumbered (schema_in schema.now.value) first.now second.now
        (record { status = result; report = report.new })) same.old same.new }
{
    let (told_answer, placed) = compare(alloc, schema, first, second);
    let Placed {
        answer,
        place: found,
    } = placed;
    tell(told_answer, same);
    *report = answer.report;
    *place = found;
    answer.status
}

/// The numbered file of a file under the schema that is held.
fn numbered(alloc: Global, schema: &Lent, file: &[u8]) -> (Holding, Placed)
    ensures { MakesNumbered (schema_in schema.now.value) file.now result.1.answer (boxed_content result.0) }
{
    let Some(schema) = schema.plain_schema() else {
        return (None, placeless(misused()));
    };
    numbered_under(alloc, schema, file)
}

/// The numbered file of a file under a schema.
fn numbered_under(alloc: Global, schema: &Schema, file: &[u8]) -> (Holding, Placed)
    ensures { MakesNumbered (Some schema.now) file.now result.1.answer (boxed_content result.0) }
{
    numbering_claim(schema);
    let text = match canonical_text(alloc, schema, file, FILE) {
        Ok(text) => text,
        Err(placed) => return (None, placed),
    };
    let statement = statement_behind(&text);
    match numbered_text(alloc, schema, Limits::usual(), &text, statement) {
        Ok(output) => held(alloc, &output),
        Err(fault) => (None, placeless(untold(fault, statement))),
    }
}

/// A numbered file, to be held.
fn held(alloc: Global, output: &Accepted) -> (Holding, Placed)
    ensures { HoldsNumbered output.now result.1.answer (boxed_content result.0) }
{
    match file_of(alloc, output) {
        Some(text) => (Some(text), placeless(accepted(output))),
        None => (None, placeless(no_memory())),
    }
}

/// Whether two files mean the same but for names under the schema that is held.
fn compare(alloc: Global, schema: &Lent, first: &[u8], second: &[u8]) -> (Option<bool>, Placed)
    ensures { ComparesNumbered (schema_in schema.now.value) first.now second.now result.1.answer result.0 }
{
    let Some(schema) = schema.plain_schema() else {
        return (None, placeless(misused()));
    };
    compare_under(alloc, schema, first, second)
}

/// Whether two files mean the same but for names under a schema.
fn compare_under(
    alloc: Global,
    schema: &Schema,
    first: &[u8],
    second: &[u8],
) -> (Option<bool>, Placed)
    ensures { ComparesNumbered (Some schema.now) first.now second.now result.1.answer result.0 }
{
    numbering_claim(schema);
    let one = match canonical_text(alloc, schema, first, FILE) {
        Ok(text) => text,
        Err(placed) => return (None, placed),
    };
    let other = match canonical_text(alloc, schema, second, SECOND) {
        Ok(text) => text,
        Err(placed) => return (None, placed),
    };
    match are_same_but_for_names(alloc, schema, Limits::usual(), &one, &other) {
        Ok(same) => (Some(same), placeless(done())),
        Err(fault) => (None, placeless(untold(fault, statement_behind(&one)))),
    }
}

/// The canonical text of a file.
///
/// # Errors
///
/// The answer of the refusal, with this subject; or that there was no memory.
fn canonical_text(
    alloc: Global,
    schema: &Schema,
    file: &[u8],
    subject: u8,
) -> Result<Vec<u8>, Placed>
    ensures ok { IfOk result (λ text. IsOnlyCanonicalFile schema.now usual file.now text.items) }
    ensures err { IfErr result (λ placed. IsRefusedBy subject schema.now file.now placed.answer ⊎ (placed.answer ≡ no_memory_answer)) }
{
    let accepted = match accept_text(alloc, schema, file) {
        Ok(accepted) => accepted,
        Err(located) => {
            let place = place_of(&located);
            let answer = refused(subject, located.refusal);
            return Err(Placed { answer, place });
        }
    };
    match text_of(alloc, &accepted) {
        Some(text) => Ok(text),
        None => Err(placeless(no_memory())),
    }
}

/// An answer that says nothing of a place.
fn placeless(answer: Answer) -> Placed
    ensures { result.answer ≡ answer }
{
    let place = nowhere();
    Placed { answer, place }
}

/// Why a file has no numbered file; of two, why neither has. This is the number of the statement behind the last one.
fn untold(fault: Unnumbered, statement: u64) -> Answer
    ensures { result ≡ unnumbered_answer fault statement }
{
    match fault {
        Unnumbered::Alike(Name(one), _) => alike(one),
        Unnumbered::TooLong => {
            let at = At::Statement(statement);
            let fault = Fault::CanonicalTooLong;
            refused(FILE, Refusal { fault, at })
        }
        Unnumbered::NoMemory => no_memory(),
    }
}

/// The number of the statement behind the last one of a canonical text, counted from 1: each of them has a line.
fn statement_behind(text: &[u8]) -> u64 {
    let mut statement: u64 = 1;
    for byte in text {
        if *byte == b'\n' {
            statement = statement.saturating_add(1);
        }
    }
    statement
}

/// The claim of numbered files under a schema and the usual limits. It does nothing.
fn numbering_claim(schema: &Schema)
    ensures claim { NumberingClaim schema.now usual (ranking_of schema.now) }
    ensures formed { IsWellFormed schema.now }
{
    let limits = Limits::usual();
    headline(schema, limits);
}
