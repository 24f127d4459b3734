//! Files in memory.
ghost use Rattle.std.specs.Prelude.{◌≡◌, Some};
ghost use Rattle.p21_c.specs.Answers.{ChecksFile, Compares, HoldsMade, MakesCanonical, TellsAnswer, told_answer};
ghost use Rattle.p21_c.specs.Contents.{schema_in, boxed_content};

use crate::accepting::{accept_text, claim_under};
use crate::answers::{Answer, FILE, Report, SECOND, accepted, done, misused, no_memory, refused};
use crate::components::Handle;
use crate::contents::Holding;
use crate::lent::Lent;
use crate::places::{Place, Placed, nowhere, place_of};
use crate::texts::{file_of, text_of};
use p21_schema::Schema;
use std::alloc::Global;

/// Whether a file is accepted under a schema. It isn't copied.
#[unsafe(no_mangle)]
pub extern "C" fn p21_check(alloc: Global, schema: &Lent, file: &[u8], report: &mut Report) -> u8
    ensures { ChecksFile (schema_in schema.now.value) file.now (record { status = result; report = report.new }) }
{
    let Placed { answer, place: _ } = check(alloc, schema, file);
    *report = answer.report;
    answer.status
}

/// As `p21_check`, with where a refusal stands.
#[unsafe(no_mangle)]
pub extern "C" fn p21_check_located(
    alloc: Global,
    schema: &Lent,
    file: &[u8],
    report: &mut Report,
    place: &mut Place,
) -> u8
    ensures { ChecksFile (schema_in schema.now.value) file.now (record { status = result; report = report.new }) }
{
    let Placed {
        answer,
        place: found,
    } = check(alloc, schema, file);
    *report = answer.report;
    *place = found;
    answer.status
}

/// Hands out the canonical file of a file. The file isn't copied.
#[unsafe(no_mangle)]
pub extern "C" fn p21_canonical(
    alloc: Global,
    schema: &Lent,
    file: &[u8],
    text: &mut Handle,
    report: &mut Report,
) -> u8
    ensures { HoldsMade (MakesCanonical (schema_in schema.now.value) file.now (record { status = result; report = report.new }))
        text.old.value text.new.value }
{
    let (made, placed) = canonical(alloc, schema, file);
    let Placed { answer, place: _ } = placed;
    text.hand(alloc, made);
    *report = answer.report;
    answer.status
}

/// As `p21_canonical`, with where a refusal stands.
#[unsafe(no_mangle)]
pub extern "C" fn p21_canonical_located(
    alloc: Global,
    schema: &Lent,
    file: &[u8],
    text: &mut Handle,
    report: &mut Report,
    place: &mut Place,
) -> u8
    ensures { HoldsMade (MakesCanonical (schema_in schema.now.value) file.now (record { status = result; report = report.new }))
        text.old.value text.new.value }
{
    let (file, placed) = canonical(alloc, schema, file);
    let Placed {
        answer,
        place: found,
    } = placed;
    text.hand(alloc, file);
    *report = answer.report;
    *place = found;
    answer.status
}

/// Whether two files mean the same: 1 or 0. They aren't copied.
#[unsafe(no_mangle)]
pub extern "C" fn p21_same(
    alloc: Global,
    schema: &Lent,
    first: &[u8],
    second: &[u8],
    same: &mut u8,
    report: &mut Report,
) -> u8
    ensures { TellsAnswer (Compares (schema_in schema.now.value) first.now second.now (record { status = result; report = report.new }))
        same.old same.new }
{
    let (told_answer, placed) = compare(alloc, schema, first, second);
    let Placed { answer, place: _ } = placed;
    tell(told_answer, same);
    *report = answer.report;
    answer.status
}

/// As `p21_same`, with where a refusal stands in its file.
#[unsafe(no_mangle)]
pub extern "C" fn p21_same_located(
    alloc: Global,
    schema: &Lent,
    first: &[u8],
    second: &[u8],
    same: &mut u8,
    report: &mut Report,
    place: &mut Place,
) -> u8
    ensures { TellsAnswer (Compares (schema_in schema.now.value) first.now second.now (record { status = result; report = report.new }))
        same.old same.new }
{
    let (told_answer, placed) = compare(alloc, schema, first, second);
    let Placed {
        answer,
        place: found,
    } = placed;
    tell(told_answer, same);
    *report = answer.report;
    *place = found;
    answer.status
}

/// Whether a file is accepted under the schema that is held.
fn check(alloc: Global, schema: &Lent, file: &[u8]) -> Placed
    ensures { ChecksFile (schema_in schema.now.value) file.now result.answer }
{
    let Some(schema) = schema.schema() else {
        return Placed {
            answer: misused(),
            place: nowhere(),
        };
    };
    match accept_text(alloc, schema, file) {
        Ok(output) => Placed {
            answer: accepted(&output),
            place: nowhere(),
        },
        Err(located) => {
            let place = place_of(&located);
            let answer = refused(FILE, located.refusal);
            Placed { answer, place }
        }
    }
}

/// The canonical file of a file.
fn canonical(alloc: Global, schema: &Lent, file: &[u8]) -> (Holding, Placed)
    ensures { MakesCanonical (schema_in schema.now.value) file.now result.1.answer (boxed_content result.0) }
{
    let Some(schema) = schema.schema() else {
        let placed = Placed {
            answer: misused(),
            place: nowhere(),
        };
        return (None, placed);
    };
    let output = match accept_text(alloc, schema, file) {
        Ok(output) => output,
        Err(located) => {
            let place = place_of(&located);
            let answer = refused(FILE, located.refusal);
            return (None, Placed { answer, place });
        }
    };
    match file_of(alloc, &output) {
        Some(text) => {
            let answer = accepted(&output);
            let place = nowhere();
            (Some(text), Placed { answer, place })
        }
        None => {
            let answer = no_memory();
            let place = nowhere();
            (None, Placed { answer, place })
        }
    }
}

/// Whether two files mean the same under the schema that is held.
fn compare(alloc: Global, schema: &Lent, first: &[u8], second: &[u8]) -> (Option<bool>, Placed)
    ensures { Compares (schema_in schema.now.value) first.now second.now result.1.answer result.0 }
{
    let Some(schema) = schema.schema() else {
        let placed = Placed {
            answer: misused(),
            place: nowhere(),
        };
        return (None, placed);
    };
    compare_under(alloc, schema, first, second)
}

/// Whether two files mean the same under a schema.
fn compare_under(
    alloc: Global,
    schema: &Schema,
    first: &[u8],
    second: &[u8],
) -> (Option<bool>, Placed)
    ensures { Compares (Some schema.now) first.now second.now result.1.answer result.0 }
{
    claim_under(schema);
    let accepted = match accept_text(alloc, schema, first) {
        Ok(accepted) => accepted,
        Err(located) => {
            let place = place_of(&located);
            let answer = refused(FILE, located.refusal);
            return (None, Placed { answer, place });
        }
    };
    let Some(text) = text_of(alloc, &accepted) else {
        let placed = Placed {
            answer: no_memory(),
            place: nowhere(),
        };
        return (None, placed);
    };
    match accept_text(alloc, schema, second) {
        Ok(accepted) => {
            let same = accepted.is_text(&text);
            let placed = Placed {
                answer: done(),
                place: nowhere(),
            };
            (Some(same), placed)
        }
        Err(located) => {
            let place = place_of(&located);
            let answer = refused(SECOND, located.refusal);
            (None, Placed { answer, place })
        }
    }
}

/// Tells an answer, if there is one.
pub(crate) fn tell(answer: Option<bool>, place: &mut u8)
    ensures { place.new ≡ told_answer answer place.old }
{
    match answer {
        Some(true) => *place = 1,
        Some(false) => *place = 0,
        None => {}
    }
}
