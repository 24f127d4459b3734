//! What differs in two files that are read, by pairs of their instances.
ghost use Rattle.std.specs.Prelude.{◌≡◌, ◌⊎◌, IfErr, IfOk, OnOk};
ghost use Rattle.p21_difference_rows.specs.Asked.{left_out_of};
ghost use Rattle.p21_paired_differences.specs.ByPairs.{FailsToPair, IsFaultOfPairs, ListsOfRead};
ghost use Rattle.p21_stream.specs.ReaderInput.{ConsumesAtMost};
ghost use Rattle.p21_stream_numbered.specs.Compared.{HasCanonical};
ghost use Rattle.p21_stream.specs.Answers.{first_failures, second_failures};

use crate::by_pairs::{PairRows, list_by_pairs};
use p21_difference_rows::{DifferenceList, LeftOut, RowForm};
use p21_numbered_file::{Unpaired, text_of};
use p21_schema::Schema;
use p21_stream::{Accepted, At, Fault, Refusal, Watched, Which, accept, headline};
use p21_values::Limits;
use std::alloc::Global;
use std::io::Read;

/// What differs from one file to another one, whose instances are paired by what they say and what is around them, whatever their names
/// are; or that it isn't decided. What is to be left out isn't listed. The first file is read to its end before the second.
///
/// # Errors
///
/// The file, with its refusal as `accept` answers it; `CanonicalTooLong` of the first, where it is too long under the names of its
/// partners.
pub fn paired_differences<A: Read, B: Read>(
    alloc: Global,
    schema: &Schema,
    limits: Limits,
    form: RowForm,
    left_out: LeftOut<'_>,
    pairs: PairRows,
    first: &mut Watched<A>,
    second: &mut Watched<B>,
) -> Result<DifferenceList, (Which, Refusal)>
    ensures ok { IfOk result (λ found. ListsOfRead form (left_out_of left_out.entry) pairs schema.now limits (A.remaining first.old.inner)
        (A.remaining first.new.inner) (B.remaining second.old.inner) (B.remaining second.new.inner) found.is_same found.is_empty
        found.text.items) }
    ensures err { IfErr result (λ answer. FailsToPair schema.now limits (A.remaining first.old.inner) (A.remaining first.new.inner)
        (B.remaining second.old.inner) (B.remaining second.new.inner) answer.0 answer.1.fault) }
    ensures order { (second.new ≡ second.old) ⊎ HasCanonical schema.now limits (A.remaining first.old.inner) (A.remaining first.new.inner) }
    ensures consumed_first { ConsumesAtMost limits (A.remaining first.old.inner) (A.remaining first.new.inner) }
    ensures consumed_second { ConsumesAtMost limits (B.remaining second.old.inner) (B.remaining second.new.inner) }

    ensures read { OnOk result ((first.new.failures ≡ first.old.failures) × (second.new.failures ≡ second.old.failures)) }
    ensures failed_first { IfErr result (λ answer. first.new.failures ≡ first_failures first.old.failures answer.0 answer.1.fault) }
    ensures failed_second { IfErr result (λ answer. second.new.failures ≡ second_failures second.old.failures answer.0 answer.1.fault) }
{
    headline(schema, limits);
    let before = match accept(alloc, schema, limits, first) {
        Ok(accepted) => accepted,
        Err(refusal) => return Err((Which::First, refusal)),
    };
    let after = match accept(alloc, schema, limits, second) {
        Ok(accepted) => accepted,
        Err(refusal) => return Err((Which::Second, refusal)),
    };
    match list_by_pairs(
        alloc, schema, limits, form, left_out, pairs, &before, &after,
    ) {
        Ok(found) => Ok(found),
        Err(fault) => Err(refused(alloc, fault, &before)),
    }
}

/// The refusal where there is no list: of the first file, or of the second where memory was wanted, since both were read.
fn refused(alloc: Global, fault: Unpaired, first: &Accepted) -> (Which, Refusal)
    ensures { IsFaultOfPairs fault result.0 result.1.fault }
{
    match fault {
        Unpaired::TooLong => {
            let statement = statement_behind(alloc, first);
            (Which::First, refusal_of(Fault::CanonicalTooLong, statement))
        }
        Unpaired::NoMemory => (Which::Second, refusal_of(Fault::NoMemory, 0)),
    }
}

/// A refusal at a statement.
fn refusal_of(fault: Fault, statement: u64) -> Refusal
    ensures { result.fault ≡ fault }
{
    Refusal {
        fault,
        at: At::Statement(statement),
    }
}

/// The number of the statement behind the last one of a file, as its canonical text has them, a line each; 0 where memory doesn't hold
/// that text.
fn statement_behind(alloc: Global, file: &Accepted) -> u64 {
    let Ok(text) = text_of(alloc, file) else {
        return 0;
    };
    let mut statement: u64 = 1;
    for byte in &text {
        if *byte == b'\n' {
            statement = statement.saturating_add(1);
        }
    }
    statement
}
