//! What differs from one file of a schema to another one.
ghost use Rattle.std.specs.Prelude.{◌≡◌, IfErr, IfOk, List, OnOk, Option, ℕ};
ghost use Rattle.p21_spec_basics.specs.Limits.{usual};
ghost use Rattle.p21_commands.specs.Diff.{Lists};
ghost use Rattle.p21_commands.specs.Same.{read_of};
ghost use Rattle.p21_difference_rows.specs.Asked.{left_out_of};
ghost use Rattle.p21_stream.specs.Answers.{FailsToCompare, IfFirst, first_failures, second_failures};
ghost use Rattle.p21_stream.specs.ReaderInput.{ConsumesAtMost};

use p21_difference_rows::{DifferenceList, LeftOut, RowForm, list_differences};
use p21_differences::{TwoFiles, lines_law};
use p21_schema::Schema;
use p21_stream::{At, Fault, Refusal, Watched, Which, accept, headline};
use p21_values::Limits;
use std::alloc::Global;
use std::io::Read;

/// What differs from one file to another one and isn't left out. The first is read to its end before the second.
///
/// # Errors
///
/// The file, with its refusal as `accept` answers it.
pub(crate) fn differences<A: Read, B: Read>(
    alloc: Global,
    schema: &Schema,
    form: RowForm,
    left_out: LeftOut<'_>,
    first: &mut Watched<A>,
    second: &mut Watched<B>,
) -> Result<DifferenceList, (Which, Refusal)>
    ensures ok { (reader : Option (List ℕ)) → IfOk result (λ found. Lists form (left_out_of left_out.entry) schema.now
        (read_of reader (A.remaining first.old.inner) (A.remaining first.new.inner) (B.remaining second.old.inner)
        (B.remaining second.new.inner)) found.is_same found.is_empty found.text.items) }
    ensures err { IfErr result (λ answer. FailsToCompare schema.now usual (A.remaining first.old.inner) (A.remaining first.new.inner)
        (B.remaining second.old.inner) (B.remaining second.new.inner) answer.0 answer.1.fault) }
    ensures order { IfErr result (λ answer. IfFirst answer.0 (second.new ≡ second.old)) }
    ensures consumed_first { ConsumesAtMost usual (A.remaining first.old.inner) (A.remaining first.new.inner) }
    ensures consumed_second { ConsumesAtMost usual (B.remaining second.old.inner) (B.remaining second.new.inner) }

    ensures read { OnOk result ((first.new.failures ≡ first.old.failures) × (second.new.failures ≡ second.old.failures)) }
    ensures failed_first { IfErr result (λ answer. first.new.failures ≡ first_failures first.old.failures answer.0 answer.1.fault) }
    ensures failed_second { IfErr result (λ answer. second.new.failures ≡ second_failures second.old.failures answer.0 answer.1.fault) }
{
    let limits = Limits::usual();
    headline(schema, limits);
    lines_law();
    let before = match accept(alloc, schema, limits, first) {
        Ok(accepted) => accepted,
        Err(refusal) => return Err((Which::First, refusal)),
    };
    let after = match accept(alloc, schema, limits, second) {
        Ok(accepted) => accepted,
        Err(refusal) => return Err((Which::Second, refusal)),
    };
    let files = TwoFiles {
        schema,
        first: &before,
        second: &after,
    };
    match list_differences(alloc, form, left_out, None, files) {
        Ok(found) => Ok(found),
        Err(_no_memory) => Err((Which::Second, no_memory())),
    }
}

/// The refusal where memory is wanted behind both files.
fn no_memory() -> Refusal
    ensures { result.fault ≡ Fault.NoMemory }
{
    Refusal {
        fault: Fault::NoMemory,
        at: At::Statement(0),
    }
}
