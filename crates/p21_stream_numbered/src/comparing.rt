//! Two files compared by what they mean but for the names of their instances.
ghost use Rattle.std.specs.Prelude.{◌≡◌, ◌⊎◌, ◌≤◌, ◌+◌, IfErr, IfOk, OnOk};
ghost use Rattle.p21_spec_numbering.specs.Claim.{NumberingClaim};
ghost use Rattle.p21_spec_numbering.specs.Laws.{ranking_of};
ghost use Rattle.p21_stream.specs.ReaderInput.{ConsumesAtMost};
ghost use Rattle.p21_stream_numbered.specs.Compared.{ComparesButForNames, HasCanonical, FailsToTell, IsFileOf, first_numbering_failures, second_numbering_failures};

use crate::numbering::{canonical_text, numbering_headline, refused, statement_behind};
use crate::refusal::NumberingRefusal;
use p21_numbered_file::{Unnumbered, are_same_but_for_names};
use p21_stream::{Limits, Schema, Watched, Which};
use std::alloc::Global;
use std::io::Read;

/// Whether two files mean the same but for the names of their instances. The first is read to its end before the second; of neither is
/// more than one byte past the limit of a file read. A file is the same as itself, decided or not, and not the same as one that is
/// decided where it isn't.
///
/// # Errors
///
/// The file, with its refusal as `accept` answers it; `CanonicalTooLong` where the numbered files of both are too long; `Alike` where
/// neither is decided, with two names of the first that its model doesn't tell apart.
pub fn same_but_for_names<R: Read, S: Read>(
    alloc: Global,
    schema: &Schema,
    limits: Limits,
    first: &mut Watched<R>,
    second: &mut Watched<S>,
) -> Result<bool, (Which, NumberingRefusal)>
    ensures ok { IfOk result (λ same. ComparesButForNames schema.now limits (R.remaining first.old.inner) (R.remaining first.new.inner)
        (S.remaining second.old.inner) (S.remaining second.new.inner) same) }
    ensures err { IfErr result (λ answer. FailsToTell schema.now limits (R.remaining first.old.inner) (R.remaining first.new.inner)
        (S.remaining second.old.inner) (S.remaining second.new.inner) answer.0 answer.1) }
    ensures order { (second.new ≡ second.old) ⊎ HasCanonical schema.now limits (R.remaining first.old.inner) (R.remaining first.new.inner) }
    ensures consumed_first { ConsumesAtMost limits (R.remaining first.old.inner) (R.remaining first.new.inner) }
    ensures consumed_second { ConsumesAtMost limits (S.remaining second.old.inner) (S.remaining second.new.inner) }
    ensures claim { NumberingClaim schema.now limits (ranking_of schema.now) }

    ensures moved_first { first.new.moved ≤ first.old.moved + (limits.file_source + 1) }
    ensures moved_second { second.new.moved ≤ second.old.moved + (limits.file_source + 1) }
    ensures read { OnOk result ((first.new.failures ≡ first.old.failures) × (second.new.failures ≡ second.old.failures)) }
    ensures failed_first { IfErr result (λ answer. first.new.failures ≡ first_numbering_failures first.old.failures answer.0 answer.1) }
    ensures failed_second { IfErr result (λ answer. second.new.failures ≡ second_numbering_failures second.old.failures answer.0 answer.1) }
{
    numbering_headline(schema, limits);
    let one = match canonical_text(alloc, schema, limits, first) {
        Ok(text) => text,
        Err(refusal) => return Err((Which::First, NumberingRefusal::Refused(refusal))),
    };
    let other = match canonical_text(alloc, schema, limits, second) {
        Ok(text) => text,
        Err(refusal) => return Err((Which::Second, NumberingRefusal::Refused(refusal))),
    };
    match are_same_but_for_names(alloc, schema, limits, &one, &other) {
        Ok(same) => Ok(same),
        Err(fault) => {
            let which = file_of(&fault);
            Err((which, refused(fault, statement_behind(&one))))
        }
    }
}

/// Of which of two files it is told that neither has a numbered file: of the second where memory was wanted, since both were read.
fn file_of(fault: &Unnumbered) -> Which
    ensures { IsFileOf fault.now result }
{
    match fault {
        Unnumbered::Alike(_, _) => Which::First,
        Unnumbered::TooLong => Which::First,
        Unnumbered::NoMemory => Which::Second,
    }
}
