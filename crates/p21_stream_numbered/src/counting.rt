//! Files that have a numbered file, counted.
ghost use Rattle.std.specs.Prelude.{◌≡◌, ◌≤◌, ◌+◌, length, IfErr, IfOk, OnOk};
ghost use Rattle.p21_spec_numbering.specs.Claim.{NumberingClaim};
ghost use Rattle.p21_spec_numbering.specs.Laws.{ranking_of};
ghost use Rattle.p21_stream.specs.ReaderInput.{ConsumesAtMost};
ghost use Rattle.p21_stream_numbered.specs.Numbered.{IsCountedApart, RefusesNumbers, numbering_failures};
ghost use Rattle.p21_stream_output.specs.Output.{output_text};

use crate::numbering::{numbering_headline, refused, statement_behind, whole_text};
use crate::refusal::NumberingRefusal;
use p21_numbered_file::numbered_text;
use p21_stream::{Accepted, Counted, Limits, Schema, Watched, accept, headline};
use std::alloc::Global;
use std::io::Read;

/// How many instances a file has and how many bytes its canonical file, where it has a numbered file. No more than one byte past the
/// limit of a file is read.
///
/// # Errors
///
/// Those of `numbered`.
pub fn count_numbered<R: Read>(
    alloc: Global,
    schema: &Schema,
    limits: Limits,
    reader: &mut Watched<R>,
) -> Result<Counted, NumberingRefusal>
    ensures ok { IfOk result (λ counted. IsCountedApart schema.now limits (R.remaining reader.old.inner) (R.remaining reader.new.inner)
        counted) }
    ensures err { IfErr result (λ refusal. RefusesNumbers schema.now limits (R.remaining reader.old.inner) (R.remaining reader.new.inner)
        refusal) }
    ensures consumed { ConsumesAtMost limits (R.remaining reader.old.inner) (R.remaining reader.new.inner) }
    ensures claim { NumberingClaim schema.now limits (ranking_of schema.now) }

    ensures moved { reader.new.moved ≤ reader.old.moved + (limits.file_source + 1) }
    ensures read { OnOk result (reader.new.failures ≡ reader.old.failures) }
    ensures failed { IfErr result (λ refusal. reader.new.failures ≡ numbering_failures reader.old.failures refusal) }
{
    numbering_headline(schema, limits);
    headline(schema, limits);
    let accepted = match accept(alloc, schema, limits, reader) {
        Ok(accepted) => accepted,
        Err(refusal) => return Err(NumberingRefusal::Refused(refusal)),
    };
    let counted = counted_of(&accepted);
    let text = match whole_text(alloc, accepted) {
        Ok(text) => text,
        Err(refusal) => return Err(NumberingRefusal::Refused(refusal)),
    };
    let statement = statement_behind(&text);
    match numbered_text(alloc, schema, limits, &text, statement) {
        Ok(_) => Ok(counted),
        Err(fault) => Err(refused(fault, statement)),
    }
}

/// How many instances an accepted file has, and how many bytes.
fn counted_of(accepted: &Accepted) -> Counted
    ensures instances { result.instances ≡ length accepted.now.kept }
    ensures bytes { result.bytes ≡ length (output_text accepted.now) }
{
    Counted {
        instances: accepted.count(),
        bytes: accepted.len(),
    }
}
