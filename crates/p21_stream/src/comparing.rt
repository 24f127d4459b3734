//! Two files compared by what they mean.
ghost use Rattle.std.specs.Prelude.{◌≡◌, ◌≤◌, ◌+◌, IfErr, IfOk, OnOk};
ghost use Rattle.p21_spec_laws.specs.Stored.{KeptLines};
ghost use Rattle.p21_stream.specs.Answers.{Compares, FailsToCompare, IfFirst, first_failures, second_failures};
ghost use Rattle.p21_stream.specs.Bounds.{KeepsLines};
ghost use Rattle.p21_stream.specs.Claim.{Claim};
ghost use Rattle.p21_stream.specs.Held.{limits_of, schema_of};
ghost use Rattle.p21_stream.specs.Histories.{Stands, nothing_taken};
ghost use Rattle.p21_stream.specs.ReaderInput.{ConsumesAtMost, IsWholeInput, RefusesRead, read_failures};

use crate::any_session::AnySession;
use crate::claim::headline;
use crate::located::Located;
use crate::read::feed_all;
use p21_schema::Schema;
use p21_stream_io::Watched;
use p21_stream_kept::Kept;
use p21_stream_sieve::Indices;
use p21_stream_statements::{Expected, Fault, Place, Refusal};
use p21_values::Limits;
use std::alloc::Global;
use std::io::Read;

/// One of two files.
#[derive(Clone, Copy, Debug, PartialEq, Eq)]
pub enum Which {
    First,
    Second,
}

/// Whether two files mean the same. The first is read to its end before the second; of neither is more than one byte past
/// the limit of a file read.
///
/// # Errors
///
/// The file, with its refusal as `accept` answers it.
pub fn same_meaning<R: Read, S: Read>(
    alloc: Global,
    schema: &Schema,
    limits: Limits,
    first: &mut Watched<R>,
    second: &mut Watched<S>,
) -> Result<bool, (Which, Refusal)>
    ensures ok { IfOk result (λ same. Compares schema.now limits (R.remaining first.old.inner) (R.remaining first.new.inner)
        (S.remaining second.old.inner) (S.remaining second.new.inner) same) }
    ensures err { IfErr result (λ answer. FailsToCompare schema.now limits (R.remaining first.old.inner) (R.remaining first.new.inner)
        (S.remaining second.old.inner) (S.remaining second.new.inner) answer.0 answer.1.fault) }
    ensures order { IfErr result (λ answer. IfFirst answer.0 (second.new ≡ second.old)) }
    ensures consumed_first { ConsumesAtMost limits (R.remaining first.old.inner) (R.remaining first.new.inner) }
    ensures consumed_second { ConsumesAtMost limits (S.remaining second.old.inner) (S.remaining second.new.inner) }
    ensures claim { Claim schema.now limits }

    ensures moved_first { first.new.moved ≤ first.old.moved + (limits.file_source + 1) }
    ensures moved_second { second.new.moved ≤ second.old.moved + (limits.file_source + 1) }
    ensures read { OnOk result ((first.new.failures ≡ first.old.failures) × (second.new.failures ≡ second.old.failures)) }
    ensures failed_first { IfErr result (λ answer. first.new.failures ≡ first_failures first.old.failures answer.0 answer.1.fault) }
    ensures failed_second { IfErr result (λ answer. second.new.failures ≡ second_failures second.old.failures answer.0 answer.1.fault) }
{
    match same_meaning_located(alloc, schema, limits, first, second) {
        Ok(same) => Ok(same),
        Err((which, located)) => Err((which, located.refusal)),
    }
}

/// As `same_meaning`, with where a refusal stands.
///
/// # Errors
///
/// Those of `same_meaning`.
pub fn same_meaning_located<R: Read, S: Read>(
    alloc: Global,
    schema: &Schema,
    limits: Limits,
    first: &mut Watched<R>,
    second: &mut Watched<S>,
) -> Result<bool, (Which, Located)>
    ensures ok { IfOk result (λ same. Compares schema.now limits (R.remaining first.old.inner) (R.remaining first.new.inner)
        (S.remaining second.old.inner) (S.remaining second.new.inner) same) }
    ensures err { IfErr result (λ answer. FailsToCompare schema.now limits (R.remaining first.old.inner) (R.remaining first.new.inner)
        (S.remaining second.old.inner) (S.remaining second.new.inner) answer.0 answer.1.refusal.fault) }
    ensures order { IfErr result (λ answer. IfFirst answer.0 (second.new ≡ second.old)) }
    ensures consumed_first { ConsumesAtMost limits (R.remaining first.old.inner) (R.remaining first.new.inner) }
    ensures consumed_second { ConsumesAtMost limits (S.remaining second.old.inner) (S.remaining second.new.inner) }
    ensures claim { Claim schema.now limits }

    ensures moved_first { first.new.moved ≤ first.old.moved + (limits.file_source + 1) }
    ensures moved_second { second.new.moved ≤ second.old.moved + (limits.file_source + 1) }
    ensures read { OnOk result ((first.new.failures ≡ first.old.failures) × (second.new.failures ≡ second.old.failures)) }
    ensures failed_first { IfErr result (λ answer. first.new.failures ≡ first_failures first.old.failures answer.0 answer.1.refusal.fault) }
    ensures failed_second { IfErr result (λ answer. second.new.failures ≡ second_failures second.old.failures answer.0
        answer.1.refusal.fault) }
{
    headline(schema, limits);
    let keeping = AnySession::keeping(alloc, schema, limits);
    let earlier = match read_whole(keeping, limits, first) {
        Ok((kept, _)) => kept,
        Err(located) => return Err((Which::First, located)),
    };
    let beside = AnySession::beside(alloc, schema, limits, earlier);
    match read_whole(beside, limits, second) {
        Ok((kept, no_memory)) => match kept.is_same() {
            Ok(same) => Ok(same),
            Err(_) => {
                let located = Located {
                    refusal: no_memory,
                    place: None,
                    attribute: None,
                    indices: Indices::none(),
                    expected: Expected::none(),
                };
                Err((Which::Second, located))
            }
        },
        Err(located) => Err((Which::Second, located)),
    }
}

/// What a session that is new keeps of what a reader gives, where that is a whole file, and the refusal where memory is wanted
/// behind it.
///
/// # Errors
///
/// Those of `accept`.
fn read_whole<R: Read>(
    mut session: AnySession<'_>,
    limits: Limits,
    reader: &mut Watched<R>,
) -> Result<(Kept, Refusal), Located>
    requires new { Stands session nothing_taken }
    requires limits { limits_of session ≡ limits }
    ensures ok { IfOk result (λ found. IsWholeInput (schema_of session.entry) limits (R.remaining reader.old.inner)
        (R.remaining reader.new.inner) found.0) }
    ensures no_memory { IfOk result (λ found. found.1.fault ≡ Fault.NoMemory) }
    ensures lines { (lines : KeptLines) → KeepsLines lines session.entry.refused session.entry.kept
        → IfOk result (λ found. found.0.lines ≡ lines) }
    ensures err { IfErr result (λ located. RefusesRead (schema_of session.entry) limits (R.remaining reader.old.inner)
        (R.remaining reader.new.inner) located.refusal.fault) }
    ensures consumed { ConsumesAtMost limits (R.remaining reader.old.inner) (R.remaining reader.new.inner) }

    ensures moved { reader.new.moved ≤ reader.old.moved + (limits.file_source + 1) }
    ensures read { OnOk result (reader.new.failures ≡ reader.old.failures) }
    ensures failed { IfErr result (λ located. reader.new.failures ≡ read_failures reader.old.failures located.refusal.fault) }
{
    match feed_all(&mut session, reader, limits.file_source()) {
        Ok(()) => {}
        Err(refusal) => {
            return Err(Located {
                refusal,
                place: session.place(),
                attribute: session.attribute(),
                indices: session.indices(),
                expected: session.expected(),
            });
        }
    }
    let places = session.places();
    let no_memory = session.refusal(Fault::NoMemory);
    match session.whole() {
        Ok(kept) => Ok((kept, no_memory)),
        Err(refusal) => {
            Err(Located {
                refusal,
                place: Place::of(refusal.fault, places),
                attribute: None,
                indices: Indices::none(),
                expected: Expected::none(),
            })
        }
    }
}
