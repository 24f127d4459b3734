//! What a file has, without its lines.
ghost use Rattle.std.specs.Prelude.{◌≡◌, ◌≤◌, ◌+◌, IfErr, IfOk, OnOk};
ghost use Rattle.p21_stream.specs.ReaderInput.{ConsumesAtMost, IsCountedInput, RefusesRead, read_failures};

use crate::any_session::AnySession;
use crate::located::Located;
use crate::read::feed_all;
use p21_schema::Schema;
use p21_stream_io::Watched;
use p21_stream_sieve::Indices;
use p21_stream_statements::{Expected, Place, Refusal};
use p21_values::Limits;
use std::alloc::Global;
use std::io::Read;

/// How many instances an accepted file has, and how many bytes its canonical file.
#[derive(Clone, Copy, Debug, PartialEq, Eq)]
pub struct Counted {
    pub instances: u64,
    pub bytes: u64,
}

/// Reads a file to its end, as `accept` does, and keeps none of its lines.
///
/// # Errors
///
/// Those of `accept`.
pub fn count<R: Read>(
    alloc: Global,
    schema: &Schema,
    limits: Limits,
    reader: &mut Watched<R>,
) -> Result<Counted, Refusal>
    ensures ok { IfOk result (λ counted.
        IsCountedInput schema.now limits (R.remaining reader.old.inner) (R.remaining reader.new.inner) counted) }
    ensures err { IfErr result (λ refusal.
        RefusesRead schema.now limits (R.remaining reader.old.inner) (R.remaining reader.new.inner) refusal.fault) }
    ensures consumed { ConsumesAtMost limits (R.remaining reader.old.inner) (R.remaining reader.new.inner) }

    ensures moved { reader.new.moved ≤ reader.old.moved + (limits.file_source + 1) }
    ensures read { OnOk result (reader.new.failures ≡ reader.old.failures) }
    ensures failed { IfErr result (λ refusal. reader.new.failures ≡ read_failures reader.old.failures refusal.fault) }
{
    match count_located(alloc, schema, limits, reader) {
        Ok(counted) => Ok(counted),
        Err(located) => Err(located.refusal),
    }
}

/// As `count`, with where a refusal stands.
///
/// # Errors
///
/// Those of `accept`.
pub fn count_located<R: Read>(
    alloc: Global,
    schema: &Schema,
    limits: Limits,
    reader: &mut Watched<R>,
) -> Result<Counted, Located>
    ensures ok { IfOk result (λ counted.
        IsCountedInput schema.now limits (R.remaining reader.old.inner) (R.remaining reader.new.inner) counted) }
    ensures err { IfErr result (λ located.
        RefusesRead schema.now limits (R.remaining reader.old.inner) (R.remaining reader.new.inner) located.refusal.fault) }
    ensures consumed { ConsumesAtMost limits (R.remaining reader.old.inner) (R.remaining reader.new.inner) }

    ensures moved { reader.new.moved ≤ reader.old.moved + (limits.file_source + 1) }
    ensures read { OnOk result (reader.new.failures ≡ reader.old.failures) }
    ensures failed { IfErr result (λ located. reader.new.failures ≡ read_failures reader.old.failures located.refusal.fault) }
{
    let mut session = AnySession::counting(alloc, schema, limits);
    match feed_all(&mut session, reader, limits.file_source()) {
        Ok(()) => {}
        Err(refusal) => {
            return Err(Located {
                refusal,
                place: session.place(),
                attribute: session.attribute(),
                indices: session.indices(),
                expected: session.expected(),
            });
        }
    }
    let places = session.places();
    match session.count() {
        Ok(counted) => Ok(counted),
        Err(refusal) => {
            Err(Located {
                refusal,
                place: Place::of(refusal.fault, places),
                attribute: None,
                indices: Indices::none(),
                expected: Expected::none(),
            })
        }
    }
}
