//! A file read, and its canonical file written.
ghost use Rattle.std.specs.Prelude.{◌≡◌, ◌≤◌, ◌+◌, IfErr, IfOk, OnOk};
ghost use Rattle.p21_stream.specs.Answers.{IsWritten, FailsToWrite};
ghost use Rattle.p21_stream.specs.Claim.{Claim};
ghost use Rattle.p21_stream.specs.ReaderInput.{ConsumesAtMost, read_failures, write_failures};

use crate::claim::headline;
use crate::located::Located;
use crate::read::accept_located;
use p21_schema::Schema;
use p21_stream_io::Watched;
use p21_stream_sieve::Indices;
use p21_stream_statements::{Expected, Refusal};
use p21_values::Limits;
use std::alloc::Global;
use std::io::{Read, Write};

/// Reads a file to its end and writes its canonical file, and says how many bytes this has. Nothing is written before the
/// file is accepted, and never more than one byte past the limit of a file is read.
///
/// # Errors
///
/// Those of a session; `Read` where a read answers an error, whatever its kind; `Write` where a write answers an error, or
/// takes none of some bytes.
pub fn rewrite<R: Read, W: Write>(
    alloc: Global,
    schema: &Schema,
    limits: Limits,
    reader: &mut Watched<R>,
    writer: &mut Watched<W>,
) -> Result<u64, Refusal>
    ensures ok { IfOk result (λ size. IsWritten schema.now limits (R.remaining reader.old.inner) (R.remaining reader.new.inner)
        (W.contents writer.old.inner) (W.contents writer.new.inner) size) }
    ensures err { IfErr result (λ refusal. FailsToWrite schema.now limits (R.remaining reader.old.inner) (R.remaining reader.new.inner)
        (W.contents writer.old.inner) (W.contents writer.new.inner) refusal.fault) }
    ensures consumed { ConsumesAtMost limits (R.remaining reader.old.inner) (R.remaining reader.new.inner) }
    ensures claim { Claim schema.now limits }

    ensures moved { reader.new.moved ≤ reader.old.moved + (limits.file_source + 1) }
    ensures read { OnOk result (reader.new.failures ≡ reader.old.failures) }
    ensures written { OnOk result (writer.new.failures ≡ writer.old.failures) }
    ensures failed_read { IfErr result (λ refusal. reader.new.failures ≡ read_failures reader.old.failures refusal.fault) }
    ensures failed_write { IfErr result (λ refusal. writer.new.failures ≡ write_failures writer.old.failures refusal.fault) }
{
    match rewrite_located(alloc, schema, limits, reader, writer) {
        Ok(size) => Ok(size),
        Err(located) => Err(located.refusal),
    }
}

/// As `rewrite`, with where a refusal stands.
///
/// # Errors
///
/// Those of `rewrite`.
pub fn rewrite_located<R: Read, W: Write>(
    alloc: Global,
    schema: &Schema,
    limits: Limits,
    reader: &mut Watched<R>,
    writer: &mut Watched<W>,
) -> Result<u64, Located>
    ensures ok { IfOk result (λ size. IsWritten schema.now limits (R.remaining reader.old.inner) (R.remaining reader.new.inner)
        (W.contents writer.old.inner) (W.contents writer.new.inner) size) }
    ensures err { IfErr result (λ located. FailsToWrite schema.now limits (R.remaining reader.old.inner) (R.remaining reader.new.inner)
        (W.contents writer.old.inner) (W.contents writer.new.inner) located.refusal.fault) }
    ensures consumed { ConsumesAtMost limits (R.remaining reader.old.inner) (R.remaining reader.new.inner) }
    ensures claim { Claim schema.now limits }

    ensures moved { reader.new.moved ≤ reader.old.moved + (limits.file_source + 1) }
    ensures read { OnOk result (reader.new.failures ≡ reader.old.failures) }
    ensures written { OnOk result (writer.new.failures ≡ writer.old.failures) }
    ensures failed_read { IfErr result (λ located. reader.new.failures ≡ read_failures reader.old.failures located.refusal.fault) }
    ensures failed_write { IfErr result (λ located. writer.new.failures ≡ write_failures writer.old.failures located.refusal.fault) }
{
    headline(schema, limits);
    let accepted = match accept_located(alloc, schema, limits, reader) {
        Ok(accepted) => accepted,
        Err(located) => return Err(located),
    };
    match accepted.write_to(writer) {
        Ok(()) => Ok(accepted.len()),
        Err(refusal) => Err(Located {
            refusal,
            place: None,
            attribute: None,
            indices: Indices::none(),
            expected: Expected::none(),
        }),
    }
}
