//! Reading a file to its end.
//!
//! `accept` is public: it reads a file to its end and gives `Accepted`. `rewrite` stands on it, and a caller that shows
//! or counts instances needs it too. `same_meaning` doesn't: it puts no lines into order, and keeps none of the second
//! file.
ghost use Rattle.std.specs.Prelude.{◌≡◌, ◌≤◌, ◌+◌, ◌<◌, length, IfErr, IfOk, Ok, OnOk};
ghost use Rattle.p21_stream.specs.Bounds.{StaysKept};
ghost use Rattle.p21_stream.specs.Feeding.{FeedsMore, IsFedWhole, RefusesFedBytes, RefusesPiece, TakesAtMost};
ghost use Rattle.p21_stream.specs.ReaderInput.{ConsumesAtMost, IsAcceptedInput, IsOfBytes, RefusesRead, read_failures};
ghost use Rattle.p21_stream.specs.Held.{limits_of, schema_of};
ghost use Rattle.p21_stream.specs.Histories.{FeedGives, KeepsSchema, Stands, nothing_taken};

use crate::any_session::AnySession;
use crate::located::Located;
use p21_schema::Schema;
use p21_stream_io::{Watched, read_piece};
use p21_stream_output::Accepted;
use p21_stream_sieve::Indices;
use p21_stream_statements::{Expected, Fault, Place, Refusal};
use p21_values::Limits;
use std::alloc::Global;
use std::io::Read;

/// The bytes that one read may give.
pub(crate) const PIECE: usize = 65_536;

/// Reads a file to its end, and never more than one byte past the limit of a file.
///
/// # Errors
///
/// Those of a session; `Read` where a read answers an error, whatever its kind.
pub fn accept<R: Read>(
    alloc: Global,
    schema: &Schema,
    limits: Limits,
    reader: &mut Watched<R>,
) -> Result<Accepted, Refusal>
    ensures ok { IfOk result (λ accepted.
        IsAcceptedInput schema.now limits (R.remaining reader.old.inner) (R.remaining reader.new.inner) accepted) }
    ensures err { IfErr result (λ refusal.
        RefusesRead schema.now limits (R.remaining reader.old.inner) (R.remaining reader.new.inner) refusal.fault) }
    ensures consumed { ConsumesAtMost limits (R.remaining reader.old.inner) (R.remaining reader.new.inner) }

    ensures moved { reader.new.moved ≤ reader.old.moved + (limits.file_source + 1) }
    ensures read { OnOk result (reader.new.failures ≡ reader.old.failures) }
    ensures failed { IfErr result (λ refusal. reader.new.failures ≡ read_failures reader.old.failures refusal.fault) }
{
    match accept_located(alloc, schema, limits, reader) {
        Ok(accepted) => Ok(accepted),
        Err(located) => Err(located.refusal),
    }
}

/// As `accept`, with where a refusal stands.
///
/// # Errors
///
/// Those of `accept`.
pub fn accept_located<R: Read>(
    alloc: Global,
    schema: &Schema,
    limits: Limits,
    reader: &mut Watched<R>,
) -> Result<Accepted, Located>
    ensures ok { IfOk result (λ accepted.
        IsAcceptedInput schema.now limits (R.remaining reader.old.inner) (R.remaining reader.new.inner) accepted) }
    ensures err { IfErr result (λ located.
        RefusesRead schema.now limits (R.remaining reader.old.inner) (R.remaining reader.new.inner) located.refusal.fault) }
    ensures consumed { ConsumesAtMost limits (R.remaining reader.old.inner) (R.remaining reader.new.inner) }

    ensures moved { reader.new.moved ≤ reader.old.moved + (limits.file_source + 1) }
    ensures read { OnOk result (reader.new.failures ≡ reader.old.failures) }
    ensures failed { IfErr result (λ located. reader.new.failures ≡ read_failures reader.old.failures located.refusal.fault) }
{
    let mut session = AnySession::keeping(alloc, schema, limits);
    match feed_all(&mut session, reader, limits.file_source()) {
        Ok(()) => {}
        Err(refusal) => {
            return Err(Located {
                refusal,
                place: session.place(),
                attribute: session.attribute(),
                indices: session.indices(),
                expected: session.expected(),
            });
        }
    }
    let places = session.places();
    match session.finish() {
        Ok(accepted) => Ok(accepted),
        Err(refusal) => {
            Err(Located {
                refusal,
                place: Place::of(refusal.fault, places),
                attribute: None,
                indices: Indices::none(),
                expected: Expected::none(),
            })
        }
    }
}

/// Feeds a session that is new all that a reader has.
pub(crate) fn feed_all<R: Read>(
    session: &mut AnySession<'_>,
    reader: &mut Watched<R>,
    most: u64,
) -> Result<(), Refusal>
    requires new { Stands session.old nothing_taken }
    requires most { most ≡ (limits_of session.old).file_source }
    ensures ok { OnOk result (IsFedWhole (R.remaining reader.old.inner) (R.remaining reader.new.inner) session.new) }
    ensures err { IfErr result (λ refusal.
        RefusesRead (schema_of session.old) (limits_of session.old) (R.remaining reader.old.inner) (R.remaining reader.new.inner)
        refusal.fault) }
    ensures consumed { ConsumesAtMost (limits_of session.old) (R.remaining reader.old.inner) (R.remaining reader.new.inner) }

    ensures schema { KeepsSchema session.old session.new }
    ensures lines { StaysKept session.old.refused session.old.kept session.new.refused session.new.kept }
    ensures moved { reader.new.moved ≤ reader.old.moved + (most + 1) }
    ensures read { OnOk result (reader.new.failures ≡ reader.old.failures) }
    ensures failed { IfErr result (λ refusal. reader.new.failures ≡ read_failures reader.old.failures refusal.fault) }
{
    let mut piece = [0; PIECE];
    let mut left = most;
    loop {
        let count = match feed_piece(session, reader, &mut piece, left) {
            Ok(count) => count,
            Err(refusal) => return Err(refusal),
        };
        if count == 0 {
            return Ok(());
        }
        left -= count;
    }
}

/// Feeds a session what a reader gives at once, and says how many bytes: 0 at the end alone.
fn feed_piece<R: Read>(
    session: &mut AnySession<'_>,
    reader: &mut Watched<R>,
    piece: &mut [u8],
    most: u64,
) -> Result<u64, Refusal>
    requires room { 0 < length piece.old }
    ensures ok { IfOk result (FeedsMore (R.remaining reader.old.inner) (R.remaining reader.new.inner) session.old session.new) }
    ensures err { IfErr result (λ refusal. RefusesFedBytes (R.remaining reader.old.inner) (R.remaining reader.new.inner) session.old
        refusal.fault) }
    ensures consumed { TakesAtMost (most + 1) (R.remaining reader.old.inner) (R.remaining reader.new.inner) }

    ensures schema { KeepsSchema session.old session.new }
    ensures lines { StaysKept session.old.refused session.old.kept session.new.refused session.new.kept }
    ensures moved { IfOk result (λ count. reader.new.moved ≤ reader.old.moved + count) }
    ensures moved_once { reader.new.moved ≤ reader.old.moved + 1 }
    ensures read { OnOk result (reader.new.failures ≡ reader.old.failures) }
    ensures failed { IfErr result (λ refusal. reader.new.failures ≡ read_failures reader.old.failures refusal.fault) }
{
    let Ok(count) = read_piece(reader, piece, most) else {
        return Err(session.refusal(Fault::Read));
    };
    match feed(session, &piece[..count]) {
        Ok(()) => Ok(count as u64),
        Err(refusal) => Err(refusal),
    }
}

/// Feeds a session a piece. It stands by itself since the prover knows of a parameter, and of no part of one, that it holds
/// bytes.
fn feed(session: &mut AnySession<'_>, piece: &[u8]) -> Result<(), Refusal>
    ensures gives { OnOk result (FeedGives session.old piece.now (Ok tt) session.new) }
    ensures schema { KeepsSchema session.old session.new }
    ensures lines { StaysKept session.old.refused session.old.kept session.new.refused session.new.kept }
    ensures refuses { IfErr result (λ refusal. RefusesPiece session.old piece.now refusal.fault) }
    ensures kind { IfErr result (λ refusal. IsOfBytes refusal.fault) }
{
    match session.feed(piece) {
        Ok(()) => Ok(()),
        Err(refusal) => Err(refusal),
    }
}
