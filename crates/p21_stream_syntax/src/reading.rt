//! Whole files, read by themselves.
ghost use Rattle.std.specs.Prelude.{◌≡◌, ◌≢◌, ◌≤◌, ◌+◌, ◌<◌, ◌^◌, ℕ, List, IfErr, IfOk, OnOk, length};
ghost use Rattle.p21_spec_basics.specs.Limits.{Limits as MeantLimits};
ghost use Rattle.p21_stream_statements.specs.Source.{IsOfBytes};
ghost use Rattle.p21_spec_syntax.specs.WellFormedFile.{IsIllFormed};
ghost use Rattle.p21_stream_syntax.specs.Walk.{IsFoundOf};
ghost use Rattle.p21_stream_syntax.specs.Reading.{IsReadFrom, IsReadToEnd, IsWellFormedInput, PieceGives, ReadsMore, RefusesMore, RefusesSyntax, TakesAtMost, WalkHasTaken, read_failures};

use crate::ill_formed::IllFormed;
use crate::walk::{Walk, refused};
use crate::well_formed::WellFormed;
use p21_stream_io::{Watched, read_piece};
use p21_stream_statements::{Fault, Place, Refusal};
use p21_values::Limits;
use std::alloc::Global;
use std::io::Read;

/// The bytes that one read may give.
const PIECE: usize = 65_536;

/// Reads a file to its end by itself, without a schema, and never more than one byte past the limit of a file.
///
/// # Errors
///
/// Those of bytes, tokens and statements; `SchemaName` where the `FILE_SCHEMA` begins with no name, or a section names another
/// schema; `SectionTwice`, `DuplicateName`; at the end `Dangling`; `Read` where a read answers an error, whatever its kind;
/// `NoMemory`.
pub fn syntax<R: Read>(
    alloc: Global,
    limits: Limits,
    reader: &mut Watched<R>,
) -> Result<WellFormed, Refusal>
    ensures ok { IfOk result (λ found. IsWellFormedInput limits (R.remaining reader.old.inner) (R.remaining reader.new.inner) found) }
    ensures err { IfErr result (λ refusal. RefusesSyntax limits (R.remaining reader.old.inner) (R.remaining reader.new.inner) refusal.fault) }
    ensures consumed { TakesAtMost (limits.file_source + 1) (R.remaining reader.old.inner) (R.remaining reader.new.inner) }
    ensures moved { reader.new.moved ≤ reader.old.moved + (limits.file_source + 1) }
    ensures read { OnOk result (reader.new.failures ≡ reader.old.failures) }
    ensures failed { IfErr result (λ refusal. reader.new.failures ≡ read_failures reader.old.failures refusal.fault) }
{
    match syntax_located(alloc, limits, reader) {
        Ok(found) => Ok(found),
        Err(ill_formed) => Err(ill_formed.refusal),
    }
}

/// As `syntax`, with where a refusal stands.
///
/// # Errors
///
/// Those of `syntax`.
pub fn syntax_located<R: Read>(
    alloc: Global,
    limits: Limits,
    reader: &mut Watched<R>,
) -> Result<WellFormed, IllFormed>
    ensures ok { IfOk result (λ found. IsWellFormedInput limits (R.remaining reader.old.inner) (R.remaining reader.new.inner) found) }
    ensures err { IfErr result (λ ill_formed. RefusesSyntax limits (R.remaining reader.old.inner) (R.remaining reader.new.inner)
        ill_formed.refusal.fault) }
    ensures consumed { TakesAtMost (limits.file_source + 1) (R.remaining reader.old.inner) (R.remaining reader.new.inner) }
    ensures moved { reader.new.moved ≤ reader.old.moved + (limits.file_source + 1) }
    ensures read { OnOk result (reader.new.failures ≡ reader.old.failures) }
    ensures failed { IfErr result (λ ill_formed. reader.new.failures ≡ read_failures reader.old.failures ill_formed.refusal.fault) }
{
    let mut walk = Walk::new(alloc, limits);
    match read_all(&mut walk, limits, reader) {
        Ok(()) => {}
        Err(refusal) => {
            let place = walk.place(alloc, refusal.fault, refusal.at);
            return Err(IllFormed { refusal, place });
        }
    }
    let places = walk.places();
    match walk.finish() {
        Ok(found) => Ok(found),
        Err(refusal) => {
            let place = Place::of(refusal.fault, places);
            Err(IllFormed { refusal, place })
        }
    }
}

/// Reads a file that lies in memory by itself, without a schema. It isn't copied.
///
/// # Errors
///
/// As `syntax`, but that no read fails.
pub fn syntax_of(alloc: Global, limits: Limits, file: &[u8]) -> Result<WellFormed, Refusal>
    ensures ok { IfOk result (λ found. IsFoundOf limits file.now found) }
    ensures err { IfErr result (λ refusal. refusal.fault ≢ Fault.NoMemory → IsIllFormed limits file.now) }
    ensures kind { IfErr result (λ refusal. IsOfBytes refusal.fault) }
{
    match syntax_of_located(alloc, limits, file) {
        Ok(found) => Ok(found),
        Err(ill_formed) => Err(ill_formed.refusal),
    }
}

/// As `syntax_of`, with where a refusal stands.
///
/// # Errors
///
/// Those of `syntax_of`.
pub fn syntax_of_located(
    alloc: Global,
    limits: Limits,
    file: &[u8],
) -> Result<WellFormed, IllFormed>
    ensures ok { IfOk result (λ found. IsFoundOf limits file.now found) }
    ensures err { IfErr result (λ ill_formed. ill_formed.refusal.fault ≢ Fault.NoMemory → IsIllFormed limits file.now) }
    ensures kind { IfErr result (λ ill_formed. IsOfBytes ill_formed.refusal.fault) }
{
    let mut walk = Walk::new(alloc, limits);
    match walk.read(file) {
        Ok(()) => {}
        Err(refusal) => {
            let place = walk.place(alloc, refusal.fault, refusal.at);
            return Err(IllFormed { refusal, place });
        }
    }
    let places = walk.places();
    match walk.finish() {
        Ok(found) => Ok(found),
        Err(refusal) => {
            let place = Place::of(refusal.fault, places);
            Err(IllFormed { refusal, place })
        }
    }
}

/// Reads all that a reader has.
fn read_all<R: Read>(
    walk: &mut Walk,
    limits: Limits,
    reader: &mut Watched<R>,
) -> Result<(), Refusal>
    requires new { IsReadFrom limits (R.remaining reader.old.inner) (R.remaining reader.old.inner) walk.old 0 }
    requires counted { limits.file_source < 2 ^ 64 }
    ensures ok { OnOk result (IsReadToEnd limits (R.remaining reader.old.inner) (R.remaining reader.new.inner) walk.new) }
    ensures err { IfErr result (λ refusal. RefusesSyntax limits (R.remaining reader.old.inner) (R.remaining reader.new.inner) refusal.fault) }
    ensures consumed { TakesAtMost (limits.file_source + 1) (R.remaining reader.old.inner) (R.remaining reader.new.inner) }
    ensures moved { reader.new.moved ≤ reader.old.moved + (limits.file_source + 1) }
    ensures read { OnOk result (reader.new.failures ≡ reader.old.failures) }
    ensures failed { IfErr result (λ refusal. reader.new.failures ≡ read_failures reader.old.failures refusal.fault) }
{
    let mut piece = [0; PIECE];
    let mut left = limits.file_source();
    loop {
        let count = match read_more(walk, limits, reader, &mut piece, left) {
            Ok(count) => count,
            Err(refusal) => return Err(refusal),
        };
        if count == 0 {
            return Ok(());
        }
        left -= count;
    }
}

/// Reads what a reader gives at once, and says how many bytes: 0 at the end alone.
fn read_more<R: Read>(
    walk: &mut Walk,
    limits: Limits,
    reader: &mut Watched<R>,
    piece: &mut [u8],
    left: u64,
) -> Result<u64, Refusal>
    requires room { 0 < length piece.old }
    requires counted { limits.file_source < 2 ^ 64 }
    requires live { (bytes : List ℕ) × WalkHasTaken limits walk.old bytes }
    ensures ok { IfOk result (ReadsMore limits (R.remaining reader.old.inner) (R.remaining reader.new.inner) walk.old walk.new) }
    ensures err { IfErr result (λ refusal. RefusesMore limits (R.remaining reader.old.inner) (R.remaining reader.new.inner) walk.old
        refusal.fault) }
    ensures consumed { TakesAtMost (left + 1) (R.remaining reader.old.inner) (R.remaining reader.new.inner) }
    ensures moved { IfOk result (λ count. reader.new.moved ≤ reader.old.moved + count) }
    ensures moved_once { reader.new.moved ≤ reader.old.moved + 1 }
    ensures read { OnOk result (reader.new.failures ≡ reader.old.failures) }
    ensures failed { IfErr result (λ refusal. reader.new.failures ≡ read_failures reader.old.failures refusal.fault) }
{
    let Ok(count) = read_piece(reader, piece, left) else {
        return Err(refused(Fault::Read, None, walk.statement));
    };
    match take_piece(walk, limits, &piece[..count]) {
        Ok(()) => Ok(count as u64),
        Err(refusal) => Err(refusal),
    }
}

/// Reads a piece. It stands by itself since the prover knows of a parameter, and of no part of one, that it holds bytes.
fn take_piece(walk: &mut Walk, limits: Limits, piece: &[u8]) -> Result<(), Refusal>
    requires counted { limits.file_source < 2 ^ 64 }
    requires live { (bytes : List ℕ) × WalkHasTaken limits walk.old bytes }
    ensures gives { PieceGives limits walk.old piece.now result walk.new }
    ensures kind { IfErr result (λ refusal. IsOfBytes refusal.fault) }
{
    match walk.read(piece) {
        Ok(()) => Ok(()),
        Err(refusal) => Err(refusal),
    }
}
