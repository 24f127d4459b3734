//! Reading in pieces and writing whole texts. No call is tried again.
//!
//! The program has its own loops to read and write, since those of std assume short reads and retry an interrupted call
//! without an end that can be proved.
ghost use Rattle.std.specs.Prelude.{◌≡◌, ◌+◌, ◌<◌, ◌≤◌, length, IfOk, OnErr, OnOk};
ghost use Rattle.std.specs.Io.KnownBytes.{Appends, ReadConsumes};
ghost use Rattle.p21_stream_io.specs.Transfer.{AppendsPartOf};
ghost use Rattle.p21_stream_io.specs.Watch.{one_call_more, moved_after};

use crate::fault::{ReadFault, WriteFault};
use crate::watched::Watched;
use std::io::{Read, Write};

/// Reads into the front of `piece` what the reader gives at once, and says how many bytes: 0 at its end alone, and never
/// more than `most` and one more, so that a reader with more than `most` bytes is seen to have them.
///
/// # Errors
///
/// `ReadFault` where the reader answers an error, whatever its kind.
pub fn read_piece<R: Read>(
    reader: &mut Watched<R>,
    piece: &mut [u8],
    most: u64,
) -> Result<usize, ReadFault>
    requires room { 0 < length piece.old }
    ensures count { IfOk result (λ count. (count ≤ length piece.new) × (count ≤ most + 1)) }
    ensures bytes { ReadConsumes (R.remaining reader.old.inner) (R.remaining reader.new.inner) result piece.new }

    ensures moved { reader.new.moved ≡ moved_after reader.old.moved result }
    ensures read { OnOk result (reader.new.failures ≡ reader.old.failures) }
    ensures failed { OnErr result (reader.new.failures ≡ one_call_more reader.old.failures) }
{
    let room = at_most(piece.len(), most.saturating_add(1));
    let Ok(count) = reader.read(&mut piece[..room]) else {
        return Err(ReadFault);
    };
    Ok(count)
}

/// The smaller of a length and a number.
fn at_most(length: usize, most: u64) -> usize
    ensures length { result ≤ length }
    ensures most { result ≤ most }
    ensures some { 0 < length → 0 < most → 0 < result }
{
    if (length as u64) <= most {
        length
    } else {
        most as usize
    }
}

/// Writes all the bytes.
///
/// # Errors
///
/// `WriteFault` where a write answers an error, whatever its kind, or takes none of some bytes.
pub fn write_whole<W: Write>(writer: &mut Watched<W>, bytes: &[u8]) -> Result<(), WriteFault>
    ensures ok { OnOk result (Appends (W.contents writer.old.inner) (W.contents writer.new.inner) bytes.now) }
    ensures err { OnErr result (AppendsPartOf (W.contents writer.old.inner) (W.contents writer.new.inner) bytes.now) }

    ensures written { OnOk result (writer.new.failures ≡ writer.old.failures) }
    ensures failed { OnErr result (writer.new.failures ≡ one_call_more writer.old.failures) }
{
    let mut rest = bytes;
    while !rest.is_empty() {
        let Ok(count) = writer.write(rest) else {
            return Err(WriteFault);
        };
        if count == 0 {
            return Err(WriteFault);
        }
        rest = &rest[count..];
    }
    Ok(())
}
