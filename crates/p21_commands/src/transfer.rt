//! Reading and writing whole texts.
ghost use Rattle.std.specs.Prelude.{◌≡◌, ◌⊎◌, [], ◌∷◌, IfOk, IfErr, OnOk, OnErr};
ghost use Rattle.std.specs.Io.KnownBytes.{Appends};
ghost use Rattle.p21_commands.specs.Failures.{FailedBy, failures_of};
ghost use Rattle.p21_commands.specs.Transfer.{ConsumesAtMost, GivesText};
ghost use Rattle.p21_stream_io.specs.Transfer.{AppendsPartOf};
ghost use Rattle.p21_stream_io.specs.Watch.{one_call_more};

use crate::fault::CommandFault;
use p21_stream_io::Watched;
use std::alloc::Global;
use std::io::{Read, Write};

/// The most bytes of a text that are read: one more than a text may have.
pub(crate) const MOST_READ: usize = 16_777_217;

/// The bytes that one read may give.
const PIECE: usize = 65_536;

/// The bytes of a reader, or the first `MOST_READ` where there are more. A read that answers an error is a read fault,
/// whatever its kind.
pub(crate) fn read_text<R: Read>(
    alloc: Global,
    reader: &mut Watched<R>,
) -> Result<Vec<u8>, CommandFault>
    ensures text { IfOk result (λ text. GivesText (R.remaining reader.old.inner) text.items) }
    ensures fault { IfErr result (λ fault. (fault ≡ CommandFault.NoMemory) ⊎ (fault ≡ CommandFault.Read)) }
    ensures consumed { ConsumesAtMost (R.remaining reader.old.inner) (R.remaining reader.new.inner) }

    ensures read { OnOk result (reader.new.failures ≡ reader.old.failures) }
    ensures failed { IfErr result (FailedBy (failures_of reader.old reader.new ∷ []) []) }
{
    let mut text = Vec::new(alloc);
    let mut piece = [0; PIECE];
    while text.len() < MOST_READ {
        let room = PIECE.min(MOST_READ - text.len());
        let Ok(count) = reader.read(&mut piece[..room]) else {
            return Err(CommandFault::Read);
        };
        if count == 0 {
            return Ok(text);
        }
        text.extend_from_slice(&piece[..count])?;
    }
    Ok(text)
}

/// Writes all the bytes. A write that answers an error, whatever its kind, or takes none of some bytes is a write fault.
pub(crate) fn write_whole<W: Write>(
    writer: &mut Watched<W>,
    bytes: &[u8],
) -> Result<(), CommandFault>
    ensures ok { OnOk result (Appends (W.contents writer.old.inner) (W.contents writer.new.inner) bytes.now) }
    ensures err { OnErr result (AppendsPartOf (W.contents writer.old.inner) (W.contents writer.new.inner) bytes.now) }
    ensures fault { IfErr result (λ fault. fault ≡ CommandFault.Write) }

    ensures written { OnOk result (writer.new.failures ≡ writer.old.failures) }
    ensures failed { OnErr result (writer.new.failures ≡ one_call_more writer.old.failures) }
{
    match p21_stream_io::write_whole(writer, bytes) {
        Ok(()) => Ok(()),
        Err(_) => Err(CommandFault::Write),
    }
}
