//! Bytes on their way to a writer.
ghost use Rattle.std.specs.Prelude.{◌≡◌, ◌+◌, ◌≤◌, [], ◌++◌, length, OnErr, OnOk};
ghost use Rattle.std.specs.Io.KnownBytes.{Appends};
ghost use Rattle.p21_stream_io.specs.Transfer.{AppendsAllBut, AppendsPartOf};
ghost use Rattle.p21_stream_io.specs.Watch.{one_call_more};

use crate::fault::WriteFault;
use crate::transfer::write_whole;
use crate::watched::Watched;
use std::io::Write;
use std::marker::Model;

/// The bytes that may wait.
const MOST_WAITING: usize = 65_536;

/// Bytes that wait to be written, so that a writer gets many at once. Whoever lets go of it while bytes wait loses them.
#[derive(Drop)]
pub struct Waiting {
    bytes: [u8; MOST_WAITING],
    used: usize,
}

impl Model for Waiting {
    ghost use Rattle.std.specs.Prelude.{◌≤◌, List, take, ℕ};

    ghost Value = { List ℕ };

    ghost view = { λ a. take a.used a.bytes };

    ghost invariant = { λ a. a.used ≤ 65536 };
}

impl Waiting {
    /// No byte waits.
    pub fn new() -> Waiting
        ensures { result ≡ [] }
    {
        Waiting {
            bytes: [0; MOST_WAITING],
            used: 0,
        }
    }

    /// How many more bytes may wait.
    fn room(&self) -> usize
        ensures { length self.now + result ≡ MOST_WAITING }
    {
        MOST_WAITING - self.used
    }

    /// Has more bytes wait.
    fn keep(&mut self, bytes: &[u8])
        requires { length self.old + length bytes.now ≤ MOST_WAITING }
        ensures { self.new ≡ self.old ++ bytes.now }
    {
        let end = self.used + bytes.len();
        self.bytes[self.used..end].copy_from_slice(bytes);
        self.used = end;
    }

    /// Writes the bytes that wait. None waits behind it.
    ///
    /// # Errors
    ///
    /// `WriteFault` where a write answers an error, whatever its kind, or takes none of some bytes.
    pub fn flush<W: Write>(&mut self, writer: &mut Watched<W>) -> Result<(), WriteFault>
        ensures ok { OnOk result (Appends (W.contents writer.old.inner) (W.contents writer.new.inner) self.old × (self.new ≡ [])) }
        ensures err { OnErr result (AppendsPartOf (W.contents writer.old.inner) (W.contents writer.new.inner) self.old) }
        ensures none_waits { OnErr result (self.new ≡ []) }

        ensures written { OnOk result (writer.new.failures ≡ writer.old.failures) }
        ensures failed { OnErr result (writer.new.failures ≡ one_call_more writer.old.failures) }
    {
        let flushed = write_whole(writer, &self.bytes[..self.used]);
        self.used = 0;
        flushed
    }

    /// Writes more bytes behind those that wait, or has them wait too.
    ///
    /// # Errors
    ///
    /// `WriteFault` where a write answers an error, whatever its kind, or takes none of some bytes. None waits behind it.
    pub fn put<W: Write>(&mut self, writer: &mut Watched<W>, bytes: &[u8]) -> Result<(), WriteFault>
        ensures ok { OnOk result (AppendsAllBut (W.contents writer.old.inner) (W.contents writer.new.inner) (self.old ++ bytes.now) self.new) }
        ensures err { OnErr result (AppendsPartOf (W.contents writer.old.inner) (W.contents writer.new.inner) (self.old ++ bytes.now)) }
        ensures none_waits { OnErr result (self.new ≡ []) }

        ensures written { OnOk result (writer.new.failures ≡ writer.old.failures) }
        ensures failed { OnErr result (writer.new.failures ≡ one_call_more writer.old.failures) }
    {
        if bytes.len() <= self.room() {
            self.keep(bytes);
            return Ok(());
        }
        let Ok(()) = self.flush(writer) else {
            return Err(WriteFault);
        };
        if bytes.len() <= MOST_WAITING {
            self.keep(bytes);
            return Ok(());
        }
        let Ok(()) = write_whole(writer, bytes) else {
            return Err(WriteFault);
        };
        Ok(())
    }
}
