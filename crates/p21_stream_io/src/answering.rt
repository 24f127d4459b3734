//! What the calls of a reader and of a writer may answer.
ghost use Rattle.std.specs.Prelude.{⊤, ℕ, List, Result};
ghost use Rattle.std.specs.Io.{ReadsAtMost, WritesAtMost};
ghost use Rattle.std.specs.Io.KnownBytes.{ReadConsumes, WriteAppends};
ghost use Rattle.std.specs.declared.io.Error.{Error};

use std::io::{self, Read, Write};

/// A reader with a relation that each of its reads keeps. Of a reader of whatever relation nothing else is known, so who
/// hands its reads on, and says that the relation is kept, hands on what each answered. Every `Read` is such a reader; its
/// own relation says nothing.
pub trait AnswersReads: Read {
    // Holds of the reader and the buffer before a read, its answer, and the buffer and the reader behind it.
    ghost may_read: { Self → List ℕ → Result ℕ Error → List ℕ → Self → Type 0 };

    /// One read.
    ///
    /// # Errors
    ///
    /// The reader's.
    fn read_once(&mut self, buf: &mut [u8]) -> io::Result<usize>
        ensures answer { may_read self.old buf.old result buf.new self.new }
        ensures bound { ReadsAtMost result buf.new }
        ensures bytes { ReadConsumes (Self.remaining self.old) (Self.remaining self.new) result buf.new };
}

impl<R: Read> AnswersReads for R {
    ghost may_read = { λ _ _ _ _ _. ⊤ };

    fn read_once(&mut self, buf: &mut [u8]) -> io::Result<usize> {
        self.read(buf)
    }
}

/// A writer with a relation that each of its writes keeps, as `AnswersReads` for a reader.
pub trait AnswersWrites: Write {
    // Holds of the writer before a write, the bytes, the answer, and the writer behind it.
    ghost may_write: { Self → List ℕ → Result ℕ Error → Self → Type 0 };

    /// One write.
    ///
    /// # Errors
    ///
    /// The writer's.
    fn write_once(&mut self, buf: &[u8]) -> io::Result<usize>
        ensures answer { may_write self.old buf.now result self.new }
        ensures bound { WritesAtMost result buf.now }
        ensures bytes { WriteAppends (Self.contents self.old) (Self.contents self.new) result buf.now };
}

impl<W: Write> AnswersWrites for W {
    ghost may_write = { λ _ _ _ _. ⊤ };

    fn write_once(&mut self, buf: &[u8]) -> io::Result<usize> {
        self.write(buf)
    }
}
