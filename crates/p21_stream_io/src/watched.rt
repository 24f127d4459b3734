//! A reader or a writer whose calls are counted.
//!
//! A watched reader or writer has methods of its own rather than impls of `Read` and `Write`, so that no call can
//! bypass the counts (`read_to_end` and `write_all` of std retry interrupted calls).
ghost use Rattle.std.specs.Prelude.{◌≡◌};
ghost use Rattle.std.specs.Io.{ReadsAtMost, WritesAtMost};
ghost use Rattle.std.specs.Io.KnownBytes.{ReadConsumes, WriteAppends};
ghost use Rattle.p21_stream_io.specs.Watch.{failures_after_read, failures_after_write, moved_after};

use crate::answering::{AnswersReads, AnswersWrites};
use std::io;
use std::marker::Model;

/// A reader or a writer with the counts of its calls: those that moved bytes, and those that failed, which are the
/// calls that answered an error and the writes of some bytes that took none. A count that has reached `u64::MAX` stays
/// there.
#[derive(Debug, Drop)]
pub struct Watched<T> {
    inner: T,
    moved: u64,
    failures: u64,
}

impl<T> Model for Watched<T> {
    ghost use Rattle.p21_stream_io.specs.Watch.{Watch};

    ghost Value = { Watch T };

    ghost view = { λ w. record { inner = w.inner; moved = w.moved; failures = w.failures } };
}

impl<T> Watched<T> {
    /// No call is counted yet. It takes no memory.
    pub fn new(inner: T) -> Watched<T>
        ensures inner { result.inner ≡ inner }
        ensures moved { result.moved ≡ 0 }
        ensures failures { result.failures ≡ 0 }
    {
        Watched {
            inner,
            moved: 0,
            failures: 0,
        }
    }

    /// The reader or writer, as its calls left it. It takes no memory.
    pub fn into_inner(self) -> T
        ensures { result ≡ self.inner }
    {
        let Watched { inner, .. } = self;
        inner
    }

    /// How many calls moved bytes. It takes no memory.
    pub fn moved(&self) -> u64
        ensures { result ≡ self.now.moved }
    {
        self.moved
    }

    /// How many calls failed. It takes no memory.
    pub fn failures(&self) -> u64
        ensures { result ≡ self.now.failures }
    {
        self.failures
    }
}

impl<T: AnswersReads> Watched<T> {
    /// Reads as the reader does: one read, whose answer is handed on. It takes no memory of its own.
    ///
    /// # Errors
    ///
    /// The reader's.
    pub fn read(&mut self, buf: &mut [u8]) -> io::Result<usize>
        ensures answer { T.may_read self.old.inner buf.old result buf.new self.new.inner }
        ensures bound { ReadsAtMost result buf.new }
        ensures bytes { ReadConsumes (T.remaining self.old.inner) (T.remaining self.new.inner) result buf.new }
        ensures moved { self.new.moved ≡ moved_after self.old.moved result }
        ensures failures { self.new.failures ≡ failures_after_read self.old.failures result }
    {
        let answer = self.inner.read_once(buf);
        match &answer {
            Ok(0) => {}
            Ok(_) => self.moved = self.moved.saturating_add(1),
            Err(_) => self.failures = self.failures.saturating_add(1),
        }
        answer
    }
}

impl<T: AnswersWrites> Watched<T> {
    /// Writes as the writer does: one write, whose answer is handed on. It takes no memory of its own.
    ///
    /// # Errors
    ///
    /// The writer's.
    pub fn write(&mut self, buf: &[u8]) -> io::Result<usize>
        ensures answer { T.may_write self.old.inner buf.now result self.new.inner }
        ensures bound { WritesAtMost result buf.now }
        ensures bytes { WriteAppends (T.contents self.old.inner) (T.contents self.new.inner) result buf.now }
        ensures moved { self.new.moved ≡ moved_after self.old.moved result }
        ensures failures { self.new.failures ≡ failures_after_write self.old.failures buf.now result }
    {
        let answer = self.inner.write_once(buf);
        match &answer {
            Ok(0) => {
                if !buf.is_empty() {
                    self.failures = self.failures.saturating_add(1);
                }
            }
            Ok(_) => self.moved = self.moved.saturating_add(1),
            Err(_) => self.failures = self.failures.saturating_add(1),
        }
        answer
    }
}
