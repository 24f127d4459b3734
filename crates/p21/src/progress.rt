//! How much of a file is read, said on the way.
//!
//! `--progress` writes to a terminal alone. For a script, standard error stays the one line of a fault. A line that
//! can't be written is dropped, and the commands know nothing about it: they read through a reader that counts.
ghost use Rattle.std.specs.Prelude.{◌≡◌};

use std::io::{self, Read, Write};

/// So many MiB are read between two lines.
const STEP: u64 = 64;

/// The bytes of a MiB.
const MEBIBYTE: u64 = 1_048_576;

/// A reader that says, where it has a writer for it, how much was read: a line for each step. A line that can't be written
/// is dropped.
#[derive(Drop)]
pub struct ProgressReader<'a, R, W> {
    inner: R,
    path: &'a str,
    lines: Option<W>,
    taken: u64,
}

impl<'a, R, W> ProgressReader<'a, R, W> {
    /// A reader of which nothing is read yet.
    pub fn new(inner: R, path: &'a str, lines: Option<W>) -> ProgressReader<'a, R, W>
        ensures { result.inner ≡ inner }
    {
        ProgressReader {
            inner,
            path,
            lines,
            taken: 0,
        }
    }
}

impl<'a, R, W: Drop> ProgressReader<'a, R, W> {
    /// The reader, as its calls left it.
    pub fn into_inner(self) -> R
        ensures { result ≡ self.entry.inner }
    {
        let ProgressReader { inner, .. } = self;
        inner
    }
}

impl<'a, R, W: Write> ProgressReader<'a, R, W> {
    /// Counts the bytes of one read.
    fn count(&mut self, bytes: u64)
        ensures { self.new.inner ≡ self.old.inner }
    {
        let before = self.taken / MEBIBYTE / STEP;
        self.taken = self.taken.saturating_add(bytes);
        let steps = self.taken / MEBIBYTE / STEP;
        if steps == before {
            return;
        }
        if let Some(lines) = &mut self.lines {
            let _ = writeln!(lines, "{}: {} MiB read", self.path, steps * STEP);
        }
    }
}

impl<'a, R: Read, W: Write> Read for ProgressReader<'a, R, W> {
    ghost remaining = { λ told. R.remaining told.inner };

    fn read(&mut self, buf: &mut [u8]) -> io::Result<usize> {
        let answer = self.inner.read(buf);
        if let Ok(count) = answer {
            self.count(count as u64);
        }
        answer
    }
}
