//! A reader that keeps where lines begin.
ghost use Rattle.std.specs.Prelude.{◌≡◌};

use p21_commands::LineStarts;
use std::alloc::Global;
use std::io::{self, Read};

/// A reader that keeps, where it is asked to, where the lines begin of what it gives.
#[derive(Drop)]
pub struct Lines<R> {
    inner: R,
    starts: LineStarts,
}

impl<R> Lines<R> {
    /// A reader of which nothing is read yet. It takes no memory.
    pub fn new(alloc: Global, inner: R, is_kept: bool) -> Lines<R>
        ensures { result.inner ≡ inner }
    {
        Lines {
            inner,
            starts: LineStarts::new(alloc, is_kept),
        }
    }

    /// The reader.
    pub fn inner(&self) -> &R {
        &self.inner
    }

    /// Where lines begin in what was read.
    pub fn starts(&self) -> &LineStarts {
        &self.starts
    }
}

impl<R> Lines<R> {
    /// The reader, as its calls left it.
    pub fn into_inner(self) -> R
        ensures { result ≡ self.inner }
    {
        let Lines { inner, .. } = self;
        inner
    }
}

impl<R: Read> Read for Lines<R> {
    ghost remaining = { λ lines. R.remaining lines.inner };

    fn read(&mut self, buf: &mut [u8]) -> io::Result<usize> {
        let answer = self.inner.read(buf);
        if let Ok(count) = answer {
            self.starts.take(&buf[..count]);
        }
        answer
    }
}
