//! A reader of which what it gives is kept, so that it can be read once more, also where it is standard input.
ghost use Rattle.std.specs.Prelude.{◌≡◌};

use std::alloc::Global;
use std::io::{self, Read};

/// A reader of which all that it gives is kept, where that is asked for.
#[derive(Drop)]
pub struct Recorded<R> {
    inner: R,
    // None where nothing is kept: memory was refused for it, or nobody asked.
    bytes: Option<Vec<u8>>,
}

impl<R> Recorded<R> {
    /// A reader of which nothing is read yet. It takes no memory.
    pub fn new(alloc: Global, inner: R, is_kept: bool) -> Recorded<R>
        ensures { result.inner ≡ inner }
    {
        let bytes = if is_kept { Some(Vec::new(alloc)) } else { None };
        Recorded { inner, bytes }
    }

    /// All that was read, where it is kept.
    pub fn bytes(&self) -> Option<&[u8]> {
        match &self.bytes {
            Some(bytes) => Some(bytes),
            None => None,
        }
    }

    /// The reader, as its calls left it.
    pub fn into_inner(self) -> R
        ensures { result ≡ self.inner }
    {
        let Recorded { inner, .. } = self;
        inner
    }

    /// Keeps bytes; where memory is refused for them, nothing is kept any more.
    fn keep(&mut self, new: &[u8])
        ensures { self.new.inner ≡ self.old.inner }
    {
        let is_kept = match &mut self.bytes {
            Some(bytes) => bytes.extend_from_slice(new).is_ok(),
            None => false,
        };
        if !is_kept {
            self.bytes = None;
        }
    }
}

impl<R: Read> Read for Recorded<R> {
    ghost remaining = { λ recorded. R.remaining recorded.inner };

    fn read(&mut self, buf: &mut [u8]) -> io::Result<usize> {
        let answer = self.inner.read(buf);
        if let Ok(count) = answer {
            self.keep(&buf[..count]);
        }
        answer
    }
}
