//! A writer of lines, each with a name in front.
use crate::shown::Shown;
use p21_stream_io::{Waiting, Watched, WriteFault};
use std::alloc::{AllocError, Global};
use std::io::{self, ErrorKind, Write};

/// Writes the name, a colon and a blank in front of each line.
#[derive(Drop)]
pub struct Named<W> {
    inner: Watched<W>,
    front: String,
    is_inside: bool,
}

impl<W: Drop> Named<W> {
    /// No line is begun.
    pub fn new(alloc: Global, name: &str, inner: W) -> Result<Named<W>, AllocError> {
        let name = Shown(name);
        Ok(Named {
            inner: Watched::new(inner),
            front: format!(in alloc; "{name}: ")?,
            is_inside: false,
        })
    }
}

impl<W: Write> Named<W> {
    /// Writes lines, with what stands in front of them.
    fn write_lines(&mut self, buf: &[u8]) -> Result<(), WriteFault> {
        let mut waiting = Waiting::new();
        for line in buf.split_inclusive(|byte| *byte == b'\n') {
            if !self.is_inside {
                waiting.put(&mut self.inner, self.front.as_bytes())?;
            }
            waiting.put(&mut self.inner, line)?;
            self.is_inside = line.last() != Some(&b'\n');
        }
        waiting.flush(&mut self.inner)
    }
}

impl<W: Write> Write for Named<W> {
    fn write(&mut self, buf: &[u8]) -> io::Result<usize> {
        match self.write_lines(buf) {
            Ok(()) => Ok(buf.len()),
            Err(WriteFault) => Err(io::Error::from(ErrorKind::Other)),
        }
    }

    fn flush(&mut self) -> io::Result<()> {
        Ok(())
    }
}
