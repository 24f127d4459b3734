//! What the command line names to be read: files by their paths, and standard input.
ghost use Rattle.std.specs.Prelude.{◌≡◌, IfErr};
ghost use Rattle.p21.specs.Statuses.{IsUnopened};

use crate::commands::Stopped;
use std::fs::{self, File};
use std::io::{self, ErrorKind, Read, Write};
use std::rt::Stdin;

/// The path that stands for standard input.
pub const STANDARD: &str = "-";

/// So many bytes are kept, by which it is told what an input is.
const MOST_KEPT: usize = 512;

/// A file, or standard input.
#[derive(Drop)]
pub enum Source {
    File(File),
    Standard(Stdin),
}

impl Read for Source {
    fn read(&mut self, buf: &mut [u8]) -> io::Result<usize> {
        match self {
            Source::File(file) => file.read(buf),
            Source::Standard(stdin) => stdin.read(buf),
        }
    }
}

/// A reader or a writer of which the first bytes are kept, and why a read failed.
#[derive(Drop)]
pub struct Kept<T> {
    inner: T,
    front: [u8; MOST_KEPT],
    used: usize,
    failed: Option<io::Error>,
}

impl<T> Kept<T> {
    /// Nothing is kept yet.
    pub fn new(inner: T) -> Kept<T>
        ensures { result.inner ≡ inner }
    {
        Kept {
            inner,
            front: [0; MOST_KEPT],
            used: 0,
            failed: None,
        }
    }

    /// The first bytes.
    pub fn front(&self) -> &[u8] {
        &self.front[..self.used.min(MOST_KEPT)]
    }

    /// Why a read failed.
    pub fn failed(&self) -> Option<io::Error> {
        self.failed
    }

    /// Keeps bytes, as long as they are the first ones.
    fn keep(&mut self, bytes: &[u8])
        ensures { self.new.inner ≡ self.old.inner }
    {
        let used = self.used.min(MOST_KEPT);
        let count = bytes.len().min(MOST_KEPT - used);
        self.front[used..used + count].copy_from_slice(&bytes[..count]);
        self.used = used + count;
    }
}

impl<R: Read> Read for Kept<R> {
    ghost remaining = { λ kept. R.remaining kept.inner };

    fn read(&mut self, buf: &mut [u8]) -> io::Result<usize> {
        let answer = self.inner.read(buf);
        match answer {
            Ok(count) => self.keep(&buf[..count]),
            Err(error) => self.failed = Some(error),
        }
        answer
    }
}

impl<W: Write> Write for Kept<W> {
    ghost contents = { λ kept. W.contents kept.inner };

    fn write(&mut self, buf: &[u8]) -> io::Result<usize> {
        self.keep(buf);
        self.inner.write(buf)
    }

    fn flush(&mut self) -> io::Result<()> {
        self.inner.flush()
    }
}

/// The inputs of a run, of which one may be standard input.
#[derive(Drop)]
pub struct Inputs {
    is_standard_read: bool,
}

impl Inputs {
    /// Inputs of which none is open.
    pub fn new() -> Inputs {
        Inputs {
            is_standard_read: false,
        }
    }

    /// Opens the file of a path, or standard input.
    pub fn open<'a>(&mut self, rt: &HostRuntime, path: &'a str) -> Result<Source, Stopped<'a>>
        ensures { IfErr result IsUnopened }
    {
        match self.open_source(rt, path) {
            Ok(source) => Ok(source),
            Err(error) => Err(Stopped::Unopened(path, error)),
        }
    }

    /// The same, with the error of the system.
    pub fn open_source(&mut self, rt: &HostRuntime, path: &str) -> io::Result<Source> {
        if path != STANDARD {
            return Ok(Source::File(fs::open(rt, path)?));
        }
        if self.is_standard_read {
            let twice = "standard input is named twice";
            return Err(io::Error::new(ErrorKind::ResourceBusy, twice));
        }
        self.is_standard_read = true;
        Ok(Source::Standard(rt.stdin()))
    }

    /// The text of a file, or of standard input.
    pub fn read_text(&mut self, rt: &HostRuntime, path: &str) -> io::Result<String> {
        io::read_to_string(rt.alloc(), self.open_source(rt, path)?)
    }
}
