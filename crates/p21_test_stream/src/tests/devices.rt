//! Readers and writers over memory that give and take little at a time, and fail.
use std::io::{self, Error, ErrorKind, Read, Write};

/// Gives bytes some at a time, and fails behind so many calls.
#[derive(Clone, Copy)]
pub(super) struct Slow<'a> {
    pub bytes: &'a [u8],
    pub most: usize,
    pub calls: usize,
}

impl Read for Slow<'_> {
    fn read(&mut self, buf: &mut [u8]) -> io::Result<usize> {
        if self.calls == 0 {
            return Err(Error::from(ErrorKind::Interrupted));
        }
        self.calls -= 1;
        let count = buf.len().min(self.most).min(self.bytes.len());
        buf[..count].copy_from_slice(&self.bytes[..count]);
        self.bytes = &self.bytes[count..];
        Ok(count)
    }
}

/// What a reader gives.
#[derive(Clone, Copy)]
pub(super) enum Source<'a> {
    Bytes(Slow<'a>),
    /// Spaces for ever.
    Endless,
}

impl Read for Source<'_> {
    fn read(&mut self, buf: &mut [u8]) -> io::Result<usize> {
        match self {
            Source::Bytes(slow) => slow.read(buf),
            Source::Endless => {
                buf.fill(b' ');
                Ok(buf.len())
            }
        }
    }
}

/// A reader that gives all bytes of a text at once.
pub(super) fn reader_of(bytes: &[u8]) -> Source<'_> {
    Source::Bytes(Slow {
        bytes,
        most: usize::MAX,
        calls: usize::MAX,
    })
}

/// How many bytes a writer takes a call, how many in all, and what it does once it is full.
#[derive(Clone, Copy)]
pub(super) struct Space {
    pub most: usize,
    pub room: usize,
    pub then: Full,
}

/// What a full writer answers.
#[derive(Clone, Copy)]
pub(super) enum Full {
    TakesNone,
    Fails,
}

/// Space for each file.
pub(super) const AMPLE: Space = Space {
    most: usize::MAX,
    room: usize::MAX,
    then: Full::Fails,
};

/// Looks whether it is given a text, in so much space.
#[derive(Clone, Copy)]
pub(super) struct Narrow<'a> {
    // What is to come yet: none where something else came.
    rest: Option<&'a [u8]>,
    space: Space,
}

impl<'a> Narrow<'a> {
    pub(super) fn new(text: &'a [u8], space: Space) -> Narrow<'a> {
        Narrow {
            rest: Some(text),
            space,
        }
    }

    /// How many bytes of the text are to come yet: none where something else came.
    pub(super) fn left(&self) -> Option<usize> {
        match self.rest {
            Some(rest) => Some(rest.len()),
            None => None,
        }
    }
}

/// What is to come of a text behind these bytes: none where they are others.
fn behind<'a>(rest: Option<&'a [u8]>, bytes: &[u8]) -> Option<&'a [u8]> {
    match rest {
        Some(rest) => rest.strip_prefix(bytes),
        None => None,
    }
}

impl Write for Narrow<'_> {
    fn write(&mut self, buf: &[u8]) -> io::Result<usize> {
        let count = buf.len().min(self.space.most).min(self.space.room);
        if count == 0 {
            return match self.space.then {
                Full::TakesNone => Ok(0),
                Full::Fails => Err(Error::from(ErrorKind::Interrupted)),
            };
        }
        self.rest = behind(self.rest, &buf[..count]);
        self.space.room -= count;
        Ok(count)
    }

    fn flush(&mut self) -> io::Result<()> {
        Ok(())
    }
}
