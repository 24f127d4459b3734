//! Readers and writers that give and take little, and fail.
use std::alloc::Global;
use std::io::{self, Error, ErrorKind, Read, Write};

/// What a reader does behind its last byte.
#[derive(Clone, Copy)]
pub(crate) enum Behind {
    Ends,
    Fails,
}

/// Gives its bytes, so many a call.
#[derive(Clone, Copy)]
pub(crate) struct SmallReader<'a> {
    pub(crate) bytes: &'a [u8],
    pub(crate) most: usize,
    pub(crate) then: Behind,
}

impl Read for SmallReader<'_> {
    fn read(&mut self, buf: &mut [u8]) -> io::Result<usize> {
        if self.bytes.is_empty() {
            return match self.then {
                Behind::Ends => Ok(0),
                Behind::Fails => Err(Error::from(ErrorKind::Interrupted)),
            };
        }
        let count = buf.len().min(self.most).min(self.bytes.len());
        buf[..count].copy_from_slice(&self.bytes[..count]);
        self.bytes = &self.bytes[count..];
        Ok(count)
    }
}

/// Gives spaces for ever, and counts them.
#[derive(Drop)]
pub(crate) struct EndlessReader {
    pub(crate) given: u64,
}

impl Read for EndlessReader {
    fn read(&mut self, buf: &mut [u8]) -> io::Result<usize> {
        buf.fill(b' ');
        self.given = self.given.saturating_add(buf.len() as u64);
        Ok(buf.len())
    }
}

/// What a writer does once it is full.
#[derive(Clone, Copy)]
pub(crate) enum Full {
    TakesNone,
    Fails,
}

/// Takes so many bytes a call while it has room.
#[derive(Drop)]
pub(crate) struct SmallWriter {
    pub(crate) taken: Vec<u8>,
    most: usize,
    room: usize,
    then: Full,
}

impl SmallWriter {
    pub(crate) fn new(alloc: Global, (most, room): (usize, usize), then: Full) -> SmallWriter {
        SmallWriter {
            taken: Vec::new(alloc),
            most,
            room,
            then,
        }
    }
}

impl Write for SmallWriter {
    fn write(&mut self, buf: &[u8]) -> io::Result<usize> {
        let count = buf.len().min(self.most).min(self.room);
        if count == 0 {
            return match self.then {
                Full::TakesNone => Ok(0),
                Full::Fails => Err(Error::from(ErrorKind::Interrupted)),
            };
        }
        self.taken.extend_from_slice(&buf[..count])?;
        self.room -= count;
        Ok(count)
    }

    fn flush(&mut self) -> io::Result<()> {
        Ok(())
    }
}
