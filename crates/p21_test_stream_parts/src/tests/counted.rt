//! Readers and writers whose calls are counted.
use super::passes;
use p21_stream_io::{Waiting, Watched, read_piece, write_whole};
use std::alloc::Global;
use std::io::{self, Error, ErrorKind, Read, Write};

/// Gives its bytes some at a time, and fails behind so many calls.
#[derive(Clone, Copy)]
struct Slow<'a> {
    bytes: &'a [u8],
    most: usize,
    calls: u32,
}

impl Read for Slow<'_> {
    fn read(&mut self, buf: &mut [u8]) -> io::Result<usize> {
        if self.calls == 0 {
            return Err(Error::from(ErrorKind::Other));
        }
        self.calls -= 1;
        let count = buf.len().min(self.most).min(self.bytes.len());
        buf[..count].copy_from_slice(&self.bytes[..count]);
        self.bytes = &self.bytes[count..];
        Ok(count)
    }
}

/// Takes some bytes at a time, and none once it is full; looks whether they are those of a text.
#[derive(Clone, Copy)]
struct Narrow<'a> {
    // What is to come yet: none where something else came.
    rest: Option<&'a [u8]>,
    most: usize,
    room: usize,
}

impl Narrow<'_> {
    /// How many bytes of the text are to come yet: none where something else came.
    fn left(&self) -> Option<usize> {
        match self.rest {
            Some(rest) => Some(rest.len()),
            None => None,
        }
    }
}

/// What is to come of a text behind these bytes: none where they are others.
fn behind<'a>(rest: Option<&'a [u8]>, bytes: &[u8]) -> Option<&'a [u8]> {
    match rest {
        Some(rest) => rest.strip_prefix(bytes),
        None => None,
    }
}

impl Write for Narrow<'_> {
    fn write(&mut self, buf: &[u8]) -> io::Result<usize> {
        let count = buf.len().min(self.most).min(self.room);
        self.rest = behind(self.rest, &buf[..count]);
        self.room -= count;
        Ok(count)
    }

    fn flush(&mut self) -> io::Result<()> {
        Ok(())
    }
}

/// The name of a wrong call, or else what is wrong behind all calls: "none" where nothing is.
fn named(wrong: Option<&'static str>, is_left: bool) -> &'static str {
    match wrong {
        Some(name) => name,
        None if is_left => "the bytes that are left",
        None => "none",
    }
}

/// A call of a reader.
#[derive(Clone, Copy)]
enum Reading {
    Bytes,
    /// A piece of which at most so many bytes are wanted.
    Piece(u64),
}

/// Calls one after another, by their names: how many bytes each gives, if it doesn't fail, and how many calls have moved
/// bytes and how many have failed then.
type Readings = &'static [(&'static str, Reading, Option<usize>, (u64, u64))];

fn read_by(reader: &mut Watched<Slow<'_>>, call: Reading) -> Option<usize> {
    let mut piece = [0; 8];
    match call {
        Reading::Bytes => reader.read(&mut piece).ok(),
        Reading::Piece(most) => read_piece(reader, &mut piece, most).ok(),
    }
}

/// The name of the first call that gives something else.
fn first_wrong_reading(reader: &mut Watched<Slow<'_>>, readings: Readings) -> Option<&'static str> {
    for (name, call, count, counts) in readings {
        if read_by(reader, *call) != *count || (reader.moved(), reader.failures()) != *counts {
            return Some(*name);
        }
    }
    None
}

/// The same of a reader of five bytes, which are all given in the end.
fn wrong_reading(most: usize, calls: u32, readings: Readings) -> &'static str {
    let mut reader = Watched::new(Slow {
        bytes: b"abcde",
        most,
        calls,
    });
    let wrong = first_wrong_reading(&mut reader, readings);
    named(wrong, !reader.into_inner().bytes.is_empty())
}

const COUNTED: Readings = &[
    ("bytes", Reading::Bytes, Some(3), (1, 0)),
    ("a piece", Reading::Piece(100), Some(2), (2, 0)),
    ("a piece at the end", Reading::Piece(100), Some(0), (2, 0)),
    ("bytes at the end", Reading::Bytes, Some(0), (2, 0)),
    ("a piece that fails", Reading::Piece(100), None, (2, 1)),
    ("bytes that fail", Reading::Bytes, None, (2, 2)),
];

const WANTED: Readings = &[
    ("two bytes", Reading::Piece(2), Some(3), (1, 0)),
    ("no byte", Reading::Piece(0), Some(1), (2, 0)),
    ("all bytes", Reading::Piece(u64::MAX), Some(1), (3, 0)),
];

/// A call of a writer.
#[derive(Clone, Copy)]
enum Writing {
    Bytes(&'static [u8]),
    Whole(&'static [u8]),
}

/// Calls one after another, by their names: how many bytes each takes, if it doesn't fail, and how many calls have moved
/// bytes and how many have failed then.
type Writings = &'static [(&'static str, Writing, Option<usize>, (u64, u64))];

fn write_by(writer: &mut Watched<Narrow<'_>>, call: Writing) -> Option<usize> {
    match call {
        Writing::Bytes(bytes) => writer.write(bytes).ok(),
        Writing::Whole(bytes) => match write_whole(writer, bytes) {
            Ok(()) => Some(bytes.len()),
            Err(_) => None,
        },
    }
}

/// The name of the first call that takes something else.
fn first_wrong_writing(
    writer: &mut Watched<Narrow<'_>>,
    writings: Writings,
) -> Option<&'static str> {
    for (name, call, count, counts) in writings {
        if write_by(writer, *call) != *count || (writer.moved(), writer.failures()) != *counts {
            return Some(*name);
        }
    }
    None
}

/// The same of a writer of two bytes a call, that gets these five in the end and no more.
fn wrong_writing(writings: Writings) -> &'static str {
    let mut writer = Watched::new(Narrow {
        rest: Some(b"abcde"),
        most: 2,
        room: 5,
    });
    let wrong = first_wrong_writing(&mut writer, writings);
    named(wrong, writer.into_inner().left() != Some(0))
}

const WRITTEN: Writings = &[
    ("no bytes", Writing::Bytes(b""), Some(0), (0, 0)),
    ("a whole text", Writing::Whole(b"abc"), Some(3), (2, 0)),
    ("a text that fails", Writing::Whole(b"def"), None, (3, 1)),
];

/// A call of bytes that wait.
#[derive(Clone, Copy)]
enum Waits {
    /// From one byte of a text to another.
    Put(usize, usize),
    Flush,
}

/// Calls one after another, by their names: whether each is done, and how many calls of the writer have moved bytes and how
/// many have failed then.
type Waitings = &'static [(&'static str, Waits, bool, (u64, u64))];

fn part_of(text: &[u8], from: usize, to: usize) -> &[u8] {
    let (front, _) = text.split_at(to.min(text.len()));
    let (_, part) = front.split_at(from.min(front.len()));
    part
}

fn wait_by(
    waiting: &mut Waiting,
    writer: &mut Watched<Narrow<'_>>,
    text: &[u8],
    call: Waits,
) -> bool {
    match call {
        Waits::Put(from, to) => waiting.put(writer, part_of(text, from, to)).is_ok(),
        Waits::Flush => waiting.flush(writer).is_ok(),
    }
}

/// The name of the first call that does something else.
fn first_wrong_wait(
    writer: &mut Watched<Narrow<'_>>,
    text: &[u8],
    waitings: Waitings,
) -> Option<&'static str> {
    let mut waiting = Waiting::new();
    for (name, call, is_done, counts) in waitings {
        if wait_by(&mut waiting, writer, text, *call) != *is_done
            || (writer.moved(), writer.failures()) != *counts
        {
            return Some(*name);
        }
    }
    None
}

/// The same of a writer that gets all but so many bytes of a text.
fn wrong_wait(
    text: &[u8],
    (most, room): (usize, usize),
    waitings: Waitings,
    left: usize,
) -> &'static str {
    let rest = Some(text);
    let mut writer = Watched::new(Narrow { rest, most, room });
    let wrong = first_wrong_wait(&mut writer, text, waitings);
    named(wrong, writer.into_inner().left() != Some(left))
}

const LONG: Waitings = &[
    ("one byte", Waits::Put(0, 1), true, (0, 0)),
    (
        "more than there is room",
        Waits::Put(1, 70_001),
        true,
        (2, 0),
    ),
    (
        "nearly all the room",
        Waits::Put(70_001, 130_001),
        true,
        (2, 0),
    ),
    ("past the room", Waits::Put(130_001, 136_001), true, (3, 0)),
    ("the rest", Waits::Flush, true, (4, 0)),
];

fn wrong_of_long(alloc: Global) -> &'static str {
    match vec![in alloc; b'x'; 136_001] {
        Ok(text) => wrong_wait(&text, (100_000, 200_000), LONG, 0),
        Err(_) => "the text itself",
    }
}

const FAILED: Waitings = &[
    ("bytes that wait", Waits::Put(0, 13), true, (0, 0)),
    ("a writer that is full", Waits::Flush, false, (2, 1)),
    ("nothing that waits", Waits::Flush, true, (2, 1)),
];

const PUSHED_OUT: Waitings = &[
    ("bytes that wait", Waits::Put(0, 60_000), true, (0, 0)),
    (
        "more than there is room",
        Waits::Put(60_000, 70_000),
        false,
        (1, 1),
    ),
    ("nothing that waits", Waits::Flush, true, (1, 1)),
];

/// The writer is full when bytes that wait make room for more.
fn wrong_of_pushed_out(alloc: Global) -> &'static str {
    match vec![in alloc; b'x'; 70_000] {
        Ok(text) => wrong_wait(&text, (100_000, 50_000), PUSHED_OUT, 20_000),
        Err(_) => "the text itself",
    }
}

#[test]
fn counts_reads_and_writes(rt: HostRuntime) {
    passes(&rt, wrong_reading(3, 4, COUNTED));
    passes(&rt, wrong_reading(9, 9, WANTED));
    passes(&rt, wrong_writing(WRITTEN));
}

/// None waits behind a fault: neither of the writer at the end, nor where more come than there is room.
#[test]
fn has_bytes_wait(rt: HostRuntime) {
    passes(&rt, wrong_of_long(rt.alloc()));
    passes(&rt, wrong_wait(b"ISO-10303-21;", (3, 4), FAILED, 9));
    passes(&rt, wrong_of_pushed_out(rt.alloc()));
}
