//! Readers and writers that are watched: each call answers as by itself.
use crate::devices::Behind::{self, Ends, Fails};
use crate::devices::Full::{self, TakesNone};
use crate::devices::{SmallReader, SmallWriter};
use p21_stream::Watched;
use std::alloc::Global;
use std::io::{self, ErrorKind};

/// How many bytes a call moved, or the kind of its error.
type Answer = Result<usize, ErrorKind>;

fn answer_of(answered: io::Result<usize>) -> Answer {
    match answered {
        Ok(count) => Ok(count),
        Err(error) => Err(error.kind()),
    }
}

/// The bytes of a reader, how many it gives a call, what it does behind the last, and what the first call into room for
/// eight bytes answers.
const READERS: &[(&str, usize, Behind, Answer)] = &[
    ("abcdefghij", 100, Ends, Ok(8)),
    ("abcdefghij", 5, Ends, Ok(5)),
    ("abcdefghij", 1, Fails, Ok(1)),
    ("abc", 100, Fails, Ok(3)),
    ("", 100, Ends, Ok(0)),
    ("", 100, Fails, Err(ErrorKind::Interrupted)),
];

/// Whether the first call answers so, and the room then begins with the bytes that it gives.
fn reads(reader: SmallReader, wanted: Answer) -> bool {
    let bytes = reader.bytes;
    let mut watched = Watched::new(reader);
    let mut room = [0; 8];
    let answer = answer_of(watched.read(&mut room));
    let count = answer.unwrap_or(0);
    answer == wanted && bytes.starts_with(&room[..count.min(8)])
}

/// The index of the first reader with another answer.
fn first_reader() -> Option<usize> {
    for (place, (text, most, then, wanted)) in READERS.iter().enumerate() {
        let reader = SmallReader {
            bytes: text.as_bytes(),
            most: *most,
            then: *then,
        };
        if !reads(reader, *wanted) {
            return Some(place);
        }
    }
    None
}

#[test]
fn reads_as_the_reader_does(rt: HostRuntime) {
    assert_eq!(rt; first_reader(), None);
}

/// How many bytes a writer takes a call and in all, what it does then, and what the first write of eight bytes answers.
const WRITERS: &[(usize, usize, Full, Answer)] = &[
    (100, 100, TakesNone, Ok(8)),
    (5, 100, TakesNone, Ok(5)),
    (1, 100, TakesNone, Ok(1)),
    (100, 3, TakesNone, Ok(3)),
    (100, 0, TakesNone, Ok(0)),
    (100, 0, Full::Fails, Err(ErrorKind::Interrupted)),
];

/// Whether the first write answers so, and the writer then has the bytes that it took.
fn writes(alloc: Global, space: (usize, usize), then: Full, wanted: Answer) -> bool {
    let mut watched = Watched::new(SmallWriter::new(alloc, space, then));
    let answer = answer_of(watched.write(b"abcdefgh"));
    let count = answer.unwrap_or(0);
    answer == wanted && watched.into_inner().taken.as_slice() == &b"abcdefgh"[..count.min(8)]
}

/// The index of the first writer with another answer.
fn first_writer(alloc: Global) -> Option<usize> {
    for (place, (most, room, then, wanted)) in WRITERS.iter().enumerate() {
        if !writes(alloc, (*most, *room), *then, *wanted) {
            return Some(place);
        }
    }
    None
}

#[test]
fn writes_as_the_writer_does(rt: HostRuntime) {
    assert_eq!(rt; first_writer(rt.alloc()), None);
}
