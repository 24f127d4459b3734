//! A lexer that is taken back, behind bytes in any state.
use super::*;

/// Bytes, and in front of which byte of the file the lexer is opened again; the bytes there, their answers, and how many bytes of the
/// file stand in front of what comes next. A statement has 9 bytes at most, and a file 20.
type Rows = &'static [(&'static [u8], u64, &'static [u8], &'static str, u64)];

const REOPENED: Rows = &[
    (b"", 0, b"1;", "1 ;", 2),
    (b"", 7, b"1;", "1 ;", 9),
    (b"1;", 2, b"1;", "1 ;", 4),
    (b"1;#1=A('s", 2, b"#2=B;", "#2 = B ;", 7),
    (b"1;#1=A('s", 9, b"#2=B;", "#2 = B ;", 14),
    (b"1;#1=A('s", 12, b"#2=B;", "#2 = B ;", 17),
    (b"1;12", 4, b"3;", "3 ;", 6),
    (b"1;A", 3, b"B;", "B ;", 5),
    (b"1;\"1", 4, b"F0;", "F0 ;", 7),
    (b"1;/* *", 6, b"/", "end EndsEarly", 7),
    (b"1;/* *", 5, b"1", "1", 6),
    (b"1;'\xC3", 4, b"'a'", "'a'", 7),
    (b"1;'\\X\\4", 7, b"'\\X\\42'", "'B'", 14),
    (b"1;%", 2, b"2;", "2 ;", 4),
    (b"1;%", 3, b"%", "BadByte", 3),
    (b"1;'a\\Z", 7, b"2'", "2 end OpenString", 9),
    (b"1;123456789,", 12, b"1234567;", "1234567 ;", 20),
    (
        b"1;12345678,",
        11,
        b"1234567,;1",
        "1234567 , ; FileTooLong",
        20,
    ),
    (
        b"1;12345678,",
        4,
        b"123456789,",
        "123456789 RecordTooLong",
        13,
    ),
    (b"12345678901234567890,", 20, b";", "FileTooLong", 20),
    (b"1;123456789;12345678;", 12, b"1;", "1 ;", 14),
];

/// The answers behind the place, in pieces of so many bytes; nothing where the lexer isn't opened again.
fn read_behind(reader: Reader, place: u64, bytes: &[u8], size: usize) -> Option<(Vec<u8>, u64)> {
    let mut reader = reader;
    if !reader.lexer.reopen(place) {
        return None;
    }
    reader.answers.clear();
    reader.refused = None;
    for piece in bytes.chunks(size.max(1)) {
        reader.feed(piece);
    }
    let byte = reader.lexer.places().byte;
    Some((reader.end(), byte))
}

/// A lexer behind bytes under these limits.
fn reader_behind(alloc: Global, bytes: &[u8]) -> Option<Reader> {
    let mut reader = Reader::new(alloc, Limits::new(9, 9, 20, 20)?);
    reader.feed(bytes);
    Some(reader)
}

fn is_read(
    alloc: Global,
    before: &[u8],
    place: u64,
    bytes: &[u8],
    answers: &str,
    byte: u64,
) -> bool {
    for size in 1..4 {
        let Some(reader) = reader_behind(alloc, before) else {
            return false;
        };
        let Some((found, reached)) = read_behind(reader, place, bytes, size) else {
            return false;
        };
        if found.as_slice() != answers.as_bytes() || reached != byte {
            return false;
        }
    }
    true
}

fn first_otherwise_read(alloc: Global) -> Option<usize> {
    for (row, (before, place, bytes, answers, byte)) in REOPENED.iter().enumerate() {
        if !is_read(alloc, before, *place, bytes, answers, *byte) {
            return Some(row);
        }
    }
    None
}

#[test]
fn reads_on_where_it_is_reopened(rt: HostRuntime) {
    assert_eq!(rt; first_otherwise_read(rt.alloc()), None);
}

/// Whether a place that the file may not reach leaves the lexer as it was.
fn is_left(alloc: Global) -> bool {
    let Some(mut reader) = reader_behind(alloc, b"1;12") else {
        return false;
    };
    if reader.lexer.reopen(21) || reader.lexer.pending() != 2 {
        return false;
    }
    reader.feed(b"3;");
    reader.end().as_slice() == b"1 ; 123 ;".as_slice()
}

#[test]
fn stays_behind_a_place_past_the_limit(rt: HostRuntime) {
    assert!(rt; is_left(rt.alloc()));
}
