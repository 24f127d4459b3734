//! A statement reader that is taken back, behind a statement that is passed over; and which bytes are those of an open one.
use super::front::{BEGUN, statements};
use super::passes_at;
use p21_grammar::Limits;
use p21_stream_statements::{StatementReader, is_open};
use std::alloc::Global;

/// Bytes behind a header and `DATA;`, with what their reading comes to: how many statements end, or the number of the fault that ends
/// it. In front of which of them the reader goes on; the bytes there, how many statements end in them, and where the last of these
/// begins.
type Rows = &'static [(
    &'static [u8],
    Result<usize, u8>,
    u64,
    &'static [u8],
    usize,
    u64,
)];

const REOPENED: Rows = &[
    (b"", Ok(0), 0, b"#2=K();", 1, 0),
    (b"#1=K(", Ok(0), 5, b"#2=K();#3=L();", 2, 12),
    (b"#1=K('a\n#2=K();", Ok(0), 8, b"#2=K();", 1, 8),
    (b"#1=K(1;\n", Err(20), 8, b"#2=K();", 1, 8),
    (b"#1=K(?", Err(1), 9, b" #2=K();", 1, 10),
    (b"#1=K();#2=k", Err(1), 14, b"#3=K();", 1, 14),
    (b"#1=K();/* #2", Ok(1), 10, b"#2=K();", 1, 10),
];

/// A data section.
const DATA: &[u8] = b"DATA;";

/// The end of a file.
const END: &[u8] = b"ENDSEC;END-ISO-10303-21;";

/// A reader that has taken these bytes behind a header and `DATA;`, where they come to this.
fn reader_behind(
    alloc: Global,
    bytes: &[u8],
    comes_to: Result<usize, u8>,
) -> Option<StatementReader> {
    let mut reader = StatementReader::new(alloc, Limits::usual());
    if statements(&mut reader, BEGUN) != Ok(6) || statements(&mut reader, DATA) != Ok(1) {
        return None;
    }
    if statements(&mut reader, bytes) != comes_to || !reader.is_in_data() {
        return None;
    }
    Some(reader)
}

/// Whether the file goes on so and ends, where the last of these statements begins at this byte.
fn goes_on(reader: StatementReader, bytes: &[u8], count: usize, begins: u64) -> bool {
    let mut reader = reader;
    let are_given = statements(&mut reader, bytes) == Ok(count);
    let is_there = reader.places().statement == begins;
    let is_ended = statements(&mut reader, END) == Ok(2);
    are_given && is_there && is_ended && reader.finish().is_ok()
}

fn first_wrong(alloc: Global) -> Option<usize> {
    let front = (BEGUN.len() + DATA.len()) as u64;
    for (row, (before, comes_to, place, bytes, count, begins)) in REOPENED.iter().enumerate() {
        let Some(mut reader) = reader_behind(alloc, before, *comes_to) else {
            return Some(row);
        };
        let is_reopened = reader.reopen(front + *place);
        if !is_reopened || !goes_on(reader, bytes, *count, front + *begins) {
            return Some(row);
        }
    }
    None
}

#[test]
fn goes_on_where_it_is_reopened(rt: HostRuntime) {
    passes_at(&rt, first_wrong(rt.alloc()));
}

/// Bytes, and whether they are those of a statement that hasn't ended.
const OPEN: &[(&[u8], bool)] = &[
    (b"", true),
    (b" /* ;", true),
    (b"#1=K(1.5,'a;", true),
    (b"#1=K(1.5,'a;')", true),
    (b"#1=K(1.5);", false),
    (b"#1=K(1.5); #2", false),
    (b"#1=k", false),
];

fn first_opened_otherwise(alloc: Global) -> Option<usize> {
    for (row, (bytes, is_so)) in OPEN.iter().enumerate() {
        if is_open(alloc, Limits::usual(), bytes) != Ok(*is_so) {
            return Some(row);
        }
    }
    None
}

#[test]
fn says_what_is_open(rt: HostRuntime) {
    assert_eq!(rt; first_opened_otherwise(rt.alloc()), None);
}
