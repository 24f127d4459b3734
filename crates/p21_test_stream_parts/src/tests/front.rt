//! From pieces to statements.
use super::passes;
use p21_grammar::Limits;
use p21_stream_statements::StatementReader;
use std::alloc::Global;

/// The statements of a header.
pub(super) const BEGUN: &[u8] =
    b"ISO-10303-21;HEADER;FILE_DESCRIPTION((''),'2;1');FILE_NAME('','',(''),(''),'','','');FILE_SCHEMA(('DEMO'));ENDSEC;";

/// A data section, and the end.
const REST: &[u8] = b"DATA;#1=POINT(1.,2.);ENDSEC;END-ISO-10303-21;";

/// Takes the beginning of a piece, and answers what is left of it and whether a statement ended; the number of a fault.
fn take_front<'a>(
    reader: &mut StatementReader,
    piece: &'a [u8],
) -> Result<Option<(&'a [u8], bool)>, u8> {
    match reader.step(piece) {
        Ok(Some((taken, event))) => {
            let (_, rest) = piece.split_at(taken.min(piece.len()));
            Ok(Some((rest, event.is_some())))
        }
        Ok(None) => Ok(None),
        Err(fault) => Err(fault.number()),
    }
}

/// How many statements end in a piece; the number of a fault.
pub(super) fn statements(reader: &mut StatementReader, piece: &[u8]) -> Result<usize, u8> {
    let mut left = piece;
    let mut count: usize = 0;
    for _ in 0..1_000 {
        match take_front(reader, left) {
            Ok(Some((rest, is_ended))) => {
                left = rest;
                count = count.saturating_add(usize::from(is_ended));
            }
            Ok(None) => break,
            Err(number) => return Err(number),
        }
    }
    Ok(count)
}

/// A piece, how many statements end in it, and behind it the token bytes of the open statement and the open lists.
type Piece = (&'static [u8], usize, [u64; 2]);

/// By its name: pieces one after another, and the number of the fault of a file that ends there, if there is one.
type Files = &'static [(&'static str, &'static [Piece], Result<(), u8>)];

fn takes(reader: &mut StatementReader, (piece, count, open): Piece) -> bool {
    statements(reader, piece) == Ok(count) && [reader.pending(), reader.depth()] == open
}

fn takes_all(reader: &mut StatementReader, pieces: &[Piece]) -> bool {
    for piece in pieces {
        if !takes(reader, *piece) {
            return false;
        }
    }
    true
}

/// The number of the fault of a file that ends here.
fn ending(reader: StatementReader) -> Result<(), u8> {
    match reader.finish() {
        Ok(()) => Ok(()),
        Err(fault) => Err(fault.number()),
    }
}

fn ends_so(alloc: Global, pieces: &[Piece], end: Result<(), u8>) -> bool {
    let mut reader = StatementReader::new(alloc, Limits::usual());
    let are_taken = takes_all(&mut reader, pieces);
    ending(reader) == end && are_taken
}

fn first_wrong(alloc: Global) -> &'static str {
    for (name, pieces, end) in FILES {
        if !ends_so(alloc, pieces, *end) {
            return name;
        }
    }
    "none"
}

const FILES: Files = &[
    (
        "a file in two pieces",
        &[(BEGUN, 6, [0, 0]), (REST, 4, [0, 0])],
        Ok(()),
    ),
    (
        "a last token behind the end",
        &[(BEGUN, 6, [0, 0]), (REST, 4, [0, 0]), (b"X", 0, [1, 0])],
        Err(25),
    ),
    (
        "a file that ends early",
        &[(b"ISO-10303-21;", 1, [0, 0])],
        Err(24),
    ),
    ("an open string", &[(b"'a", 0, [2, 0])], Err(2)),
    ("a last token", &[(b"HEADER", 0, [6, 0])], Err(24)),
    (
        "a last token that no statement has there",
        &[(BEGUN, 6, [0, 0]), (b"DATA;#1=POINT 5", 1, [9, 0])],
        Err(24),
    ),
];

/// By its name: a piece, and the number of its fault.
const REFUSED: &[(&str, &[u8], u8)] = &[
    ("a byte of no token", b"ISO-10303-21;?", 1),
    ("a statement of another place", b"ISO-10303-21;DATA;", 20),
    ("a statement that begins no file", b"DATA;", 20),
    ("a byte of no character", b"'\xFF'", 6),
];

fn refuses(alloc: Global, piece: &[u8], number: u8) -> bool {
    let mut reader = StatementReader::new(alloc, Limits::usual());
    statements(&mut reader, piece) == Err(number)
}

fn first_taken(alloc: Global) -> &'static str {
    for (name, piece, number) in REFUSED {
        if !refuses(alloc, piece, *number) {
            return name;
        }
    }
    "none"
}

#[test]
fn gives_statements_in_pieces(rt: HostRuntime) {
    passes(&rt, first_wrong(rt.alloc()));
    passes(&rt, first_taken(rt.alloc()));
}
