//! Files cut off, and files cut into pieces.
use super::answers::{Cut, Wanted, comes_in_pieces};
use super::files::{CONVERTED, CONVERTED_CANONICAL, DEMO, Frame, SHAPES, WHOLE, framed};
use super::{Rows, Wrong, check};
use p21_stream::{At, Limits, Schema, canonical};
use std::alloc::Global;

/// What is open behind the first bytes of a file: the number of the statement, and what the last byte stands in.
#[derive(Clone, Copy)]
struct Reading {
    statement: u64,
    inside: Inside,
    last: u8,
}

#[derive(Clone, Copy, PartialEq, Eq)]
enum Inside {
    Tokens,
    String,
    Remark,
}

impl Reading {
    /// What is open behind one more byte. No string holds an apostrophe, and no remark begins with `/*/`.
    fn behind(self, byte: u8) -> Reading {
        let inside = match (self.inside, self.last, byte) {
            (Inside::Tokens, _, b'\'') => Inside::String,
            (Inside::String, _, b'\'') => Inside::Tokens,
            (Inside::Tokens, b'/', b'*') => Inside::Remark,
            (Inside::Remark, b'*', b'/') => Inside::Tokens,
            (inside, _, _) => inside,
        };
        let ends = inside == Inside::Tokens && byte == b';';
        Reading {
            statement: self.statement.saturating_add(u64::from(ends)),
            inside,
            last: byte,
        }
    }

    /// The number of the refusal of a file that ends here.
    fn number(self) -> u8 {
        match self.inside {
            Inside::Tokens => 24,
            Inside::String => 2,
            Inside::Remark => 3,
        }
    }
}

/// What is open before the first byte of a file.
const UNREAD: Reading = Reading {
    statement: 1,
    inside: Inside::Tokens,
    last: b' ',
};

/// Whether a file that ends here is refused for its end.
fn is_refused(alloc: Global, schema: &Schema, text: &[u8], reading: Reading) -> bool {
    match canonical(alloc, schema, Limits::usual(), text) {
        Ok(_file) => false,
        Err(refusal) => {
            refusal.number() == reading.number() && refusal.at == At::Statement(reading.statement)
        }
    }
}

/// The first position up to `last` at which a file may be cut off and isn't refused for its end.
fn first_end(alloc: Global, schema: &Schema, text: &[u8], last: usize) -> Option<usize> {
    let mut reading = UNREAD;
    for (place, byte) in text.iter().enumerate() {
        if place > last {
            return None;
        }
        if !is_refused(alloc, schema, text.split_at(place).0, reading) {
            return Some(place);
        }
        reading = reading.behind(*byte);
    }
    Some(text.len())
}

/// Files, each with how many bytes from its last semicolon on.
pub(super) type CutOff = &'static [(Frame, &'static str, usize)];

fn wrong_end_of(
    alloc: Global,
    schema: &Schema,
    frame: Frame,
    text: &str,
    end: usize,
) -> Option<usize> {
    match framed(alloc, frame, text.as_bytes()) {
        Some(file) => first_end(alloc, schema, &file, file.len().saturating_sub(end)),
        None => Some(0),
    }
}

pub(super) fn wrong_end(alloc: Global, schema: &Schema, rows: CutOff) -> Wrong {
    for (frame, text, end) in rows {
        if let Some(place) = wrong_end_of(alloc, schema, *frame, text, *end) {
            return Some((text, place));
        }
    }
    None
}

const CUT_OFF: CutOff = &[
    (DEMO, "#2 = POINT($, 1.0, 10.E-1);\n", 2),
    (WHOLE, CONVERTED, 3),
];

#[test]
fn refuses_a_file_cut_anywhere(rt: HostRuntime) {
    check(&rt, rt.alloc(), SHAPES, Rows::CutOff(CUT_OFF));
}

/// Texts in frames, each with what stands in the canonical file.
pub(super) type Files = &'static [(Frame, &'static str, &'static str)];

/// The first position at which a file may be cut in two and something else comes of it.
fn first_cut(alloc: Global, schema: &Schema, text: &[u8], wanted: Wanted) -> Option<usize> {
    for place in 0..=text.len() {
        if !comes_in_pieces(alloc, schema, Limits::usual(), text, Cut::At(place), wanted) {
            return Some(place);
        }
    }
    None
}

/// The first size of pieces of which something else comes.
fn first_size(alloc: Global, schema: &Schema, text: &[u8], wanted: Wanted) -> Option<usize> {
    for size in [1, 2, 7, 64] {
        if !comes_in_pieces(
            alloc,
            schema,
            Limits::usual(),
            text,
            Cut::Each(size),
            wanted,
        ) {
            return Some(size);
        }
    }
    None
}

fn first_piece(alloc: Global, schema: &Schema, text: &[u8], canonical: &[u8]) -> Option<usize> {
    let wanted = Wanted::File(canonical);
    match first_cut(alloc, schema, text, wanted) {
        Some(place) => Some(place),
        None => first_size(alloc, schema, text, wanted),
    }
}

fn first_piece_of(
    alloc: Global,
    schema: &Schema,
    text: &[u8],
    frame: Frame,
    canonical: &str,
) -> Option<usize> {
    match framed(alloc, frame, canonical.as_bytes()) {
        Some(canonical) => first_piece(alloc, schema, text, &canonical),
        None => Some(0),
    }
}

fn wrong_piece_of(
    alloc: Global,
    schema: &Schema,
    frame: Frame,
    text: &str,
    canonical: &str,
) -> Option<usize> {
    match framed(alloc, frame, text.as_bytes()) {
        Some(file) => first_piece_of(alloc, schema, &file, frame, canonical),
        None => Some(0),
    }
}

pub(super) fn wrong_piece(alloc: Global, schema: &Schema, rows: Files) -> Wrong {
    for (frame, text, canonical) in rows {
        if let Some(place) = wrong_piece_of(alloc, schema, *frame, text, canonical) {
            return Some((text, place));
        }
    }
    None
}

const FILES: Files = &[
    (
        DEMO,
        "#1=POINT('it''s \\X2\\00E9\\X0\\',1.E2,2.)/**/;\n",
        "#1=POINT('it''s \\X2\\00E9\\X0\\',1.E2,2.);\n",
    ),
    (WHOLE, CONVERTED, CONVERTED_CANONICAL),
];

/// In two, cut anywhere, and in small pieces, of one byte too.
#[test]
fn reads_a_file_in_pieces(rt: HostRuntime) {
    check(&rt, rt.alloc(), SHAPES, Rows::Pieces(FILES));
}
