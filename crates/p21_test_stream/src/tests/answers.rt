//! What comes of files.
use super::Wrong;
use super::devices::{AMPLE, Narrow};
use super::files::{Frame, framed};
use p21_stream::{
    Accepted, At, Limits, Name, Refusal, Schema, Session, Watched, canonical, same_meaning,
};
use std::alloc::Global;

/// What is to come of a file.
#[derive(Clone, Copy)]
pub(super) enum Wanted<'a> {
    /// This canonical file.
    File(&'a [u8]),
    /// A refusal that is printed so.
    Refusal(&'a str),
}

/// A refusal, as the program prints it: none where memory runs out.
fn line_of(alloc: Global, refusal: Refusal) -> Option<String> {
    let number = refusal.number();
    let name = refusal.name();
    match refusal.at {
        At::Statement(statement) => {
            format!(in alloc; "refused {number} {name} at statement {statement}").ok()
        }
        At::Instance(Name(instance)) => {
            format!(in alloc; "refused {number} {name} in #{instance}").ok()
        }
    }
}

/// Whether a refusal is printed so.
pub(super) fn is_line(alloc: Global, refusal: Refusal, wanted: &str) -> bool {
    match line_of(alloc, refusal) {
        Some(line) => line.as_str() == wanted,
        None => false,
    }
}

fn is_refusal(alloc: Global, refusal: Refusal, wanted: Wanted) -> bool {
    match wanted {
        Wanted::Refusal(line) => is_line(alloc, refusal, line),
        Wanted::File(_) => false,
    }
}

/// Whether this is the canonical file of an accepted one, by its own account and as it is written.
pub(super) fn is_file_of(accepted: &Accepted, text: &[u8]) -> bool {
    let mut writer = Watched::new(Narrow::new(text, AMPLE));
    let is_written = accepted.write_to(&mut writer).is_ok();
    let left = writer.into_inner().left();
    accepted.is_text(text) && is_written && left == Some(0)
}

fn is_file(accepted: &Accepted, wanted: Wanted) -> bool {
    match wanted {
        Wanted::File(text) => is_file_of(accepted, text),
        Wanted::Refusal(_) => false,
    }
}

/// Whether this comes of a file that a session takes, with the refusals of its pieces and, behind them, of no bytes.
fn is_end(
    alloc: Global,
    refused: Option<Refusal>,
    again: Option<Refusal>,
    ended: Result<Accepted, Refusal>,
    wanted: Wanted,
) -> bool {
    match ended {
        Ok(accepted) => refused.is_none() && again.is_none() && is_file(&accepted, wanted),
        Err(refusal) => {
            refused == again
                && refused.unwrap_or(refusal) == refusal
                && is_refusal(alloc, refusal, wanted)
        }
    }
}

/// How a text is cut into pieces.
#[derive(Clone, Copy)]
pub(super) enum Cut {
    /// In two, at a position.
    At(usize),
    /// Into pieces of so many bytes.
    Each(usize),
}

/// The refusal of a text in pieces of so many bytes.
fn refusal_of_each(session: &mut Session<'_>, text: &[u8], size: usize) -> Option<Refusal> {
    for piece in text.chunks(size.max(1)) {
        if let Err(refusal) = session.feed(piece) {
            return Some(refusal);
        }
    }
    None
}

/// The refusal of a text in two pieces.
fn refusal_of_both(session: &mut Session<'_>, text: &[u8], place: usize) -> Option<Refusal> {
    let (front, rest) = text.split_at(place.min(text.len()));
    if let Err(refusal) = session.feed(front) {
        return Some(refusal);
    }
    session.feed(rest).err()
}

fn refusal_of(session: &mut Session<'_>, text: &[u8], cut: Cut) -> Option<Refusal> {
    match cut {
        Cut::At(place) => refusal_of_both(session, text, place),
        Cut::Each(size) => refusal_of_each(session, text, size),
    }
}

/// Whether this comes of a text that a session takes in pieces.
pub(super) fn comes_in_pieces(
    alloc: Global,
    schema: &Schema,
    limits: Limits,
    text: &[u8],
    cut: Cut,
    wanted: Wanted,
) -> bool {
    let mut session = Session::new(alloc, schema, limits);
    let refused = refusal_of(&mut session, text, cut);
    let again = session.feed(b"").err();
    is_end(alloc, refused, again, session.finish(), wanted)
}

/// Whether `canonical` answers this for a text.
pub(super) fn comes_at_once(
    alloc: Global,
    schema: &Schema,
    limits: Limits,
    text: &[u8],
    wanted: Wanted,
) -> bool {
    match canonical(alloc, schema, limits, text) {
        Ok(file) => is_same(&file, wanted),
        Err(refusal) => is_refusal(alloc, refusal, wanted),
    }
}

fn is_same(file: &[u8], wanted: Wanted) -> bool {
    match wanted {
        Wanted::File(text) => file == text,
        Wanted::Refusal(_) => false,
    }
}

fn mean_the_same(
    alloc: Global,
    schema: &Schema,
    limits: Limits,
    text: &[u8],
    canonical: &[u8],
) -> bool {
    let mut first = Watched::new(text);
    let mut second = Watched::new(canonical);
    match same_meaning(alloc, schema, limits, &mut first, &mut second) {
        Ok(is_same) => is_same,
        Err(_) => false,
    }
}

/// Whether the canonical file that is to come of a text means the same, and is its own.
fn comes_again(
    alloc: Global,
    schema: &Schema,
    limits: Limits,
    text: &[u8],
    wanted: Wanted,
) -> bool {
    match wanted {
        Wanted::File(canonical) => {
            mean_the_same(alloc, schema, limits, text, canonical)
                && comes_at_once(alloc, schema, limits, canonical, wanted)
        }
        Wanted::Refusal(_) => true,
    }
}

/// Whether the refusal of a text comes of it byte by byte too.
fn refuses_alike(
    alloc: Global,
    schema: &Schema,
    limits: Limits,
    text: &[u8],
    refusal: Refusal,
) -> bool {
    match line_of(alloc, refusal) {
        Some(line) => {
            let wanted = Wanted::Refusal(line.as_str());
            comes_in_pieces(alloc, schema, limits, text, Cut::Each(1), wanted)
        }
        None => false,
    }
}

/// Whether the same comes of a text that a session takes byte by byte as of the whole text.
pub(super) fn comes_alike(alloc: Global, schema: &Schema, limits: Limits, text: &[u8]) -> bool {
    match canonical(alloc, schema, limits, text) {
        Ok(file) => {
            let wanted = Wanted::File(file.as_slice());
            comes_in_pieces(alloc, schema, limits, text, Cut::Each(1), wanted)
        }
        Err(refusal) => refuses_alike(alloc, schema, limits, text, refusal),
    }
}

/// Whether this comes of a text that a session takes whole, in two pieces and byte by byte, and that `canonical` takes.
pub(super) fn comes(
    alloc: Global,
    schema: &Schema,
    limits: Limits,
    text: &[u8],
    wanted: Wanted,
) -> bool {
    let len = text.len();
    comes_in_pieces(alloc, schema, limits, text, Cut::Each(len), wanted)
        && comes_in_pieces(alloc, schema, limits, text, Cut::At(len / 2), wanted)
        && comes_in_pieces(alloc, schema, limits, text, Cut::Each(1), wanted)
        && comes_at_once(alloc, schema, limits, text, wanted)
        && comes_again(alloc, schema, limits, text, wanted)
}

/// Texts in a frame, each with what stands in the frame in its canonical file, or with its refusal.
pub(super) type Answers = &'static [(&'static str, &'static str)];

/// The same of bytes that are no texts.
pub(super) type Bytes = &'static [(&'static [u8], &'static str)];

/// Whether this comes of a file, in a frame or as a refusal.
fn file_answers(
    alloc: Global,
    schema: &Schema,
    limits: Limits,
    file: &[u8],
    (frame, wanted): (Frame, &str),
) -> bool {
    if wanted.starts_with("refused ") {
        return comes(alloc, schema, limits, file, Wanted::Refusal(wanted));
    }
    match framed(alloc, frame, wanted.as_bytes()) {
        Some(text) => comes(alloc, schema, limits, file, Wanted::File(&text)),
        None => false,
    }
}

/// Whether this comes of a text in a frame.
fn answers_so(
    alloc: Global,
    schema: &Schema,
    limits: Limits,
    (frame, text): (Frame, &[u8]),
    wanted: &str,
) -> bool {
    match framed(alloc, frame, text) {
        Some(file) => file_answers(alloc, schema, limits, &file, (frame, wanted)),
        None => false,
    }
}

pub(super) fn wrong_answer(
    alloc: Global,
    schema: &Schema,
    limits: Limits,
    frame: Frame,
    rows: Answers,
) -> Wrong {
    for (place, (text, wanted)) in rows.iter().enumerate() {
        if !answers_so(alloc, schema, limits, (frame, text.as_bytes()), wanted) {
            return Some((text, place));
        }
    }
    None
}

/// The same within limits of these numbers.
pub(super) fn wrong_within(
    alloc: Global,
    schema: &Schema,
    [a, b, c, d]: [u64; 4],
    frame: Frame,
    rows: Answers,
) -> Wrong {
    match Limits::new(a, b, c, d) {
        Some(limits) => wrong_answer(alloc, schema, limits, frame, rows),
        None => Some(("the limits", 0)),
    }
}

pub(super) fn wrong_bytes(alloc: Global, schema: &Schema, frame: Frame, rows: Bytes) -> Wrong {
    for (place, (text, wanted)) in rows.iter().enumerate() {
        if !answers_so(alloc, schema, Limits::usual(), (frame, text), wanted) {
            return Some((wanted, place));
        }
    }
    None
}
