//! What accepted files answer, and what writers and cursors get of them.
use super::answers::is_file_of;
use super::devices::{AMPLE, Full, Narrow, Space};
use super::files::{
    CONVERTED, CONVERTED_CANONICAL, DEMO, EMPTY, Frame, HEADER, SECTIONS, SHAPES, WHOLE, framed,
};
use super::{Rows, Wrong, check};
use p21_stream::{
    Accepted, At, Cursor, Fault, Limits, Name, Refusal, Schema, Watched, accept, count,
};
use std::alloc::Global;

/// An answer of an accepted file.
#[derive(Clone, Copy)]
pub(super) enum Fact<'a> {
    /// How many instances it has, and how many bytes its canonical file has.
    Counts(u64, u64),
    /// The line of the instance of this name.
    Line(u64, Option<&'a str>),
    /// How this line begins, and how it ends.
    LineBetween(u64, &'a str, &'a str),
    /// Whether a text is its canonical file.
    Text(&'a [u8], bool),
    /// How many instances it has, and its canonical file.
    Whole(u64, &'a [u8]),
    /// How it is printed to debug.
    Printed(&'a str),
}

/// Texts in frames, each with what the file answers.
pub(super) type Facts = &'static [(Frame, &'static str, Fact<'static>)];

fn accepted_of(alloc: Global, schema: &Schema, file: &[u8]) -> Option<Accepted> {
    let mut reader = Watched::new(file);
    accept(alloc, schema, Limits::usual(), &mut reader).ok()
}

/// Whether a file that is accepted has as many instances and bytes where no line is kept.
fn is_counted_so(alloc: Global, schema: &Schema, file: &[u8], accepted: &Accepted) -> bool {
    let mut reader = Watched::new(file);
    match count(alloc, schema, Limits::usual(), &mut reader) {
        Ok(counted) => counted.instances == accepted.count() && counted.bytes == accepted.len(),
        Err(_) => false,
    }
}

fn is_text(line: &[u8], wanted: Option<&str>) -> bool {
    match wanted {
        Some(wanted) => line == wanted.as_bytes(),
        None => false,
    }
}

fn is_line(line: Option<&[u8]>, wanted: Option<&str>) -> bool {
    match line {
        Some(line) => is_text(line, wanted),
        None => wanted.is_none(),
    }
}

fn is_between(line: Option<&[u8]>, front: &str, behind: &str) -> bool {
    match line {
        Some(line) => line.starts_with(front.as_bytes()) && line.ends_with(behind.as_bytes()),
        None => false,
    }
}

fn is_printed(alloc: Global, accepted: &Accepted, wanted: &str) -> bool {
    match format!(in alloc; "{accepted:?}") {
        Ok(text) => text.as_str() == wanted,
        Err(_) => false,
    }
}

fn is_so(alloc: Global, accepted: &Accepted, fact: Fact) -> bool {
    match fact {
        Fact::Counts(count, len) => accepted.count() == count && accepted.len() == len,
        Fact::Line(name, wanted) => is_line(accepted.line(Name(name)), wanted),
        Fact::LineBetween(name, front, behind) => {
            is_between(accepted.line(Name(name)), front, behind)
        }
        Fact::Text(text, wanted) => accepted.is_text(text) == wanted,
        Fact::Whole(count, text) => accepted.count() == count && accepted.is_text(text),
        Fact::Printed(wanted) => is_printed(alloc, accepted, wanted),
    }
}

/// Whether a file is accepted, answers so, and is counted so.
pub(super) fn answers(alloc: Global, schema: &Schema, file: &[u8], fact: Fact) -> bool {
    match accepted_of(alloc, schema, file) {
        Some(accepted) => {
            is_so(alloc, &accepted, fact) && is_counted_so(alloc, schema, file, &accepted)
        }
        None => false,
    }
}

fn answers_in(alloc: Global, schema: &Schema, frame: Frame, text: &str, fact: Fact) -> bool {
    match framed(alloc, frame, text.as_bytes()) {
        Some(file) => answers(alloc, schema, &file, fact),
        None => false,
    }
}

pub(super) fn wrong_fact(alloc: Global, schema: &Schema, rows: Facts) -> Wrong {
    for (place, (frame, text, fact)) in rows.iter().enumerate() {
        if !answers_in(alloc, schema, *frame, text, *fact) {
            return Some((text, place));
        }
    }
    None
}

const COUNTS: Facts = &[
    (DEMO, "", Fact::Counts(0, 152)),
    (DEMO, "#2 = POINT($, 1.0, 10.E-1);", Fact::Counts(1, 171)),
    (
        DEMO,
        "#2 = POINT($, 1.0, 10.E-1);",
        Fact::Printed("Accepted { count: 1, len: 171 }"),
    ),
    (
        SECTIONS,
        "DATA('b',('DEMO'));#1=POINT($,1.,1.);ENDSEC;DATA('a',('demo'));#2=POINT($,2.0,1.);ENDSEC;",
        Fact::Counts(2, 232),
    ),
];

#[test]
fn counts_instances_and_bytes(rt: HostRuntime) {
    check(&rt, rt.alloc(), SHAPES, Rows::Facts(COUNTS));
}

const LINES: &str =
    "#9=POINT($,9.,1.);#2 = POINT($, 1.0, 10.E-1);#18446744073709551615=MARKED($,.RED.);#00=POINT($,0.,0.);";

const LINES_BY_NAME: Facts = &[
    (DEMO, LINES, Fact::Line(0, Some("#0=POINT($,0.,0.);"))),
    (DEMO, LINES, Fact::Line(1, None)),
    (DEMO, LINES, Fact::Line(2, Some("#2=POINT($,1.,1.);"))),
    (DEMO, LINES, Fact::Line(3, None)),
    (DEMO, LINES, Fact::Line(9, Some("#9=POINT($,9.,1.);"))),
    (
        DEMO,
        LINES,
        Fact::Line(u64::MAX, Some("#18446744073709551615=MARKED($,.RED.);")),
    ),
];

#[test]
fn finds_lines(rt: HostRuntime) {
    check(&rt, rt.alloc(), SHAPES, Rows::Facts(LINES_BY_NAME));
}

/// Instances of a file, a text in a frame, and whether this is the canonical file.
pub(super) type Texts = &'static [(&'static str, Frame, &'static str, bool)];

fn knows(
    alloc: Global,
    schema: &Schema,
    lines: &str,
    (frame, text): (Frame, &str),
    is_known: bool,
) -> bool {
    match framed(alloc, frame, text.as_bytes()) {
        Some(text) => answers_in(alloc, schema, DEMO, lines, Fact::Text(&text, is_known)),
        None => false,
    }
}

pub(super) fn wrong_text(alloc: Global, schema: &Schema, rows: Texts) -> Wrong {
    for (place, (lines, frame, text, is_known)) in rows.iter().enumerate() {
        if !knows(alloc, schema, lines, (*frame, text), *is_known) {
            return Some((text, place));
        }
    }
    None
}

const POINT: &str = "#2 = POINT($, 1.0, 10.E-1);";

const DATA: &str = "DATA;\nENDSEC;\n";

const TEXTS: Texts = &[
    (POINT, DEMO, "#2=POINT($,1.,1.);\n", true),
    (POINT, DEMO, "#2=POINT($,1.,1.);", false),
    (POINT, DEMO, "#2 = POINT($, 1.0, 10.E-1);\n", false),
    (POINT, DEMO, "", false),
    ("", SECTIONS, DATA, true),
    ("", SECTIONS, "DATA('a',('DEMO'));\nENDSEC;\n", false),
    (
        "",
        HEADER,
        "FILE_DESCRIPTION(('x'),'2;1');\nFILE_NAME('','',(''),(''),'','','');\nFILE_SCHEMA(('DEMO'));\n",
        false,
    ),
    (
        "",
        Frame {
            behind: "END-ISO-10303-21;",
            ..SECTIONS
        },
        DATA,
        false,
    ),
    (
        "",
        Frame {
            behind: "END-ISO-10303-21;\n\n",
            ..SECTIONS
        },
        DATA,
        false,
    ),
    ("", WHOLE, "", false),
];

#[test]
fn knows_its_text(rt: HostRuntime) {
    check(&rt, rt.alloc(), SHAPES, Rows::Texts(TEXTS));
}

/// What a writer gets of a file: how many bytes, in how many calls, and the statement that is named where a call fails.
#[derive(Clone, Copy)]
pub(super) struct Got {
    written: usize,
    moved: u64,
    refused_at: Option<u64>,
}

/// A file, its canonical file, a writer, and what this gets.
pub(super) type Writes = &'static [(&'static str, &'static str, Space, Got)];

/// Whether a write fault is answered at the statement, and none where there is no statement.
fn is_answer(answer: Result<(), Refusal>, wanted: Option<u64>) -> bool {
    match (answer, wanted) {
        (Err(refusal), Some(statement)) => {
            refusal.fault == Fault::Write && refusal.at == At::Statement(statement)
        }
        (answer, wanted) => answer.is_ok() && wanted.is_none(),
    }
}

/// Whether a writer gets so much of a file.
fn gets(accepted: &Accepted, text: &[u8], space: Space, got: Got) -> bool {
    let mut writer = Watched::new(Narrow::new(text, space));
    let answer = accepted.write_to(&mut writer);
    let counts = (writer.moved(), writer.failures());
    let left = writer.into_inner().left();
    is_answer(answer, got.refused_at)
        && counts == (got.moved, u64::from(got.refused_at.is_some()))
        && left == text.len().checked_sub(got.written)
}

/// The same, and whether another writer gets the whole behind it.
fn gets_both(accepted: &Accepted, text: &[u8], space: Space, got: Got) -> bool {
    let whole = Got {
        written: text.len(),
        moved: 1,
        refused_at: None,
    };
    gets(accepted, text, space, got) && gets(accepted, text, AMPLE, whole)
}

fn writes_so(
    alloc: Global,
    schema: &Schema,
    (file, text): (&str, &str),
    space: Space,
    got: Got,
) -> bool {
    match accepted_of(alloc, schema, file.as_bytes()) {
        Some(accepted) => gets_both(&accepted, text.as_bytes(), space, got),
        None => false,
    }
}

pub(super) fn wrong_write(alloc: Global, schema: &Schema, rows: Writes) -> Wrong {
    for (place, (file, text, space, got)) in rows.iter().enumerate() {
        if !writes_so(alloc, schema, (file, text), *space, *got) {
            return Some((file, place));
        }
    }
    None
}

const WRITES: Writes = &[
    (
        EMPTY,
        EMPTY,
        AMPLE,
        Got {
            written: 152,
            moved: 1,
            refused_at: None,
        },
    ),
    (
        CONVERTED,
        CONVERTED_CANONICAL,
        Space {
            most: 3,
            room: 100,
            then: Full::TakesNone,
        },
        Got {
            written: 100,
            moved: 34,
            refused_at: Some(12),
        },
    ),
];

/// A small file is one write, and behind a writer that failed another one gets the whole.
#[test]
fn writes_its_text(rt: HostRuntime) {
    check(&rt, rt.alloc(), SHAPES, Rows::Writes(WRITES));
}

/// Texts in a frame, each with its canonical file in the same frame, and the room of a buffer.
pub(super) type Reads = &'static [(Frame, &'static str, &'static str, usize)];

/// Whether a cursor reads a text and nothing behind it, each time as many bytes as the buffer has room for.
fn reads(accepted: &Accepted, text: &[u8], buffer: &mut [u8]) -> bool {
    let mut cursor = Cursor::start();
    for piece in text.chunks(buffer.len().max(1)) {
        let count = accepted.read(&mut cursor, buffer);
        if buffer.get(..count) != Some(piece) {
            return false;
        }
    }
    accepted.read(&mut cursor, buffer) == 0
}

/// The same, in a buffer of so much room.
fn reads_with(accepted: &Accepted, text: &[u8], room: usize) -> bool {
    let mut buffer = [0; 512];
    match buffer.get_mut(..room) {
        Some(buffer) => reads(accepted, text, buffer),
        None => false,
    }
}

/// Whether a writer and a cursor get this text of a file.
fn reads_so(alloc: Global, schema: &Schema, file: &[u8], text: &[u8], room: usize) -> bool {
    match accepted_of(alloc, schema, file) {
        Some(accepted) => is_file_of(&accepted, text) && reads_with(&accepted, text, room),
        None => false,
    }
}

fn reads_so_in(
    alloc: Global,
    schema: &Schema,
    frame: Frame,
    (file, text): (&str, &str),
    room: usize,
) -> Option<bool> {
    let file = framed(alloc, frame, file.as_bytes())?;
    let text = framed(alloc, frame, text.as_bytes())?;
    Some(reads_so(alloc, schema, &file, &text, room))
}

pub(super) fn wrong_read(alloc: Global, schema: &Schema, rows: Reads) -> Wrong {
    for (place, (frame, file, text, room)) in rows.iter().enumerate() {
        if reads_so_in(alloc, schema, *frame, (file, text), *room) != Some(true) {
            return Some((file, place));
        }
    }
    None
}

/// Sections of several instances and of none.
const SEVERAL: &str =
    "DATA('b',('DEMO'));#7=POINT($,7.,1.);#3=POINT($,3.,1.);ENDSEC;DATA('a',('DEMO'));ENDSEC;";

/// The same, as they stand in the canonical file.
const SEVERAL_CANONICAL: &str =
    "DATA('a',('DEMO'));\nENDSEC;\nDATA('b',('DEMO'));\n#3=POINT($,3.,1.);\n#7=POINT($,7.,1.);\nENDSEC;\n";

const READS: Reads = &[
    (WHOLE, EMPTY, EMPTY, 1),
    (WHOLE, EMPTY, EMPTY, 512),
    (WHOLE, CONVERTED, CONVERTED_CANONICAL, 1),
    (WHOLE, CONVERTED, CONVERTED_CANONICAL, 7),
    (WHOLE, CONVERTED, CONVERTED_CANONICAL, 64),
    (WHOLE, CONVERTED, CONVERTED_CANONICAL, 283),
    (WHOLE, CONVERTED, CONVERTED_CANONICAL, 512),
    (SECTIONS, SEVERAL, SEVERAL_CANONICAL, 1),
    (SECTIONS, SEVERAL, SEVERAL_CANONICAL, 7),
    (SECTIONS, SEVERAL, SEVERAL_CANONICAL, 64),
    (SECTIONS, SEVERAL, SEVERAL_CANONICAL, 512),
];

/// A buffer is filled as far as the file goes: over the ends of lines and of sections, and exactly by the whole file.
#[test]
fn reads_its_text(rt: HostRuntime) {
    check(&rt, rt.alloc(), SHAPES, Rows::Reads(READS));
}

/// Cursors at places of the file without instances, by the numbers of their parts, lines and bytes, and what a large buffer gets
/// from there on.
pub(super) type Cursors = &'static [(&'static str, [usize; 3], &'static str)];

fn reads_on(accepted: &Accepted, [part, line, byte]: [usize; 3], text: &[u8]) -> bool {
    let mut buffer = [0; 512];
    let mut cursor = Cursor { part, line, byte };
    let count = accepted.read(&mut cursor, &mut buffer);
    buffer.get(..count) == Some(text)
}

pub(super) fn wrong_cursor(alloc: Global, schema: &Schema, rows: Cursors) -> Wrong {
    let Some(accepted) = accepted_of(alloc, schema, EMPTY.as_bytes()) else {
        return Some(("the file", 0));
    };
    for (place, (name, numbers, text)) in rows.iter().enumerate() {
        if !reads_on(&accepted, *numbers, text.as_bytes()) {
            return Some((name, place));
        }
    }
    None
}

const CURSORS: Cursors = &[
    ("the header", [0, 0, 0], EMPTY),
    (
        "the data section",
        [1, 0, 0],
        "DATA;\nENDSEC;\nEND-ISO-10303-21;\n",
    ),
    (
        "inside the data section",
        [1, 0, 2],
        "TA;\nENDSEC;\nEND-ISO-10303-21;\n",
    ),
    ("the end", [2, 0, 0], "END-ISO-10303-21;\n"),
    ("behind the end", [2, 0, 18], ""),
    ("behind the last part", [3, 0, 0], ""),
    ("far behind the last part", [usize::MAX, 0, 0], ""),
];

/// A reading goes on from where a cursor stands, and finds nothing left behind the last part.
#[test]
fn reads_on_from_a_cursor(rt: HostRuntime) {
    check(&rt, rt.alloc(), SHAPES, Rows::Cursors(CURSORS));
}
