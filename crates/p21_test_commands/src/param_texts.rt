//! The command `param` over texts, and over readers and writers that fail.
use crate::devices::EndlessReader;
use crate::run::Command::Param;
use crate::run::Left::{Answer, Failure, Refusal};
use crate::run::Row::{Leaves, LeavesIn, ParamFails};
use crate::run::{AMPLE, AMPLE_ROOMS, Rooms, Rows, first_wrong, param};
use crate::schemas::File::Text;
use p21_commands::{CommandFault, report};
use p21_stream::Watched;
use std::alloc::Global;
use std::io::{self, Read};

const ROWS: Rows = &[
    Leaves(Param, Text("+012.500E+03"), Answer("1.25E4\n")),
    Leaves(Param, Text(" +007\n"), Answer("7\n")),
    Leaves(Param, Text("-0"), Answer("0\n")),
    Leaves(Param, Text("123.450"), Answer("1.2345E2\n")),
    Leaves(Param, Text("1.E0000000001"), Answer("1.E1\n")),
    Leaves(Param, Text("0.E999999999"), Answer("0.\n")),
    Leaves(Param, Text("1.E9999"), Answer("1.E9999\n")),
    Leaves(Param, Text(".T."), Answer(".T.\n")),
    Leaves(Param, Text("\t\r\n.RED.\x7f"), Answer(".RED.\n")),
    Leaves(Param, Text("10.E9999"), Refusal("refused 8 NumberRange\n")),
    Leaves(
        Param,
        Text("0.E1000000000"),
        Refusal("refused 8 NumberRange\n"),
    ),
    Leaves(Param, Text("1.E"), Refusal("refused 24 EndsEarly\n")),
    Leaves(Param, Text("1.EX"), Refusal("refused 7 BadNumber\n")),
    Leaves(Param, Text("1 2"), Refusal("refused 12 NotOneParameter\n")),
    Leaves(Param, Text(""), Refusal("refused 24 EndsEarly\n")),
    Leaves(Param, Text("+x"), Refusal("refused 7 BadNumber\n")),
    Leaves(Param, Text(".t."), Refusal("refused 1 BadByte\n")),
    Leaves(Param, Text("+"), Refusal("refused 24 EndsEarly\n")),
    // strings
    Leaves(
        Param,
        Text("'caf\\X\\E9'"),
        Answer("'caf\\X2\\00E9\\X0\\'\n"),
    ),
    Leaves(
        Param,
        Text("'caf\\S\\i'"),
        Answer("'caf\\X2\\00E9\\X0\\'\n"),
    ),
    Leaves(
        Param,
        Text("'caf\\X2\\00E9\\X0\\'"),
        Answer("'caf\\X2\\00E9\\X0\\'\n"),
    ),
    Leaves(
        Param,
        Text("'\\PA\\caf\\S\\i'"),
        Answer("'caf\\X2\\00E9\\X0\\'\n"),
    ),
    Leaves(
        Param,
        Text("'caf\u{e9}'"),
        Answer("'caf\\X2\\00E9\\X0\\'\n"),
    ),
    Leaves(Param, Text("'\\S\\'x'"), Answer("'\\X2\\00A7\\X0\\x'\n")),
    Leaves(Param, Text("'\\S\\\\'"), Answer("'\\X2\\00DC\\X0\\'\n")),
    Leaves(Param, Text("'it''s \\\\'"), Answer("'it''s \\\\'\n")),
    Leaves(Param, Text("'a\nb'"), Answer("'ab'\n")),
    Leaves(
        Param,
        Text("'\\X2\\D83DDE00\\X0\\'"),
        Answer("'\\X4\\0001F600\\X0\\'\n"),
    ),
    Leaves(
        Param,
        Text("'\\X4\\0001F600\\X0\\'"),
        Answer("'\\X4\\0001F600\\X0\\'\n"),
    ),
    Leaves(
        Param,
        Text("'\\X2\\D83D\\X0\\'"),
        Refusal("refused 5 BadCodePoint\n"),
    ),
    Leaves(
        Param,
        Text("'\\X4\\0000D83D\\X0\\'"),
        Refusal("refused 5 BadCodePoint\n"),
    ),
    Leaves(
        Param,
        Text("'\\X4\\00110000\\X0\\'"),
        Refusal("refused 5 BadCodePoint\n"),
    ),
    Leaves(
        Param,
        Text("'\\X2\\00e9\\X0\\'"),
        Refusal("refused 4 BadDirective\n"),
    ),
    Leaves(
        Param,
        Text("'\\X2\\\\X0\\'"),
        Refusal("refused 4 BadDirective\n"),
    ),
    Leaves(
        Param,
        Text("'a\\PB\\b'"),
        Refusal("refused 4 BadDirective\n"),
    ),
    Leaves(Param, Text("'\\N\\'"), Refusal("refused 4 BadDirective\n")),
    // names, bits and nothing
    Leaves(
        Param,
        Text("#18446744073709551615"),
        Answer("#18446744073709551615\n"),
    ),
    Leaves(Param, Text("#007"), Answer("#7\n")),
    Leaves(Param, Text("\"23B\""), Answer("\"23B\"\n")),
    Leaves(Param, Text("\"0\""), Answer("\"0\"\n")),
    Leaves(Param, Text("\"30\""), Answer("\"30\"\n")),
    Leaves(Param, Text("$"), Answer("$\n")),
    Leaves(
        Param,
        Text("#18446744073709551616"),
        Refusal("refused 10 NameRange\n"),
    ),
    Leaves(Param, Text("&A"), Refusal("refused 26 LeftOut(Scope)\n")),
    Leaves(
        Param,
        Text("@1"),
        Refusal("refused 26 LeftOut(ValueName)\n"),
    ),
    Leaves(
        Param,
        Text("#A"),
        Refusal("refused 26 LeftOut(ConstantName)\n"),
    ),
    Leaves(Param, Text("#)"), Refusal("refused 11 BadName\n")),
    Leaves(Param, Text("\"33B\""), Refusal("refused 9 BadBinary\n")),
    Leaves(Param, Text("\"1\""), Refusal("refused 9 BadBinary\n")),
    Leaves(Param, Text("(1)"), Refusal("refused 12 NotOneParameter\n")),
    Leaves(Param, Text("RED"), Refusal("refused 12 NotOneParameter\n")),
    // a reader that fails
    ParamFails("read fault at once", ""),
    ParamFails("read fault inside", "+012.5"),
    ParamFails("read fault behind", "+012.500E+03\n"),
    // writers that take little
    LeavesIn(
        "room for 3 bytes",
        Param,
        Text("1250."),
        ((1, 3), AMPLE),
        Failure("1.2", "write fault\n"),
    ),
    LeavesIn(
        "no room for a fault line",
        Param,
        Text("1 2"),
        (AMPLE, (1, 8)),
        Failure("", "refused "),
    ),
    LeavesIn(
        "just enough room",
        Param,
        Text("+012.500E+03"),
        ((1, 7), AMPLE),
        Answer("1.25E4\n"),
    ),
];

#[test]
fn answers_refuses_and_fails(rt: HostRuntime) {
    assert_eq!(rt; first_wrong(rt.alloc(), ROWS), "none");
}

/// Whether as many blanks as are read at all end early.
fn reads_most(alloc: Global) -> bool {
    let mut blanks = io::repeat(b' ').take(16_777_216);
    param(alloc, &mut blanks, AMPLE_ROOMS).is(Refusal("refused 24 EndsEarly\n"))
}

/// How much of an endless text is read: none where it isn't refused so.
fn read_of_endless_text(alloc: Global) -> Option<u64> {
    let mut text = EndlessReader { given: 0 };
    let run = param(alloc, &mut text, AMPLE_ROOMS);
    run.is(Refusal("refused 23 FileTooLong\n"))
        .then_some(text.given)
}

#[test]
fn reads_no_more_than_one_byte_too_many(rt: HostRuntime) {
    assert_eq!(rt;
        (reads_most(rt.alloc()), read_of_endless_text(rt.alloc())),
        (true, Some(16_777_217))
    );
}

/// Whether a string with a byte that begins no character is refused.
fn refuses_half_a_character(alloc: Global) -> bool {
    let mut text = b"'caf\xe9'".as_slice();
    param(alloc, &mut text, AMPLE_ROOMS).is(Refusal("refused 6 NotUtf8\n"))
}

#[test]
fn refuses_other_encodings(rt: HostRuntime) {
    assert!(rt; refuses_half_a_character(rt.alloc()));
}

/// A string of a million letters.
fn long_string(alloc: Global) -> Option<Vec<u8>> {
    let mut text = Vec::new(alloc);
    let Ok(()) = text.resize(1_000_002, b'a') else {
        return None;
    };
    text[0] = b'\'';
    text[1_000_001] = b'\'';
    Some(text)
}

/// Space for an answer of more than a million bytes.
const LONG_ROOMS: Rooms = Rooms {
    output: (2_000_000, 2_000_000),
    ..AMPLE_ROOMS
};

/// Whether a long string is written as it stands, with a line feed.
fn writes_long_string(alloc: Global) -> bool {
    let Some(text) = long_string(alloc) else {
        return false;
    };
    let mut reader = text.as_slice();
    param(alloc, &mut reader, LONG_ROOMS).is_line(&text)
}

#[test]
fn writes_a_million_letters(rt: HostRuntime) {
    assert!(rt; writes_long_string(rt.alloc()));
}

/// The status of want of memory, where its line is written.
fn want_of_memory(alloc: Global) -> Option<u8> {
    let mut faults = Watched::new(Vec::new(alloc));
    let status = report(&CommandFault::NoMemory, &mut faults);
    (faults.into_inner().as_slice() == b"out of memory\n".as_slice()).then_some(status)
}

#[test]
fn shows_want_of_memory(rt: HostRuntime) {
    assert_eq!(rt; want_of_memory(rt.alloc()), Some(3));
}
