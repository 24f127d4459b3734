//! How many bytes of a kind stand at the front.

use p21_tokens_automaton::{
    BinaryMode, Marker, Mode, NameMode, NumberMode, Run, TextMode, WordMode, blanks,
    plain_characters, run_of,
};

/// A state, bytes, and the run at their front.
type Runs = &'static [(Mode, &'static [u8], Run)];

/// The place of the first row with another run.
fn first_wrong(rows: Runs) -> Option<usize> {
    for (place, (mode, bytes, want)) in rows.iter().enumerate() {
        if run_of(*mode, bytes) != *want {
            return Some(place);
        }
    }
    None
}

const WHOLE: Mode = Mode::Number(NumberMode::Whole);

const KEYWORD: Mode = Mode::Word(WordMode::Keyword);

/// Behind a 7 of an instance name.
const NAME: Mode = Mode::Name(NameMode::Digits(7));

const INSIDE: Mode = Mode::Text(TextMode::Inside);

const RUNS: Runs = &[
    (Mode::Between, b" \t\r\n\x7F\0#", Run::Passed(6)),
    (Mode::Between, b"", Run::Passed(0)),
    (Mode::Slash, b"  ", Run::Passed(0)),
    (Mode::Comment, b"a \xFF / */", Run::Passed(6)),
    (WHOLE, b"1203.5", Run::PendingBytes(4)),
    (Mode::Number(NumberMode::Sign), b"12", Run::Passed(0)),
    (KEYWORD, b"ITEM_2(", Run::PendingBytes(6)),
    (
        Mode::Word(WordMode::Marker(Marker::Begin, 4)),
        b"10",
        Run::Passed(0),
    ),
    (Mode::Binary(BinaryMode::Hex), b"0AFG", Run::PendingBytes(3)),
    (NAME, b"05=", Run::Named(2, 705)),
    (INSIDE, b"a ~'b", Run::Characters(3)),
    (INSIDE, b"a\\", Run::Characters(1)),
    (INSIDE, b"a\nb", Run::Characters(1)),
    (INSIDE, b"\xC3\xA9 \xE2\x82\xACa'", Run::Utf8(7)),
    (INSIDE, b"\x7Fa", Run::Utf8(0)),
    (INSIDE, b"'a", Run::Utf8(0)),
];

#[test]
fn finds_runs(rt: HostRuntime) {
    assert_eq!(rt; first_wrong(RUNS), None);
}

/// Bytes, how many of a keyword stand at their front, and how many plain characters.
const FRONTS: &[(&[u8], usize, usize)] = &[
    (b"ITEM_2('A')", 6, 7),
    (b"A lower", 1, 7),
    (b"", 0, 0),
    (b"CARTESIAN_POINT_OF_A_LONG_NAME_0123456789 '", 41, 42),
    (b"A\xE9", 1, 1),
];

fn first_wrong_front() -> Option<usize> {
    for (place, (bytes, keyword, plain)) in FRONTS.iter().enumerate() {
        if run_of(KEYWORD, bytes) != Run::PendingBytes(*keyword)
            || plain_characters(bytes) != *plain
        {
            return Some(place);
        }
    }
    None
}

#[test]
fn finds_fronts(rt: HostRuntime) {
    assert_eq!(rt; first_wrong_front(), None);
}

/// Bytes, and how many blanks stand at their front.
const BLANKS: &[(&[u8], usize)] = &[(b" \t\n\x7F#", 4), (b"#", 0), (b"  ", 2)];

fn first_wrong_blanks() -> Option<usize> {
    for (place, (bytes, count)) in BLANKS.iter().enumerate() {
        if blanks(bytes) != *count {
            return Some(place);
        }
    }
    None
}

#[test]
fn finds_blanks(rt: HostRuntime) {
    assert_eq!(rt; first_wrong_blanks(), None);
}

/// Bytes behind a 7, how many digits stand at their front, and the number then.
const DIGITS: &[(&[u8], usize, u64)] = &[
    (b"05=", 2, 705),
    (b"A", 0, 7),
    (b"", 0, 7),
    (b"0000000000000000000", 18, 7_000_000_000_000_000_000),
];

fn first_wrong_digits() -> Option<usize> {
    for (place, (bytes, count, value)) in DIGITS.iter().enumerate() {
        if run_of(NAME, bytes) != Run::Named(*count, *value) {
            return Some(place);
        }
    }
    None
}

#[test]
fn finds_digits(rt: HostRuntime) {
    assert_eq!(rt; first_wrong_digits(), None);
}

const LONG: &[u8] =
    b"0123456789 (AN ITEM OF 90 CHARACTERS, ONE OF WHICH IS NEITHER A BLANK NOR A STAR) IS *THIS";

const LONG_64: &[u8] = b"0123456789 (AN ITEM OF 90 CHARACTERS, ONE OF WHICH IS NEITHER A ";

const LONG_RUNS: Runs = &[
    (Mode::Comment, LONG, Run::Passed(85)),
    (INSIDE, LONG, Run::Characters(90)),
    (INSIDE, LONG_64, Run::Characters(64)),
];

#[test]
fn finds_long_runs(rt: HostRuntime) {
    assert_eq!(rt; first_wrong(LONG_RUNS), None);
}

const NAMED: Mode = Mode::Name(NameMode::Digits(1));

const LONG_NAMES: Runs = &[
    (
        NAMED,
        b"8446744073709551615",
        Run::Named(18, 1_844_674_407_370_955_161),
    ),
    (
        NAMED,
        b"844674407370955161",
        Run::Named(18, 1_844_674_407_370_955_161),
    ),
];

#[test]
fn leaves_the_last_digits_of_a_long_name(rt: HostRuntime) {
    assert_eq!(rt; first_wrong(LONG_NAMES), None);
}
