//! What a byte does behind each state.

use p21_tokens_automaton::{
    Absent, Action, BinaryMode, Marker, Mode, NameMode, NumberMode, Single, TextMode, WordMode,
    Wrong, advance,
};

/// A state, a byte, and what it does there.
type Actions = &'static [(Mode, u8, Action)];

const INSIDE: Mode = Mode::Text(TextMode::Inside);

/// The place of the first row in which the byte does something else.
fn first_wrong(rows: Actions) -> Option<usize> {
    for (place, (mode, byte, want)) in rows.iter().enumerate() {
        if advance(*mode, *byte) != *want {
            return Some(place);
        }
    }
    None
}

const WHOLE: Mode = Mode::Number(NumberMode::Whole);

const FRACTION: Mode = Mode::Number(NumberMode::Fraction);

const MARKED: Mode = Mode::Word(WordMode::Marked(Marker::Begin));

const LONGEST: Mode = Mode::Name(NameMode::Digits(1_844_674_407_370_955_161));

const GREATEST: Mode = Mode::Name(NameMode::Digits(u64::MAX));

const PADDED: Mode = Mode::Binary(BinaryMode::Padding(2));

const HEX: Mode = Mode::Binary(BinaryMode::Hex);

const LOW: Mode = Mode::Text(TextMode::LowDigits(0xD83D, 3, 0xDE0));

const NO_LOW: Mode = Mode::Text(TextMode::LowDigits(0xD83D, 3, 0xE00));

const MORE: Mode = Mode::Text(TextMode::Extended2Next);

const GAPS_AND_TOKENS: Actions = &[
    (Mode::Between, 0x7F, Action::Pass(Mode::Between)),
    (Mode::Between, b'=', Action::Give(Single::Equals)),
    (Mode::Between, b'\\', Action::Refuse(Wrong::Byte)),
    (
        Mode::Between,
        b'@',
        Action::Refuse(Wrong::LeftOut(Absent::ValueName)),
    ),
    (Mode::Slash, b'*', Action::Pass(Mode::Comment)),
    (Mode::Comment, b'/', Action::Pass(Mode::Comment)),
    (Mode::Star, b'*', Action::Pass(Mode::Star)),
    (WHOLE, b'.', Action::Keep(FRACTION)),
    (FRACTION, b'.', Action::End),
    (
        Mode::Number(NumberMode::Sign),
        b'.',
        Action::Refuse(Wrong::Number),
    ),
    (Mode::Word(WordMode::Keyword), b'-', Action::Dash),
    (Mode::Word(WordMode::Item), b'.', Action::Close),
    (MARKED, b'0', Action::Refuse(Wrong::Byte)),
    (LONGEST, b'5', Action::Skip(GREATEST)),
    (LONGEST, b'6', Action::Refuse(Wrong::NameRange)),
    (PADDED, b'3', Action::Keep(HEX)),
    (PADDED, b'4', Action::Refuse(Wrong::Binary)),
];

#[test]
fn takes_gaps_and_tokens(rt: HostRuntime) {
    assert_eq!(rt; first_wrong(GAPS_AND_TOKENS), None);
}

const STRINGS: Actions = &[
    (INSIDE, b'\n', Action::Skip(INSIDE)),
    (
        Mode::Text(TextMode::Apostrophe),
        b'\'',
        Action::Put(INSIDE, '\''),
    ),
    (
        Mode::Text(TextMode::Page),
        b'i',
        Action::Put(INSIDE, '\u{E9}'),
    ),
    (
        Mode::Text(TextMode::HexMark),
        b'1',
        Action::Refuse(Wrong::Directive),
    ),
    (LOW, b'0', Action::Put(MORE, '\u{1F600}')),
    (NO_LOW, b'0', Action::Refuse(Wrong::CodePoint)),
    (
        Mode::Text(TextMode::Utf8Last(3)),
        b'(',
        Action::Refuse(Wrong::Utf8),
    ),
];

#[test]
fn takes_strings(rt: HostRuntime) {
    assert_eq!(rt; first_wrong(STRINGS), None);
}
