use super::*;

/// What a byte does behind bytes that are taken.
#[derive(Clone, Copy, Debug, PartialEq, Eq)]
enum Does {
    /// It is taken, and no token is given.
    GoesOn,
    /// A token is given, and it isn't taken.
    EndsIt,
    /// It is taken, and a token is given.
    IsLast,
    /// It is refused with this number.
    Refused(u8),
}

/// The last range of bytes that holds a byte says what it does.
type Ranges = &'static [(u8, u8, Does)];

type Rows = &'static [(&'static [u8], Ranges)];

fn expected(ranges: &[(u8, u8, Does)], byte: u8) -> Does {
    let mut does = Does::Refused(1);
    for (low, high, inside) in ranges {
        if *low <= byte && byte <= *high {
            does = *inside;
        }
    }
    does
}

/// What a byte does behind others.
fn found(alloc: Global, before: &[u8], byte: u8) -> Does {
    let mut reader = Reader::new(alloc, Limits::usual());
    reader.feed(before);
    match reader.lexer.next(&[byte]) {
        Ok((0, Some(_token))) => Does::EndsIt,
        Ok((_taken, Some(_token))) => Does::IsLast,
        Ok((_taken, None)) => Does::GoesOn,
        Err(fault) => Does::Refused(fault.number()),
    }
}

/// The first byte that does something else behind others than its range says.
fn first_byte(alloc: Global, before: &[u8], ranges: &[(u8, u8, Does)]) -> Option<u8> {
    for byte in 0..=255 {
        if found(alloc, before, byte) != expected(ranges, byte) {
            return Some(byte);
        }
    }
    None
}

/// Bytes, and one that does something else behind them than its row says: none where each does that.
type Otherwise = Option<(&'static [u8], u8)>;

fn first_otherwise(alloc: Global, rows: Rows) -> Otherwise {
    for (before, ranges) in rows {
        if let Some(byte) = first_byte(alloc, before, ranges) {
            return Some((before, byte));
        }
    }
    None
}

const BETWEEN: Ranges = &[
    (0x00, b' ', Does::GoesOn),
    (b'!', b'#', Does::GoesOn),
    (b'$', b'$', Does::IsLast),
    (b'&', b'&', Does::Refused(26)),
    (b'\'', b'\'', Does::GoesOn),
    (b'(', b'*', Does::IsLast),
    (b'+', b'+', Does::GoesOn),
    (b',', b',', Does::IsLast),
    (b'-', b'9', Does::GoesOn),
    (b';', b';', Does::IsLast),
    (b'=', b'=', Does::IsLast),
    (b'@', b'@', Does::Refused(26)),
    (b'A', b'Z', Does::GoesOn),
    (b'_', b'_', Does::GoesOn),
    (0x7F, 0x7F, Does::GoesOn),
];

const KEYWORD: Ranges = &[
    (0x00, 0xFF, Does::EndsIt),
    (b'-', b'-', Does::Refused(1)),
    (b'0', b'9', Does::GoesOn),
    (b'A', b'Z', Does::GoesOn),
    (b'_', b'_', Does::GoesOn),
];

const KEYWORD_OF_A_MARKER: Ranges = &[
    (0x00, 0xFF, Does::EndsIt),
    (b'-', b'-', Does::GoesOn),
    (b'0', b'9', Does::GoesOn),
    (b'A', b'Z', Does::GoesOn),
    (b'_', b'_', Does::GoesOn),
];

const MARKER: Ranges = &[
    (0x00, 0xFF, Does::EndsIt),
    (b'0', b'9', Does::Refused(1)),
    (b'A', b'Z', Does::Refused(1)),
    (b'_', b'_', Does::Refused(1)),
];

const WHOLE: Ranges = &[
    (0x00, 0xFF, Does::EndsIt),
    (b'.', b'.', Does::GoesOn),
    (b'0', b'9', Does::GoesOn),
];

const REAL: Ranges = &[
    (0x00, 0xFF, Does::EndsIt),
    (b'0', b'9', Does::GoesOn),
    (b'E', b'E', Does::GoesOn),
];

const DIGITS: Ranges = &[(0x00, 0xFF, Does::EndsIt), (b'0', b'9', Does::GoesOn)];

const STRING: Ranges = &[(0x00, 0xFF, Does::EndsIt), (b'\'', b'\'', Does::GoesOn)];

const BEHIND: Rows = &[
    (b"", BETWEEN),
    (b"(", BETWEEN),
    (b")", BETWEEN),
    (b",", BETWEEN),
    (b";", BETWEEN),
    (b"=", BETWEEN),
    (b"$", BETWEEN),
    (b"*", BETWEEN),
    (b".T.", BETWEEN),
    (b"\"23B\"", BETWEEN),
    (b"\"0\"", BETWEEN),
    (b" ", BETWEEN),
    (b"/**/", BETWEEN),
    (b"A", KEYWORD),
    (b"_9", KEYWORD),
    (b"ISO1", KEYWORD),
    (b"!A", KEYWORD),
    (b"!END", KEYWORD),
    (b"ISO", KEYWORD_OF_A_MARKER),
    (b"END", KEYWORD_OF_A_MARKER),
    (b"ISO-10303-21", MARKER),
    (b"END-ISO-10303-21", MARKER),
    (b"0", WHOLE),
    (b"-12", WHOLE),
    (b"+1.", REAL),
    (b"1.5", REAL),
    (b"1.E2", DIGITS),
    (b"1.5E-03", DIGITS),
    (b"#7", DIGITS),
    (b"'a'", STRING),
];

#[test]
fn knows_the_byte_behind_a_token(rt: HostRuntime) {
    assert_eq!(rt; first_otherwise(rt.alloc(), BEHIND), None);
}

const DIGIT_OR_7: Ranges = &[(0x00, 0xFF, Does::Refused(7)), (b'0', b'9', Does::GoesOn)];

const EXPONENT: Ranges = &[
    (0x00, 0xFF, Does::Refused(7)),
    (b'+', b'+', Does::GoesOn),
    (b'-', b'-', Does::GoesOn),
    (b'0', b'9', Does::GoesOn),
];

const OUT_OF_RANGE: Ranges = &[(0x00, 0xFF, Does::Refused(8)), (b'0', b'9', Does::GoesOn)];

const WORD_BEGINS: Ranges = &[(b'A', b'Z', Does::GoesOn), (b'_', b'_', Does::GoesOn)];

const ITEM: Ranges = &[
    (b'.', b'.', Does::IsLast),
    (b'0', b'9', Does::GoesOn),
    (b'A', b'Z', Does::GoesOn),
    (b'_', b'_', Does::GoesOn),
];

const NAME_BEGINS: Ranges = &[
    (0x00, 0xFF, Does::Refused(11)),
    (b'0', b'9', Does::GoesOn),
    (b'A', b'Z', Does::Refused(26)),
    (b'_', b'_', Does::Refused(26)),
];

const LARGEST_NAME: Ranges = &[
    (0x00, 0xFF, Does::EndsIt),
    (b'0', b'5', Does::GoesOn),
    (b'6', b'9', Does::Refused(10)),
];

const PADDING: Ranges = &[(0x00, 0xFF, Does::Refused(9)), (b'0', b'3', Does::GoesOn)];

const HEX_DIGITS: Ranges = &[
    (0x00, 0xFF, Does::Refused(9)),
    (b'"', b'"', Does::IsLast),
    (b'0', b'9', Does::GoesOn),
    (b'A', b'F', Does::GoesOn),
];

const ONE_PADDED: Ranges = &[(0x00, 0xFF, Does::Refused(9)), (b'0', b'7', Does::GoesOn)];

const THREE_PADDED: Ranges = &[(0x00, 0xFF, Does::Refused(9)), (b'0', b'1', Does::GoesOn)];

const INSIDE: Rows = &[
    (b"-", DIGIT_OR_7),
    (b"1.E", EXPONENT),
    (b"1.5E+", DIGIT_OR_7),
    (b"1.E99999", OUT_OF_RANGE),
    (b"!", WORD_BEGINS),
    (b".", WORD_BEGINS),
    (b".T", ITEM),
    (b"#", NAME_BEGINS),
    (b"#1844674407370955161", LARGEST_NAME),
    (b"\"", PADDING),
    (b"\"0", HEX_DIGITS),
    (b"\"1", ONE_PADDED),
    (b"\"2", PADDING),
    (b"\"3", THREE_PADDED),
    (b"\"31", HEX_DIGITS),
    (b"ISO-", &[(b'1', b'1', Does::GoesOn)]),
    (b"ISO-1", &[(b'0', b'0', Does::GoesOn)]),
    (b"ISO-10303", &[(b'-', b'-', Does::GoesOn)]),
    (b"ISO-10303-2", &[(b'1', b'1', Does::GoesOn)]),
    (b"END-", &[(b'I', b'I', Does::GoesOn)]),
    (b"END-ISO-10303-2", &[(b'1', b'1', Does::GoesOn)]),
    (b"/", &[(b'*', b'*', Does::GoesOn)]),
    (b"/*", &[(0x00, 0xFF, Does::GoesOn)]),
    (b"/**", &[(0x00, 0xFF, Does::GoesOn)]),
];

#[test]
fn knows_the_byte_inside_a_token(rt: HostRuntime) {
    assert_eq!(rt; first_otherwise(rt.alloc(), INSIDE), None);
}

const UNIT: Ranges = &[
    (0x00, 0x7F, Does::GoesOn),
    (0x80, 0xC1, Does::Refused(6)),
    (0xC2, 0xF4, Does::GoesOn),
    (0xF5, 0xFF, Does::Refused(6)),
];

const DIRECTIVE: Ranges = &[
    (0x00, 0xFF, Does::Refused(4)),
    (b'P', b'P', Does::GoesOn),
    (b'S', b'S', Does::GoesOn),
    (b'X', b'X', Does::GoesOn),
    (b'\\', b'\\', Does::GoesOn),
];

const OF_A_PAGE: Ranges = &[(0x00, 0xFF, Does::Refused(4)), (b' ', b'~', Does::GoesOn)];

const WIDTH: Ranges = &[
    (0x00, 0xFF, Does::Refused(4)),
    (b'2', b'2', Does::GoesOn),
    (b'4', b'4', Does::GoesOn),
    (b'\\', b'\\', Does::GoesOn),
];

const HEX: Ranges = &[
    (0x00, 0xFF, Does::Refused(4)),
    (b'0', b'9', Does::GoesOn),
    (b'A', b'F', Does::GoesOn),
];

const HEX_OR_END: Ranges = &[
    (0x00, 0xFF, Does::Refused(4)),
    (b'0', b'9', Does::GoesOn),
    (b'A', b'F', Does::GoesOn),
    (b'\\', b'\\', Does::GoesOn),
];

const BEHIND_HIGH: Ranges = &[
    (0x00, 0xFF, Does::Refused(4)),
    (b'0', b'9', Does::GoesOn),
    (b'A', b'F', Does::GoesOn),
    (b'\\', b'\\', Does::Refused(5)),
];

const NO_CHARACTER: Ranges = &[
    (0x00, 0xFF, Does::Refused(4)),
    (b'0', b'9', Does::Refused(5)),
    (b'A', b'F', Does::Refused(5)),
];

const INSIDE_A_STRING: Rows = &[
    (b"'", UNIT),
    (b"'a", UNIT),
    (b"'''", UNIT),
    (b"'\\X\\E9", UNIT),
    (b"'\\S\\'", UNIT),
    (b"'\\X2\\00E9\\X0\\", UNIT),
    (b"'\\", DIRECTIVE),
    (b"'\\S\\", OF_A_PAGE),
    (b"'\\X", WIDTH),
    (b"'\\X\\", HEX),
    (b"'\\X\\E", HEX),
    (b"'\\X2\\", HEX),
    (b"'\\X2\\00E", HEX),
    (b"'\\X2\\00E9", HEX_OR_END),
    (b"'\\X2\\D83D", BEHIND_HIGH),
    (b"'\\X2\\D83DDE0", HEX),
    (b"'\\X2\\D83DDE00", HEX_OR_END),
    (b"'\\X2\\D83DE00", NO_CHARACTER),
    (b"'\\X2\\DC0", NO_CHARACTER),
    (b"'\\X4\\", HEX),
    (b"'\\X4\\0010FFF", HEX),
    (b"'\\X4\\0011000", NO_CHARACTER),
    (b"'\\X4\\0000D80", NO_CHARACTER),
    (b"'\\X4\\0001F600", HEX_OR_END),
];

#[test]
fn knows_the_byte_inside_a_string(rt: HostRuntime) {
    assert_eq!(rt; first_otherwise(rt.alloc(), INSIDE_A_STRING), None);
}

/// Bytes of a character in UTF-8 that isn't whole, and the bytes with which it goes on.
type Characters = &'static [(&'static [u8], u8, u8)];

const CHARACTERS: Characters = &[
    (b"'\xC3", 0x80, 0xBF),
    (b"'\xE0", 0xA0, 0xBF),
    (b"'\xE2", 0x80, 0xBF),
    (b"'\xE2\x82", 0x80, 0xBF),
    (b"'\xED", 0x80, 0x9F),
    (b"'\xF0", 0x90, 0xBF),
    (b"'\xF1", 0x80, 0xBF),
    (b"'\xF4", 0x80, 0x8F),
];

fn first_otherwise_going_on(alloc: Global, rows: Characters) -> Otherwise {
    for (before, low, high) in rows {
        let ranges = [(0x00, 0xFF, Does::Refused(6)), (*low, *high, Does::GoesOn)];
        if let Some(byte) = first_byte(alloc, before, &ranges) {
            return Some((before, byte));
        }
    }
    None
}

#[test]
fn knows_the_byte_inside_a_character(rt: HostRuntime) {
    assert_eq!(rt; first_otherwise_going_on(rt.alloc(), CHARACTERS), None);
}
