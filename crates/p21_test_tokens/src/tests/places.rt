use super::*;
use p21_tokens::Places;

/// A text, and behind it the places of the bytes taken, of the token, of the statement and of the character.
type Rows = &'static [(&'static [u8], [u64; 4])];

const PLACES: Rows = &[
    (b"", [0, 0, 0, 0]),
    (b"  ", [2, 0, 0, 2]),
    (b"#1=A('x", [7, 5, 0, 7]),
    (b"#1=A(1,2)", [9, 8, 0, 9]),
    (b"A;\nB\n", [5, 3, 3, 5]),
    (b"A;B;", [4, 3, 2, 4]),
    (b"A;  B=%", [6, 6, 4, 6]),
    (b"A; /* x", [7, 3, 3, 7]),
    (b"A(/* x", [6, 2, 0, 6]),
    (b"A(/**/7 ", [8, 6, 0, 8]),
    (b"1/", [2, 1, 0, 2]),
    (b"1/x", [2, 1, 0, 2]),
    (b"A;1.E99999)", [10, 2, 2, 10]),
    (b"A-", [1, 0, 0, 1]),
    (b"A;ISO-1X", [7, 2, 2, 7]),
    (b"\"33B\"", [2, 0, 0, 2]),
    (b" 'a\\X2\\DD", [9, 1, 1, 9]),
    (b"'\xC3", [2, 0, 0, 1]),
    (b"'\xC3\xA9", [3, 0, 0, 3]),
    (b"'\xDF(", [2, 0, 0, 1]),
    (b"'\xE0\xA0", [3, 0, 0, 1]),
    (b"'\xE1", [2, 0, 0, 1]),
    (b"'\xE2\x82", [3, 0, 0, 1]),
    (b"'\xE2A", [2, 0, 0, 1]),
    (b"'\xED\x9F", [3, 0, 0, 1]),
    (b"'\xEF\xBF(", [3, 0, 0, 1]),
    (b"'\xF0", [2, 0, 0, 1]),
    (b"'\xF0\x90", [3, 0, 0, 1]),
    (b"'\xF0\x90\x80", [4, 0, 0, 1]),
    (b"'\xF1\x80", [3, 0, 0, 1]),
    (b"'\xF4\x8F\xBF", [4, 0, 0, 1]),
    (b"'\xF4\x8F\xBF\xBF", [5, 0, 0, 5]),
    (b"'a\xFC'", [2, 0, 0, 2]),
];

/// The places behind a text that comes in two pieces.
fn places_behind(alloc: Global, first: &[u8], second: &[u8]) -> Places {
    let mut reader = Reader::new(alloc, Limits::usual());
    reader.feed(first);
    reader.feed(second);
    reader.lexer.places()
}

/// The first text that leads to other places, in whatever two pieces it comes.
fn first_displaced(alloc: Global, rows: Rows) -> Option<&'static [u8]> {
    for row in rows {
        let (text, [byte, token, statement, character]) = *row;
        let wanted = Places {
            byte,
            token,
            statement,
            character,
        };
        for cut in 0..text.len() + 1 {
            if places_behind(alloc, &text[..cut], &text[cut..]) != wanted {
                return Some(text);
            }
        }
    }
    None
}

#[test]
fn says_where_it_stands(rt: HostRuntime) {
    assert_eq!(rt; first_displaced(rt.alloc(), PLACES), None);
}
