//! Tokens taken straight from their bytes to their canonical spellings, and what stands around them.

use p21_shorter_tokens::{
    Draft, append_bits, append_item, append_keyword, append_logical, append_name, append_real,
    append_text, append_whole, behind_separators, leading_keyword,
};
use p21_values::{ValueFault, Word};
use std::alloc::Global;

/// What is called.
#[derive(Clone, Copy)]
enum Call {
    Name,
    Text,
    Item,
    Logical,
    Whole,
    Real,
    Number,
    Bits,
    Keyword,
}

/// A call, bytes, how many of them the token at the front has, and what is appended.
type Rows = &'static [(Call, &'static str, usize, &'static str)];

/// How many bytes the token has that a call appends.
fn count_of(call: Call, bytes: &[u8], words: &[Word], draft: &mut Draft) -> Option<usize> {
    match call {
        Call::Name => Some(append_name(bytes, draft)?.0),
        Call::Text => Some(append_text(bytes, draft)?.0),
        Call::Item => append_item(bytes, words, draft),
        Call::Logical => append_logical(bytes, true, draft),
        Call::Whole => append_whole(bytes, draft),
        Call::Real => append_real(bytes, false, draft),
        Call::Number => append_real(bytes, true, draft),
        Call::Bits => Some(append_bits(bytes, draft)?.0),
        Call::Keyword => Some(append_keyword(bytes, draft)?.len()),
    }
}

/// The bytes of the first row of which something else comes.
fn first_wrong_of(words: &[Word], draft: &mut Draft, rows: Rows) -> &'static str {
    for (call, bytes, count, text) in rows {
        draft.cut(0);
        let found = count_of(*call, bytes.as_bytes(), words, draft);
        if found != Some(*count) || draft.between(0, draft.len()) != text.as_bytes() {
            return bytes;
        }
    }
    "none"
}

/// The words that an item may have here.
fn words(alloc: Global) -> Result<Vec<Word>, ValueFault> {
    let mut words = Vec::new(alloc);
    words.push(Word::read(alloc, b"GREEN")?)?;
    words.push(Word::read(alloc, b"RED")?)?;
    Ok(words)
}

fn first_wrong(alloc: Global, rows: Rows) -> &'static str {
    let mut draft = Draft::new(alloc);
    if draft.make_room(64).is_err() {
        return "the room";
    }
    match words(alloc) {
        Ok(words) => first_wrong_of(&words, &mut draft, rows),
        Err(_) => "the words",
    }
}

const TOKENS: Rows = &[
    (Call::Name, "#207=", 4, "#207"),
    (Call::Name, "#000207)", 7, "#207"),
    (Call::Name, "#00,", 3, "#0"),
    (
        Call::Text,
        "'it''s \\X2\\00E9\\X0\\',",
        20,
        "'it''s \\X2\\00E9\\X0\\'",
    ),
    (
        Call::Text,
        "'\\X2\\00E400F6\\X0\\',",
        18,
        "'\\X2\\00E4\\X0\\\\X2\\00F6\\X0\\'",
    ),
    (
        Call::Text,
        "'\\X\\41\\S\\d\u{E4}')",
        13,
        "'A\\X2\\00E4\\X0\\\\X2\\00E4\\X0\\'",
    ),
    (
        Call::Text,
        "'\\PA\\\\X2\\D83DDE00\\X0\\',",
        22,
        "'\\X4\\0001F600\\X0\\'",
    ),
    (Call::Item, ".RED.)", 5, ".RED."),
    (Call::Logical, ".U.,", 3, ".U."),
    (Call::Whole, "-0012,", 5, "-12"),
    (Call::Real, "-012.500E+03)", 12, "-1.25E4"),
    (Call::Real, "0.0,", 3, "0."),
    (Call::Number, "10,", 2, "1.E1"),
    (Call::Bits, "\"23B\")", 5, "\"23B\""),
    (Call::Keyword, "POINT(", 5, "POINT"),
];

#[test]
fn appends_tokens(rt: HostRuntime) {
    assert_eq!(rt; first_wrong(rt.alloc(), TOKENS), "none");
}

#[test]
fn finds_what_stands_at_the_front(rt: HostRuntime) {
    assert_eq!(rt; behind_separators(b" \n/* a */\x7F#1"), b"#1".as_slice());
    assert_eq!(rt; leading_keyword(b"MARKED('A')"), Some(b"MARKED".as_slice()));
}
