//! Texts that are cut short.
use super::listing::DEMO_TEXT;
use super::refusal_of;
use p21_express_lexemes::SyntaxFault;
use std::alloc::Global;

/// A text, line by line, and under each of its bytes `!` where a string or a remark is open behind it, `=` where the text is
/// whole there.
const LINES: &[(&str, &str)] = &[
    (
        "SCHEMA s 'it''s' (* of (* two *) *);\n",
        ".........!!!.!!...!!!!!!!!!!!!!!!!...",
    ),
    ("-- 'tail (* remark\n", "..................."),
    (
        "ENTITY a; WHERE w : 'b;' <> \"41\";\n",
        "....................!!!.....!!!...",
    ),
    ("END_ENTITY; (*) *)\n", ".............!!!!.."),
    ("END_SCHEMA;", "..........="),
];

/// What a text that ends there is refused with.
fn fault_under(mark: u8) -> Option<SyntaxFault> {
    match mark {
        b'!' => Some(SyntaxFault::Token),
        b'.' => Some(SyntaxFault::Syntax),
        _ => None,
    }
}

/// At which byte of a line a text is answered otherwise that ends there. The line is put behind `front`.
fn first_wrong_end(alloc: Global, front: &mut Vec<u8>, line: &[u8], marks: &[u8]) -> Option<usize> {
    for (place, (byte, mark)) in line.iter().zip(marks.iter()).enumerate() {
        if front.push(*byte).is_err() || refusal_of(alloc, front) != fault_under(*mark) {
            return Some(place);
        }
    }
    if line.len() == marks.len() {
        None
    } else {
        Some(line.len())
    }
}

/// The line and the byte at which a text is answered otherwise that ends there.
fn first_wrong(alloc: Global) -> Option<(&'static str, usize)> {
    let mut front = Vec::new(alloc);
    for (line, marks) in LINES {
        if let Some(place) = first_wrong_end(alloc, &mut front, line.as_bytes(), marks.as_bytes()) {
            return Some((line, place));
        }
    }
    None
}

#[test]
fn refuses_a_text_cut_short(rt: HostRuntime) {
    assert_eq!(rt; first_wrong(rt.alloc()), None);
}

/// How many bytes of the demo are taken, or refused with something else, that aren't the whole.
fn first_front_taken(alloc: Global) -> Option<usize> {
    let bytes = DEMO_TEXT.trim_end().as_bytes();
    for end in 0..bytes.len() {
        if refusal_of(alloc, bytes.split_at(end).0) != Some(SyntaxFault::Syntax) {
            return Some(end);
        }
    }
    None
}

#[test]
fn refuses_the_demo_cut_short(rt: HostRuntime) {
    assert_eq!(rt; first_front_taken(rt.alloc()), None);
}
