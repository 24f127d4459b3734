use super::*;

/// Each kind of token.
const KINDS: [&str; 17] = [
    "ISO-10303-21 ",
    "END-ISO-10303-21 ",
    "K ",
    "!K ",
    "#1 ",
    "1 ",
    "1. ",
    "'' ",
    ".T.",
    "\"0\"",
    "(",
    ")",
    ",",
    ";",
    "=",
    "$",
    "*",
];

/// What a token does behind two texts: `.` it is taken, `E` a statement ends, and a letter for each refusal.
fn letter(rt: &HostRuntime, first: &str, before: &str, kind: &str) -> u8 {
    let mut reader = Reader::behind(rt, first, before);
    reader.given.clear();
    reader.feed(kind);
    if reader.is_steady() {
        letter_of(reader.refused, reader.given.is_empty())
    } else {
        b'?'
    }
}

fn letter_of(refused: Option<GrammarFault>, is_open: bool) -> u8 {
    match refused {
        None => { if is_open { b'.' } else { b'E' } }
        Some(GrammarFault::Unexpected) => b'x',
        Some(GrammarFault::LeftOut(Absent::UserKeyword)) => b'u',
        Some(GrammarFault::LeftOut(Absent::NoDataSection)) => b'n',
        Some(GrammarFault::LeftOut(Absent::SecondSection)) => b'2',
        Some(GrammarFault::LeftOut(Absent::Anchor)) => b'a',
        Some(GrammarFault::LeftOut(Absent::Reference)) => b'r',
        Some(GrammarFault::LeftOut(Absent::Signature)) => b'g',
        Some(GrammarFault::AfterEnd) => b'e',
        Some(GrammarFault::HeaderShape) => b'h',
        Some(GrammarFault::SectionShape) => b's',
        Some(_) => b'?',
    }
}

/// Whether these are the letters of these tokens behind two texts.
fn has_letters(
    rt: &HostRuntime,
    first: &str,
    before: &str,
    kinds: &[&str],
    letters: &[u8],
) -> bool {
    for (kind, expected) in kinds.iter().zip(letters.iter()) {
        if letter(rt, first, before, kind) != *expected {
            return false;
        }
    }
    letters.len() == kinds.len()
}

/// Texts, with a letter for each kind of token behind them.
type Letters = &'static [(&'static str, &'static str)];

/// The first text behind which a token does something else, where another stands before it.
fn first_wrong(rt: &HostRuntime, first: &str, rows: Letters) -> &'static str {
    for (before, letters) in rows {
        if !has_letters(rt, first, before, &KINDS, letters.as_bytes()) {
            return before;
        }
    }
    "none"
}

const IN_HEADER: Letters = &[
    ("", ".xxxxxxxxxxxxxxxx"),
    ("ISO-10303-21 ", "xxxxxxxxxxxxxExxx"),
    ("ISO-10303-21;", "xxxxxxxxxxxxxxxxx"),
    ("ISO-10303-21;HEADER ", "xxxxxxxxxxxxxExxx"),
    ("ISO-10303-21;HEADER;", "xx..xxxxxxxxxxxxx"),
    ("ISO-10303-21;HEADER;K ", "xxxxxxxxxx.xxxxxx"),
    ("ISO-10303-21;HEADER;ENDSEC ", "xxxxxxxxxx.xxhxxx"),
    ("ISO-10303-21;HEADER;K(", "xx..x.......xxx.."),
    ("ISO-10303-21;HEADER;K(1 ", "xxxxxxxxxxx..xxxx"),
    ("ISO-10303-21;HEADER;K(1,", "xx..x......xxxx.."),
    ("ISO-10303-21;HEADER;K(A ", "xxxxxxxxxx.xxxxxx"),
    ("ISO-10303-21;HEADER;K(A(", "xx..x......xxxx.."),
    ("ISO-10303-21;HEADER;K(A(1 ", "xxxxxxxxxxx.xxxxx"),
    ("ISO-10303-21;HEADER;K(1)", "xxxxxxxxxxxxxhxxx"),
    ("ISO-10303-21;HEADER;!K ", "xxxxxxxxxx.xxxxxx"),
    ("ISO-10303-21;HEADER;K(!A ", "xxxxxxxxxx.xxxxxx"),
    ("ISO-10303-21;HEADER;K((", "xx..x.......xxx.."),
    ("ISO-10303-21;HEADER;K((1 ", "xxxxxxxxxxx..xxxx"),
    ("ISO-10303-21;HEADER;K((1,", "xx..x......xxxx.."),
    ("ISO-10303-21;HEADER;K(()", "xxxxxxxxxxx..xxxx"),
    (
        "ISO-10303-21;HEADER;FILE_DESCRIPTION($,$)",
        "xxxxxxxxxxxxxExxx",
    ),
    (
        "ISO-10303-21;HEADER;FILE_DESCRIPTION($,$);",
        "xx..xxxxxxxxxxxxx",
    ),
];

const SCHEMA: &str =
    "ISO-10303-21;HEADER;FILE_DESCRIPTION($,$);FILE_NAME($,$,$,$,$,$,$);FILE_SCHEMA(('S'));";

const BEHIND_SCHEMA: Letters = &[
    ("", "xx..xxxxxxxxxxxxx"),
    ("K(1)", "xxxxxxxxxxxxxExxx"),
    ("!K()", "xxxxxxxxxxxxxExxx"),
    ("!K();", "xx..xxxxxxxxxxxxx"),
    ("FILE_NAME($,$,$,$,$,$,$)", "xxxxxxxxxxxxxhxxx"),
    ("ENDSEC ", "xxxxxxxxxx.xxExxx"),
    ("ENDSEC()", "xxxxxxxxxxxxxExxx"),
];

const IN_DATA: Letters = &[
    ("", "xnxxxxxxxxxxxxxxx"),
    ("DATA ", "xxxxxxxxxx.xxExxx"),
    ("DATA;", "xxxu.xxxxxxxxxxxx"),
    ("DATA;#1 ", "xxxuxxxxxxxxxx.xx"),
    ("DATA;#1=", "xx.uxxxxxx.xxxxxx"),
    ("DATA;#1=K ", "xxxuxxxxxx.xxxxxx"),
    ("DATA;#1=K(", "xx.u........xxx.."),
    ("DATA;#1=K(1 ", "xxxuxxxxxxx..xxxx"),
    ("DATA;#1=K(1,", "xx.u.......xxxx.."),
    ("DATA;#1=K((", "xx.u........xxx.."),
    ("DATA;#1=K((1 ", "xxxuxxxxxxx..xxxx"),
    ("DATA;#1=K((1,", "xx.u.......xxxx.."),
    ("DATA;#1=K(()", "xxxuxxxxxxx..xxxx"),
    ("DATA;#1=K(A ", "xxxuxxxxxx.xxxxxx"),
    ("DATA;#1=K(A(", "xx.u.......xxxx.."),
    ("DATA;#1=K(A(1 ", "xxxuxxxxxxx.xxxxx"),
    ("DATA;#1=K(1)", "xxxuxxxxxxxxxExxx"),
    ("DATA;#1=(", "xx.uxxxxxxxxxxxxx"),
    ("DATA;#1=(K ", "xxxuxxxxxx.xxxxxx"),
    ("DATA;#1=(K(", "xx.u........xxx.."),
    ("DATA;#1=(K(1 ", "xxxuxxxxxxx..xxxx"),
    ("DATA;#1=(K(1,", "xx.u.......xxxx.."),
    ("DATA;#1=(K()", "xx.uxxxxxxx.xxxxx"),
    ("DATA;#1=(K())", "xxxuxxxxxxxxxExxx"),
    ("DATA;#1=K();", "xxxu.xxxxxxxxxxxx"),
    ("DATA;ENDSEC ", "xxxuxxxxxxxxxExxx"),
    ("DATA;ENDSEC;", "x.xxxxxxxxxxxxxxx"),
    ("DATA;ENDSEC;END-ISO-10303-21 ", "xxxxxxxxxxxxxExxx"),
    ("DATA;ENDSEC;END-ISO-10303-21;", "eeeeeeeeeeeeeeeee"),
];

const IN_NAMED: Letters = &[
    ("DATA(", "xx.u........xxx.."),
    ("DATA()", "xxxxxxxxxxxxxsxxx"),
    ("DATA('a' ", "xxxuxxxxxxx..xxxx"),
    ("DATA('a')", "xxxxxxxxxxxxxsxxx"),
    ("DATA('a',", "xx.u.......xxxx.."),
    ("DATA(('S' ", "xxxuxxxxxxx..xxxx"),
    ("DATA(K ", "xxxuxxxxxx.xxxxxx"),
    ("DATA(K(", "xx.u.......xxxx.."),
    ("DATA(K(1 ", "xxxuxxxxxxx.xxxxx"),
    ("DATA('a',('S'))", "xxxxxxxxxxxxxExxx"),
    ("DATA('a',('S'));", "xxxu.xxxxxxxxxxxx"),
    ("DATA('a',('S'));#1=K(", "xx.u........xxx.."),
    ("DATA('a',('S'));#1=K()", "xxxuxxxxxxxxxExxx"),
    ("DATA('a',('S'));ENDSEC ", "xxxuxxxxxxxxxExxx"),
    ("DATA('a',('S'));ENDSEC;", "x.xxxxxxxxxxxxxxx"),
    ("DATA('a',('S'));ENDSEC;DATA ", "xxxxxxxxxx.xx2xxx"),
    (
        "DATA('a',('S'));ENDSEC;DATA('b',('S'))",
        "xxxxxxxxxxxxxExxx",
    ),
    (
        "DATA('a',('S'));ENDSEC;END-ISO-10303-21 ",
        "xxxxxxxxxxxxxExxx",
    ),
    (
        "DATA('a',('S'));ENDSEC;END-ISO-10303-21;",
        "eeeeeeeeeeeeeeeee",
    ),
];

/// Keywords with which sections begin or end.
const KEYWORDS: [&str; 6] = [
    "HEADER ",
    "ENDSEC ",
    "DATA ",
    "ANCHOR ",
    "REFERENCE ",
    "SIGNATURE ",
];

const BEHIND: &[(&str, &str, &str)] = &[
    ("", "", "xxxxxx"),
    ("", "ISO-10303-21;", ".xxarg"),
    ("", "ISO-10303-21;HEADER;", "......"),
    (HEAD, "", "xx.arg"),
    (HEAD, "DATA;", "x.xxxx"),
    (HEAD, "DATA;#1=", "......"),
    (HEAD, "DATA;#1=K();", "x.xxxx"),
    (HEAD, "DATA;ENDSEC;", "xx2arg"),
    (HEAD, "DATA('a',('S'));", "x.xxxx"),
    (HEAD, "DATA('a',('S'));ENDSEC;", "xx.arg"),
    (HEAD, "DATA;ENDSEC;END-ISO-10303-21;", "eeeeeg"),
    (HEAD, "DATA('a',('S'));ENDSEC;END-ISO-10303-21;", "eeeeeg"),
];

/// The place of the first row behind which a keyword is taken otherwise.
fn first_wrong_keyword(rt: &HostRuntime) -> Option<usize> {
    for (place, (first, before, letters)) in BEHIND.iter().enumerate() {
        if !has_letters(rt, first, before, &KEYWORDS, letters.as_bytes()) {
            return Some(place);
        }
    }
    None
}

#[test]
fn takes_tokens_and_keywords(rt: HostRuntime) {
    passes(&rt, first_wrong(&rt, "", IN_HEADER));
    passes(&rt, first_wrong(&rt, SCHEMA, BEHIND_SCHEMA));
    passes(&rt, first_wrong(&rt, HEAD, IN_DATA));
    passes(&rt, first_wrong(&rt, HEAD, IN_NAMED));
    passes_at(&rt, first_wrong_keyword(&rt));
}
