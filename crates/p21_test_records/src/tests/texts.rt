ghost use Rattle.std.specs.Prelude.{◌≤◌, length, sum};

use super::*;
use p21_grammar::{NoMemory, Word};
use p21_mapping_values::{append_byte, append_item, append_rising, append_separator, are_distinct};

/// The first row that doesn't hold.
fn first_false(rows: &[(&'static str, bool)]) -> &'static str {
    for (name, holds) in rows {
        if !*holds {
            return name;
        }
    }
    "none"
}

/// Whether texts that stand one behind the other are appended so behind another text.
fn appends(rt: &HostRuntime, before: &str, texts: &[u8], lengths: &[usize], wanted: &str) -> bool
    requires { sum lengths.now ≤ length texts.now }
{
    let mut out = Vec::new(rt.alloc());
    out.extend_from_slice(before.as_bytes()).is_ok()
        && append_rising(texts, lengths, &mut out).is_ok()
        && out.as_slice() == wanted.as_bytes()
}

#[test]
fn puts_texts_in_order(rt: HostRuntime) {
    let rows = [
        ("no text", appends(&rt, "x", b"", &[], "x()")),
        (
            "#2#10#1",
            appends(&rt, "x()", b"#2#10#1", &[2, 3, 2], "x()(#1,#10,#2)"),
        ),
        (
            "baaba",
            appends(&rt, "", b"baaba", &[1, 1, 2, 1], "(a,a,ab,b)"),
        ),
    ];
    passes(&rt, first_false(&rows));
}

/// Whether no two are equal of texts that stand one behind the other: none where memory runs out.
fn distinct(rt: &HostRuntime, texts: &[u8], lengths: &[usize]) -> Option<bool>
    requires { sum lengths.now ≤ length texts.now }
{
    are_distinct(rt.alloc(), texts, lengths).ok()
}

#[test]
fn finds_equal_texts(rt: HostRuntime) {
    let rows = [
        ("no text", distinct(&rt, b"", &[]) == Some(true)),
        (
            "#2#10#1",
            distinct(&rt, b"#2#10#1", &[2, 3, 2]) == Some(true),
        ),
        (
            "#2#10#2",
            distinct(&rt, b"#2#10#2", &[2, 3, 2]) == Some(false),
        ),
        (
            "abaab",
            distinct(&rt, b"abaab", &[1, 1, 1, 1, 1]) == Some(false),
        ),
        ("aab", distinct(&rt, b"aab", &[1, 2]) == Some(true)),
    ];
    passes(&rt, first_false(&rows));
}

/// Appends `$,` and an item.
fn append_pieces(item: &Word, out: &mut Vec<u8>) -> Result<(), NoMemory> {
    append_separator(true, out)?;
    append_byte(b'$', out)?;
    append_separator(false, out)?;
    append_item(item, out)
}

fn are_appended(rt: &HostRuntime, item: &str, wanted: &str) -> bool {
    let mut out = Vec::new(rt.alloc());
    match Word::read(rt.alloc(), item.as_bytes()) {
        Ok(word) => {
            append_pieces(&word, &mut out).is_ok() && out.as_slice() == wanted.as_bytes()
        }
        Err(_) => false,
    }
}

#[test]
fn appends_small_pieces(rt: HostRuntime) {
    assert!(rt; are_appended(&rt, "RED", "$,.RED."));
}
