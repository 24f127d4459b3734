use super::{Pairs, Refusals, are_equal, is_spelled, passes};
use p21_values::{ValueFault, Word};

fn read(rt: &HostRuntime, text: &str) -> Result<Word, ValueFault> {
    Word::read(rt.alloc(), text.as_bytes())
}

/// Words of fewer bytes than lie in place, of as many, of one more and of many more: 24 do.
const WORDS: &[&str] = &[
    "RED",
    "T",
    "_",
    "A_1",
    "CARTESIAN_POINT",
    "AB_1",
    "A",
    "ABCDEFGHIJKLMNOPQRSTUVW",
    "ABCDEFGHIJKLMNOPQRSTUVWX",
    "ABCDEFGHIJKLMNOPQRSTUVWXY",
    "ABCDEFGHIJKLMNOPQRSTUVWXYZ_012345678",
];

/// Whether the word has these bytes.
fn is_kept(word: Result<Word, ValueFault>, text: &[u8]) -> bool {
    let Ok(word) = word else {
        return false;
    };
    word.holds();
    word.bytes() == text
}

/// The word that is the front of a line, of as many bytes as it has itself.
fn of_prefix(
    rt: &HostRuntime,
    word: Result<Word, ValueFault>,
    behind: &[u8],
) -> Result<Word, ValueFault> {
    let word = word?;
    let mut line = Vec::from_slice(rt.alloc(), word.bytes())?;
    line.extend_from_slice(behind)?;
    match Word::of_prefix(rt.alloc(), &line, word.bytes().len()) {
        Ok(front) => Ok(front),
        Err(_) => Err(ValueFault::NoMemory),
    }
}

/// Whether a word is read and spelled as it stands, and the front of a line is the same word.
fn is_right(rt: &HostRuntime, text: &str, behind: &[u8]) -> bool {
    is_kept(read(rt, text), text.as_bytes())
        && is_spelled(rt, read(rt, text), text.as_bytes())
        && is_spelled(rt, of_prefix(rt, read(rt, text), behind), text.as_bytes())
        && are_equal(of_prefix(rt, read(rt, text), behind), read(rt, text)) == Some(true)
}

/// The first word that isn't right in a line with these bytes behind it.
fn first_wrong(rt: &HostRuntime, words: &'static [&'static str], behind: &[u8]) -> &'static str {
    for text in words {
        if !is_right(rt, text, behind) {
            return text;
        }
    }
    "none"
}

const REFUSED: Refusals = &[
    ("red", ValueFault::BadWord),
    ("", ValueFault::BadWord),
    ("1A", ValueFault::BadWord),
    ("Red", ValueFault::BadWord),
    ("A-B", ValueFault::BadWord),
    ("A ", ValueFault::BadWord),
    (".T.", ValueFault::BadWord),
];

fn first_taken(rt: &HostRuntime, rows: Refusals) -> &'static str {
    for (text, fault) in rows {
        if read(rt, text).err() != Some(*fault) {
            return text;
        }
    }
    "none"
}

const PAIRS: Pairs = &[("RED", "RED", true), ("RED", "REDS", false)];

/// The second text of the first pair that doesn't mean what its row says.
fn first_unlike(rt: &HostRuntime, pairs: Pairs) -> &'static str {
    for (one, other, equal) in pairs {
        if are_equal(read(rt, one), read(rt, other)) != Some(*equal) {
            return other;
        }
    }
    "none"
}

#[test]
fn reads_refuses_and_compares(rt: HostRuntime) {
    passes(&rt, first_wrong(&rt, WORDS, b""));
    passes(&rt, first_wrong(&rt, &["AB_1"], b"("));
    passes(&rt, first_wrong(&rt, WORDS, b"('A',(0.,1.5,2.25));"));
    passes(&rt, first_taken(&rt, REFUSED));
    passes(&rt, first_unlike(&rt, PAIRS));
}
