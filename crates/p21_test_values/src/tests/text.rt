use super::{Pairs, Spellings, appended, are_equal, is_spelled, passes};
use p21_values::{NoMemory, Text, ValueFault};

fn text(rt: &HostRuntime, characters: &str) -> Result<Text, NoMemory> {
    let mut text = Text::new(rt.alloc());
    for character in characters.chars() {
        text.push(character)?;
    }
    Ok(text)
}

fn read(rt: &HostRuntime, characters: &str) -> Result<Text, ValueFault> {
    match text(rt, characters) {
        Ok(text) => Ok(text),
        Err(_) => Err(ValueFault::NoMemory),
    }
}

const ROWS: Spellings = &[
    ("", r"''"),
    ("é'", r"'\X2\00E9\X0\'''"),
    ("café", r"'caf\X2\00E9\X0\'"),
    (r"it's \", r"'it''s \\'"),
    ("§x", r"'\X2\00A7\X0\x'"),
    ("Ü~", r"'\X2\00DC\X0\~'"),
    ("\u{7F}\n", r"'\X2\007F\X0\\X2\000A\X0\'"),
    ("\u{FFFF}", r"'\X2\FFFF\X0\'"),
    ("\u{1F600}", r"'\X4\0001F600\X0\'"),
    (
        "a label of more than sixteen",
        r"'a label of more than sixteen'",
    ),
];

fn first_wrong(rt: &HostRuntime, rows: Spellings) -> &'static str {
    for (text, spelling) in rows {
        if !is_spelled(rt, read(rt, text), spelling.as_bytes()) {
            return text;
        }
    }
    "none"
}

/// Whether a text, with nothing and then with characters and bytes added, has these characters.
fn has_characters(
    word: Result<Text, NoMemory>,
    added: &str,
    latin1: &[u8],
    characters: &[char],
) -> bool {
    let Ok(mut word) = word else {
        return false;
    };
    if word.push_str("").is_err()
        || word.push_str(added).is_err()
        || word.push_latin1(b"").is_err()
        || word.push_latin1(latin1).is_err()
    {
        return false;
    }
    word.len() == characters.len() && word.chars() == characters
}

/// By its name: characters, what is added to them by each call, and the characters that then stand there.
type Added = &'static [(
    &'static str,
    &'static str,
    &'static str,
    &'static [u8],
    &'static [char],
)];

const ADDED: Added = &[
    ("nothing", "é'", "", b"", &['é', '\'']),
    (
        "characters",
        "\u{20AC}",
        "a\u{E9}\u{1F600}",
        b"",
        &['\u{20AC}', 'a', '\u{E9}', '\u{1F600}'],
    ),
    (
        "bytes",
        "\u{20AC}",
        "",
        b"a ~\xE9",
        &['\u{20AC}', 'a', ' ', '~', '\u{E9}'],
    ),
];

/// By its name: the first row with other characters.
fn first_otherwise_added(rt: &HostRuntime, rows: Added) -> &'static str {
    for (name, before, added, latin1, characters) in rows {
        if !has_characters(text(rt, before), added, latin1, characters) {
            return name;
        }
    }
    "none"
}

const PAIRS: Pairs = &[("é'", "é'", true), ("é'", "é\"", false), ("é", "é'", false)];

/// The second text of the first pair that doesn't mean what its row says.
fn first_unlike(rt: &HostRuntime, pairs: Pairs) -> &'static str {
    for (one, other, equal) in pairs {
        if are_equal(read(rt, one), read(rt, other)) != Some(*equal) {
            return other;
        }
    }
    "none"
}

#[test]
fn spells_adds_and_compares(rt: HostRuntime) {
    passes(&rt, first_wrong(&rt, ROWS));
    passes(&rt, first_otherwise_added(&rt, ADDED));
    passes(&rt, first_unlike(&rt, PAIRS));
    let out = appended(&rt, b"(", read(&rt, "a"));
    assert!(rt; out.as_slice() == b"('a'".as_slice());
    assert!(rt; Text::new(rt.alloc()).len() == 0);
}
