ghost use Rattle.std.specs.Prelude.{◌≡◌, IsTrue};
ghost use Rattle.p21_tokens.specs.p21_spec_exchange.Laying.{HoldsScalar};
ghost use Rattle.p21_tokens.specs.p21_spec_exchange.Spelling as canonical;
ghost use Rattle.p21_tokens.specs.p21_spec_exchange.Token as meaning;

use p21_tokens::canonical_param;
use std::alloc::Global;

/// Whether this is the canonical spelling of the one scalar of a text.
fn is_spelling(alloc: Global, text: &[u8], spelling: &[u8]) -> bool
    ensures { IsTrue result → (token : meaning.Token) × HoldsScalar text.now token × (spelling.now ≡ canonical.spelling token) }
{
    match canonical_param(alloc, text) {
        Ok(answer) => answer.as_slice() == spelling,
        Err(_fault) => false,
    }
}

/// Whether this is the spelling of a text, or the name of its refusal.
fn is_answered(alloc: Global, text: &[u8], answer: &[u8]) -> bool {
    match canonical_param(alloc, text) {
        Ok(spelling) => spelling.as_slice() == answer,
        Err(fault) => fault.name().as_bytes() == answer,
    }
}

const SPELLINGS: &[(&str, &str)] = &[
    ("+012.500E+03", "1.25E4"),
    ("+007", "7"),
    ("-0", "0"),
    ("123.450", "1.2345E2"),
    ("1.E0000000001", "1.E1"),
    ("0.E999999999", "0."),
    ("1.E9999", "1.E9999"),
    (".T.", ".T."),
    ("$", "$"),
    ("*", "*"),
    ("\"23B\"", "\"23B\""),
    ("\"0\"", "\"0\""),
    ("\"30\"", "\"30\""),
    ("#007", "#7"),
    ("#18446744073709551615", "#18446744073709551615"),
    ("'caf\\X\\E9'", "'caf\\X2\\00E9\\X0\\'"),
    ("'\\X2\\D83DDE00\\X0\\'", "'\\X4\\0001F600\\X0\\'"),
    (" /* one */\n.T. /**/", ".T."),
];

/// The first text with another spelling, or whose spelling isn't its own.
fn first_wrong(alloc: Global) -> &'static str {
    for (text, spelling) in SPELLINGS {
        let is_right = is_spelling(alloc, text.as_bytes(), spelling.as_bytes())
            && is_spelling(alloc, spelling.as_bytes(), spelling.as_bytes());
        if !is_right {
            return text;
        }
    }
    "none"
}

#[test]
fn spells_each_scalar(rt: HostRuntime) {
    assert_eq!(rt; first_wrong(rt.alloc()), "none");
}

const REFUSALS: &[(&[u8], u8)] = &[
    (b"", 24),
    (b" /* none */ ", 24),
    (b"1 2", 12),
    (b"1 2 ", 12),
    (b"1 (", 12),
    (b"1 /* one */ .T", 24),
    (b"(1)", 12),
    (b"RED ", 12),
    (b"RED", 12),
    (b"!RED", 12),
    (b"ISO-10303-21;", 12),
    (b"10.E9999", 8),
    (b"0.E1000000000", 8),
    (b"1.E", 24),
    (b"1.EX", 7),
    (b"+x", 7),
    (b"+", 24),
    (b".t.", 1),
    (b"\"33B\"", 9),
    (b"\"1\"", 9),
    (b"#)", 11),
    (b"#18446744073709551616", 10),
    (b"&A", 26),
    (b"@1", 26),
    (b"#A", 26),
    (b"'a", 2),
    (b"1 'a", 2),
    (b"/*", 3),
    (b"'\\N\\'", 4),
    (b"'a\\PB\\b'", 4),
    (b"'\\X2\\00e9\\X0\\'", 4),
    (b"'\\X2\\D83D\\X0\\'", 5),
    (b"'\\X4\\00110000\\X0\\'", 5),
    (b"'\xE9'", 6),
];

fn refusal(alloc: Global, text: &[u8]) -> Option<u8> {
    match canonical_param(alloc, text) {
        Ok(_spelling) => None,
        Err(fault) => Some(fault.number()),
    }
}

/// The first text with another refusal, or with none.
fn first_taken(alloc: Global) -> &'static [u8] {
    for (text, number) in REFUSALS {
        if refusal(alloc, text) != Some(*number) {
            return text;
        }
    }
    b"none"
}

#[test]
fn refuses_what_is_no_scalar(rt: HostRuntime) {
    assert_eq!(rt; first_taken(rt.alloc()), b"none".as_slice());
}

/// The most bytes of a text.
const LONGEST: usize = 16_777_216;

/// Blanks and a 7 as the last of the most bytes, and more behind them: nothing for want of memory.
fn longest(alloc: Global, behind: &[u8]) -> Vec<u8> {
    let mut text: Vec<u8> = Vec::new(alloc);
    if text.resize(LONGEST - 1, b' ').is_err()
        || text.push(b'7').is_err()
        || text.extend_from_slice(behind).is_err()
    {
        text.clear();
    }
    text
}

#[test]
fn measures_the_text(rt: HostRuntime) {
    assert!(rt; is_answered(rt.alloc(), &longest(rt.alloc(), b""), b"7"));
    assert!(rt; is_answered(rt.alloc(), &longest(rt.alloc(), b" "), b"FileTooLong"));
}

#[test]
fn spells_long_numbers(rt: HostRuntime) {
    let mut text: Vec<u8> = Vec::new(rt.alloc());
    let has_memory = text.resize(5_000, b'7').is_ok();
    assert!(rt; has_memory && is_answered(rt.alloc(), &text, &text));
}
