//! Lexemes of texts: how many there are, and what each call of the reader takes.
use p21_express_lexemes::{Lexemes, Mark, SyntaxFault, Wanted, read_over};

/// How many lexemes are read, and whether nothing is left behind them.
fn count(lexemes: &mut Lexemes) -> (usize, bool) {
    for count in 0..1000 {
        if !lexemes.advance() {
            return (count, lexemes.is_empty());
        }
    }
    (1000, lexemes.is_empty())
}

/// Texts, with the number of their lexemes, and whether nothing is left behind these.
type Rows = &'static [(&'static str, usize, bool)];

/// The first text with other lexemes.
fn first_wrong(rows: Rows) -> &'static str {
    for (text, lexemes, is_whole) in rows {
        if count(&mut Lexemes::new(text.as_bytes())) != (*lexemes, *is_whole) {
            return text;
        }
    }
    "none"
}

const TEXTS: Rows = &[
    ("", 0, true),
    ("a", 1, true),
    ("a1_B", 1, true),
    ("_a", 2, true),
    ("1a", 2, true),
    ("12 3", 2, true),
    ("1.5E4", 4, true),
    ("''", 1, true),
    ("'it''s'", 1, true),
    ("'a' 'b'", 2, true),
    ("\"00000041\"", 1, true),
    ("\"41\"\"42\"", 2, true),
    ("(a)", 3, true),
    ("( *)", 3, true),
    ("*)", 2, true),
    (":=<>:<=:||**", 12, true),
    ("a-b", 3, true),
    ("a- -b", 4, true),
    ("a--b\nc", 2, true),
    ("--", 0, true),
    ("---\n;", 1, true),
    ("-- (*\na", 1, true),
    ("(* -- *)a", 1, true),
    ("(* ' *)a", 1, true),
    ("'--' '(*'", 2, true),
    ("\u{1}a\u{7f}b\u{0}", 2, true),
    ("(*(*)*)*)", 0, true),
    ("(*)*)", 0, true),
    ("(***)", 0, true),
    ("(**)*)", 2, true),
];

#[test]
fn counts_lexemes(rt: HostRuntime) {
    assert_eq!(rt; first_wrong(TEXTS), "none");
}

/// Texts with something wrong behind so many lexemes, each before its nearest neighbour with nothing wrong in it.
const WRONG: Rows = &[
    ("(* a", 0, false),
    ("(* a *)", 0, true),
    ("(*)", 0, false),
    ("(**)", 0, true),
    ("(*(**)", 0, false),
    ("(*(**)*)", 0, true),
    ("a 'b", 1, false),
    ("a 'b'", 2, true),
    ("'a''", 0, false),
    ("'a'''", 1, true),
    ("a; \"41", 2, false),
    ("a; \"41\"", 3, true),
    ("a\u{e9}", 1, false),
    ("a'\u{e9}'", 2, true),
    ("\u{80}", 0, false),
    ("\u{7f}", 0, true),
];

#[test]
fn finds_what_is_no_lexeme(rt: HostRuntime) {
    assert_eq!(rt; first_wrong(WRONG), "none");
    assert_eq!(rt;
        Lexemes::new(b"(*").refusal(Wanted::Grammar),
        SyntaxFault::Token
    );
}

/// Words that are no names, in lower and in mixed case.
const RESERVED: &[&str] = &[
    "schema",
    "End_Schema",
    "entity",
    "End_Entity",
    "abstract",
    "SuperType",
    "subtype",
    "Of",
    "derive",
    "Inverse",
    "unique",
    "Where",
    "optional",
    "Self",
    "type",
    "End_Type",
    "enumeration",
    "Select",
    "integer",
    "Real",
    "number",
    "Boolean",
    "logical",
    "String",
    "binary",
    "Fixed",
    "array",
    "List",
    "set",
    "Bag",
    "aggregate",
    "Based_On",
    "extensible",
    "Generic",
    "generic_entity",
    "Renamed",
    "use",
    "Reference",
    "function",
    "End_Function",
    "procedure",
    "End_Procedure",
    "rule",
    "End_Rule",
    "constant",
    "End_Constant",
    "subtype_constraint",
    "End_Subtype_Constraint",
    "oneOf",
];

/// The first word that is taken or expected as a name, or that is no lexeme.
fn first_name(words: &'static [&'static str]) -> &'static str {
    for word in words {
        let mut lexemes = Lexemes::new(word.as_bytes());
        if lexemes.take_name().is_some() || lexemes.expect_name().is_ok() || !lexemes.advance() {
            return word;
        }
    }
    "none"
}

const NAMES: &[&str] = &[
    "schemas",
    "end_schema_",
    "end",
    "andor",
    "if",
    "o",
    "ones",
    "self1",
];

/// The first word that isn't taken as a name.
fn first_reserved(words: &'static [&'static str]) -> &'static str {
    for word in words {
        if Lexemes::new(word.as_bytes()).take_name().is_none() {
            return word;
        }
    }
    "none"
}

#[test]
fn knows_reserved_words(rt: HostRuntime) {
    assert_eq!(rt; first_name(RESERVED), "none");
    assert_eq!(rt; first_reserved(NAMES), "none");
}

/// A call, with its answer.
enum Call {
    TakeWord(&'static [u8], bool),
    TakeSymbol(u8, bool),
    TakeMarkedWord(&'static [u8], bool),
    TakeString(bool),
    // How many digits are taken.
    TakeDigits(Option<usize>),
    ExpectWord(&'static [u8], Result<(), SyntaxFault>),
    ExpectSymbol(u8, Result<(), SyntaxFault>),
    // Of another reader at the same place.
    ExpectNameAgain(&'static [u8]),
    IsEmpty(bool),
}

fn answers(lexemes: &mut Lexemes, call: &Call) -> bool {
    match call {
        Call::TakeWord(word, taken) => lexemes.take_word(word) == *taken,
        Call::TakeSymbol(byte, taken) => lexemes.take_symbol(*byte) == *taken,
        Call::TakeMarkedWord(word, taken) => lexemes.take(Mark::Word(word)) == *taken,
        Call::TakeString(taken) => lexemes.take_simple_string() == *taken,
        Call::TakeDigits(count) => lexemes.take_digits().map(|digits| digits.len()) == *count,
        Call::ExpectWord(word, answer) => lexemes.expect_word(word) == *answer,
        Call::ExpectSymbol(byte, answer) => lexemes.expect_symbol(*byte) == *answer,
        Call::ExpectNameAgain(name) => lexemes.again().expect_name() == Ok(*name),
        Call::IsEmpty(answer) => lexemes.is_empty() == *answer,
    }
}

const CALLS: &[Call] = &[
    Call::TakeWord(b"ENTITY", false),
    Call::ExpectWord(b"SCHEMA", Ok(())),
    Call::ExpectNameAgain(b"s"),
    Call::TakeMarkedWord(b"S", true),
    Call::TakeSymbol(b';', false),
    Call::TakeString(true),
    Call::ExpectSymbol(b';', Ok(())),
    Call::TakeDigits(Some(2)),
    Call::ExpectSymbol(b';', Err(SyntaxFault::LeftOut)),
    Call::IsEmpty(false),
    Call::TakeWord(b"USE", true),
    Call::IsEmpty(true),
    Call::ExpectWord(b"USE", Err(SyntaxFault::Syntax)),
];

/// The place of the first call that answers otherwise.
fn first_wrong_call(text: &[u8]) -> Option<usize> {
    let mut lexemes = Lexemes::new(text);
    for (place, call) in CALLS.iter().enumerate() {
        if !answers(&mut lexemes, call) {
            return Some(place);
        }
    }
    None
}

#[test]
fn takes_lexemes_one_by_one(rt: HostRuntime) {
    let text = b"Schema s 'v' ; 12 USE";
    assert!(rt; Lexemes::new(text).most() >= 6);
    assert_eq!(rt; first_wrong_call(text), None);
}

/// What comes of a run up to a closing parenthesis, and whether D stands behind it.
fn up_to_a_parenthesis(text: &[u8]) -> (Result<(), SyntaxFault>, bool) {
    let mut lexemes = Lexemes::new(text);
    let answer = read_over(&mut lexemes, Mark::Symbol(b'('), Mark::Symbol(b')'));
    (answer, lexemes.take_word(b"D"))
}

/// What comes of a run up to END_TYPE.
fn up_to_the_end_of_a_type(text: &[u8]) -> Result<(), SyntaxFault> {
    read_over(
        &mut Lexemes::new(text),
        Mark::Nothing,
        Mark::Word(b"END_TYPE"),
    )
}

#[test]
fn reads_over_runs(rt: HostRuntime) {
    assert_eq!(rt; up_to_a_parenthesis(b"a (b (c)) ) d"), (Ok(()), true));
    assert_eq!(rt;
        up_to_a_parenthesis(b"(b)"),
        (Err(SyntaxFault::Syntax), false)
    );
    assert_eq!(rt; up_to_the_end_of_a_type(b"b 'c"), Err(SyntaxFault::Token));
}

const FAULTS: &[(SyntaxFault, u8, &str)] = &[
    (SyntaxFault::Token, 1, "Token"),
    (SyntaxFault::Syntax, 2, "Syntax"),
    (SyntaxFault::LeftOut, 6, "LeftOut"),
    (SyntaxFault::Bounds, 7, "Bounds"),
    (SyntaxFault::TooLarge, 9, "TooLarge"),
    (SyntaxFault::NoMemory, 90, "NoMemory"),
];

/// The first fault with another number or name.
fn first_misnamed() -> &'static str {
    for (fault, number, name) in FAULTS {
        if fault.number() != *number || fault.name() != *name {
            return name;
        }
    }
    "none"
}

#[test]
fn names_faults(rt: HostRuntime) {
    assert_eq!(rt; first_misnamed(), "none");
}
