use p21_express_lexemes::SyntaxFault;
use p21_express_syntax::read_declarations;
use std::alloc::Global;

mod cuts;
mod limits;
mod listing;
mod refusals;

/// What a text is refused with: none where it is read.
fn refusal_of(alloc: Global, text: &[u8]) -> Option<SyntaxFault> {
    read_declarations(alloc, text).err()
}

/// A text between two others, so many times over.
fn repeated(
    alloc: Global,
    front: &str,
    part: &str,
    count: usize,
    rest: &str,
) -> Result<Vec<u8>, SyntaxFault> {
    let mut text = Vec::from_slice(alloc, front.as_bytes())?;
    for _time in 0..count {
        text.extend_from_slice(part.as_bytes())?;
    }
    text.extend_from_slice(rest.as_bytes())?;
    Ok(text)
}

/// A schema of these declarations.
fn schema_of(alloc: Global, declarations: &str) -> Result<Vec<u8>, SyntaxFault> {
    repeated(alloc, "SCHEMA s; ", declarations, 1, " END_SCHEMA;")
}

/// What a schema of these declarations is refused with: none where it is read.
fn refusal(alloc: Global, declarations: &str) -> Option<SyntaxFault> {
    match schema_of(alloc, declarations) {
        Ok(text) => refusal_of(alloc, &text),
        Err(fault) => Some(fault),
    }
}

/// Texts, with the refusal of each: none where it is read.
type Answers = &'static [(&'static str, Option<SyntaxFault>)];

/// The first declarations that are answered otherwise.
fn first_wrong(alloc: Global, rows: Answers) -> &'static str {
    for (text, fault) in rows {
        if refusal(alloc, text) != *fault {
            return text;
        }
    }
    "none"
}

const ANSWERS: Answers = &[
    ("(* a (* b *) c *)", None),
    ("(* open", Some(SyntaxFault::Token)),
    ("(*(*)*)*)", None),
    ("(***)", None),
    ("(*)", Some(SyntaxFault::Token)),
    ("-- a tail ( * 'of \" a line\n", None),
    ("TYPE t = 'open; END_TYPE;", Some(SyntaxFault::Token)),
    ("TYPE t = \"open; END_TYPE;", Some(SyntaxFault::Token)),
    ("TYPE t = \u{e9}; END_TYPE;", Some(SyntaxFault::Token)),
    ("Type t = Real; end_Type;", None),
    ("ENTITY entity; END_ENTITY;", Some(SyntaxFault::Syntax)),
    ("ENTITY end; END_ENTITY;", None),
    ("ENTITY oneof; END_ENTITY;", Some(SyntaxFault::Syntax)),
    ("ENTITY a b; END_ENTITY;", Some(SyntaxFault::Syntax)),
    ("ENTITY a; x : REAL END_ENTITY;", Some(SyntaxFault::Syntax)),
    (
        "ENTITY a; x, : REAL; END_ENTITY;",
        Some(SyntaxFault::Syntax),
    ),
    ("ENTITY a; x, SELF\\b.y : REAL; END_ENTITY;", None),
    ("ENTITY a SUPERTYPE; END_ENTITY;", Some(SyntaxFault::Syntax)),
    (
        "ENTITY a SUBTYPE OF (b) ABSTRACT; END_ENTITY;",
        Some(SyntaxFault::Syntax),
    ),
    (
        "ENTITY a SUBTYPE OF (); END_ENTITY;",
        Some(SyntaxFault::Syntax),
    ),
    ("ENTITY a; DERIVE END_ENTITY;", None),
    ("ENTITY a; DERIVE x : REAL := ';'; END_ENTITY;", None),
    (
        "ENTITY a; DERIVE x : REAL := 1 END_ENTITY;",
        Some(SyntaxFault::Syntax),
    ),
    ("ENTITY a; WHERE w : 'END_ENTITY' <> ''; END_ENTITY;", None),
    ("ENTITY a; WHERE w : END_TYPE; END_ENTITY;", None),
    (
        "ENTITY a; INVERSE i : SET OF b FOR c; UNIQUE u : x; WHERE w : USE; END_ENTITY;",
        None,
    ),
    ("TYPE t = REAL(0); END_TYPE;", None),
    ("TYPE t = REAL(99999999999); END_TYPE;", None),
    ("TYPE t = REAL(n); END_TYPE;", Some(SyntaxFault::Syntax)),
    ("TYPE t = REAL(1+2); END_TYPE;", Some(SyntaxFault::Syntax)),
    ("TYPE t = STRING(3) FIXED; END_TYPE;", None),
    ("TYPE t = STRING(0); END_TYPE;", Some(SyntaxFault::Bounds)),
    ("TYPE t = STRING(0 x; END_TYPE;", Some(SyntaxFault::Bounds)),
    ("TYPE t = STRING(4294967295); END_TYPE;", None),
    ("TYPE t = STRING(04294967295); END_TYPE;", None),
    (
        "TYPE t = STRING(4294967296); END_TYPE;",
        Some(SyntaxFault::Bounds),
    ),
    (
        "TYPE t = BINARY(10000000000000000000000); END_TYPE;",
        Some(SyntaxFault::Bounds),
    ),
    ("TYPE t = STRING(); END_TYPE;", Some(SyntaxFault::LeftOut)),
    ("TYPE t = STRING(n); END_TYPE;", Some(SyntaxFault::LeftOut)),
    ("TYPE t = STRING(?); END_TYPE;", Some(SyntaxFault::Syntax)),
    (
        "TYPE t = STRING(2 * 3); END_TYPE;",
        Some(SyntaxFault::LeftOut),
    ),
    ("TYPE t = LIST [0:0] OF REAL; END_TYPE;", None),
    (
        "TYPE t = LIST [3:1] OF REAL; END_TYPE;",
        Some(SyntaxFault::Bounds),
    ),
    ("TYPE t = LIST [2:1; END_TYPE;", Some(SyntaxFault::Bounds)),
    (
        "TYPE t = LIST [?:1] OF REAL; END_TYPE;",
        Some(SyntaxFault::Bounds),
    ),
    ("TYPE t = LIST [1:?] OF REAL; END_TYPE;", None),
    (
        "TYPE t = LIST [0:4294967296] OF REAL; END_TYPE;",
        Some(SyntaxFault::Bounds),
    ),
    (
        "TYPE t = LIST [] OF REAL; END_TYPE;",
        Some(SyntaxFault::LeftOut),
    ),
    (
        "TYPE t = LIST [1+2:3] OF REAL; END_TYPE;",
        Some(SyntaxFault::LeftOut),
    ),
    (
        "TYPE t = LIST [1:n] OF REAL; END_TYPE;",
        Some(SyntaxFault::LeftOut),
    ),
    (
        "TYPE t = LIST [1 2:3] OF REAL; END_TYPE;",
        Some(SyntaxFault::Syntax),
    ),
    (
        "TYPE t = LIST [1] OF REAL; END_TYPE;",
        Some(SyntaxFault::Syntax),
    ),
    (
        "TYPE t = LIST [1:--\n-1] OF REAL; END_TYPE;",
        Some(SyntaxFault::LeftOut),
    ),
    (
        "TYPE t = ARRAY OF REAL; END_TYPE;",
        Some(SyntaxFault::Syntax),
    ),
    (
        "TYPE t = ARRAY [1:?] OF REAL; END_TYPE;",
        Some(SyntaxFault::Bounds),
    ),
    (
        "TYPE t = ARRAY [1:2] OF OPTIONAL UNIQUE REAL; END_TYPE;",
        None,
    ),
    (
        "TYPE t = ARRAY [1:2] OF UNIQUE OPTIONAL REAL; END_TYPE;",
        Some(SyntaxFault::Syntax),
    ),
    (
        "TYPE t = SET OF UNIQUE REAL; END_TYPE;",
        Some(SyntaxFault::Syntax),
    ),
    ("TYPE t = SELECT; END_TYPE;", Some(SyntaxFault::LeftOut)),
    ("TYPE t = SELECT (); END_TYPE;", Some(SyntaxFault::Syntax)),
    (
        "TYPE t = SELECT BASED_ON u; END_TYPE;",
        Some(SyntaxFault::LeftOut),
    ),
    (
        "TYPE t = EXTENSIBLE SELECT (a); END_TYPE;",
        Some(SyntaxFault::LeftOut),
    ),
    ("TYPE t = GENERIC; END_TYPE;", Some(SyntaxFault::LeftOut)),
    (
        "TYPE t = AGGREGATE OF REAL; END_TYPE;",
        Some(SyntaxFault::LeftOut),
    ),
    ("USE FROM t;", Some(SyntaxFault::LeftOut)),
    ("REFERENCE FROM t;", Some(SyntaxFault::LeftOut)),
    (
        "ENTITY a; x, USE : REAL; END_ENTITY;",
        Some(SyntaxFault::LeftOut),
    ),
    (
        "ENTITY a; x RENAMED y : REAL; END_ENTITY;",
        Some(SyntaxFault::LeftOut),
    ),
    ("FUNCTION f; FUNCTION g; END_FUNCTION; END_FUNCTION;", None),
    (
        "FUNCTION f; FUNCTION g; END_FUNCTION;",
        Some(SyntaxFault::Syntax),
    ),
    ("FUNCTION f; PROCEDURE p; END_FUNCTION;", None),
    (
        "PROCEDURE p; PROCEDURE q; END_PROCEDURE; END_PROCEDURE;",
        None,
    ),
    ("RULE r FOR (a); WHERE w : RULE; END_RULE;", None),
    ("CONSTANT c : REAL := 1.; END_CONSTANT;", None),
    ("SUBTYPE_CONSTRAINT c FOR a; END_SUBTYPE_CONSTRAINT;", None),
    ("RULE r; END_RULE", Some(SyntaxFault::Syntax)),
    ("END_SCHEMA; x", Some(SyntaxFault::Syntax)),
];

#[test]
fn answers_in_the_order_of_the_text(rt: HostRuntime) {
    assert_eq!(rt; first_wrong(rt.alloc(), ANSWERS), "none");
}

const WHOLE: Answers = &[
    ("SCHEMA s 'version'; END_SCHEMA;", None),
    (
        "SCHEMA s \"00000041\"; END_SCHEMA;",
        Some(SyntaxFault::Syntax),
    ),
    ("SCHEMA s; END_SCHEMA", Some(SyntaxFault::Syntax)),
    ("SCHEMA s; END_SCHEMA; -- end", None),
    ("SCHEMA s; END_SCHEMA; USE", Some(SyntaxFault::LeftOut)),
    ("SCHEMA USE; END_SCHEMA;", Some(SyntaxFault::LeftOut)),
    ("USE SCHEMA s; END_SCHEMA;", Some(SyntaxFault::LeftOut)),
    ("", Some(SyntaxFault::Syntax)),
];

/// The first whole text that is answered otherwise.
fn first_wrong_whole(alloc: Global, rows: Answers) -> &'static str {
    for (text, fault) in rows {
        if refusal_of(alloc, text.as_bytes()) != *fault {
            return text;
        }
    }
    "none"
}

#[test]
fn reads_whole_texts(rt: HostRuntime) {
    assert_eq!(rt; first_wrong_whole(rt.alloc(), WHOLE), "none");
}
