//! Refused texts, each beside its nearest neighbour that is read.
use super::{Answers, first_wrong, refusal};
use p21_express_lexemes::SyntaxFault;
use std::alloc::Global;

/// Refused declarations, each with others that are read.
type Pairs = &'static [(&'static str, &'static str)];

/// The first declarations that aren't refused so, or whose neighbour isn't read.
fn first_wrong_pair(alloc: Global, pairs: Pairs, fault: SyntaxFault) -> &'static str {
    for (refused, neighbour) in pairs {
        if refusal(alloc, refused) != Some(fault) {
            return refused;
        }
        if refusal(alloc, neighbour).is_some() {
            return neighbour;
        }
    }
    "none"
}

const REMARKS: Pairs = &[
    ("(* open", "(* closed *)"),
    ("(* (* one *)", "(* (* both *) *)"),
    ("(*(*)*)", "(*(*)*)*)"),
    ("(*)", "(**)"),
    ("(* -- *(", "(* -- *)"),
];

#[test]
fn refuses_open_remarks(rt: HostRuntime) {
    assert_eq!(rt;
        first_wrong_pair(rt.alloc(), REMARKS, SyntaxFault::Token),
        "none"
    );
}

const STRINGS: Pairs = &[
    (
        "ENTITY a; WHERE w : 'x; END_ENTITY;",
        "ENTITY a; WHERE w : 'x'; END_ENTITY;",
    ),
    (
        "ENTITY a; WHERE w : 'x''; END_ENTITY;",
        "ENTITY a; WHERE w : 'x'''; END_ENTITY;",
    ),
    (
        "ENTITY a; WHERE w : \"41; END_ENTITY;",
        "ENTITY a; WHERE w : \"41\"; END_ENTITY;",
    ),
    (
        "ENTITY a; DERIVE x : b := '; END_ENTITY;",
        "ENTITY a; DERIVE x : b := ''; END_ENTITY;",
    ),
    (
        "RULE r; 'END_RULE; END_RULE;",
        "RULE r; 'END_RULE;' END_RULE;",
    ),
];

#[test]
fn refuses_open_strings(rt: HostRuntime) {
    assert_eq!(rt;
        first_wrong_pair(rt.alloc(), STRINGS, SyntaxFault::Token),
        "none"
    );
}

const BYTES: Pairs = &[
    ("ENTITY \u{e9}; END_ENTITY;", "ENTITY e; END_ENTITY;"),
    (
        "ENTITY a; WHERE w : \u{e9}; END_ENTITY;",
        "ENTITY a; WHERE w : '\u{e9}'; END_ENTITY;",
    ),
    ("ENTITY\u{a0}a; END_ENTITY;", "ENTITY\u{7f}a; END_ENTITY;"),
    (
        "\u{feff}ENTITY a; END_ENTITY;",
        "(*\u{feff}*)ENTITY a; END_ENTITY;",
    ),
    (
        "TYPE t = REAL; END_TYPE;\u{85}",
        "TYPE t = REAL; END_TYPE;\u{1f}",
    ),
];

#[test]
fn refuses_bytes_that_begin_no_lexeme(rt: HostRuntime) {
    assert_eq!(rt;
        first_wrong_pair(rt.alloc(), BYTES, SyntaxFault::Token),
        "none"
    );
}

const ENTITIES: Pairs = &[
    (
        "ENTITY a SUBTYPE (b); END_ENTITY;",
        "ENTITY a SUBTYPE OF (b); END_ENTITY;",
    ),
    (
        "ENTITY a SUBTYPE OF (b,); END_ENTITY;",
        "ENTITY a SUBTYPE OF (b, c); END_ENTITY;",
    ),
    (
        "ENTITY a SUPERTYPE; END_ENTITY;",
        "ENTITY a ABSTRACT SUPERTYPE; END_ENTITY;",
    ),
    (
        "ENTITY a SUPERTYPE OF b; END_ENTITY;",
        "ENTITY a SUPERTYPE OF (b); END_ENTITY;",
    ),
    (
        "ENTITY a SUBTYPE OF (b) SUPERTYPE OF (c); END_ENTITY;",
        "ENTITY a SUPERTYPE OF (c) SUBTYPE OF (b); END_ENTITY;",
    ),
    ("ENTITY a END_ENTITY;", "ENTITY a; END_ENTITY;"),
    ("ENTITY a; END_ENTITY", "ENTITY a; END_ENTITY;"),
    ("ENTITY a; END_TYPE;", "ENTITY a; END_ENTITY;"),
];

#[test]
fn refuses_misshapen_entities(rt: HostRuntime) {
    assert_eq!(rt;
        first_wrong_pair(rt.alloc(), ENTITIES, SyntaxFault::Syntax),
        "none"
    );
}

const ATTRIBUTES: Pairs = &[
    (
        "ENTITY a; x REAL; END_ENTITY;",
        "ENTITY a; x : REAL; END_ENTITY;",
    ),
    (
        "ENTITY a; x y : REAL; END_ENTITY;",
        "ENTITY a; x, y : REAL; END_ENTITY;",
    ),
    (
        "ENTITY a; x : OPTIONAL; END_ENTITY;",
        "ENTITY a; x : OPTIONAL REAL; END_ENTITY;",
    ),
    (
        "ENTITY a; x : LIST OF OPTIONAL REAL; END_ENTITY;",
        "ENTITY a; x : OPTIONAL LIST OF REAL; END_ENTITY;",
    ),
    (
        "ENTITY a; SELF.x : REAL; END_ENTITY;",
        "ENTITY a; SELF\\b.x : REAL; END_ENTITY;",
    ),
    (
        "ENTITY a; SELF\\b : REAL; END_ENTITY;",
        "ENTITY a; SELF\\b.x : REAL; END_ENTITY;",
    ),
    (
        "ENTITY a; DERIVE x REAL := 1; END_ENTITY;",
        "ENTITY a; DERIVE x : REAL := 1; END_ENTITY;",
    ),
];

#[test]
fn refuses_misshapen_attributes(rt: HostRuntime) {
    assert_eq!(rt;
        first_wrong_pair(rt.alloc(), ATTRIBUTES, SyntaxFault::Syntax),
        "none"
    );
}

const TYPES: Pairs = &[
    ("TYPE t REAL; END_TYPE;", "TYPE t = REAL; END_TYPE;"),
    ("TYPE t = REAL END_TYPE;", "TYPE t = REAL; END_TYPE;"),
    ("TYPE t = REAL(n); END_TYPE;", "TYPE t = REAL(0); END_TYPE;"),
    (
        "TYPE t = ENUMERATION (a); END_TYPE;",
        "TYPE t = ENUMERATION OF (a); END_TYPE;",
    ),
    (
        "TYPE t = ENUMERATION OF (); END_TYPE;",
        "TYPE t = ENUMERATION OF (a); END_TYPE;",
    ),
    (
        "TYPE t = SELECT (); END_TYPE;",
        "TYPE t = SELECT (a); END_TYPE;",
    ),
    (
        "TYPE t = ARRAY OF REAL; END_TYPE;",
        "TYPE t = LIST OF REAL; END_TYPE;",
    ),
    (
        "TYPE t = LIST [1:2] REAL; END_TYPE;",
        "TYPE t = LIST [1:2] OF REAL; END_TYPE;",
    ),
    (
        "TYPE t = SET OF UNIQUE REAL; END_TYPE;",
        "TYPE t = LIST OF UNIQUE REAL; END_TYPE;",
    ),
    (
        "TYPE t = INTEGER(3); END_TYPE;",
        "TYPE t = STRING(3); END_TYPE;",
    ),
];

#[test]
fn refuses_misshapen_types(rt: HostRuntime) {
    assert_eq!(rt;
        first_wrong_pair(rt.alloc(), TYPES, SyntaxFault::Syntax),
        "none"
    );
}

const NAMES: Pairs = &[
    ("ENTITY list; END_ENTITY;", "ENTITY lists; END_ENTITY;"),
    ("ENTITY where; END_ENTITY;", "ENTITY local; END_ENTITY;"),
    ("ENTITY 1a; END_ENTITY;", "ENTITY a1; END_ENTITY;"),
    ("ENTITY _a; END_ENTITY;", "ENTITY a_; END_ENTITY;"),
    (
        "TYPE end_rule = REAL; END_TYPE;",
        "TYPE end_list = REAL; END_TYPE;",
    ),
    (
        "TYPE t = ENUMERATION OF (fixed); END_TYPE;",
        "TYPE t = ENUMERATION OF (if); END_TYPE;",
    ),
    (
        "ENTITY a; unique : REAL; x : b; END_ENTITY",
        "ENTITY a; uniques : REAL; x : b; END_ENTITY;",
    ),
];

#[test]
fn refuses_words_as_names(rt: HostRuntime) {
    assert_eq!(rt;
        first_wrong_pair(rt.alloc(), NAMES, SyntaxFault::Syntax),
        "none"
    );
}

const READ_OVER: Pairs = &[
    ("RULE r; END_RULE", "RULE r; END_RULE;"),
    ("RULE r; END_CONSTANT;", "CONSTANT r; END_CONSTANT;"),
    ("FUNCTION f; END_PROCEDURE;", "PROCEDURE f; END_PROCEDURE;"),
    (
        "FUNCTION f; FUNCTION g; FUNCTION h; END_FUNCTION; END_FUNCTION;",
        "FUNCTION f; FUNCTION g; FUNCTION h; END_FUNCTION; END_FUNCTION; END_FUNCTION;",
    ),
    (
        "FUNCTION f; FUNCTION g; END_FUNCTION; PROCEDURE p;",
        "FUNCTION f; FUNCTION g; END_FUNCTION; PROCEDURE p; END_FUNCTION;",
    ),
    ("ENTITY a; END_ENTITY; ;", "ENTITY a; WHERE ; ; END_ENTITY;"),
    (
        "TYPE t = REAL; UNIQUE END_TYPE;",
        "TYPE t = REAL; WHERE UNIQUE END_TYPE;",
    ),
];

#[test]
fn refuses_what_nothing_closes(rt: HostRuntime) {
    assert_eq!(rt;
        first_wrong_pair(rt.alloc(), READ_OVER, SyntaxFault::Syntax),
        "none"
    );
}

const LEFT_OUT: Pairs = &[
    ("USE FROM t;", "RULE use; END_RULE;"),
    (
        "REFERENCE FROM t (a);",
        "CONSTANT reference : a; END_CONSTANT;",
    ),
    (
        "ENTITY a SUPERTYPE OF (b) BASED_ON c; END_ENTITY;",
        "ENTITY a SUPERTYPE OF (b BASED_ON c); END_ENTITY;",
    ),
    (
        "TYPE t = EXTENSIBLE SELECT (a); END_TYPE;",
        "TYPE t = SELECT (a); END_TYPE;",
    ),
    (
        "TYPE t = SELECT; END_TYPE;",
        "TYPE t = SELECT (a); END_TYPE;",
    ),
    (
        "TYPE t = SELECT a; END_TYPE;",
        "TYPE t = SELECT (a); END_TYPE;",
    ),
    (
        "TYPE t = ENUMERATION BASED_ON e; END_TYPE;",
        "TYPE t = ENUMERATION OF (e); END_TYPE;",
    ),
    (
        "TYPE t = LIST OF AGGREGATE OF REAL; END_TYPE;",
        "TYPE t = LIST OF BAG OF REAL; END_TYPE;",
    ),
    (
        "TYPE t = GENERIC; END_TYPE;",
        "TYPE t = GENERICS; END_TYPE;",
    ),
    (
        "ENTITY a; SELF\\b.x RENAMED y : REAL; END_ENTITY;",
        "ENTITY a; SELF\\b.x : REAL; END_ENTITY;",
    ),
];

#[test]
fn refuses_what_is_left_out(rt: HostRuntime) {
    assert_eq!(rt;
        first_wrong_pair(rt.alloc(), LEFT_OUT, SyntaxFault::LeftOut),
        "none"
    );
}

const EXPRESSIONS: Pairs = &[
    (
        "TYPE t = STRING(n); END_TYPE;",
        "TYPE t = STRING(1); END_TYPE;",
    ),
    ("TYPE t = STRING(); END_TYPE;", "TYPE t = STRING; END_TYPE;"),
    (
        "TYPE t = BINARY(2 * 3) FIXED; END_TYPE;",
        "TYPE t = BINARY(6) FIXED; END_TYPE;",
    ),
    (
        "TYPE t = LIST [] OF REAL; END_TYPE;",
        "TYPE t = LIST OF REAL; END_TYPE;",
    ),
    (
        "TYPE t = LIST [-1:2] OF REAL; END_TYPE;",
        "TYPE t = LIST [1:2] OF REAL; END_TYPE;",
    ),
    (
        "TYPE t = LIST [1:] OF REAL; END_TYPE;",
        "TYPE t = LIST [1:?] OF REAL; END_TYPE;",
    ),
    (
        "TYPE t = LIST [1 DIV 1:2] OF REAL; END_TYPE;",
        "TYPE t = LIST [1:2] OF REAL; END_TYPE;",
    ),
    (
        "TYPE t = ARRAY [1:n] OF REAL; END_TYPE;",
        "TYPE t = ARRAY [1:2] OF REAL; END_TYPE;",
    ),
    (
        "TYPE t = ARRAY [1:2.] OF REAL; END_TYPE;",
        "TYPE t = ARRAY [1:2] OF REAL; END_TYPE;",
    ),
];

#[test]
fn refuses_expressions_as_bounds(rt: HostRuntime) {
    assert_eq!(rt;
        first_wrong_pair(rt.alloc(), EXPRESSIONS, SyntaxFault::LeftOut),
        "none"
    );
}

const BOUNDS: Pairs = &[
    (
        "TYPE t = LIST [3:1] OF REAL; END_TYPE;",
        "TYPE t = LIST [1:3] OF REAL; END_TYPE;",
    ),
    (
        "TYPE t = SET [1:0] OF REAL; END_TYPE;",
        "TYPE t = SET [0:0] OF REAL; END_TYPE;",
    ),
    (
        "TYPE t = BAG [?:1] OF REAL; END_TYPE;",
        "TYPE t = BAG [1:?] OF REAL; END_TYPE;",
    ),
    (
        "TYPE t = ARRAY [1:?] OF REAL; END_TYPE;",
        "TYPE t = ARRAY [1:1] OF REAL; END_TYPE;",
    ),
    (
        "TYPE t = ARRAY [2:1] OF REAL; END_TYPE;",
        "TYPE t = ARRAY [2:2] OF REAL; END_TYPE;",
    ),
    (
        "TYPE t = LIST [4294967296:?] OF REAL; END_TYPE;",
        "TYPE t = LIST [4294967295:?] OF REAL; END_TYPE;",
    ),
    (
        "TYPE t = ARRAY [0:4294967296] OF REAL; END_TYPE;",
        "TYPE t = ARRAY [0:4294967295] OF REAL; END_TYPE;",
    ),
    (
        "TYPE t = SET [18446744073709551617:?] OF REAL; END_TYPE;",
        "TYPE t = SET [00000000000000000001:?] OF REAL; END_TYPE;",
    ),
];

#[test]
fn refuses_bounds_out_of_range(rt: HostRuntime) {
    assert_eq!(rt;
        first_wrong_pair(rt.alloc(), BOUNDS, SyntaxFault::Bounds),
        "none"
    );
}

const WIDTHS: Pairs = &[
    (
        "TYPE t = STRING(0); END_TYPE;",
        "TYPE t = STRING(1); END_TYPE;",
    ),
    (
        "TYPE t = STRING(000); END_TYPE;",
        "TYPE t = STRING(001); END_TYPE;",
    ),
    (
        "TYPE t = BINARY(0) FIXED; END_TYPE;",
        "TYPE t = BINARY(1) FIXED; END_TYPE;",
    ),
    (
        "TYPE t = STRING(4294967296); END_TYPE;",
        "TYPE t = STRING(4294967295); END_TYPE;",
    ),
    (
        "TYPE t = BINARY(4294967296) FIXED; END_TYPE;",
        "TYPE t = BINARY(4294967295) FIXED; END_TYPE;",
    ),
];

#[test]
fn refuses_widths_out_of_range(rt: HostRuntime) {
    assert_eq!(rt;
        first_wrong_pair(rt.alloc(), WIDTHS, SyntaxFault::Bounds),
        "none"
    );
}

/// Texts with more than one thing wrong: the first counts.
const FIRST: Answers = &[
    ("USE 'open", Some(SyntaxFault::LeftOut)),
    ("'open USE", Some(SyntaxFault::Token)),
    (
        "ENTITY USE; END_ENTITY; (* open",
        Some(SyntaxFault::LeftOut),
    ),
    (
        "ENTITY a b; END_ENTITY; USE FROM t;",
        Some(SyntaxFault::Syntax),
    ),
    ("ENTITY a; WHERE w : USE (* open", Some(SyntaxFault::Token)),
    ("FUNCTION f; USE FROM t;", Some(SyntaxFault::Syntax)),
    (
        "ENTITY a; x : STRING(0) y : USE;",
        Some(SyntaxFault::Bounds),
    ),
    (
        "ENTITY a; x : USE; y : STRING(0);",
        Some(SyntaxFault::LeftOut),
    ),
    // the same inside bounds and widths
    ("TYPE t = LIST [2:1; END_TYPE;", Some(SyntaxFault::Bounds)),
    ("TYPE t = LIST [2:1 'open", Some(SyntaxFault::Bounds)),
    ("TYPE t = LIST [2 'open :1]", Some(SyntaxFault::Token)),
    ("TYPE t = LIST [?(* open", Some(SyntaxFault::Bounds)),
    ("TYPE t = STRING(0 x); END_TYPE;", Some(SyntaxFault::Bounds)),
    (
        "TYPE t = STRING(n 0); END_TYPE;",
        Some(SyntaxFault::LeftOut),
    ),
    (
        "TYPE t = LIST [2:1] OF USE; END_TYPE;",
        Some(SyntaxFault::Bounds),
    ),
    (
        "TYPE t = LIST [1:2] USE OF REAL; END_TYPE;",
        Some(SyntaxFault::LeftOut),
    ),
];

#[test]
fn answers_what_comes_first(rt: HostRuntime) {
    assert_eq!(rt; first_wrong(rt.alloc(), FIRST), "none");
}
