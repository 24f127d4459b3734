//! Schema texts that are refused, each with the place.
use crate::refusals::passes;
use p21_express::read_schema;
use p21_express_places::schema_place;
use std::alloc::Global;

/// Texts, each by what it is, what stands in front of the place, and what stands there.
type Rows = &'static [(&'static str, &'static str, &'static str)];

const ROWS: Rows = &[
    (
        "a letter that EXPRESS doesn't have",
        "SCHEMA s; ENTITY ",
        "\u{fc}; END_ENTITY; END_SCHEMA;",
    ),
    ("an open string", "SCHEMA s ", "'v1; END_SCHEMA;"),
    (
        "a remark in a remark",
        "SCHEMA s;\n",
        "(* a (* b *)\nEND_SCHEMA;",
    ),
    (
        "a word that is no name",
        "SCHEMA s;\n ENTITY ",
        "list; END_ENTITY;\nEND_SCHEMA;",
    ),
    (
        "no colon",
        "SCHEMA s; ENTITY a;\n x ",
        "REAL; END_ENTITY; END_SCHEMA;",
    ),
    (
        "an attribute twice",
        "SCHEMA s; ENTITY a;\n x : REAL;\n ",
        "X : REAL; END_ENTITY; END_SCHEMA;",
    ),
    (
        "an item twice",
        "SCHEMA s; TYPE t = ENUMERATION OF (a, b, ",
        "A); END_TYPE; END_SCHEMA;",
    ),
    (
        "an entity twice, whose rules name its supertype",
        "SCHEMA s; ENTITY a; END_ENTITY; ENTITY b; END_ENTITY;\nENTITY ",
        "B SUBTYPE OF (a); WHERE w : SELF\\a.x > 0; END_ENTITY; END_SCHEMA;",
    ),
    (
        "a supertype twice",
        "SCHEMA s; ENTITY a; END_ENTITY;\nENTITY b SUBTYPE OF (a, ",
        "a); END_ENTITY; END_SCHEMA;",
    ),
    (
        "an entity twice in a ONEOF",
        "SCHEMA s; ENTITY c; END_ENTITY; ENTITY a; END_ENTITY;\nENTITY b SUPERTYPE OF (ONEOF (a, ",
        "A)) SUBTYPE OF (c); END_ENTITY; END_SCHEMA;",
    ),
    (
        "a type twice, with a rule",
        "SCHEMA s; ENTITY t; END_ENTITY;\nTYPE ",
        "t = ENUMERATION OF (x, y); WHERE w : SELF <> x; END_TYPE; END_SCHEMA;",
    ),
    (
        "an attribute declared anew twice",
        "SCHEMA s; ENTITY a; x : NUMBER; END_ENTITY; FUNCTION b; END_FUNCTION; ENTITY b SUBTYPE OF (a);\n SELF\\a.x : REAL;\n ",
        "SELF\\A.X : INTEGER; END_ENTITY; END_SCHEMA;",
    ),
    (
        "an unknown supertype",
        "SCHEMA s; ENTITY a SUBTYPE OF (",
        "b); END_ENTITY; END_SCHEMA;",
    ),
    (
        "a type as a supertype",
        "SCHEMA s; TYPE b = REAL; END_TYPE; ENTITY a SUBTYPE OF (",
        "b); END_ENTITY; END_SCHEMA;",
    ),
    (
        "an unknown type in a select",
        "SCHEMA s; TYPE t = REAL; END_TYPE;\nTYPE u = SELECT (t, ",
        "v); END_TYPE; END_SCHEMA;",
    ),
    (
        "a type that renames an entity",
        "SCHEMA s; ENTITY a; END_ENTITY; TYPE t = ",
        "a; END_TYPE; END_SCHEMA;",
    ),
    (
        "a circle of types",
        "SCHEMA s; TYPE t = u; END_TYPE; TYPE ",
        "u = t; END_TYPE; END_SCHEMA;",
    ),
    (
        "a type that renames a select",
        "SCHEMA s; TYPE t = SELECT (a); END_TYPE; TYPE a = REAL; END_TYPE;\nTYPE u = ",
        "t; END_TYPE; END_SCHEMA;",
    ),
    (
        "a computed bound",
        "SCHEMA s; ENTITY a; x : LIST [1:",
        "n] OF REAL; END_ENTITY; END_SCHEMA;",
    ),
    (
        "a width of nothing",
        "SCHEMA s; TYPE t = STRING(",
        "0); END_TYPE; END_SCHEMA;",
    ),
    (
        "the second redeclaration",
        "SCHEMA s; ENTITY a; x : NUMBER; END_ENTITY; ENTITY b SUBTYPE OF (a);\n SELF\\a.x : REAL;\n ",
        "SELF\\a.y : REAL; END_ENTITY; END_SCHEMA;",
    ),
    (
        "two schemas",
        "SCHEMA s; END_SCHEMA;\n",
        "SCHEMA t; END_SCHEMA;",
    ),
    ("no schema", "", ""),
    ("no end", "SCHEMA s; END_SCHEMA", "\n"),
    (
        "two entities of one name",
        "SCHEMA s;\nENTITY a; END_ENTITY;\nENTITY ",
        "A; END_ENTITY;\nEND_SCHEMA;",
    ),
    (
        "an unknown type",
        "SCHEMA s;\nENTITY a; x : ",
        "length; END_ENTITY;\nEND_SCHEMA;",
    ),
    (
        "a circle of supertypes",
        "SCHEMA s;\nENTITY a SUBTYPE OF (b); END_ENTITY;\nENTITY ",
        "b SUBTYPE OF (a); END_ENTITY;\nEND_SCHEMA;",
    ),
    ("another schema", "SCHEMA s;\n", "USE FROM t;\nEND_SCHEMA;"),
    (
        "bounds out of order",
        "SCHEMA s;\nENTITY a; x : LIST [3:",
        "1] OF REAL; END_ENTITY;\nEND_SCHEMA;",
    ),
    (
        "an attribute that isn't there",
        "SCHEMA s;\nENTITY a; y : REAL; END_ENTITY;\nENTITY b SUBTYPE OF (a);\nDERIVE ",
        "SELF\\a.z : REAL := 0.0;\nEND_ENTITY;\nEND_SCHEMA;",
    ),
    (
        "33 aggregates",
        "SCHEMA s; ENTITY a; x : \
         LIST OF LIST OF LIST OF LIST OF LIST OF LIST OF LIST OF LIST OF \
         LIST OF LIST OF LIST OF LIST OF LIST OF LIST OF LIST OF LIST OF \
         LIST OF LIST OF LIST OF LIST OF LIST OF LIST OF LIST OF LIST OF \
         LIST OF LIST OF LIST OF LIST OF LIST OF LIST OF LIST OF LIST OF \
",
        "LIST OF REAL; END_ENTITY; END_SCHEMA;",
    ),
];

/// Where a text is refused: none where it is read, or where it has no place.
fn place_of(alloc: Global, front: &str, rest: &str) -> Option<u64> {
    let text = format!(in alloc; "{front}{rest}").ok()?;
    let fault = read_schema(alloc, text.as_bytes()).err()?;
    let place = schema_place(alloc, text.as_bytes(), fault)?;
    Some(place.byte)
}

/// The first text that is refused elsewhere.
fn first_wrong(alloc: Global) -> &'static str {
    for (name, front, rest) in ROWS {
        if place_of(alloc, front, rest) != Some(front.len() as u64) {
            return name;
        }
    }
    "none"
}

#[test]
fn places_refusals_of_schemas(rt: HostRuntime) {
    passes(&rt, first_wrong(rt.alloc()));
}
