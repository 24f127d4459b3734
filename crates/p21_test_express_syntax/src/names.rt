//! The names of schemas: known where each is declared once.
use p21_express_outline::{SchemaFault, known_names};
use p21_express_syntax::read_declarations;
use std::alloc::Global;

/// Why the names of a schema aren't known: none where they are.
fn refusal_of(alloc: Global, text: &str) -> Option<SchemaFault> {
    match read_declarations(alloc, text.as_bytes()) {
        Ok(declarations) => known_names(alloc, &declarations).err(),
        Err(_) => Some(SchemaFault::NoMemory),
    }
}

/// Schemas, with the refusal of the names of each: none where each name is declared once.
type Schemas = &'static [(&'static str, Option<SchemaFault>)];

const SCHEMAS: Schemas = &[
    (
        "SCHEMA s; ENTITY e; END_ENTITY; ENTITY f; END_ENTITY; TYPE t = REAL; END_TYPE; END_SCHEMA;",
        None,
    ),
    (
        "SCHEMA s; ENTITY e; END_ENTITY; ENTITY f; END_ENTITY; ENTITY E; END_ENTITY; END_SCHEMA;",
        Some(SchemaFault::Duplicate),
    ),
    (
        "SCHEMA s; TYPE t = REAL; END_TYPE; TYPE u = REAL; END_TYPE; TYPE t = INTEGER; END_TYPE; END_SCHEMA;",
        Some(SchemaFault::Duplicate),
    ),
    (
        "SCHEMA s; TYPE e = REAL; END_TYPE; ENTITY e; END_ENTITY; END_SCHEMA;",
        Some(SchemaFault::Duplicate),
    ),
    (
        "SCHEMA s; ENTITY e; x : nothing; END_ENTITY; ENTITY e; END_ENTITY; END_SCHEMA;",
        Some(SchemaFault::Duplicate),
    ),
];

/// The first schema whose names are answered otherwise.
fn first_wrong(alloc: Global, schemas: Schemas) -> &'static str {
    for (text, fault) in schemas {
        if refusal_of(alloc, text) != *fault {
            return text;
        }
    }
    "none"
}

#[test]
fn knows_names_that_are_declared_once(rt: HostRuntime) {
    assert_eq!(rt; first_wrong(rt.alloc(), SCHEMAS), "none");
}
