use super::schemas::DEMO;
use super::*;
use p21_shorter_instances::{Found, Taken, Taker};

/// Whether an instance that was taken has so many bytes, entities, and this canonical line.
fn is_as_wanted(found: Found, count: usize, wanted: &[u8]) -> bool {
    found.count == count && !found.entities.is_empty() && found.line == wanted
}

/// Whether an instance is taken whole straight from its bytes, with this canonical line.
fn is_taken(alloc: Global, schema: &Schema, text: &[u8], wanted: &[u8]) -> bool {
    let mut taker = Taker::new(alloc);
    let mut taken = Taken::new(alloc);
    match taker.take(schema, text, &mut taken) {
        Ok(found) => is_as_wanted(found, text.len(), wanted),
        Err(_) => false,
    }
}

fn first_left_of(alloc: Global, schema: &Schema, rows: Rows) -> &'static str {
    for (text, wanted) in rows {
        if !is_taken(alloc, schema, text.as_bytes(), wanted.as_bytes()) {
            return text;
        }
    }
    "none"
}

/// The first instance that isn't taken so.
fn first_left(rt: &HostRuntime, schema: &str, rows: Rows) -> &'static str {
    match read_schema(rt.alloc(), schema.as_bytes()) {
        Ok(schema) => first_left_of(rt.alloc(), &schema, rows),
        Err(_) => "the schema",
    }
}

const USUAL: Rows = &[
    ("#2 = POINT($, 1.0, 10.E-1);", "#2=POINT($,1.,1.);"),
    (
        "\n#2 /* two */ = /* a point */ POINT ( $ , 1.0 , 10.E-1 ) ;",
        "#2=POINT($,1.,1.);",
    ),
    (
        "#1=(MARKED(.RED.)POINT(1.0,2.)SHAPE($));",
        "#1=(MARKED(.RED.)POINT(1.,2.)SHAPE($));",
    ),
    (
        "#1 = ( MARKED ( .RED. ) POINT ( 1.0 , 2. ) SHAPE /* none */ ( $ ) ) ;",
        "#1=(MARKED(.RED.)POINT(1.,2.)SHAPE($));",
    ),
];

#[test]
fn usual_instances_are_taken_from_their_bytes(rt: HostRuntime) {
    assert_eq!(rt; first_left(&rt, DEMO, USUAL), "none");
}
