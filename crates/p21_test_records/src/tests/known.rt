use super::*;
use p21_mapping::KnownEntities;
use std::alloc::AllocError;

/// So many entities have no attribute and no supertype.
const MEMBERS: u32 = 300;

/// Behind them, an entity that has all of them in its set, and others.
const BEHIND: &str = "TYPE colour = ENUMERATION OF (red, green); END_TYPE;
ENTITY many SUBTYPE OF (wide); k : INTEGER; label : OPTIONAL STRING(3); mark : colour; END_ENTITY;
ENTITY starred SUBTYPE OF (many); DERIVE SELF\\many.k : INTEGER := 0; END_ENTITY;
ENTITY hidden ABSTRACT SUPERTYPE SUBTYPE OF (wide); END_ENTITY;
ENTITY r SUPERTYPE OF (ONEOF (s, t)); x : NUMBER; END_ENTITY;
ENTITY s SUBTYPE OF (r); END_ENTITY;
ENTITY t SUBTYPE OF (r); END_ENTITY;
ENTITY clashing SUBTYPE OF (wide, s, t); END_ENTITY;
ENTITY a SUBTYPE OF (r); SELF\\r.x : INTEGER; END_ENTITY;
ENTITY b SUBTYPE OF (r); SELF\\r.x : REAL; END_ENTITY;
ENTITY opened SUBTYPE OF (wide, a, b); END_ENTITY;
END_SCHEMA;
";

/// Appends `ENTITY wN; END_ENTITY;` for each number below a count.
fn push_members(out: &mut String, count: u32) -> Result<(), AllocError> {
    for number in 0..count {
        write!(out, "ENTITY w{number}; END_ENTITY;")?;
    }
    Ok(())
}

/// Appends the names of all but the first of these.
fn push_names(out: &mut String, count: u32) -> Result<(), AllocError> {
    for number in 1..count {
        write!(out, ",w{number}")?;
    }
    Ok(())
}

fn push_schema(out: &mut String, count: u32) -> Result<(), AllocError> {
    out.push_str("SCHEMA large;")?;
    push_members(out, count)?;
    out.push_str("ENTITY wide SUBTYPE OF (w0")?;
    push_names(out, count)?;
    out.push_str("); END_ENTITY;")?;
    out.push_str(BEHIND)
}

/// A schema in which a set has so many entities and some more.
fn schema_of(alloc: Global, count: u32) -> Option<Schema> {
    let mut text = String::new(alloc);
    let Ok(()) = push_schema(&mut text, count) else {
        return None;
    };
    read_schema(alloc, text.as_bytes()).ok()
}

/// Whether this is what is known to be refused: a number and a name, or `"nothing"`.
fn is_told(alloc: Global, told: Option<CheckFault>, wanted: &str) -> bool {
    match told {
        Some(fault) => is_refusal(alloc, fault, wanted.as_bytes()),
        None => wanted == "nothing",
    }
}

/// Whether this is told of the instance that a text is, when it is found and when it is known.
fn tells(alloc: Global, known: &mut KnownEntities<'_>, text: &str, wanted: &str) -> bool {
    match read_instance(alloc, text.as_bytes()) {
        Some(instance) => {
            let first = known.refusal(&instance.record);
            let second = known.refusal(&instance.record);
            is_told(alloc, first, wanted) && is_told(alloc, second, wanted)
        }
        None => false,
    }
}

fn first_told_otherwise(alloc: Global, schema: &Schema, rows: Rows) -> &'static str {
    let mut known = KnownEntities::new(alloc, schema);
    for (text, wanted) in rows {
        if !tells(alloc, &mut known, text, wanted) {
            return text;
        }
    }
    "none"
}

/// The first instance of which something else is told under the schema with sets of so many entities.
fn first_of(alloc: Global, count: u32, rows: Rows) -> &'static str {
    match schema_of(alloc, count) {
        Some(schema) => first_told_otherwise(alloc, &schema, rows),
        None => "the schema",
    }
}

const OF_LARGE_SETS: Rows = &[
    ("#1=HIDDEN();", "42 Abstract"),
    ("#1=CLASHING();", "58 OneOf"),
    ("#1=OPENED();", "55 TwoRedeclarations"),
    ("#1=OPENED(1);", "55 TwoRedeclarations"),
    ("#1=WIDE();", "nothing"),
    ("#1=WIDE(1);", "45 Count"),
    ("#1=MANY(1,'abc',.RED.);", "nothing"),
    ("#1=MANY(1,$,.RED.);", "nothing"),
    ("#1=MANY();", "45 Count"),
    ("#1=MANY(1,'abc');", "45 Count"),
    ("#1=MANY(1,'abc',.RED.,.RED.);", "45 Count"),
    ("#1=MANY($,'four',.BLUE.);", "46 Missing"),
    ("#1=MANY(*,'four',.BLUE.);", "47 StarNotDerived"),
    ("#1=MANY(1.,'four',.BLUE.);", "49 WrongKind"),
    ("#1=MANY(1,'four',.BLUE.);", "50 Width"),
    ("#1=MANY(1,'abc',.BLUE.);", "53 UnknownItem"),
    ("#1=STARRED(*,'abc',.RED.);", "nothing"),
    ("#1=STARRED(1,'abc',.RED.);", "48 DerivedNotStar"),
    ("#1=HIDDEN(1);", "42 Abstract"),
    ("#1=MANY(1,'four',.RED.);", "50 Width"),
    ("#1=FOO();", "nothing"),
    ("#1=(WIDE());", "nothing"),
    ("#1=S();", "nothing"),
    ("#1=A(1.);", "nothing"),
];

#[test]
fn tells_of_records_of_large_sets(rt: HostRuntime) {
    passes(&rt, first_of(rt.alloc(), MEMBERS, OF_LARGE_SETS));
}

/// Small sets are left to the check of the record.
const OF_SMALL_SETS: Rows = &[
    ("#1=HIDDEN();", "nothing"),
    ("#1=CLASHING();", "nothing"),
    ("#1=OPENED();", "nothing"),
    ("#1=WIDE(1);", "nothing"),
    ("#1=MANY(1,'four',.BLUE.);", "nothing"),
];

#[test]
fn tells_nothing_of_small_sets(rt: HostRuntime) {
    passes(&rt, first_of(rt.alloc(), 3, OF_SMALL_SETS));
}
