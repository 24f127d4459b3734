//! Schemas, with what is kept of each.
use super::{refusal_of, schema_of};
use p21_express_lexemes::SyntaxFault;
use p21_express_syntax::{
    Aggregate, AttributeName, Body, DataType, Declarations, DefinedType, Entity,
    ExplicitAttributes, SimpleType, read_declarations,
};
use p21_values::Word;
use std::alloc::Global;

type Names = &'static [&'static str];

/// The names of types, with the items of an enumeration or the names of a select.
type Types = &'static [(&'static str, Names)];

/// The name of an entity, whether it is abstract, the names of a ONEOF list that stands alone, and those of its supertypes.
type EntityRow = (&'static str, bool, Option<Names>, Names);

/// Whether the attributes of each line are optional, and their names.
type Lines = &'static [(bool, Names)];

/// The names of an entity, of its explicit attributes line by line, and of its derived ones.
type AttributesRow = (&'static str, Lines, Names);

/// A schema text, with what is kept of it. A redeclared attribute has the name of its entity before its own, and a point
/// between them.
#[derive(Clone, Copy)]
struct Kept {
    text: &'static str,
    name: &'static str,
    types: Types,
    entities: &'static [EntityRow],
    attributes: &'static [AttributesRow],
}

fn are_named(words: &[Word], names: Names) -> bool {
    for (word, name) in words.iter().zip(names.iter()) {
        if word.bytes() != name.as_bytes() {
            return false;
        }
    }
    words.len() == names.len()
}

fn is_attribute(attribute: &AttributeName, name: &str) -> bool {
    match (attribute, name.split_once('.')) {
        (AttributeName::Own(own), None) => own.bytes() == name.as_bytes(),
        (AttributeName::Redeclared { entity, name }, Some((its_entity, its_name))) => {
            entity.bytes() == its_entity.as_bytes() && name.bytes() == its_name.as_bytes()
        }
        _ => false,
    }
}

fn are_attributes(attributes: &[AttributeName], names: Names) -> bool {
    for (attribute, name) in attributes.iter().zip(names.iter()) {
        if !is_attribute(attribute, name) {
            return false;
        }
    }
    attributes.len() == names.len()
}

fn are_lines(explicit: &[ExplicitAttributes], lines: Lines) -> bool {
    for (line, (optional, names)) in explicit.iter().zip(lines.iter()) {
        if line.optional != *optional || !are_attributes(&line.names, names) {
            return false;
        }
    }
    explicit.len() == lines.len()
}

fn has_words(body: &Body, names: Names) -> bool {
    match body {
        Body::Enumeration(items) => are_named(items, names),
        Body::Select(members) => are_named(members, names),
        Body::Underlying(_) => names.is_empty(),
    }
}

fn is_one_of(one_of: &Option<Vec<Word>>, wanted: Option<Names>) -> bool {
    match (one_of, wanted) {
        (Some(words), Some(names)) => are_named(words, names),
        (None, None) => true,
        _ => false,
    }
}

/// The first type that isn't declared so.
fn first_wrong_type(types: &[DefinedType], rows: Types) -> &'static str {
    for (defined, (name, words)) in types.iter().zip(rows.iter()) {
        if defined.name.bytes() != name.as_bytes() || !has_words(&defined.body, words) {
            return name;
        }
    }
    "none"
}

/// Whether an entity is declared so, its attributes apart.
fn is_entity(entity: &Entity, row: &EntityRow) -> bool {
    let (name, is_abstract, one_of, supertypes) = *row;
    entity.name.bytes() == name.as_bytes()
        && entity.constraint.is_abstract == is_abstract
        && is_one_of(&entity.constraint.one_of, one_of)
        && are_named(&entity.supertypes, supertypes)
}

/// The first entity that isn't declared so, its attributes apart.
fn first_wrong_entity(entities: &[Entity], rows: &'static [EntityRow]) -> &'static str {
    for (entity, row) in entities.iter().zip(rows.iter()) {
        if !is_entity(entity, row) {
            return row.0;
        }
    }
    "none"
}

/// Whether an entity has these attributes.
fn has_attributes(entity: &Entity, row: &AttributesRow) -> bool {
    let (name, lines, derived) = *row;
    entity.name.bytes() == name.as_bytes()
        && are_lines(&entity.explicit, lines)
        && are_attributes(&entity.derived, derived)
}

/// The first entity that has other attributes.
fn first_wrong_attributes(entities: &[Entity], rows: &'static [AttributesRow]) -> &'static str {
    for (entity, row) in entities.iter().zip(rows.iter()) {
        if !has_attributes(entity, row) {
            return row.0;
        }
    }
    "none"
}

/// Whether there are as many declarations of each kind.
fn are_as_many(declarations: &Declarations, kept: Kept) -> bool {
    declarations.types.len() == kept.types.len()
        && declarations.entities.len() == kept.entities.len()
        && declarations.entities.len() == kept.attributes.len()
}

/// The first thing that is declared otherwise.
fn first_otherwise(declarations: &Declarations, kept: Kept) -> &'static str {
    if declarations.name.bytes() != kept.name.as_bytes() {
        return "the name of the schema";
    }
    if !are_as_many(declarations, kept) {
        return "the number of declarations";
    }
    let of_types = first_wrong_type(&declarations.types, kept.types);
    if of_types != "none" {
        return of_types;
    }
    let of_entities = first_wrong_entity(&declarations.entities, kept.entities);
    if of_entities != "none" {
        return of_entities;
    }
    first_wrong_attributes(&declarations.entities, kept.attributes)
}

/// The first thing of this text that is declared otherwise.
fn first_wrong_of(alloc: Global, text: &[u8], kept: Kept) -> &'static str {
    match read_declarations(alloc, text) {
        Ok(declarations) => first_otherwise(&declarations, kept),
        Err(fault) => fault.name(),
    }
}

/// The first thing that is declared otherwise.
fn first_wrong(alloc: Global, kept: Kept) -> &'static str {
    first_wrong_of(alloc, kept.text.as_bytes(), kept)
}

pub(super) const DEMO_TEXT: &str = "SCHEMA demo;
TYPE distance = REAL; END_TYPE;
TYPE tally = INTEGER; END_TYPE;
TYPE colour = ENUMERATION OF (red, green); END_TYPE;
TYPE measure = SELECT (distance, tally); END_TYPE;
TYPE item = SELECT (measure, point); END_TYPE;
ENTITY shape ABSTRACT SUPERTYPE; label : OPTIONAL STRING; END_ENTITY;
ENTITY point SUBTYPE OF (shape); x, y : distance; END_ENTITY;
ENTITY marked SUBTYPE OF (shape); mark : colour; END_ENTITY;
ENTITY origin SUBTYPE OF (point);
DERIVE SELF\\point.x : distance := 0.0; END_ENTITY;
ENTITY cloud; members : SET OF point; sizes : BAG OF BAG OF REAL;
values : LIST [1:3] OF UNIQUE item; END_ENTITY;
END_SCHEMA;
";

const DEMO: Kept = Kept {
    text: DEMO_TEXT,
    name: "DEMO",
    types: &[
        ("DISTANCE", &[]),
        ("TALLY", &[]),
        ("COLOUR", &["RED", "GREEN"]),
        ("MEASURE", &["DISTANCE", "TALLY"]),
        ("ITEM", &["MEASURE", "POINT"]),
    ],
    entities: &[
        ("SHAPE", true, None, &[]),
        ("POINT", false, None, &["SHAPE"]),
        ("MARKED", false, None, &["SHAPE"]),
        ("ORIGIN", false, None, &["POINT"]),
        ("CLOUD", false, None, &[]),
    ],
    attributes: &[
        ("SHAPE", &[(true, &["LABEL"])], &[]),
        ("POINT", &[(false, &["X", "Y"])], &[]),
        ("MARKED", &[(false, &["MARK"])], &[]),
        ("ORIGIN", &[], &["POINT.X"]),
        (
            "CLOUD",
            &[
                (false, &["MEMBERS"]),
                (false, &["SIZES"]),
                (false, &["VALUES"]),
            ],
            &[],
        ),
    ],
};

#[test]
fn reads_the_demo(rt: HostRuntime) {
    assert_eq!(rt; first_wrong(rt.alloc(), DEMO), "none");
}

fn is_list_of_items(data_type: &DataType) -> bool {
    let Some(Aggregate::List { range, unique }) = data_type.aggregates.get(0) else {
        return false;
    };
    let SimpleType::Named(name) = &data_type.element else {
        return false;
    };
    range.low == 1 && range.high == Some(3) && *unique && name.bytes() == b"ITEM".as_slice()
}

/// Whether the last attribute of the last entity of the demo is LIST [1:3] OF UNIQUE item.
fn ends_in_a_list(declarations: &Declarations) -> bool {
    let Some(cloud) = declarations.entities.get(4) else {
        return false;
    };
    let Some(values) = cloud.explicit.get(2) else {
        return false;
    };
    is_list_of_items(&values.data_type)
}

fn reads_the_list(alloc: Global) -> bool {
    match read_declarations(alloc, DEMO_TEXT.as_bytes()) {
        Ok(declarations) => ends_in_a_list(&declarations),
        Err(_) => false,
    }
}

#[test]
fn reads_a_list_with_bounds(rt: HostRuntime) {
    assert!(rt; reads_the_list(rt.alloc()));
}

const NESTED: Kept = Kept {
    text: "(* a (* b *) c *) SCHEMA t 'v1'; FUNCTION f : REAL; FUNCTION g : REAL; END_FUNCTION; END_FUNCTION; END_SCHEMA; -- end",
    name: "T",
    types: &[],
    entities: &[],
    attributes: &[],
};

#[test]
fn reads_nested_functions_and_remarks(rt: HostRuntime) {
    assert_eq!(rt; first_wrong(rt.alloc(), NESTED), "none");
}

/// An entity declaration, with the names of its ONEOF list where it stands alone.
const ONE_OF: &[(&str, Option<Names>)] = &[
    (
        "ENTITY e SUPERTYPE OF (ONEOF (a, b)); END_ENTITY;",
        Some(&["A", "B"]),
    ),
    (
        "ENTITY e SUPERTYPE OF (ONEOF (a, b) ANDOR c); END_ENTITY;",
        None,
    ),
    ("ENTITY e SUPERTYPE OF (ONEOF (a, real)); END_ENTITY;", None),
    (
        "ENTITY e SUPERTYPE OF (ONEOF (a, ONEOF (b, c))); END_ENTITY;",
        None,
    ),
    ("ENTITY e SUPERTYPE OF (); END_ENTITY;", None),
];

fn begins_with_one_of(declarations: &Declarations, wanted: Option<Names>) -> bool {
    match declarations.entities.get(0) {
        Some(entity) => is_one_of(&entity.constraint.one_of, wanted),
        None => false,
    }
}

fn has_one_of(alloc: Global, text: &[u8], wanted: Option<Names>) -> bool {
    match read_declarations(alloc, text) {
        Ok(declarations) => begins_with_one_of(&declarations, wanted),
        Err(_) => false,
    }
}

fn keeps_one_of(alloc: Global, entity: &str, wanted: Option<Names>) -> bool {
    match schema_of(alloc, entity) {
        Ok(text) => has_one_of(alloc, &text, wanted),
        Err(_) => false,
    }
}

/// The first entity with another list.
fn first_wrong_list(alloc: Global) -> &'static str {
    for (entity, names) in ONE_OF {
        if !keeps_one_of(alloc, entity, *names) {
            return entity;
        }
    }
    "none"
}

#[test]
fn keeps_a_list_of_one_of(rt: HostRuntime) {
    assert_eq!(rt; first_wrong_list(rt.alloc()), "none");
}

/// A schema in the form of a published listing.
const WORKSHOP_TEXT: &str = "-- Assemblies of a workshop
(* Each part has a number; (* the drawing has others *) an assembly
   has parts. *)

SCHEMA workshop_schema '{ workshop 1 }';

CONSTANT
  zero_length : REAL := 0.0;
  no_parts    : SET OF part := [];
END_CONSTANT;

TYPE identifier = STRING;
END_TYPE;

TYPE label = STRING (80);
END_TYPE;

TYPE code = STRING(4) FIXED;
END_TYPE;

TYPE picture = BINARY (8) FIXED;
END_TYPE;

TYPE positive_length = REAL (6);
WHERE
  wr1 : SELF > zero_length;
  wr2 : 'END_TYPE' <> '';
END_TYPE;

TYPE finish = ENUMERATION OF
  (rough,
   turned,
   polished);
END_TYPE;

TYPE described = SELECT
  (part, tool, label);
END_TYPE;

TYPE grid = ARRAY [0:3] OF OPTIONAL UNIQUE LIST [1:?] OF UNIQUE NUMBER;
END_TYPE;

ENTITY item
  ABSTRACT SUPERTYPE OF (ONEOF (part, tool));
  id    : identifier;
  notes : OPTIONAL LIST [0:?] OF label;
UNIQUE
  ur1 : id;
END_ENTITY;

ENTITY part
  SUPERTYPE OF (ONEOF (blank, assembly) ANDOR bought)
  SUBTYPE OF (item);
  width, height : positive_length;
  surface       : finish;
  tested        : LOGICAL;
DERIVE
  area : REAL := width * height;
  name : label := SELF.id + '; derived';
INVERSE
  used_in : SET [0:?] OF usage FOR component;
UNIQUE
  ur1 : SELF\\item.id, surface;
WHERE
  wr1 : area > 0.0;
  wr2 : (SIZEOF (USEDIN (SELF, 'WORKSHOP_SCHEMA.USAGE.WHOLE')) = 0)
        OR ('WORKSHOP_SCHEMA.ASSEMBLY' IN TYPEOF (SELF));
END_ENTITY;

ENTITY blank SUBTYPE OF (part);
END_ENTITY;

ENTITY bought
  SUBTYPE OF (part);
  price  : NUMBER;
  dealer : described;
END_ENTITY;

ENTITY assembly
  SUBTYPE OF (part);
  parts  : SET [1:?] OF usage;
  spares : BAG OF part;
  pieces : ARRAY [1:2] OF INTEGER;
DERIVE
  SELF\\item.notes : LIST [0:?] OF label := [];
WHERE
  acyclic : is_acyclic (SELF, [SELF]); -- END_ENTITY;
END_ENTITY;

ENTITY usage;
  whole     : assembly;
  component : part;
  drawing   : picture;
  SELF\\item.id : code;
END_ENTITY;

ENTITY tool ABSTRACT SUBTYPE OF (item);
  sharp : BOOLEAN;
END_ENTITY;

SUBTYPE_CONSTRAINT bought_or_made FOR part;
  ABSTRACT SUPERTYPE;
  TOTAL_OVER (bought, blank, assembly);
END_SUBTYPE_CONSTRAINT;

FUNCTION is_acyclic (whole : assembly; above : SET OF part) : BOOLEAN;
  LOCAL
    below : SET OF part := no_parts;
  END_LOCAL;
  FUNCTION parts_of (of_whole : assembly) : SET OF part;
    RETURN (QUERY (u <* of_whole.parts | u.component <> of_whole));
  END_FUNCTION;
  REPEAT i := 1 TO HIINDEX (whole.parts);
    IF whole.parts[i].component IN above THEN
      RETURN (FALSE);
    END_IF;
  END_REPEAT;
  RETURN (TRUE);
END_FUNCTION;

PROCEDURE rename (VAR named : part; to : label);
  PROCEDURE trim (VAR text : STRING);
  END_PROCEDURE;
  named.id := to;
END_PROCEDURE;

RULE one_workshop FOR (assembly, tool);
  LOCAL
    ENTITY_count : INTEGER := 0;
  END_LOCAL;
WHERE
  wr1 : SIZEOF (assembly) + SIZEOF (tool) >= 0;
END_RULE;

END_SCHEMA; -- workshop_schema
";

const WORKSHOP: Kept = Kept {
    text: WORKSHOP_TEXT,
    name: "WORKSHOP_SCHEMA",
    types: &[
        ("IDENTIFIER", &[]),
        ("LABEL", &[]),
        ("CODE", &[]),
        ("PICTURE", &[]),
        ("POSITIVE_LENGTH", &[]),
        ("FINISH", &["ROUGH", "TURNED", "POLISHED"]),
        ("DESCRIBED", &["PART", "TOOL", "LABEL"]),
        ("GRID", &[]),
    ],
    entities: &[
        ("ITEM", true, Some(&["PART", "TOOL"]), &[]),
        ("PART", false, None, &["ITEM"]),
        ("BLANK", false, None, &["PART"]),
        ("BOUGHT", false, None, &["PART"]),
        ("ASSEMBLY", false, None, &["PART"]),
        ("USAGE", false, None, &[]),
        ("TOOL", true, None, &["ITEM"]),
    ],
    attributes: &[
        ("ITEM", &[(false, &["ID"]), (true, &["NOTES"])], &[]),
        (
            "PART",
            &[
                (false, &["WIDTH", "HEIGHT"]),
                (false, &["SURFACE"]),
                (false, &["TESTED"]),
            ],
            &["AREA", "NAME"],
        ),
        ("BLANK", &[], &[]),
        ("BOUGHT", &[(false, &["PRICE"]), (false, &["DEALER"])], &[]),
        (
            "ASSEMBLY",
            &[
                (false, &["PARTS"]),
                (false, &["SPARES"]),
                (false, &["PIECES"]),
            ],
            &["ITEM.NOTES"],
        ),
        (
            "USAGE",
            &[
                (false, &["WHOLE"]),
                (false, &["COMPONENT"]),
                (false, &["DRAWING"]),
                (false, &["ITEM.ID"]),
            ],
            &[],
        ),
        ("TOOL", &[(false, &["SHARP"])], &[]),
    ],
};

/// In which case a text is written.
#[derive(Clone, Copy)]
enum Case {
    AsItIs,
    Lower,
    // Upper and lower by turns.
    Mixed,
}

fn byte_in_case(byte: u8, place: usize, case: Case) -> u8 {
    match case {
        Case::AsItIs => byte,
        Case::Lower => byte.to_ascii_lowercase(),
        Case::Mixed => {
            if place.is_multiple_of(2) {
                byte.to_ascii_uppercase()
            } else {
                byte.to_ascii_lowercase()
            }
        }
    }
}

fn in_case(alloc: Global, text: &[u8], case: Case) -> Result<Vec<u8>, SyntaxFault> {
    let mut bytes = Vec::new(alloc);
    for (place, byte) in text.iter().enumerate() {
        bytes.push(byte_in_case(*byte, place, case))?;
    }
    Ok(bytes)
}

/// The first thing that is declared otherwise, where the text is written in this case.
fn first_wrong_in(alloc: Global, kept: Kept, case: Case) -> &'static str {
    match in_case(alloc, kept.text.as_bytes(), case) {
        Ok(text) => first_wrong_of(alloc, &text, kept),
        Err(fault) => fault.name(),
    }
}

const CASES: &[(&str, Case)] = &[
    ("as it is", Case::AsItIs),
    ("lower", Case::Lower),
    ("mixed", Case::Mixed),
];

/// The first case in which something is declared otherwise, and what.
fn first_wrong_case(alloc: Global, kept: Kept) -> Option<(&'static str, &'static str)> {
    for (name, case) in CASES {
        let wrong = first_wrong_in(alloc, kept, *case);
        if wrong != "none" {
            return Some((name, wrong));
        }
    }
    None
}

#[test]
fn reads_a_listing_in_any_case(rt: HostRuntime) {
    assert_eq!(rt; first_wrong_case(rt.alloc(), WORKSHOP), None);
}

/// Words of what isn't read, and words that nothing begins with, where they stand.
const REFUSED: &[(&str, SyntaxFault)] = &[
    ("USE FROM t;", SyntaxFault::LeftOut),
    ("REFERENCE FROM t;", SyntaxFault::LeftOut),
    ("TYPE t = EXTENSIBLE SELECT (a);", SyntaxFault::LeftOut),
    ("TYPE t = SELECT BASED_ON u;", SyntaxFault::LeftOut),
    ("TYPE t = GENERIC;", SyntaxFault::LeftOut),
    ("TYPE t = GENERIC_ENTITY;", SyntaxFault::LeftOut),
    ("TYPE t = AGGREGATE OF REAL;", SyntaxFault::LeftOut),
    ("ENTITY a; x RENAMED y : REAL;", SyntaxFault::LeftOut),
    ("ENTITY oneof;", SyntaxFault::Syntax),
    ("TYPE number = REAL;", SyntaxFault::Syntax),
];

/// What a text is refused with that is written in this case.
fn refusal_in(alloc: Global, text: &[u8], case: Case) -> Option<SyntaxFault> {
    match in_case(alloc, text, case) {
        Ok(cased) => refusal_of(alloc, &cased),
        Err(fault) => Some(fault),
    }
}

/// Whether declarations are refused so, in lower and in mixed case.
fn is_refused(alloc: Global, declarations: &str, fault: SyntaxFault) -> bool {
    match schema_of(alloc, declarations) {
        Ok(text) => {
            refusal_in(alloc, &text, Case::Lower) == Some(fault)
                && refusal_in(alloc, &text, Case::Mixed) == Some(fault)
        }
        Err(_) => false,
    }
}

/// The first declarations that aren't refused so.
fn first_taken(alloc: Global) -> &'static str {
    for (declarations, fault) in REFUSED {
        if !is_refused(alloc, declarations, *fault) {
            return declarations;
        }
    }
    "none"
}

#[test]
fn refuses_words_in_any_case(rt: HostRuntime) {
    assert_eq!(rt; first_taken(rt.alloc()), "none");
}
