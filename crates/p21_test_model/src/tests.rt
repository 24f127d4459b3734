use p21_express_graph::Place;
use p21_model::{
    AcceptedModel, Characters, Entities, Instance, Kind, References, Use, Users, UsersOf, Value,
};
use p21_stream::{Accepted, Limits, Name, Schema, Session, read_schema};
use std::alloc::Global;
use std::process::Abort;

const SCHEMA: &str =
    "SCHEMA demo; TYPE label = STRING; END_TYPE; TYPE colour = ENUMERATION OF (red, green); END_TYPE; \
TYPE measure = REAL; END_TYPE; TYPE any = SELECT (measure, label); END_TYPE; ENTITY thing; name : label; END_ENTITY; \
ENTITY point SUBTYPE OF (thing); x, y : NUMBER; count : INTEGER; END_ENTITY; \
ENTITY marked SUBTYPE OF (thing); mark : OPTIONAL colour; code : BINARY; END_ENTITY; \
ENTITY group; members : SET [0:?] OF thing; rows : LIST [0:?] OF LIST [1:?] OF INTEGER; value : any; END_ENTITY; END_SCHEMA;";

const FILE: &str =
    "ISO-10303-21;HEADER;FILE_DESCRIPTION((''),'2;1');FILE_NAME('','',(''),(''),'','','');FILE_SCHEMA(('DEMO'));ENDSEC;DATA;\
#3=GROUP((#20,#1),((1,+2),(3)),LABEL('a)'));#1=POINT('a,b(''c'')',1,-25.0E2,7);#20=(POINT(0.,1.,3)THING('')MARKED(.RED.,\"23\"));\
#4=GROUP((),(),MEASURE(1.));#5=MARKED('\\X2\\00E9\\X0\\',$,\"0\");ENDSEC;END-ISO-10303-21;";

/// The name of an instance, and its attributes with their values; elements stand in braces, and the value behind a keyword in angle
/// brackets.
const INSTANCES: &[(u64, &str)] = &[
    (
        1,
        "THING.NAME Text 'a,b(''c'')';POINT.X Real 1.;POINT.Y Real -2.5E3;POINT.COUNT Whole 7;",
    ),
    (
        3,
        "GROUP.MEMBERS Aggregate (#1,#20){Reference #1 1,Reference #20 20,};GROUP.ROWS Aggregate ((1,2),(3)){Aggregate (1,2){Whole 1,Whole 2,},Aggregate (3){Whole 3,},};GROUP.VALUE Typed LABEL('a)')<LABEL Text 'a)'>;",
    ),
    (
        4,
        "GROUP.MEMBERS Aggregate (){};GROUP.ROWS Aggregate (){};GROUP.VALUE Typed MEASURE(1.)<MEASURE Real 1.>;",
    ),
    (
        5,
        "THING.NAME Text '\\X2\\00E9\\X0\\';MARKED.MARK Missing $;MARKED.CODE Bits \"0\";",
    ),
    (
        20,
        "MARKED.MARK Item .RED.;MARKED.CODE Bits \"23\";POINT.X Real 0.;POINT.Y Real 1.;POINT.COUNT Whole 3;THING.NAME Text '';",
    ),
    (2, "no instance"),
];

/// The name of an instance, and the entities of its set.
const SETS: &[(u64, &[&str])] = &[
    (1, &["THING", "POINT"]),
    (3, &["GROUP"]),
    (20, &["MARKED", "POINT", "THING"]),
];

/// A number, whether it is negative, its digits before and behind the point, and its exponent.
const DIGITS: &[(&str, bool, &str, &str, i32)] = &[
    ("7", false, "7", "", 0),
    ("-12", true, "12", "", 0),
    ("0.1", false, "0", "1", 0),
    ("-2.5E-3", true, "2", "5", -3),
    ("1.E10", false, "1", "", 10),
];

/// A number, and the bits of the nearest double (IEEE 754, binary64).
const DOUBLES: &[(&str, u64)] = &[
    ("7", 0x401C000000000000),
    ("0.", 0),
    ("-12", 0xC028000000000000),
    ("0.1", 0x3FB999999999999A),
    ("1.E-7", 0x3E7AD7F29ABCAF48),
    ("2.5E-3", 0x3F647AE147AE147B),
    // Halfway between two doubles, of which the even one is the lesser, and the greater.
    ("9007199254740993", 0x4340000000000000),
    ("9.007199254740995E15", 0x4340000000000002),
    // The largest, and one past it.
    ("1.7976931348623157E308", 0x7FEFFFFFFFFFFFFF),
    ("1.E309", 0x7FF0000000000000),
];

/// A text, and its characters.
const TEXTS: &[(&str, &[char])] = &[
    ("''", &[]),
    ("'it''s'", &['i', 't', '\'', 's']),
    (
        r"'\\\X2\00E9\X0\\X4\0001F600\X0\/'",
        &['\\', '\u{E9}', '\u{1F600}', '/'],
    ),
];

/// A value, and the names in it.
const NAMED: &[(&str, &[u64])] = &[
    ("#12", &[12]),
    ("((#20,#1),LABEL('#5,(#6'),NODE(#7),$)", &[20, 1, 7]),
    ("'#1'", &[]),
];

const REFERRING_SCHEMA: &str =
    "SCHEMA uses; TYPE things = LIST [1:?] OF thing; END_TYPE; TYPE measure = REAL; END_TYPE; \
TYPE any = SELECT (things, measure, thing); END_TYPE; ENTITY thing; END_ENTITY; ENTITY pair; first, second : thing; END_ENTITY; \
ENTITY row; cells : LIST [0:?] OF LIST [1:?] OF thing; END_ENTITY; ENTITY holder; value : any; more : SET [0:?] OF thing; END_ENTITY; \
ENTITY node SUBTYPE OF (thing); next : OPTIONAL node; END_ENTITY; ENTITY tagged SUBTYPE OF (thing); tag : thing; END_ENTITY; END_SCHEMA;";

const REFERRING_FILE: &str =
    "ISO-10303-21;HEADER;FILE_DESCRIPTION((''),'2;1');FILE_NAME('','',(''),(''),'','','');FILE_SCHEMA(('USES'));ENDSEC;DATA;\
#18446744073709551615=NODE(#7);#9=HOLDER(#5,());#8=(NODE(#7)TAGGED(#1)THING());#7=NODE(#7);#6=NODE($);#5=THING();\
#4=HOLDER(THINGS((#6,#1)),(#5,#1));#3=ROW(((#1,#5,#1),(#6)));#2=PAIR(#1,#1);#1=THING();ENDSEC;END-ISO-10303-21;";

/// A name, and each instance that refers to it, with the entity and the name of the attribute that does.
const USERS: &[(u64, &[(u64, &str, &str)])] = &[
    // Two attributes of one instance, one attribute that has it twice, in lists of lists, in a value with its keyword, in a
    // set, and in a record of external mapping.
    (
        1,
        &[
            (2, "PAIR", "FIRST"),
            (2, "PAIR", "SECOND"),
            (3, "ROW", "CELLS"),
            (4, "HOLDER", "VALUE"),
            (4, "HOLDER", "MORE"),
            (8, "TAGGED", "TAG"),
        ],
    ),
    (
        5,
        &[
            (3, "ROW", "CELLS"),
            (4, "HOLDER", "MORE"),
            (9, "HOLDER", "VALUE"),
        ],
    ),
    (6, &[(3, "ROW", "CELLS"), (4, "HOLDER", "VALUE")]),
    // By itself, and by the last name.
    (
        7,
        &[
            (7, "NODE", "NEXT"),
            (8, "NODE", "NEXT"),
            (18446744073709551615, "NODE", "NEXT"),
        ],
    ),
    // Nothing refers to these, the third of which isn't there.
    (2, &[]),
    (18446744073709551615, &[]),
    (10, &[]),
    (0, &[]),
];

fn kind_name(kind: Kind) -> &'static str {
    match kind {
        Kind::Missing => "Missing",
        Kind::Derived => "Derived",
        Kind::Whole => "Whole",
        Kind::Real => "Real",
        Kind::Text => "Text",
        Kind::Item => "Item",
        Kind::Bits => "Bits",
        Kind::Reference => "Reference",
        Kind::Aggregate => "Aggregate",
        Kind::Typed => "Typed",
    }
}

fn put(shown: &mut Vec<u8>, bytes: &[u8]) {
    let _ = shown.extend_from_slice(bytes);
}

fn put_number(shown: &mut Vec<u8>, number: u64) {
    if number >= 10 {
        put(shown, &[b'0' + (number / 10 % 10) as u8]);
    }
    put(shown, &[b'0' + (number % 10) as u8]);
}

/// What a value is, and its text.
fn put_plain(shown: &mut Vec<u8>, value: &Value<'_>) {
    put(shown, kind_name(value.kind()).as_bytes());
    put(shown, b" ");
    put(shown, value.text);
}

/// A value inside another one, with its own elements.
fn put_inner(shown: &mut Vec<u8>, value: &Value<'_>) {
    put_plain(shown, value);
    if let Some(name) = value.reference() {
        put(shown, b" ");
        put_number(shown, name.0);
    }
    if value.kind() == Kind::Aggregate {
        put(shown, b"{");
        let mut elements = value.elements();
        for _ in 0..9 {
            if let Some(element) = elements.next() {
                put_plain(shown, &element);
                put(shown, b",");
            }
        }
        put(shown, b"}");
    }
}

fn put_value(shown: &mut Vec<u8>, value: &Value<'_>) {
    put_plain(shown, value);
    if value.kind() == Kind::Aggregate {
        put(shown, b"{");
        let mut elements = value.elements();
        for _ in 0..9 {
            if let Some(element) = elements.next() {
                put_inner(shown, &element);
                put(shown, b",");
            }
        }
        put(shown, b"}");
    }
    if let Some((word, inside)) = value.typed() {
        put(shown, b"<");
        put(shown, word);
        put(shown, b" ");
        put_plain(shown, &inside);
        put(shown, b">");
    }
}

fn put_attribute(shown: &mut Vec<u8>, schema: &Schema, place: Place, value: &Value<'_>) {
    if place.entity.0 as usize >= schema.entities() {
        return;
    }
    if place.index >= schema.attribute_count(place.entity) {
        return;
    }
    put(shown, schema.entity_name(place.entity));
    put(shown, b".");
    put(shown, schema.place_name(place));
    put(shown, b" ");
    put_value(shown, value);
    put(shown, b";");
}

fn put_instance(shown: &mut Vec<u8>, schema: &Schema, instance: &Instance<'_>) {
    let mut attributes = instance.attributes();
    for _ in 0..9 {
        if let Some(attribute) = attributes.next() {
            if let Some(value) = instance.value(attribute.place) {
                put_attribute(shown, schema, attribute.place, &value);
            }
        }
    }
}

fn shown_of(alloc: Global, schema: &Schema, accepted: &Accepted, name: u64) -> Vec<u8> {
    let mut shown = Vec::new(alloc);
    let model = AcceptedModel { schema, accepted };
    match model.instance(Name(name)) {
        Some(instance) => put_instance(&mut shown, schema, &instance),
        None => put(&mut shown, b"no instance"),
    }
    shown
}

fn first_otherwise(alloc: Global, schema: &Schema, accepted: &Accepted) -> &'static str {
    for (name, wanted) in INSTANCES {
        let shown = shown_of(alloc, schema, accepted, *name);
        if shown.as_slice() != wanted.as_bytes() {
            return wanted;
        }
    }
    if sets_are_right(schema, accepted) {
        "none"
    } else {
        "the sets"
    }
}

/// The names of the instances, as they are walked.
fn walked(alloc: Global, schema: &Schema, accepted: &Accepted) -> Vec<u8> {
    let mut names = Vec::new(alloc);
    let model = AcceptedModel { schema, accepted };
    let mut least = 0;
    for _ in 0..9 {
        if let Some(instance) = model.first_from(Name(least)) {
            put_number(&mut names, instance.name.0);
            put(&mut names, b" ");
            least = instance.name.0.saturating_add(1);
        }
    }
    names
}

fn is_entity(schema: &Schema, entities: &mut Entities<'_>, wanted: &str) -> bool {
    match entities.next() {
        Some(entity) => (entity.0 as usize) < schema.entities()
            && schema.entity_name(entity) == wanted.as_bytes(),
        None => false,
    }
}

fn has_entities(schema: &Schema, instance: &Instance<'_>, wanted: &[&str]) -> bool {
    let mut entities = instance.entities();
    for entity in wanted {
        if !is_entity(schema, &mut entities, entity) {
            return false;
        }
    }
    entities.next().is_none()
}

fn has_set(model: &AcceptedModel<'_>, name: u64, wanted: &[&str]) -> bool {
    match model.instance(Name(name)) {
        Some(instance) => has_entities(model.schema, &instance, wanted),
        None => false,
    }
}

fn sets_are_right(schema: &Schema, accepted: &Accepted) -> bool {
    let model = AcceptedModel { schema, accepted };
    for (name, wanted) in SETS {
        if !has_set(&model, *name, wanted) {
            return false;
        }
    }
    true
}

fn value_of(text: &str) -> Value<'_> {
    Value {
        text: text.as_bytes(),
    }
}

fn has_digits(text: &str, negative: bool, whole: &str, fraction: &str, exponent: i32) -> bool {
    match value_of(text).digits() {
        Some(digits) => {
            digits.negative == negative
                && digits.whole == whole.as_bytes()
                && digits.fraction == fraction.as_bytes()
                && digits.exponent == exponent
        }
        None => false,
    }
}

fn first_other_digits() -> &'static str {
    for (text, negative, whole, fraction, exponent) in DIGITS {
        if !has_digits(text, *negative, whole, fraction, *exponent) {
            return text;
        }
    }
    "none"
}

fn has_nearest(text: &str, bits: u64) -> bool {
    match value_of(text).nearest() {
        Some(double) => !double.is_nan() && double.to_bits() == bits,
        None => false,
    }
}

fn first_other_double() -> &'static str {
    for (text, bits) in DOUBLES {
        if !has_nearest(text, *bits) {
            return text;
        }
    }
    "none"
}

fn is_character(characters: &mut Characters<'_>, wanted: char) -> bool {
    match characters.next() {
        Some(character) => character == wanted,
        None => false,
    }
}

fn has_characters(text: &str, wanted: &[char]) -> bool {
    let mut characters = value_of(text).characters();
    for character in wanted {
        if !is_character(&mut characters, *character) {
            return false;
        }
    }
    characters.next().is_none()
}

fn first_other_text() -> &'static str {
    for (text, wanted) in TEXTS {
        if !has_characters(text, wanted) {
            return text;
        }
    }
    "none"
}

fn is_reference(references: &mut References<'_>, wanted: u64) -> bool {
    match references.next() {
        Some(name) => name.0 == wanted,
        None => false,
    }
}

fn has_names(text: &str, wanted: &[u64]) -> bool {
    let mut references = value_of(text).references();
    for name in wanted {
        if !is_reference(&mut references, *name) {
            return false;
        }
    }
    references.next().is_none()
}

fn first_other_names() -> &'static str {
    for (text, wanted) in NAMED {
        if !has_names(text, wanted) {
            return text;
        }
    }
    "none"
}

fn first_wrong_value() -> &'static str {
    let outcomes = [
        first_other_digits(),
        first_other_double(),
        first_other_text(),
    ];
    for outcome in outcomes {
        if outcome != "none" {
            return outcome;
        }
    }
    first_other_names()
}

fn is_use(schema: &Schema, found: Use, user: u64, entity: &str, attribute: &str) -> bool {
    let place = found.place;
    if place.entity.0 as usize >= schema.entities() {
        return false;
    }
    if place.index >= schema.attribute_count(place.entity) {
        return false;
    }
    found.user.0 == user
        && schema.entity_name(place.entity) == entity.as_bytes()
        && schema.place_name(place) == attribute.as_bytes()
}

fn has_next(
    schema: &Schema,
    users: &mut UsersOf<'_>,
    user: u64,
    entity: &str,
    attribute: &str,
) -> bool {
    match users.next() {
        Some(found) => is_use(schema, found, user, entity, attribute),
        None => false,
    }
}

fn has_users(schema: &Schema, users: &Users, name: u64, wanted: &[(u64, &str, &str)]) -> bool {
    let mut found = users.of(Name(name));
    if found.len() != wanted.len() {
        return false;
    }
    for (user, entity, attribute) in wanted {
        if !has_next(schema, &mut found, *user, entity, attribute) {
            return false;
        }
    }
    found.next().is_none()
}

/// The first name that has other users than it is to have, or 99 where there is none.
fn first_otherwise_used(schema: &Schema, users: &Users) -> u64 {
    for (name, wanted) in USERS {
        if !has_users(schema, users, *name, wanted) {
            return *name;
        }
    }
    99
}

fn first_wrong_users(alloc: Global) -> u64 {
    let Ok(schema) = read_schema(alloc, REFERRING_SCHEMA.as_bytes()) else {
        return 101;
    };
    let mut session = Session::new(alloc, &schema, Limits::usual());
    let Ok(()) = session.feed(REFERRING_FILE.as_bytes()) else {
        return 102;
    };
    let Ok(accepted) = session.finish() else {
        return 103;
    };
    let model = AcceptedModel {
        schema: &schema,
        accepted: &accepted,
    };
    match Users::new(alloc, model) {
        Ok(users) => first_otherwise_used(&schema, &users),
        Err(_) => 104,
    }
}

fn first_wrong(alloc: Global) -> &'static str {
    let Ok(schema) = read_schema(alloc, SCHEMA.as_bytes()) else {
        return "the schema";
    };
    let mut session = Session::new(alloc, &schema, Limits::usual());
    let Ok(()) = session.feed(FILE.as_bytes()) else {
        return "the file";
    };
    let Ok(accepted) = session.finish() else {
        return "the end of the file";
    };
    if walked(alloc, &schema, &accepted).as_slice() != "1 3 4 5 20 ".as_bytes() {
        return "the walk";
    }
    first_otherwise(alloc, &schema, &accepted)
}

#[test]
fn hands_out_attributes_and_values(rt: HostRuntime) {
    assert_eq!(rt; first_wrong(rt.alloc()), "none");
}

#[test]
fn hands_out_digits_characters_and_names(rt: HostRuntime) {
    assert_eq!(rt; first_wrong_value(), "none");
}

#[test]
fn hands_out_what_refers(rt: HostRuntime) {
    assert_eq!(rt; first_wrong_users(rt.alloc()), 99);
}
