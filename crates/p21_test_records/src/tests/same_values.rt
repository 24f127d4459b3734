use super::*;
use p21_canon::same;
use p21_grammar::Decimal;
use p21_mapping::{TypeId, Value, Values};
use p21_values::{Bits, Name, NoMemory, Text, ValueFault, Whole, Word};

/// A real for each digit, and no value for a point.
fn element(alloc: Global, letter: u8) -> Result<Value, ValueFault> {
    let spelled: &[u8] = match letter {
        b'1' => b"1.",
        b'2' => b"20.E-1",
        b'3' => b"3.0",
        _ => return Ok(Value::Missing),
    };
    Ok(Value::Real(Decimal::read(alloc, spelled)?))
}

fn push_elements(alloc: Global, letters: &str, all: &mut Vec<Value>) -> Result<(), ValueFault> {
    for letter in letters.as_bytes() {
        all.push(element(alloc, *letter)?)?;
    }
    Ok(())
}

/// An element for each letter.
fn elements(alloc: Global, letters: &str) -> Option<Values> {
    let mut all = Vec::new(alloc);
    match push_elements(alloc, letters, &mut all) {
        Ok(()) => Some(Values::from_vec(all)),
        Err(_) => None,
    }
}

/// A kind of aggregate.
#[derive(Clone, Copy)]
enum Kind {
    List,
    Array,
    Set,
    Bag,
}

fn aggregate_of(kind: Kind, elements: Values) -> Value {
    match kind {
        Kind::List => Value::List(elements),
        Kind::Array => Value::Array(elements),
        Kind::Set => Value::Set(elements),
        Kind::Bag => Value::Bag(elements),
    }
}

fn aggregate(alloc: Global, kind: Kind, letters: &str) -> Option<Value> {
    match elements(alloc, letters) {
        Some(elements) => Some(aggregate_of(kind, elements)),
        None => None,
    }
}

/// Whether two aggregates are the same: none where memory runs out, or it matters which comes first.
fn are_same(
    alloc: Global,
    (kind, letters): (Kind, &str),
    (other_kind, others): (Kind, &str),
) -> Option<bool> {
    match aggregate(alloc, kind, letters) {
        Some(one) => is_same(alloc, &one, other_kind, others),
        None => None,
    }
}

fn is_same(alloc: Global, one: &Value, kind: Kind, letters: &str) -> Option<bool> {
    match aggregate(alloc, kind, letters) {
        Some(other) => found_same(one, &other),
        None => None,
    }
}

fn found_same(one: &Value, other: &Value) -> Option<bool> {
    let found = same(one, other);
    if same(other, one) == found {
        Some(found)
    } else {
        None
    }
}

/// The elements of two aggregates, and whether they are the same as lists, arrays, sets and bags.
const AGGREGATES: &[(&str, &str, [bool; 4])] = &[
    ("", "", [true, true, true, true]),
    ("", "1", [false, false, false, false]),
    ("12", "12", [true, true, true, true]),
    ("12", "21", [false, false, true, true]),
    ("112", "122", [false, false, true, false]),
    ("112", "121", [false, false, true, true]),
    ("12", "122", [false, false, true, false]),
    ("12", "123", [false, false, false, false]),
    ("1.", "1.", [true, true, true, true]),
    ("1.", ".1", [false, false, true, true]),
];

/// Whether two aggregates are the same just where a row says so.
fn compare(alloc: Global, letters: &str, others: &str, expected: [bool; 4]) -> bool {
    let kinds = [Kind::List, Kind::Array, Kind::Set, Kind::Bag];
    for (kind, wanted) in kinds.iter().zip(expected.iter()) {
        if are_same(alloc, (*kind, letters), (*kind, others)) != Some(*wanted) {
            return false;
        }
    }
    true
}

fn first_compared_otherwise(alloc: Global) -> Option<(&'static str, &'static str)> {
    for (letters, others, expected) in AGGREGATES {
        if !compare(alloc, letters, others, *expected) {
            return Some((letters, others));
        }
    }
    None
}

#[test]
fn compares_aggregates(rt: HostRuntime) {
    assert_eq!(rt; first_compared_otherwise(rt.alloc()), None);
}

/// By its name: two kinds of aggregates, and elements with which they are different.
const KINDS: &[(&str, Kind, Kind, &str)] = &[
    ("bag and set", Kind::Bag, Kind::Set, "12"),
    ("bag and list", Kind::Bag, Kind::List, "12"),
    ("list and array", Kind::List, Kind::Array, "1"),
];

fn first_taken_for_another(alloc: Global) -> &'static str {
    for (name, kind, other, letters) in KINDS {
        if are_same(alloc, (*kind, letters), (*other, letters)) != Some(false) {
            return name;
        }
    }
    "none"
}

#[test]
fn compares_kinds_of_aggregates(rt: HostRuntime) {
    passes(&rt, first_taken_for_another(rt.alloc()));
}

/// A value of each kind, by what its attribute takes.
#[derive(Clone, Copy)]
enum Of {
    Integer,
    Real,
    Number,
    String,
    Binary,
    Enumeration,
    Entity,
    Derived,
    Missing,
    List,
    Array,
    Set,
    Bag,
    Select,
}

const KINDS_OF_VALUES: &[(&str, Of)] = &[
    ("INTEGER", Of::Integer),
    ("REAL", Of::Real),
    ("NUMBER", Of::Number),
    ("STRING", Of::String),
    ("BINARY", Of::Binary),
    ("an enumeration", Of::Enumeration),
    ("an entity", Of::Entity),
    ("a derived attribute", Of::Derived),
    ("no value", Of::Missing),
    ("LIST", Of::List),
    ("ARRAY", Of::Array),
    ("SET", Of::Set),
    ("BAG", Of::Bag),
    ("a select", Of::Select),
];

/// The one of a kind, spelled `1` where it may be, or in an aggregate or behind a keyword.
fn value_of(alloc: Global, kind: Of) -> Result<Value, ValueFault> {
    match kind {
        Of::Integer => Ok(Value::Whole(Whole::read(alloc, b"1")?)),
        Of::Real => Ok(Value::Real(Decimal::read(alloc, b"1.")?)),
        Of::Number => Ok(Value::Number(Decimal::read(alloc, b"1.")?)),
        Of::String => text_of(alloc),
        Of::Binary => Ok(Value::Bits(Bits::read(alloc, b"\"01\"")?)),
        Of::Enumeration => Ok(Value::Item(Word::read(alloc, b"ONE")?)),
        Of::Entity => Ok(Value::Reference(Name::read(b"#1")?)),
        Of::Derived => Ok(Value::Derived),
        Of::Missing => Ok(Value::Missing),
        Of::List => of_one(alloc, Kind::List),
        Of::Array => of_one(alloc, Kind::Array),
        Of::Set => of_one(alloc, Kind::Set),
        Of::Bag => of_one(alloc, Kind::Bag),
        Of::Select => tagged(alloc, 1, b'1'),
    }
}

fn text_of(alloc: Global) -> Result<Value, ValueFault> {
    let mut text = Text::new(alloc);
    match text.push('1') {
        Ok(()) => Ok(Value::Text(text)),
        Err(NoMemory) => Err(ValueFault::NoMemory),
    }
}

/// An aggregate of a one.
fn of_one(alloc: Global, kind: Kind) -> Result<Value, ValueFault> {
    let mut all = Vec::new(alloc);
    push_elements(alloc, "1", &mut all)?;
    Ok(aggregate_of(kind, Values::from_vec(all)))
}

/// Whether the values of two kinds are the same.
fn are_same_of(alloc: Global, kind: Of, other: Of) -> Result<bool, ValueFault> {
    let one = value_of(alloc, kind)?;
    let other = value_of(alloc, other)?;
    Ok(same(&one, &other))
}

/// The first kind whose value isn't the same as one made alike, or is the same as that of another kind.
fn first_kind_mistaken(alloc: Global) -> (&'static str, &'static str) {
    for (place, (name, kind)) in KINDS_OF_VALUES.iter().enumerate() {
        for (other_place, (other_name, other)) in KINDS_OF_VALUES.iter().enumerate() {
            if are_same_of(alloc, *kind, *other) != Ok(place == other_place) {
                return (name, other_name);
            }
        }
    }
    ("none", "none")
}

#[test]
fn tells_kinds_of_values_apart(rt: HostRuntime) {
    assert_eq!(rt; first_kind_mistaken(rt.alloc()), ("none", "none"));
}

/// Two values of a select, by the numbers of the types that their keywords name and by their elements, and whether they are the
/// same.
const TAGGED: &[(u32, u8, u32, u8, bool)] = &[
    (1, b'1', 1, b'1', true),
    (1, b'1', 2, b'1', false),
    (1, b'1', 1, b'2', false),
];

fn tagged(alloc: Global, number: u32, letter: u8) -> Result<Value, ValueFault> {
    let inner = element(alloc, letter)?;
    Ok(Value::Tagged(TypeId(number), Box::new(alloc, inner)?))
}

fn are_same_tagged(
    alloc: Global,
    (number, letter): (u32, u8),
    (other_number, other_letter): (u32, u8),
) -> Result<bool, ValueFault> {
    let one = tagged(alloc, number, letter)?;
    let other = tagged(alloc, other_number, other_letter)?;
    Ok(same(&one, &other))
}

/// The number of the first row that doesn't hold.
fn first_tagged_otherwise(alloc: Global) -> Option<usize> {
    for (place, (a, x, b, y, wanted)) in TAGGED.iter().enumerate() {
        if are_same_tagged(alloc, (*a, *x), (*b, *y)) != Ok(*wanted) {
            return Some(place);
        }
    }
    None
}

#[test]
fn compares_values_of_selects(rt: HostRuntime) {
    assert_eq!(rt; first_tagged_otherwise(rt.alloc()), None);
}
