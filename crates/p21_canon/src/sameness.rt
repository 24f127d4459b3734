//! The plain comparison of two values of attributes: the definition of sameness, as code.
//!
//! `same` compares bags without memory. The definition pairs elements off one by one. The code tests that both have
//! equally many elements, and that each occurs equally often (by `same`) in both. It is proved once, over the
//! definitions, that the two agree; that proof needs sameness to be an equivalence, and no decision procedure in the
//! definitions.
//!
//! `same` ends because the depth of the deeper value falls. The second test of a set exchanges the sides, and a bag's
//! elements are counted on their own side, so that neither the depth of the first value nor the sum of both depths
//! falls at each step.
ghost use Rattle.std.specs.Prelude.{◌↔◌, IsTrue};
ghost use Rattle.p21_spec_file.specs.SameValue.{Among, EachAmong, Same, SameInOrder, SamePaired};
ghost use Rattle.p21_mapping_values.specs.View.{view, views};
ghost use Rattle.p21_canon.specs.Occurrences.{Occurs};

use p21_mapping_values::Value;

/// Whether two values are the same (ISO 10303-11, value comparison operators). Reals and numbers are compared by their
/// ratios, lists and arrays element by element, sets and bags without order. It takes no memory, and time that grows with
/// the square of an aggregate's length.
#[cycle(same)]
pub fn same(a: &Value, b: &Value) -> bool
    ensures { IsTrue result ↔ Same (view a.now) (view b.now) }
{
    match (a, b) {
        (Value::Whole(a), Value::Whole(b)) => *a == *b,
        (Value::Real(a), Value::Real(b)) => *a == *b,
        (Value::Number(a), Value::Number(b)) => *a == *b,
        (Value::Text(a), Value::Text(b)) => *a == *b,
        (Value::Bits(a), Value::Bits(b)) => *a == *b,
        (Value::Item(a), Value::Item(b)) => *a == *b,
        (Value::Reference(a), Value::Reference(b)) => *a == *b,
        (Value::Derived, Value::Derived) => true,
        (Value::Missing, Value::Missing) => true,
        (Value::List(a), Value::List(b)) => same_in_order(a.items(), b.items()),
        (Value::Array(a), Value::Array(b)) => same_in_order(a.items(), b.items()),
        (Value::Set(a), Value::Set(b)) => {
            each_among(a.items(), b.items()) && each_among(b.items(), a.items())
        }
        (Value::Bag(a), Value::Bag(b)) => same_paired(a.items(), b.items()),
        (Value::Tagged(s, a), Value::Tagged(t, b)) => s == t && same(a, b),
        _ => false,
    }
}

/// Whether values are the same element by element.
#[cycle(same)]
fn same_in_order(a: &[Value], b: &[Value]) -> bool
    ensures { IsTrue result ↔ SameInOrder (views a.now) (views b.now) }
{
    if a.len() != b.len() {
        return false;
    }
    for i in 0..a.len() {
        if !same(&a[i], &b[i]) {
            return false;
        }
    }
    true
}

/// Whether the value is the same as some element.
#[cycle(same)]
fn is_among(value: &Value, others: &[Value]) -> bool
    ensures { IsTrue result ↔ Among (view value.now) (views others.now) }
{
    for other in others {
        if same(value, other) {
            return true;
        }
    }
    false
}

/// Whether each value is the same as some element of the others.
#[cycle(same)]
fn each_among(values: &[Value], others: &[Value]) -> bool
    ensures { IsTrue result ↔ EachAmong (views values.now) (views others.now) }
{
    for value in values {
        if !is_among(value, others) {
            return false;
        }
    }
    true
}

/// How many elements the value is the same as.
#[cycle(same)]
fn occurrences(value: &Value, others: &[Value]) -> usize
    ensures { Occurs (view value.now) (views others.now) result }
{
    let mut count = 0;
    for other in others {
        if same(value, other) {
            count += 1;
        }
    }
    count
}

/// Whether the values pair off: there are as many, and each is as often among the one as among the other. It takes no
/// memory.
#[cycle(same)]
fn same_paired(a: &[Value], b: &[Value]) -> bool
    ensures { IsTrue result ↔ SamePaired (views a.now) (views b.now) }
{
    if a.len() != b.len() {
        return false;
    }
    for value in a {
        if occurrences(value, a) != occurrences(value, b) {
            return false;
        }
    }
    true
}
