//! What a value is.

/// What a value is, by the form in which it is written: nothing, a derived attribute, a scalar, the name of an instance, an
/// aggregate, or a value with the keyword of its type. The value of a NUMBER is written as a real.
#[derive(Clone, Copy, Debug, PartialEq, Eq)]
pub enum Kind {
    Missing,
    Derived,
    Whole,
    Real,
    Text,
    Item,
    Bits,
    Reference,
    Aggregate,
    Typed,
}
