use crate::number::{EntityId, TypeId};

/// The most characters or bits, and whether there are exactly as many (ISO 10303-11, String data type, Binary data type).
#[derive(Clone, Copy, Debug, Drop, PartialEq, Eq)]
pub struct Width {
    pub most: u32,
    pub fixed: bool,
}

/// A type where it is used (ISO 10303-11, Data types). Where the upper bound of a list, set or bag is `None`, there is
/// none.
#[derive(Debug, Drop)]
pub enum TypeUse {
    Whole,
    Real,
    Number,
    Boolean,
    Logical,
    Text(Option<Width>),
    Bits(Option<Width>),
    Entity(EntityId),
    Defined(TypeId),
    Array {
        low: u32,
        high: u32,
        optional: bool,
        unique: bool,
        element: Box<TypeUse>,
    },
    List {
        low: u32,
        high: Option<u32>,
        unique: bool,
        element: Box<TypeUse>,
    },
    Set {
        low: u32,
        high: Option<u32>,
        element: Box<TypeUse>,
    },
    Bag {
        low: u32,
        high: Option<u32>,
        element: Box<TypeUse>,
    },
}
