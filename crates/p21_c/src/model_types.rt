//! Types of a schema, as C has them.
ghost use Rattle.std.specs.Prelude.{◌≡◌, None, Some, MatchOption};
ghost use Rattle.p21_c.specs.Types.{aggregate, bare, declared_told, derived_told, elements_of, member_told, numbered, parts_of, place_told, told_at, wide};
ghost use Rattle.p21_express_graph.specs.Meaning.{kind as meant_kind, member as meant_member, place_type, type_use, width_option};

use crate::answers::flag;
use p21_express_graph::{Member as OfferedMember, PlaceType, TypeKind, TypeUse, Width};

/// A type where it is used.
#[repr(C)]
#[derive(Clone, Copy)]
pub struct TypeParts {
    /// What it is.
    pub kind: u8,
    /// Whether a value may be left out here.
    pub optional: u8,
    /// Whether elements may not be equal.
    pub unique: u8,
    /// Whether a text or a binary has exactly so many characters or bits.
    pub fixed: u8,
    /// Whether there is an upper bound, or a width.
    pub bounded: u8,
    /// The number of the entity, or of the declared type.
    pub number: u32,
    /// The lower bound.
    pub low: u32,
    /// The upper bound, or the width.
    pub high: u32,
}

/// What a declared type is, and how many items or members it has.
#[repr(C)]
#[derive(Clone, Copy)]
pub struct Declared {
    pub kind: u8,
    pub count: usize,
}

/// A member of a select.
#[repr(C)]
#[derive(Clone, Copy)]
pub struct Member {
    pub kind: u8,
    pub number: u32,
}

const WHOLE: u8 = 0;

const REAL: u8 = 1;

const NUMBER: u8 = 2;

const BOOLEAN: u8 = 3;

const LOGICAL: u8 = 4;

const TEXT: u8 = 5;

const BITS: u8 = 6;

const ENTITY: u8 = 7;

const DEFINED: u8 = 8;

const ARRAY: u8 = 9;

const LIST: u8 = 10;

const SET: u8 = 11;

const BAG: u8 = 12;

const DERIVED: u8 = 13;

const RENAMED: u8 = 0;

const ITEMS: u8 = 1;

const SELECT: u8 = 2;

/// What a declared type is.
pub(crate) fn declared_kind(kind: &TypeKind) -> Declared
    ensures { result ≡ declared_told (meant_kind kind.now) }
{
    match kind {
        TypeKind::Alias(_) => Declared {
            kind: RENAMED,
            count: 0,
        },
        TypeKind::Items(words) => Declared {
            kind: ITEMS,
            count: words.items().len(),
        },
        TypeKind::Choice(members) => Declared {
            kind: SELECT,
            count: members.items().len(),
        },
    }
}

/// A member of a select.
pub(crate) fn member_of(member: OfferedMember) -> Member
    ensures { result ≡ member_told (meant_member member) }
{
    match member {
        OfferedMember::Entity(entity) => Member {
            kind: ENTITY,
            number: entity.0,
        },
        OfferedMember::Defined(of) => Member {
            kind: DEFINED,
            number: of.0,
        },
    }
}

/// What may stand at an attribute, so many aggregates deep; nothing where redeclarations don't decide it, or where it isn't so
/// deep.
pub(crate) fn type_of_place(found: PlaceType<'_>, depth: u32) -> Option<TypeParts>
    ensures { result ≡ place_told depth (place_type found.entry) }
{
    match found {
        PlaceType::Derived => derived(depth),
        PlaceType::Stored(optional, of) => plain_type(optional, of, depth),
        PlaceType::Two => None,
    }
}

/// A derived value, which has no elements.
fn derived(depth: u32) -> Option<TypeParts>
    ensures { result ≡ derived_told depth }
{
    match depth {
        0 => Some(no_type(DERIVED)),
        _ => None,
    }
}

/// A type, so many aggregates deep.
pub(crate) fn plain_type(optional: bool, of: &TypeUse, depth: u32) -> Option<TypeParts>
    ensures { result ≡ told_at depth optional (type_use of.now) }
{
    let mut optional = optional;
    let mut found = of;
    let mut left = depth;
    while left > 0 {
        let Some((leaves_out, inside)) = elements_of(found) else {
            return None;
        };
        optional = leaves_out;
        found = inside;
        left -= 1;
    }
    let mut told = type_parts(found);
    told.optional = flag(optional);
    Some(told)
}

/// The type of the elements of an aggregate, and whether they may be left out.
fn elements_of(of: &TypeUse) -> Option<(bool, &TypeUse)>
    ensures { MatchOption result (elements_of (type_use of.now) ≡ None)
        (λ inside. elements_of (type_use of.now) ≡ Some (inside.0, type_use inside.1.now)) }
{
    match of {
        TypeUse::Array {
            optional,
            element,
            ..
        } => Some((*optional, element)),
        TypeUse::List { element, .. } => Some((false, element)),
        TypeUse::Set { element, .. } => Some((false, element)),
        TypeUse::Bag { element, .. } => Some((false, element)),
        _ => None,
    }
}

/// A type of this kind, of which nothing else is said.
fn no_type(kind: u8) -> TypeParts
    ensures { result ≡ bare kind }
{
    TypeParts {
        kind,
        optional: 0,
        unique: 0,
        fixed: 0,
        bounded: 0,
        number: 0,
        low: 0,
        high: 0,
    }
}

/// A type, without its elements.
fn type_parts(of: &TypeUse) -> TypeParts
    ensures { result ≡ parts_of (type_use of.now) }
{
    match of {
        TypeUse::Whole => no_type(WHOLE),
        TypeUse::Real => no_type(REAL),
        TypeUse::Number => no_type(NUMBER),
        TypeUse::Boolean => no_type(BOOLEAN),
        TypeUse::Logical => no_type(LOGICAL),
        TypeUse::Text(width) => wide(TEXT, *width),
        TypeUse::Bits(width) => wide(BITS, *width),
        TypeUse::Entity(entity) => numbered(ENTITY, entity.0),
        TypeUse::Defined(other) => numbered(DEFINED, other.0),
        TypeUse::Array {
            low,
            high,
            unique,
            ..
        } => bounds(ARRAY, *low, Some(*high), *unique),
        TypeUse::List {
            low,
            high,
            unique,
            ..
        } => bounds(LIST, *low, *high, *unique),
        TypeUse::Set { low, high, .. } => bounds(SET, *low, *high, true),
        TypeUse::Bag { low, high, .. } => bounds(BAG, *low, *high, false),
    }
}

/// A text or a binary.
fn wide(kind: u8, width: Option<Width>) -> TypeParts
    ensures { result ≡ wide kind (width_option width) }
{
    let mut told = no_type(kind);
    let Some(width) = width else {
        return told;
    };
    told.bounded = 1;
    told.fixed = flag(width.fixed);
    told.high = width.most;
    told
}

/// An entity or a declared type.
fn numbered(kind: u8, number: u32) -> TypeParts
    ensures { result ≡ numbered kind number }
{
    let mut told = no_type(kind);
    told.number = number;
    told
}

/// An aggregate.
fn bounds(kind: u8, low: u32, high: Option<u32>, unique: bool) -> TypeParts
    ensures { result ≡ aggregate kind low high unique }
{
    let mut told = no_type(kind);
    told.low = low;
    told.unique = flag(unique);
    let Some(high) = high else {
        return told;
    };
    told.bounded = 1;
    told.high = high;
    told
}
