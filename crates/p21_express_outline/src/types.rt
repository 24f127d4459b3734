ghost use Rattle.std.specs.Prelude.{◌≡◌, IfOk};
ghost use Rattle.p21_express_outline.specs.Finding.{Finds};
ghost use Rattle.p21_express_outline.specs.Known.{AreFew, names_of};
ghost use Rattle.p21_express_outline.specs.Outline.{SimpleIs, DigestTypeIs, aggregate_of, aggregates_of, width_of};
ghost use Rattle.p21_express_syntax.specs.Views.{type_view};
ghost use Rattle.p21_express_syntax.specs.declared.types.SimpleType.TheVariants as simple;
ghost use Rattle.p21_express_graph.specs.Meaning.{type_use, width_option};

use crate::fault::SchemaFault;
use p21_express_graph::{EntityId, KnownNames, TypeId, TypeUse, Width};
use p21_express_syntax::{Aggregate, DataType, SimpleType, Width as WrittenWidth};
use p21_values::NoMemory;
use std::alloc::Global;

/// The entity or type of a name.
fn named_type(known: &KnownNames, name: &[u8]) -> Result<TypeUse, SchemaFault>
    requires { AreFew known.now }
    ensures { Finds type_use (SimpleIs (names_of known.now) (simple.Named name.now)) result }
{
    if let Some(entity) = known.entities.position(name) {
        return Ok(TypeUse::Entity(EntityId(entity as u32)));
    }
    match known.types.position(name) {
        Some(defined) => Ok(TypeUse::Defined(TypeId(defined as u32))),
        None => Err(SchemaFault::UnknownName),
    }
}

fn width(written: Option<WrittenWidth>) -> Option<Width>
    ensures { width_option result ≡ width_of written }
{
    match written {
        Some(width) => Some(Width {
            most: width.most,
            fixed: width.fixed,
        }),
        None => None,
    }
}

/// A type that is no aggregate.
fn simple_type(known: &KnownNames, written: &SimpleType) -> Result<TypeUse, SchemaFault>
    requires { AreFew known.now }
    ensures { Finds type_use (SimpleIs (names_of known.now) written.now) result }
{
    match written {
        SimpleType::Integer => Ok(TypeUse::Whole),
        SimpleType::Real => Ok(TypeUse::Real),
        SimpleType::Number => Ok(TypeUse::Number),
        SimpleType::Boolean => Ok(TypeUse::Boolean),
        SimpleType::Logical => Ok(TypeUse::Logical),
        SimpleType::String(most) => Ok(TypeUse::Text(width(*most))),
        SimpleType::Binary(most) => Ok(TypeUse::Bits(width(*most))),
        SimpleType::Named(name) => named_type(known, name.bytes()),
    }
}

/// An aggregate of a type.
fn around(alloc: Global, aggregate: Aggregate, element: TypeUse) -> Result<TypeUse, NoMemory>
    ensures { IfOk result (λ type. type_use type ≡ aggregate_of aggregate (type_use element)) }
{
    let element = Box::new(alloc, element)?;
    Ok(match aggregate {
        Aggregate::Array {
            low,
            high,
            optional,
            unique,
        } => TypeUse::Array {
            low,
            high,
            optional,
            unique,
            element,
        },
        Aggregate::List { range, unique } => TypeUse::List {
            low: range.low,
            high: range.high,
            unique,
            element,
        },
        Aggregate::Set { range } => TypeUse::Set {
            low: range.low,
            high: range.high,
            element,
        },
        Aggregate::Bag { range } => TypeUse::Bag {
            low: range.low,
            high: range.high,
            element,
        },
    })
}

/// The type that is written, with its name resolved.
///
/// # Errors
///
/// `UnknownName` for a name that isn't declared, `NoMemory`.
pub fn resolve_type(
    alloc: Global,
    known: &KnownNames,
    written: &DataType,
) -> Result<TypeUse, SchemaFault>
    requires { AreFew known.now }
    ensures { Finds type_use (DigestTypeIs (names_of known.now) (type_view written.now)) result }
{
    let mut found = simple_type(known, &written.element)?;
    let mut left = written.aggregates.len();
    while left > 0 {
        left -= 1;
        found = around(alloc, written.aggregates[left], found)?;
    }
    Ok(found)
}
