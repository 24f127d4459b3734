ghost use Rattle.std.specs.Prelude.{◌≡◌, ◌↔◌, Bool, None, Some, IsTrue, MatchOption};
ghost use Rattle.p21_spec_file.specs.ParameterKind.{AllowsCount, IsUnique, element_type};
ghost use Rattle.p21_express_graph.specs.Meaning.{type_use};
ghost use Rattle.p21_mapping_values.specs.View.{list_of, view, views};
ghost use Rattle.p21_mapping.specs.Aggregate.{aggregate_value};

use crate::bounds::{is_array_count, is_bounded};
use p21_express_graph::TypeUse;
use p21_mapping_values::{Value, Values};

/// Of an aggregate whether places may be empty, and the type of its elements (ISO 10303-11, Aggregation data types).
pub(crate) fn element(of: &TypeUse) -> Option<(bool, &TypeUse)>
    ensures { MatchOption result (element_type (type_use of.now) ≡ None)
        (λ parts. element_type (type_use of.now) ≡ Some (parts.0, type_use parts.1.now)) }
{
    match of {
        TypeUse::Array {
            optional,
            element,
            ..
        } => Some((*optional, element)),
        TypeUse::List { element, .. } => Some((false, element)),
        TypeUse::Set { element, .. } => Some((false, element)),
        TypeUse::Bag { element, .. } => Some((false, element)),
        _ => None,
    }
}

/// Whether the bounds of the aggregate allow so many elements (ISO 10303-11, Aggregation data types). It takes no memory.
#[inline]
pub fn allows_count(of: &TypeUse, count: usize) -> bool
    ensures { IsTrue result ↔ AllowsCount (type_use of.now) count }
{
    match of {
        TypeUse::Array { low, high, .. } => is_array_count(*low, *high, count),
        TypeUse::List { low, high, .. } => is_bounded(*low, *high, count),
        TypeUse::Set { low, high, .. } => is_bounded(*low, *high, count),
        TypeUse::Bag { low, high, .. } => is_bounded(*low, *high, count),
        _ => true,
    }
}

/// Whether no two elements of the aggregate may be the same. It takes no memory.
#[inline]
pub fn is_unique(of: &TypeUse) -> bool
    ensures { IsTrue result ↔ IsUnique (type_use of.now) }
{
    match of {
        TypeUse::Array { unique, .. } => *unique,
        TypeUse::List { unique, .. } => *unique,
        TypeUse::Set { .. } => true,
        _ => false,
    }
}

/// The aggregate of these elements; what is none gives a list.
pub(crate) fn aggregate_of(of: &TypeUse, elements: Values) -> Value
    ensures { view result ≡ aggregate_value (type_use of.now) (views (list_of elements)) }
{
    match of {
        TypeUse::Array { .. } => Value::Array(elements),
        TypeUse::Set { .. } => Value::Set(elements),
        TypeUse::Bag { .. } => Value::Bag(elements),
        _ => Value::List(elements),
    }
}
