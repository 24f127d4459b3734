//! What is known of aggregates (ISO 10303-11, Aggregation data types).
ghost use Rattle.std.specs.Prelude.{◌≡◌, IfSome};
ghost use Rattle.p21_express_graph.specs.Meaning.{type_use};
ghost use Rattle.p21_shorter_instances.specs.ArrangedElements.{compares_elements};
ghost use Rattle.p21_shorter_instances.specs.Elements.{IsAggregateOf};

use p21_express_graph::TypeUse;

/// Of an aggregate whether places may be empty, and the type of its elements. Where none may be equal and places may be empty,
/// it isn't taken this way.
pub(crate) fn element_of(of: &TypeUse) -> Option<(bool, &TypeUse)>
    ensures { IfSome result (λ parts. IsAggregateOf (type_use of.now) parts.0 (type_use parts.1.now)) }
{
    match of {
        TypeUse::Array {
            optional,
            unique,
            element,
            ..
        } => {
            if *optional && *unique {
                return None;
            }
            Some((*optional, element))
        }
        TypeUse::List { element, .. } => Some((false, element)),
        TypeUse::Set { element, .. } => Some((false, element)),
        TypeUse::Bag { element, .. } => Some((false, element)),
        _ => None,
    }
}

/// Whether the elements of the aggregate are compared, since they have no order or no two may be equal.
pub(crate) fn are_compared(of: &TypeUse) -> bool
    ensures { result ≡ compares_elements (type_use of.now) }
{
    match of {
        TypeUse::Array { unique, .. } => *unique,
        TypeUse::List { unique, .. } => *unique,
        TypeUse::Set { .. } => true,
        TypeUse::Bag { .. } => true,
        _ => false,
    }
}
