ghost use Rattle.std.specs.Prelude.{◌≡◌, ◌≤◌, IfOk, length, map};
ghost use Rattle.p21_spec_schema.specs.Declared.{HasNoCircle, Renames, most_declarations};
ghost use Rattle.p21_express_outline.specs.Chains.{AreTypes};
ghost use Rattle.p21_express_graph.specs.DirectRenaming.{direct_renaming, renamed_by};
ghost use Rattle.p21_express_outline.specs.Finding.{DecidesClaim};
ghost use Rattle.p21_express_graph.specs.SchemaContents.{schema_of};
ghost use Rattle.p21_express_graph.specs.SettledOrder.{lists_of};
ghost use Rattle.p21_express_graph.specs.Meaning.{kind as kind_of, type_use};

use crate::chains::check_ends;
use crate::fault::SchemaFault;
use p21_express_graph::{Defined, SchemaContents, TypeKind, TypeUse};
use p21_values::NoMemory;
use std::alloc::Global;

/// The type whose name alone a type is.
fn renamed_type(alloc: Global, found: &TypeUse) -> Result<Vec<u32>, NoMemory>
    ensures { IfOk result (λ numbers. numbers.items ≡ renamed_by (type_use found.now)) }
{
    let mut numbers = Vec::new(alloc);
    match found {
        TypeUse::Defined(next) => numbers.push(next.0)?,
        TypeUse::Whole => {}
        TypeUse::Real => {}
        TypeUse::Number => {}
        TypeUse::Boolean => {}
        TypeUse::Logical => {}
        TypeUse::Text(_width) => {}
        TypeUse::Bits(_width) => {}
        TypeUse::Entity(_entity) => {}
        TypeUse::Array { .. } => {}
        TypeUse::List { .. } => {}
        TypeUse::Set { .. } => {}
        TypeUse::Bag { .. } => {}
    }
    Ok(numbers)
}

pub(crate) fn renamed_of(alloc: Global, kind: &TypeKind) -> Result<Vec<u32>, NoMemory>
    ensures { IfOk result (λ numbers. numbers.items ≡ direct_renaming (kind_of kind.now)) }
{
    match kind {
        TypeKind::Alias(found) => renamed_type(alloc, found),
        TypeKind::Items(_words) => Ok(Vec::new(alloc)),
        TypeKind::Choice(_members) => Ok(Vec::new(alloc)),
    }
}

fn renamed_numbers(alloc: Global, types: &[Defined]) -> Result<Vec<Vec<u32>>, NoMemory>
    ensures { IfOk result (λ lists. lists_of lists.items ≡ map (λ x. direct_renaming (kind_of x.kind)) types.now) }
{
    let mut lists = Vec::with_capacity(alloc, types.len())?;
    for defined in types {
        let defined: &Defined = defined;
        lists.push(renamed_of(alloc, &defined.kind)?)?;
    }
    Ok(lists)
}

/// No chain of types that are just names of types comes back.
///
/// # Errors
///
/// `Circular`, `NoMemory`.
pub fn check_renaming(alloc: Global, parts: &SchemaContents) -> Result<(), SchemaFault>
    requires few { length parts.now.types.items ≤ most_declarations }
    requires within { AreTypes (schema_of parts.now) }
    ensures { DecidesClaim (HasNoCircle (Renames (schema_of parts.now))) result }
{
    let lists = renamed_numbers(alloc, &parts.types)?;
    check_ends(alloc, &lists)
}
