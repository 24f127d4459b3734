ghost use Rattle.std.specs.Prelude.{◌↔◌, ◌≤◌, ℕ, IsTrue, Contains, length};
ghost use Rattle.p21_spec_schema.specs.Declared.{most_declarations};
ghost use Rattle.p21_spec_schema.specs.Select.{IsSelect};
ghost use Rattle.p21_express_outline.specs.Finding.{DecidesClaim};
ghost use Rattle.p21_express_outline.specs.DeclaredBy.{RenamesNoSelect};
ghost use Rattle.p21_express_graph.specs.SchemaContents.{schema_of};

use crate::direct_renaming::renamed_of;
use crate::fault::SchemaFault;
use p21_express_graph::{Defined, SchemaContents, TypeKind};
use std::alloc::Global;

/// Whether a type is a select.
fn is_select(parts: &SchemaContents, of: u32) -> bool
    ensures { IsTrue result ↔ IsSelect (schema_of parts.now) of }
{
    match parts.types.get(of as usize) {
        Some(defined) => {
            let defined: &Defined = defined;
            match &defined.kind {
                TypeKind::Choice(_members) => true,
                TypeKind::Alias(_type_use) => false,
                TypeKind::Items(_words) => false,
            }
        }
        None => false,
    }
}

/// Whether one of the numbers is that of a select.
fn has_select(parts: &SchemaContents, numbers: &[u32]) -> bool
    ensures { IsTrue result ↔ ((u : ℕ) × Contains numbers.now u × IsSelect (schema_of parts.now) u) }
{
    for number in numbers {
        if is_select(parts, *number) {
            return true;
        }
    }
    false
}

/// No type is just the name of a select.
///
/// # Errors
///
/// `LeftOut`, `NoMemory`.
pub fn check_no_select(alloc: Global, parts: &SchemaContents) -> Result<(), SchemaFault>
    ensures { DecidesClaim (RenamesNoSelect (schema_of parts.now)) result }
{
    for defined in &parts.types {
        let defined: &Defined = defined;
        let direct_renaming = renamed_of(alloc, &defined.kind)?;
        if has_select(parts, &direct_renaming) {
            return Err(SchemaFault::LeftOut);
        }
    }
    Ok(())
}
