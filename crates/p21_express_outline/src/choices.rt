ghost use Rattle.std.specs.Prelude.{◌≤◌, length};
ghost use Rattle.p21_spec_schema.specs.Declared.{HasNoCircle, HasSelect, most_declarations};
ghost use Rattle.p21_express_outline.specs.Chains.{AreMembers};
ghost use Rattle.p21_express_outline.specs.Finding.{DecidesClaim};
ghost use Rattle.p21_express_graph.specs.SchemaContents.{schema_of};

use crate::chains::check_ends;
use crate::fault::SchemaFault;
use p21_express_graph::{SchemaContents, type_lists};
use std::alloc::Global;

/// No chain of selects in selects comes back.
///
/// # Errors
///
/// `Circular`, `NoMemory`.
pub fn check_selects(alloc: Global, parts: &SchemaContents) -> Result<(), SchemaFault>
    requires few { length parts.now.types.items ≤ most_declarations }
    requires within { AreMembers (schema_of parts.now) }
    ensures { DecidesClaim (HasNoCircle (HasSelect (schema_of parts.now))) result }
{
    let lists = type_lists(alloc, &parts.types)?;
    check_ends(alloc, &lists)
}
