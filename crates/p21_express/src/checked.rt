ghost use Rattle.std.specs.Prelude.{Ok};
ghost use Rattle.p21_express.specs.ReadSchema.{AreOfText, OutlineChecked, PartsChecked};
ghost use Rattle.p21_express_outline.specs.Outlined.{OutlineFound};
ghost use Rattle.p21_express_syntax.specs.Digest.{SchemaDigest};
ghost use Rattle.p21_express_syntax.specs.Views.{schema_view};

use p21_express_graph::SchemaContents;
use p21_express_outline::{
    SchemaFault, check_no_select, check_renaming, check_selects, check_supertypes, outline,
};
use p21_express_syntax::Declarations;
use std::alloc::Global;

/// What declarations declare, all but what they redeclare; no chain of it comes back.
pub(crate) fn checked_outline(
    alloc: Global,
    declarations: &Declarations,
) -> Result<SchemaContents, SchemaFault>
    requires { AreOfText (schema_view declarations.now) }
    ensures { OutlineChecked (schema_view declarations.now) result }
{
    let parts = outline(alloc, declarations)?;
    check_parts(alloc, &parts)?;
    Ok(parts)
}

/// No chain of an outline comes back, and no type is just the name of a select.
// Without the parts, so that the proof has none to give back wherever they are refused.
fn check_parts(alloc: Global, parts: &SchemaContents) -> Result<(), SchemaFault>
    requires { (k : SchemaDigest) × AreOfText k × OutlineFound k (Ok parts.now) }
    ensures { (k : SchemaDigest) → AreOfText k → OutlineFound k (Ok parts.now) → PartsChecked k parts.now result }
{
    check_supertypes(alloc, parts)?;
    check_renaming(alloc, parts)?;
    check_selects(alloc, parts)?;
    check_no_select(alloc, parts)?;
    Ok(())
}
