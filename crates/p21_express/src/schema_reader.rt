//! A schema is read in one pass, in which each table for look-ups is made once: first all but redeclarations (the
//! outline), then the orders of its entities (its hierarchy), in which `SELF\e.a` is resolved, then the schema, of the
//! hierarchy with what is redeclared. It is proved that redeclarations resolve alike in a schema and in the same schema
//! without them.
//!
//! A schema is read by `read_schema(alloc, text)`, a function of `p21_express`, and not by `Schema::read`: `Schema`
//! stands in `p21_schema`, since the crates that only look things up need no reader, and an inherent function
//! can't stand outside the crate of its type.
ghost use Rattle.std.specs.List.{enumerate_from};
ghost use Rattle.p21_express.specs.ReadSchema.{AreOfText, BareRead, IsBareSchema, SchemaDeclared, SchemaRead};
ghost use Rattle.p21_express_outline.specs.Finding.{FindsEach};
ghost use Rattle.p21_express_outline.specs.Outline.{digest_names};
ghost use Rattle.p21_express_outline.specs.Redeclarations.{RedeclarationsAre};
ghost use Rattle.p21_express_syntax.specs.Views.{schema_view};
ghost use Rattle.p21_express_graph.specs.Redeclaring.{redeclaring};

use crate::checked::checked_outline;
use crate::first::first_refusal;
use crate::redeclaring::all_redeclarations;
use p21_express_graph::Redeclarations;
use p21_express_outline::SchemaFault;
use p21_express_syntax::{Declarations, read_declarations};
use p21_schema::{Hierarchy, Schema};
use std::alloc::Global;

/// What declarations declare, but that nothing is redeclared.
fn bare_hierarchy(alloc: Global, declarations: &Declarations) -> Result<Hierarchy, SchemaFault>
    requires { AreOfText (schema_view declarations.now) }
    ensures { BareRead (schema_view declarations.now) result }
{
    let parts = checked_outline(alloc, declarations)?;
    Ok(Hierarchy::new(alloc, parts)?)
}

/// What the entities of declarations redeclare.
fn redeclarations(
    alloc: Global,
    declarations: &Declarations,
    bare: &Hierarchy,
) -> Result<Vec<Redeclarations>, SchemaFault>
    requires text { AreOfText (schema_view declarations.now) }
    requires bare { IsBareSchema (schema_view declarations.now) bare.now }
    ensures { FindsEach redeclaring (λ own found. RedeclarationsAre bare.now (digest_names (schema_view declarations.now))
        (schema_view declarations.now).entities own.0 own.1 found) (enumerate_from 0 (schema_view declarations.now).entities) result }
{
    bare.holds_together();
    all_redeclarations(alloc, bare, bare.names(), &declarations.entities)
}

/// The schema that declarations declare.
fn declared_schema(alloc: Global, declarations: &Declarations) -> Result<Schema, SchemaFault>
    requires { AreOfText (schema_view declarations.now) }
    ensures { SchemaDeclared (schema_view declarations.now) result }
{
    let bare = bare_hierarchy(alloc, declarations)?;
    let found = redeclarations(alloc, declarations, &bare)?;
    let hierarchy = bare.with_redeclarations(alloc, found)?;
    Ok(Schema::new(alloc, hierarchy)?)
}

/// The schema that a text declares (ISO 10303-11, Schema declaration): a text declares one at most.
///
/// # Errors
///
/// The first of `Token`, `Syntax`, `LeftOut`, `Bounds` and `TooLarge` in the text; else, over the whole schema, `Duplicate`,
/// `UnknownName`, `Circular`, `LeftOut` for a type that is just the name of a select, `RedeclaredPlace`; `NoMemory`.
pub fn read_schema(alloc: Global, text: &[u8]) -> Result<Schema, SchemaFault>
    ensures { SchemaRead text.now result }
{
    let declarations = read_declarations(alloc, text)?;
    match declared_schema(alloc, &declarations) {
        Ok(schema) => Ok(schema),
        Err(fault) => Err(first_refusal(alloc, &declarations, fault)),
    }
}
