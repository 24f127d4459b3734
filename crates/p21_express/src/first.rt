//! Which of several refusals of a schema text comes is found after the text is refused (`first_refusal`). The reader
//! proves that no schema is declared; then names that stand twice and places redeclared twice come before names that
//! aren't declared, and these before all else. So the proof of the reader needs no order, and a text that is accepted
//! pays nothing for it.
ghost use Rattle.std.specs.Prelude.{◌≡◌};
ghost use Rattle.p21_express_outline.specs.declared.fault.SchemaFault.TheVariants.{NoMemory};

use crate::duplicates::has_duplicate;
use crate::places::redeclares_twice;
use crate::unknown::has_unknown_name;
use p21_express_outline::SchemaFault;
use p21_express_syntax::Declarations;
use p21_values::NoMemory as OutOfMemory;
use std::alloc::Global;

/// The refusal that comes first for declarations that declare no schema, of which one was found. Want of memory stays.
pub(crate) fn first_refusal(
    alloc: Global,
    declarations: &Declarations,
    found: SchemaFault,
) -> SchemaFault
    ensures { found ≡ NoMemory → result ≡ NoMemory }
{
    match found {
        SchemaFault::NoMemory => SchemaFault::NoMemory,
        SchemaFault::Duplicate => SchemaFault::Duplicate,
        other => match earlier(alloc, declarations, other) {
            Ok(fault) => fault,
            Err(_no_memory) => SchemaFault::NoMemory,
        },
    }
}

/// A refusal that comes before the one found, or that one.
fn earlier(
    alloc: Global,
    declarations: &Declarations,
    found: SchemaFault,
) -> Result<SchemaFault, OutOfMemory> {
    if has_duplicate(alloc, declarations)? || redeclares_twice(alloc, declarations)? {
        return Ok(SchemaFault::Duplicate);
    }
    if has_unknown_name(alloc, declarations)? {
        return Ok(SchemaFault::UnknownName);
    }
    Ok(found)
}
