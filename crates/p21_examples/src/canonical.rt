//! Answers whether a file is accepted under a schema, and what its canonical file is.

ghost use Rattle.std.specs.Prelude.{IfErr, IfOk};
ghost use Rattle.p21_examples.specs.Canonical.{IsCanonicalUnder, IsRefusedUnder};

use p21_stream::{Limits, Refusal, SchemaFault, canonical, read_schema};
use std::alloc::Global;

/// Why a file has no canonical file.
#[derive(Clone, Copy, Debug)]
pub enum Problem {
    /// The text of the schema is refused.
    OfSchema(SchemaFault),
    /// The file is refused under the schema.
    OfFile(Refusal),
}

/// The canonical file of a file, under the schema that a text declares, and within limits.
///
/// # Errors
///
/// The refusal of the schema, or that of the file.
pub fn canonical_under(
    alloc: Global,
    schema_text: &[u8],
    limits: Limits,
    file: &[u8],
) -> Result<Vec<u8>, Problem>
    ensures accepted { IfOk result (λ text. IsCanonicalUnder schema_text.now limits file.now text.items) }
    ensures refused { IfErr result (IsRefusedUnder schema_text.now limits file.now) }
{
    let schema = match read_schema(alloc, schema_text) {
        Ok(schema) => schema,
        Err(fault) => return Err(Problem::OfSchema(fault)),
    };
    match canonical(alloc, &schema, limits, file) {
        Ok(text) => Ok(text),
        Err(refusal) => Err(Problem::OfFile(refusal)),
    }
}
