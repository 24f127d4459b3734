ghost use Rattle.std.specs.Prelude.{◌≡◌, ◌++◌, ℕ, List, OnErr, OnOk};
ghost use Rattle.p21_canon.specs.Meant.{IsMeant};
ghost use Rattle.p21_canon.specs.Statement.{AppendsStatement, IsCanonicalStatement};
ghost use Rattle.p21_mapping_values.specs.TypedView.{typed_view};
ghost use Rattle.p21_values.specs.Canonical.{Continues};

use crate::leaf::only_leaf;
use crate::parts::{append_external, append_internal};
use p21_mapping_values::{Typed, append_byte};
use p21_schema::Schema;
use p21_values::{Canonical, Name, NoMemory};

/// Appends the canonical statement of an instance, with its `;` and without a line feed: in internal mapping where the set
/// of entities has one leaf, else in external mapping with keywords that rise (ISO 10303-21, Mapping of EXPRESS entity data
/// types). It means the same as the typed record wherever a record means that, and there is no other such text. A refusal
/// leaves `out` as it was.
///
/// # Errors
///
/// `NoMemory`.
pub fn write_record(
    schema: &Schema,
    name: Name,
    typed: &Typed<'_>,
    out: &mut Vec<u8>,
) -> Result<(), NoMemory>
    requires { IsMeant schema.now (typed_view typed.now) }
    ensures ok { OnOk result (AppendsStatement schema.now name (typed_view typed.now) out.old.items out.new.items) }
    ensures only { OnOk result ((text : List ℕ) → IsCanonicalStatement schema.now name (typed_view typed.now) text
        → out.new.items ≡ out.old.items ++ text) }
    ensures err { OnErr result (out.new.items ≡ out.old.items) }
{
    schema.well_formed();
    let before = out.len();
    let written = append_statement(schema, name, typed, out);
    if written.is_err() {
        out.truncate(before);
    }
    written
}

/// Appends the statement, or a part of it where memory runs out.
fn append_statement(
    schema: &Schema,
    name: Name,
    typed: &Typed<'_>,
    out: &mut Vec<u8>,
) -> Result<(), NoMemory>
    requires { IsMeant schema.now (typed_view typed.now) }
    ensures ok { OnOk result (AppendsStatement schema.now name (typed_view typed.now) out.old.items out.new.items) }
    ensures err { OnErr result (Continues out.old.items out.new.items) }
{
    schema.well_formed();
    name.write_canonical(out)?;
    append_byte(b'=', out)?;
    match only_leaf(schema, typed.parts.items()) {
        Some(leaf) => append_internal(schema, leaf, typed, out),
        None => append_external(schema, typed, out),
    }
}
