ghost use Rattle.p21_grammar_tree.specs.View.{record_view};
ghost use Rattle.p21_mapping.specs.Checked.{ChecksRecord};

use crate::check::check_owned_record;
use crate::record::copied_record;
use crate::trail::Trail;
use p21_grammar_tree::{CheckFault, Record};
use p21_mapping_values::{Need, Typed};
use p21_schema::Schema;
use std::alloc::Global;

/// Checks a record as `check_owned_record` does, and leaves it as it is: the typed record has copies of its
/// texts, numbers and names.
///
/// # Errors
///
/// Those of `check_owned_record`, in the same order.
pub fn check_record<'a>(
    alloc: Global,
    schema: &'a Schema,
    of: &Record,
) -> Result<(Typed<'a>, Vec<Need>), CheckFault>
    ensures { ChecksRecord schema.now (record_view of.now) result }
{
    let copy = copied_record(alloc, of)?;
    check_owned_record(alloc, schema, copy, &mut Trail::new())
}
