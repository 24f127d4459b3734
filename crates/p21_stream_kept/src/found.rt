ghost use Rattle.std.specs.Prelude.{IfErr};
ghost use Rattle.p21_grammar_tree.specs.View.{record_view};
ghost use Rattle.p21_stream_statements.specs.Source.{IsOfStatement};
ghost use Rattle.p21_stream_kept.specs.Found.{FindsInstance};

use crate::workspace::Workspace;
use p21_canon::write_record;
use p21_express_graph::EntityId;
use p21_grammar_tree::Record;
use p21_mapping::check_owned_record;
use p21_mapping_values::{Ids, Need};
use p21_schema::Schema;
use p21_stream_statements::Fault;
use p21_values::Name;

/// What is found of an instance: its name, its set of entities, its canonical line without a line feed, and what it needs
/// of other instances.
#[derive(Clone, Copy)]
pub struct FoundInstance<'a> {
    pub name: Name,
    pub entities: &'a [EntityId],
    pub line: &'a [u8],
    pub needs: &'a [Need],
}

/// What is found of the record of an instance: its set of entities, and what it needs of other instances.
#[derive(Drop)]
pub(crate) struct Found<'a> {
    pub(crate) entities: Ids<'a>,
    pub(crate) needs: Vec<Need>,
}

/// Checks the record of an instance, and writes its canonical line in place of the line of the workspace.
///
/// # Errors
///
/// `Check`, `NoMemory`.
pub(crate) fn find_instance<'a>(
    schema: &'a Schema,
    name: Name,
    of: Record,
    workspace: &mut Workspace,
) -> Result<Found<'a>, Fault>
    ensures finds { FindsInstance schema.now name (record_view of) result workspace.new.line.items }
    ensures kind { IfErr result (λ fault. IsOfStatement fault) }
{
    let alloc = *workspace.line.allocator();
    let (typed, needs) = match check_owned_record(alloc, schema, of, &mut workspace.trail) {
        Ok(checked) => checked,
        Err(fault) => return Err(Fault::from(fault)),
    };
    workspace.line.clear();
    let Ok(()) = write_record(schema, name, &typed, &mut workspace.line) else {
        return Err(Fault::NoMemory);
    };
    Ok(Found {
        entities: typed.parts,
        needs,
    })
}
