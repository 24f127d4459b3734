ghost use Rattle.std.specs.Prelude.{IfOk};
ghost use Rattle.p21_express_graph.specs.Resolved.{IsEntity};
ghost use Rattle.p21_shorter_instances.specs.Steps.{IsRow, MayStandAlone, row_view};

use crate::keyword::Keyword;
use crate::step::{Step, find_steps};
use p21_express_graph::EntityId;
use p21_schema::Schema;
use p21_values::NoMemory;
use std::alloc::Global;

/// What is known of the instances whose set is an entity and its supertypes: these, rising by name, what may stand at the
/// attributes, in the order of internal mapping, and the name of the entity, where it is a keyword of usual length, as that of
/// nearly each entity is that a schema text declares.
#[derive(Debug, Drop)]
pub struct Row {
    pub entities: Vec<EntityId>,
    pub steps: Vec<Step>,
    pub keyword: Keyword,
}

/// What is known of the instances of an entity.
///
/// # Errors
///
/// `NoMemory`.
pub(crate) fn find_row(alloc: Global, schema: &Schema, entity: EntityId) -> Result<Row, NoMemory>
    requires entity { IsEntity schema.now entity.0 }
    requires may { MayStandAlone schema.now entity.0 }
    ensures { IfOk result (λ row. IsRow schema.now entity.0 (row_view row)) }
{
    let found = schema.own_rising(entity)?;
    let entities = Vec::from_slice(alloc, found.items())?;
    let steps = find_steps(alloc, schema, entity)?;
    let keyword = Keyword::new(schema.entity_name(entity));
    Ok(Row {
        entities,
        steps,
        keyword,
    })
}
