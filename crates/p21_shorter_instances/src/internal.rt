//! The parameters of an instance of internal mapping, and the end of its statement (ISO 10303-21, mapping of EXPRESS entity data
//! types: internal mapping).
ghost use Rattle.std.specs.Prelude.{IfOk};
ghost use Rattle.p21_express_graph.specs.Rising.{IsOwnRising};
ghost use Rattle.p21_mapping_values.specs.TypedView.{ids_view};
ghost use Rattle.p21_shorter_instances.specs.Steps.{IsPlanOf};
ghost use Rattle.p21_shorter_instances.specs.TakenParameters.{TakesParameters};

use crate::end::append_end;
use crate::given_up::GivenUp;
use crate::places::append_places;
use crate::plan::Plan;
use crate::taken::Taken;
use p21_express_graph::EntityId;
use p21_schema::Schema;

/// Appends the parameters at the front, by what may stand at the attributes of the entity, and the `)` and `;` behind them, and
/// adds their references: the entity and its supertypes, rising by name, and what stands behind the `;`. The row of the entity is
/// looked up here alone.
#[inline(always)]
pub(crate) fn append_parameters<'a, 'p>(
    schema: &Schema,
    plan: &'p Plan,
    entity: EntityId,
    bytes: &'a [u8],
    taken: &mut Taken,
) -> Result<(&'p [EntityId], &'a [u8]), GivenUp>
    requires { IsPlanOf schema.now plan.now }
    ensures some { IfOk result (λ found. TakesParameters schema.now entity.0 bytes.now found.1.now taken.old taken.new) }
    ensures entities { IfOk result (λ found. IsOwnRising schema.now entity.0 (ids_view found.0.now)) }
{
    let Some(row) = plan.row(entity) else {
        return Err(GivenUp::NotUsual);
    };
    let behind = append_places(schema, &row.steps, bytes, taken)?;
    let Some(rest) = append_end(behind, &mut taken.draft) else {
        return Err(GivenUp::NotUsual);
    };
    Ok((&row.entities, rest))
}
