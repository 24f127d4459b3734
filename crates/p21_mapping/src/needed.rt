ghost use Rattle.std.specs.Prelude.{◌↔◌, IsTrue};
ghost use Rattle.p21_express_graph.specs.Orders.{numbers};
ghost use Rattle.p21_express_graph.specs.Meaning.{member};
ghost use Rattle.p21_spec_file.specs.Reference.{Serves};
ghost use Rattle.p21_mapping_values.specs.TypedView.{ids_view};
ghost use Rattle.p21_spec_schema.specs.Schema.{type_member};

use crate::members::has;
use p21_express_graph::{EntityId, Member, TypeId};
use p21_mapping_values::Need;
use p21_schema::Schema;

/// Whether an instance with these entities may stand where the need is (ISO 10303-21, Mapping of EXPRESS data types: entity,
/// select). It takes no memory.
pub fn serves(schema: &Schema, need: &Need, parts: &[EntityId]) -> bool
    ensures { IsTrue result ↔ Serves schema.now (member need.now.wanted) (ids_view parts.now) }
{
    match need.wanted {
        Member::Entity(entity) => has(parts, entity),
        Member::Defined(select) => has_offered(schema, select, parts),
    }
}

/// Whether a select offers one of the entities.
fn has_offered(schema: &Schema, select: TypeId, parts: &[EntityId]) -> bool
    ensures { IsTrue result ↔ Serves schema.now (type_member select.0) (numbers parts.now) }
{
    if select.0 as usize >= schema.types() {
        return false;
    }
    for part in parts {
        if schema.offers(select, Member::Entity(*part)) {
            return true;
        }
    }
    false
}
