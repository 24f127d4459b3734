//! One leaf is found by lengths: a closed set is the closure of one entity exactly where that entity's order is as long
//! as the set. No list of leaves is made.
ghost use Rattle.std.specs.Prelude.{◌≡◌, Contains, MatchOption};
ghost use Rattle.p21_canon.specs.StatementTexts.{IsClosedSet, IsClosureOf};
ghost use Rattle.p21_express_graph.specs.Lookups.{AreEntities};
ghost use Rattle.p21_express_graph.specs.Orders.{numbers};
ghost use Rattle.p21_spec_file.specs.CanonicalRecord.{HasOneLeaf};

use p21_express_graph::EntityId;
use p21_schema::Schema;

/// The entity of which the set is the closure: its order is as long as the set. Where there is none, the set has several
/// leaves. It takes no memory.
pub(crate) fn only_leaf(schema: &Schema, entities: &[EntityId]) -> Option<EntityId>
    requires entities { AreEntities schema.now (numbers entities.now) }
    requires closed { IsClosedSet schema.now (numbers entities.now) }
    ensures { MatchOption result (HasOneLeaf schema.now (numbers entities.now) → ⊥)
        (λ leaf. Contains (numbers entities.now) leaf.0 × IsClosureOf schema.now (numbers entities.now) leaf.0) }
{
    schema.well_formed();
    for entity in entities {
        if schema.order_of(*entity).len() == entities.len() {
            return Some(*entity);
        }
    }
    None
}
