ghost use Rattle.std.specs.Prelude.{◌≡◌, ◌↔◌, ℕ, IsTrue, Contains, MatchBool, nat_eq};
ghost use Rattle.std.specs.List.{IsDistinct};
ghost use Rattle.p21_express_graph.specs.Lookups.{AreEntities};
ghost use Rattle.p21_express_graph.specs.Orders.{numbers};
ghost use Rattle.p21_mapping.specs.Shape.{HasTwice, IsClosed, LacksSupertype};

use crate::positions::Positions;
use p21_express_graph::EntityId;
use p21_schema::Schema;

/// Whether an entity is among others.
pub(crate) fn has(entities: &[EntityId], entity: EntityId) -> bool
    ensures { IsTrue result ↔ Contains (numbers entities.now) entity.0 }
{
    for other in entities {
        if other.0 == entity.0 {
            return true;
        }
    }
    false
}

/// Whether an entity stands twice: one of them stands elsewhere before.
pub(crate) fn has_twice(positions: &Positions<'_>) -> bool
    ensures { MatchBool result (HasTwice positions.now) (IsDistinct nat_eq positions.now) }
{
    let entities = positions.entities();
    for at in 0..entities.len() {
        let Some(first) = positions.find(entities[at]) else {
            unreachable!()
        };
        if first != at {
            return true;
        }
    }
    false
}

/// Whether all supertypes of entities are among them.
pub(crate) fn is_closed(schema: &Schema, positions: &Positions<'_>) -> bool
    requires { AreEntities schema.now positions.now }
    ensures { MatchBool result (IsClosed schema.now positions.now) (LacksSupertype schema.now positions.now) }
{
    let entities = positions.entities();
    for entity in entities {
        if !has_all(positions, schema.supertypes(*entity)) {
            return false;
        }
    }
    true
}

/// Whether entities have all others.
pub(crate) fn has_all(positions: &Positions<'_>, others: &[EntityId]) -> bool
    ensures { MatchBool result ((f : ℕ) → Contains (numbers others.now) f → Contains positions.now f)
        ((f : ℕ) × Contains (numbers others.now) f × (Contains positions.now f → ⊥)) }
{
    for other in others {
        if !positions.has(*other) {
            return false;
        }
    }
    true
}
