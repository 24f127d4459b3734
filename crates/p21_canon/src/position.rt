//! Where an entity stands among those of a set.
ghost use Rattle.std.specs.Prelude.{Contains, nat_eq};
ghost use Rattle.std.specs.List.{IsDistinct};
ghost use Rattle.p21_canon.specs.StatementTexts.{IsFirstAt};
ghost use Rattle.p21_express_graph.specs.Lookups.{AreEntities};
ghost use Rattle.p21_express_graph.specs.Orders.{numbers};

use p21_express_graph::EntityId;
use p21_schema::Schema;

/// Where an entity stands. Entities that rise by name take a search by halves; else they are looked at one by one.
pub(crate) fn position_of(schema: &Schema, entities: &[EntityId], entity: EntityId) -> usize
    requires entities { AreEntities schema.now (numbers entities.now) }
    requires distinct { IsDistinct nat_eq (numbers entities.now) }
    requires member { Contains (numbers entities.now) entity.0 }
    ensures { IsFirstAt (numbers entities.now) entity.0 result }
{
    let guess = position_by_name(schema, entities, entity);
    if guess < entities.len() && entities[guess].0 == entity.0 {
        return guess;
    }
    first_position_of(entities, entity)
}

/// Where an entity stands, if the entities rise by name.
fn position_by_name(schema: &Schema, entities: &[EntityId], entity: EntityId) -> usize
    requires entities { AreEntities schema.now (numbers entities.now) }
    requires member { Contains (numbers entities.now) entity.0 }
{
    let name = schema.entity_name(entity);
    let mut low = 0;
    let mut high = entities.len();
    while low < high {
        let middle = low + (high - low) / 2;
        if schema.entity_name(entities[middle]).cmp(name).is_lt() {
            low = middle + 1;
        } else {
            high = middle;
        }
    }
    low
}

/// Where an entity stands first.
fn first_position_of(entities: &[EntityId], entity: EntityId) -> usize
    requires { Contains (numbers entities.now) entity.0 }
    ensures { IsFirstAt (numbers entities.now) entity.0 result }
{
    for i in 0..entities.len() {
        if entities[i].0 == entity.0 {
            return i;
        }
    }
    unreachable!()
}
