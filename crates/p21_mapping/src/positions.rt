//! The positions of more than 16 entities of a record are kept by number, in a tree and not in a hash table, so that no
//! choice of entities slows a look-up; fewer are looked at one by one, with no memory.
ghost use Rattle.std.specs.Prelude.{◌≡◌, ◌↔◌, Contains, IfOk, IsTrue};
ghost use Rattle.std.specs.BTreeMap.{get};
ghost use Rattle.std.specs.Ordering.{nat_cmp};
ghost use Rattle.p21_express_graph.specs.Orders.{numbers};
ghost use Rattle.p21_mapping.specs.Positions.{AreFirstPositions, FindsFirst};

use p21_express_graph::EntityId;
use p21_values::NoMemory;
use std::alloc::Global;
use std::collections::BTreeMap;
use std::marker::Model;

/// So many entities are looked at one by one.
const MOST_ENTITIES_IN_TURN: usize = 16;

/// Entities in a row, and where each of them stands first: where they are many, this is kept.
#[derive(Drop)]
pub struct Positions<'a> {
    entities: &'a [EntityId],
    places: Option<BTreeMap<u32, usize>>,
}

impl<'a> Model for Positions<'a> {
    ghost use Rattle.std.specs.Prelude.{List, ℕ};
    ghost use Rattle.p21_express_graph.specs.Orders.{numbers};
    ghost use Rattle.p21_mapping.specs.Positions.{HasPositions};

    ghost Value = { List ℕ };

    ghost view = { λ a. numbers a.entities.now };

    ghost invariant = { λ a. HasPositions (numbers a.entities.now) a.places };
}

impl<'a> Positions<'a> {
    /// The positions of entities in a row.
    ///
    /// # Errors
    ///
    /// `NoMemory`.
    pub fn of(alloc: Global, entities: &'a [EntityId]) -> Result<Positions<'a>, NoMemory>
        ensures { IfOk result (λ positions. positions ≡ numbers entities.now) }
    {
        if entities.len() <= MOST_ENTITIES_IN_TURN {
            return Ok(Positions {
                entities,
                places: None,
            });
        }
        let places = first_positions(alloc, entities)?;
        Ok(Positions {
            entities,
            places: Some(places),
        })
    }

    /// The same where few positions are looked for: none is kept. It takes no memory.
    pub(crate) fn unkept(entities: &'a [EntityId]) -> Positions<'a>
        ensures { result ≡ numbers entities.now }
    {
        Positions {
            entities,
            places: None,
        }
    }

    /// The entities in their order. It takes no memory.
    pub fn entities(&self) -> &[EntityId]
        ensures { numbers result.now ≡ self.now }
    {
        self.entities
    }

    /// Where an entity stands first, if it does. It takes no memory.
    pub fn find(&self, entity: EntityId) -> Option<usize>
        ensures { FindsFirst self.now entity.0 result }
    {
        match &self.places {
            Some(places) => places.get(&entity.0).copied(),
            None => first_position(self.entities, entity),
        }
    }

    /// Whether an entity is among them. It takes no memory.
    pub(crate) fn has(&self, entity: EntityId) -> bool
        ensures { IsTrue result ↔ Contains self.now entity.0 }
    {
        match self.find(entity) {
            Some(_at) => true,
            None => false,
        }
    }
}

/// Where an entity stands first among others.
fn first_position(entities: &[EntityId], entity: EntityId) -> Option<usize>
    ensures { FindsFirst (numbers entities.now) entity.0 result }
{
    for at in 0..entities.len() {
        if entities[at].0 == entity.0 {
            return Some(at);
        }
    }
    None
}

/// For the number of each entity the first place where it stands.
fn first_positions(alloc: Global, entities: &[EntityId]) -> Result<BTreeMap<u32, usize>, NoMemory>
    ensures { IfOk result (λ places. AreFirstPositions (numbers entities.now) (get nat_cmp places)) }
{
    let mut places = BTreeMap::new(alloc);
    for at in (0..entities.len()).rev() {
        let Ok(_) = places.insert(entities[at].0, at) else {
            return Err(NoMemory);
        };
    }
    Ok(places)
}
