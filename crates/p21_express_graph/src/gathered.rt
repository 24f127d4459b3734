ghost use Rattle.std.specs.Prelude.{◌≡◌, ◌<◌, ℕ, [], length, map, nat_eq, Contains, IfOk, IsTrue, OnOk};
ghost use Rattle.std.specs.List.{list_any};
ghost use Rattle.p21_express_graph.specs.Gathering.{add_first, add_firsts};

use crate::number::EntityId;
use p21_values::NoMemory;
use std::alloc::Global;
use std::marker::Model;

/// Entities of a number of them, each once, in the order in which they were added.
#[derive(Drop)]
pub(crate) struct GatheredEntities {
    alloc: Global,
    // Where each entity stands among all, if it is there.
    places: Vec<usize>,
    all: Vec<EntityId>,
}

impl Model for GatheredEntities {
    ghost use Rattle.std.specs.Prelude.{ℕ, List, length, map};
    ghost use Rattle.p21_express_graph.specs.Gathering.{Numbers, HaveTheirPositions};

    ghost Value = { Numbers };

    ghost view = { λ a. record { count = length a.places.items; numbers = map (λ e. e.0) a.all.items } };

    ghost invariant = { λ a. HaveTheirPositions a.places.items (map (λ e. e.0) a.all.items) };
}

impl GatheredEntities {
    pub(crate) fn new(alloc: Global, count: usize) -> Result<GatheredEntities, NoMemory>
        ensures { IfOk result (λ gathered. gathered ≡ record { count = count; numbers = [] }) }
    {
        Ok(GatheredEntities {
            alloc,
            places: vec![in alloc; 0; count]?,
            all: Vec::new(alloc),
        })
    }

    fn has(&self, entity: EntityId) -> bool
        requires { entity.0 < self.now.count }
        ensures { result ≡ list_any (nat_eq entity.0) self.now.numbers }
    {
        match self.all.get(self.places[entity.0 as usize]) {
            Some(found) => found.0 == entity.0,
            None => false,
        }
    }

    /// Whether each of the entities is there.
    pub(crate) fn has_all(&self, entities: &[EntityId]) -> bool
        requires { (e : ℕ) → Contains (map (λ x. x.0) entities.now) e → e < self.now.count }
        ensures { IsTrue result → (e : ℕ) → Contains (map (λ x. x.0) entities.now) e → Contains self.now.numbers e }
    {
        for entity in entities {
            if !self.has(*entity) {
                return false;
            }
        }
        true
    }

    /// Adds an entity, unless it is there.
    pub(crate) fn add(&mut self, entity: EntityId) -> Result<(), NoMemory>
        requires { entity.0 < self.old.count }
        ensures { OnOk result (self.new ≡ record { count = self.old.count; numbers = add_first self.old.numbers entity.0 }) }
    {
        if self.has(entity) {
            return Ok(());
        }
        let place = self.all.len();
        self.all.push(entity)?;
        self.places[entity.0 as usize] = place;
        Ok(())
    }

    /// Adds each of the entities in turn, unless it is there.
    pub(crate) fn add_all(&mut self, entities: &[EntityId]) -> Result<(), NoMemory>
        requires { (e : ℕ) → Contains (map (λ x. x.0) entities.now) e → e < self.old.count }
        ensures { OnOk result (self.new ≡ record { count = self.old.count; numbers = add_firsts self.old.numbers (map (λ x. x.0) entities.now) }) }
    {
        for entity in entities {
            self.add(*entity)?;
        }
        Ok(())
    }

    /// Takes the entities out, in a list without spare room.
    pub(crate) fn take(&mut self) -> Result<Vec<EntityId>, NoMemory>
        ensures taken { IfOk result (λ taken. map (λ e. e.0) taken.items ≡ self.old.numbers) }
        ensures left { OnOk result (self.new ≡ record { count = self.old.count; numbers = [] }) }
    {
        let taken = Vec::from_slice(self.alloc, &self.all)?;
        self.all.clear();
        Ok(taken)
    }
}
