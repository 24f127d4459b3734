//! Guesses of the entities that keywords name.
//!
//! A keyword is guessed before it is looked up: the first `(` ends it, and some of its bytes choose a row of a table of
//! 256 entities. The name of the guess is compared with the bytes before the `(`, so the table owes nothing, and
//! neither the end of a keyword nor its bytes are looked for one by one; that an entity's name is a keyword is tested
//! once, when the entity is prepared (`Row`). Most writers put a blank behind the `=`, and some one before the `(`:
//! behind separators and before such a blank the same guess is made, in a call of its own (`append_other_opening`), so
//! that an instance without blanks pays for one look at its first byte. If it is another name, the keyword is read and
//! the schema is asked, and its answer fills the row.
ghost use Rattle.std.specs.Prelude.{IfSome, IsTrue};
ghost use Rattle.p21_spec_schema.specs.Schema.{EntityNamed};

use crate::same::are_same;
use p21_express_graph::EntityId;
use p21_schema::Schema;
use p21_values::NoMemory;
use std::alloc::Global;

/// How many guesses are kept.
const COUNT: usize = 256;

/// For some keywords the entity that was found for the last one like it. It is a guess, which is compared before it counts, so
/// nothing is claimed of it.
#[derive(Drop)]
pub(crate) struct Guesses {
    entities: Vec<EntityId>,
}

impl Guesses {
    /// No guess. It takes no memory.
    pub(crate) fn new(alloc: Global) -> Guesses {
        Guesses {
            entities: Vec::new(alloc),
        }
    }

    /// An entity that may have this name. It takes no memory.
    #[inline(always)]
    pub(crate) fn guess(&self, name: &[u8]) -> Option<EntityId> {
        self.entities.get(place_of(name)).copied()
    }

    /// The entity of this name, in upper case, mostly by a guess. It takes no memory.
    #[inline(always)]
    pub(crate) fn entity(&mut self, schema: &Schema, name: &[u8]) -> Option<EntityId>
        ensures { IfSome result (λ entity. EntityNamed schema.now entity.0 name.now) }
    {
        let place = place_of(name);
        if let Some(guess) = self.entities.get(place) {
            let guess = *guess;
            if has_name(schema, guess, name) {
                return Some(guess);
            }
        }
        self.look_up(schema, name, place)
    }

    /// The same with no guess. What is found is the next guess.
    #[cold]
    #[inline(never)]
    fn look_up(&mut self, schema: &Schema, name: &[u8], place: usize) -> Option<EntityId>
        ensures { IfSome result (λ entity. EntityNamed schema.now entity.0 name.now) }
    {
        let entity = schema.entity(name)?;
        self.keep(place, entity);
        Some(entity)
    }

    /// Keeps a guess, where guesses are kept.
    fn keep(&mut self, place: usize, entity: EntityId) {
        if place < self.entities.len() {
            self.entities[place] = entity;
        }
    }

    /// Has guesses be kept from now on: at first this entity for each keyword.
    pub(crate) fn start(&mut self, entity: EntityId) -> Result<(), NoMemory> {
        if self.entities.is_empty() {
            self.entities.resize(COUNT, entity)?;
        }
        Ok(())
    }
}

/// Where the guess for a name is kept.
#[inline(always)]
fn place_of(name: &[u8]) -> usize {
    let size = name.len();
    if size < 2 {
        return 0;
    }
    let first = usize::from(name[0]);
    let middle = usize::from(name[size / 2]);
    let last = usize::from(name[size - 2]);
    (size % COUNT + first * 3 + middle * 7 + last * 13) % COUNT
}

/// Whether there is such an entity, of this name.
#[inline(always)]
fn has_name(schema: &Schema, entity: EntityId, name: &[u8]) -> bool
    ensures { IsTrue result → EntityNamed schema.now entity.0 name.now }
{
    if entity.0 as usize >= schema.entities() {
        return false;
    }
    are_same(schema.entity_name(entity), name)
}
