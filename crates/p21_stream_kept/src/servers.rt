//! Which entity of a set serves a need, as it was found before.
//!
//! Which entity of a set with more than 16 serves a need is remembered (`Servers`), by the number of the set and by
//! what is wanted, so that a reference costs one look-up and no walk through the set. What is remembered is a place,
//! and the entity there is asked again before it counts: so it owes nothing, and needs no relation to the schema. Where
//! none is known to serve, the set is gone through once in each look.
//!
//! Where the entity stands that serves is guessed for all other sets, from the membership and the entity that is
//! wanted, by a table of 1,024 bytes in `Servers`. The entity there is compared with the one that is wanted, which is
//! one comparison and a branch that nearly always goes one way, in place of a walk through the set that ends somewhere
//! else each time. A guess that is wrong costs that comparison; it is made anew where a reference is looked at. What a
//! select offers isn't guessed: a test of the kind of what is wanted made the boundary model slower by one per cent.
ghost use Rattle.std.specs.Prelude.{◌≡◌, ◌<◌, ◌≤◌, false, length, IfSome, IsSome, IsTrue, OnErr};
ghost use Rattle.p21_express_graph.specs.Meaning.{member};
ghost use Rattle.p21_spec_file.specs.Reference.{Serves};
ghost use Rattle.p21_mapping_values.specs.TypedView.{ids_view};
ghost use Rattle.p21_stream_kept.specs.Servers.{Remembers};

use p21_express_graph::{EntityId, Member};
use p21_mapping::serves;
use p21_mapping_values::Need;
use p21_schema::Schema;
use p21_values::NoMemory;
use std::alloc::Global;
use std::collections::BTreeMap;
use std::slice::from_ref;

/// A set of so many entities is looked through for each reference.
pub(crate) const MOST_LOOKED_THROUGH: usize = 16;

/// So many places are guessed.
const GUESSES: usize = 1024;

/// By the number of a set and by that of an entity or a select that is wanted, where the entity stands in the set that serves;
/// none where no entity serves.
type Places = BTreeMap<(usize, u32), Option<usize>>;

/// Where entities stand that serve needs: for each large set and what was wanted of it, and where one served last, in a set of
/// any size. A place is looked at before it counts: what is remembered costs time alone where it is wrong.
#[derive(Drop)]
pub(crate) struct Servers {
    of_entities: Places,
    of_selects: Places,
    has_large_sets: bool,
    // Where the entity stood that served last, for each number that `guess_of` gives to a membership and what was wanted of it.
    guesses: [u8; GUESSES],
}

impl Servers {
    /// None. It takes no memory.
    pub(crate) fn new(alloc: Global) -> Servers {
        Servers {
            of_entities: BTreeMap::new(alloc),
            of_selects: BTreeMap::new(alloc),
            has_large_sets: false,
            guesses: [0; GUESSES],
        }
    }

    /// Notes that an instance has so many entities.
    #[inline(always)]
    pub(crate) fn note_size(&mut self, entities: usize) {
        if entities > MOST_LOOKED_THROUGH {
            self.has_large_sets = true;
        }
    }

    /// Whether an instance has a large set.
    #[inline(always)]
    pub(crate) fn has_large_sets(&self) -> bool
        ensures { result ≡ self.now.has_large_sets }
    {
        self.has_large_sets
    }

    /// Whether the entity serves a need that stands where one served last. It takes no memory.
    #[inline(always)]
    pub(crate) fn serve_again(
        &self,
        schema: &Schema,
        need: &Need,
        membership: usize,
        entities: &[EntityId],
    ) -> bool
        ensures { IsTrue result → Serves schema.now (member need.now.wanted) (ids_view entities.now) }
    {
        let Member::Entity(entity) = need.wanted else {
            return false;
        };
        let place = self.guesses[guess_of(entity, membership)];
        serves_at(schema, need, entities, usize::from(place))
    }

    /// Guesses from now on that the first entity serves again that does so in a set that isn't large. It takes no memory.
    #[inline(never)]
    pub(crate) fn guess(
        &mut self,
        schema: &Schema,
        need: &Need,
        membership: usize,
        entities: &[EntityId],
    ) {
        let Member::Entity(entity) = need.wanted else {
            return;
        };
        if entities.len() > MOST_LOOKED_THROUGH {
            return;
        }
        if let Some(place) = first_server(schema, need, entities) {
            self.guesses[guess_of(entity, membership)] = place as u8;
        }
    }

    /// Remembers where the entity stands that serves a need, where the set of this number is large.
    ///
    /// # Errors
    ///
    /// `NoMemory`, which changes nothing; not where the set isn't large, or it is remembered already.
    pub(crate) fn learn(
        &mut self,
        schema: &Schema,
        need: &Need,
        set: usize,
        entities: &[EntityId],
    ) -> Result<(), NoMemory>
        ensures small { length entities.now ≤ 16 → OnErr result ⊥ }
        ensures known { Remembers self.old need.now.wanted set → OnErr result ⊥ }
    {
        if entities.len() <= MOST_LOOKED_THROUGH || self.remembered(need, set).is_some() {
            return Ok(());
        }
        let place = first_server(schema, need, entities);
        match need.wanted {
            Member::Entity(entity) => remember(&mut self.of_entities, (set, entity.0), place),
            Member::Defined(select) => remember(&mut self.of_selects, (set, select.0), place),
        }
    }

    /// Whether an entity of the set of this number is known to serve a need. It takes no memory.
    pub(crate) fn serve(
        &self,
        schema: &Schema,
        need: &Need,
        set: usize,
        entities: &[EntityId],
    ) -> bool
        ensures served { IsTrue result → Serves schema.now (member need.now.wanted) (ids_view entities.now) }
        ensures unserved { result ≡ false → length entities.now ≤ 16
            → ¬ Serves schema.now (member need.now.wanted) (ids_view entities.now) }
    {
        if entities.len() <= MOST_LOOKED_THROUGH {
            return serves(schema, need, entities);
        }
        match self.remembered(need, set) {
            Some(Some(place)) => serves_at(schema, need, entities, place),
            Some(None) => false,
            None => serves(schema, need, entities),
        }
    }

    /// What is remembered for a need and the set of this number, if anything is.
    fn remembered(&self, need: &Need, set: usize) -> Option<Option<usize>>
        ensures { Remembers self.now need.now.wanted set → IsSome result }
    {
        match need.wanted {
            Member::Entity(entity) => self.of_entities.get(&(set, entity.0)).copied(),
            Member::Defined(select) => self.of_selects.get(&(set, select.0)).copied(),
        }
    }
}

/// The number of the guess for a membership of which an entity is wanted.
#[inline(always)]
fn guess_of(entity: EntityId, membership: usize) -> usize
    ensures { result < 1024 }
{
    entity.0 as usize % 32 * 32 + membership % 32
}

/// Remembers a place.
fn remember(places: &mut Places, at: (usize, u32), place: Option<usize>) -> Result<(), NoMemory> {
    match places.insert(at, place) {
        Ok(_) => Ok(()),
        Err(_) => Err(NoMemory),
    }
}

/// Where the first entity stands that serves a need.
fn first_server(schema: &Schema, need: &Need, entities: &[EntityId]) -> Option<usize>
    ensures { IfSome result (λ place. place < length entities.now) }
{
    for place in 0..entities.len() {
        if serves_at(schema, need, entities, place) {
            return Some(place);
        }
    }
    None
}

/// Whether the entity at a place serves a need.
#[inline(always)]
fn serves_at(schema: &Schema, need: &Need, entities: &[EntityId], place: usize) -> bool
    ensures { IsTrue result → Serves schema.now (member need.now.wanted) (ids_view entities.now) }
{
    match entities.get(place) {
        Some(entity) => serves(schema, need, from_ref(entity)),
        None => false,
    }
}
