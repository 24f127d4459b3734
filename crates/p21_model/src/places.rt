//! Places one by one.
ghost use Rattle.std.specs.Prelude.{◌≡◌, ◌≤◌, ◌∷◌, List, length, Contains, [], IfSome, MatchOption};
ghost use Rattle.p21_express_graph.specs.Meaning.{place as place_of};
ghost use Rattle.p21_express_graph.specs.Orders.{numbers};
ghost use Rattle.p21_express_graph.specs.Resolved.{IsPlace};
ghost use Rattle.p21_spec_schema.specs.Schema.{Place as MeantPlace, attributes_of};
ghost use Rattle.p21_model.specs.Left.{places_in};

use p21_express_graph::{EntityId, Place};
use p21_schema::Schema;

/// The places that entities declare, of which some have been handed out.
#[derive(Clone, Copy)]
pub(crate) struct Places<'a> {
    pub(crate) schema: &'a Schema,
    // The entities whose places are left, and the number of the next one of the first of them.
    pub(crate) owners: &'a [EntityId],
    pub(crate) index: u32,
}

impl<'a> Places<'a> {
    /// The next place.
    pub(crate) fn next(&mut self) -> Option<Place>
        ensures schema { self.new.schema.now ≡ self.old.schema.now }
        ensures is_place { IfSome result (λ found. IsPlace self.old.schema.now (place_of found)) }
        ensures place { (place : MeantPlace) (more : List MeantPlace) → places_in self.old ≡ place ∷ more
            → MatchOption result ⊥ (λ found. (place_of found ≡ place) × (places_in self.new ≡ more)) }
    {
        while let Some((owner, behind)) = self.owners.split_first() {
            if self.index < own_count(self.schema, *owner) {
                let index = self.index;
                self.index += 1;
                return Some(Place {
                    entity: *owner,
                    index,
                });
            }
            self.owners = behind;
            self.index = 0;
        }
        None
    }
}

/// How many attributes an entity declares itself: none, where the schema has no such entity.
fn own_count(schema: &Schema, entity: EntityId) -> u32
    ensures { result ≡ length (attributes_of schema.now entity.0) }
{
    if entity.0 as usize >= schema.entities() {
        return 0;
    }
    schema.attribute_count(entity)
}

/// Of entities this one alone, if it is among them.
pub(crate) fn alone(entities: &[EntityId], entity: EntityId) -> &[EntityId]
    ensures found { Contains (numbers entities.now) entity.0 → numbers result.now ≡ entity.0 ∷ [] }
    ensures few { length result.now ≤ 1 }
{
    let mut rest = entities;
    while let Some((first, behind)) = rest.split_first() {
        if *first == entity {
            return &rest[..1];
        }
        rest = behind;
    }
    rest
}
