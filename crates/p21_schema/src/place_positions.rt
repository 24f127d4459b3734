ghost use Rattle.std.specs.Prelude.{◌≡◌, ◌++◌, List, map, slice_get, Contains, IfOk, OnOk, MatchOption, Some};
ghost use Rattle.p21_spec_schema.specs.Schema.{Place as MeantPlace};
ghost use Rattle.p21_express_graph.specs.Meaning.{place as place_of};
ghost use Rattle.p21_express_graph.specs.SchemaContents.{redeclared as redeclared_of};
ghost use Rattle.p21_schema.specs.PlacePositions.{HavePositions};

use p21_express_graph::{Place, Redeclared};
use p21_values::NoMemory;
use std::alloc::Global;
use std::collections::BTreeMap;

/// Where in a list each of its places stands.
#[derive(Drop)]
pub(crate) struct PlacePositions {
    // By the entity that declares a place, and the number of the place there.
    found: BTreeMap<(u32, u32), usize>,
}

impl PlacePositions {
    pub(crate) fn of(alloc: Global, places: &[Place]) -> Result<PlacePositions, NoMemory>
        ensures { IfOk result (λ positions. HavePositions positions (map place_of places.now)) }
    {
        let mut found = BTreeMap::new(alloc);
        for at in 0..places.len() {
            let place = places[at];
            let Ok(_) = found.insert((place.entity.0, place.index), at) else {
                return Err(NoMemory);
            };
        }
        Ok(PlacePositions { found })
    }

    pub(crate) fn find(&self, place: Place) -> Option<usize>
        ensures { (places : List MeantPlace) → HavePositions self.now places
            → MatchOption result (Contains places (place_of place) → ⊥) (λ at. slice_get places at ≡ Some (place_of place)) }
    {
        self.found.get(&(place.entity.0, place.index)).copied()
    }
}

/// The places of redeclarations.
pub(crate) fn places_of(alloc: Global, redeclared: &[Redeclared]) -> Result<Vec<Place>, NoMemory>
    ensures { IfOk result (λ places. map place_of places.items ≡ map (λ r. r.place) (map redeclared_of redeclared.now)) }
{
    let mut places = Vec::with_capacity(alloc, redeclared.len())?;
    for other in redeclared {
        let other: &Redeclared = other;
        places.push(other.place)?;
    }
    Ok(places)
}
