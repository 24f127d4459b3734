ghost use Rattle.std.specs.Prelude.{◌≡◌, ◌++◌, IfOk, map};
ghost use Rattle.std.specs.List.{IsDistinct};
ghost use Rattle.p21_spec_schema.specs.DeclaredEntity.{same_place};
ghost use Rattle.p21_express_outline.specs.Finding.{DecidesClaim};
ghost use Rattle.p21_express_graph.specs.Meaning.{place as place_of};

use indexmap::IndexSet;
use p21_express_graph::{Place, Redeclared};
use p21_express_outline::SchemaFault;
use p21_values::NoMemory;
use std::alloc::Global;

/// The places of redeclarations.
fn places_of(
    alloc: Global,
    redeclared: &[Redeclared],
    derived: &[Place],
) -> Result<Vec<Place>, NoMemory>
    ensures { IfOk result (λ places. places.items ≡ map (λ r. r.place) redeclared.now ++ derived.now) }
{
    let mut places = Vec::new(alloc);
    for other in redeclared {
        let other: &Redeclared = other;
        places.push(other.place)?;
    }
    places.extend_from_slice(derived)?;
    Ok(places)
}

/// No place is there twice.
fn check_once(alloc: Global, places: &[Place]) -> Result<(), SchemaFault>
    ensures { DecidesClaim (IsDistinct same_place (map place_of places.now)) result }
{
    let mut seen: IndexSet<(u32, u32)> = IndexSet::new(alloc);
    for place in places {
        let (_, new) = seen.insert_full((place.entity.0, place.index))?;
        if !new {
            return Err(SchemaFault::Duplicate);
        }
    }
    Ok(())
}

/// No place is redeclared twice, neither as an explicit nor as a derived attribute.
pub(crate) fn check_places(
    alloc: Global,
    redeclared: &[Redeclared],
    derived: &[Place],
) -> Result<(), SchemaFault>
    ensures { DecidesClaim (IsDistinct same_place (map (λ r. place_of r.place) redeclared.now ++ map place_of derived.now)) result }
{
    let places = places_of(alloc, redeclared, derived)?;
    check_once(alloc, &places)
}
