//! Where a refusal stands, by what its reader has in hand.
//!
//! The check of a record notes the way from the value up to the record while it hands up the refusal (`Trail`), so that an accepted record
//! costs nothing. For what stands inside a statement its bytes are read once more where it is refused: kept are the bytes of a statement that
//! is open behind a piece, and no places of its values, which would cost time with each of them.
ghost use Rattle.std.specs.Prelude.{◌≡◌};
ghost use Rattle.p21_stream_statements.specs.Place.{IsPlaceOf};

use p21_express_graph::Place as AttributePlace;
use p21_mapping::Trail;
use p21_stream_statements::{At, Fault, Place, Places, Refusal, Source};
use std::alloc::Global;

/// The place of a refusal inside its statement, if it has one. In a record these steps lead there.
pub fn inside(
    alloc: Global,
    statement: &Source,
    fault: Fault,
    at: At,
    steps: &[usize],
) -> Option<Place> {
    statement.place_of(alloc, Refusal { fault, at }, steps)
}

/// The place of a refusal, by where its reader stands and by what was noted of its statement.
pub fn place_of(fault: Fault, places: Places, noted: Option<Place>) -> Option<Place>
    ensures { IsPlaceOf fault places.byte result }
{
    let place = Place::of(fault, places);
    match fault {
        Fault::Token(_) => place,
        Fault::Grammar(_) => inside_or(noted, place),
        Fault::Check(_) => inside_or(noted, place),
        Fault::SchemaName => inside_or(noted, place),
        Fault::SectionTwice => inside_or(noted, place),
        Fault::DuplicateName => place,
        Fault::CanonicalTooLong => place,
        Fault::Dangling => place,
        Fault::WrongTarget => place,
        Fault::NoMemory => place,
        Fault::Read => place,
        Fault::Write => place,
    }
}

/// The attribute to which a trail leads, where a record is refused.
pub fn attribute_of(fault: Fault, trail: &Trail) -> Option<AttributePlace> {
    match fault {
        Fault::Check(_) => trail.attribute(),
        _ => None,
    }
}

/// The steps of a trail from the value of an attribute down to the element that is refused.
pub fn elements_of(fault: Fault, trail: &Trail) -> &[usize] {
    if attribute_of(fault, trail).is_none() {
        return &[];
    }
    // The last two are the parameter and its part.
    let steps = trail.steps();
    steps.get(..steps.len().saturating_sub(2)).unwrap_or(&[])
}

/// What was noted of a statement, or else its own place.
fn inside_or(noted: Option<Place>, place: Option<Place>) -> Option<Place> {
    match noted {
        Some(inside) => Some(inside),
        None => place,
    }
}
