//! Where refusals stand.
//!
//! A call that answers why a file is refused has a twin, `..._located`, that writes where this stands too, so that what C
//! passes to the others stays as it was; of a session that refused a piece `p21_session_place` tells it. That the byte of
//! `p21_session_place` is the place that the session has for its refusal is proved (`HasPlaceOf`). No clause of the calls with `_located`
//! speaks of the place that they write, and none at all says which attribute and which element it is: that is tested.
ghost use Rattle.std.specs.Prelude.{◌≡◌, None};
ghost use Rattle.p21_c.specs.Answers.{ShowsPlace};
ghost use Rattle.p21_c.specs.Contents.{session_in};
ghost use Rattle.p21_c.specs.Places.{IsAt, IsPlaceIn};

use crate::answers::{Answer, DONE, MISUSED};
use crate::lent::Lent;
use p21_express_graph::Place as AttributePlace;
use p21_stream::{Indices, Located, SharedSession};
use p21_stream_statements::Place as BytePlace;

/// How many levels of aggregates are told at most.
const LEVELS: usize = 8;

/// Where in a file a refusal stands. What isn't known is 0.
#[repr(C)]
#[derive(Clone, Copy)]
pub struct Place {
    /// How many bytes of the file stand in front of it.
    pub byte: u64,
    /// The attribute whose value is refused: the number of the entity that declares it, and its own one.
    pub entity: u32,
    pub attribute: u32,
    /// Which element of the value is refused: the way there through the aggregates, the outermost first, each from 1 on.
    pub indices: [u32; 8],
    /// How many of these there are.
    pub levels: u8,
    /// 1 where the byte is known, else 0.
    pub known: u8,
    /// 1 where a value of an attribute is refused, else 0.
    pub valued: u8,
}

/// An answer, and where its refusal stands.
#[derive(Clone, Copy)]
pub(crate) struct Placed {
    pub answer: Answer,
    pub place: Place,
}

/// Where the refusal stands that a session answered last; nothing is known where it answered none.
#[unsafe(no_mangle)]
pub extern "C" fn p21_session_place(session: &Lent, place: &mut Place) -> u8
    ensures { ShowsPlace (session_in session.now.value) result place.old place.new }
{
    let Some(session) = session.session() else {
        return MISUSED;
    };
    *place = place_in(session);
    DONE
}

/// Where the refusal stands that a session answered last.
pub(crate) fn place_in(session: &SharedSession) -> Place
    ensures { IsPlaceIn session.now result }
{
    at(session.place(), session.attribute(), session.indices())
}

/// Where a refusal stands.
pub(crate) fn place_of(located: &Located) -> Place
    ensures { IsAt located.now.place result }
{
    at(located.place, located.attribute, located.indices)
}

/// No place.
pub(crate) fn nowhere() -> Place
    ensures { IsAt None result }
{
    Place {
        byte: 0,
        entity: 0,
        attribute: 0,
        indices: [0; LEVELS],
        levels: 0,
        known: 0,
        valued: 0,
    }
}

/// Where so many bytes stand in front, if that is known.
pub(crate) fn at_byte(found: Option<BytePlace>) -> Place
    ensures { IsAt found result }
{
    let mut place = nowhere();
    if let Some(found) = found {
        place.byte = found.byte;
        place.known = 1;
    }
    place
}

/// Where so many bytes stand in front, with an attribute and an element of its value, where these are known.
fn at(byte: Option<BytePlace>, attribute: Option<AttributePlace>, indices: Indices) -> Place
    ensures { IsAt byte result }
{
    let mut place = at_byte(byte);
    let Some(attribute) = attribute else {
        return place;
    };
    place.entity = attribute.entity.0;
    place.attribute = attribute.index;
    place.valued = 1;
    let (numbers, levels) = numbers_of(indices.numbers());
    place.indices = numbers;
    place.levels = levels;
    place
}

/// Numbers with zeros behind them, and how many they are.
fn numbers_of(numbers: &[u32]) -> ([u32; LEVELS], u8) {
    let mut found = [0; LEVELS];
    let mut levels: u8 = 0;
    for number in numbers {
        if let Some(slot) = found.get_mut(levels as usize) {
            *slot = *number;
            levels = levels.saturating_add(1);
        }
    }
    (found, levels)
}
