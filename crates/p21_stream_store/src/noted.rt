//! The memberships of names, a byte for each, so that most references take one look.
//!
//! A byte for each name says its membership, so that a reference takes one look, where the way by its position takes
//! three that leave the processor's cache: its bit, its position, and the membership there. The byte has numbers below
//! 255, which is all memberships of usual files; where it says nothing, the name is looked up as before. It is written
//! behind the line, so that it says the membership of an instance that is kept; where there is no room for it, nothing
//! is said. While each instance that is kept with its line has such a byte, a name without one hasn't come, and no
//! further look is taken (`all_noted`).
ghost use Rattle.std.specs.Prelude.{◌≡◌, ◌≤◌, ◌*◌, ℕ, IfOk, IsOk, MatchBool, OnErr, Some};
ghost use Rattle.p21_stream_store.specs.Pages.{HasPage, most_names};
ghost use Rattle.p21_stream_store.specs.Positions.{Changes, IsSame, position_marked};
ghost use Rattle.p21_stream_store.specs.Tables.{GrowsWithin, KeepsRoom};

use crate::pages::Pages;
use p21_values::NoMemory;

/// Memberships with numbers below this are noted.
const NOTED_MEMBERSHIPS: usize = 255;

/// The number of the membership that is noted of a name.
#[inline]
pub fn noted_membership(noted: &Pages<u8>, name: u64) -> Option<usize>
    ensures { result ≡ position_marked noted.now name }
{
    match noted.get(name, 0) {
        0 => None,
        byte => Some(byte as usize - 1),
    }
}

/// Notes the membership of a name, where there is a place for it or may be one more, and the byte holds its number; says whether it
/// did. So many names have come.
///
/// # Errors
///
/// `NoMemory`. Nothing is noted then.
#[inline]
pub fn note(
    noted: &mut Pages<u8>,
    name: u64,
    membership: usize,
    count: usize,
) -> Result<bool, NoMemory>
    ensures ok { IfOk result (λ done. MatchBool done (Changes (position_marked noted.old) name (Some membership)
        (position_marked noted.new)) (IsSame (position_marked noted.old) (position_marked noted.new))) }
    ensures err { OnErr result (IsSame (position_marked noted.old) (position_marked noted.new)) }
    ensures room { GrowsWithin (most_names count) noted.old noted.new }
{
    if note_membership(noted, name, membership) {
        return Ok(true);
    }
    note_in_new_page(noted, name, membership, count)
}

/// The same, of a name for which there is no place yet.
#[inline(never)]
fn note_in_new_page(
    noted: &mut Pages<u8>,
    name: u64,
    membership: usize,
    count: usize,
) -> Result<bool, NoMemory>
    ensures ok { IfOk result (λ done. MatchBool done (Changes (position_marked noted.old) name (Some membership)
        (position_marked noted.new)) (IsSame (position_marked noted.old) (position_marked noted.new))) }
    ensures err { OnErr result (IsSame (position_marked noted.old) (position_marked noted.new)) }
    ensures room { GrowsWithin (most_names count) noted.old noted.new }
{
    let Ok(()) = make_place(noted, name, count) else {
        return Err(NoMemory);
    };
    Ok(note_membership(noted, name, membership))
}

/// Makes a place to note the membership of a name, where there is none and may be one more. Nothing is noted by it, and where the
/// place is there, nothing is asked for. So many names have come.
///
/// # Errors
///
/// `NoMemory`.
pub fn make_place(noted: &mut Pages<u8>, name: u64, count: usize) -> Result<(), NoMemory>
    ensures same { IsSame (position_marked noted.old) (position_marked noted.new) }
    ensures there { HasPage noted.old.pages.items name → IsOk result × (noted.new ≡ noted.old) }
    ensures room { GrowsWithin (most_names count) noted.old noted.new }
{
    let Ok(_) = noted.make_page(name, count, 0) else {
        return Err(NoMemory);
    };
    Ok(())
}

/// Notes the membership of a name, if there is a place for it, and the byte holds its number; says whether it did.
#[inline]
pub fn note_membership(noted: &mut Pages<u8>, name: u64, membership: usize) -> bool
    ensures noted { MatchBool result (Changes (position_marked noted.old) name (Some membership) (position_marked noted.new))
        (noted.new ≡ noted.old) }
    ensures room { KeepsRoom noted.old noted.new }
{
    if membership >= NOTED_MEMBERSHIPS {
        return false;
    }
    noted.set(name, membership as u8 + 1)
}
