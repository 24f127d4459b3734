//! What takes instances straight from their bytes, one after the other, with what it keeps of the schema for that (ISO
//! 10303-21, data sections).
//!
//! A session has one `Taker`, and one `Taken` as the room for a line and for references, and keeps them from piece to
//! piece: so what is prepared of the schema is prepared once. What is found of an instance is lent by both. They are
//! apart, since what a call takes by `&mut` ends as a clause says only where what it lends is all that was written last.
ghost use Rattle.std.specs.Borrow.{sem};
ghost use Rattle.std.specs.Prelude.{◌≡◌, ◌≤◌, [], take, length, IfOk, IsTrue};
ghost use Rattle.p21_mapping.specs.Checked.{needs_view};
ghost use Rattle.p21_mapping_values.specs.TypedView.{ids_view};
ghost use Rattle.p21_spec_schema.specs.Schema.{Schema as Meant};
ghost use Rattle.p21_shorter_instances.specs.Leaving.{BeginsWithMark, RefusesAtMark};
ghost use Rattle.p21_shorter_instances.specs.Lending.{RestsTaker};
ghost use Rattle.p21_shorter_instances.specs.Taker.{HasBegun, IsInstance, IsTakerOf};

use crate::given_up::GivenUp;
use crate::instance::{Begun, begin_instance, end_instance};
use crate::plan::Plan;
use crate::sets::Sets;
use crate::taken::Taken;
use p21_express_graph::EntityId;
use p21_mapping_values::Need;
use p21_schema::Schema;
use p21_shorter_tokens::{Draft, behind_separators};
use std::alloc::Global;

/// The most bytes of a canonical line that is made so.
const ROOM_OF_A_LINE: usize = 16_384;

/// What takes usual instances straight from their bytes: what is kept of the schema for them.
pub struct Taker {
    // What instances of internal mapping need of the schema.
    pub plan: Plan,
    // The sets of instances of external mapping.
    pub sets: Sets,
}

// Written out: crates above call it, where they would prove a derived one field by field.
impl Drop for Taker {
    fn drop(self) {
        let Taker { plan: _, sets: _ } = self;
    }
}

/// What is found of an instance that was taken: the number that is its name, how many bytes it has with the separators before it, its
/// entities, rising by name, its canonical line without a line feed, and what its references need.
#[derive(Debug, Clone, Copy)]
pub struct Found<'t> {
    // No `Name`: of what holds a value of such a type no call can lend with a clause that says how the lender ends.
    pub number: u64,
    pub count: usize,
    pub entities: &'t [EntityId],
    pub line: &'t [u8],
    pub needs: &'t [Need],
}

impl Taker {
    /// One that has taken nothing. It takes no memory.
    pub fn new(alloc: Global) -> Taker
        ensures { (s : Meant) → IsTakerOf s result }
    {
        let plan = Plan::new(alloc);
        let sets = Sets::new(alloc);
        Taker { plan, sets }
    }

    /// Takes the instance at the beginning of a piece, where it stands there whole and is usual: what is found of it. Its line and
    /// its references stand in `taken`, in place of those before.
    ///
    /// # Errors
    ///
    /// Why it isn't taken: it isn't usual, or memory was refused for it.
    #[inline(always)]
    pub fn take<'t>(
        &'t mut self,
        schema: &Schema,
        piece: &[u8],
        taken: &'t mut Taken,
    ) -> Result<Found<'t>, GivenUp>
        requires { IsTakerOf schema.now self.old }
        ensures* taker { sem 𝓛 (RestsTaker schema.now self.entry) }
        ensures takes { IfOk result (λ found. IsInstance schema.now found.number (ids_view found.entities.now) (take found.count piece.now)
            found.line.now (needs_view found.needs.now)) }
        ensures within { IfOk result (λ found. found.count ≤ length piece.now) }
        ensures at_mark { RefusesAtMark result piece.now }
    {
        have_room(piece, &mut taken.draft)?;
        forget(taken);
        let begun = match begin_instance(schema, &mut self.plan, &mut self.sets, piece, taken) {
            Ok(begun) => begun,
            Err(why) => return Err(why),
        };
        self.end(schema, piece, begun, taken)
    }

    /// Takes the rest of an instance.
    #[inline(always)]
    fn end<'t>(
        &'t self,
        schema: &Schema,
        piece: &[u8],
        begun: Begun<'_>,
        taken: &'t mut Taken,
    ) -> Result<Found<'t>, GivenUp>
        requires taker { IsTakerOf schema.now self.now }
        requires begun { HasBegun schema.now self.now.sets begun piece.now taken.old }
        requires mark { BeginsWithMark piece.now }
        ensures takes { IfOk result (λ found. IsInstance schema.now found.number (ids_view found.entities.now) (take found.count piece.now)
            found.line.now (needs_view found.needs.now)) }
        ensures within { IfOk result (λ found. found.count ≤ length piece.now) }
        ensures at_mark { RefusesAtMark result piece.now }
    {
        let (entities, rest) = end_instance(
            schema, &self.plan, &self.sets, begun.set, begun.rest, taken,
        )?;
        // What is lent is lent from behind a `&`.
        let taken: &Taken = taken;
        Ok(Found {
            number: begun.number,
            count: piece.len() - rest.len(),
            entities,
            line: taken.draft.between(0, taken.draft.len()),
            needs: &taken.needs,
        })
    }
}

/// Has there be room for a canonical line. Where an instance begins, it is made.
#[inline(always)]
fn have_room(piece: &[u8], draft: &mut Draft) -> Result<(), GivenUp>
    ensures { RefusesAtMark result piece.now }
{
    if draft.room() >= ROOM_OF_A_LINE {
        return Ok(());
    }
    make_room(piece, draft)
}

/// Makes the room where an instance begins: so between statements no memory is asked for.
#[cold]
#[inline(never)]
fn make_room(piece: &[u8], draft: &mut Draft) -> Result<(), GivenUp>
    ensures { RefusesAtMark result piece.now }
{
    if !begins_instance(piece) {
        return Err(GivenUp::NotUsual);
    }
    let Ok(()) = draft.make_room(ROOM_OF_A_LINE) else {
        return Err(GivenUp::NoMemory);
    };
    Ok(())
}

/// Whether the mark of a name stands first behind the separators, as in an instance.
fn begins_instance(piece: &[u8]) -> bool
    ensures { IsTrue result → BeginsWithMark piece.now }
{
    match behind_separators(piece).split_first() {
        Some((first, _)) => *first == b'#',
        None => false,
    }
}

/// Gives up what an instance left in the line and the references.
#[inline(always)]
fn forget(taken: &mut Taken)
    ensures draft { taken.new.draft ≡ [] }
    ensures needs { taken.new.needs.items ≡ [] }
{
    taken.draft.cut(0);
    taken.needs.clear();
}
