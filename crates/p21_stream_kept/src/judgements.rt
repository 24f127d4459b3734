//! Whether large sets serve what is wanted of them, remembered under one schema, and why no instance serves the references that
//! wait.
//!
//! What a large set doesn't serve is found once in each look at the references that wait, and once at the end, for all
//! that want the same of it (`Judgements`): so a thousand references that are looked at together cost one walk through
//! the set and a look-up each, and so does a list of refused references. That an entity serves is remembered from look
//! to look, since it can be asked again; that none does can't be asked again for less than the walk, and nothing binds
//! what is remembered to the schema of the next call, so that `look_again` leaves exactly the references that none
//! serves. Where there is no memory to remember it, the set is walked for each reference, and no refusal comes of it.
ghost use Rattle.std.specs.Prelude.{◌≡◌, ◌↔◌, ◌⊎◌, ◌<◌, ◌++◌, ◌∷◌, [], List, Some, length, slice_get, IfOk, IfSome, IsTrue};
ghost use Rattle.std.specs.List.{AllZip};
ghost use Rattle.p21_express_graph.specs.Meaning.{member};
ghost use Rattle.p21_spec_file.specs.Reference.{Serves};
ghost use Rattle.p21_spec_schema.specs.Schema.{Schema as Meant};
ghost use Rattle.p21_mapping_values.specs.TypedView.{need_view};
ghost use Rattle.p21_stream_kept.specs.Inside.{AreStored, references_of, stored_in};
ghost use Rattle.p21_stream_kept.specs.Judgements.{AnswersNeedOf, AreRight, Serving};
ghost use Rattle.p21_stream_kept.specs.Served.{AnswersNeed};

use crate::kept::Reference;
use crate::servers::MOST_LOOKED_THROUGH;
use crate::stored::Stored;
use p21_express_graph::Member;
use p21_mapping::serves;
use p21_mapping_values::Need;
use p21_schema::Schema;
use p21_stream_statements::Fault;
use p21_stream_store::Memberships;
use p21_values::NoMemory;
use std::alloc::Global;
use std::collections::BTreeMap;

/// The number of a set, whether a select is wanted of it, and the number of the select or of the entity that is.
type Key = (usize, bool, u32);

/// Whether large sets serve what was wanted of them under one schema. What is remembered is right for that schema, so a memory is
/// for one look at references, and no longer.
#[derive(Drop)]
pub(crate) struct Judgements {
    all: Vec<Judgement>,
    // Where one of them stands. It is held against what is wanted before it counts.
    numbers: BTreeMap<Key, usize>,
}

/// Whether the set of a membership serves what is wanted.
#[derive(Clone, Copy, Drop)]
struct Judgement {
    wanted: Member,
    membership: usize,
    serves: bool,
}

impl Judgements {
    /// None. It takes no memory.
    pub(crate) fn new(alloc: Global) -> Judgements
        ensures { result.all.items ≡ [] }
    {
        Judgements {
            all: Vec::new(alloc),
            numbers: BTreeMap::new(alloc),
        }
    }

    /// Why no instance serves a need, if none does.
    fn answer(&mut self, schema: &Schema, stored: &Stored, need: &Need) -> Option<Fault>
        requires stored { AreStored stored.now }
        requires right { AreRight schema.now stored.now.memberships self.old.all.items }
        ensures answers { AnswersNeed schema.now (stored_in stored.now) (need_view need.now) result }
        ensures right { AreRight schema.now stored.now.memberships self.new.all.items }
    {
        let Some(membership) = stored.instances.membership_of(need.target.0) else {
            return Some(Fault::Dangling);
        };
        if self.judge(schema, &stored.memberships, need, membership) {
            None
        } else {
            Some(Fault::WrongTarget)
        }
    }

    /// Whether the set of a membership serves a need. That of a large set is looked through once for all that want the same; where
    /// there is no memory to remember it, it is looked through again.
    #[inline(never)]
    pub(crate) fn judge(
        &mut self,
        schema: &Schema,
        memberships: &Memberships,
        need: &Need,
        membership: usize,
    ) -> bool
        requires membership { membership < length memberships.now }
        requires right { AreRight schema.now memberships.now self.old.all.items }
        ensures serves { Serving schema.now memberships.now (member need.now.wanted) membership result }
        ensures right { AreRight schema.now memberships.now self.new.all.items }
    {
        let (_, entities) = memberships.get(membership);
        if entities.len() <= MOST_LOOKED_THROUGH {
            return serves(schema, need, entities);
        }
        let key = key_of(memberships.set(membership), need.wanted);
        if let Some(known) = self.find(memberships, key, need.wanted, membership) {
            return known;
        }
        let found = serves(schema, need, entities);
        self.remember(
            key,
            Judgement {
                wanted: need.wanted,
                membership,
                serves: found,
            },
        );
        found
    }

    /// What is remembered of the set of a membership, if anything is.
    fn find(
        &self,
        memberships: &Memberships,
        key: Key,
        wanted: Member,
        membership: usize,
    ) -> Option<bool>
        ensures { (s : Meant) → AreRight s memberships.now self.now.all.items
            → IfSome result (Serving s memberships.now (member wanted) membership) }
    {
        let number = *self.numbers.get(&key)?;
        let judgement = *self.all.get(number)?;
        if !is_same(judgement.wanted, wanted) {
            return None;
        }
        if !memberships.have_one_set(judgement.membership, membership) {
            return None;
        }
        Some(judgement.serves)
    }

    /// Remembers what was found, if there is memory for it.
    fn remember(&mut self, key: Key, judgement: Judgement)
        ensures { (self.new.all.items ≡ self.old.all.items) ⊎ (self.new.all.items ≡ self.old.all.items ++ judgement ∷ []) }
    {
        let Ok(_) = self.numbers.insert(key, self.all.len()) else {
            return;
        };
        let _ = self.all.push(judgement);
    }
}

/// What is remembered stands at this.
fn key_of(set: usize, wanted: Member) -> Key {
    match wanted {
        Member::Entity(entity) => (set, false, entity.0),
        Member::Defined(select) => (set, true, select.0),
    }
}

/// Whether the same is wanted.
fn is_same(wanted: Member, other: Member) -> bool
    ensures { IsTrue result → member wanted ≡ member other }
{
    match (wanted, other) {
        (Member::Entity(entity), Member::Entity(its)) => entity.0 == its.0,
        (Member::Defined(select), Member::Defined(its)) => select.0 == its.0,
        _ => false,
    }
}

/// Why no instance serves each of these references, in their order; none where one does.
///
/// # Errors
///
/// `NoMemory`.
pub(crate) fn refusals_of(
    alloc: Global,
    schema: &Schema,
    stored: &Stored,
    waiting: &[Reference],
) -> Result<Vec<Option<Fault>>, NoMemory>
    requires { AreStored stored.now }
    ensures { IfOk result (λ refusals. AllZip (AnswersNeedOf schema.now (stored_in stored.now)) (references_of waiting.now) refusals.items) }
{
    let mut judgements = Judgements::new(alloc);
    let mut refusals = Vec::with_capacity(alloc, waiting.len())?;
    for reference in waiting {
        let refusal = judgements.answer(schema, stored, &reference.need);
        refusals.push(refusal)?;
    }
    Ok(refusals)
}
