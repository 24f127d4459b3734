//! The needs of instances, and the instances that serve them.
ghost use Rattle.std.specs.Prelude.{◌≡◌, ◌+◌, ◌/◌, ◌<◌, ◌≤◌, [], IsTrue, OnErr, drop, false, length, min, take, true, vec_capacity, vec_len};
ghost use Rattle.p21_spec_laws.specs.Keeping.{IsServedBy, IsServedByNone};
ghost use Rattle.p21_mapping_values.specs.TypedView.{need_view};
ghost use Rattle.p21_express_graph.specs.Meaning.{member};
ghost use Rattle.p21_stream_kept.specs.Inside.{AreStored, references_of, stored_in};
ghost use Rattle.p21_stream_kept.specs.Judgements.{AreRight, Serving};
ghost use Rattle.p21_stream_kept.specs.Served.{AnswersNeed, AnswersUnserved, DropsBehind};

use crate::judgements::Judgements;
use crate::kept::Reference;
use crate::servers::{MOST_LOOKED_THROUGH, Servers};
use crate::stored::Stored;
use p21_mapping::serves;
use p21_mapping_values::Need;
use p21_schema::Schema;
use p21_stream_statements::Fault;
use p21_stream_store::Memberships;
use p21_values::{Name, NoMemory};

/// Why no instance serves a need: none has its name, or the one that has it isn't of the type. It takes no memory.
fn refusal_of(schema: &Schema, stored: &Stored, need: &Need) -> Option<Fault>
    requires { AreStored stored.now }
    ensures { AnswersNeed schema.now (stored_in stored.now) (need_view need.now) result }
{
    let Some(membership) = stored.instances.membership_of(need.target.0) else {
        return Some(Fault::Dangling);
    };
    let (_, entities) = stored.memberships.get(membership);
    if serves(schema, need, entities) {
        None
    } else {
        Some(Fault::WrongTarget)
    }
}

/// The same by what is remembered of large sets.
#[inline(always)]
fn refusal_with(schema: &Schema, stored: &Stored, servers: &Servers, need: &Need) -> Option<Fault>
    requires { AreStored stored.now }
    ensures { AnswersNeed schema.now (stored_in stored.now) (need_view need.now) result }
{
    if servers.has_large_sets() && is_served(schema, stored, servers, need) {
        return None;
    }
    refusal_of(schema, stored, need)
}

/// Whether an instance is known to serve a need, by what is remembered of large sets. It takes no memory.
#[inline(never)]
fn is_served(schema: &Schema, stored: &Stored, servers: &Servers, need: &Need) -> bool
    requires { AreStored stored.now }
    ensures { IsTrue result → IsServedBy schema.now (stored_in stored.now) (need_view need.now) }
{
    let Some(membership) = stored.instances.membership_of(need.target.0) else {
        return false;
    };
    let (_, entities) = stored.memberships.get(membership);
    servers.serve(schema, need, stored.memberships.set(membership), entities)
}

/// Has it remembered which entity of a large set serves a need.
///
/// # Errors
///
/// `NoMemory`.
#[inline(never)]
fn learn(
    schema: &Schema,
    stored: &Stored,
    servers: &mut Servers,
    need: &Need,
) -> Result<(), NoMemory>
    requires { AreStored stored.now }
{
    let Some(membership) = stored.instances.membership_of(need.target.0) else {
        return Ok(());
    };
    let (_, entities) = stored.memberships.get(membership);
    servers.learn(schema, need, stored.memberships.set(membership), entities)
}

/// The same for the references that wait.
///
/// # Errors
///
/// `NoMemory`; not where no set is large, or no reference waits.
pub(crate) fn learn_waiting(
    schema: &Schema,
    stored: &Stored,
    servers: &mut Servers,
    waiting: &[Reference],
) -> Result<(), NoMemory>
    requires { AreStored stored.now }
    ensures small { servers.old.has_large_sets ≡ false → OnErr result ⊥ }
    ensures none { waiting.now ≡ [] → OnErr result ⊥ }
{
    if !servers.has_large_sets() {
        return Ok(());
    }
    for waits in waiting {
        learn(schema, stored, servers, &waits.need)?;
    }
    Ok(())
}

/// Drops the references from an index on that an instance serves by now. Those that are left stay in their order; where none is, the
/// room for more than 2,048 is given back.
pub(crate) fn drop_served(
    schema: &Schema,
    stored: &Stored,
    servers: &mut Servers,
    waiting: &mut Vec<Reference>,
    from: usize,
)
    requires stored { AreStored stored.now }
    requires from { from ≤ length waiting.old.items }
    ensures short { waiting.new.items ≡ [] → vec_capacity waiting.new ≤ 2048 }
    ensures drops { DropsBehind schema.now (stored_in stored.now) (references_of (take from waiting.old.items))
        (references_of (drop from waiting.old.items)) (references_of waiting.new.items) }
{
    let mut judgements = Judgements::new(*waiting.allocator());
    let mut left = from;
    for index in from..waiting.len() {
        let reference = waiting[index];
        waiting[left] = reference;
        if !is_served_now(schema, stored, servers, &mut judgements, &reference.need) {
            left += 1;
        }
    }
    waiting.truncate(left);
    give_back(waiting);
}

/// So many references may have room in any file.
const ROOM_OF_REFERENCES: usize = 2048;

/// Gives back room where there is much, and less than half of it is used. Half as much again as is used stays, so that the next
/// references that wait don't ask for it anew. Where the library finds no smaller room for some, they keep what they have.
fn give_back(waiting: &mut Vec<Reference>)
    ensures items { waiting.new.items ≡ waiting.old.items }
    ensures given_back { 2048 < vec_capacity waiting.old → waiting.old.items ≡ [] → vec_capacity waiting.new ≡ 0 }
    ensures kept { vec_capacity waiting.old ≤ 2048 → waiting.new ≡ waiting.old }
    ensures used { vec_capacity waiting.old / 2 ≤ vec_len waiting.old → waiting.new ≡ waiting.old }
    ensures further { min (vec_len waiting.old + vec_len waiting.old / 2) (vec_capacity waiting.old) ≤ vec_capacity waiting.new }
{
    let used = waiting.len();
    if waiting.capacity() > ROOM_OF_REFERENCES && waiting.capacity() / 2 > used {
        waiting.shrink_to(used + used / 2);
    }
}

/// Whether an instance that is stored serves a need: mostly by the entity that is guessed, and else by what is found, which is
/// guessed from then on, or by what is known of a large set. It asks for memory only to remember that a large set doesn't serve, and
/// does without it.
#[inline(always)]
fn is_served_now(
    schema: &Schema,
    stored: &Stored,
    servers: &mut Servers,
    judgements: &mut Judgements,
    need: &Need,
) -> bool
    requires stored { AreStored stored.now }
    requires right { AreRight schema.now stored.now.memberships judgements.old.all.items }
    ensures served { result ≡ true → IsServedBy schema.now (stored_in stored.now) (need_view need.now) }
    ensures unserved { result ≡ false → IsServedByNone schema.now (stored_in stored.now) (need_view need.now) }
    ensures right { AreRight schema.now stored.now.memberships judgements.new.all.items }
{
    let Some(membership) = stored.instances.membership_of(need.target.0) else {
        return false;
    };
    let (_, entities) = stored.memberships.get(membership);
    if servers.serve_again(schema, need, membership, entities) {
        return true;
    }
    servers.guess(schema, need, membership, entities);
    if entities.len() > MOST_LOOKED_THROUGH {
        return large_set_serves(
            schema,
            &stored.memberships,
            servers,
            judgements,
            need,
            membership,
        );
    }
    serves(schema, need, entities)
}

/// Whether the large set of a membership serves a need. That an entity serves is remembered from look to look, and asked again; that
/// none does is known for this look alone, since nothing binds what is remembered of it longer to this schema.
#[inline(never)]
fn large_set_serves(
    schema: &Schema,
    memberships: &Memberships,
    servers: &Servers,
    judgements: &mut Judgements,
    need: &Need,
    membership: usize,
) -> bool
    requires membership { membership < length memberships.now }
    requires right { AreRight schema.now memberships.now judgements.old.all.items }
    ensures serves { Serving schema.now memberships.now (member need.now.wanted) membership result }
    ensures right { AreRight schema.now memberships.now judgements.new.all.items }
{
    let (_, entities) = memberships.get(membership);
    if servers.serve(schema, need, memberships.set(membership), entities) {
        return true;
    }
    judgements.judge(schema, memberships, need, membership)
}

/// The first reference that no instance serves, by the name of the instance that has it, and why. It takes no memory.
pub(crate) fn first_unserved(
    schema: &Schema,
    stored: &Stored,
    servers: &Servers,
    waiting: &[Reference],
) -> Option<(Name, Fault)>
    requires { AreStored stored.now }
    ensures { AnswersUnserved schema.now (stored_in stored.now) (references_of waiting.now) result }
{
    for reference in waiting {
        let need = &reference.need;
        if let Some(fault) = refusal_with(schema, stored, servers, need) {
            return Some((reference.holder, fault));
        }
    }
    None
}
