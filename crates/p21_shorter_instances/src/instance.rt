//! The statement of an instance (ISO 10303-21, data sections; mapping of EXPRESS entity data types).
//!
//! The call that begins an instance prepares its entity (`begin_instance` of p21_shorter_instances), so that its caller
//! has nothing to retry. Why an instance isn't taken is an answer (`GivenUp`): one that isn't usual goes the general
//! way, and for one for which memory is refused the session answers want of memory, since it isn't tried again. Calls
//! that never ask for memory, as for a token, answer `None` where they give up. No clause can say that memory was
//! refused; `hostile/allocations.py` refuses each allocation in turn. A clause says that it is refused for no bytes but
//! those behind the mark of a name (`RefusesAtMark`).
//!
//! One call begins an instance of either form. It reads the name and the `=` once, and guesses a keyword before it looks
//! for a `(` alone (`append_opening`): so an instance of internal form, as nearly each is, pays nothing for the other
//! one, and an instance of external form is known by its first byte. A call for each form, the second where the first
//! gave up, read the name and the `=` of the latter twice.
//!
//! Nothing is prepared behind the opening of an instance of internal form. So the call that ends it (`end_instance`) only
//! borrows what is kept of the schema, and the row that it looks up lends the entities of the set beside the attributes.
ghost use Rattle.std.specs.Prelude.{[], ◌∷◌, ◌++◌, IfNone, IfOk, IfSome, List, ℕ};
ghost use Rattle.p21_mapping_values.specs.TypedView.{ids_view};
ghost use Rattle.p21_spec_exchange.specs.Spelling.{name_spelling};
ghost use Rattle.p21_spec_exchange.specs.Token.{equals, name};
ghost use Rattle.p21_shorter_instances.specs.Leaving.{BeginsWithMark, RefusesAtMark};
ghost use Rattle.p21_shorter_instances.specs.ExternalSet.{AreExternalSets};
ghost use Rattle.p21_shorter_instances.specs.Instance.{Begins, TakesInstance};
ghost use Rattle.p21_shorter_instances.specs.Steps.{IsPlanOf};
ghost use Rattle.p21_shorter_instances.specs.TakenParameters.{TakesTokens};
ghost use Rattle.p21_shorter_instances.specs.declared.taken.Taken.{Taken as Text};
ghost use Rattle.p21_values.specs.Canonical.{Continues};

use crate::entity::append_opening;
use crate::external::append_simple_records;
use crate::given_up::GivenUp;
use crate::internal::append_parameters;
use crate::plan::Plan;
use crate::separated_delimiter::append_delimiter;
use crate::sets::Sets;
use crate::taken::Taken;
use p21_express_graph::EntityId;
use p21_schema::Schema;
use p21_shorter_tokens::{Draft, append_name, behind_separators};

/// The set of an instance.
#[derive(Clone, Copy)]
pub(crate) enum Set {
    /// Of internal mapping: the closure of this entity.
    Own(EntityId),
    /// Of external mapping: the set of this number among those that are kept.
    Numbered(usize),
}

/// An instance that is begun: the number that is its name, its set, and what stands behind its opening, or behind its `;` where it
/// is of external mapping.
#[derive(Clone, Copy)]
pub(crate) struct Begun<'a> {
    pub(crate) number: u64,
    pub(crate) set: Set,
    pub(crate) rest: &'a [u8],
}

/// Appends what stands in front of the parameters of the instance at the front: of one of external mapping all of its canonical
/// line, without a line feed, with its references. An entity that isn't prepared is, and a set of external mapping that isn't kept
/// yet is looked at, and kept.
///
/// # Errors
///
/// Why the instance isn't taken this way.
#[inline(always)]
pub(crate) fn begin_instance<'a>(
    schema: &Schema,
    plan: &mut Plan,
    sets: &mut Sets,
    bytes: &'a [u8],
    taken: &mut Taken,
) -> Result<Begun<'a>, GivenUp>
    requires plan { IsPlanOf schema.now plan.old }
    requires sets { AreExternalSets schema.now sets.old }
    ensures some { IfOk result (λ begun. Begins schema.now begun.number sets.new begun.set bytes.now begun.rest.now taken.old taken.new) }
    ensures mark { IfOk result (λ begun. BeginsWithMark bytes.now) }
    ensures at_mark { RefusesAtMark result bytes.now }
    ensures plan { IsPlanOf schema.now plan.new }
    ensures sets { AreExternalSets schema.now sets.new }
{
    let Some((number, behind)) = append_name_and_equals(bytes, &mut taken.draft) else {
        return Err(GivenUp::NotUsual);
    };
    let (opening, inside) = append_opening(schema, plan, behind, &mut taken.draft)?;
    match opening {
        Some(entity) => {
            let set = Set::Own(entity);
            let rest = inside;
            Ok(Begun { number, set, rest })
        }
        None => {
            let (at, rest) = append_simple_records(schema, sets, inside, taken)?;
            let set = Set::Numbered(at);
            Ok(Begun { number, set, rest })
        }
    }
}

/// Appends the rest of the canonical line of an instance that is begun, has this set, and goes on so; and adds its references, in
/// the order in which they are named. Answers the entities of its set, rising by name, and what stands behind its `;`.
///
/// # Errors
///
/// Why the instance isn't taken this way.
#[inline(always)]
pub(crate) fn end_instance<'a, 'p>(
    schema: &Schema,
    plan: &'p Plan,
    sets: &'p Sets,
    set: Set,
    inside: &'a [u8],
    taken: &mut Taken,
) -> Result<(&'p [EntityId], &'a [u8]), GivenUp>
    requires { IsPlanOf schema.now plan.now }
    ensures { (n : ℕ) (bytes : List ℕ) (old : Text) → Begins schema.now n sets.now set bytes inside.now old taken.old
        → IfOk result (λ found. TakesInstance schema.now n (ids_view found.0.now) bytes found.1.now old taken.new) }
{
    schema.well_formed();
    schema.holds_together();
    match set {
        Set::Own(entity) => append_parameters(schema, plan, entity, inside, taken),
        Set::Numbered(at) => match sets.get(at) {
            Some(entities) => Ok((entities, inside)),
            None => Err(GivenUp::NotUsual),
        },
    }
}

/// Appends the name at the front and the `=` behind it: its number, and what stands behind them.
#[inline(always)]
fn append_name_and_equals<'a>(bytes: &'a [u8], draft: &mut Draft) -> Option<(u64, &'a [u8])>
    ensures some { IfSome result (λ head. TakesTokens (name head.0 ∷ equals ∷ []) (name_spelling head.0 ++ 61 ∷ []) bytes.now head.1.now
        draft.old draft.new) }
    ensures none { IfNone result (Continues draft.old draft.new) }
{
    let front = behind_separators(bytes);
    let (count, number) = append_name(front, draft)?;
    let rest = append_delimiter(b'=', &front[count..], draft)?;
    Some((number, rest))
}
