//! The simple records of an instance of external mapping (ISO 10303-21, mapping of EXPRESS entity data types: external
//! mapping).
ghost use Rattle.std.specs.Prelude.{◌≡◌, [], ◌∷◌, IfNone, IfSome, IsTrue, IfOk};
ghost use Rattle.p21_express_graph.specs.Lookups.{AreEntities};
ghost use Rattle.p21_express_graph.specs.Orders.{numbers};
ghost use Rattle.p21_express_graph.specs.Resolved.{IsEntity};
ghost use Rattle.p21_shorter_instances.specs.Leaving.{LeavesNeeds, LeavesText};
ghost use Rattle.p21_shorter_instances.specs.Records.{TakesParts, TakesRecord};
ghost use Rattle.p21_shorter_instances.specs.TakenParameters.{TakesEntity};
ghost use Rattle.p21_values.specs.Canonical.{Continues};

use crate::end::append_end;
use crate::given_up::GivenUp;
use crate::own_parameters::append_own_parameters;
use crate::same::are_same;
use crate::separated_delimiter::append_delimiter;
use crate::taken::Taken;
use p21_express_graph::EntityId;
use p21_schema::Schema;
use p21_shorter_tokens::{Draft, append_keyword, behind_separators};

/// Appends the simple records at the front, one for each entity of a set in its order, and the `)` and `;` behind them, and
/// adds their references: what stands behind the `;`.
pub(crate) fn append_record<'a>(
    schema: &Schema,
    set: &[EntityId],
    bytes: &'a [u8],
    taken: &mut Taken,
) -> Result<&'a [u8], GivenUp>
    requires { AreEntities schema.now (numbers set.now) }
    ensures some { IfOk result (λ rest. TakesRecord schema.now (numbers set.now) bytes.now rest.now taken.old taken.new) }
    ensures draft { LeavesText result taken.old.draft taken.new.draft }
    ensures needs { LeavesNeeds result taken.old.needs.items taken.new.needs.items }
{
    let behind = append_parts(schema, set, bytes, taken)?;
    append_end(behind, &mut taken.draft).ok_or(GivenUp::NotUsual)
}

/// Appends the simple records.
fn append_parts<'a>(
    schema: &Schema,
    set: &[EntityId],
    bytes: &'a [u8],
    taken: &mut Taken,
) -> Result<&'a [u8], GivenUp>
    requires { AreEntities schema.now (numbers set.now) }
    ensures some { IfOk result (λ rest. TakesParts schema.now (numbers set.now) (numbers set.now) bytes.now rest.now taken.old taken.new) }
    ensures draft { LeavesText result taken.old.draft taken.new.draft }
    ensures needs { LeavesNeeds result taken.old.needs.items taken.new.needs.items }
{
    let mut rest = bytes;
    for owner in set {
        rest = append_part(schema, set, *owner, rest, taken)?;
    }
    Ok(rest)
}

/// Appends the simple record of an entity.
fn append_part<'a>(
    schema: &Schema,
    set: &[EntityId],
    owner: EntityId,
    bytes: &'a [u8],
    taken: &mut Taken,
) -> Result<&'a [u8], GivenUp>
    requires set { AreEntities schema.now (numbers set.now) }
    requires owner { IsEntity schema.now owner.0 }
    ensures some { IfOk result (λ rest. TakesParts schema.now (numbers set.now) (owner.0 ∷ []) bytes.now rest.now taken.old taken.new) }
    ensures draft { LeavesText result taken.old.draft taken.new.draft }
    ensures needs { LeavesNeeds result taken.old.needs.items taken.new.needs.items }
{
    let Some(keyed) = append_name_of(schema, owner, bytes, &mut taken.draft) else {
        return Err(GivenUp::NotUsual);
    };
    let Some(inside) = append_delimiter(b'(', keyed, &mut taken.draft) else {
        return Err(GivenUp::NotUsual);
    };
    let behind = append_own_parameters(schema, set, owner, inside, taken)?;
    append_delimiter(b')', behind, &mut taken.draft).ok_or(GivenUp::NotUsual)
}

/// Appends the keyword at the front, where it is the name of the entity: what stands behind it.
#[inline(always)]
fn append_name_of<'a>(
    schema: &Schema,
    entity: EntityId,
    bytes: &'a [u8],
    draft: &mut Draft,
) -> Option<&'a [u8]>
    requires { IsEntity schema.now entity.0 }
    ensures some { IfSome result (λ rest. TakesEntity schema.now entity.0 bytes.now rest.now draft.old draft.new) }
    ensures none { IfNone result (Continues draft.old draft.new) }
{
    let front = behind_separators(bytes);
    let word = append_keyword(front, draft)?;
    if !is_word(word, schema.entity_name(entity)) {
        return None;
    }
    Some(&front[word.len()..])
}

/// Whether a word is this one.
#[inline(always)]
fn is_word(word: &[u8], other: &[u8]) -> bool
    ensures { IsTrue result → word.now ≡ other.now }
{
    are_same(word, other)
}
