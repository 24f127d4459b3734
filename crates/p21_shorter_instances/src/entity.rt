//! What stands in front of the parameters of an instance (ISO 10303-21, mapping of EXPRESS entity data types).
ghost use Rattle.std.specs.Prelude.{◌≡◌, ◌<◌, ◌≤◌, IfNone, IfSome, length, slice_index, take, IfOk};
ghost use Rattle.p21_express_graph.specs.Resolved.{IsEntity};
ghost use Rattle.p21_spec_schema.specs.Schema.{Schema as Meant};
ghost use Rattle.p21_shorter_instances.specs.Leaving.{LeavesText};
ghost use Rattle.p21_shorter_instances.specs.TakenParameters.{IsNamedBy, TakesEntity, TakesOpenedEntity, TakesOpening};
ghost use Rattle.p21_shorter_instances.specs.Steps.{IsPlanOf};
ghost use Rattle.p21_values.specs.Canonical.{Continues};

use crate::given_up::GivenUp;
use crate::keyword::ROW;
use crate::plan::Plan;
use crate::separated_delimiter::append_delimiter;
use p21_express_graph::EntityId;
use p21_schema::Schema;
use p21_shorter_tokens::{Draft, append_keyword, behind_separators};
use p21_values::NoMemory;
use std::simd::prelude::*;

/// What some writers put between two tokens.
const BLANK: u8 = b' ';

/// Appends what stands in front of the parameters at the front: of internal mapping the keyword of an entity that such instances
/// may have, with a `(`, and of external mapping a `(` alone. Answers the entity, if there is one, and what stands behind the `(`.
/// An entity that isn't prepared is.
#[inline(always)]
pub(crate) fn append_opening<'a>(
    schema: &Schema,
    plan: &mut Plan,
    bytes: &'a [u8],
    draft: &mut Draft,
) -> Result<(Option<EntityId>, &'a [u8]), GivenUp>
    requires { IsPlanOf schema.now plan.old }
    ensures some { IfOk result (λ found. TakesOpening schema.now found.0 bytes.now found.1.now draft.old draft.new) }
    ensures none { LeavesText result draft.old draft.new }
    ensures plan { IsPlanOf schema.now plan.new }
{
    match append_guessed(plan, bytes, draft) {
        Some((entity, inside)) => Ok((Some(entity), inside)),
        None => append_other_opening(schema, plan, bytes, draft),
    }
}

/// The same with separators, or with no guess.
#[cold]
#[inline(never)]
fn append_other_opening<'a>(
    schema: &Schema,
    plan: &mut Plan,
    bytes: &'a [u8],
    draft: &mut Draft,
) -> Result<(Option<EntityId>, &'a [u8]), GivenUp>
    requires { IsPlanOf schema.now plan.old }
    ensures some { IfOk result (λ found. TakesOpening schema.now found.0 bytes.now found.1.now draft.old draft.new) }
    ensures none { LeavesText result draft.old draft.new }
    ensures plan { IsPlanOf schema.now plan.new }
{
    let front = behind_separators(bytes);
    if let Some((entity, count)) = guessed_entity(plan, front) {
        if !draft.append_prefix(front, count) {
            return Err(GivenUp::NotUsual);
        }
        let Some(inside) = append_delimiter(b'(', &front[count..], draft) else {
            return Err(GivenUp::NotUsual);
        };
        return Ok((Some(entity), inside));
    }
    match append_delimiter(b'(', bytes, draft) {
        Some(inside) => Ok((None, inside)),
        None => {
            let (entity, inside) = append_entity(schema, plan, bytes, draft)?;
            Ok((Some(entity), inside))
        }
    }
}

/// Appends the keyword and the `(` behind it by a guess, where the entity is prepared, and no separator stands before the keyword or
/// behind it: the entity, and what stands behind the `(`.
#[inline(always)]
fn append_guessed<'a>(
    plan: &Plan,
    bytes: &'a [u8],
    draft: &mut Draft,
) -> Option<(EntityId, &'a [u8])>
    ensures some { (s : Meant) → IsPlanOf s plan.now → IfSome result
        (λ found. TakesOpenedEntity s found.0.0 bytes.now found.1.now draft.old draft.new) }
    ensures none { IfNone result (draft.new ≡ draft.old) }
{
    let count = parenthesis_in(bytes)?;
    if bytes[0] == BLANK {
        return None;
    }
    let entity = entity_of(plan, bytes, count)?;
    if !draft.append_prefix(bytes, count + 1) {
        return None;
    }
    Some((entity, &bytes[count + 1..]))
}

/// The entity of the keyword at the front by a guess, where the entity is prepared, and a `(` or a blank stands behind the keyword; and
/// how many bytes that has.
fn guessed_entity(plan: &Plan, bytes: &[u8]) -> Option<(EntityId, usize)>
    ensures within { IfSome result (λ found. found.1 < length bytes.now) }
    ensures ends { IfSome result (λ found. slice_index bytes.now found.1 < 45) }
    ensures some { (s : Meant) → IsPlanOf s plan.now → IfSome result (λ found. IsNamedBy s found.0.0 (take found.1 bytes.now)) }
{
    let place = parenthesis_in(bytes)?;
    let mut count = place;
    if bytes[place - 1] == BLANK {
        count = place - 1;
    }
    if count == 0 {
        return None;
    }
    let entity = entity_of(plan, bytes, count)?;
    Some((entity, count))
}

/// The entity that so many bytes at the front of a row or more name, by a guess, where it is prepared.
#[inline(always)]
fn entity_of(plan: &Plan, bytes: &[u8], count: usize) -> Option<EntityId>
    requires row { 32 ≤ length bytes.now }
    requires some { 0 < count }
    requires within { count < length bytes.now }
    ensures { (s : Meant) → IsPlanOf s plan.now → IfSome result (λ entity. IsNamedBy s entity.0 (take count bytes.now)) }
{
    let guess = plan.guess(&bytes[..count])?;
    let row = plan.row(guess)?;
    if !row.keyword.is_front(bytes, count) {
        return None;
    }
    Some(guess)
}

/// Where the first `(` stands, behind a byte or more of a row.
#[inline(always)]
fn parenthesis_in(bytes: &[u8]) -> Option<usize>
    ensures place { IfSome result (λ count. (0 < count) × (count < length bytes.now) × (slice_index bytes.now count ≡ 40)) }
    ensures row { IfSome result (λ count. 32 ≤ length bytes.now) }
{
    if bytes.len() < ROW {
        return None;
    }
    let marks = u8x32::from_slice(bytes)
        .simd_eq(u8x32::splat(b'('))
        .to_bitmask();
    let count = marks.trailing_zeros() as usize;
    if count == 0 || count >= ROW || bytes[count] != b'(' {
        return None;
    }
    Some(count)
}

/// The same by a look-up. An entity that isn't prepared is.
fn append_entity<'a>(
    schema: &Schema,
    plan: &mut Plan,
    bytes: &'a [u8],
    draft: &mut Draft,
) -> Result<(EntityId, &'a [u8]), GivenUp>
    requires { IsPlanOf schema.now plan.old }
    ensures some { IfOk result (λ found. TakesOpenedEntity schema.now found.0.0 bytes.now found.1.now draft.old draft.new) }
    ensures none { LeavesText result draft.old draft.new }
    ensures plan { IsPlanOf schema.now plan.new }
{
    let Some((entity, behind)) = append_named(schema, plan, bytes, draft) else {
        return Err(GivenUp::NotUsual);
    };
    let Ok(prepared) = is_prepared(plan, schema, entity) else {
        return Err(GivenUp::NoMemory);
    };
    if !prepared {
        return Err(GivenUp::NotUsual);
    }
    let Some(inside) = append_delimiter(b'(', behind, draft) else {
        return Err(GivenUp::NotUsual);
    };
    Ok((entity, inside))
}

/// Appends the keyword at the front, where it is the name of an entity: that, and what stands behind the keyword.
fn append_named<'a>(
    schema: &Schema,
    plan: &mut Plan,
    bytes: &'a [u8],
    draft: &mut Draft,
) -> Option<(EntityId, &'a [u8])>
    ensures some { IfSome result (λ found. TakesEntity schema.now found.0.0 bytes.now found.1.now draft.old draft.new) }
    ensures none { IfNone result (Continues draft.old draft.new) }
    ensures plan { IsPlanOf schema.now plan.old → IsPlanOf schema.now plan.new }
{
    let front = behind_separators(bytes);
    let word = append_keyword(front, draft)?;
    let entity = plan.entity(schema, word)?;
    Some((entity, &front[word.len()..]))
}

/// Prepares an entity, where it isn't, and says whether instances may have its closure as their set.
fn is_prepared(plan: &mut Plan, schema: &Schema, entity: EntityId) -> Result<bool, NoMemory>
    requires { IsEntity schema.now entity.0 }
    ensures { IsPlanOf schema.now plan.old → IsPlanOf schema.now plan.new }
{
    if plan.row(entity).is_some() {
        return Ok(true);
    }
    if plan.is_without(entity) {
        return Ok(false);
    }
    plan.prepare(schema, entity)
}
