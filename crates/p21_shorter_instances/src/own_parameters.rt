//! The parameters of a simple record of external mapping, at the attributes that its entity declares itself (ISO 10303-21,
//! mapping of EXPRESS entity data types: external mapping).
ghost use Rattle.std.specs.Prelude.{◌≡◌, ◌≤◌, length, IfOk};
ghost use Rattle.p21_express_graph.specs.Lookups.{AreEntities};
ghost use Rattle.p21_express_graph.specs.Orders.{numbers};
ghost use Rattle.p21_express_graph.specs.Resolved.{IsEntity, IsPlace};
ghost use Rattle.p21_express_graph.specs.Meaning.{place as place_of};
ghost use Rattle.p21_spec_schema.specs.Schema.{attributes_of};
ghost use Rattle.p21_shorter_instances.specs.Leaving.{LeavesNeeds, LeavesText};
ghost use Rattle.p21_shorter_instances.specs.Records.{TakesAtPlace, TakesFurtherPlaces, TakesOwnPlaces};

use crate::given_up::GivenUp;
use crate::separated_delimiter::append_delimiter;
use crate::taken::Taken;
use crate::value::append_placed;
use p21_express_graph::{EntityId, Place};
use p21_schema::Schema;
use p21_shorter_tokens::behind_separators;

/// In a set of more entities a redeclared attribute is left to those who read the instance token by token.
const MOST_OF_A_REDECLARING_SET: usize = 16;

/// An entity, and how many attributes it declares itself.
#[derive(Clone, Copy)]
struct Owner {
    entity: EntityId,
    count: u32,
}

/// Appends the values at the front, at the attributes that an entity of a set declares itself, with a comma between each two,
/// and adds their references: what stands behind them.
#[inline(always)]
pub(crate) fn append_own_parameters<'a>(
    schema: &Schema,
    set: &[EntityId],
    owner: EntityId,
    bytes: &'a [u8],
    taken: &mut Taken,
) -> Result<&'a [u8], GivenUp>
    requires set { AreEntities schema.now (numbers set.now) }
    requires owner { IsEntity schema.now owner.0 }
    ensures some { IfOk result (λ rest. TakesOwnPlaces schema.now (numbers set.now) owner.0 bytes.now rest.now taken.old taken.new) }
    ensures draft { LeavesText result taken.old.draft taken.new.draft }
    ensures needs { LeavesNeeds result taken.old.needs.items taken.new.needs.items }
{
    let count = schema.attribute_count(owner);
    if count == 0 {
        return Ok(bytes);
    }
    let rest = append_parameter_at(
        schema,
        set,
        Place {
            entity: owner,
            index: 0,
        },
        bytes,
        taken,
    )?;
    let owner = Owner {
        entity: owner,
        count,
    };
    append_further_parameters(schema, set, owner, rest, taken)
}

/// The same from the second attribute on, with a comma before each.
fn append_further_parameters<'a>(
    schema: &Schema,
    set: &[EntityId],
    owner: Owner,
    bytes: &'a [u8],
    taken: &mut Taken,
) -> Result<&'a [u8], GivenUp>
    requires set { AreEntities schema.now (numbers set.now) }
    requires count { owner.count ≡ length (attributes_of schema.now owner.entity.0) }
    requires some { 1 ≤ owner.count }
    ensures some { IfOk result (λ rest. TakesFurtherPlaces schema.now (numbers set.now) owner.entity.0 owner.count bytes.now rest.now
        taken.old taken.new) }
    ensures draft { LeavesText result taken.old.draft taken.new.draft }
    ensures needs { LeavesNeeds result taken.old.needs.items taken.new.needs.items }
{
    let mut rest = bytes;
    for index in 1..owner.count {
        let Some(behind) = append_delimiter(b',', rest, &mut taken.draft) else {
            return Err(GivenUp::NotUsual);
        };
        let place = Place {
            entity: owner.entity,
            index,
        };
        rest = append_parameter_at(schema, set, place, behind, taken)?;
    }
    Ok(rest)
}

/// The value at one attribute, behind separators.
#[inline(always)]
fn append_parameter_at<'a>(
    schema: &Schema,
    set: &[EntityId],
    place: Place,
    bytes: &'a [u8],
    taken: &mut Taken,
) -> Result<&'a [u8], GivenUp>
    requires set { AreEntities schema.now (numbers set.now) }
    requires place { IsPlace schema.now (place_of place) }
    ensures some { IfOk result (λ rest. TakesAtPlace schema.now (numbers set.now) (place_of place) bytes.now rest.now taken.old taken.new) }
    ensures draft { LeavesText result taken.old.draft taken.new.draft }
    ensures needs { LeavesNeeds result taken.old.needs.items taken.new.needs.items }
{
    if is_dear(schema, set, place) {
        return Err(GivenUp::NotUsual);
    }
    schema.holds_together();
    let at = schema.type_at(set, place);
    let front = behind_separators(bytes);
    let count = append_placed(schema, at, front, taken)?;
    Ok(&front[count..])
}

/// Whether a walk through many entities would say what may stand at a place.
fn is_dear(schema: &Schema, set: &[EntityId], place: Place) -> bool {
    set.len() > MOST_OF_A_REDECLARING_SET && !schema.redeclarers_of(place).is_empty()
}
