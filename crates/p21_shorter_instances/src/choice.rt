//! Values of selects (ISO 10303-21, mapping of EXPRESS select data types).
ghost use Rattle.std.specs.Prelude.{◌≡◌, IfNone, IfSome, IfOk, OnErr};
ghost use Rattle.p21_spec_laws.specs.Needs.{FitsWithNeeds};
ghost use Rattle.p21_spec_schema.specs.Schema.{TypeNamed, defined, type_member};
ghost use Rattle.p21_spec_schema.specs.Select.{IsSelect, Offers};
ghost use Rattle.p21_shorter_instances.specs.Leaving.{LeavesText};
ghost use Rattle.p21_shorter_instances.specs.TakenValues.{TakesFront, TakesKeyword};
ghost use Rattle.p21_values.specs.Canonical.{Continues};

use crate::given_up::GivenUp;
use crate::reference::append_reference;
use crate::taken::Taken;
use p21_express_graph::{Member, TypeId};
use p21_schema::Schema;
use p21_shorter_tokens::{Draft, append_keyword};

/// A reference, at a select that offers an entity: how many bytes it has.
pub(crate) fn append_chosen(
    schema: &Schema,
    select: TypeId,
    bytes: &[u8],
    taken: &mut Taken,
) -> Result<usize, GivenUp>
    requires { IsSelect schema.now select.0 }
    ensures some { IfOk result (λ count. TakesFront schema.now (FitsWithNeeds schema.now (defined select.0)) 0 bytes.now count taken.old
        taken.new) }
    ensures draft { LeavesText result taken.old.draft taken.new.draft }
    ensures needs { OnErr result (taken.new.needs.items ≡ taken.old.needs.items) }
{
    if !schema.offers_entity(select) {
        return Err(GivenUp::NotUsual);
    }
    append_reference(Member::Defined(select), bytes, taken)
}

/// Appends the keyword at the front, if it names a type that the select offers: the type, and what stands behind the
/// keyword.
pub(crate) fn append_offered<'a>(
    schema: &Schema,
    select: TypeId,
    bytes: &'a [u8],
    draft: &mut Draft,
) -> Option<(TypeId, &'a [u8])>
    requires { IsSelect schema.now select.0 }
    ensures some { IfSome result (λ found. TakesKeyword schema.now select.0 found.0.0 bytes.now found.1.now draft.old draft.new) }
    ensures none { IfNone result (Continues draft.old draft.new) }
{
    let word = append_keyword(bytes, draft)?;
    let chosen = offered_type(schema, select, word)?;
    Some((chosen, &bytes[word.len()..]))
}

/// The type of this name, if the select offers it.
fn offered_type(schema: &Schema, select: TypeId, name: &[u8]) -> Option<TypeId>
    requires { IsSelect schema.now select.0 }
    ensures offered_type { IfSome result (λ chosen. Offers schema.now select.0 (type_member chosen.0)) }
    ensures named { IfSome result (λ chosen. TypeNamed schema.now chosen.0 name.now) }
{
    let chosen = schema.type_named(name)?;
    if !schema.offers(select, Member::Defined(chosen)) {
        return None;
    }
    Some(chosen)
}
