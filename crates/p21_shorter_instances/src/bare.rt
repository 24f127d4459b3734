//! Values with no keyword in front (ISO 10303-21, mapping of EXPRESS data types).
ghost use Rattle.std.specs.Prelude.{◌≡◌, IfOk, OnErr};
ghost use Rattle.p21_spec_laws.specs.Needs.{FitsWithNeeds};
ghost use Rattle.p21_express_graph.specs.Meaning.{type_use};
ghost use Rattle.p21_spec_schema.specs.Schema.{Schema as Meant};
ghost use Rattle.p21_shorter_instances.specs.Leaving.{LeavesText};
ghost use Rattle.p21_shorter_instances.specs.TakenValues.{TakesWithNeeds};

use crate::given_up::GivenUp;
use crate::reference::append_reference;
use crate::scalar::append_scalar;
use crate::taken::Taken;
use p21_express_graph::{Member, TypeUse};

/// A value of a type that is no declared one and no aggregate: what stands behind it.
#[inline(always)]
pub(crate) fn append_plain<'a>(
    of: &TypeUse,
    bytes: &'a [u8],
    taken: &mut Taken,
) -> Result<&'a [u8], GivenUp>
    ensures some { IfOk result (λ rest. (s : Meant) → TakesWithNeeds s (FitsWithNeeds s (type_use of.now)) 0 bytes.now rest.now taken.old
        taken.new) }
    ensures draft { LeavesText result taken.old.draft taken.new.draft }
    ensures needs { OnErr result (taken.new.needs.items ≡ taken.old.needs.items) }
{
    match of {
        TypeUse::Entity(entity) => {
            let count = append_reference(Member::Entity(*entity), bytes, taken)?;
            Ok(&bytes[count..])
        }
        _ => append_scalar(of, bytes, &mut taken.draft).ok_or(GivenUp::NotUsual),
    }
}
