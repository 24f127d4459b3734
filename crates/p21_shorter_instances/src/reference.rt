//! References (ISO 10303-21, mapping of EXPRESS entity data types and of selects).
ghost use Rattle.std.specs.Prelude.{◌≡◌, IfOk, OnErr};
ghost use Rattle.p21_express_graph.specs.Meaning.{member};
ghost use Rattle.p21_shorter_instances.specs.Leaving.{LeavesText};
ghost use Rattle.p21_shorter_instances.specs.TakenValues.{TakesReference};

use crate::given_up::GivenUp;
use crate::taken::Taken;
use p21_express_graph::Member;
use p21_mapping_values::Need;
use p21_shorter_tokens::append_name;
use p21_values::Name;

/// Appends the name of an instance at the front, and adds what the instance has to be: how many bytes the name has.
#[inline(always)]
pub(crate) fn append_reference(
    wanted: Member,
    bytes: &[u8],
    taken: &mut Taken,
) -> Result<usize, GivenUp>
    ensures some { IfOk result (λ count. TakesReference (member wanted) bytes.now count taken.old taken.new) }
    ensures draft { LeavesText result taken.old.draft taken.new.draft }
    ensures needs { OnErr result (taken.new.needs.items ≡ taken.old.needs.items) }
{
    let Some((count, number)) = append_name(bytes, &mut taken.draft) else {
        return Err(GivenUp::NotUsual);
    };
    let need = Need {
        target: Name(number),
        wanted,
    };
    let Ok(()) = taken.needs.push(need) else {
        return Err(GivenUp::NoMemory);
    };
    Ok(count)
}
