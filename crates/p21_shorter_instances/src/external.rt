//! The simple records of an instance of external mapping, and the end of its statement (ISO 10303-21, mapping of EXPRESS entity
//! data types: external mapping).
ghost use Rattle.std.specs.Prelude.{◌≡◌, ◌+◌, ◌≤◌, length, IfOk, OnErr};
ghost use Rattle.p21_shorter_instances.specs.Leaving.{LeavesNeeds, LeavesText};
ghost use Rattle.p21_shorter_instances.specs.Records.{TakesNumbered};
ghost use Rattle.p21_shorter_instances.specs.ExternalSet.{AreExternalSets};

use crate::ahead::entities_ahead;
use crate::external_set::is_external_set;
use crate::given_up::GivenUp;
use crate::parts::append_record;
use crate::sets::Sets;
use crate::taken::Taken;
use p21_schema::Schema;
use p21_values::NoMemory;
use std::alloc::Global;
use std::sync::ArcSlice;

/// Appends the simple records of an instance, by a guess of their set, else by that which their keywords name: the number of the
/// set, and what stands behind the `;`. Where memory is refused by the guess, the keywords aren't looked at.
#[cold]
#[inline(never)]
pub(crate) fn append_simple_records<'a>(
    schema: &Schema,
    sets: &mut Sets,
    bytes: &'a [u8],
    taken: &mut Taken,
) -> Result<(usize, &'a [u8]), GivenUp>
    requires { AreExternalSets schema.now sets.old }
    ensures some { IfOk result (λ found. TakesNumbered schema.now sets.new found.0 bytes.now found.1.now taken.old taken.new) }
    ensures draft { LeavesText result taken.old.draft taken.new.draft }
    ensures needs { LeavesNeeds result taken.old.needs.items taken.new.needs.items }
    ensures sets { AreExternalSets schema.now sets.new }
    ensures one { length sets.new ≤ length sets.old + 1 }
{
    match append_by_guess(schema, sets, bytes, taken) {
        Ok(found) => Ok(found),
        Err(GivenUp::NotUsual) => append_by_keywords(schema, sets, bytes, taken),
        Err(GivenUp::NoMemory) => Err(GivenUp::NoMemory),
    }
}

/// The same by a guess. Where the simple records aren't taken so, nothing is appended.
fn append_by_guess<'a>(
    schema: &Schema,
    sets: &Sets,
    bytes: &'a [u8],
    taken: &mut Taken,
) -> Result<(usize, &'a [u8]), GivenUp>
    requires { AreExternalSets schema.now sets.now }
    ensures some { IfOk result (λ found. TakesNumbered schema.now sets.now found.0 bytes.now found.1.now taken.old taken.new) }
    ensures draft { OnErr result (taken.new.draft ≡ taken.old.draft) }
    ensures needs { OnErr result (taken.new.needs.items ≡ taken.old.needs.items) }
{
    let start = taken.draft.len();
    let before = taken.needs.len();
    let guess = sets.guess(bytes);
    match append_by_set(schema, sets, guess, bytes, taken) {
        Ok(rest) => Ok((guess, rest)),
        Err(why) => {
            taken.draft.cut(start);
            taken.needs.truncate(before);
            Err(why)
        }
    }
}

/// The same by the set that the keywords name.
fn append_by_keywords<'a>(
    schema: &Schema,
    sets: &mut Sets,
    bytes: &'a [u8],
    taken: &mut Taken,
) -> Result<(usize, &'a [u8]), GivenUp>
    requires { AreExternalSets schema.now sets.old }
    ensures some { IfOk result (λ found. TakesNumbered schema.now sets.new found.0 bytes.now found.1.now taken.old taken.new) }
    ensures draft { LeavesText result taken.old.draft taken.new.draft }
    ensures needs { LeavesNeeds result taken.old.needs.items taken.new.needs.items }
    ensures sets { AreExternalSets schema.now sets.new }
    ensures one { length sets.new ≤ length sets.old + 1 }
{
    let Ok(found) = set_ahead(*taken.needs.allocator(), schema, sets, bytes) else {
        return Err(GivenUp::NoMemory);
    };
    let Some(at) = found else {
        return Err(GivenUp::NotUsual);
    };
    sets.expect(bytes, at);
    let rest = append_by_set(schema, sets, at, bytes, taken)?;
    Ok((at, rest))
}

/// Appends the simple records of an instance by the set of a number, where there is one.
fn append_by_set<'a>(
    schema: &Schema,
    sets: &Sets,
    at: usize,
    bytes: &'a [u8],
    taken: &mut Taken,
) -> Result<&'a [u8], GivenUp>
    requires { AreExternalSets schema.now sets.now }
    ensures some { IfOk result (λ rest. TakesNumbered schema.now sets.now at bytes.now rest.now taken.old taken.new) }
    ensures draft { LeavesText result taken.old.draft taken.new.draft }
    ensures needs { LeavesNeeds result taken.old.needs.items taken.new.needs.items }
{
    let Some(set) = sets.get(at) else {
        return Err(GivenUp::NotUsual);
    };
    append_record(schema, set, bytes, taken)
}

/// The number of the set of the instance whose simple records stand at the front. Where it isn't kept yet, it is looked at and
/// kept. None where it isn't one of external mapping, or was guessed.
#[cold]
#[inline(never)]
fn set_ahead(
    alloc: Global,
    schema: &Schema,
    sets: &mut Sets,
    bytes: &[u8],
) -> Result<Option<usize>, NoMemory>
    requires { AreExternalSets schema.now sets.old }
    ensures sets { AreExternalSets schema.now sets.new }
    ensures one { length sets.new ≤ length sets.old + 1 }
{
    let found = entities_ahead(alloc, schema, bytes)?;
    let Some(listed) = found else {
        return Ok(None);
    };
    let set = ArcSlice::from_vec(listed)?;
    if let Some(at) = sets.find(&set) {
        return if at == sets.guess(bytes) {
            Ok(None)
        } else {
            Ok(Some(at))
        };
    }
    let usual = is_external_set(alloc, schema, set.as_slice())?;
    if !usual {
        return Ok(None);
    }
    let at = sets.keep(set)?;
    Ok(Some(at))
}
