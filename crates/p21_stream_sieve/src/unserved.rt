//! The references that no instance serves.
//!
//! Each reference that isn't served has a line of its own, so the same line may stand more than once: for each of an
//! instance's references in the order of its parameters.
ghost use Rattle.std.specs.Prelude.{◌≡◌, ◌≤◌, ◌+◌, length, OnOk};
ghost use Rattle.std.specs.List.{AllZip};
ghost use Rattle.p21_spec_laws.specs.Keeping.{Kept as MeantKept};
ghost use Rattle.p21_spec_schema.specs.Schema.{Schema as Meant};
ghost use Rattle.p21_stream_kept.specs.Inside.{reference_of, references_of};
ghost use Rattle.p21_stream_kept.specs.Judgements.{AnswersNeedOf};
ghost use Rattle.p21_stream_sieve.specs.Unserved.{AddsRefusal, ListsUnserved};

use crate::spots::Spots;
use p21_schema::Schema;
use p21_stream_kept::{Kept, Reference};
use p21_stream_statements::{At, Fault, Refusal};
use p21_values::NoMemory;
use std::collections::BTreeSet;

/// Lists the references that no instance serves, apart from those to these names, up to so many refusals in all,
/// and notes what is wanted at them.
pub(crate) fn list_unserved(
    kept: &Kept,
    names: &BTreeSet<u64>,
    schema: &Schema,
    most: u64,
    refusals: &mut Vec<Refusal>,
    spots: &mut Spots,
) -> Result<(), NoMemory>
    ensures lists { OnOk result (ListsUnserved schema.now kept.now names.now most refusals.old.items refusals.new.items) }
    ensures counted { length refusals.old.items ≤ most → OnOk result (length refusals.new.items ≤ most) }
{
    let found = kept.waiting_refusals(schema)?;
    list_each(names, most, kept.waiting(), &found, refusals, spots)
}

/// Lists those of these references, by why no instance serves each: so the loop is over parameters.
fn list_each(
    names: &BTreeSet<u64>,
    most: u64,
    waiting: &[Reference],
    found: &[Option<Fault>],
    refusals: &mut Vec<Refusal>,
    spots: &mut Spots,
) -> Result<(), NoMemory>
    requires { length found.now ≡ length waiting.now }
    ensures lists { (s : Meant) (kept : MeantKept) → references_of waiting.now ≡ kept.waiting
        → AllZip (AnswersNeedOf s kept.stored) (references_of waiting.now) found.now
        → OnOk result (ListsUnserved s kept names.now most refusals.old.items refusals.new.items) }
    ensures counted { length refusals.old.items ≤ most → OnOk result (length refusals.new.items ≤ most) }
{
    for index in 0..waiting.len() {
        if refusals.len() as u64 >= most {
            return Ok(());
        }
        list_one(names, &waiting[index], found[index], refusals, spots)?;
    }
    Ok(())
}

/// Lists a reference that no instance serves for the reason found, if there is one, unless its target has one of these names.
fn list_one(
    names: &BTreeSet<u64>,
    reference: &Reference,
    found: Option<Fault>,
    refusals: &mut Vec<Refusal>,
    spots: &mut Spots,
) -> Result<(), NoMemory>
    ensures adds { (s : Meant) (kept : MeantKept) → AnswersNeedOf s kept.stored (reference_of reference.now) found
        → OnOk result (AddsRefusal s kept names.now (reference_of reference.now) refusals.old.items refusals.new.items) }
    ensures counted { OnOk result (length refusals.new.items ≤ length refusals.old.items + 1) }
{
    let Some(fault) = found else {
        return Ok(());
    };
    if names.contains(&reference.need.target.0) {
        return Ok(());
    }
    let refusal = Refusal {
        fault,
        at: At::Instance(reference.holder),
    };
    refusals.push(refusal)?;
    spots.note_need(reference.need);
    Ok(())
}
