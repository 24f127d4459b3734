//! The references that no instance serves. Each has a line of its own, so the same line may stand more than once.
ghost use Rattle.std.specs.Prelude.{◌≡◌, ◌≤◌, ◌+◌, List, OnOk, length, true, false};
ghost use Rattle.std.specs.List.{AllZip};
ghost use Rattle.p21_spec_laws.specs.Stored.{StoredEntry};
ghost use Rattle.p21_spec_schema.specs.Schema.{Schema as Meant};
ghost use Rattle.p21_stream_kept.specs.Inside.{reference_of, references_of};
ghost use Rattle.p21_stream_kept.specs.Judgements.{AnswersNeedOf};
ghost use Rattle.p21_stream_survey.specs.Silence.{silence_of};
ghost use Rattle.p21_stream_survey.specs.Telling.{AddsRefusal, IsSilent, ListsReferences};

use p21_schema::Schema;
use p21_stream_kept::{Kept, Reference};
use p21_stream_sieve::Spots;
use p21_stream_statements::{At, Fault, Refusal};
use p21_values::{Name, NoMemory};
use std::collections::BTreeSet;

/// What isn't told of references: those to instances that were refused, which were left out or passed over; and where bytes were passed
/// over, that no instance has a name.
#[derive(Clone, Copy)]
pub(crate) struct Silence<'a> {
    pub names: &'a BTreeSet<u64>,
    pub passed: &'a BTreeSet<u64>,
    pub is_broken: bool,
}

/// Lists the references that no instance serves, up to so many refusals in all, and notes what is wanted at them.
///
/// # Errors
///
/// `NoMemory`.
pub(crate) fn list_references(
    kept: &Kept,
    silence: Silence<'_>,
    schema: &Schema,
    most: u64,
    refusals: &mut Vec<Refusal>,
    spots: &mut Spots,
) -> Result<(), NoMemory>
    ensures lists { OnOk result (ListsReferences schema.now kept.now.stored kept.now.waiting (silence_of silence.entry) most
        refusals.old.items refusals.new.items) }
    ensures counted { length refusals.old.items ≤ most → OnOk result (length refusals.new.items ≤ most) }
{
    let found = match kept.waiting_refusals(schema) {
        Ok(found) => found,
        Err(NoMemory) => return Err(NoMemory),
    };
    list_each(silence, most, kept.waiting(), &found, refusals, spots)
}

/// Lists those of these references, by why no instance serves each: so the loop is over parameters.
fn list_each(
    silence: Silence<'_>,
    most: u64,
    waiting: &[Reference],
    found: &[Option<Fault>],
    refusals: &mut Vec<Refusal>,
    spots: &mut Spots,
) -> Result<(), NoMemory>
    requires { length found.now ≡ length waiting.now }
    ensures lists { (s : Meant) (stored : List StoredEntry) → AllZip (AnswersNeedOf s stored) (references_of waiting.now) found.now
        → OnOk result (ListsReferences s stored (references_of waiting.now) (silence_of silence.entry) most refusals.old.items
        refusals.new.items) }
    ensures counted { length refusals.old.items ≤ most → OnOk result (length refusals.new.items ≤ most) }
{
    for index in 0..waiting.len() {
        if refusals.len() as u64 >= most {
            return Ok(());
        }
        match list_one(silence, &waiting[index], found[index], refusals, spots) {
            Ok(()) => {}
            Err(NoMemory) => return Err(NoMemory),
        }
    }
    Ok(())
}

/// Lists a reference that no instance serves for the reason found, if there is one, and it is told.
fn list_one(
    silence: Silence<'_>,
    reference: &Reference,
    found: Option<Fault>,
    refusals: &mut Vec<Refusal>,
    spots: &mut Spots,
) -> Result<(), NoMemory>
    ensures adds { (s : Meant) (stored : List StoredEntry) → AnswersNeedOf s stored (reference_of reference.now) found
        → OnOk result (AddsRefusal s stored (silence_of silence.entry) (reference_of reference.now) refusals.old.items refusals.new.items) }
    ensures counted { OnOk result (length refusals.new.items ≤ length refusals.old.items + 1) }
{
    let Some(fault) = found else {
        return Ok(());
    };
    if silence.is_silent(reference.need.target, fault) {
        return Ok(());
    }
    let refusal = Refusal {
        fault,
        at: At::Instance(reference.holder),
    };
    match refusals.push(refusal) {
        Ok(()) => {
            spots.note_need(reference.need);
            Ok(())
        }
        Err(_) => Err(NoMemory),
    }
}

impl<'a> Silence<'a> {
    /// Whether nothing is told of a reference to this name that is refused so.
    pub(crate) fn is_silent(self, target: Name, fault: Fault) -> bool
        ensures yes { result ≡ true → IsSilent (silence_of self.entry) target fault }
        ensures no { result ≡ false → IsSilent (silence_of self.entry) target fault → ⊥ }
    {
        if self.names.contains(&target.0) {
            return true;
        }
        if self.passed.contains(&target.0) {
            return true;
        }
        self.is_broken && fault == Fault::Dangling
    }
}
