//! The references of a file that is read whole and by itself to names that no instance has, and what the file says of itself where nothing
//! is refused.
ghost use Rattle.std.specs.Prelude.{◌≡◌, ◌≤◌, ◌<◌, ◌+◌, [], IfOk, OnOk, length};
ghost use Rattle.p21_spec_survey.specs.Rules.{by_itself};
ghost use Rattle.p21_stream_survey.specs.Finishing.{FindsReferences, IsKeptWhole, silence_at_end};
ghost use Rattle.p21_stream_survey.specs.Found.{FindsAtMost};
ghost use Rattle.p21_stream_survey.specs.Keeping.{kept_alone};
ghost use Rattle.p21_stream_survey.specs.Missing.{AddsMissing, ListsMissing};
ghost use Rattle.p21_stream_survey.specs.Silence.{silence_of};
ghost use Rattle.p21_stream_syntax.specs.Given.{kept_of};

use crate::listed::Found;
use crate::listing::Listing;
use crate::plain::PlainKeeper;
use crate::references::Silence;
use crate::serving::{extent_by, is_nothing};
use p21_spec_survey::reading_laws;
use p21_stream_sieve::Spots;
use p21_stream_statements::{At, Fault, Refusal};
use p21_stream_syntax::{Given, Reference};
use p21_values::NoMemory;
use std::alloc::Global;
use std::mem;

/// What is found of a file that is read whole and by itself: with the references to names that no instance has, up to so many refusals in
/// all. Fewer are listed by now. Where nothing is refused the file is well formed.
///
/// # Errors
///
/// `NoMemory`.
pub(crate) fn find_by_itself(
    alloc: Global,
    most: u64,
    keeper: PlainKeeper,
    mut listing: Listing,
) -> Result<Found, NoMemory>
    requires whole { IsKeptWhole by_itself (kept_alone keeper) listing }
    requires fewer { length listing.list.items < most }
    ensures finds { IfOk result (FindsReferences by_itself (kept_alone keeper) listing) }
    ensures counted { IfOk result (FindsAtMost most) }
    ensures list { IfOk result (λ found. found.list.items ≡ listing.list.items) }
{
    reading_laws();
    let left = most - listing.list.len() as u64;
    let spots = mem::replace(&mut listing.spots, Spots::new(alloc, false));
    let references = match missing(alloc, left, &keeper, &listing) {
        Ok(references) => references,
        Err(NoMemory) => return Err(NoMemory),
    };
    let extent = extent_by(references.len() as u64, left);
    let Listing { list, .. } = listing;
    let PlainKeeper { given, .. } = keeper;
    if !is_nothing(&list, &references) {
        return Ok(Found {
            list,
            references,
            extent,
            accepted: None,
            well_formed: None,
            spots,
        });
    }
    Ok(Found {
        list,
        references,
        extent,
        accepted: None,
        well_formed: Some(given.into_well_formed()),
        spots,
    })
}

/// The references to names that no instance has, up to so many.
fn missing(
    alloc: Global,
    most: u64,
    keeper: &PlainKeeper,
    listing: &Listing,
) -> Result<Vec<Refusal>, NoMemory>
    ensures lists { IfOk result (λ references. ListsMissing (kept_of keeper.now.given).names (kept_of keeper.now.given).waiting
        (silence_at_end (kept_alone keeper.now) listing.now) most [] references.items) }
    ensures counted { IfOk result (λ references. length references.items ≤ most) }
{
    let mut references = Vec::new(alloc);
    let silence = Silence {
        names: &keeper.names,
        passed: &listing.passed,
        is_broken: listing.is_broken,
    };
    match list_missing(&keeper.given, silence, most, &mut references) {
        Ok(()) => Ok(references),
        Err(NoMemory) => Err(NoMemory),
    }
}

/// Lists the references to names that no instance has, up to so many refusals in all.
fn list_missing(
    given: &Given,
    silence: Silence<'_>,
    most: u64,
    refusals: &mut Vec<Refusal>,
) -> Result<(), NoMemory>
    ensures lists { OnOk result (ListsMissing (kept_of given.now).names (kept_of given.now).waiting (silence_of silence.entry) most
        refusals.old.items refusals.new.items) }
    ensures counted { length refusals.old.items ≤ most → OnOk result (length refusals.new.items ≤ most) }
{
    let waiting = given.waiting();
    for index in 0..waiting.len() {
        if refusals.len() as u64 >= most {
            return Ok(());
        }
        match list_one_missing(given, silence, waiting[index], refusals) {
            Ok(()) => {}
            Err(NoMemory) => return Err(NoMemory),
        }
    }
    Ok(())
}

/// Lists a reference where no instance has its name, and that is told.
fn list_one_missing(
    given: &Given,
    silence: Silence<'_>,
    reference: Reference,
    refusals: &mut Vec<Refusal>,
) -> Result<(), NoMemory>
    ensures adds { OnOk result (AddsMissing (kept_of given.now).names (silence_of silence.entry) (reference.holder, reference.target)
        refusals.old.items refusals.new.items) }
    ensures counted { OnOk result (length refusals.new.items ≤ length refusals.old.items + 1) }
{
    if given.has_name(reference.target) {
        return Ok(());
    }
    if silence.is_silent(reference.target, Fault::Dangling) {
        return Ok(());
    }
    let refusal = Refusal {
        fault: Fault::Dangling,
        at: At::Instance(reference.holder),
    };
    match refusals.push(refusal) {
        Ok(()) => Ok(()),
        Err(_) => Err(NoMemory),
    }
}
