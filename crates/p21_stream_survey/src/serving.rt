//! The references of a file that is read whole, and the file itself where nothing is refused.
ghost use Rattle.std.specs.Prelude.{◌≡◌, ◌≤◌, ◌<◌, [], IfOk, IsTrue, false, length};
ghost use Rattle.p21_spec_survey.specs.Rules.{of_schema};
ghost use Rattle.p21_stream_survey.specs.Finishing.{FindsReferences, IsKeptWhole, TellsAll, silence_at_end};
ghost use Rattle.p21_stream_survey.specs.Found.{FindsAtMost};
ghost use Rattle.p21_stream_survey.specs.Keeping.{rules_of, sifted_of};
ghost use Rattle.p21_stream_survey.specs.Sifted.{sieved};
ghost use Rattle.p21_stream_survey.specs.Telling.{ListsReferences};

use crate::judging::Judge;
use crate::keeper::{Keeper, SchemaKeeper};
use crate::listed::{Extent, Found, Listed};
use crate::listing::Listing;
use crate::missing::find_by_itself;
use crate::references::{Silence, list_references};
use p21_schema::Schema;
use p21_spec_survey::reading_laws;
use p21_stream_sieve::{Sieve, Spots};
use p21_stream_statements::Refusal;
use p21_values::NoMemory;
use std::alloc::Global;
use std::mem;

/// What is found of a file that is read whole: with the references that no instance serves, up to so many refusals in all. Fewer are listed
/// by now.
///
/// # Errors
///
/// `NoMemory`.
pub(crate) fn find_references(
    alloc: Global,
    most: u64,
    keeper: Keeper<'_>,
    listing: Listing,
) -> Result<Found, NoMemory>
    requires whole { IsKeptWhole (rules_of keeper) (sifted_of keeper) listing }
    requires fewer { length listing.list.items < most }
    ensures finds { IfOk result (FindsReferences (rules_of keeper.entry) (sifted_of keeper.entry) listing) }
    ensures counted { IfOk result (FindsAtMost most) }
    ensures list { IfOk result (λ found. found.list.items ≡ listing.list.items) }
{
    match keeper {
        Keeper::OfSchema(keeper) => {
            let SchemaKeeper { schema, judge, .. } = keeper;
            let Judge { sieve, .. } = judge;
            find_of_schema(alloc, schema, most, sieve, listing)
        }
        Keeper::ByItself(keeper) => find_by_itself(alloc, most, keeper, listing),
    }
}

/// What is found by the rules of a schema. Where no reference is refused, and nothing else, the file is accepted.
fn find_of_schema(
    alloc: Global,
    schema: &Schema,
    most: u64,
    sieve: Sieve,
    mut listing: Listing,
) -> Result<Found, NoMemory>
    requires whole { IsKeptWhole (of_schema schema.now) (sieved sieve) listing }
    requires fewer { length listing.list.items < most }
    ensures finds { IfOk result (FindsReferences (of_schema schema.now) (sieved sieve) listing) }
    ensures counted { IfOk result (FindsAtMost most) }
    ensures list { IfOk result (λ found. found.list.items ≡ listing.list.items) }
{
    schema.well_formed();
    reading_laws();
    let left = most - listing.list.len() as u64;
    let mut spots = mem::replace(&mut listing.spots, Spots::new(alloc, false));
    let references = match unserved(alloc, schema, left, &sieve, &listing, &mut spots) {
        Ok(references) => references,
        Err(NoMemory) => return Err(NoMemory),
    };
    let extent = extent_by(references.len() as u64, left);
    let Listing {
        list,
        statement,
        ..
    } = listing;
    if !is_nothing(&list, &references) {
        return Ok(Found {
            list,
            references,
            extent,
            accepted: None,
            well_formed: None,
            spots,
        });
    }
    match sieve.into_kept().into_accepted(statement) {
        Ok(accepted) => Ok(Found {
            list,
            references,
            extent,
            accepted: Some(accepted),
            well_formed: None,
            spots,
        }),
        Err(NoMemory) => Err(NoMemory),
    }
}

/// Whether nothing is refused.
pub(crate) fn is_nothing(list: &[Listed], references: &[Refusal]) -> bool
    ensures yes { IsTrue result → (list.now ≡ []) × (references.now ≡ []) }
    ensures no { result ≡ false → ¬ ((list.now ≡ []) × (references.now ≡ [])) }
{
    list.is_empty() && references.is_empty()
}

/// The references that no instance serves, up to so many. Notes what is wanted at them.
fn unserved(
    alloc: Global,
    schema: &Schema,
    most: u64,
    sieve: &Sieve,
    listing: &Listing,
    spots: &mut Spots,
) -> Result<Vec<Refusal>, NoMemory>
    ensures lists { IfOk result (λ references. ListsReferences schema.now sieve.now.kept.stored sieve.now.kept.waiting
        (silence_at_end (sieved sieve.now) listing.now) most [] references.items) }
    ensures counted { IfOk result (λ references. length references.items ≤ most) }
{
    let mut references = Vec::new(alloc);
    let silence = Silence {
        names: &sieve.names,
        passed: &listing.passed,
        is_broken: listing.is_broken,
    };
    match list_references(&sieve.kept, silence, schema, most, &mut references, spots) {
        Ok(()) => Ok(references),
        Err(NoMemory) => Err(NoMemory),
    }
}

/// How far a file that is read whole is listed, with so many references where so many were left.
pub(crate) fn extent_by(told: u64, left: u64) -> Extent
    ensures { TellsAll told left result }
{
    if told < left {
        Extent::Whole
    } else {
        Extent::Most
    }
}
