//! How a list ends: with a refusal behind which nothing is read, or since no more are asked for.
ghost use Rattle.std.specs.Prelude.{◌≡◌, ◌∷◌, ◌++◌, [], IfOk, OnOk, length, suc};
ghost use Rattle.p21_stream_survey.specs.Ending.{EndsAtStretch, EndsBy, EndsInterrupted, ListsRead};

use crate::listed::Extent;
use crate::listing::Listing;
use crate::noting::Noted;
use p21_stream_statements::{At, Fault};
use p21_values::NoMemory;

/// Ends the list with a refusal that begins behind so many bytes.
///
/// # Errors
///
/// `NoMemory`.
pub(crate) fn end_by(
    listing: &mut Listing,
    fault: Fault,
    at: At,
    begins: u64,
    noted: Noted<'_>,
) -> Result<Extent, NoMemory>
    ensures ends { IfOk result (λ extent. EndsBy listing.old fault at begins extent listing.new) }
    ensures extent { IfOk result (λ extent. extent ≡ Extent.ReadTo begins) }
    ensures listed { OnOk result (length listing.new.list.items ≡ suc (length listing.old.list.items)) }
    ensures list { OnOk result (listing.new.list.items ≡ listing.old.list.items
        ++ record { fault = fault; at = at; begins = begins } ∷ []) }
{
    match listing.list(fault, at, begins, noted) {
        Ok(()) => Ok(Extent::ReadTo(begins)),
        Err(NoMemory) => Err(NoMemory),
    }
}

/// Ends the list with a statement that would be passed over, where no more are asked for.
///
/// # Errors
///
/// `NoMemory`.
pub(crate) fn end_at_stretch(
    listing: &mut Listing,
    fault: Fault,
    at: At,
    begins: u64,
    noted: Noted<'_>,
) -> Result<Extent, NoMemory>
    ensures ends { IfOk result (λ extent. EndsAtStretch listing.old fault at begins extent listing.new) }
    ensures extent { IfOk result (λ extent. extent ≡ Extent.Most) }
    ensures listed { OnOk result (length listing.new.list.items ≡ suc (length listing.old.list.items)) }
    ensures list { OnOk result (listing.new.list.items ≡ listing.old.list.items
        ++ record { fault = fault; at = at; begins = begins } ∷ []) }
{
    match listing.list(fault, at, begins, noted) {
        Ok(()) => Ok(Extent::Most),
        Err(NoMemory) => Err(NoMemory),
    }
}

/// Ends the list where a read failed while a statement was passed over.
///
/// # Errors
///
/// `NoMemory`.
pub(crate) fn end_interrupted(
    listing: &mut Listing,
    fault: Fault,
    at: At,
    begins: u64,
    noted: Noted<'_>,
) -> Result<Extent, NoMemory>
    ensures ends { IfOk result (λ extent. EndsInterrupted listing.old fault at begins extent listing.new) }
    ensures extent { IfOk result (λ extent. extent ≡ Extent.ReadTo begins) }
    ensures listed { OnOk result (length listing.new.list.items ≡ suc (suc (length listing.old.list.items))) }
    ensures list { IfOk result (λ extent. ListsRead (listing.old.list.items ++ record { fault = fault; at = at; begins = begins } ∷ [])
        extent listing.new.list.items) }
{
    match listing.list(fault, at, begins, noted) {
        Ok(()) => {}
        Err(NoMemory) => return Err(NoMemory),
    }
    match listing.list(Fault::Read, At::Statement(listing.statement), begins, noted) {
        Ok(()) => Ok(Extent::ReadTo(begins)),
        Err(NoMemory) => Err(NoMemory),
    }
}
