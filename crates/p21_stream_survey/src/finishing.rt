//! The end of a file: a statement in which it ends is passed over or ends the list, and so does a stretch that is open there. Where nothing
//! is to be passed over the kept bytes are a file, or the file ends early.
ghost use Rattle.std.specs.Prelude.{◌≡◌, ◌<◌, ◌∷◌, ◌++◌, [], ℕ, IfOk, IsTrue, OnOk, false, length, suc};
ghost use Rattle.p21_spec_survey.specs.Survey.{BeginsWithEnd};
ghost use Rattle.p21_stream_log.specs.Opening.{OpensAs};
ghost use Rattle.p21_stream_log.specs.Passage.{GoesOnAt};
ghost use Rattle.p21_stream_log.specs.declared.opening.Opening.TheVariants.{SectionEnd};
ghost use Rattle.p21_stream_statements.specs.Fault.{fault_number};
ghost use Rattle.p21_stream_survey.specs.Ending.{ListsRead};
ghost use Rattle.p21_stream_survey.specs.Finishing.{CountsEnd, CountsPassed, EndsSought, EndsStatement, EndsUnread, EndsWithRefusal};
ghost use Rattle.p21_stream_survey.specs.Finishing.{FindsAtEnd, FindsRefusal, InterruptsSought, IsEnded, PassesEnded, StandsAtEnd};
ghost use Rattle.p21_stream_survey.specs.Finishing.{TellsEnd, end_fault};
ghost use Rattle.p21_stream_survey.specs.Found.{FindsAtMost};
ghost use Rattle.p21_stream_survey.specs.Keeping.{rules_of, sifted_of};
ghost use Rattle.p21_stream_survey.specs.Kinds.{AreOfFile, IsOfFile};

use crate::breaking::is_gone_on_behind;
use crate::ending::{end_at_stretch, end_by, end_interrupted};
use crate::going::list_passed;
use crate::keeper::Keeper;
use crate::listed::{Extent, Found};
use crate::listing::Listing;
use crate::noting::Noted;
use crate::serving::find_references;
use p21_grammar::GrammarFault;
use p21_stream_log::{Log, Opening, Passage, ends_within, log_laws, opening_of};
use p21_stream_statements::{At, Fault};
use p21_tokens::TokenFault;
use p21_values::{Limits, NoMemory};
use std::alloc::Global;

/// What comes of the statement in which a file ends.
#[derive(Clone, Copy, Debug, PartialEq, Eq)]
pub(crate) enum Ended {
    /// The list ends with it.
    Listed(Extent),
    /// It is passed over by so many of its bytes. Those from there on are to be read again.
    PassedOver(usize),
    /// It isn't to be passed over, or none is open: the file ends there.
    AtFileEnd,
}

/// Passes over the statement in which a file ends, which has these bytes, or ends the list with it, where it is to be passed over. Up to so
/// many are listed.
///
/// # Errors
///
/// `NoMemory`.
pub(crate) fn end_statement(
    log: &mut Log,
    listing: &mut Listing,
    alloc: Global,
    limits: Limits,
    most: u64,
    bytes: &[u8],
) -> Result<Ended, NoMemory>
    ensures ends { IfOk result (λ ended. EndsStatement limits log.old listing.old bytes.now ended log.new listing.new) }
    ensures counts { length listing.old.list.items < most
        → IfOk result (λ ended. CountsEnd most (length listing.old.list.items) ended (length listing.new.list.items)) }
    ensures of_file { AreOfFile listing.old.list.items → OnOk result (AreOfFile listing.new.list.items) }
{
    log_laws();
    let _most = limits.file_source();
    if !log.is_in_data() {
        return Ok(Ended::AtFileEnd);
    }
    if begins_with_end(bytes) {
        return Ok(Ended::AtFileEnd);
    }
    let fault = match ends_within(alloc, limits, bytes) {
        Ok(fault) => fault,
        Err(NoMemory) => return Err(NoMemory),
    };
    if !is_gone_on_behind(fault) {
        return Ok(Ended::AtFileEnd);
    }
    let begins = log.begins_in(bytes);
    let noted = Noted::of(log, fault, bytes);
    if (listing.list.len() as u64).saturating_add(1) >= most {
        let at = At::Statement(listing.statement);
        return match end_at_stretch(listing, fault, at, begins, noted) {
            Ok(extent) => Ok(Ended::Listed(extent)),
            Err(NoMemory) => Err(NoMemory),
        };
    }
    match pass_ended(log, listing, alloc, fault, begins, bytes, noted) {
        Ok(Passage::GoesOn(count)) => Ok(Ended::PassedOver(count)),
        Ok(Passage::AtFileMark) => end_with(listing, fault, begins, noted),
        Ok(Passage::TooLong) => {
            end_with(
                listing,
                Fault::Token(TokenFault::FileTooLong),
                begins,
                noted,
            )
        }
        Ok(Passage::Sought(_)) => end_with(listing, fault, begins, noted),
        Err(NoMemory) => Err(NoMemory),
    }
}

/// Ends the list with a refusal of the next statement, which begins behind so many bytes.
pub(crate) fn end_with(
    listing: &mut Listing,
    fault: Fault,
    begins: u64,
    noted: Noted<'_>,
) -> Result<Ended, NoMemory>
    ensures ends { IfOk result (λ ended. EndsWithRefusal listing.old fault begins ended listing.new) }
    ensures listed { OnOk result (length listing.new.list.items ≡ suc (length listing.old.list.items)) }
    ensures counts { (most : ℕ) → length listing.old.list.items < most
        → IfOk result (λ ended. CountsEnd most (length listing.old.list.items) ended (length listing.new.list.items)) }
    ensures of_file { IsOfFile (fault_number fault) → AreOfFile listing.old.list.items → OnOk result (AreOfFile listing.new.list.items) }
{
    let at = At::Statement(listing.statement);
    match end_by(listing, fault, at, begins, noted) {
        Ok(extent) => Ok(Ended::Listed(extent)),
        Err(NoMemory) => Err(NoMemory),
    }
}

/// Passes over a statement in which a file ends, and lists it where the reading goes on.
fn pass_ended(
    log: &mut Log,
    listing: &mut Listing,
    alloc: Global,
    fault: Fault,
    begins: u64,
    bytes: &[u8],
    noted: Noted<'_>,
) -> Result<Passage, NoMemory>
    ensures passes { IfOk result (λ passage. PassesEnded log.old listing.old fault begins bytes.now passage log.new listing.new) }
    ensures begins { IfOk result (λ passage. GoesOnAt log.old passage log.new) }
    ensures counts { IfOk result (λ passage. CountsPassed (length listing.old.list.items) passage (length listing.new.list.items)) }
    ensures of_file { IsOfFile (fault_number fault) → AreOfFile listing.old.list.items → OnOk result (AreOfFile listing.new.list.items) }
{
    log_laws();
    match log.pass(alloc, bytes, &[]) {
        Ok(Passage::GoesOn(count)) => list_passed(
            listing,
            fault,
            begins,
            count,
            bytes.len(),
            noted,
        ),
        Ok(Passage::AtFileMark) => Ok(Passage::AtFileMark),
        Ok(Passage::TooLong) => Ok(Passage::TooLong),
        Ok(Passage::Sought(seeker)) => Ok(Passage::Sought(seeker)),
        Err(NoMemory) => Err(NoMemory),
    }
}

/// Ends the list with a statement that was passed over up to the end of the file, where no landmark came. It begins behind so many bytes.
///
/// # Errors
///
/// `NoMemory`.
pub(crate) fn end_sought(
    listing: &mut Listing,
    fault: Fault,
    begins: u64,
    noted: Noted<'_>,
) -> Result<Extent, NoMemory>
    ensures ends { IfOk result (λ extent. EndsSought listing.old fault begins extent listing.new) }
    ensures extent { IfOk result (λ extent. extent ≡ Extent.ReadTo begins) }
    ensures listed { OnOk result (length listing.new.list.items ≡ suc (length listing.old.list.items)) }
    ensures list { OnOk result (listing.new.list.items ≡ listing.old.list.items
        ++ record { fault = fault; at = At.Statement listing.old.statement; begins = begins } ∷ []) }
{
    log_laws();
    let at = At::Statement(listing.statement);
    match end_by(listing, fault, at, begins, noted) {
        Ok(extent) => Ok(extent),
        Err(NoMemory) => Err(NoMemory),
    }
}

/// Ends the list where a read failed, with the statement that was open, which has these bytes.
///
/// # Errors
///
/// `NoMemory`.
pub(crate) fn end_unread(
    log: &Log,
    listing: &mut Listing,
    limits: Limits,
    bytes: &[u8],
) -> Result<Extent, NoMemory>
    ensures ends { IfOk result (λ extent. EndsUnread limits log.now listing.old bytes.now extent listing.new) }
    ensures extent { IfOk result (λ extent. (begins : ℕ) × (extent ≡ Extent.ReadTo begins)) }
    ensures listed { OnOk result (length listing.new.list.items ≡ suc (length listing.old.list.items)) }
    ensures reads { IfOk result (λ extent. ListsRead listing.old.list.items extent listing.new.list.items) }
{
    let _most = limits.file_source();
    let begins = log.begins_in(bytes);
    let at = At::Statement(listing.statement);
    match end_by(
        listing,
        Fault::Read,
        at,
        begins,
        Noted::of(log, Fault::Read, bytes),
    ) {
        Ok(extent) => Ok(extent),
        Err(NoMemory) => Err(NoMemory),
    }
}

/// Ends the list where a read failed while a statement was passed over. It begins behind so many bytes.
///
/// # Errors
///
/// `NoMemory`.
pub(crate) fn interrupt_sought(
    listing: &mut Listing,
    fault: Fault,
    begins: u64,
    noted: Noted<'_>,
) -> Result<Extent, NoMemory>
    ensures ends { IfOk result (λ extent. InterruptsSought listing.old fault begins extent listing.new) }
    ensures extent { IfOk result (λ extent. extent ≡ Extent.ReadTo begins) }
    ensures listed { OnOk result (length listing.new.list.items ≡ suc (suc (length listing.old.list.items))) }
    ensures reads { IfOk result (λ extent. ListsRead (listing.old.list.items
        ++ record { fault = fault; at = At.Statement listing.old.statement; begins = begins } ∷ []) extent listing.new.list.items) }
{
    let at = At::Statement(listing.statement);
    match end_interrupted(listing, fault, at, begins, noted) {
        Ok(extent) => Ok(extent),
        Err(NoMemory) => Err(NoMemory),
    }
}

/// What is found of a file behind whose last statement nothing is to be passed over: it ends there, or early. Up to so many are listed, and
/// fewer are by now.
///
/// # Errors
///
/// `NoMemory`.
pub(crate) fn finish_file(
    alloc: Global,
    limits: Limits,
    most: u64,
    log: Log,
    keeper: Keeper<'_>,
    listing: Listing,
) -> Result<Found, NoMemory>
    requires stands { StandsAtEnd (rules_of keeper) log (sifted_of keeper) listing }
    requires fewer { length listing.list.items < most }
    ensures finds { IfOk result (FindsAtEnd (rules_of keeper.entry) limits log (sifted_of keeper.entry) listing) }
    ensures counted { IfOk result (FindsAtMost most) }
    ensures of_file { AreOfFile listing.list.items → IfOk result (λ found. AreOfFile found.list.items) }
{
    log_laws();
    let _most = limits.file_source();
    let bytes = match log.bytes_with(alloc, &[]) {
        Ok(bytes) => bytes,
        Err(NoMemory) => return Err(NoMemory),
    };
    let begins = log.begins_in(&bytes);
    let is_told = tells_end(&log, &bytes);
    let noted = Noted::of(&log, Fault::Grammar(GrammarFault::Unexpected), &bytes);
    match log.finish() {
        Ok(()) => find_references(alloc, most, keeper, listing),
        Err(fault) => match fault {
            Fault::NoMemory => Err(NoMemory),
            _ => find_refusal(
                alloc,
                listing,
                most,
                end_fault(fault, is_told),
                begins,
                noted,
            ),
        },
    }
}

/// Whether the file ends within a statement that isn't passed over, which has these bytes.
fn tells_end(log: &Log, bytes: &[u8]) -> bool
    ensures { IsTrue result → TellsEnd log.now bytes.now }
{
    if !log.is_in_data() {
        return true;
    }
    begins_with_end(bytes)
}

/// Whether the statement with these bytes begins with ENDSEC.
fn begins_with_end(bytes: &[u8]) -> bool
    ensures yes { IsTrue result → OpensAs bytes.now SectionEnd }
    ensures no { result ≡ false → ¬ BeginsWithEnd bytes.now }
{
    match opening_of(bytes) {
        Opening::SectionEnd => true,
        Opening::Statement => false,
        Opening::Untold => false,
    }
}

/// The refusal of the end of a file: within a statement that would be passed over it ends early.
fn end_fault(fault: Fault, is_told: bool) -> Fault
    ensures { result ≡ end_fault fault is_told }
{
    if is_told {
        fault
    } else {
        Fault::Grammar(GrammarFault::EndsEarly)
    }
}

/// What is found of a file whose reading ends with a refusal of the next statement, which begins behind so many bytes.
fn find_refusal(
    alloc: Global,
    mut listing: Listing,
    most: u64,
    fault: Fault,
    begins: u64,
    noted: Noted<'_>,
) -> Result<Found, NoMemory>
    requires fewer { length listing.list.items < most }
    ensures finds { IfOk result (FindsRefusal listing fault begins) }
    ensures counted { IfOk result (FindsAtMost most) }
    ensures of_file { IsOfFile (fault_number fault) → AreOfFile listing.list.items → IfOk result (λ found. AreOfFile found.list.items) }
{
    let at = At::Statement(listing.statement);
    match end_by(&mut listing, fault, at, begins, noted) {
        Ok(extent) => Ok(found(alloc, listing, extent)),
        Err(NoMemory) => Err(NoMemory),
    }
}

/// What is found of a file whose list has ended.
pub(crate) fn found(alloc: Global, listing: Listing, extent: Extent) -> Found
    ensures { IsEnded listing extent result }
{
    let Listing { list, spots, .. } = listing;
    Found {
        list,
        references: Vec::new(alloc),
        extent,
        accepted: None,
        well_formed: None,
        spots,
    }
}
