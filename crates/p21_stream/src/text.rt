//! The canonical file of a text.
ghost use Rattle.std.specs.Prelude.{◌≡◌, ◌≢◌, IfErr, IfOk};
ghost use Rattle.p21_spec_basics.specs.Limits.{AreLimits};
ghost use Rattle.p21_spec_file.specs.Accepted.{IsAccepted};
ghost use Rattle.p21_spec_schema.specs.WellFormed.{IsWellFormed};
ghost use Rattle.p21_stream.specs.Answers.{AreReadInOneWay, IsOnlyCanonicalFile};
ghost use Rattle.p21_stream.specs.Claim.{Claim};
ghost use Rattle.p21_stream.specs.ReaderInput.{IsOfBytes};
ghost use Rattle.p21_stream_output.specs.Output.{output_text};

use crate::claim::headline;
use crate::located::Located;
use crate::session::Session;
use p21_schema::Schema;
use p21_stream_io::Watched;
use p21_stream_output::Accepted;
use p21_stream_sieve::Indices;
use p21_stream_statements::{Expected, Fault, Place, Refusal};
use p21_values::Limits;
use std::alloc::Global;

/// The canonical file of a text that holds a file.
///
/// # Errors
///
/// Those of a session.
pub fn canonical(
    alloc: Global,
    schema: &Schema,
    limits: Limits,
    text: &[u8],
) -> Result<Vec<u8>, Refusal>
    ensures ok { IfOk result (λ canonical. IsOnlyCanonicalFile schema.now limits text.now canonical.items) }
    ensures err { IfErr result (λ refusal. refusal.fault ≢ Fault.NoMemory → ¬ IsAccepted schema.now limits text.now) }
    ensures kind { IfErr result (λ refusal. IsOfBytes refusal.fault) }
    ensures in_one_way { AreReadInOneWay schema.now text.now }
    ensures claim { Claim schema.now limits }
{
    match canonical_located(alloc, schema, limits, text) {
        Ok(canonical) => Ok(canonical),
        Err(located) => Err(located.refusal),
    }
}

/// As `canonical`, with where a refusal stands.
///
/// # Errors
///
/// Those of a session.
pub fn canonical_located(
    alloc: Global,
    schema: &Schema,
    limits: Limits,
    text: &[u8],
) -> Result<Vec<u8>, Located>
    ensures ok { IfOk result (λ canonical. IsOnlyCanonicalFile schema.now limits text.now canonical.items) }
    ensures err { IfErr result (λ located. located.refusal.fault ≢ Fault.NoMemory → ¬ IsAccepted schema.now limits text.now) }
    ensures kind { IfErr result (λ located. IsOfBytes located.refusal.fault) }
    ensures in_one_way { AreReadInOneWay schema.now text.now }
    ensures claim { Claim schema.now limits }
{
    headline(schema, limits);
    canonical_of(alloc, schema, limits, text)
}

/// The canonical file of a text, under limits and a schema of which the claim holds.
fn canonical_of(
    alloc: Global,
    schema: &Schema,
    limits: Limits,
    text: &[u8],
) -> Result<Vec<u8>, Located>
    requires formed { IsWellFormed schema.now }
    requires limits { AreLimits limits }
    ensures ok { IfOk result (λ canonical. IsOnlyCanonicalFile schema.now limits text.now canonical.items) }
    ensures err { IfErr result (λ located. located.refusal.fault ≢ Fault.NoMemory → ¬ IsAccepted schema.now limits text.now) }
    ensures kind { IfErr result (λ located. IsOfBytes located.refusal.fault) }
{
    let mut session = Session::new(alloc, schema, limits);
    match session.feed(text) {
        Ok(()) => {}
        Err(refusal) => {
            return Err(Located {
                refusal,
                place: session.place(),
                attribute: session.attribute(),
                indices: session.indices(),
                expected: session.expected(),
            });
        }
    }
    let places = session.places();
    let accepted = match session.finish() {
        Ok(accepted) => accepted,
        Err(refusal) => {
            return Err(Located {
                refusal,
                place: Place::of(refusal.fault, places),
                attribute: None,
                indices: Indices::none(),
                expected: Expected::none(),
            });
        }
    };
    match text_of(alloc, &accepted) {
        Ok(text) => Ok(text),
        Err(refusal) => Err(Located {
            refusal,
            place: None,
            attribute: None,
            indices: Indices::none(),
            expected: Expected::none(),
        }),
    }
}

/// The canonical file of an accepted one.
///
/// # Errors
///
/// `NoMemory` alone: a vector takes all bytes for which there is room.
pub(crate) fn text_of(alloc: Global, accepted: &Accepted) -> Result<Vec<u8>, Refusal>
    ensures ok { IfOk result (λ text. text.items ≡ output_text accepted.now) }
    ensures err { IfErr result (λ refusal. refusal.fault ≡ Fault.NoMemory) }
{
    let mut writer = Watched::new(Vec::new(alloc));
    match accepted.write_to(&mut writer) {
        Ok(()) => Ok(writer.into_inner()),
        Err(refusal) => Err(Refusal {
            fault: Fault::NoMemory,
            at: refusal.at,
        }),
    }
}
