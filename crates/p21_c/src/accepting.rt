//! A file in memory, read under a schema.
ghost use Rattle.std.specs.Prelude.{IfErr, IfOk};
ghost use Rattle.p21_spec_basics.specs.Limits.{usual};
ghost use Rattle.p21_c.specs.Answers.{IsAcceptedText, RefusesText};
ghost use Rattle.p21_stream.specs.Claim.{Claim};

use p21_schema::Schema;
use p21_stream::{Expected, Indices, Located, Session, headline};
use p21_stream_output::Accepted;
use p21_stream_statements::Place;
use p21_values::Limits;
use std::alloc::Global;

/// Reads a file that lies in memory, without a copy of it.
///
/// # Errors
///
/// Those of a session, with where they stand.
pub(crate) fn accept_text(alloc: Global, schema: &Schema, text: &[u8]) -> Result<Accepted, Located>
    ensures ok { IfOk result (λ output. IsAcceptedText schema.now text.now output) }
    ensures err { IfErr result (λ located. RefusesText schema.now text.now located.refusal) }
{
    let limits = Limits::usual();
    headline(schema, limits);
    let mut session = Session::new(alloc, schema, limits);
    match session.feed(text) {
        Ok(()) => {}
        Err(refusal) => {
            return Err(Located {
                refusal,
                place: session.place(),
                attribute: session.attribute(),
                indices: session.indices(),
                expected: session.expected(),
            });
        }
    }
    let places = session.places();
    match session.finish() {
        Ok(accepted) => Ok(accepted),
        Err(refusal) => {
            Err(Located {
                refusal,
                place: Place::of(refusal.fault, places),
                attribute: None,
                indices: Indices::none(),
                expected: Expected::none(),
            })
        }
    }
}

/// The claim under a schema and the usual limits. It does nothing.
pub(crate) fn claim_under(schema: &Schema)
    ensures { Claim schema.now usual }
{
    let limits = Limits::usual();
    headline(schema, limits);
}
