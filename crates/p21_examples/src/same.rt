//! Answers whether two readers hold the same model.

ghost use Rattle.std.specs.Prelude.{IfErr, IfOk};
ghost use Rattle.p21_examples.specs.Comparing.{IsRefusedOf, TellsSame};

use p21_stream::{Limits, Refusal, Schema, Watched, Which, same_meaning};
use std::alloc::Global;
use std::io::Read;

/// Whether two readers hold the same model under a schema. The second is read only where the first is accepted.
///
/// # Errors
///
/// Which of the two is refused, and its refusal.
pub fn hold_the_same<R: Read + Drop, S: Read + Drop>(
    alloc: Global,
    schema: &Schema,
    limits: Limits,
    first: R,
    second: S,
) -> Result<bool, (Which, Refusal)>
    ensures same { IfOk result (TellsSame schema.now limits (R.remaining first) (S.remaining second)) }
    ensures refused { IfErr result (λ answer. IsRefusedOf schema.now limits (R.remaining first) (S.remaining second) answer.0 answer.1.fault) }
{
    let mut first = Watched::new(first);
    let mut second = Watched::new(second);
    same_meaning(alloc, schema, limits, &mut first, &mut second)
}
