//! The command `same --names`.
ghost use Rattle.std.specs.Prelude.{◌≡◌, ◌⊎◌, IfErr, IfOk, OnOk, [], ◌∷◌};
ghost use Rattle.p21_spec_basics.specs.Limits.{usual};
ghost use Rattle.p21_commands.specs.Command.{FailsBy};
ghost use Rattle.p21_commands.specs.Failures.{FailedBy, NoneFailed, failures_of};
ghost use Rattle.p21_commands.specs.Same.{IsEither, IsFirstAccepted, read_of};
ghost use Rattle.p21_commands.specs.SameButForNames.{AreUnnumbered, EndsComparingButForNames, IsComparedButForNames};
ghost use Rattle.p21_commands.specs.Streams.{stream_of};
ghost use Rattle.p21_commands.specs.Transfer as text;
ghost use Rattle.p21_commands.specs.Transfer.{Writes};
ghost use Rattle.p21_stream.specs.ReaderInput.{ConsumesAtMost};

use crate::fault::{CommandFault, report};
use crate::load::load_schema;
use crate::numbered::fault_of_names;
use crate::same::{answer_line_of, word_of};
use crate::status::{DONE, REFUSED};
use crate::transfer::write_whole;
use p21_stream::Watched;
use p21_stream_numbered::same_but_for_names;
use p21_values::Limits;
use std::alloc::Global;
use std::io::{Read, Write};

/// Reads a schema and two files, the first to its end before the second, and writes to `output` whether they mean the same but for the names
/// of their instances; or to `faults` one line that says why that can't be told. Answers the exit status.
pub fn same_but_for_names_command<S: Read, A: Read, B: Read, W: Write, F: Write>(
    alloc: Global,
    schema: &mut Watched<S>,
    first: &mut Watched<A>,
    second: &mut Watched<B>,
    output: &mut Watched<W>,
    faults: &mut Watched<F>,
) -> u8
    ensures order { (second.new ≡ second.old) ⊎ IsFirstAccepted
        (read_of (S.remaining schema.old.inner) (A.remaining first.old.inner) (A.remaining first.new.inner) (B.remaining second.old.inner)
        (B.remaining second.new.inner)) }
    ensures consumed_schema { text.ConsumesAtMost (S.remaining schema.old.inner) (S.remaining schema.new.inner) }
    ensures consumed_first { ConsumesAtMost usual (A.remaining first.old.inner) (A.remaining first.new.inner) }
    ensures consumed_second { ConsumesAtMost usual (B.remaining second.old.inner) (B.remaining second.new.inner) }
    ensures ends { EndsComparingButForNames (record {
      schema = stream_of S.remaining schema.old schema.new;
      first = stream_of A.remaining first.old first.new;
      second = stream_of B.remaining second.old second.new;
      output = stream_of W.contents output.old output.new;
      faults = stream_of F.contents faults.old faults.new;
    }) result }
{
    match write_same_but_for_names(alloc, schema, first, second, output) {
        Ok(true) => DONE,
        Ok(false) => REFUSED,
        Err(fault) => report(&fault, faults),
    }
}

/// Writes whether two files mean the same but for the names of their instances, and says so.
fn write_same_but_for_names<S: Read, A: Read, B: Read, W: Write>(
    alloc: Global,
    schema: &mut Watched<S>,
    first: &mut Watched<A>,
    second: &mut Watched<B>,
    output: &mut Watched<W>,
) -> Result<bool, CommandFault>
    ensures ok { IfOk result (λ same. Writes (IsComparedButForNames
        (read_of (S.remaining schema.old.inner) (A.remaining first.old.inner) (A.remaining first.new.inner) (B.remaining second.old.inner)
        (B.remaining second.new.inner)) same) (W.contents output.old.inner) (W.contents output.new.inner)) }
    ensures err { let read = read_of (S.remaining schema.old.inner) (A.remaining first.old.inner) (A.remaining first.new.inner)
        (B.remaining second.old.inner) (B.remaining second.new.inner) in
        IfErr result (FailsBy (IsEither (IsComparedButForNames read)) (AreUnnumbered read) (W.contents output.old.inner) (W.contents output.new.inner)) }
    ensures order { (second.new ≡ second.old) ⊎ IsFirstAccepted
        (read_of (S.remaining schema.old.inner) (A.remaining first.old.inner) (A.remaining first.new.inner) (B.remaining second.old.inner)
        (B.remaining second.new.inner)) }
    ensures consumed_schema { text.ConsumesAtMost (S.remaining schema.old.inner) (S.remaining schema.new.inner) }
    ensures consumed_first { ConsumesAtMost usual (A.remaining first.old.inner) (A.remaining first.new.inner) }
    ensures consumed_second { ConsumesAtMost usual (B.remaining second.old.inner) (B.remaining second.new.inner) }

    ensures unfailed { OnOk result (NoneFailed (failures_of schema.old schema.new ∷ failures_of first.old first.new ∷ failures_of second.old
        second.new ∷ failures_of output.old output.new ∷ [])) }
    ensures failed { IfErr result (FailedBy (failures_of schema.old schema.new ∷ failures_of first.old first.new ∷ failures_of second.old
        second.new ∷ []) (failures_of output.old output.new ∷ [])) }
{
    let schema = load_schema(alloc, schema)?;
    let same = match same_but_for_names(alloc, &schema, Limits::usual(), first, second) {
        Ok(same) => same,
        Err((which, refusal)) => return Err(fault_of_names(alloc, word_of(which), refusal)),
    };
    match write_whole(output, answer_line_of(same)) {
        Ok(()) => Ok(same),
        Err(fault) => Err(fault),
    }
}
