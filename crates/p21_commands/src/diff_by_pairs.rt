//! The command `diff --names`.
ghost use Rattle.std.specs.Prelude.{◌≡◌, ◌⊎◌, IfErr, IfOk, OnOk, [], ◌∷◌};
ghost use Rattle.p21_spec_basics.specs.Limits.{usual};
ghost use Rattle.p21_commands.specs.Command.{FailsBy};
ghost use Rattle.p21_commands.specs.DiffByPairs.{IsListByPairs, IsUnpaired};
ghost use Rattle.p21_commands.specs.Failures.{FailedBy, NoneFailed, failures_of};
ghost use Rattle.p21_commands.specs.Same.{EndsBy, IsEither, IsFirstAccepted, read_in, read_of};
ghost use Rattle.p21_commands.specs.Streams.{PairStreams, stream_of};
ghost use Rattle.p21_commands.specs.Transfer as text;
ghost use Rattle.p21_commands.specs.Transfer.{Writes};
ghost use Rattle.p21_commands.specs.Unlisted.{IsUnlisted};
ghost use Rattle.p21_difference_rows.specs.Asked.{left_out_of};
ghost use Rattle.p21_stream.specs.ReaderInput.{ConsumesAtMost};

use crate::fault::{CommandFault, report};
use crate::file_fault::fault_of;
use crate::left_out::check_left_out;
use crate::load::load_schema;
use crate::same::word_of;
use crate::status::{DONE, REFUSED};
use crate::transfer::write_whole;
use p21_difference_rows::{LeftOut, RowForm};
use p21_paired_differences::{PairRows, paired_differences};
use p21_stream::Watched;
use p21_values::Limits;
use std::alloc::Global;
use std::io::{Read, Write};

/// Reads a schema and two files, the first to its end before the second, pairs their instances whatever their names are, and writes to
/// `output` all pairs, if they are wanted, and what differs by these, a row for each difference, and how many these are, or that it isn't
/// decided, but for what is left out; or to `faults` one line that says why there is no list. Answers the exit status.
pub fn diff_by_pairs_command<S: Read, A: Read, B: Read, W: Write, F: Write>(
    alloc: Global,
    schema: &mut Watched<S>,
    first: &mut Watched<A>,
    second: &mut Watched<B>,
    form: RowForm,
    left_out: LeftOut<'_>,
    pairs: PairRows,
    output: &mut Watched<W>,
    faults: &mut Watched<F>,
) -> u8
    ensures order { (second.new ≡ second.old) ⊎ IsFirstAccepted (read_of (S.remaining schema.old.inner) (A.remaining first.old.inner)
        (A.remaining first.new.inner) (B.remaining second.old.inner) (B.remaining second.new.inner)) }
    ensures consumed_schema { text.ConsumesAtMost (S.remaining schema.old.inner) (S.remaining schema.new.inner) }
    ensures consumed_first { ConsumesAtMost usual (A.remaining first.old.inner) (A.remaining first.new.inner) }
    ensures consumed_second { ConsumesAtMost usual (B.remaining second.old.inner) (B.remaining second.new.inner) }
    ensures ends { let streams : PairStreams = record {
      schema = stream_of S.remaining schema.old schema.new;
      first = stream_of A.remaining first.old first.new;
      second = stream_of B.remaining second.old second.new;
      output = stream_of W.contents output.old output.new;
      faults = stream_of F.contents faults.old faults.new;
    } in EndsBy (IsListByPairs form (left_out_of left_out.entry) pairs (read_in streams))
        (IsUnlisted (IsUnpaired (read_in streams)) (left_out_of left_out.entry) (read_in streams)) streams result }
{
    match write_by_pairs(alloc, schema, first, second, form, left_out, pairs, output) {
        Ok(true) => DONE,
        Ok(false) => REFUSED,
        Err(fault) => report(&fault, faults),
    }
}

/// Writes what differs in two files by pairs of their instances, and says whether nothing is listed.
#[tactic(auto, using(crate::proofs::Leaving::unpaired_schema_fails))]
fn write_by_pairs<S: Read, A: Read, B: Read, W: Write>(
    alloc: Global,
    schema: &mut Watched<S>,
    first: &mut Watched<A>,
    second: &mut Watched<B>,
    form: RowForm,
    left_out: LeftOut<'_>,
    pairs: PairRows,
    output: &mut Watched<W>,
) -> Result<bool, CommandFault>
    ensures ok { IfOk result (λ empty. Writes (IsListByPairs form (left_out_of left_out.entry) pairs
        (read_of (S.remaining schema.old.inner) (A.remaining first.old.inner) (A.remaining first.new.inner) (B.remaining second.old.inner)
        (B.remaining second.new.inner)) empty) (W.contents output.old.inner) (W.contents output.new.inner)) }
    ensures err { let read = read_of (S.remaining schema.old.inner) (A.remaining first.old.inner) (A.remaining first.new.inner)
        (B.remaining second.old.inner) (B.remaining second.new.inner) in
        IfErr result (FailsBy (IsEither (IsListByPairs form (left_out_of left_out.entry) pairs read))
        (IsUnlisted (IsUnpaired read) (left_out_of left_out.entry) read) (W.contents output.old.inner) (W.contents output.new.inner)) }
    ensures order { (second.new ≡ second.old) ⊎ IsFirstAccepted (read_of (S.remaining schema.old.inner) (A.remaining first.old.inner)
        (A.remaining first.new.inner) (B.remaining second.old.inner) (B.remaining second.new.inner)) }
    ensures consumed_schema { text.ConsumesAtMost (S.remaining schema.old.inner) (S.remaining schema.new.inner) }
    ensures consumed_first { ConsumesAtMost usual (A.remaining first.old.inner) (A.remaining first.new.inner) }
    ensures consumed_second { ConsumesAtMost usual (B.remaining second.old.inner) (B.remaining second.new.inner) }

    ensures unfailed { OnOk result (NoneFailed (failures_of schema.old schema.new ∷ failures_of first.old first.new ∷ failures_of second.old
        second.new ∷ failures_of output.old output.new ∷ [])) }
    ensures failed { IfErr result (FailedBy (failures_of schema.old schema.new ∷ failures_of first.old first.new ∷ failures_of second.old
        second.new ∷ []) (failures_of output.old output.new ∷ [])) }
{
    let schema = load_schema(alloc, schema)?;
    check_left_out(alloc, &schema, left_out)?;
    let found = match paired_differences(
        alloc,
        &schema,
        Limits::usual(),
        form,
        left_out,
        pairs,
        first,
        second,
    ) {
        Ok(found) => found,
        Err((which, refusal)) => return Err(fault_of(alloc, word_of(which), refusal)),
    };
    match write_whole(output, &found.text) {
        Ok(()) => Ok(found.is_empty),
        Err(fault) => Err(fault),
    }
}
