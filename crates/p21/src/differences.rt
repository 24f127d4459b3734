//! The command `diff`.
ghost use Rattle.std.specs.Prelude.{IfErr, IfOk};
ghost use Rattle.p21.specs.Statuses.{IsOfCommand, IsUnopened};

use crate::commands::{Stopped, given, with_progress};
use crate::ignored::{names_in, words_given};
use crate::input::{Inputs, Kept};
use crate::notes::{Given, Wanted, note_files, note_listing};
use crate::tolerance::tolerance_given;
use clap::ArgMatches;
use p21_commands::{
    CommandFault, LeftOut, PairRows, RowForm, diff_by_pairs_command, diff_command, report,
};
use p21_stream_io::Watched;
use std::io::{Read, Write};

/// `diff S A B [--names] [--pairs] [--data] [--ignore ENTITY.ATTRIBUTE].. [--tolerance X] [--format FORM] [--progress]`.
pub fn run_diff<'a>(rt: &HostRuntime, found: &ArgMatches<'a>) -> Result<u8, Stopped<'a>>
    ensures ran { IfOk result IsOfCommand }
    ensures unopened { IfErr result IsUnopened }
{
    let form = match found.get_str("format") {
        Some("jsonl") => RowForm::Json,
        _ => RowForm::Text,
    };
    let mut inputs = Inputs::new();
    let (schema_path, a, b) = (given(found, "S"), given(found, "A"), given(found, "B"));
    let mut schema = Watched::new(Kept::new(inputs.open(rt, schema_path)?));
    let mut first = Watched::new(with_progress(rt, found, a, inputs.open(rt, a)?));
    let mut second = Watched::new(with_progress(rt, found, b, inputs.open(rt, b)?));
    let mut faults = Watched::new(Kept::new(rt.stderr()));
    let status = run_diff_without(
        rt,
        found,
        form,
        &mut schema,
        &mut first,
        &mut second,
        &mut faults,
    );
    let read_schema = schema.into_inner();
    let read_first = first.into_inner().into_inner();
    let read_second = second.into_inner().into_inner();
    let schema = Given::new(schema_path, Wanted::Schema, &read_schema);
    let first = Given::new(a, Wanted::Exchange, &read_first);
    let second = Given::new(b, Wanted::Exchange, &read_second);
    note_files(rt, status, "diff", schema, first, second);
    note_listing(rt, schema_path, faults.into_inner().front());
    Ok(status)
}

/// Lists what differs in two files and isn't left out.
fn run_diff_without<S: Read, A: Read, B: Read, F: Write>(
    rt: &HostRuntime,
    found: &ArgMatches<'_>,
    form: RowForm,
    schema: &mut Watched<S>,
    first: &mut Watched<A>,
    second: &mut Watched<B>,
    faults: &mut Watched<F>,
) -> u8
    ensures { IsOfCommand result }
{
    let words = match words_given(rt.alloc(), found) {
        Ok(words) => words,
        Err(fault) => return report(&fault, faults),
    };
    let Ok(attributes) = names_in(rt.alloc(), &words) else {
        return report(&CommandFault::NoMemory, faults);
    };
    let tolerance = match tolerance_given(rt.alloc(), found) {
        Ok(tolerance) => tolerance,
        Err(fault) => return report(&fault, faults),
    };
    let left_out = LeftOut {
        header: found.get_flag("data"),
        attributes: &attributes,
        tolerance,
    };
    let pairs = pairs_given(found);
    run_diff_over(rt, pairs, form, left_out, schema, first, second, faults)
}

/// Lists what differs in two files, by the names of their instances or by pairs of these.
fn run_diff_over<S: Read, A: Read, B: Read, F: Write>(
    rt: &HostRuntime,
    pairs: Option<PairRows>,
    form: RowForm,
    left_out: LeftOut<'_>,
    schema: &mut Watched<S>,
    first: &mut Watched<A>,
    second: &mut Watched<B>,
    faults: &mut Watched<F>,
) -> u8
    ensures { IsOfCommand result }
{
    let mut output = Watched::new(rt.stdout());
    match pairs {
        Some(pairs) => {
            diff_by_pairs_command(
                rt.alloc(),
                schema,
                first,
                second,
                form,
                left_out,
                pairs,
                &mut output,
                faults,
            )
        }
        None => {
            diff_command(
                rt.alloc(),
                schema,
                first,
                second,
                form,
                left_out,
                &mut output,
                faults,
            )
        }
    }
}

/// Whether the command line asks for pairs, and whether these are listed.
fn pairs_given(found: &ArgMatches<'_>) -> Option<PairRows> {
    if found.get_flag("pairs") {
        return Some(PairRows::Shown);
    }
    found.get_flag("names").then(|| PairRows::Hidden)
}
