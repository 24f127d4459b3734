//! What differs in two accepted files by pairs of their instances.
ghost use Rattle.std.specs.Prelude.{◌≡◌, IfErr, IfOk, false};
ghost use Rattle.p21_difference_rows.specs.Asked.{left_out_of};
ghost use Rattle.p21_difference_rows.specs.RealNames.{by_map};
ghost use Rattle.p21_differences.specs.Lines.{AreLinesOf};
ghost use Rattle.p21_paired_differences.specs.ByPairs.{HasNoList, IsAcceptedFile, ListsOfFiles, undecided_line};
ghost use Rattle.p21_paired_differences.specs.Shown.{IsBehindRows};
ghost use Rattle.p21_spec_file.specs.File.{FileMeaning};
ghost use Rattle.p21_spec_numbering.specs.Renamed.{names as names_of};
ghost use Rattle.p21_stream_output.specs.Output.{output_text};

use p21_difference_rows::{DifferenceList, LeftOut, RowForm, list_differences, pair_rows};
use p21_differences::{TwoFiles, lines_law};
use p21_numbered_file::{MOST_CHOICES, Unpaired, paired_file};
use p21_outlines::have_one_text;
use p21_schema::Schema;
use p21_spec_pairing::pairing_laws;
use p21_stream::{Accepted, headline};
use p21_values::{Limits, NoMemory};
use std::alloc::Global;
use std::collections::BTreeMap;

/// Whether a list has all pairs too, in front of what differs.
#[derive(Clone, Copy, Debug, PartialEq, Eq)]
pub enum PairRows {
    Hidden,
    Shown,
}

/// Lists what differs from one accepted file to another one by pairs of their instances, or says that it isn't decided.
///
/// # Errors
///
/// `TooLong` where the first file is under the names of its partners; `NoMemory`.
pub(crate) fn list_by_pairs(
    alloc: Global,
    schema: &Schema,
    limits: Limits,
    form: RowForm,
    left_out: LeftOut<'_>,
    pairs: PairRows,
    first: &Accepted,
    second: &Accepted,
) -> Result<DifferenceList, Unpaired>
    requires first { IsAcceptedFile schema.now limits first.now }
    requires second { IsAcceptedFile schema.now limits second.now }
    ensures list { IfOk result (λ found. ListsOfFiles form (left_out_of left_out.entry) pairs schema.now limits first.now second.now
        found.is_same
        found.is_empty found.text.items) }
    ensures none { IfErr result (λ fault. HasNoList schema.now limits (output_text first.now) (output_text second.now) fault) }
{
    headline(schema, limits);
    lines_law();
    pairing_laws();
    let paired = match paired_file(alloc, schema, limits, first, second, 0) {
        Ok(paired) => paired,
        Err(fault) => return Err(fault),
    };
    if paired.choices > MOST_CHOICES && !have_one_text(&paired.file, second) {
        let found = undecided(alloc, form)?;
        return Ok(found);
    }
    let files = TwoFiles {
        schema,
        first: &paired.file,
        second,
    };
    let found = list_differences(alloc, form, left_out, Some(&paired.old_names), files)?;
    let shown = with_pairs(alloc, form, pairs, &paired.old_names, files, found)?;
    Ok(shown)
}

/// The list as it is, or behind the rows of all pairs.
fn with_pairs(
    alloc: Global,
    form: RowForm,
    pairs: PairRows,
    names: &BTreeMap<u64, u64>,
    files: TwoFiles<'_>,
    list: DifferenceList,
) -> Result<DifferenceList, NoMemory>
    ensures same { IfOk result (λ shown. shown.is_same ≡ list.is_same) }
    ensures empty { IfOk result (λ shown. shown.is_empty ≡ list.is_empty) }
    ensures text { (a b : FileMeaning) → AreLinesOf files.entry.schema.now a files.entry.first.now.kept
        → AreLinesOf files.entry.schema.now b files.entry.second.now.kept →
        IfOk result (λ shown. IsBehindRows pairs form (by_map names.now) (names_of a) (names_of b) list.text.items shown.text.items) }
{
    match pairs {
        PairRows::Hidden => Ok(list),
        PairRows::Shown => {
            let mut text = pair_rows(alloc, form, names, files)?;
            text.extend_from_slice(&list.text)?;
            Ok(DifferenceList {
                text,
                is_same: list.is_same,
                is_empty: list.is_empty,
            })
        }
    }
}

/// What is said of files that differ by pairs of which too many were chosen.
fn undecided(alloc: Global, form: RowForm) -> Result<DifferenceList, NoMemory>
    ensures same { IfOk result (λ found. found.is_same ≡ false) }
    ensures empty { IfOk result (λ found. found.is_empty ≡ false) }
    ensures text { IfOk result (λ found. found.text.items ≡ undecided_line form) }
{
    let text = Vec::from_slice(alloc, undecided_line(form))?;
    Ok(DifferenceList {
        text,
        is_same: false,
        is_empty: false,
    })
}

/// The line that says so.
fn undecided_line(form: RowForm) -> &'static [u8]
    ensures { result.now ≡ undecided_line form }
{
    match form {
        RowForm::Text => b"not decided\n",
        RowForm::Json => b"{\"kind\":\"verdict\",\"verdict\":\"undecided\"}\n",
    }
}
