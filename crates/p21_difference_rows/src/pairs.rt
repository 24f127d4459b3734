//! Rows of the names that two files share.
ghost use Rattle.std.specs.Prelude.{◌≡◌, ◌++◌, IfOk, OnOk};
ghost use Rattle.p21_difference_rows.specs.Pairs.{AddsPair, ArePairRows, FindsFirst, pair_line};
ghost use Rattle.p21_difference_rows.specs.RealNames.{by_map};
ghost use Rattle.p21_differences.specs.Lines.{AreLinesOf};
ghost use Rattle.p21_spec_file.specs.File.{FileMeaning};
ghost use Rattle.p21_spec_numbering.specs.Renamed.{names as names_of};
ghost use Rattle.p21_stream_store.specs.StoredInstance.{instance_names};

use crate::names::{push_both_named, real_name};
use crate::pushing::push_in_both;
use crate::row::RowForm;
use p21_differences::TwoFiles;
use p21_stream_output::Accepted;
use p21_values::{Name, NoMemory};
use std::alloc::Global;
use std::collections::BTreeMap;

/// A row for each name that both files have, by rising names: the pairs, where the first file stands under the names that its instances
/// have in the second one. `names` has for each of these the one that it really has.
///
/// # Errors
///
/// Want of memory.
pub fn pair_rows(
    alloc: Global,
    form: RowForm,
    names: &BTreeMap<u64, u64>,
    files: TwoFiles<'_>,
) -> Result<Vec<u8>, NoMemory>
    ensures { (a b : FileMeaning) → AreLinesOf files.entry.schema.now a files.entry.first.now.kept
        → AreLinesOf files.entry.schema.now b files.entry.second.now.kept →
        IfOk result (λ text. ArePairRows form (by_map names.now) (names_of a) (names_of b) text.items) }
{
    files.schema.well_formed();
    let mut text = Vec::new(alloc);
    let mut least: u64 = 0;
    while let Some(name) = first_name(files.second, least) {
        push_pair_of(alloc, form, names, files.first, name, &mut text)?;
        let Some(next) = name.checked_add(1) else {
            return Ok(text);
        };
        least = next;
    }
    Ok(text)
}

/// The first name of a file that is this one or above it.
fn first_name(file: &Accepted, least: u64) -> Option<u64>
    ensures { FindsFirst (instance_names file.now.kept) least result }
{
    match file.first_from(Name(least)) {
        Some((name, _)) => Some(name.0),
        None => None,
    }
}

/// Appends the row of a name, if this file has it too.
fn push_pair_of(
    alloc: Global,
    form: RowForm,
    names: &BTreeMap<u64, u64>,
    first: &Accepted,
    name: u64,
    text: &mut Vec<u8>,
) -> Result<(), NoMemory>
    ensures { OnOk result (AddsPair form (by_map names.now) (instance_names first.now.kept) name text.old.items text.new.items) }
{
    match first.line(Name(name)) {
        Some(_) => push_pair(alloc, form, names, name, text),
        None => Ok(()),
    }
}

/// Appends the row of a pair.
fn push_pair(
    alloc: Global,
    form: RowForm,
    names: &BTreeMap<u64, u64>,
    name: u64,
    text: &mut Vec<u8>,
) -> Result<(), NoMemory>
    ensures { OnOk result (text.new.items ≡ text.old.items ++ pair_line form (by_map names.now name) name) }
{
    let real = real_name(Some(names), name);
    match form {
        RowForm::Text => push_both_named(alloc, b"pair #", real, name, b"\n", text),
        RowForm::Json => { push_in_both(alloc, b"{\"kind\":\"pair\",", real, name, b"}\n", text) }
    }
}
