//! The list of what differs in two files.
ghost use Rattle.std.specs.Prelude.{◌≡◌, ◌++◌, ◌↔◌, IfOk, IsTrue, OnOk, length};
ghost use Rattle.p21_difference_rows.specs.Asked.{left_out_of};
ghost use Rattle.p21_difference_rows.specs.Fronts.{end_front, first_front, same_line};
ghost use Rattle.p21_difference_rows.specs.Listed.{IsList, IsListOfOthers, IsListOfSame};
ghost use Rattle.p21_difference_rows.specs.RealNames.{real_name};
ghost use Rattle.p21_difference_rows.specs.Steps.{AddsFirst, AddsRest};
ghost use Rattle.p21_differences.specs.Lines.{AreLinesOf};
ghost use Rattle.p21_spec_differences.specs.LeftOut.{leaves_out};
ghost use Rattle.p21_spec_file.specs.File.{FileMeaning};
ghost use Rattle.p21_stream_output.specs.Output.{output_text};

use crate::instances::list_instances;
use crate::left_out::{LeftOut, leaves_out};
use crate::outlines::list_outlines;
use crate::pushing::{push, push_rest};
use crate::row::{RowForm, Style};
use crate::rows::Rows;
use crate::said::{counts_of, words_of};
use p21_differences::TwoFiles;
use p21_outlines::have_one_text;
use p21_values::NoMemory;
use std::alloc::Global;
use std::collections::BTreeMap;

/// What differs in two files, a line for each difference that isn't left out and a last one; whether nothing differs, and whether
/// nothing is listed. Files that differ have an empty list only where something is left out.
#[derive(Drop)]
pub struct DifferenceList {
    pub text: Vec<u8>,
    pub is_same: bool,
    pub is_empty: bool,
}

/// The text of a list, and whether it has no row.
#[derive(Drop)]
struct Listed {
    text: Vec<u8>,
    is_empty: bool,
}

/// Lists what differs from one accepted file to another one of its schema: in their headers, in their data sections, and in their
/// instances by their names. What is to be left out isn't listed, and a first line says so.
///
/// The first file may stand under other names than its own, as those that its instances have in the second one: `names` then has for each
/// of these the one that it really has, and rows show both. A row about an instance that came or went has the one name that there is.
///
/// # Errors
///
/// Want of memory.
pub fn list_differences(
    alloc: Global,
    form: RowForm,
    left_out: LeftOut<'_>,
    names: Option<&BTreeMap<u64, u64>>,
    files: TwoFiles<'_>,
) -> Result<DifferenceList, NoMemory>
    ensures same { IfOk result (λ found. IsTrue found.is_same ↔ (output_text files.entry.first.now ≡ output_text files.entry.second.now)) }
    ensures list { (a b : FileMeaning) → AreLinesOf files.entry.schema.now a files.entry.first.now.kept
        → AreLinesOf files.entry.schema.now b files.entry.second.now.kept →
        IfOk result (λ found. IsList form files.entry.schema.now (real_name names.entry) (left_out_of left_out.entry) a b found.is_same
        found.is_empty found.text.items) }
{
    let is_same = have_one_text(files.first, files.second);
    let style = Style {
        alloc,
        form,
        schema: files.schema,
        names,
        left_out,
        second: files.second,
    };
    let listed = match is_same {
        true => list_of_same(&style)?,
        false => list_of_others(&style, files)?,
    };
    Ok(DifferenceList {
        text: listed.text,
        is_same,
        is_empty: listed.is_empty,
    })
}

/// The list of files that mean the same.
fn list_of_same(style: &Style<'_>) -> Result<Listed, NoMemory>
    ensures { IfOk result (λ found. IsListOfSame style.now.form (left_out_of style.now.left_out) found.is_empty found.text.items) }
{
    let mut text = Vec::new(style.alloc);
    push_first(style, &mut text)?;
    push(same_line(style.form), &mut text)?;
    Ok(Listed {
        text,
        is_empty: true,
    })
}

/// The line of files that mean the same.
fn same_line(form: RowForm) -> &'static [u8]
    ensures { result.now ≡ same_line form }
{
    match form {
        RowForm::Text => b"same\n",
        RowForm::Json => {
            b"{\"kind\":\"verdict\",\"verdict\":\"same\",\"changed\":0,\"came\":0,\"went\":0}\n"
        }
    }
}

/// The list of files that don't.
fn list_of_others(style: &Style<'_>, files: TwoFiles<'_>) -> Result<Listed, NoMemory>
    ensures { (a b : FileMeaning) → AreLinesOf style.now.schema.now a files.entry.first.now.kept
        → AreLinesOf style.now.schema.now b files.entry.second.now.kept →
        IfOk result (λ found. IsListOfOthers style.now.form style.now.schema.now (real_name style.now.names)
        (left_out_of style.now.left_out) a b found.is_empty found.text.items) }
{
    let mut rows = Rows::new(style.alloc);
    push_first(style, &mut rows.text)?;
    let begin = rows.text.len();
    list_outlines(style, files.first, files.second, &mut rows)?;
    list_instances(style, files.first, files.second, &mut rows)?;
    let is_empty = is_left_empty(style, &rows, begin);
    push_end(style, &mut rows)?;
    Ok(Listed {
        text: rows.text,
        is_empty,
    })
}

/// Whether something is left out and no row stands behind the first line, which ends here.
fn is_left_empty(style: &Style<'_>, rows: &Rows, begin: usize) -> bool
    ensures { IsTrue result ↔ (IsTrue (leaves_out (left_out_of style.now.left_out)) × (length rows.now.text.items ≡ begin)) }
{
    if !leaves_out(style.left_out) {
        return false;
    }
    rows.text.len() == begin
}

/// Appends the line that says what is left out, if something is.
fn push_first(style: &Style<'_>, text: &mut Vec<u8>) -> Result<(), NoMemory>
    ensures { OnOk result (AddsFirst style.now.form (leaves_out (left_out_of style.now.left_out)) text.old.items text.new.items) }
{
    if !leaves_out(style.left_out) {
        return Ok(());
    }
    let words = words_of(style)?;
    push(first_front(style.form), text)?;
    push_rest(&words, text)
}

/// The beginning of that line.
fn first_front(form: RowForm) -> &'static [u8]
    ensures { result.now ≡ first_front form }
{
    match form {
        RowForm::Text => b"left out: ",
        RowForm::Json => b"{\"kind\":\"left out\",",
    }
}

/// Appends the last line: how many rows there are of each kind, and how many differences were left out.
fn push_end(style: &Style<'_>, rows: &mut Rows) -> Result<(), NoMemory>
    ensures { OnOk result (AddsRest (rows.old.text.items ++ end_front style.now.form) rows.new.text.items) }
{
    let counts = counts_of(style, rows)?;
    push(end_front(style.form), &mut rows.text)?;
    push_rest(&counts, &mut rows.text)
}

/// The beginning of the last line.
fn end_front(form: RowForm) -> &'static [u8]
    ensures { result.now ≡ end_front form }
{
    match form {
        RowForm::Text => b"different: ",
        RowForm::Json => b"{\"kind\":\"verdict\",\"verdict\":\"different\",",
    }
}
