//! A header in words.
ghost use Rattle.std.specs.Prelude.{◌≡◌, ◌++◌, ◌∷◌, [], OnOk, codes, map};
ghost use Rattle.std.specs.Result.{IfOk};
ghost use Rattle.std.specs.List.{flat_map};
ghost use Rattle.p21_grammar_tree.specs.View.{key_view, part_view, part_views, view};
ghost use Rattle.p21_syntax_words.specs.HeaderText.{file_description_words, file_name_words, file_schema_words, header_text, is_keyword, key_text, record_lines, values_lines};

use crate::keys::push_key;
use crate::values::push_first;
use p21_grammar_tree::{Key, Param, Part};
use p21_values::NoMemory;
use std::alloc::Global;

/// The records of a header in words, a line for each of their texts: `description`, `implementation level`, `file name`,
/// `time stamp`, `author`, `organization`, `preprocessor version`, `originating system`, `authorization` and `schema` (ISO
/// 10303-21, header section). A further record has a line with its keyword.
///
/// # Errors
///
/// `NoMemory`.
pub fn header_words(alloc: Global, header: &[Part]) -> Result<Vec<u8>, NoMemory>
    ensures { IfOk result (λ text. text.items ≡ header_text (part_views header.now)) }
{
    let mut text = Vec::new(alloc);
    for part in header {
        push_record(&mut text, part)?;
    }
    Ok(text)
}

/// Appends the lines of a record.
fn push_record(out: &mut Vec<u8>, part: &Part) -> Result<(), NoMemory>
    ensures { OnOk result (out.new.items ≡ out.old.items ++ record_lines (part_view part.now)) }
{
    if is_keyword(&part.key, b"FILE_DESCRIPTION") {
        return push_file_description(out, part.params.items());
    }
    if is_keyword(&part.key, b"FILE_NAME") {
        return push_file_name(out, part.params.items());
    }
    if is_keyword(&part.key, b"FILE_SCHEMA") {
        return push_file_schema(out, part.params.items());
    }
    push_further(out, &part.key)
}

/// Whether a key is this keyword, and no user keyword.
fn is_keyword(key: &Key, word: &[u8]) -> bool
    ensures { result ≡ is_keyword (key_view key.now) word.now }
{
    !key.user && key.word.bytes() == word
}

fn push_file_description(out: &mut Vec<u8>, values: &[Param]) -> Result<(), NoMemory>
    ensures { OnOk result (out.new.items ≡ out.old.items ++ values_lines file_description_words (map view values.now)) }
{
    let values = push_first(out, "description", values)?;
    push_first(out, "implementation level", values)?;
    Ok(())
}

fn push_file_name(out: &mut Vec<u8>, values: &[Param]) -> Result<(), NoMemory>
    ensures { OnOk result (out.new.items ≡ out.old.items ++ values_lines file_name_words (map view values.now)) }
{
    let values = push_first(out, "file name", values)?;
    let values = push_first(out, "time stamp", values)?;
    let values = push_first(out, "author", values)?;
    let values = push_first(out, "organization", values)?;
    let values = push_first(out, "preprocessor version", values)?;
    let values = push_first(out, "originating system", values)?;
    push_first(out, "authorization", values)?;
    Ok(())
}

fn push_file_schema(out: &mut Vec<u8>, values: &[Param]) -> Result<(), NoMemory>
    ensures { OnOk result (out.new.items ≡ out.old.items ++ values_lines file_schema_words (map view values.now)) }
{
    push_first(out, "schema", values)?;
    Ok(())
}

/// Appends the line of a further record.
fn push_further(out: &mut Vec<u8>, key: &Key) -> Result<(), NoMemory>
    ensures { OnOk result (out.new.items ≡ out.old.items ++ (codes "further record: " ++ (key_text (key_view key.now) ++ 10 ∷ []))) }
{
    out.extend_from_slice(b"further record: ")?;
    push_key(out, key)?;
    out.push(b'\n')?;
    Ok(())
}
