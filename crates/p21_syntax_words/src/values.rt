//! Lines of the values of a record.
ghost use Rattle.std.specs.Prelude.{◌≡◌, ◌++◌, ◌∷◌, List, OnOk, map, ℕ};
ghost use Rattle.std.specs.Result.{IfOk};
ghost use Rattle.std.specs.List.{flat_map};
ghost use Rattle.p21_grammar_tree.specs.View.{view};
ghost use Rattle.p21_syntax_words.specs.HeaderText.{string_lines, value_lines, values_lines};

use crate::lines::push_line;
use p21_grammar_tree::Param;
use p21_values::NoMemory;

/// Appends the lines of the first value, under its word, and gives the values behind it. Where there is none it appends none.
pub(crate) fn push_first<'a>(
    out: &mut Vec<u8>,
    word: &str,
    values: &'a [Param],
) -> Result<&'a [Param], NoMemory>
    ensures { IfOk result (λ rest. (words : List (List ℕ)) → out.old.items ++ values_lines (word.now ∷ words) (map view values.now) ≡ out.new.items ++ values_lines words (map view rest.now)) }
{
    let Some((first, rest)) = values.split_first() else {
        return Ok(values);
    };
    push_value(out, word, first)?;
    Ok(rest)
}

/// Appends a line for a text, or for each one of a list.
fn push_value(out: &mut Vec<u8>, word: &str, value: &Param) -> Result<(), NoMemory>
    ensures { OnOk result (out.new.items ≡ out.old.items ++ value_lines word.now (view value.now)) }
{
    match value {
        Param::Text(text) => push_line(out, word, text.chars()),
        Param::List(values) => push_strings(out, word, values.items()),
        _ => Ok(()),
    }
}

/// Appends a line for each text.
fn push_strings(out: &mut Vec<u8>, word: &str, values: &[Param]) -> Result<(), NoMemory>
    ensures { OnOk result (out.new.items ≡ out.old.items ++ flat_map (λ value. string_lines word.now (view value)) values.now) }
{
    for value in values {
        push_string(out, word, value)?;
    }
    Ok(())
}

/// Appends the line of a text.
fn push_string(out: &mut Vec<u8>, word: &str, value: &Param) -> Result<(), NoMemory>
    ensures { OnOk result (out.new.items ≡ out.old.items ++ string_lines word.now (view value.now)) }
{
    match value {
        Param::Text(text) => push_line(out, word, text.chars()),
        _ => Ok(()),
    }
}
