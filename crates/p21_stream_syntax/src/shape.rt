ghost use Rattle.std.specs.Prelude.{◌≡◌, ◌↔◌, IsTrue, List, ℕ, IfSome, IsNone};
ghost use Rattle.std.specs.Option.{option_copied};
ghost use Rattle.p21_spec_exchange.specs.DataSection.{named, unnamed, heading_of};
ghost use Rattle.p21_spec_exchange.specs.Header.{IsFileSchema};
ghost use Rattle.p21_grammar_tree.specs.View.{items_of, part_view, view, views};
ghost use Rattle.p21_stream_syntax.specs.Shape.{listed_text, only_listed_text, only_text, text_of};

use p21_grammar_tree::{Param, Part};
use p21_values::{Text, Word};

/// The text of a record, where it is a `FILE_SCHEMA` (ISO 10303-21, header section).
pub(crate) fn schema_text(part: &Part) -> Option<&Text>
    ensures some { IfSome result (λ text. IsFileSchema (part_view part.now) text.now) }
    ensures none { IsNone result → (chars : List ℕ) → IsFileSchema (part_view part.now) chars → ⊥ }
{
    if part.key.user || !is_word(&part.key.word, b"FILE_SCHEMA") {
        return None;
    }
    only_listed_text(part.params.items())
}

/// The name and the schema text with which a data section begins, where it has a name (ISO 10303-21, data sections).
pub(crate) fn heading(part: &Part) -> Option<(&Text, &Text)>
    ensures some { IfSome result (λ found. heading_of (views (items_of part.now.params)) ≡ named found.0.now found.1.now) }
    ensures none { IsNone result → heading_of (views (items_of part.now.params)) ≡ unnamed }
{
    let Some((first, rest)) = part.params.items().split_first() else {
        return None;
    };
    let Some(name) = text_of(first) else {
        return None;
    };
    let Some(schema) = only_listed_text(rest) else {
        return None;
    };
    Some((name, schema))
}

/// Whether a keyword has these characters.
fn is_word(word: &Word, characters: &[u8]) -> bool
    ensures { IsTrue result ↔ (word.now ≡ characters.now) }
{
    word.bytes() == characters
}

fn text_of(param: &Param) -> Option<&Text>
    ensures { option_copied result ≡ text_of (view param.now) }
{
    match param {
        Param::Text(text) => Some(text),
        _ => None,
    }
}

#[tactic(auto, using(crate::proofs::Lengths::lengths))]
fn only_text(params: &[Param]) -> Option<&Text>
    ensures { option_copied result ≡ only_text (views params.now) }
{
    match params {
        [only] => text_of(only),
        _ => None,
    }
}

fn listed_text(param: &Param) -> Option<&Text>
    ensures { option_copied result ≡ listed_text (view param.now) }
{
    match param {
        Param::List(params) => only_text(params.items()),
        _ => None,
    }
}

#[tactic(auto, using(crate::proofs::Lengths::lengths))]
fn only_listed_text(params: &[Param]) -> Option<&Text>
    ensures { option_copied result ≡ only_listed_text (views params.now) }
{
    match params {
        [only] => listed_text(only),
        _ => None,
    }
}
