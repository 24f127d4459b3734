ghost use Rattle.std.specs.Prelude.{◌≡◌, [], ◌∷◌};
ghost use Rattle.std.specs.Str.{bytes_eq};
ghost use Rattle.p21_spec_exchange.specs.Header.{string, strings};
ghost use Rattle.p21_grammar_tree.specs.View.{items_of, key_view, part_view, view, views};
ghost use Rattle.p21_grammar.specs.Shape.{is_key, is_text, is_text_or_unset, are_texts, are_strings, have_types, is_schema, is_schema_row, is_only_schema, is_name_and_schema, is_file_description, is_file_name, is_file_schema, is_further, is_heading};

use p21_grammar_tree::{Key, Param, Part};
use p21_values::Word;

/// Whether the word has these characters.
pub fn is_word(word: &Word, characters: &[u8]) -> bool
    ensures { result ≡ bytes_eq word.now characters.now }
{
    word.bytes() == characters
}

/// Whether the keyword is this standard one. A user-defined keyword never is.
pub fn is_key(key: &Key, word: &[u8]) -> bool
    ensures { result ≡ is_key word.now (key_view key.now) }
{
    !key.user && is_word(&key.word, word)
}

fn is_text(param: &Param) -> bool
    ensures { result ≡ is_text (view param.now) }
{
    matches!(param, Param::Text(_))
}

fn is_text_or_unset(param: &Param) -> bool
    ensures { result ≡ is_text_or_unset (view param.now) }
{
    matches!(param, Param::Text(_) | Param::Dollar)
}

#[tactic(auto, using(crate::proofs::ShapeTests::texts_from))]
fn are_texts(params: &[Param]) -> bool
    ensures { result ≡ are_texts (views params.now) }
{
    for param in params {
        if !is_text_or_unset(param) {
            return false;
        }
    }
    true
}

/// A list of texts, or `$`.
fn are_strings(param: &Param) -> bool
    ensures { result ≡ are_strings (view param.now) }
{
    match param {
        Param::Dollar => true,
        Param::List(params) => are_texts(params.items()),
        _ => false,
    }
}

/// Exactly one text.
#[tactic(auto, using(crate::proofs::ShapeTests::lengths))]
fn is_schema_row(params: &[Param]) -> bool
    ensures { result ≡ is_schema_row (views params.now) }
{
    match params {
        [only] => is_text(only),
        _ => false,
    }
}

/// A list of exactly one text.
fn is_schema(param: &Param) -> bool
    ensures { result ≡ is_schema (view param.now) }
{
    match param {
        Param::List(params) => is_schema_row(params.items()),
        _ => false,
    }
}

/// Description and implementation level.
fn are_file_description_params(params: &[Param]) -> bool
    ensures { result ≡ have_types (strings ∷ string ∷ []) (views params.now) }
{
    match params {
        [description, level] => are_strings(description) && is_text_or_unset(level),
        _ => false,
    }
}

/// Name, time stamp, author, organization, preprocessor version, originating system and authorization.
fn are_file_name_params(params: &[Param]) -> bool
    ensures { result ≡ have_types (string ∷ string ∷ strings ∷ strings ∷ string ∷ string ∷ string ∷ []) (views params.now) }
{
    match params {
        [
            name,
            time,
            author,
            organization,
            preprocessor,
            system,
            authorization,
        ] => {
            is_text_or_unset(name)
                && is_text_or_unset(time)
                && are_strings(author)
                && are_strings(organization)
                && is_text_or_unset(preprocessor)
                && is_text_or_unset(system)
                && is_text_or_unset(authorization)
        }
        _ => false,
    }
}

#[tactic(auto, using(crate::proofs::ShapeTests::lengths))]
fn is_only_schema(params: &[Param]) -> bool
    ensures { result ≡ is_only_schema (views params.now) }
{
    match params {
        [schemas] => is_schema(schemas),
        _ => false,
    }
}

#[tactic(auto, using(crate::proofs::ShapeTests::lengths))]
fn is_name_and_schema(params: &[Param]) -> bool
    ensures { result ≡ is_name_and_schema (views params.now) }
{
    match params {
        [name, schemas] => is_text(name) && is_schema(schemas),
        _ => false,
    }
}

pub fn is_file_description(part: &Part) -> bool
    ensures { result ≡ is_file_description (part_view part.now) }
{
    is_key(&part.key, b"FILE_DESCRIPTION") && are_file_description_params(part.params.items())
}

pub fn is_file_name(part: &Part) -> bool
    ensures { result ≡ is_file_name (part_view part.now) }
{
    is_key(&part.key, b"FILE_NAME") && are_file_name_params(part.params.items())
}

pub fn is_file_schema(part: &Part) -> bool
    ensures { result ≡ is_file_schema (part_view part.now) }
{
    is_key(&part.key, b"FILE_SCHEMA") && is_only_schema(part.params.items())
}

/// A record with another keyword than the first three.
pub fn is_further(part: &Part) -> bool
    ensures { result ≡ is_further (part_view part.now) }
{
    !is_key(&part.key, b"FILE_DESCRIPTION")
        && !is_key(&part.key, b"FILE_NAME")
        && !is_key(&part.key, b"FILE_SCHEMA")
}

/// `DATA` with a text, and a list of exactly one text.
pub fn is_heading(part: &Part) -> bool
    ensures { result ≡ is_heading (part_view part.now) }
{
    is_key(&part.key, b"DATA") && is_name_and_schema(part.params.items())
}
