ghost use Rattle.std.specs.Prelude.{◌≡◌, codes};
ghost use Rattle.p21_spec_schema.specs.Run.{is_word, none};
ghost use Rattle.p21_express_lexemes.specs.Taking.{TakesExpected, ReadBy};
ghost use Rattle.p21_express_syntax.specs.Declaring.{body_of, type_end, defined_at, names_of};
ghost use Rattle.p21_express_syntax.specs.Views.{list_view, body_view, defined_view};

use crate::names::{read_name, read_names};
use crate::types::{DataType, read_type};
use p21_express_lexemes::{Lexemes, Mark, SyntaxFault, Wanted, read_over};
use p21_values::Word;
use std::alloc::Global;

/// What a type is declared as.
#[derive(Debug, Drop)]
pub enum Body {
    /// The items of an ENUMERATION.
    Enumeration(Vec<Word>),
    /// The names of a SELECT.
    Select(Vec<Word>),
    Underlying(DataType),
}

/// A type declaration (ISO 10303-11, Type declaration). Names are in upper case.
#[derive(Debug, Drop)]
pub struct DefinedType {
    pub name: Word,
    pub body: Body,
}

/// The names of a select, between parentheses.
#[tactic(auto, unfolding(crate::specs::Declaring::names_of))]
fn read_select(alloc: Global, lexemes: &mut Lexemes) -> Result<Vec<Word>, SyntaxFault>
    ensures { ReadBy list_view result (names_of lexemes.old) lexemes.new }
{
    let mut ahead = lexemes.again();
    if !ahead.take_symbol(b'(') {
        return Err(lexemes.refusal(Wanted::SelectList));
    }
    read_names(alloc, lexemes)
}

/// ENUMERATION OF names, SELECT names, or a type.
#[tactic(auto, unfolding(crate::specs::Declaring::body_of))]
fn read_body(alloc: Global, lexemes: &mut Lexemes) -> Result<Body, SyntaxFault>
    ensures { ReadBy body_view result (body_of lexemes.old) lexemes.new }
{
    if lexemes.take_word(b"ENUMERATION") {
        lexemes.expect_word(b"OF")?;
        return Ok(Body::Enumeration(read_names(alloc, lexemes)?));
    }
    if lexemes.take_word(b"SELECT") {
        return Ok(Body::Select(read_select(alloc, lexemes)?));
    }
    Ok(Body::Underlying(read_type(alloc, lexemes)?))
}

/// What is read over from WHERE on, if it stands there, and END_TYPE.
#[tactic(auto, unfolding(crate::specs::Declaring::type_end))]
fn pass_end(lexemes: &mut Lexemes) -> Result<(), SyntaxFault>
    ensures { TakesExpected result (type_end lexemes.old) lexemes.new }
{
    if lexemes.take_word(b"WHERE") {
        return read_over(lexemes, Mark::Nothing, Mark::Word(b"END_TYPE"));
    }
    lexemes.expect_word(b"END_TYPE")
}

/// Reads a type declaration behind TYPE.
#[tactic(auto, unfolding(crate::specs::Declaring::defined_at))]
pub(crate) fn read_defined_type(
    alloc: Global,
    lexemes: &mut Lexemes,
) -> Result<DefinedType, SyntaxFault>
    ensures { ReadBy defined_view result (defined_at lexemes.old) lexemes.new }
{
    let name = read_name(alloc, lexemes)?;
    lexemes.expect_symbol(b'=')?;
    let body = read_body(alloc, lexemes)?;
    lexemes.expect_symbol(b';')?;
    pass_end(lexemes)?;
    lexemes.expect_symbol(b';')?;
    Ok(DefinedType { name, body })
}
