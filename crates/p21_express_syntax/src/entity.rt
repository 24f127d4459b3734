//! ONEOF is read ahead on a copy of the reader (two slices) and, where it isn't exactly a list of names, the run is
//! read over from its start.
ghost use Rattle.std.specs.Prelude.{◌≡◌, codes};
ghost use Rattle.p21_spec_schema.specs.Run.{is_word, is_symbol, none};
ghost use Rattle.p21_express_lexemes.specs.Taking.{TakesExpected, ReadBy, WasTaken};
ghost use Rattle.p21_express_syntax.specs.Declaring.{one_of_of, expression_of, abstract_at, constraint_of, supertypes_of, derive_of, take_rules, entity_end, entity_at, constraint_with, OneOfRead};
ghost use Rattle.p21_express_syntax.specs.Many.{many_of};
ghost use Rattle.p21_express_syntax.specs.Views.{list_view, some_list, constraint_view, entity_view};

use crate::attributes::{AttributeName, ExplicitAttributes, read_all_derived, read_all_explicit};
use crate::names::{read_name, read_names};
use p21_express_lexemes::{Lexemes, Mark, SyntaxFault, read_over};
use p21_values::Word;
use std::alloc::Global;

/// What an entity declaration says of its subtypes.
#[derive(Debug, Drop)]
pub struct Constraint {
    pub is_abstract: bool,
    /// The names of a ONEOF list, where it stands alone behind SUPERTYPE OF.
    pub one_of: Option<Vec<Word>>,
}

/// An entity declaration (ISO 10303-11, Entity declaration). Names are in upper case.
#[derive(Debug, Drop)]
pub struct Entity {
    pub name: Word,
    pub constraint: Constraint,
    /// Those of SUBTYPE OF, none where it isn't there.
    pub supertypes: Vec<Word>,
    pub explicit: Vec<ExplicitAttributes>,
    /// The names of its derived attributes.
    pub derived: Vec<AttributeName>,
}

/// ONEOF, a list of names and `)`.
#[tactic(auto, unfolding(crate::specs::Declaring::one_of_of))]
fn read_one_of(alloc: Global, lexemes: &mut Lexemes) -> Result<Vec<Word>, SyntaxFault>
    ensures { ReadBy list_view result (one_of_of lexemes.old) lexemes.new }
{
    lexemes.expect_word(b"ONEOF")?;
    let names = read_names(alloc, lexemes)?;
    lexemes.expect_symbol(b')')?;
    Ok(names)
}

/// The same, if it stands there.
fn take_one_of(alloc: Global, lexemes: &mut Lexemes) -> Result<Option<Vec<Word>>, SyntaxFault>
    ensures { OneOfRead result (one_of_of lexemes.old) lexemes.old lexemes.new }
{
    let mut ahead = lexemes.again();
    match read_one_of(alloc, &mut ahead) {
        Ok(names) => {
            *lexemes = ahead;
            Ok(Some(names))
        }
        Err(SyntaxFault::NoMemory) => Err(SyntaxFault::NoMemory),
        Err(_other) => Ok(None),
    }
}

/// Behind SUPERTYPE OF: a ONEOF list alone, or any other run, between parentheses.
#[tactic(auto, unfolding(crate::specs::Declaring::expression_of))]
fn read_expression(alloc: Global, lexemes: &mut Lexemes) -> Result<Option<Vec<Word>>, SyntaxFault>
    ensures { ReadBy some_list result (expression_of lexemes.old) lexemes.new }
{
    lexemes.expect_symbol(b'(')?;
    match take_one_of(alloc, lexemes)? {
        Some(names) => Ok(Some(names)),
        None => {
            read_over(lexemes, Mark::Symbol(b'('), Mark::Symbol(b')'))?;
            Ok(None)
        }
    }
}

/// Behind ABSTRACT.
#[tactic(auto, unfolding(crate::specs::Declaring::abstract_at))]
fn read_abstract(alloc: Global, lexemes: &mut Lexemes) -> Result<Constraint, SyntaxFault>
    ensures { ReadBy constraint_view result (abstract_at lexemes.old) lexemes.new }
{
    if !lexemes.take_word(b"SUPERTYPE") || !lexemes.take_word(b"OF") {
        return Ok(Constraint {
            is_abstract: true,
            one_of: None,
        });
    }
    Ok(Constraint {
        is_abstract: true,
        one_of: read_expression(alloc, lexemes)?,
    })
}

/// ABSTRACT, SUPERTYPE and a supertype expression, as far as they stand there.
#[tactic(auto, unfolding(crate::specs::Declaring::constraint_of))]
fn read_constraint(alloc: Global, lexemes: &mut Lexemes) -> Result<Constraint, SyntaxFault>
    ensures { ReadBy constraint_view result (constraint_of lexemes.old) lexemes.new }
{
    if lexemes.take_word(b"ABSTRACT") {
        return read_abstract(alloc, lexemes);
    }
    if !lexemes.take_word(b"SUPERTYPE") {
        return Ok(Constraint {
            is_abstract: false,
            one_of: None,
        });
    }
    lexemes.expect_word(b"OF")?;
    Ok(Constraint {
        is_abstract: false,
        one_of: read_expression(alloc, lexemes)?,
    })
}

/// SUBTYPE OF names, or nothing.
#[tactic(auto, unfolding(crate::specs::Declaring::supertypes_of))]
fn read_supertypes(alloc: Global, lexemes: &mut Lexemes) -> Result<Vec<Word>, SyntaxFault>
    ensures { ReadBy list_view result (supertypes_of lexemes.old) lexemes.new }
{
    if !lexemes.take_word(b"SUBTYPE") {
        return Ok(Vec::new(alloc));
    }
    lexemes.expect_word(b"OF")?;
    read_names(alloc, lexemes)
}

/// DERIVE and derived attributes, or nothing.
#[tactic(auto, unfolding(crate::specs::Declaring::derive_of))]
fn read_derive(alloc: Global, lexemes: &mut Lexemes) -> Result<Vec<AttributeName>, SyntaxFault>
    ensures { ReadBy list_view result (derive_of lexemes.old) lexemes.new }
{
    if !lexemes.take_word(b"DERIVE") {
        return Ok(Vec::new(alloc));
    }
    read_all_derived(alloc, lexemes)
}

/// What is read over from INVERSE, UNIQUE or WHERE on, if it stands there, and END_ENTITY.
#[tactic(auto, unfolding(crate::specs::Declaring::entity_end))]
fn pass_end(lexemes: &mut Lexemes) -> Result<(), SyntaxFault>
    ensures { TakesExpected result (entity_end lexemes.old) lexemes.new }
{
    if take_rules(lexemes) {
        return read_over(lexemes, Mark::Nothing, Mark::Word(b"END_ENTITY"));
    }
    lexemes.expect_word(b"END_ENTITY")
}

/// Takes INVERSE, UNIQUE or WHERE, if it stands there.
#[tactic(auto, unfolding(crate::specs::Declaring::take_rules))]
fn take_rules(lexemes: &mut Lexemes) -> bool
    ensures { WasTaken result (take_rules lexemes.old) lexemes.old lexemes.new }
{
    if lexemes.take_word(b"INVERSE") {
        return true;
    }
    if lexemes.take_word(b"UNIQUE") {
        return true;
    }
    lexemes.take_word(b"WHERE")
}

/// Reads an entity declaration behind ENTITY.
#[tactic(auto, unfolding(crate::specs::Declaring::entity_at))]
pub(crate) fn read_entity(alloc: Global, lexemes: &mut Lexemes) -> Result<Entity, SyntaxFault>
    ensures { ReadBy entity_view result (entity_at lexemes.old) lexemes.new }
{
    let name = read_name(alloc, lexemes)?;
    let constraint = read_constraint(alloc, lexemes)?;
    let supertypes = read_supertypes(alloc, lexemes)?;
    lexemes.expect_symbol(b';')?;
    let explicit = read_all_explicit(alloc, lexemes)?;
    let derived = read_derive(alloc, lexemes)?;
    pass_end(lexemes)?;
    lexemes.expect_symbol(b';')?;
    Ok(Entity {
        name,
        constraint,
        supertypes,
        explicit,
        derived,
    })
}
