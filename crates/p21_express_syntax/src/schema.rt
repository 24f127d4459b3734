//! Entities and types are kept as two lists, each in the order of the text: no rule looks at the order between them.
ghost use Rattle.std.specs.Prelude.{◌≡◌, ◌+◌, ◌≤◌, ◌<◌, codes, length};
ghost use Rattle.p21_spec_schema.specs.Run.{is_word, none};
ghost use Rattle.p21_express_lexemes.specs.Lexemes.{lexemes_of};
ghost use Rattle.p21_express_lexemes.specs.Runs.{AreApart, marks};
ghost use Rattle.p21_express_lexemes.specs.Taking.{TakesExpected};
ghost use Rattle.p21_express_syntax.specs.Declaring.{has_nothing_left, over_end, passed_word_of, passed_behind, WordTaken, over_of, declaration_of, declarations_of, schema_of, begins_entity_or_type, OverRead, Added};
ghost use Rattle.p21_express_syntax.specs.Many.{StepRead};
ghost use Rattle.p21_express_syntax.specs.OneTree.{LexemesHaveOneTree, TextHasOneTree};
ghost use Rattle.p21_express_syntax.specs.ReadDeclarations.{ReadsDeclarations, TextHasOneDigest};
ghost use Rattle.p21_express_syntax.specs.ReadSchema.{DeclarationsRead, SchemaRead, SaysOneTooMany};
ghost use Rattle.p21_express_syntax.specs.Views.{schema_view, declaration_view};

use crate::defined_type::{DefinedType, read_defined_type};
use crate::entity::{Entity, read_entity};
use crate::names::read_name;
use p21_express_lexemes::{Lexemes, Mark, SyntaxFault, Wanted, read_over};
use p21_values::Word;
use std::alloc::Global;

/// The declarations of a schema (ISO 10303-11, Schema declaration), as far as they are kept, each kind in the order of the
/// text. Its name is in upper case.
#[derive(Debug, Drop)]
pub struct Declarations {
    pub name: Word,
    pub entities: Vec<Entity>,
    pub types: Vec<DefinedType>,
}

/// A declaration, as far as it is kept.
#[derive(Drop)]
enum Declaration {
    Entity(Entity),
    Type(DefinedType),
    Passed,
}

/// The words at which declarations begin that are read over.
#[derive(Clone, Copy)]
enum PassedWord {
    Function,
    Procedure,
    Rule,
    Constant,
    SubtypeConstraint,
}

/// The most bytes of a text.
const LONGEST_TEXT: usize = 16777216;

/// The most entities and types together.
const MOST_DECLARATIONS: usize = 65535;

/// A declaration that is read over, behind its first word: to its last word and `;`.
#[tactic(auto, unfolding(crate::specs::Declaring::over_end))]
fn pass_to(lexemes: &mut Lexemes, opens: Mark, last: &[u8]) -> Result<(), SyntaxFault>
    requires { AreApart (marks opens) (is_word last.now) }
    ensures { TakesExpected result (over_end (marks opens.entry) last.now lexemes.old) lexemes.new }
{
    read_over(lexemes, opens, Mark::Word(last))?;
    lexemes.expect_symbol(b';')
}

/// Takes the word at which a declaration begins that is read over, if it stands first.
#[tactic(auto, unfolding(crate::specs::Declaring::passed_word_of))]
fn take_passed_word(lexemes: &mut Lexemes) -> Option<PassedWord>
    ensures { WordTaken result (passed_word_of lexemes.old) lexemes.old lexemes.new }
{
    if lexemes.take_word(b"FUNCTION") {
        return Some(PassedWord::Function);
    }
    if lexemes.take_word(b"PROCEDURE") {
        return Some(PassedWord::Procedure);
    }
    if lexemes.take_word(b"RULE") {
        return Some(PassedWord::Rule);
    }
    if lexemes.take_word(b"CONSTANT") {
        return Some(PassedWord::Constant);
    }
    if lexemes.take_word(b"SUBTYPE_CONSTRAINT") {
        return Some(PassedWord::SubtypeConstraint);
    }
    None
}

/// A declaration that is read over, behind its first word.
#[tactic(auto, unfolding(crate::specs::Declaring::passed_behind), using(crate::proofs::Apart::functions_apart, crate::proofs::Apart::procedures_apart))]
fn pass_declaration(lexemes: &mut Lexemes, word: PassedWord) -> Result<(), SyntaxFault>
    ensures { TakesExpected result (passed_behind word lexemes.old) lexemes.new }
{
    match word {
        PassedWord::Function => pass_to(lexemes, Mark::Word(b"FUNCTION"), b"END_FUNCTION"),
        PassedWord::Procedure => pass_to(lexemes, Mark::Word(b"PROCEDURE"), b"END_PROCEDURE"),
        PassedWord::Rule => pass_to(lexemes, Mark::Nothing, b"END_RULE"),
        PassedWord::Constant => pass_to(lexemes, Mark::Nothing, b"END_CONSTANT"),
        PassedWord::SubtypeConstraint => {
            pass_to(lexemes, Mark::Nothing, b"END_SUBTYPE_CONSTRAINT")
        }
    }
}

/// Reads over a declaration, if one begins there that is read over.
#[tactic(auto, unfolding(crate::specs::Declaring::over_of))]
fn pass_over(lexemes: &mut Lexemes) -> Result<bool, SyntaxFault>
    ensures { OverRead result (over_of lexemes.old) lexemes.old lexemes.new }
{
    match take_passed_word(lexemes) {
        Some(word) => {
            pass_declaration(lexemes, word)?;
            Ok(true)
        }
        None => Ok(false),
    }
}

/// A declaration, if one begins there.
#[tactic(auto, unfolding(crate::specs::Declaring::declaration_of))]
fn read_declaration(
    alloc: Global,
    lexemes: &mut Lexemes,
) -> Result<Option<Declaration>, SyntaxFault>
    ensures { StepRead declaration_view result (declaration_of lexemes.old) lexemes.old lexemes.new }
{
    if lexemes.take_word(b"ENTITY") {
        return Ok(Some(Declaration::Entity(read_entity(alloc, lexemes)?)));
    }
    if lexemes.take_word(b"TYPE") {
        return Ok(Some(Declaration::Type(read_defined_type(alloc, lexemes)?)));
    }
    if pass_over(lexemes)? {
        return Ok(Some(Declaration::Passed));
    }
    Ok(None)
}

/// Whether the word of an entity or a type stands first.
#[tactic(auto, unfolding(crate::specs::Declaring::begins_entity_or_type))]
fn begins_entity_or_type(lexemes: &Lexemes) -> bool
    ensures { result ≡ begins_entity_or_type lexemes.now }
{
    let mut ahead = lexemes.again();
    if ahead.take_word(b"ENTITY") {
        return true;
    }
    ahead.take_word(b"TYPE")
}

/// Whether an entity or a type begins, where there are as many as may be.
fn is_one_too_many(declarations: &Declarations, lexemes: &Lexemes) -> bool
    ensures { SaysOneTooMany result (schema_view declarations.now) lexemes.now }
{
    if declarations.entities.len() + declarations.types.len() != MOST_DECLARATIONS {
        return false;
    }
    begins_entity_or_type(lexemes)
}

/// One more declaration.
#[tactic(auto, using(crate::proofs::Repeated::map_push))]
fn add(declarations: &mut Declarations, declaration: Declaration) -> Result<(), SyntaxFault>
    ensures { Added result (schema_view declarations.old) (declaration_view declaration) (schema_view declarations.new) }
{
    match declaration {
        Declaration::Entity(entity) => declarations.entities.push(entity)?,
        Declaration::Type(defined) => declarations.types.push(defined)?,
        Declaration::Passed => (),
    }
    Ok(())
}

/// All declarations, of which 65,535 entities and types at most.
fn read_all(alloc: Global, lexemes: &mut Lexemes, name: Word) -> Result<Declarations, SyntaxFault>
    ensures { DeclarationsRead name result (declarations_of lexemes.old) lexemes.new }
{
    let mut declarations = Declarations {
        name,
        entities: Vec::new(alloc),
        types: Vec::new(alloc),
    };
    loop {
        if is_one_too_many(&declarations, lexemes) {
            return Err(SyntaxFault::TooLarge);
        }
        match read_declaration(alloc, lexemes) {
            Ok(Some(declaration)) => add(&mut declarations, declaration)?,
            Ok(None) => return Ok(declarations),
            Err(fault) => return Err(fault),
        }
    }
}

/// Reads the declarations of a schema text, from its bytes, in one pass.
///
/// # Errors
///
/// `TooLarge` for a text of more than 16,777,216 bytes; else what the first lexeme shows that the text can't go on with:
/// `Token`, `Syntax`, `LeftOut`, `Bounds`, `TooLarge` at the 33rd of aggregate types one in another and at the word of
/// entity or type 65,536; `NoMemory`.
#[tactic(auto, using(crate::proofs::SchemasRead::reads_text, crate::proofs::SchemasRead::too_long))]
pub fn read_declarations(alloc: Global, text: &[u8]) -> Result<Declarations, SyntaxFault>
    ensures { ReadsDeclarations text.now result }
{
    if text.len() > LONGEST_TEXT {
        return Err(SyntaxFault::TooLarge);
    }
    read_schema(alloc, text)
}

/// What is kept of the declarations of a text is one.
#[tactic(auto, using(crate::proofs::SchemasRead::one_digest))]
pub fn one_text()
    ensures { TextHasOneDigest }
{}

/// A text is that of one schema declaration at most.
#[tactic(auto, using(crate::proofs::OneTree::one_tree))]
pub fn one_tree()
    ensures lexemes { LexemesHaveOneTree }
    ensures text { TextHasOneTree }
{}

/// Whether nothing is left.
#[tactic(auto, using(crate::proofs::Apart::ended_of))]
fn is_at_end(lexemes: &Lexemes) -> bool
    ensures { result ≡ has_nothing_left lexemes.now }
{
    lexemes.is_empty()
}

/// SCHEMA name [version] `;` {declaration} END_SCHEMA `;`, and nothing behind it.
#[tactic(auto, unfolding(crate::specs::Declaring::schema_of))]
fn read_schema(alloc: Global, text: &[u8]) -> Result<Declarations, SyntaxFault>
    ensures { SchemaRead result (schema_of (lexemes_of text.now)) }
{
    let mut lexemes = Lexemes::new(text);
    lexemes.expect_word(b"SCHEMA")?;
    let name = read_name(alloc, &mut lexemes)?;
    lexemes.take_simple_string();
    lexemes.expect_symbol(b';')?;
    let declarations = read_all(alloc, &mut lexemes, name)?;
    lexemes.expect_word(b"END_SCHEMA")?;
    lexemes.expect_symbol(b';')?;
    if is_at_end(&lexemes) {
        Ok(declarations)
    } else {
        Err(lexemes.refusal(Wanted::Grammar))
    }
}
