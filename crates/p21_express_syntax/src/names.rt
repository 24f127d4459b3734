ghost use Rattle.std.specs.Prelude.{◌≡◌, ◌≤◌, IfOk, map, length, take};
ghost use Rattle.p21_spec_exchange.specs.Keyword.{IsKeyword};
ghost use Rattle.p21_spec_schema.specs.Express.{upper};
ghost use Rattle.p21_express_lexemes.specs.Taking.{ReadBy, RefusalShows, take_name};
ghost use Rattle.p21_express_syntax.specs.Declaring.{comma_name_of, names_from, names_of};
ghost use Rattle.p21_express_syntax.specs.Many.{StepRead};
ghost use Rattle.p21_express_syntax.specs.DataTypes.{IsWordOf, identity};
ghost use Rattle.p21_express_syntax.specs.Views.{list_view};

use p21_express_lexemes::{Lexemes, SyntaxFault, upper};
use p21_values::Word;
use std::alloc::Global;

/// Reads a name, which is kept in upper case.
pub(crate) fn read_name(alloc: Global, lexemes: &mut Lexemes) -> Result<Word, SyntaxFault>
    ensures { ReadBy identity result (take_name lexemes.old) lexemes.new }
{
    let name = lexemes.expect_name()?;
    word_of(alloc, name)
}

/// The longest names that are put into upper case without memory.
const LONGEST_IN_PLACE: usize = 24;

/// An identifier in upper case.
pub(crate) fn word_of(alloc: Global, name: &[u8]) -> Result<Word, SyntaxFault>
    requires { IsKeyword (map upper name.now) }
    ensures { IsWordOf (map upper name.now) result }
{
    if name.len() > LONGEST_IN_PLACE {
        return long_word_of(alloc, name);
    }
    let mut place = [0u8; LONGEST_IN_PLACE];
    let mut count = 0;
    while count < name.len() {
        place[count] = upper(name[count]);
        count += 1;
    }
    prefix_word(alloc, &place, count)
}

/// The same, for one that is long.
fn long_word_of(alloc: Global, name: &[u8]) -> Result<Word, SyntaxFault>
    requires { IsKeyword (map upper name.now) }
    ensures { IsWordOf (map upper name.now) result }
{
    let mut bytes = Vec::with_capacity(alloc, name.len())?;
    for byte in name {
        bytes.push(upper(*byte))?;
    }
    prefix_word(alloc, bytes.as_slice(), bytes.len())
}

/// The word of so many bytes at the front.
fn prefix_word(alloc: Global, bytes: &[u8], count: usize) -> Result<Word, SyntaxFault>
    requires within { count ≤ length bytes.now }
    requires keyword { IsKeyword (take count bytes.now) }
    ensures { IsWordOf (take count bytes.now) result }
{
    match Word::of_prefix(alloc, bytes, count) {
        Ok(word) => Ok(word),
        Err(_no_memory) => Err(SyntaxFault::NoMemory),
    }
}

/// The names between parentheses: `(` name {`,` name} `)`.
#[tactic(auto, unfolding(crate::specs::Declaring::names_of))]
pub(crate) fn read_names(alloc: Global, lexemes: &mut Lexemes) -> Result<Vec<Word>, SyntaxFault>
    ensures { ReadBy list_view result (names_of lexemes.old) lexemes.new }
{
    lexemes.expect_symbol(b'(')?;
    let first = read_name(alloc, lexemes)?;
    let names = read_names_from(alloc, lexemes, first)?;
    lexemes.expect_symbol(b')')?;
    Ok(names)
}

/// The first name, and those behind commas.
#[tactic(auto, unfolding(crate::specs::Declaring::names_from))]
fn read_names_from(
    alloc: Global,
    lexemes: &mut Lexemes,
    first: Word,
) -> Result<Vec<Word>, SyntaxFault>
    ensures { ReadBy list_view result (names_from first lexemes.old) lexemes.new }
{
    let mut names = Vec::new(alloc);
    names.push(first)?;
    loop {
        match read_comma_name(alloc, lexemes) {
            Ok(Some(name)) => names.push(name)?,
            Ok(None) => return Ok(names),
            Err(fault) => return Err(fault),
        }
    }
}

/// A comma and a name, if the comma stands there.
#[tactic(auto, unfolding(crate::specs::Declaring::comma_name_of))]
fn read_comma_name(alloc: Global, lexemes: &mut Lexemes) -> Result<Option<Word>, SyntaxFault>
    ensures { StepRead identity result (comma_name_of lexemes.old) lexemes.old lexemes.new }
{
    if !lexemes.take_symbol(b',') {
        return Ok(None);
    }
    Ok(Some(read_name(alloc, lexemes)?))
}
