ghost use Rattle.std.specs.Prelude.{◌≤◌, IfSome, length};

use crate::bisection::first_refused;
use crate::declarations::{Declaration, Kind, declarations_of};
use crate::names::{Declared, repeated};
use crate::parts::{Cut, Outlined, Redeclaring, end_of};
use crate::statements::{Statement, statements_of};
use crate::words::{Word, upper_copy, words_of};
use p21_express_outline::SchemaFault;
use p21_values::NoMemory;
use std::alloc::Global;

/// The most bytes of a schema text.
const LONGEST_TEXT: usize = 16_777_216;

/// Where a schema text is refused.
#[derive(Clone, Copy, Debug, PartialEq, Eq)]
pub struct SchemaPlace {
    /// So many bytes stand in front of it.
    pub byte: u64,
}

/// Where a text is refused that `read_schema` refuses for this fault: the first byte of the lexeme, of the open string or
/// remark, or of the redeclaration; of a text that ends too early its end. There is none for want of memory, nor where
/// memory runs out while it is looked for. The text is read some twenty times.
pub fn schema_place(alloc: Global, text: &[u8], fault: SchemaFault) -> Option<SchemaPlace>
    ensures within { IfSome result (λ place. place.byte ≤ length text.now) }
{
    let found = match place_in(alloc, text, fault) {
        Ok(found) => found?,
        Err(NoMemory) => return None,
    };
    if found > text.len() {
        return None;
    }
    Some(SchemaPlace { byte: found as u64 })
}

/// The same, as far as it isn't known that it stands in the text.
fn place_in(alloc: Global, text: &[u8], fault: SchemaFault) -> Result<Option<usize>, NoMemory> {
    if fault == SchemaFault::NoMemory {
        return Ok(None);
    }
    if text.len() > LONGEST_TEXT {
        return Ok(Some(LONGEST_TEXT));
    }
    let upper = upper_copy(alloc, text)?;
    let words = words_of(alloc, &upper)?;
    if fault == SchemaFault::Token {
        return Ok(Some(words.end));
    }
    match place_of_word(alloc, text, &words.list, fault)? {
        Some(place) => Ok(Some(place)),
        None => place_in_whole(alloc, text, &words.list, fault),
    }
}

/// Where the lexeme stands that shows the fault, if one does; or the end of the text.
fn place_of_word(
    alloc: Global,
    text: &[u8],
    words: &[Word],
    fault: SchemaFault,
) -> Result<Option<usize>, NoMemory> {
    let cut = Cut { text, words, fault };
    match first_refused(alloc, &cut, words.len())? {
        Some(at) => Ok(start_of(words.get(at).copied())),
        None => {
            if fault == SchemaFault::Syntax {
                Ok(Some(end_of(words)))
            } else {
                Ok(None)
            }
        }
    }
}

/// Where a fault stands that several declarations show.
fn place_in_whole(
    alloc: Global,
    text: &[u8],
    words: &[Word],
    fault: SchemaFault,
) -> Result<Option<usize>, NoMemory> {
    let declarations = declarations_of(alloc, words)?;
    match fault {
        SchemaFault::LeftOut => Ok(place_of_renamed_select(&declarations)),
        SchemaFault::RedeclaredPlace => place_of_redeclaration(alloc, text, &declarations, fault),
        SchemaFault::Duplicate => place_of_duplicate(alloc, text, &declarations),
        SchemaFault::UnknownName => place_of_unknown(alloc, text, &declarations),
        SchemaFault::Circular => {
            Ok(start_of(name_of(first_declaration(alloc, text, &declarations, fault)?)))
        }
        _ => Ok(None),
    }
}

fn start_of(word: Option<Word>) -> Option<usize> {
    match word {
        Some(word) => Some(word.start),
        None => None,
    }
}

fn name_of<'t>(declaration: Option<Declaration<'_, 't>>) -> Option<Word<'t>> {
    match declaration {
        Some(declaration) => declaration.name(),
        None => None,
    }
}

/// The first declaration that shows a fault with those in front of it.
fn first_declaration<'a>(
    alloc: Global,
    text: &'a [u8],
    declarations: &'a [Declaration<'a, 'a>],
    fault: SchemaFault,
) -> Result<Option<Declaration<'a, 'a>>, NoMemory> {
    let with_later = fault != SchemaFault::Duplicate;
    let parts = Outlined {
        text,
        declarations,
        fault,
        with_later,
    };
    match first_refused(alloc, &parts, declarations.len())? {
        Some(at) => Ok(declarations.get(at).copied()),
        None => Ok(None),
    }
}

/// Where the second of two equal names stands, or the second redeclaration of an attribute.
fn place_of_duplicate(
    alloc: Global,
    text: &[u8],
    declarations: &[Declaration],
) -> Result<Option<usize>, NoMemory> {
    let fault = SchemaFault::Duplicate;
    let Some(found) = first_declaration(alloc, text, declarations, fault)? else {
        return Ok(None);
    };
    if let Some(word) = repeated(alloc, found)? {
        return Ok(Some(word.start));
    }
    if are_declared_twice(declarations, found) {
        return Ok(start_of(found.name()));
    }
    place_of_redeclaration(alloc, text, declarations, fault)
}

/// Whether another declaration has the name of this one.
fn are_declared_twice(declarations: &[Declaration], found: Declaration) -> bool {
    let Some(name) = found.name() else {
        return false;
    };
    for declaration in declarations {
        if let Some(other) = declaration.name() {
            if other.is(name.bytes) && other.start != name.start {
                return true;
            }
        }
    }
    false
}

/// Where the first name stands that is declared nowhere, or not as what it has to be.
fn place_of_unknown(
    alloc: Global,
    text: &[u8],
    declarations: &[Declaration],
) -> Result<Option<usize>, NoMemory> {
    let Some(declared) = Declared::of(alloc, declarations)? else {
        return Ok(None);
    };
    for declaration in declarations {
        if let Some(word) = declared.first_unknown(alloc, *declaration)? {
            return Ok(Some(word.start));
        }
    }
    Ok(None)
}

/// Where the name of a SELECT stands in the first type that is just this name.
fn place_of_renamed_select(declarations: &[Declaration]) -> Option<usize> {
    for declaration in declarations {
        let body = declaration.body();
        if declaration.kind == Kind::Type && body.len() == 1 && is_select(declarations, body[0]) {
            return Some(body[0].start);
        }
    }
    None
}

/// Whether a type of this name is declared as a SELECT.
fn is_select(declarations: &[Declaration], name: Word) -> bool {
    for declaration in declarations {
        if let (Some(declared), Some(first)) = (declaration.name(), declaration.body().first()) {
            if declared.is(name.bytes) && first.is(b"SELECT") {
                return true;
            }
        }
    }
    false
}

/// Where the first redeclaration stands that shows a fault with those in front of it.
fn place_of_redeclaration(
    alloc: Global,
    text: &[u8],
    declarations: &[Declaration],
    fault: SchemaFault,
) -> Result<Option<usize>, NoMemory> {
    let mut statements = Vec::new(alloc);
    for declaration in declarations {
        for statement in &statements_of(alloc, *declaration)? {
            if statement.is_anew() {
                statements.push(*statement)?;
            }
        }
    }
    let parts = Redeclaring {
        text,
        statements: &statements,
        fault,
    };
    match first_refused(alloc, &parts, statements.len())? {
        Some(at) => Ok(start_of(first_word(&statements, at))),
        None => Ok(None),
    }
}

/// The first word of the statement at this place of a list.
fn first_word<'t>(statements: &[Statement<'_, 't>], at: usize) -> Option<Word<'t>> {
    statements.get(at)?.words.first().copied()
}
