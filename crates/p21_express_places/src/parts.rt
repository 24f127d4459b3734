//! Parts of a schema text, as texts of their own.
use crate::bisection::Parts;
use crate::declarations::{Declaration, Kind};
use crate::statements::Statement;
use crate::words::Word;
use p21_express::read_schema;
use p21_express_outline::SchemaFault;
use p21_express_syntax::read_declarations;
use p21_values::NoMemory;
use std::alloc::Global;

/// A byte that begins no lexeme, behind a blank that ends any.
const STRAY: &[u8] = b" \x80";

/// A text cut behind its lexemes.
#[derive(Clone, Copy)]
pub(crate) struct Cut<'a> {
    pub(crate) text: &'a [u8],
    pub(crate) words: &'a [Word<'a>],
    pub(crate) fault: SchemaFault,
}

impl<'a> Parts for Cut<'a> {
    fn is_refused(&self, alloc: Global, count: usize) -> Result<bool, NoMemory> {
        let end = end_of(self.words.get(..count).unwrap_or(&[]));
        let mut part = Vec::new(alloc);
        part.extend_from_slice(self.text.get(..end).unwrap_or(&[]))?;
        part.extend_from_slice(STRAY)?;
        match read_declarations(alloc, &part) {
            Ok(_declarations) => Ok(false),
            Err(fault) => is_same(SchemaFault::from(fault), self.fault),
        }
    }
}

/// How many bytes stand in front of what is behind the last of these words.
pub(crate) fn end_of(words: &[Word]) -> usize {
    match words.last() {
        Some(last) => last.end(),
        None => 0,
    }
}

/// Declarations of a text, of which the later ones are empty, or left out.
#[derive(Clone, Copy)]
pub(crate) struct Outlined<'a> {
    pub(crate) text: &'a [u8],
    pub(crate) declarations: &'a [Declaration<'a, 'a>],
    pub(crate) fault: SchemaFault,
    pub(crate) with_later: bool,
}

impl<'a> Parts for Outlined<'a> {
    fn is_refused(&self, alloc: Global, count: usize) -> Result<bool, NoMemory> {
        let mut part = Vec::new(alloc);
        part.extend_from_slice(b"SCHEMA s;")?;
        for at in 0..self.declarations.len() {
            let declaration = self.declarations[at];
            part.push(b'\n')?;
            if at < count {
                let (start, end) = declaration.bounds();
                part.extend_from_slice(self.text.get(start..end).unwrap_or(&[]))?;
            } else if self.with_later {
                push_empty(declaration, &mut part)?;
            }
        }
        part.extend_from_slice(b"\nEND_SCHEMA;")?;
        is_refused_by(alloc, &part, self.fault)
    }
}

/// A declaration of the same name with nothing in it.
fn push_empty(declaration: Declaration, part: &mut Vec<u8>) -> Result<(), NoMemory> {
    let Some(name) = declaration.name() else {
        return Ok(());
    };
    match declaration.kind {
        Kind::Entity => {
            part.extend_from_slice(b"ENTITY ")?;
            part.extend_from_slice(name.bytes)?;
            part.extend_from_slice(b"; END_ENTITY;")?;
        }
        Kind::Type => {
            part.extend_from_slice(b"TYPE ")?;
            part.extend_from_slice(name.bytes)?;
            part.extend_from_slice(b" = INTEGER; END_TYPE;")?;
        }
    }
    Ok(())
}

/// A text in which later redeclarations are blank.
#[derive(Clone, Copy)]
pub(crate) struct Redeclaring<'a> {
    pub(crate) text: &'a [u8],
    pub(crate) statements: &'a [Statement<'a, 'a>],
    pub(crate) fault: SchemaFault,
}

impl<'a> Parts for Redeclaring<'a> {
    fn is_refused(&self, alloc: Global, count: usize) -> Result<bool, NoMemory> {
        let mut part = Vec::new(alloc);
        let mut taken = 0;
        for statement in self.statements.get(count..).unwrap_or(&[]) {
            let Some(first) = statement.words.first() else {
                continue;
            };
            part.extend_from_slice(self.text.get(taken..first.start).unwrap_or(&[]))?;
            taken = end_of(statement.words);
        }
        part.extend_from_slice(self.text.get(taken..).unwrap_or(&[]))?;
        is_refused_by(alloc, &part, self.fault)
    }
}

/// Whether a text is refused so.
fn is_refused_by(alloc: Global, text: &[u8], fault: SchemaFault) -> Result<bool, NoMemory> {
    match read_schema(alloc, text) {
        Ok(_schema) => Ok(false),
        Err(found) => is_same(found, fault),
    }
}

/// Whether one fault is the other.
fn is_same(found: SchemaFault, fault: SchemaFault) -> Result<bool, NoMemory> {
    if found == SchemaFault::NoMemory {
        return Err(NoMemory);
    }
    Ok(found == fault)
}
