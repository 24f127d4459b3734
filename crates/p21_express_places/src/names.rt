use crate::bisection::{Parts, first_refused};
use crate::declarations::{Declaration, Kind};
use crate::statements::{own_names, owners, statements_of};
use crate::words::Word;
use p21_express_graph::{Names, are_distinct};
use p21_values::NoMemory;
use std::alloc::Global;

/// Words of a declaration that aren't names of what is declared.
const NO_NAMES: &[&[u8]] = &[
    b"ABSTRACT",
    b"ARRAY",
    b"BAG",
    b"BINARY",
    b"BOOLEAN",
    b"ENUMERATION",
    b"FIXED",
    b"INTEGER",
    b"LIST",
    b"LOGICAL",
    b"NUMBER",
    b"OF",
    b"ONEOF",
    b"OPTIONAL",
    b"REAL",
    b"SELECT",
    b"SELF",
    b"SET",
    b"STRING",
    b"SUBTYPE",
    b"SUPERTYPE",
    b"UNIQUE",
    b"ENTITY",
    b"TYPE",
];

/// Whether a word of a declaration is the name of something.
fn is_name(word: Word) -> bool {
    match word.bytes.first() {
        Some(first) => first.is_ascii_uppercase() && !is_among(word, NO_NAMES),
        None => false,
    }
}

fn is_among(word: Word, words: &[&[u8]]) -> bool {
    for other in words {
        if word.is(other) {
            return true;
        }
    }
    false
}

/// The names of the entities of a schema, and those of its types.
#[derive(Drop)]
pub(crate) struct Declared {
    entities: Names,
    types: Names,
}

impl Declared {
    /// The names of declarations, where none is declared twice.
    pub(crate) fn of(
        alloc: Global,
        declarations: &[Declaration],
    ) -> Result<Option<Declared>, NoMemory> {
        let Some(entities) = names_of(alloc, declarations, Kind::Entity)? else {
            return Ok(None);
        };
        let Some(types) = names_of(alloc, declarations, Kind::Type)? else {
            return Ok(None);
        };
        Ok(Some(Declared { entities, types }))
    }

    fn has_entity(&self, word: Word) -> bool {
        self.entities.position(word.bytes).is_some()
    }

    /// The first of these words that is a name and is declared nowhere.
    fn first_undeclared<'t>(&self, words: &[Word<'t>]) -> Option<Word<'t>> {
        for word in words {
            if is_name(*word)
                && !self.has_entity(*word)
                && self.types.position(word.bytes).is_none()
            {
                return Some(*word);
            }
        }
        None
    }

    /// The first of these words that is a name of no entity.
    fn first_no_entity<'t>(&self, words: &[Word<'t>]) -> Option<Word<'t>> {
        for word in words {
            if !word.is(b",") && !self.has_entity(*word) {
                return Some(*word);
            }
        }
        None
    }

    /// The first name in a declaration that is declared nowhere, or not as what it has to be.
    pub(crate) fn first_unknown<'t>(
        &self,
        alloc: Global,
        declaration: Declaration<'_, 't>,
    ) -> Result<Option<Word<'t>>, NoMemory> {
        match declaration.kind {
            Kind::Type => Ok(self.unknown_in_body(declaration.body())),
            Kind::Entity => self.unknown_in_entity(alloc, declaration),
        }
    }

    fn unknown_in_body<'t>(&self, body: &[Word<'t>]) -> Option<Word<'t>> {
        let first = *body.first()?;
        if first.is(b"ENUMERATION") {
            return None;
        }
        if body.len() == 1 && self.has_entity(first) {
            return Some(first);
        }
        self.first_undeclared(body)
    }

    fn unknown_in_entity<'t>(
        &self,
        alloc: Global,
        declaration: Declaration<'_, 't>,
    ) -> Result<Option<Word<'t>>, NoMemory> {
        if let Some(word) = self.first_no_entity(declaration.one_of()) {
            return Ok(Some(word));
        }
        if let Some(word) = self.first_no_entity(declaration.supertypes()) {
            return Ok(Some(word));
        }
        for statement in &statements_of(alloc, declaration)? {
            let owners = owners(alloc, *statement)?;
            if let Some(word) = self.first_undeclared(&owners) {
                return Ok(Some(word));
            }
            if let Some(word) = self.first_undeclared(statement.data_type()) {
                return Ok(Some(word));
            }
        }
        Ok(None)
    }
}

/// The names of the entities or of the types among declarations, where none is declared twice.
fn names_of(
    alloc: Global,
    declarations: &[Declaration],
    kind: Kind,
) -> Result<Option<Names>, NoMemory> {
    let mut names = Vec::new(alloc);
    for declaration in declarations {
        if declaration.kind == kind {
            if let Some(name) = declaration.name() {
                names.push(name.bytes)?;
            }
        }
    }
    Names::of(alloc, &names)
}

/// Names, of which the first ones are refused where one of them stands twice.
#[derive(Drop)]
struct Listed<'t> {
    names: Vec<&'t [u8]>,
}

impl<'t> Parts for Listed<'t> {
    fn is_refused(&self, alloc: Global, count: usize) -> Result<bool, NoMemory> {
        match self.names.get(..count) {
            Some(first) => Ok(!are_distinct(alloc, first)?),
            None => Ok(false),
        }
    }
}

/// The first of these words that is a name and stands in front of itself too.
fn first_repeated<'t>(alloc: Global, words: &[Word<'t>]) -> Result<Option<Word<'t>>, NoMemory> {
    let mut found = Vec::new(alloc);
    let mut names = Vec::new(alloc);
    for word in words {
        if is_name(*word) {
            found.push(*word)?;
            names.push(word.bytes)?;
        }
    }
    let listed = Listed { names };
    let at = first_refused(alloc, &listed, found.len())?;
    match at {
        Some(at) => Ok(found.get(at).copied()),
        None => Ok(None),
    }
}

/// The second of two equal names among the attributes of an entity, or in a list of a declaration.
pub(crate) fn repeated<'t>(
    alloc: Global,
    declaration: Declaration<'_, 't>,
) -> Result<Option<Word<'t>>, NoMemory> {
    match declaration.kind {
        Kind::Entity => repeated_in_entity(alloc, declaration),
        Kind::Type => first_repeated(alloc, declaration.body()),
    }
}

fn repeated_in_entity<'t>(
    alloc: Global,
    entity: Declaration<'_, 't>,
) -> Result<Option<Word<'t>>, NoMemory> {
    let own = own_names(alloc, entity)?;
    if let Some(word) = first_repeated(alloc, &own)? {
        return Ok(Some(word));
    }
    if let Some(word) = first_repeated(alloc, entity.supertypes())? {
        return Ok(Some(word));
    }
    first_repeated(alloc, entity.one_of())
}
