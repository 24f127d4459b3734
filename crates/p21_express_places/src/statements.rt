use crate::declarations::{Declaration, Kind};
use crate::words::{Word, behind, up_to};
use p21_values::NoMemory;
use std::alloc::Global;

/// The words that end what an entity says of its attributes.
const ENDS: &[&[u8]] = &[b"INVERSE", b"UNIQUE", b"WHERE", b"END_ENTITY"];

/// Attributes that an entity declares together, up to their `;`.
#[derive(Clone, Copy)]
pub(crate) struct Statement<'w, 't> {
    pub(crate) words: &'w [Word<'t>],
    pub(crate) is_derived: bool,
}

impl<'w, 't> Statement<'w, 't> {
    /// What stands in front of its `:`.
    pub(crate) fn names(self) -> &'w [Word<'t>] {
        up_to(self.words, b":")
    }

    /// The type of explicit attributes; nothing of derived ones.
    pub(crate) fn data_type(self) -> &'w [Word<'t>] {
        if self.is_derived {
            return &self.words[..0];
        }
        up_to(behind(self.words, b":"), b";")
    }

    /// Whether it declares an inherited attribute anew.
    pub(crate) fn is_anew(self) -> bool {
        for word in self.names() {
            if word.is(b"SELF") {
                return true;
            }
        }
        false
    }
}

/// The statements of an entity that declare attributes, explicit and derived; none of a type.
pub(crate) fn statements_of<'w, 't>(
    alloc: Global,
    declaration: Declaration<'w, 't>,
) -> Result<Vec<Statement<'w, 't>>, NoMemory> {
    let mut found = Vec::new(alloc);
    if declaration.kind == Kind::Type {
        return Ok(found);
    }
    let words = behind(declaration.words, b";");
    let mut start = 0;
    let mut is_derived = false;
    for _ in 0..words.len() {
        let Some(first) = words.get(start) else {
            return Ok(found);
        };
        if ends_attributes(*first) {
            return Ok(found);
        }
        if first.is(b"DERIVE") {
            is_derived = true;
            start = start.saturating_add(1);
            continue;
        }
        let end = end_of_statement(words, start);
        found.push(Statement {
            words: words.get(start..end).unwrap_or(words),
            is_derived,
        })?;
        start = end;
    }
    Ok(found)
}

/// Where what follows the first `;` from a place on begins.
fn end_of_statement(words: &[Word], start: usize) -> usize {
    for at in start..words.len() {
        if words[at].is(b";") {
            return at.saturating_add(1);
        }
    }
    words.len()
}

fn ends_attributes(word: Word) -> bool {
    for end in ENDS {
        if word.is(end) {
            return true;
        }
    }
    false
}

/// The names that an entity gives to attributes of its own.
pub(crate) fn own_names<'t>(
    alloc: Global,
    declaration: Declaration<'_, 't>,
) -> Result<Vec<Word<'t>>, NoMemory> {
    let mut names = Vec::new(alloc);
    for statement in &statements_of(alloc, declaration)? {
        let mut rest = statement.names();
        for _ in 0..statement.words.len() {
            let item = up_to(rest, b",");
            if item.len() == 1 {
                names.push(item[0])?;
            }
            rest = behind(rest, b",");
        }
    }
    Ok(names)
}

/// The entities whose attributes a statement declares anew: each stands two words behind a SELF.
pub(crate) fn owners<'t>(
    alloc: Global,
    statement: Statement<'_, 't>,
) -> Result<Vec<Word<'t>>, NoMemory> {
    let mut found = Vec::new(alloc);
    let names = statement.names();
    for at in 0..names.len() {
        if names[at].is(b"SELF") {
            if let Some(owner) = names.get(at.saturating_add(2)) {
                found.push(*owner)?;
            }
        }
    }
    Ok(found)
}
