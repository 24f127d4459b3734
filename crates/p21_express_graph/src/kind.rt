//! The items of an enumeration have a set beside their list, which is a tree and not a hash table, so that no choice of
//! items slows a look-up. It holds their texts a second time.
ghost use Rattle.std.specs.Prelude.{IfOk};
ghost use Rattle.p21_express_graph.specs.TextSet.{HasTexts};

use crate::number::{EntityId, TypeId};
use crate::type_use::TypeUse;
use p21_values::{NoMemory, Word};
use std::alloc::Global;
use std::collections::BTreeSet;
use std::marker::Model;

/// What a declared type is (ISO 10303-11, Defined data type, Enumeration data type, Select data type).
#[derive(Debug, Drop)]
pub enum TypeKind {
    /// Another type under its name.
    Alias(TypeUse),
    /// An enumeration, with its items in upper case.
    Items(Words),
    /// A select.
    Choice(Members),
}

/// A member of a select.
#[derive(Clone, Copy, Debug, Drop, PartialEq, Eq)]
pub enum Member {
    Entity(EntityId),
    Defined(TypeId),
}

/// The items of an enumeration, in the order of its declaration, with a set of them.
#[derive(Debug, Drop)]
pub struct Words {
    all: Vec<Word>,
    texts: BTreeSet<Vec<u8>>,
}

impl Model for Words {
    ghost use Rattle.std.specs.Prelude.{ℕ, List};
    ghost use Rattle.p21_express_graph.specs.TextSet.{HasTexts};

    ghost Value = { List (List ℕ) };

    ghost view = { λ words. words.all.items };

    ghost invariant = { λ words. HasTexts words.texts words.all.items };
}

impl Words {
    ghost use Rattle.std.specs.Prelude.{◌≡◌, ◌↔◌, Contains, IfOk, IsTrue};

    /// These words, in this order.
    ///
    /// # Errors
    ///
    /// `NoMemory`.
    pub fn from_vec(alloc: Global, all: Vec<Word>) -> Result<Words, NoMemory>
        ensures { IfOk result (λ words. words ≡ all.items) }
    {
        let texts = texts_of(alloc, &all)?;
        Ok(Words { all, texts })
    }

    /// The words, first to last. It takes no memory.
    pub fn items(&self) -> &[Word]
        ensures { result.now ≡ self.now }
    {
        &self.all
    }

    /// Whether a word is one of them. It takes no memory.
    pub fn has(&self, word: &Word) -> bool
        ensures { IsTrue result ↔ Contains self.now word.now }
    {
        self.texts.contains(word.bytes())
    }
}

/// The characters of words, in a set.
fn texts_of(alloc: Global, words: &[Word]) -> Result<BTreeSet<Vec<u8>>, NoMemory>
    ensures { IfOk result (λ texts. HasTexts texts words.now) }
{
    let mut texts = BTreeSet::new(alloc);
    for word in words {
        let word: &Word = word;
        let text = Vec::from_slice(alloc, word.bytes())?;
        let Ok(_) = texts.insert(text) else {
            return Err(NoMemory);
        };
    }
    Ok(texts)
}

/// The members of a select, in the order of its declaration.
#[derive(Debug, Drop)]
pub struct Members {
    all: Vec<Member>,
}

impl Model for Members {
    ghost use Rattle.std.specs.Prelude.{List};
    ghost use Rattle.p21_express_graph.specs.declared.kind.Member.{Member};

    ghost Value = { List Member };

    ghost view = { λ members. members.all.items };
}

impl Members {
    ghost use Rattle.std.specs.Prelude.{◌≡◌};

    /// These members, in this order. It takes no memory.
    pub fn from_vec(all: Vec<Member>) -> Members
        ensures { result ≡ all.items }
    {
        Members { all }
    }

    /// The members, first to last. It takes no memory.
    pub fn items(&self) -> &[Member]
        ensures { result.now ≡ self.now }
    {
        &self.all
    }
}
