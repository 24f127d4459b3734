//! Texts of instances by number, each with the number of a membership.
ghost use Rattle.std.specs.Prelude.{◌≡◌, ◌<◌, ℕ, List, [], ◌∷◌, ◌++◌, length, slice_get, OnOk, Some};
ghost use Rattle.p21_stream_store.specs.StoredTexts.{HasRoom};

use crate::numbers::Widths;
use crate::rows::Row;
use crate::texts::Texts;
use p21_values::NoMemory;
use std::alloc::Global;
use std::marker::Model;

/// Texts in the order in which they came, each with its membership. They don't move when more come.
#[derive(Drop)]
pub struct StoredTexts {
    memberships: Widths,
    texts: Texts,
}

impl Model for StoredTexts {
    ghost use Rattle.std.specs.Prelude.{◌≡◌, length};
    ghost use Rattle.std.specs.List.{zip};
    ghost use Rattle.p21_stream_store.specs.StoredTexts.{HeldLines};

    ghost Value = { HeldLines };

    ghost view = { λ a. record { lines = zip (⟦<Widths as Row>⟧.numbers a.memberships) a.texts.texts; memberships_room = ⟦<Widths as Row>⟧.room a.memberships; text_room = a.texts.room } };

    ghost invariant = { λ a. length (⟦<Widths as Row>⟧.numbers a.memberships) ≡ length a.texts.texts };
}

impl StoredTexts {
    /// A list without texts. It takes no memory.
    pub fn new(alloc: Global) -> StoredTexts
        ensures { result.lines ≡ [] }
    {
        StoredTexts {
            memberships: Widths::new(alloc),
            texts: Texts::new(alloc),
        }
    }

    /// The number of the membership and the text of an instance, by its index.
    pub fn get(&self, index: usize) -> (usize, &[u8])
        requires { index < length self.now.lines }
        ensures { slice_get self.now.lines index ≡ Some (result.0, result.1.now) }
    {
        (self.memberships.get(index), self.texts.get(index))
    }

    /// The number of the membership of an instance, by its index.
    pub fn membership(&self, index: usize) -> usize
        requires { index < length self.now.lines }
        ensures { (text : List ℕ) × (slice_get self.now.lines index ≡ Some (result, text)) }
    {
        self.memberships.get(index)
    }

    /// The text of an instance, by its index.
    pub fn text(&self, index: usize) -> &[u8]
        requires { index < length self.now.lines }
        ensures { (membership : ℕ) × (slice_get self.now.lines index ≡ Some (membership, result.now)) }
    {
        self.texts.get(index)
    }

    /// Makes room for a text of this size and its membership.
    ///
    /// # Errors
    ///
    /// `NoMemory`. Nothing is added.
    pub fn reserve(&mut self, size: usize) -> Result<(), NoMemory>
        ensures same { self.new.lines ≡ self.old.lines }
        ensures ok { OnOk result (HasRoom self.new size) }
    {
        // Looked at, so that the proof knows that 64 bits count the texts.
        let _count = self.memberships.len();
        self.memberships.make_place()?;
        self.texts.reserve(size)
    }

    /// Adds a text with the number of its membership, for which there is room.
    pub fn push_reserved(&mut self, membership: usize, text: &[u8])
        requires { HasRoom self.old (length text.now) }
        ensures { self.new.lines ≡ self.old.lines ++ (membership, text.now) ∷ [] }
    {
        self.memberships.put(membership);
        self.texts.push_reserved(text);
    }
}
