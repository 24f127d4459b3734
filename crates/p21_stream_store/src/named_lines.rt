//! Lines of instances by name.
//!
//! All room is asked for before anything is added (`NamedLines::push`): first that of the text, of its start and of its
//! membership, then that of the name, which is stored where it is found and otherwise leaves all as it was; the text is
//! added last, and that can't fail. So nothing has to be taken back. If the last block doesn't take the text, an empty
//! one follows it by then, which changes no text. Room for a membership is asked for in each of its widths, some 300
//! bytes in all while there are few, so that its number needn't be known.
ghost use Rattle.std.specs.Prelude.{◌≡◌, ◌+◌, ◌<◌, ◌^◌, ℕ, List, [], ◌∷◌, length, slice_get, Contains, IfSome, IsNone, IsPermutation, OnErr, OnOk, Some, false};
ghost use Rattle.p21_stream_store.specs.StoredInstance.{StoredInstance, instance_names};

use crate::name_table::NameTable;
use crate::seen::{may_have_come, note};
use crate::stored_texts::StoredTexts;
use p21_values::NoMemory;
use std::alloc::Global;
use std::marker::Model;

/// Instances by name in the order in which they came, each with its canonical text and the number of its membership. The texts
/// stay where they were written, and a table has the position of each name.
pub struct NamedLines {
    // A bit for each small name that has come.
    seen: Vec<u64>,
    pub(crate) names: NameTable,
    pub(crate) texts: StoredTexts,
}

// Written out: crates above call it, where they would prove a derived one field by field.
impl Drop for NamedLines {
    fn drop(self) {
        let NamedLines {
            seen: _,
            names: _,
            texts: _,
        } = self;
    }
}

impl Model for NamedLines {
    ghost use Rattle.std.specs.Prelude.{List};
    ghost use Rattle.p21_stream_store.specs.NamedLines.{IsSound};
    ghost use Rattle.p21_stream_store.specs.StoredInstance.{StoredInstance, stored_instances};

    ghost Value = { List StoredInstance };

    ghost view = { λ a. stored_instances a.names a.texts.lines };

    ghost invariant = { IsSound };
}

impl NamedLines {
    /// A store without instances. It takes no memory.
    pub fn new(alloc: Global) -> NamedLines
        ensures { result ≡ [] }
    {
        NamedLines {
            seen: Vec::new(alloc),
            names: NameTable::new(alloc),
            texts: StoredTexts::new(alloc),
        }
    }

    /// How many instances there are.
    pub fn len(&self) -> usize
        ensures { result ≡ length self.now }
    {
        self.count()
    }

    /// How many instances there are, as `len` says, and that with 32 bits more a sum stays in 64 bits.
    pub(crate) fn count(&self) -> usize
        ensures len { result ≡ length self.now }
        ensures small { result + 2 ^ 32 < 2 ^ 64 }
    {
        self.names.len()
    }

    /// The number of the membership of the instance at a position. The positions are counted in the order of coming.
    pub fn membership_at(&self, place: usize) -> usize
        requires { place < length self.now }
        ensures { (found : StoredInstance) × (slice_get self.now place ≡ Some found) × (found.membership ≡ result) }
    {
        self.texts.membership(place)
    }

    /// The canonical text of the instance at a position.
    pub fn text(&self, place: usize) -> &[u8]
        requires { place < length self.now }
        ensures { (found : StoredInstance) × (slice_get self.now place ≡ Some found) × (found.text ≡ result.now) }
    {
        self.texts.text(place)
    }

    /// The number of the membership and the canonical text of the instance of this name, if there is one.
    pub fn find(&self, name: u64) -> Option<(usize, &[u8])>
        ensures some { IfSome result (λ found. Contains self.now (record { name = name; membership = found.0; text = found.1.now })) }
        ensures none { IsNone result → Contains (instance_names self.now) name → ⊥ }
    {
        match self.names.position_of(name) {
            Some(place) => Some(self.texts.get(place)),
            None => None,
        }
    }

    /// Whether an instance may have this name: none has it where its bit isn't set.
    #[inline]
    pub(crate) fn may_have(&self, name: u64) -> bool
        ensures { result ≡ false → Contains (instance_names self.now) name → ⊥ }
    {
        may_have_come(&self.seen, name)
    }

    /// The number of the membership of the instance of this name, if there is one.
    #[inline]
    pub fn membership_of(&self, name: u64) -> Option<usize>
        ensures some { IfSome result (λ membership. (text : List ℕ)
            × Contains self.now (record { name = name; membership = membership; text = text })) }
        ensures none { IsNone result → Contains (instance_names self.now) name → ⊥ }
    {
        if !self.may_have(name) {
            return None;
        }
        self.membership_found(name)
    }

    /// The same by the table, without a look at the bits.
    #[inline(never)]
    fn membership_found(&self, name: u64) -> Option<usize>
        ensures some { IfSome result (λ membership. (text : List ℕ)
            × Contains self.now (record { name = name; membership = membership; text = text })) }
        ensures none { IsNone result → Contains (instance_names self.now) name → ⊥ }
    {
        match self.names.position_of(name) {
            Some(place) => Some(self.texts.membership(place)),
            None => None,
        }
    }

    /// Adds an instance whose name no instance has yet, with the number of its membership and its canonical text. All room is
    /// asked for before anything is added.
    ///
    /// # Errors
    ///
    /// `NoMemory`, which changes nothing.
    pub fn push(&mut self, name: u64, membership: usize, text: &[u8]) -> Result<(), NoMemory>
        requires { Contains (instance_names self.old) name → ⊥ }
        ensures ok { OnOk result (IsPermutation (record { name = name; membership = membership; text = text.now } ∷ self.old) self.new) }
        ensures err { OnErr result (self.new ≡ self.old) }
    {
        let Ok(()) = note(&mut self.seen, name) else {
            return Err(NoMemory);
        };
        let Ok(()) = self.texts.reserve(text.len()) else {
            return Err(NoMemory);
        };
        let Ok(()) = self.names.push(name) else {
            return Err(NoMemory);
        };
        self.texts.push_reserved(membership, text);
        Ok(())
    }
}
