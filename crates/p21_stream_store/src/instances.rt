//! The instances that a session has taken.
//!
//! The kept instances are a list in an order that is left open (a permutation): where lines are kept it is that in
//! which they came, and where none are, those whose memberships are noted stand by name in front of the others.
ghost use Rattle.std.specs.Prelude.{◌≡◌, ◌↔◌, ◌<◌, ◌≤◌, ◌^◌, ℕ, List, [], ◌∷◌, length, slice_get, Contains, IfOk, IfSome, IsNone, IsPermutation, IsTrue, OnErr, OnOk, Some};
ghost use Rattle.std.specs.List.{range_with_len};
ghost use Rattle.std.specs.List.Sorted.{IsNonDecreasingBy};
ghost use Rattle.p21_stream_store.specs.StoredInstance.{StoredInstance, stored_instance, instance_names, name_at};

use crate::named_lines::NamedLines;
use crate::noted::{make_place, note_membership, noted_membership};
use crate::numbers::Numbers;
use crate::pages::Pages;
use p21_values::NoMemory;
use std::alloc::Global;
use std::marker::Model;

/// Instances by name, each with its canonical text and the number of its membership.
pub struct Instances {
    lines: NamedLines,
    // At each name one more than the number of its membership, if that is noted, or 0.
    noted: Pages<u8>,
    // The membership of each instance is noted.
    all_noted: bool,
}

// Written out: crates above call it, where they would prove a derived one field by field.
impl Drop for Instances {
    fn drop(self) {
        let Instances {
            lines: _,
            noted: _,
            all_noted: _,
        } = self;
    }
}

impl Model for Instances {
    ghost use Rattle.std.specs.Prelude.{List, IsTrue};
    ghost use Rattle.p21_stream_store.specs.Noted.{AreAllNoted, AreNoted};
    ghost use Rattle.p21_stream_store.specs.Positions.{position_marked};
    ghost use Rattle.p21_stream_store.specs.StoredInstance.{StoredInstance};

    ghost Value = { List StoredInstance };

    ghost view = { λ a. a.lines };

    ghost invariant = { λ a. AreNoted (position_marked a.noted) a.lines × (IsTrue a.all_noted → AreAllNoted (position_marked a.noted) a.lines) };
}

impl Instances {
    /// A store without instances. It takes no memory.
    pub fn new(alloc: Global) -> Instances
        ensures { result ≡ [] }
    {
        Instances {
            lines: NamedLines::new(alloc),
            noted: Pages::new(alloc),
            all_noted: true,
        }
    }

    /// How many instances there are.
    pub fn len(&self) -> usize
        ensures { result ≡ length self.now }
    {
        self.lines.len()
    }

    /// The number of the membership of the instance at a position. The positions are counted in the order of coming.
    pub fn membership_at(&self, place: usize) -> usize
        requires { place < length self.now }
        ensures { (found : StoredInstance) × (slice_get self.now place ≡ Some found) × (found.membership ≡ result) }
    {
        self.lines.membership_at(place)
    }

    /// The canonical text of the instance at a position.
    pub fn text(&self, place: usize) -> &[u8]
        requires { place < length self.now }
        ensures { (found : StoredInstance) × (slice_get self.now place ≡ Some found) × (found.text ≡ result.now) }
    {
        self.lines.text(place)
    }

    /// The positions of all instances by rising names. Where names rose as they came, they take no memory; else they cost no sort.
    ///
    /// # Errors
    ///
    /// `NoMemory`.
    pub fn order(&self, alloc: Global) -> Result<Numbers, NoMemory>
        ensures places { IfOk result (λ order. IsPermutation (range_with_len 0 (length self.now)) order) }
        ensures rises { IfOk result (λ order. IsNonDecreasingBy (name_at self.now) order) }
    {
        self.lines.order(alloc)
    }

    /// The number of the membership and the canonical text of the instance of this name, if there is one.
    pub fn find(&self, name: u64) -> Option<(usize, &[u8])>
        ensures some { IfSome result (λ found. Contains self.now (record { name = name; membership = found.0; text = found.1.now })) }
        ensures none { IsNone result → Contains (instance_names self.now) name → ⊥ }
    {
        self.lines.find(name)
    }

    /// The number of the membership of the instance of this name, if there is one. Where those of all
    /// instances are noted, as mostly, it takes one look.
    pub fn membership_of(&self, name: u64) -> Option<usize>
        ensures some { IfSome result (λ membership. (text : List ℕ)
            × Contains self.now (record { name = name; membership = membership; text = text })) }
        ensures none { IsNone result → Contains (instance_names self.now) name → ⊥ }
    {
        if let Some(membership) = noted_membership(&self.noted, name) {
            return Some(membership);
        }
        if self.all_noted {
            return None;
        }
        self.lines.membership_of(name)
    }

    /// Whether an instance has this name. That none has is mostly said by its bit, without a look at what is noted.
    #[inline]
    pub fn has_name(&self, name: u64) -> bool
        ensures { IsTrue result ↔ Contains (instance_names self.now) name }
    {
        if !self.lines.may_have(name) {
            return false;
        }
        self.membership_of(name).is_some()
    }

    /// The name and the number of the membership of the first instance whose name is this one or above it, if there is one.
    pub fn next_from(&self, least: u64) -> Option<(u64, usize)>
        ensures found { IfSome result (λ found. (least ≤ found.0) × (found.0 < 2 ^ 64)) }
        ensures some { IfSome result (λ found. (text : List ℕ)
            × Contains self.now (record { name = found.0; membership = found.1; text = text })) }
        ensures between { IfSome result (λ found. (other : ℕ) → least ≤ other → other < found.0 → Contains (instance_names self.now) other
            → ⊥) }
        ensures none { IsNone result → (other : ℕ) → least ≤ other → Contains (instance_names self.now) other → ⊥ }
        ensures fits { (other : ℕ) → Contains (instance_names self.now) other → other < 2 ^ 64 }
    {
        self.lines.next_from(least)
    }

    /// Adds an instance whose name no instance has yet, with the number of its membership and its canonical text.
    ///
    /// # Errors
    ///
    /// `NoMemory`, which changes nothing.
    pub fn push(&mut self, name: u64, membership: usize, text: &[u8]) -> Result<(), NoMemory>
        requires { Contains (instance_names self.old) name → ⊥ }
        ensures ok { OnOk result (IsPermutation (record { name = name; membership = membership; text = text.now } ∷ self.old) self.new) }
        ensures err { OnErr result (self.new ≡ self.old) }
    {
        let count = self.lines.len();
        let Ok(()) = make_place(&mut self.noted, name, count) else {
            return Err(NoMemory);
        };
        let Ok(()) = self.lines.push(name, membership, text) else {
            return Err(NoMemory);
        };
        if note_membership(&mut self.noted, name, membership) {
            return Ok(());
        }
        // Where there is no place to note it, the name is looked up among the lines.
        self.all_noted = false;
        Ok(())
    }
}
