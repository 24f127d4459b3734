//! Memberships of instances by name, where no lines are kept.
ghost use Rattle.std.specs.Prelude.{◌≡◌, ◌↔◌, ◌≤◌, ◌+◌, ◌*◌, ℕ, List, [], ◌∷◌, length, Contains, IfOk, IfSome, IsNone, IsPermutation, IsTrue, MatchBool, OnErr, OnOk, Some};
ghost use Rattle.p21_stream_store.specs.Pages.{most_names};
ghost use Rattle.p21_stream_store.specs.Positions.{Changes, IsSame, position_marked};
ghost use Rattle.p21_stream_store.specs.StoredInstance.{StoredInstance, instance_names};
ghost use Rattle.p21_stream_store.specs.Tables.{GrowsWithin};

use crate::named_lines::NamedLines;
use crate::noted::{note, noted_membership};
use crate::pages::Pages;
use crate::seen::{self, may_have_come};
use p21_values::NoMemory;
use std::alloc::Global;
use std::marker::Model;

/// The names of instances, each with the number of its membership and with no text. A name takes a byte, whatever order names
/// come in; those that have no byte stand among the others.
pub struct NamedMemberships {
    // At each name one more than the number of its membership, if that is noted, or 0.
    noted: Pages<u8>,
    // So many names are noted; in 32 bits, so that a sum of counts stays in 64.
    count: u32,
    others: NamedLines,
    // A bit for each small name that has come.
    seen: Vec<u64>,
}

// Written out: crates above call it, where they would prove a derived one field by field.
impl Drop for NamedMemberships {
    fn drop(self) {
        let NamedMemberships {
            noted: _,
            count: _,
            others: _,
            seen: _,
        } = self;
    }
}

impl Model for NamedMemberships {
    ghost use Rattle.std.specs.Prelude.{◌≡◌, ◌++◌, List, length};
    ghost use Rattle.p21_stream_store.specs.NamedMemberships.{AreSeen, noted_in};
    ghost use Rattle.p21_stream_store.specs.StoredInstance.{StoredInstance};

    ghost Value = { List StoredInstance };

    ghost view = { λ a. noted_in a.noted ++ a.others };

    ghost invariant = { λ a. (a.count ≡ length (noted_in a.noted)) × AreSeen a.seen.items (noted_in a.noted ++ a.others) };
}

impl NamedMemberships {
    /// No names. It takes no memory.
    pub fn new(alloc: Global) -> NamedMemberships
        ensures { result ≡ [] }
    {
        NamedMemberships {
            noted: Pages::new(alloc),
            count: 0,
            others: NamedLines::new(alloc),
            seen: Vec::new(alloc),
        }
    }

    /// How many names there are.
    pub fn len(&self) -> usize
        ensures { result ≡ length self.now }
    {
        self.count as usize + self.others.count()
    }

    /// The number of the membership of the instance of this name, if there is one. Mostly it is noted.
    pub fn membership_of(&self, name: u64) -> Option<usize>
        ensures some { IfSome result (λ membership. (text : List ℕ)
            × Contains self.now (record { name = name; membership = membership; text = text })) }
        ensures none { IsNone result → Contains (instance_names self.now) name → ⊥ }
    {
        if let Some(membership) = noted_membership(&self.noted, name) {
            return Some(membership);
        }
        self.others.membership_of(name)
    }

    /// Whether an instance has this name. That none has is mostly said by its bit, without a look at what is noted.
    #[inline]
    pub fn has_name(&self, name: u64) -> bool
        ensures { IsTrue result ↔ Contains (instance_names self.now) name }
    {
        if !may_have_come(&self.seen, name) {
            return false;
        }
        self.membership_of(name).is_some()
    }

    /// Adds a name that isn't there yet, with the number of its membership.
    ///
    /// # Errors
    ///
    /// `NoMemory`, which changes nothing.
    pub fn push(&mut self, name: u64, membership: usize) -> Result<(), NoMemory>
        requires { Contains (instance_names self.old) name → ⊥ }
        ensures ok { OnOk result (IsPermutation (record { name = name; membership = membership; text = [] } ∷ self.old) self.new) }
        ensures err { OnErr result (self.new ≡ self.old) }
    {
        let Ok(()) = seen::note(&mut self.seen, name) else {
            return Err(NoMemory);
        };
        let all = self.len();
        match count_noted(&mut self.noted, &mut self.count, name, membership, all) {
            Ok(true) => Ok(()),
            Ok(false) => self.others.push(name, membership, b""),
            Err(fault) => Err(fault),
        }
    }
}

/// Notes the membership of a name of which nothing is noted, where there is a place for it or may be one more, and counts it; says
/// whether it did. So many names have come.
fn count_noted(
    noted: &mut Pages<u8>,
    count: &mut u32,
    name: u64,
    membership: usize,
    all: usize,
) -> Result<bool, NoMemory>
    ensures noted { IfOk result (λ done. MatchBool done
        (Changes (position_marked noted.old) name (Some membership) (position_marked noted.new))
        (IsSame (position_marked noted.old) (position_marked noted.new))) }
    ensures count { IfOk result (λ done. MatchBool done (count.new ≡ count.old + 1) (count.new ≡ count.old)) }
    ensures err { OnErr result (IsSame (position_marked noted.old) (position_marked noted.new) × (count.new ≡ count.old)) }
    ensures room { GrowsWithin (most_names all) noted.old noted.new }
{
    if *count == u32::MAX {
        return Ok(false);
    }
    let Ok(done) = note(noted, name, membership, all) else {
        return Err(NoMemory);
    };
    if done {
        *count += 1;
    }
    Ok(done)
}
