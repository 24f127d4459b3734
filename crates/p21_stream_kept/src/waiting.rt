//! References that wait for the instances that serve them.
//!
//! References are looked up a thousand at a time (`Waiting`): those of an instance are kept without a look, and once
//! 1,024 have come since the last look, one plain loop looks at them, where nearly all are served; what none serves
//! stays in front. One by one, each look-up stood between the check of an instance and the writing of its line. Looked
//! up together they made `check` of the boundary model faster by six per cent, of oriented edges by one to two, and of
//! the shuffled model by one to four (28 November 2026, with the guess of the serving entity in both). They aren't
//! looked at by pieces of the source: pieces may be of any size, so a piece may have one reference or all. The price is
//! 24 bytes for each of up to a thousand that are served, and for all of one instance; such a list of a million
//! references takes the memory that it took before where they wait. The loop moves references in place and not by
//! `retain`, so that it may guess anew.
//!
//! The room of references that are served is given back where less than half of it is used, and half as much again as
//! is used stays. Giving all of it back had the next references that wait ask for it again: in a file in no order the
//! pages that this took anew were four fifths of all.
ghost use Rattle.std.specs.Prelude.{◌≡◌, ◌<◌, ◌≤◌, ◌+◌, ◌-◌, ◌^◌, [], drop, false, length, max, min, take, vec_capacity, vec_len, IsOk, OnErr, OnOk};
ghost use Rattle.p21_mapping.specs.Checked.{needs_view};
ghost use Rattle.p21_stream_kept.specs.Inside.{AreStored, HasLooked, references_of, stored_in};
ghost use Rattle.p21_stream_kept.specs.Served.{DropsBehind, DropsServed, with_needs};

use crate::found::FoundInstance;
use crate::kept::Reference;
use crate::served::{drop_served, learn_waiting};
use crate::servers::Servers;
use crate::stored::Stored;
use p21_schema::Schema;
use p21_values::NoMemory;
use std::alloc::Global;

/// So many references may come, in any file, before the waiting ones are looked at again.
const PATIENCE: u64 = 1024;

/// So many references are looked up together.
const TOGETHER: usize = 1024;

/// The references that wait, in the order of the file, and when they are looked at.
#[derive(Drop)]
pub struct Waiting {
    references: Vec<Reference>,
    // So many in front were looked at. Those behind them have come since.
    looked: usize,
    // So many references of the file may have come before those that are served are dropped.
    due: u64,
}

impl Waiting {
    /// None. It takes no memory.
    pub(crate) fn new(alloc: Global) -> Waiting
        ensures references { result.references.items ≡ [] }
        ensures looked { result.looked ≡ 0 }
        ensures due { result.due ≡ 1024 }
    {
        Waiting {
            references: Vec::new(alloc),
            looked: 0,
            due: PATIENCE,
        }
    }

    /// The references, in the order of the file.
    pub(crate) fn items(&self) -> &[Reference]
        ensures { result.now ≡ self.now.references.items }
    {
        &self.references
    }

    /// Adds the needs of an instance, whatever serves them. Where there is room for them, nothing is asked for.
    ///
    /// # Errors
    ///
    /// `NoMemory`, which changes nothing.
    #[inline(always)]
    pub(crate) fn add(&mut self, found: &FoundInstance<'_>) -> Result<(), NoMemory>
        requires { HasLooked self.old }
        ensures ok { OnOk result (references_of self.new.references.items ≡ with_needs found.now.name (needs_view found.now.needs.now)
            (references_of self.old.references.items)) }
        ensures full { OnErr result (vec_capacity self.old.references < vec_len self.old.references + length found.now.needs.now) }
        ensures looked { HasLooked self.new }
        ensures due { self.new.due ≡ self.old.due }
    {
        add_needs(found, &mut self.references)
    }

    /// Looks at the references that have come since the last look, where they are 1,024 or more, and drops those that an instance
    /// serves by now. Where more references of the file have come than are due, it looks at all, and as many more may come then as
    /// were left, and 1,024 at least. So for each that comes at most three are looked at, and in between what was left grows
    /// twofold, or by 1,024. Without a look nothing is asked for; a look at all that leaves none gives back the room for more than 2,048.
    ///
    /// # Errors
    ///
    /// `NoMemory`, where which entities serve can't be remembered; the references are looked at all the same. Not where no set is
    /// large.
    pub(crate) fn look_again(
        &mut self,
        schema: &Schema,
        stored: &Stored,
        servers: &mut Servers,
        come: u64,
    ) -> Result<(), NoMemory>
        requires stored { AreStored stored.now }
        requires looked { HasLooked self.old }
        ensures early { come ≤ self.old.due → length self.old.references.items < self.old.looked + 1024
            → self.new.references.items ≡ self.old.references.items }
        ensures together { come ≤ self.old.due → self.old.looked + 1024 ≤ length self.old.references.items
            → DropsBehind schema.now (stored_in stored.now) (references_of (take self.old.looked self.old.references.items))
            (references_of (drop self.old.looked self.old.references.items)) (references_of self.new.references.items) }
        ensures left { self.old.due < come → DropsServed schema.now (stored_in stored.now) (references_of self.old.references.items)
            (references_of self.new.references.items) }
        ensures quiet { come ≤ self.old.due → length self.old.references.items < self.old.looked + 1024 → IsOk result }
        ensures short { self.old.due < come → self.new.references.items ≡ [] → vec_capacity self.new.references ≤ 2048 }
        ensures next { self.old.due < come → self.new.due ≡ min (come + max 1024 (length self.new.references.items)) (2 ^ 64 - 1) }
        ensures looked { HasLooked self.new }
        ensures ahead { come ≤ self.new.due }
        ensures small { servers.old.has_large_sets ≡ false → OnErr result ⊥ }
    {
        if come > self.due {
            let learned = self.look_from(schema, stored, servers, 0);
            self.due = next_due(come, self.references.len());
            return learned;
        }
        if self.references.len() - self.looked < TOGETHER {
            return Ok(());
        }
        self.look_from(schema, stored, servers, self.looked)
    }

    /// Looks at the references from an index on, and drops those that an instance serves by now.
    ///
    /// # Errors
    ///
    /// `NoMemory`, where which entities serve can't be remembered; the references are looked at all the same.
    #[inline(never)]
    fn look_from(
        &mut self,
        schema: &Schema,
        stored: &Stored,
        servers: &mut Servers,
        from: usize,
    ) -> Result<(), NoMemory>
        requires stored { AreStored stored.now }
        requires from { from ≤ length self.old.references.items }
        ensures drops { DropsBehind schema.now (stored_in stored.now) (references_of (take from self.old.references.items))
            (references_of (drop from self.old.references.items)) (references_of self.new.references.items) }
        ensures short { self.new.references.items ≡ [] → vec_capacity self.new.references ≤ 2048 }
        ensures looked { self.new.looked ≡ length self.new.references.items }
        ensures due { self.new.due ≡ self.old.due }
        ensures small { servers.old.has_large_sets ≡ false → OnErr result ⊥ }
    {
        let learned = learn_waiting(schema, stored, servers, &self.references[from..]);
        drop_served(schema, stored, servers, &mut self.references, from);
        self.looked = self.references.len();
        learned
    }
}

/// Adds the needs of an instance.
///
/// # Errors
///
/// `NoMemory`, which changes nothing.
#[inline(always)]
fn add_needs(found: &FoundInstance<'_>, references: &mut Vec<Reference>) -> Result<(), NoMemory>
    ensures ok { OnOk result (references_of references.new.items ≡ with_needs found.now.name (needs_view found.now.needs.now)
        (references_of references.old.items)) }
    ensures full { OnErr result (vec_capacity references.old < vec_len references.old + length found.now.needs.now) }
    ensures more { length references.old.items ≤ length references.new.items }
{
    references.reserve(found.needs.len())?;
    for need in found.needs {
        references.push_reserved(Reference {
            holder: found.name,
            need: *need,
        });
    }
    Ok(())
}

/// How many references may have come before those that wait are looked at again, where so many have come and so many are left.
fn next_due(come: u64, left: usize) -> u64
    ensures due { result ≡ min (come + max 1024 left) (2 ^ 64 - 1) }
    ensures ahead { come ≤ result }
{
    come.saturating_add(PATIENCE.max(left as u64))
}
