//! What a survey lists of the statements that it reads, and what it knows of them.
ghost use Rattle.std.specs.Prelude.{◌≡◌, ◌≤◌, ◌<◌, ◌↔◌, ◌⊎◌, ◌∷◌, ◌++◌, [], IfErr, IsTrue, OnOk, false, suc, true};
ghost use Rattle.std.specs.BTreeSet.{Updates};
ghost use Rattle.std.specs.Ordering.{nat_cmp};

use crate::listed::Listed;
use crate::noting::{Noted, note};
use p21_stream_sieve::{PassedOver, Spots};
use p21_stream_statements::{At, Fault, Refusal};
use p21_values::{Name, NoMemory};
use std::alloc::Global;
use std::collections::BTreeSet;

/// A record that is refused by what is known of its entity is walked through for the place where fewer refusals are listed than these.
const MOST_WALKED: usize = 4_096;

/// What is listed of the statements that are read.
#[derive(Drop)]
pub(crate) struct Listing {
    pub list: Vec<Listed>,
    // The names of the instances that were refused and passed over.
    pub passed: BTreeSet<u64>,
    // The number of the next statement, counted from 1, with each stretch that is passed over.
    pub statement: u64,
    // Whether bytes were passed over.
    pub is_broken: bool,
    // Where the refusals stand that are listed, where that is asked for.
    pub spots: Spots,
}

impl Listing {
    /// Nothing is listed, and places are noted where they are asked for. It takes no memory.
    pub(crate) fn new(alloc: Global, are_places_asked: bool) -> Listing
        ensures list { result.list.items ≡ [] }
        ensures passed { result.passed.keys ≡ [] }
        ensures statement { result.statement ≡ 1 }
        ensures whole { result.is_broken ≡ false }
    {
        Listing {
            list: Vec::new(alloc),
            passed: BTreeSet::new(alloc),
            statement: 1,
            is_broken: false,
            spots: Spots::new(alloc, are_places_asked),
        }
    }

    /// Whether a record that is refused by what is known of its entity is walked through for the place. It takes no memory.
    pub(crate) fn is_walked(&self) -> bool {
        self.spots.is_asked() && self.list.len() < MOST_WALKED
    }

    /// Counts a statement. No file has as many as 64 bits count, so that want of memory is said of one that had.
    ///
    /// # Errors
    ///
    /// `NoMemory`.
    pub(crate) fn count(&mut self) -> Result<(), NoMemory>
        ensures list { self.new.list.items ≡ self.old.list.items }
        ensures passed { self.new.passed ≡ self.old.passed }
        ensures statement { OnOk result (self.new.statement ≡ suc self.old.statement) }
        ensures broken { self.new.is_broken ≡ self.old.is_broken }
    {
        match self.statement.checked_add(1) {
            Some(next) => {
                self.statement = next;
                Ok(())
            }
            None => Err(NoMemory),
        }
    }

    /// Lists a refusal behind which the reading goes on, with its place, and counts its statement.
    ///
    /// # Errors
    ///
    /// `NoMemory`.
    pub(crate) fn list(
        &mut self,
        fault: Fault,
        at: At,
        begins: u64,
        noted: Noted<'_>,
    ) -> Result<(), NoMemory>
        ensures list { OnOk result (self.new.list.items ≡ self.old.list.items ++ record { fault = fault; at = at; begins = begins } ∷ []) }
        ensures passed { self.new.passed ≡ self.old.passed }
        ensures statement { OnOk result (self.new.statement ≡ suc self.old.statement) }
        ensures broken { self.new.is_broken ≡ self.old.is_broken }
    {
        let refusal = Refusal { fault, at };
        let listed = Listed {
            fault: refusal.fault,
            at: refusal.at,
            begins,
        };
        let Ok(()) = self.list.push(listed) else {
            return Err(NoMemory);
        };
        note(&mut self.spots, refusal, begins, noted);
        self.count()
    }

    /// Lists a refusal of the next statement, which is passed over by so many bytes, and counts it.
    ///
    /// # Errors
    ///
    /// `NoMemory`.
    pub(crate) fn pass_over(
        &mut self,
        fault: Fault,
        at: At,
        begins: u64,
        passed: usize,
        noted: Noted<'_>,
    ) -> Result<(), NoMemory>
        ensures list { OnOk result (self.new.list.items ≡ self.old.list.items ++ record { fault = fault; at = at; begins = begins } ∷ []) }
        ensures passed { self.new.passed ≡ self.old.passed }
        ensures statement { OnOk result (self.new.statement ≡ suc self.old.statement) }
        ensures broken { OnOk result (IsTrue self.new.is_broken ↔ (IsTrue self.old.is_broken ⊎ (0 < passed))) }
    {
        match self.list(fault, at, begins, noted) {
            Ok(()) => {
                if passed > 0 {
                    self.is_broken = true;
                    let ends = noted.behind(passed);
                    self.spots.note_passed_over(PassedOver { begins, ends });
                }
                Ok(())
            }
            Err(NoMemory) => Err(NoMemory),
        }
    }

    /// Knows an instance of this name as passed over.
    ///
    /// # Errors
    ///
    /// `NoMemory`.
    pub(crate) fn pass(&mut self, name: Name) -> Result<(), NoMemory>
        ensures list { self.new.list.items ≡ self.old.list.items }
        ensures passed { OnOk result (Updates nat_cmp self.old.passed self.new.passed name true) }
        ensures statement { self.new.statement ≡ self.old.statement }
        ensures broken { self.new.is_broken ≡ self.old.is_broken }
    {
        match self.passed.insert(name.0) {
            Ok(_) => Ok(()),
            Err(_) => Err(NoMemory),
        }
    }
}
