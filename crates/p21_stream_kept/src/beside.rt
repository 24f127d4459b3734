//! The instances of a file that is read beside an earlier one.
ghost use Rattle.std.specs.Prelude.{◌≡◌, ◌↔◌, ℕ, List, [], ◌∷◌, Contains, IfOk, IsPermutation, IsTrue, OnErr, OnOk, length, nat_eq, true};
ghost use Rattle.std.specs.List.{IsDistinct};
ghost use Rattle.p21_spec_laws.specs.Beside.{IsSameBeside};
ghost use Rattle.p21_spec_laws.specs.Stored.{lines_of};
ghost use Rattle.p21_stream_kept.specs.Earlier.{HasCounts};
ghost use Rattle.p21_stream_kept.specs.Inside.{AreOfSections, HaveMemberships, stored_of};
ghost use Rattle.p21_stream_store.specs.StoredInstance.{instance_names};

use crate::earlier::Earlier;
use crate::sections::Sections;
use p21_stream_store::{Memberships, NamedMemberships};
use p21_values::NoMemory;
use std::alloc::Global;

/// The names and memberships of the instances that were taken, and whether each line was a line of the earlier file. None of the
/// lines is kept.
#[derive(Drop)]
pub struct Beside {
    pub(crate) earlier: Earlier,
    pub(crate) names: NamedMemberships,
    pub(crate) equal: bool,
}

impl Beside {
    /// No instances. It takes no memory.
    pub(crate) fn new(alloc: Global, earlier: Earlier) -> Beside
        ensures earlier { result.earlier ≡ earlier }
        ensures none { result.names ≡ [] }
        ensures equal { result.equal ≡ true }
    {
        Beside {
            earlier,
            names: NamedMemberships::new(alloc),
            equal: true,
        }
    }

    /// Adds an instance whose name no instance has yet, with the number of its membership, and holds its line against the earlier
    /// file.
    ///
    /// # Errors
    ///
    /// `NoMemory`, which changes nothing.
    pub(crate) fn push(&mut self, name: u64, membership: usize, line: &[u8]) -> Result<(), NoMemory>
        requires { Contains (instance_names self.old.names) name → ⊥ }
        ensures ok { OnOk result (IsPermutation (record { name = name; membership = membership; text = [] } ∷ self.old.names)
            self.new.names) }
        ensures err { OnErr result (self.new ≡ self.old) }
        ensures earlier { self.new.earlier ≡ self.old.earlier }
        ensures equal { OnOk result (IsTrue self.new.equal
            ↔ (IsTrue self.old.equal × Contains (lines_of self.old.earlier.stored) (name, line.now))) }
    {
        let Ok(()) = self.names.push(name, membership) else {
            return Err(NoMemory);
        };
        self.equal = self.equal && self.earlier.has_line(name, line);
        Ok(())
    }

    /// Whether the file with these header lines, sections and memberships is the same as the earlier one.
    ///
    /// # Errors
    ///
    /// `NoMemory`, which wants the numbers of the sections.
    pub(crate) fn is_same(
        &self,
        alloc: Global,
        header: &[u8],
        sections: &Sections,
        memberships: &Memberships,
    ) -> Result<bool, NoMemory>
        requires once { IsDistinct nat_eq (instance_names self.now.names) }
        requires memberships { HaveMemberships memberships.now self.now.names }
        requires sections { AreOfSections (length sections.now) memberships.now }
        ensures { IfOk result (λ same. IsTrue same ↔ IsSameBeside self.now.earlier self.now.equal header.now sections.now
            (stored_of memberships.now self.now.names)) }
    {
        if !self.has_counts(header, sections) {
            return Ok(false);
        }
        let found = self.earlier.numbers_of(alloc, sections)?;
        match found {
            Some(numbers) => Ok(
                self.earlier
                    .has_sections(&numbers, memberships, &self.names),
            ),
            None => Ok(false),
        }
    }

    /// Whether each line was one of the earlier file, the header lines are its own, and there are as many instances and sections.
    fn has_counts(&self, header: &[u8], sections: &Sections) -> bool
        ensures { IsTrue result ↔ HasCounts self.now.earlier self.now.equal header.now sections.now self.now.names }
    {
        self.equal
            && self.names.len() == self.earlier.count()
            && self.earlier.has_header(header)
            && sections.items().len() == self.earlier.section_count()
    }
}
