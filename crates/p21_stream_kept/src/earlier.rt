//! A file that was read before, beside which another one is read.
ghost use Rattle.std.specs.Prelude.{◌≡◌, ◌↔◌, ◌<◌, ℕ, List, Contains, IfOk, IfSome, IsNone, IsTrue, length, nat_eq};
ghost use Rattle.std.specs.List.{IsDistinct, AllByRecursion as Each};
ghost use Rattle.p21_spec_laws.specs.Beside.{IsInSameSection};
ghost use Rattle.p21_spec_laws.specs.Stored.{StoredEntry, lines_of};
ghost use Rattle.p21_spec_exchange.specs.DataSection.{Heading};
ghost use Rattle.p21_stream_kept.specs.Inside.{AreOfSections, HaveMemberships, stored_of};
ghost use Rattle.p21_stream_kept.specs.Sections.{HaveNumbers};
ghost use Rattle.p21_stream_store.specs.StoredInstance.{instance_names};

use crate::sections::Sections;
use p21_stream_store::{Instances, Memberships, NamedMemberships};
use p21_values::NoMemory;
use std::alloc::Global;
use std::marker::Model;

/// What an earlier file left: the canonical lines of its header records, its data sections, and its instances with their lines.
#[derive(Drop)]
pub struct Earlier {
    header: Vec<u8>,
    sections: Sections,
    memberships: Memberships,
    instances: Instances,
}

impl Model for Earlier {
    ghost use Rattle.p21_spec_laws.specs.Stored.{Earlier as Meant};
    ghost use Rattle.p21_stream_kept.specs.Earlier.{IsEarlier, earlier_in};

    ghost Value = { Meant };

    ghost view = { earlier_in };

    ghost invariant = { IsEarlier };
}

impl Earlier {
    /// What a file left whose instances have different names.
    pub(crate) fn new(
        header: Vec<u8>,
        sections: Sections,
        memberships: Memberships,
        instances: Instances,
    ) -> Earlier
        requires once { IsDistinct nat_eq (instance_names instances) }
        requires memberships { HaveMemberships memberships instances }
        requires sections { AreOfSections (length sections) memberships }
        ensures { result ≡ record { header = header.items; headings = sections; stored = stored_of memberships instances } }
    {
        Earlier {
            header,
            sections,
            memberships,
            instances,
        }
    }

    /// How many instances there are.
    pub(crate) fn count(&self) -> usize
        ensures { result ≡ length self.now.stored }
    {
        self.instances.len()
    }

    /// How many data sections there are.
    pub(crate) fn section_count(&self) -> usize
        ensures { result ≡ length self.now.headings }
    {
        self.sections.items().len()
    }

    /// Whether these are the lines of its header records.
    pub(crate) fn has_header(&self, header: &[u8]) -> bool
        ensures { IsTrue result ↔ (header.now ≡ self.now.header) }
    {
        header == &self.header[..]
    }

    /// Whether this is the line of its instance of this name.
    pub(crate) fn has_line(&self, name: u64, line: &[u8]) -> bool
        ensures { IsTrue result ↔ Contains (lines_of self.now.stored) (name, line.now) }
    {
        match self.instances.find(name) {
            Some((_, text)) => text == line,
            None => false,
        }
    }

    /// For each of these sections the number of one of its own that begins so; nothing where one begins as none of them.
    ///
    /// # Errors
    ///
    /// `NoMemory`.
    pub(crate) fn numbers_of(
        &self,
        alloc: Global,
        sections: &Sections,
    ) -> Result<Option<Vec<usize>>, NoMemory>
        ensures some { IfOk result (λ found. IfSome found (λ numbers. HaveNumbers self.now.headings sections.now numbers.items)) }
        ensures none { IfOk result (λ found. IsNone found → Each (Contains self.now.headings) sections.now → ⊥) }
    {
        self.sections.numbers_of(alloc, sections)
    }

    /// Whether each of its instances stands in a section that begins as the one does in which the later instance of its name
    /// stands, if there is one, by the numbers of its own sections that begin as the later ones.
    pub(crate) fn has_sections(
        &self,
        numbers: &[usize],
        memberships: &Memberships,
        names: &NamedMemberships,
    ) -> bool
        requires once { IsDistinct nat_eq (instance_names names.now) }
        requires memberships { HaveMemberships memberships.now names.now }
        ensures { (headings : List Heading) → HaveNumbers self.now.headings headings numbers.now
            → AreOfSections (length headings) memberships.now → IsTrue result
            ↔ ((y : StoredEntry) → Contains self.now.stored y → IsInSameSection self.now headings (stored_of memberships.now names.now) y) }
    {
        let mut least = 0;
        loop {
            let Some((name, membership)) = self.instances.next_from(least) else {
                return true;
            };
            let (own, _) = self.memberships.get(membership);
            if !self.has_section(name, own, numbers, memberships, names) {
                return false;
            }
            let Some(next) = name.checked_add(1) else {
                return true;
            };
            least = next;
        }
    }

    /// Whether the instance of a name, which stands in this section of its own, stands so.
    fn has_section(
        &self,
        name: u64,
        own: usize,
        numbers: &[usize],
        memberships: &Memberships,
        names: &NamedMemberships,
    ) -> bool
        requires own { own < length self.now.headings }
        requires stored { (entities : List ℕ) × (text : List ℕ)
            × Contains self.now.stored (record { name = name; section = own; entities = entities; text = text }) }
        requires once { IsDistinct nat_eq (instance_names names.now) }
        requires memberships { HaveMemberships memberships.now names.now }
        ensures { (headings : List Heading) → HaveNumbers self.now.headings headings numbers.now
            → AreOfSections (length headings) memberships.now → (y : StoredEntry) → Contains self.now.stored y → y.name ≡ name
            → IsTrue result ↔ IsInSameSection self.now headings (stored_of memberships.now names.now) y }
    {
        let Some(later) = names.membership_of(name) else {
            return true;
        };
        let (its, _) = memberships.get(later);
        match numbers.get(its) {
            Some(number) => self.sections.begin_alike(*number, own),
            None => false,
        }
    }
}
