//! The instances that were taken, each with its membership.
ghost use Rattle.std.specs.Prelude.{◌≡◌, ◌↔◌, ◌<◌, [], ◌∷◌, ℕ, Contains, IsPermutation, IsTrue, OnErr, OnOk};
ghost use Rattle.p21_spec_laws.specs.Stored.{IsAmongEarlier, kept_text};
ghost use Rattle.p21_mapping_values.specs.TypedView.{ids_view};
ghost use Rattle.p21_stream_output.specs.Output.{IsNamed};
ghost use Rattle.p21_stream_kept.specs.Inside.{AreNamed, AreOfSections, AreStored, stored_in};
ghost use Rattle.p21_stream_kept.specs.KeptInstances.{are_equal, instances_of, lines_kept};
ghost use Rattle.p21_stream_store.specs.StoredInstance.{instance_names};

use crate::found::FoundInstance;
use crate::kept_instances::KeptInstances;
use p21_stream_store::Memberships;
use p21_values::{Name, NoMemory};
use std::alloc::Global;

/// The instances that were taken, and the memberships that they have.
#[derive(Drop)]
pub struct Stored {
    pub(crate) memberships: Memberships,
    pub(crate) instances: KeptInstances,
}

impl Stored {
    /// None yet, with what will keep them. It takes no memory.
    pub(crate) fn new(alloc: Global, instances: KeptInstances) -> Stored
        ensures memberships { result.memberships ≡ [] }
        ensures instances { result.instances ≡ instances }
    {
        Stored {
            memberships: Memberships::new(alloc),
            instances,
        }
    }

    /// Whether an instance has this name.
    pub(crate) fn has_name(&self, name: Name) -> bool
        ensures { IsTrue result ↔ Contains (instance_names (instances_of self.now.instances)) name }
    {
        self.instances.has_name(name.0)
    }

    /// Adds an instance of a data section, by what is found of it, with its line where lines are kept. It has a name that none has
    /// before it.
    pub(crate) fn push(
        &mut self,
        alloc: Global,
        section: usize,
        found: &FoundInstance<'_>,
    ) -> Result<(), NoMemory>
        requires memberships { AreStored self.old }
        requires another { Contains (instance_names (instances_of self.old.instances)) found.now.name → ⊥ }
        ensures memberships { AreStored self.new }
        ensures sections { (many : ℕ) → section < many → AreOfSections many self.old.memberships → AreOfSections many self.new.memberships }
        ensures named { AreNamed (instances_of self.old.instances)
            → IsNamed found.now.name (kept_text (lines_kept self.old.instances) found.now.line.now)
            → AreNamed (instances_of self.new.instances) }
        ensures lines { lines_kept self.new.instances ≡ lines_kept self.old.instances }
        ensures equal { OnOk result (IsTrue (are_equal self.new.instances)
            ↔ (IsTrue (are_equal self.old.instances) × IsAmongEarlier (lines_kept self.old.instances) (found.now.name, found.now.line.now))) }
        ensures ok { OnOk result (IsPermutation (record {
          name = found.now.name;
          section = section;
          entities = ids_view
              found.now.entities.now;
          text = kept_text (lines_kept self.old.instances) found.now.line.now;
        } ∷ stored_in self.old)
            (stored_in self.new)) }
    {
        let name = found.name;
        let membership = match self.memberships.add(alloc, section, found.entities) {
            Ok(membership) => membership,
            Err(fault) => return Err(fault),
        };
        self.instances.push(name.0, membership, found.line)
    }
}
