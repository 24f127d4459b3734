ghost use Rattle.std.specs.Prelude.{◌≡◌, ◌↔◌, ℕ, List, [], ◌∷◌, length, Contains, IfSome, IsNone, IsPermutation, IsTrue, OnErr, OnOk};
ghost use Rattle.p21_spec_laws.specs.Stored.{IsAmongEarlier, kept_text, with_lines};
ghost use Rattle.p21_stream_kept.specs.KeptInstances.{are_equal, instances_of, lines_kept};
ghost use Rattle.p21_stream_store.specs.StoredInstance.{instance_names};

use crate::beside::Beside;
use p21_stream_store::{Instances, NamedMemberships};
use p21_values::NoMemory;

/// The instances that were taken, each with its name and its membership.
#[derive(Drop)]
pub enum KeptInstances {
    /// With their lines.
    WithLines(Instances),
    /// Without, where they are counted alone.
    Counted(NamedMemberships),
    /// Without, where each is held against the lines of an earlier file.
    Beside(Beside),
}

impl KeptInstances {
    /// How many instances there are.
    pub(crate) fn len(&self) -> usize
        ensures { result ≡ length (instances_of self.now) }
    {
        match self {
            KeptInstances::WithLines(instances) => instances.len(),
            KeptInstances::Counted(names) => names.len(),
            KeptInstances::Beside(later) => later.names.len(),
        }
    }

    /// The number of the membership of the instance of this name, if there is one.
    #[inline(always)]
    pub(crate) fn membership_of(&self, name: u64) -> Option<usize>
        ensures some { IfSome result (λ membership. (text : List ℕ)
            × Contains (instances_of self.now) (record { name = name; membership = membership; text = text })) }
        ensures none { IsNone result → Contains (instance_names (instances_of self.now)) name → ⊥ }
    {
        match self {
            KeptInstances::WithLines(instances) => instances.membership_of(name),
            KeptInstances::Counted(names) => names.membership_of(name),
            KeptInstances::Beside(later) => later.names.membership_of(name),
        }
    }

    /// Whether an instance has this name.
    #[inline(always)]
    pub(crate) fn has_name(&self, name: u64) -> bool
        ensures { IsTrue result ↔ Contains (instance_names (instances_of self.now)) name }
    {
        match self {
            KeptInstances::WithLines(instances) => instances.has_name(name),
            KeptInstances::Counted(names) => names.has_name(name),
            KeptInstances::Beside(later) => later.names.has_name(name),
        }
    }

    /// Adds an instance whose name no instance has yet, with the number of its membership, and with its line where lines are kept;
    /// where an earlier file stands beside, the line is held against its lines.
    ///
    /// # Errors
    ///
    /// `NoMemory`, which changes nothing.
    pub(crate) fn push(&mut self, name: u64, membership: usize, line: &[u8]) -> Result<(), NoMemory>
        requires { Contains (instance_names (instances_of self.old)) name → ⊥ }
        ensures ok { OnOk result (IsPermutation (record {
          name = name;
          membership = membership;
          text = kept_text (lines_kept self.old)
              line.now;
        } ∷ instances_of self.old) (instances_of self.new)) }
        ensures err { OnErr result (instances_of self.new ≡ instances_of self.old) }
        ensures lines { lines_kept self.new ≡ lines_kept self.old }
        ensures equal { OnOk result (IsTrue (are_equal self.new)
            ↔ (IsTrue (are_equal self.old) × IsAmongEarlier (lines_kept self.old) (name, line.now))) }
        ensures unequal { OnErr result (are_equal self.new ≡ are_equal self.old) }
    {
        match self {
            KeptInstances::WithLines(instances) => instances.push(name, membership, line),
            KeptInstances::Counted(names) => names.push(name, membership),
            KeptInstances::Beside(later) => later.push(name, membership, line),
        }
    }

    /// The instances with their lines, where lines are kept.
    pub(crate) fn into_lines(self) -> Instances
        requires { lines_kept self ≡ with_lines }
        ensures { result ≡ instances_of self }
    {
        match self {
            KeptInstances::WithLines(instances) => instances,
            KeptInstances::Counted(_) | KeptInstances::Beside(_) => unreachable!(),
        }
    }
}
