//! The instances of an accepted file.
ghost use Rattle.std.specs.Prelude.{◌≡◌, ◌≤◌, ◌<◌, ℕ, Contains, IfSome, IsNone};
ghost use Rattle.p21_model.specs.Kept.{AreStated, IsKeptLine, IsStated};
ghost use Rattle.p21_stream_output.specs.Output.{IsSectionLine};
ghost use Rattle.p21_stream_store.specs.StoredInstance.{instance_names};

use crate::instance::Instance;
use p21_schema::Schema;
use p21_stream_output::Accepted;
use p21_values::Name;

/// An accepted file with the schema under which it was accepted.
#[derive(Clone, Copy)]
pub struct AcceptedModel<'a> {
    pub schema: &'a Schema,
    pub accepted: &'a Accepted,
}

impl<'a> AcceptedModel<'a> {
    /// The instance of this name, if there is one. It takes no memory, and doesn't walk.
    pub fn instance(self, name: Name) -> Option<Instance<'a>>
        ensures name { IfSome result (λ found. found.name ≡ name) }
        ensures schema { IfSome result (λ found. found.schema.now ≡ self.entry.schema.now) }
        ensures some { IfSome result (λ found. IsKeptLine self.entry.accepted.now.kept found.name found.line.now) }
        ensures stated { AreStated self.entry.schema.now self.entry.accepted.now.kept → IfSome result IsStated }
        ensures none { IsNone result → Contains (instance_names self.entry.accepted.now.kept) name → ⊥ }
    {
        let line = self.accepted.line(name)?;
        Some(Instance {
            schema: self.schema,
            name,
            line,
        })
    }

    /// The first instance whose name is this one or above it, if there is one. It takes no memory.
    pub fn first_from(self, least: Name) -> Option<Instance<'a>>
        ensures from { IfSome result (λ found. least ≤ found.name) }
        ensures schema { IfSome result (λ found. found.schema.now ≡ self.entry.schema.now) }
        ensures some { IfSome result (λ found. IsKeptLine self.entry.accepted.now.kept found.name found.line.now) }
        ensures stated { AreStated self.entry.schema.now self.entry.accepted.now.kept → IfSome result IsStated }
        ensures between { IfSome result (λ found. (other : ℕ) → least ≤ other → other < found.name
            → Contains (instance_names self.entry.accepted.now.kept) other → ⊥) }
        ensures none { IsNone result → (other : ℕ) → least ≤ other → Contains (instance_names self.entry.accepted.now.kept) other → ⊥ }
    {
        let Some(found) = self.accepted.first_from(least) else {
            return None;
        };
        Some(Instance {
            schema: self.schema,
            name: found.0,
            line: found.1,
        })
    }

    /// The line in the canonical file with which the data section begins that the instance of this name stands in, without its line
    /// feed: `DATA;`, or `DATA('NAME',('SCHEMA'));`. Nothing where there is no such instance. It takes no memory.
    pub fn section_line(self, name: Name) -> Option<&'a [u8]>
        ensures some { IfSome result (λ line. IsSectionLine self.entry.accepted.now name line.now) }
        ensures none { IsNone result → Contains (instance_names self.entry.accepted.now.kept) name → ⊥ }
    {
        self.accepted.section_line(name)
    }
}
