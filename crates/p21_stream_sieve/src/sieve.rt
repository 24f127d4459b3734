//! An instance that is refused is left out, and its name counts as come. A second instance of its name is refused as
//! 40. Its set of entities isn't known, so nothing is said of references to its name, even if another instance of the
//! name is accepted: a list blames nothing that may be right.
//!
//! The name is judged before the record, as by `check`, and an instance has one refusal; of what is refused as 40 the
//! record isn't checked.
//!
//! A refused record has no canonical line, and counts for no limit. So 27 comes where the lines of the other statements
//! are too long.
//!
//! `Sieve` stands beside `Kept` (p21_stream_kept) and wraps it: it takes statements, keeps those that are right,
//! and lists the others. A session that only accepts or refuses has no part in it, and pays nothing for it.
//!
//! A survey takes instances straight from their bytes too. What such an instance needs of the sieve is one look-up, of
//! its name among those that were refused.
//!
//! `AreSifted` joins three lists, built statement by statement: the statements given, those that passed, and the refusals
//! of the others; what is kept is kept of those that passed (`Sifts`). These stand in a tree too, since a tree without an
//! instance is a tree (`passed-first` in `proofs/Sifted`), so that `Kept` may be asked to take the next one. Where an
//! instance was refused, all bytes that begin so are dead (`refused-dead`); so a survey owes for the bytes nothing but the
//! statements that they begin with.
//! A statement has one refusal at most (`ListsOne`).
ghost use Rattle.std.specs.Prelude.{◌≡◌, ◌≢◌, ◌≤◌, ◌↔◌, ◌∷◌, [], length, IfErr, IsTrue, OnOk};
ghost use Rattle.p21_spec_laws.specs.Keeping.{nothing_kept};
ghost use Rattle.p21_spec_exchange.specs.Statement.{instance};
ghost use Rattle.p21_grammar.specs.Statements.{statement_of};
ghost use Rattle.p21_grammar_tree.specs.View.{record_view};
ghost use Rattle.p21_mapping.specs.Checked.{needs_view};
ghost use Rattle.p21_mapping_values.specs.TypedView.{ids_view};
ghost use Rattle.p21_stream_statements.specs.Source.{IsOfStatement};
ghost use Rattle.p21_stream_sieve.specs.Sifting.{HaveNames};
ghost use Rattle.p21_stream_sieve.specs.SieveSteps.{Follows, FollowsFound, FoundGives, HasCome, Lists, ListsOne, ListsOrEnds, StepGives};
ghost use Rattle.p21_stream_sieve.specs.Unserved.{ListsUnserved};

use crate::spots::Spots;
use crate::unserved::list_unserved;
use p21_grammar::Event;
use p21_grammar_tree::Record;
use p21_schema::Schema;
use p21_stream_kept::{FoundInstance, Kept, Workspace};
use p21_stream_statements::{At, Fault, Refusal};
use p21_values::{Limits, Name, NoMemory};
use std::alloc::Global;
use std::collections::BTreeSet;

/// What is kept of the statements of a file, where instances that are refused are left out, and the refusals.
pub struct Sieve {
    /// What is kept of all other statements.
    pub kept: Kept,
    /// The refusals of the instances, in the order of the file; at the end those of references behind them.
    pub refusals: Vec<Refusal>,
    /// The names of the instances that were refused.
    pub names: BTreeSet<u64>,
}

// Written out: crates above call it, where they would prove a derived one field by field.
impl Drop for Sieve {
    fn drop(self) {
        let Sieve {
            kept: _,
            refusals: _,
            names: _,
        } = self;
    }
}

impl Sieve {
    /// A sieve that has taken nothing. It takes no memory.
    pub fn new(alloc: Global) -> Sieve
        ensures kept { result.kept ≡ nothing_kept }
        ensures refusals { result.refusals.items ≡ [] }
        ensures names { HaveNames result.names [] }
    {
        Sieve {
            kept: Kept::new(alloc),
            refusals: Vec::new(alloc),
            names: BTreeSet::new(alloc),
        }
    }

    /// Takes a statement: keeps it, or lists its refusal where it is one of an instance. The record of an instance is checked
    /// in a workspace, which keeps no long line.
    ///
    /// # Errors
    ///
    /// Every other refusal, and `NoMemory`.
    pub fn take(
        &mut self,
        schema: &Schema,
        limits: Limits,
        event: Event,
        workspace: &mut Workspace,
    ) -> Result<(), Fault>
        requires { Follows schema.now limits self.old (statement_of event) }
        ensures gives { StepGives schema.now limits self.old (statement_of event) result self.new }
        ensures listed { ListsOne self.old.refusals.items result self.new.refusals.items }
        ensures kind { IfErr result (λ fault. IsOfStatement fault) }
    {
        match event {
            Event::Section(line) => self.kept.take_line(limits, line),
            Event::Named(part) => self.kept.take_heading(schema, limits, part),
            Event::Header(part) => self.kept.take_header(schema, limits, &part),
            Event::Instance(name, record) => {
                let result = self.take_instance(schema, limits, name, record, workspace);
                workspace.trim();
                result
            }
        }
    }

    /// Takes an instance by its record. It has the arguments of the same call of `Kept`.
    fn take_instance(
        &mut self,
        schema: &Schema,
        limits: Limits,
        name: Name,
        of: Record,
        workspace: &mut Workspace,
    ) -> Result<(), Fault>
        requires { Follows schema.now limits self.old (instance name (record_view of)) }
        ensures gives { StepGives schema.now limits self.old (instance name (record_view of)) result self.new }
        ensures listed { ListsOne self.old.refusals.items result self.new.refusals.items }
        ensures kind { IfErr result (λ fault. IsOfStatement fault) }
    {
        schema.well_formed();
        if self.names.contains(&name.0) {
            return self.list(name, Fault::DuplicateName);
        }
        match self.kept.take_instance(schema, limits, name, of, workspace) {
            Ok(()) => Ok(()),
            Err(fault) => self.list_or_end(name, fault),
        }
    }

    /// Takes an instance by what is found of it.
    ///
    /// # Errors
    ///
    /// `CanonicalTooLong`, `NoMemory`.
    pub fn take_found(
        &mut self,
        schema: &Schema,
        limits: Limits,
        found: &FoundInstance<'_>,
    ) -> Result<(), Fault>
        requires { FollowsFound schema.now limits self.old found.now.name (ids_view found.now.entities.now) (needs_view found.now.needs.now)
            found.now.line.now }
        ensures gives { FoundGives schema.now limits self.old found.now.name (ids_view found.now.entities.now)
            (needs_view found.now.needs.now) found.now.line.now result self.new }
        ensures listed { ListsOne self.old.refusals.items result self.new.refusals.items }
        ensures kind { IfErr result (λ fault. IsOfStatement fault) }
    {
        schema.well_formed();
        if self.names.contains(&found.name.0) {
            return self.list(found.name, Fault::DuplicateName);
        }
        match self.kept.take_found(schema, limits, found) {
            Ok(()) => Ok(()),
            Err(fault) => self.list_or_end(found.name, fault),
        }
    }

    /// Whether an instance of this name has come. It takes no memory.
    pub fn has_name(&self, name: Name) -> bool
        ensures { IsTrue result ↔ HasCome self.now name }
    {
        self.names.contains(&name.0) || self.kept.has_name(name)
    }

    /// Lists the refusal of a record or a name. Every other one ends the reading.
    pub fn list_or_end(&mut self, name: Name, fault: Fault) -> Result<(), Fault>
        requires kind { IsOfStatement fault }
        ensures lists { ListsOrEnds self.old name fault result self.new }
        ensures kind { IfErr result (λ other. IsOfStatement other) }
    {
        match fault {
            Fault::Check(_) => self.list(name, fault),
            Fault::DuplicateName => self.list(name, fault),
            Fault::Token(_) => Err(fault),
            Fault::Grammar(_) => Err(fault),
            Fault::SchemaName => Err(fault),
            Fault::SectionTwice => Err(fault),
            Fault::CanonicalTooLong => Err(fault),
            Fault::Dangling => Err(fault),
            Fault::WrongTarget => Err(fault),
            Fault::NoMemory => Err(fault),
            Fault::Read => Err(fault),
            Fault::Write => Err(fault),
        }
    }

    /// Lists the refusal of an instance.
    fn list(&mut self, name: Name, fault: Fault) -> Result<(), Fault>
        ensures ok { OnOk result (Lists self.old name fault self.new) }
        ensures err { IfErr result (λ other. other ≡ Fault.NoMemory) }
    {
        let refusal = Refusal {
            fault,
            at: At::Instance(name),
        };
        let Ok(()) = self.refusals.push(refusal) else {
            return Err(Fault::NoMemory);
        };
        let Ok(_) = self.names.insert(name.0) else {
            return Err(Fault::NoMemory);
        };
        Ok(())
    }

    /// Lists the references that no instance serves, up to so many refusals in all. Of references to a name of which an
    /// instance was refused nothing is said.
    ///
    /// # Errors
    ///
    /// `NoMemory`.
    pub fn list_unserved(
        &mut self,
        schema: &Schema,
        most: u64,
        spots: &mut Spots,
    ) -> Result<(), NoMemory>
        ensures lists { OnOk result (ListsUnserved schema.now self.old.kept self.old.names most self.old.refusals.items
            self.new.refusals.items) }
        ensures counted { length self.old.refusals.items ≤ most → OnOk result (length self.new.refusals.items ≤ most) }
        ensures kept { self.new.kept ≡ self.old.kept }
    {
        list_unserved(
            &self.kept,
            &self.names,
            schema,
            most,
            &mut self.refusals,
            spots,
        )
    }

    /// The refusals that are listed.
    pub fn into_refusals(self) -> Vec<Refusal>
        ensures { result ≡ self.refusals }
    {
        let Sieve {
            kept: _,
            refusals,
            names: _,
        } = self;
        refusals
    }

    /// What is kept.
    pub fn into_kept(self) -> Kept
        ensures { result ≡ self.kept }
    {
        let Sieve {
            kept,
            refusals: _,
            names: _,
        } = self;
        kept
    }
}
