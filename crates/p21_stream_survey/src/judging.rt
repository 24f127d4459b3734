//! Whether a statement that has ended is right: it is kept then; or it is refused as an instance, and nothing changes; or its refusal ends
//! the list.
ghost use Rattle.std.specs.Prelude.{◌≡◌, [], IfErr, IfSome};
ghost use Rattle.p21_grammar.specs.Statements.{statement_of};
ghost use Rattle.p21_grammar_tree.specs.View.{record_view};
ghost use Rattle.p21_mapping.specs.Checked.{needs_view};
ghost use Rattle.p21_mapping_values.specs.TypedView.{ids_view};
ghost use Rattle.p21_spec_exchange.specs.Statement.{instance};
ghost use Rattle.p21_spec_laws.specs.Keeping.{nothing_kept};
ghost use Rattle.p21_stream_sieve.specs.SieveSteps.{IsRefusedAlone};
ghost use Rattle.p21_stream_sieve.specs.Sifting.{HaveNames};
ghost use Rattle.p21_stream_statements.specs.Source.{IsOfStatement};
ghost use Rattle.p21_stream_survey.specs.Judging.{FollowsFound, FollowsSieved, FoundGives, JudgesSieved, said_of, wrong_or_end};

use p21_grammar::Event;
use p21_grammar_tree::Record;
use p21_mapping::{KnownEntities, Trail, check_owned_record};
use p21_schema::Schema;
use p21_stream_kept::{FoundInstance, Workspace};
use p21_stream_sieve::Sieve;
use p21_stream_statements::Fault;
use p21_values::{Limits, Name};
use std::alloc::Global;

/// What is kept of a file, and what is known of the records of its schema.
#[derive(Drop)]
pub(crate) struct Judge<'a> {
    // What is kept, and the instances that are left out.
    pub sieve: Sieve,
    // What is known of the records of entities with large sets.
    pub known: KnownEntities<'a>,
    // Where instances are checked that are taken by their tokens: its trail leads to what is refused in the record that was judged last.
    pub workspace: Workspace,
}

/// What is said of a statement.
#[derive(Clone, Copy)]
pub(crate) enum Judgement {
    /// It is right, and kept.
    Right,
    /// It is an instance of this name, and refused; nothing has changed.
    Wrong(Name, Fault),
}

impl<'a> Judge<'a> {
    /// A judge of a file of which nothing is kept. It takes no memory.
    pub(crate) fn new(alloc: Global, schema: &'a Schema) -> Judge<'a>
        ensures kept { result.sieve.kept ≡ nothing_kept }
        ensures refusals { result.sieve.refusals.items ≡ [] }
        ensures names { HaveNames result.sieve.names [] }
        ensures known { result.known ≡ schema.now }
    {
        Judge {
            sieve: Sieve::new(alloc),
            known: KnownEntities::new(alloc, schema),
            workspace: Workspace::new(alloc),
        }
    }

    /// Judges a statement. A record that is refused by what is known of its entity may be walked through for the place.
    ///
    /// # Errors
    ///
    /// Every refusal but those of an instance, and `NoMemory`.
    pub(crate) fn judge(
        &mut self,
        schema: &Schema,
        limits: Limits,
        event: Event,
        is_walked: bool,
    ) -> Result<Judgement, Fault>
        requires follows { FollowsSieved schema.now limits self.old.sieve (statement_of event) }
        requires known { self.old.known ≡ schema.now }
        ensures gives { JudgesSieved schema.now limits self.old.sieve (statement_of event) result self.new.sieve }
        ensures known { self.new.known ≡ self.old.known }
    {
        schema.well_formed();
        if let Some((name, fault)) = self.refused_by(&event) {
            let alloc = *self.sieve.refusals.allocator();
            lead(alloc, schema, event, is_walked, &mut self.workspace.trail);
            return wrong_or_end(name, fault);
        }
        match event {
            Event::Section(line) => right(self.sieve.kept.take_line(limits, line)),
            Event::Named(part) => right(self.sieve.kept.take_heading(schema, limits, part)),
            Event::Header(part) => right(self.sieve.kept.take_header(schema, limits, &part)),
            Event::Instance(name, record) => self.judge_instance(schema, limits, name, record),
        }
    }

    /// Judges an instance by its record.
    fn judge_instance(
        &mut self,
        schema: &Schema,
        limits: Limits,
        name: Name,
        of: Record,
    ) -> Result<Judgement, Fault>
        requires follows { FollowsSieved schema.now limits self.old.sieve (instance name (record_view of)) }
        ensures gives { JudgesSieved schema.now limits self.old.sieve (instance name (record_view of)) result self.new.sieve }
        ensures known { self.new.known ≡ self.old.known }
    {
        schema.well_formed();
        if self.sieve.names.contains(&name.0) {
            return Ok(Judgement::Wrong(name, Fault::DuplicateName));
        }
        let kept = self
            .sieve
            .kept
            .take_instance(schema, limits, name, of, &mut self.workspace);
        self.workspace.trim();
        match kept {
            Ok(()) => Ok(Judgement::Right),
            Err(fault) => wrong_or_end(name, fault),
        }
    }

    /// Judges an instance by what is found of it.
    ///
    /// # Errors
    ///
    /// `CanonicalTooLong`, `NoMemory`.
    pub(crate) fn judge_found(
        &mut self,
        schema: &Schema,
        limits: Limits,
        found: &FoundInstance<'_>,
    ) -> Result<Judgement, Fault>
        requires follows { FollowsFound schema.now limits self.old.sieve found.now.name (ids_view found.now.entities.now)
            (needs_view found.now.needs.now) found.now.line.now }
        ensures gives { FoundGives schema.now limits self.old.sieve found.now.name (ids_view found.now.entities.now)
            (needs_view found.now.needs.now) found.now.line.now result self.new.sieve }
        ensures known { self.new.known ≡ self.old.known }
    {
        schema.well_formed();
        if self.sieve.names.contains(&found.name.0) {
            return Ok(Judgement::Wrong(found.name, Fault::DuplicateName));
        }
        match self.sieve.kept.take_found(schema, limits, found) {
            Ok(()) => Ok(Judgement::Right),
            Err(fault) => wrong_or_end(found.name, fault),
        }
    }

    /// Why an instance is refused whose name none has before it, where what is known of its entity says so; and its name.
    fn refused_by(&mut self, event: &Event) -> Option<(Name, Fault)>
        ensures refuses { IfSome result (λ found. IsRefusedAlone self.old.known self.old.sieve (statement_of event.now) found.0 found.1) }
        ensures kind { IfSome result (λ found. IsOfStatement found.1) }
        ensures same { self.new ≡ self.old }
    {
        let Event::Instance(name, record) = event else {
            return None;
        };
        let fault = self.known.refusal(record)?;
        if self.sieve.has_name(*name) {
            return None;
        }
        Some((*name, Fault::from(fault)))
    }
}

/// Has a trail lead to what is refused in the record of an instance, if it is walked through, or else nowhere.
fn lead(alloc: Global, schema: &Schema, event: Event, is_walked: bool, trail: &mut Trail) {
    trail.clear();
    let Event::Instance(_, record) = event else {
        return;
    };
    if is_walked {
        // That it is refused, and why, is known.
        let _ = check_owned_record(alloc, schema, record, trail);
    }
}

/// What is said of a statement that is kept, or ends the list.
pub(crate) fn right(kept: Result<(), Fault>) -> Result<Judgement, Fault>
    ensures { result ≡ said_of kept }
{
    match kept {
        Ok(()) => Ok(Judgement::Right),
        Err(fault) => Err(fault),
    }
}

/// A fault of a record or a name is that of an instance. Every other one ends the list.
fn wrong_or_end(name: Name, fault: Fault) -> Result<Judgement, Fault>
    ensures { result ≡ wrong_or_end name fault }
{
    match fault {
        Fault::Check(_) => Ok(Judgement::Wrong(name, fault)),
        Fault::DuplicateName => Ok(Judgement::Wrong(name, fault)),
        Fault::Token(_) => Err(fault),
        Fault::Grammar(_) => Err(fault),
        Fault::SchemaName => Err(fault),
        Fault::SectionTwice => Err(fault),
        Fault::CanonicalTooLong => Err(fault),
        Fault::Dangling => Err(fault),
        Fault::WrongTarget => Err(fault),
        Fault::NoMemory => Err(fault),
        Fault::Read => Err(fault),
        Fault::Write => Err(fault),
    }
}
