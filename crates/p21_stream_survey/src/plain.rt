//! The statements of a file that is judged by itself, without a schema: what is kept of those that are right. An instance is refused for
//! its name alone.
ghost use Rattle.std.specs.Prelude.{◌≡◌, [], IfOk, IsTrue, false};
ghost use Rattle.p21_grammar.specs.Statements.{statement_of};
ghost use Rattle.p21_grammar_tree.specs.View.{record_view};
ghost use Rattle.p21_spec_basics.specs.Limits.{Limits};
ghost use Rattle.p21_spec_exchange.specs.Statement.{instance};
ghost use Rattle.p21_spec_survey.specs.Rules.{by_itself};
ghost use Rattle.p21_stream_log.specs.Log.{Closes};
ghost use Rattle.p21_stream_statements.specs.Source.{IsOfStatement};
ghost use Rattle.p21_stream_survey.specs.Following.{LeavesOut};
ghost use Rattle.p21_stream_survey.specs.Judging.{JudgeGives};
ghost use Rattle.p21_stream_survey.specs.Keeping.{kept_alone};
ghost use Rattle.p21_stream_syntax.specs.Given.{kept_of, nothing_kept};

use crate::judging::{Judgement, right};
use crate::listing::Listing;
use crate::noting::Noted;
use p21_grammar::Event;
use p21_grammar_tree::Record;
use p21_stream_log::Log;
use p21_stream_statements::{At, Fault};
use p21_stream_syntax::Given;
use p21_values::{Name, NoMemory};
use std::alloc::Global;
use std::collections::BTreeSet;

/// What is kept of a file, and the names of the instances that are left out.
#[derive(Drop)]
pub(crate) struct PlainKeeper {
    pub given: Given,
    pub names: BTreeSet<u64>,
}

impl PlainKeeper {
    /// Nothing. It takes no memory.
    pub(crate) fn new(alloc: Global) -> PlainKeeper
        ensures given { kept_of result.given ≡ nothing_kept }
        ensures names { result.names.keys ≡ [] }
    {
        PlainKeeper {
            given: Given::new(alloc),
            names: BTreeSet::new(alloc),
        }
    }

    /// Judges a statement.
    ///
    /// # Errors
    ///
    /// Every refusal but those of an instance, and `NoMemory`.
    pub(crate) fn judge(&mut self, event: Event) -> Result<Judgement, Fault>
        ensures gives { (limits : Limits) → JudgeGives by_itself limits (kept_alone self.old) (statement_of event) result
            (kept_alone self.new) }
    {
        match event {
            Event::Section(line) => right(self.given.take_line(line)),
            Event::Named(part) => right(self.given.take_heading(part)),
            Event::Header(part) => right(self.given.take_header(part)),
            Event::Instance(name, record) => self.judge_instance(name, &record),
        }
    }

    /// Judges an instance by its name.
    fn judge_instance(&mut self, name: Name, of: &Record) -> Result<Judgement, Fault>
        ensures gives { (limits : Limits) → JudgeGives by_itself limits (kept_alone self.old) (instance name (record_view of.now)) result
            (kept_alone self.new) }
    {
        if self.given.has_name(name) {
            return Ok(Judgement::Wrong(name, Fault::DuplicateName));
        }
        match self.given.take_instance(name, of) {
            Ok(()) => Ok(Judgement::Right),
            Err(fault) => Err(fault),
        }
    }

    /// Leaves out an instance that is refused, which has these bytes, and says whether it did: where a signpost stands in a string of it
    /// nothing changes.
    ///
    /// # Errors
    ///
    /// `NoMemory`.
    pub(crate) fn leave_out(
        &mut self,
        log: &mut Log,
        listing: &mut Listing,
        name: Name,
        fault: Fault,
        bytes: &[u8],
    ) -> Result<bool, NoMemory>
        requires { IsOfStatement fault }
        ensures leaves { IfOk result (λ left. LeavesOut log.old (kept_alone self.old) listing.old name fault left log.new
            (kept_alone self.new) listing.new) }
        ensures closes { IfOk result (λ left. IsTrue left → Closes log.old log.new) }
        ensures same { IfOk result (λ left. left ≡ false → self.new ≡ self.old) }
    {
        let noted = Noted::of(log, fault, bytes);
        let begins = match log.leave_out() {
            Some(begins) => begins,
            None => return Ok(false),
        };
        let Ok(_) = self.names.insert(name.0) else {
            return Err(NoMemory);
        };
        match listing.list(fault, At::Instance(name), begins, noted) {
            Ok(()) => Ok(true),
            Err(NoMemory) => Err(NoMemory),
        }
    }
}
