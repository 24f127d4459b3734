//! What judges the statements of a file and keeps them: by the rules of a schema, or by what the standard says of a file by itself.
ghost use Rattle.std.specs.Prelude.{◌≡◌, ◌≤◌, ◌<◌, IfOk, IfSome, IsTrue, false, length};
ghost use Rattle.p21_grammar.specs.Statements.{statement_of};
ghost use Rattle.p21_spec_survey.specs.Rules.{by_itself, of_schema};
ghost use Rattle.p21_stream_log.specs.Log.{Closes};
ghost use Rattle.p21_stream_statements.specs.Source.{IsOfStatement};
ghost use Rattle.p21_stream_survey.specs.Following.{LeavesOut};
ghost use Rattle.p21_stream_survey.specs.Judging.{Follows, JudgeGives};
ghost use Rattle.p21_stream_survey.specs.Keeping.{IsSoundKeeper, KeepsNothing, StaysBy, rules_of, sifted_of};
ghost use Rattle.p21_stream_survey.specs.Taking.{FollowsInstances, TakesInstance};
ghost use Rattle.p21_stream_survey.specs.declared.keeper.Keeper.TheVariants.{OfSchema};
ghost use Rattle.p21_stream_survey.specs.Sifted.{sieved};

use crate::following::leave_out;
use crate::judging::{Judge, Judgement};
use crate::listing::Listing;
use crate::noting::Noted;
use crate::plain::PlainKeeper;
use p21_grammar::Event;
use p21_mapping::Trail;
use p21_schema::Schema;
use p21_shorter_instances::{GivenUp, Taken, Taker};
use p21_stream_kept::{FoundInstance, Workspace};
use p21_stream_log::Log;
use p21_stream_statements::Fault;
use p21_values::{Limits, Name, NoMemory};
use std::alloc::Global;
use std::mem;

/// What judges the statements of a file and keeps them.
#[derive(Drop)]
pub(crate) enum Keeper<'a> {
    /// By the rules of a schema.
    OfSchema(SchemaKeeper<'a>),
    /// By what the standard says of a file by itself.
    ByItself(PlainKeeper),
}

/// The same by the rules of a schema.
#[derive(Drop)]
pub(crate) struct SchemaKeeper<'a> {
    pub schema: &'a Schema,
    pub judge: Judge<'a>,
    // What takes instances straight from their bytes, and the room for the line and the references of one.
    pub taker: Taker,
    pub taken: Taken,
}

/// An instance that was taken straight from its bytes: how many these are, and what is said of it.
pub(crate) struct JudgedInstance {
    pub count: usize,
    pub judgement: Result<Judgement, Fault>,
}

impl<'a> Keeper<'a> {
    /// By the rules of a schema, where nothing is kept. It takes no memory.
    pub(crate) fn of_schema(alloc: Global, schema: &'a Schema) -> Keeper<'a>
        ensures nothing { KeepsNothing result }
        ensures rules { rules_of result ≡ of_schema schema.now }
    {
        Keeper::OfSchema(SchemaKeeper {
            schema,
            judge: Judge::new(alloc, schema),
            taker: Taker::new(alloc),
            taken: Taken::new(alloc),
        })
    }

    /// By what the standard says of a file by itself, where nothing is kept. It takes no memory.
    pub(crate) fn by_itself(alloc: Global) -> Keeper<'a>
        ensures nothing { KeepsNothing result }
        ensures rules { rules_of result ≡ by_itself }
    {
        Keeper::ByItself(PlainKeeper::new(alloc))
    }

    /// Judges a statement. A record that is refused by what is known of its entity may be walked through for the place.
    ///
    /// # Errors
    ///
    /// Every refusal but those of an instance, and `NoMemory`.
    pub(crate) fn judge(
        &mut self,
        limits: Limits,
        event: Event,
        is_walked: bool,
    ) -> Result<Judgement, Fault>
        requires follows { Follows (rules_of self.old) limits (sifted_of self.old) (statement_of event) }
        requires sound { IsSoundKeeper self.old }
        ensures gives { JudgeGives (rules_of self.old) limits (sifted_of self.old) (statement_of event) result (sifted_of self.new) }
        ensures stays { StaysBy self.old self.new }
    {
        match self {
            Keeper::OfSchema(keeper) => keeper.judge.judge(keeper.schema, limits, event, is_walked),
            Keeper::ByItself(keeper) => keeper.judge(event),
        }
    }

    /// Takes the instance that stands whole at the beginning of some bytes straight from these, and judges it. `None` where it isn't taken
    /// so.
    ///
    /// # Errors
    ///
    /// `NoMemory`.
    pub(crate) fn take_instance(
        &mut self,
        log: &mut Log,
        limits: Limits,
        rest: &[u8],
    ) -> Result<Option<JudgedInstance>, NoMemory>
        requires follows { FollowsInstances self.old limits log.old rest.now }
        requires sound { IsSoundKeeper self.old }
        ensures within { IfOk result (λ taken. IfSome taken (λ judged. judged.count ≤ length rest.now)) }
        ensures takes { IfOk result (λ taken. TakesInstance self.old limits log.old rest.now taken self.new log.new) }
        ensures stays { IfOk result (λ taken. StaysBy self.old self.new) }
    {
        match self {
            Keeper::OfSchema(keeper) => keeper.take_instance(log, limits, rest),
            Keeper::ByItself(_) => Ok(None),
        }
    }

    /// Leaves out an instance that is refused, which has these bytes, and says whether it did: where a signpost stands in a string of it
    /// nothing changes.
    ///
    /// # Errors
    ///
    /// `NoMemory`.
    pub(crate) fn leave_out(
        &mut self,
        alloc: Global,
        log: &mut Log,
        listing: &mut Listing,
        name: Name,
        fault: Fault,
        bytes: &[u8],
    ) -> Result<bool, NoMemory>
        requires { IsOfStatement fault }
        ensures leaves { IfOk result (λ left. LeavesOut log.old (sifted_of self.old) listing.old name fault left log.new
            (sifted_of self.new) listing.new) }
        ensures closes { IfOk result (λ left. IsTrue left → Closes log.old log.new) }
        ensures same { IfOk result (λ left. left ≡ false → self.new ≡ self.old) }
        ensures stays { IfOk result (λ left. StaysBy self.old self.new) }
    {
        match self {
            Keeper::OfSchema(keeper) => keeper.leave_out(alloc, log, listing, name, fault, bytes),
            Keeper::ByItself(keeper) => keeper.leave_out(log, listing, name, fault, bytes),
        }
    }

    /// The way to what is refused in the record that was judged last. It takes no memory.
    pub(crate) fn trail(&self) -> Option<&Trail> {
        match self {
            Keeper::OfSchema(keeper) => Some(&keeper.judge.workspace.trail),
            Keeper::ByItself(_) => None,
        }
    }
}

impl<'a> SchemaKeeper<'a> {
    /// Takes the instance that stands whole at the beginning of some bytes straight from these, and judges it. `None` where it isn't taken
    /// so.
    fn take_instance(
        &mut self,
        log: &mut Log,
        limits: Limits,
        rest: &[u8],
    ) -> Result<Option<JudgedInstance>, NoMemory>
        requires follows { FollowsInstances (OfSchema self.old) limits log.old rest.now }
        requires sound { IsSoundKeeper (OfSchema self.old) }
        ensures within { IfOk result (λ taken. IfSome taken (λ judged. judged.count ≤ length rest.now)) }
        ensures takes { IfOk result (λ taken. TakesInstance (OfSchema self.old) limits log.old rest.now taken (OfSchema self.new) log.new) }
        ensures stays { IfOk result (λ taken. StaysBy (OfSchema self.old) (OfSchema self.new)) }
    {
        let found = match self.taker.take(self.schema, rest, &mut self.taken) {
            Ok(found) => found,
            Err(GivenUp::NotUsual) => return Ok(None),
            Err(GivenUp::NoMemory) => return Err(NoMemory),
        };
        let count = found.count;
        let passed = match log.pass_over(&rest[..count]) {
            Ok(passed) => passed,
            Err(NoMemory) => return Err(NoMemory),
        };
        if !passed {
            return Ok(None);
        }
        let instance = FoundInstance {
            name: Name(found.number),
            entities: found.entities,
            line: found.line,
            needs: found.needs,
        };
        let judgement = self.judge.judge_found(self.schema, limits, &instance);
        Ok(Some(JudgedInstance { count, judgement }))
    }

    /// Leaves out an instance that is refused, and says whether it did.
    fn leave_out(
        &mut self,
        alloc: Global,
        log: &mut Log,
        listing: &mut Listing,
        name: Name,
        fault: Fault,
        bytes: &[u8],
    ) -> Result<bool, NoMemory>
        requires { IsOfStatement fault }
        ensures leaves { IfOk result (λ left. LeavesOut log.old (sieved self.old.judge.sieve) listing.old name fault left log.new
            (sieved self.new.judge.sieve) listing.new) }
        ensures closes { IfOk result (λ left. IsTrue left → Closes log.old log.new) }
        ensures same { IfOk result (λ left. left ≡ false → self.new ≡ self.old) }
        ensures stays { IfOk result (λ left. StaysBy (OfSchema self.old) (OfSchema self.new)) }
    {
        // Taken out, so that the trail in it and the sieve are lent at once.
        let workspace = mem::replace(&mut self.judge.workspace, Workspace::new(alloc));
        let noted = Noted::of(log, fault, bytes).with_trail(Some(&workspace.trail));
        let left = match leave_out(log, &mut self.judge.sieve, listing, name, fault, noted) {
            Ok(left) => left,
            Err(NoMemory) => return Err(NoMemory),
        };
        self.judge.workspace = workspace;
        Ok(left)
    }
}
