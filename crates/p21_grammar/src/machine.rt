//! One value holds what was taken last, and the open row of parameters stands beside it. A parameter enters its row
//! when it comes. So most tokens touch one vector and one small state, and no list is copied on its way up: `)` moves
//! the vector.
ghost use Rattle.std.specs.Prelude.{◌≡◌, ◌↔◌, IfOk, IfErr, IsTrue, true};
ghost use Rattle.p21_spec_exchange.specs.Parameter.{key_of};
ghost use Rattle.p21_grammar.specs.Stage.{is_in_data};
ghost use Rattle.p21_grammar.specs.Machine.{spot_of, step, idle, depth_of, AnswersMove, Keeps, RefusesMove, StandsRefused};
ghost use Rattle.p21_grammar.specs.HeadingShape.{HasHeadingShape};
ghost use Rattle.p21_grammar_tree.specs.View.{key_view};
ghost use Rattle.p21_tokens.specs.Token.{meant};
ghost use Rattle.p21_grammar.specs.declared.stage.Stage.TheVariants.{Start, Ended};

mod between;
mod expected;
mod faults;
mod parameters;
mod room;
mod statements;

use crate::event::{Event, Line};
use crate::fault::GrammarFault;
use crate::stage::Stage;
use p21_grammar_tree::{Key, Param, Part, Record};
use p21_tokens::Token;
use p21_values::{Name, Word};
use std::alloc::Global;
use std::mem;

/// What stands before the keyword of a simple record.
#[derive(Drop)]
pub enum Head {
    Bare,
    /// `#1=`
    Simple(Name),
    /// `#1=(` and records
    Among(Name, Vec<Part>),
}

/// How parameters in a row began.
#[derive(Drop)]
pub enum Opening {
    Part(Head, Key),
    List,
    Tagged(Key),
}

/// Parameters in a row that are still open.
#[derive(Drop)]
pub struct Row {
    opening: Opening,
    params: Vec<Param>,
}

/// What was taken last.
#[derive(Drop)]
pub enum At {
    /// No statement is open.
    Idle,
    /// A section line without its `;`
    Line(Line),
    /// `#1`
    Named(Name),
    /// `#1=`
    Equal(Name),
    /// `#1=(` and records
    Among(Name, Vec<Part>),
    /// The keyword of a simple record.
    Keyed(Head, Key),
    /// A place for a parameter.
    Next,
    /// The keyword of a typed parameter.
    Word(Key),
    /// A parameter.
    Behind,
    /// A record with no instance name, without its `;`
    RecordEnd(Part),
    /// An instance without its `;`
    InstanceEnd(Name, Record),
}

/// What is open, token by token.
///
/// What is met most is inlined into `step`, and stores `at` first: there it is known that nothing is dropped with the old one.
#[derive(Drop)]
pub struct Machine {
    alloc: Global,
    stage: Stage,
    at: At,
    row: Row,
    frames: Vec<Row>,
}

pub(crate) fn key(word: Word) -> Key
    ensures { key_view result ≡ key_of word }
{
    Key { user: false, word }
}

#[tactic(auto, using(crate::proofs::Stacks::stacks))]
impl Machine {
    pub fn new(alloc: Global) -> Machine
        ensures stage { result.stage ≡ Start }
        ensures spot { spot_of result ≡ idle }
    {
        Machine {
            alloc,
            stage: Stage::Start,
            at: At::Idle,
            row: Row {
                opening: Opening::List,
                params: Vec::new(alloc),
            },
            frames: Vec::new(alloc),
        }
    }

    /// The next token, where what was taken last is moved out.
    #[inline(never)]
    fn other(&mut self, token: Token) -> Result<Option<Event>, GrammarFault>
        ensures ok { IfOk result (λ event. AnswersMove (step self.old.stage (spot_of self.old) (meant token)) self.new event) }
        ensures err { IfErr result (λ why. RefusesMove (step self.old.stage (spot_of self.old) (meant token)) why) }
        ensures kept { IfErr result (λ why. Keeps why self.old.stage (spot_of self.old) self.new) }
        ensures shaped { IfOk result HasHeadingShape }
    {
        match mem::replace(&mut self.at, At::Idle) {
            At::Idle => self.idle(token)?,
            At::Line(line) => return self.line(line, token),
            At::Named(name) => {
                self.at = At::Named(name);
                self.named(name, token)?
            }
            At::Equal(name) => {
                self.at = At::Equal(name);
                self.equal(name, token)?
            }
            At::Among(name, parts) => self.among(name, parts, token)?,
            At::Keyed(head, key) => return self.keyed(head, key, token),
            At::Next => {
                self.at = At::Next;
                self.next(token)?
            }
            At::Word(key) => self.word(key, token)?,
            At::Behind => {
                self.at = At::Behind;
                self.behind(token)?
            }
            At::RecordEnd(part) => return self.record_end(part, token),
            At::InstanceEnd(name, body) => return self.instance_end(name, body, token),
        }
        Ok(None)
    }

    /// The next token. It answers a statement with its `;`, and stands where it stood where it refuses the token as unexpected.
    pub fn step(&mut self, token: Token) -> Result<Option<Event>, GrammarFault>
        ensures ok { IfOk result (λ event. AnswersMove (step self.old.stage (spot_of self.old) (meant token)) self.new event) }
        ensures err { IfErr result (λ why. RefusesMove (step self.old.stage (spot_of self.old) (meant token)) why) }
        ensures kept { IfErr result (λ why. Keeps why self.old.stage (spot_of self.old) self.new) }
        ensures shaped { IfOk result HasHeadingShape }
    {
        match &self.at {
            At::Next => self.next(token)?,
            At::Behind => self.behind(token)?,
            At::Idle => self.idle(token)?,
            At::Named(name) => {
                let name = *name;
                self.named(name, token)?
            }
            At::Equal(name) => {
                let name = *name;
                self.equal(name, token)?
            }
            _ => return self.other(token),
        }
        Ok(None)
    }

    /// Whether no statement is open and the file has ended.
    pub fn is_ended(&self) -> bool
        ensures { IsTrue result ↔ ((self.now.stage ≡ Ended) × (spot_of self.now ≡ idle)) }
    {
        match (&self.at, self.stage) {
            (At::Idle, Stage::Ended) => true,
            _ => false,
        }
    }

    /// Whether it stands in a data section, with no statement open.
    pub fn is_between_instances(&self) -> bool
        ensures { IsTrue result ↔ ((is_in_data self.now.stage ≡ true) × (spot_of self.now ≡ idle)) }
    {
        match &self.at {
            At::Idle => self.stage.is_in_data(),
            _ => false,
        }
    }

    /// How many lists and typed parameters are open.
    pub fn depth(&self) -> usize
        ensures { result ≡ depth_of (spot_of self.now) }
    {
        match &self.at {
            At::Next | At::Word(_) | At::Behind => self.frames.len(),
            _ => 0,
        }
    }

    /// How far the statements of the file have come.
    pub fn stage(&self) -> Stage
        ensures { result ≡ self.now.stage }
    {
        self.stage
    }

    /// Behind a step that refused a token: as it stands where the token was unexpected, and else at this stage where no statement is open.
    pub fn stand_refused(&mut self, fault: GrammarFault, stage: Stage)
        ensures { StandsRefused fault stage self.old self.new }
    {
        match fault {
            GrammarFault::Unexpected => {}
            GrammarFault::TooDeep => self.reopen(stage),
            GrammarFault::EndsEarly => self.reopen(stage),
            GrammarFault::AfterEnd => self.reopen(stage),
            GrammarFault::LeftOut(_) => self.reopen(stage),
            GrammarFault::HeaderShape => self.reopen(stage),
            GrammarFault::SectionShape => self.reopen(stage),
            GrammarFault::NoMemory => self.reopen(stage),
        }
    }

    /// Stands at a stage where no statement is open.
    pub fn reopen(&mut self, stage: Stage)
        ensures stage { self.new.stage ≡ stage }
        ensures spot { spot_of self.new ≡ idle }
    {
        self.stage = stage;
        self.at = At::Idle;
        self.row = Row {
            opening: Opening::List,
            params: Vec::new(self.alloc),
        };
        self.frames.clear();
    }
}
