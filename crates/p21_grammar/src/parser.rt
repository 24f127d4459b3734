//! A refused parser keeps its depth and its stage: `depth` answers that of the tokens taken, and `reopen` goes on behind the last
//! statement that was given. Where the token was unexpected it keeps the statement too, so that `could_take` says what could
//! stand there. At that stage there is one value of a parser between two statements, so a parser that is
//! taken back to it stands for what it stood for then.
ghost use Rattle.std.specs.Prelude.{◌≡◌, ◌≤◌, ◌↔◌, IsTrue, true, Some, None, Err, IfErr, IfOk};
ghost use Rattle.p21_spec_basics.specs.History.{StandsForEmptyHistory};
ghost use Rattle.p21_spec_exchange.specs.OpenNesting.{IsDepth};
ghost use Rattle.p21_grammar.specs.Between.{IsBetweenInstances, StandsForMore};
ghost use Rattle.p21_grammar.specs.Expected.{TakesWhatItCould, could_take};
ghost use Rattle.p21_grammar.specs.Kind.{kind_of};
ghost use Rattle.p21_grammar.specs.declared.fault.GrammarFault.TheVariants.{Unexpected};
ghost use Rattle.p21_grammar.specs.Histories.{GrammarHistory, Stands, TakeGives, FinishGives, HasHeadingForm, RefusalIsKnown, RefusesAgain};
ghost use Rattle.p21_grammar.specs.Reopening.{HoldsAsBetween, IsBetweenStatements, StaysOrEnds, between_statements};
ghost use Rattle.p21_grammar.specs.Stage.{is_in_data};
ghost use Rattle.p21_grammar.specs.declared.fault.GrammarFault.{GrammarFault};
ghost use Rattle.p21_tokens.specs.Token.{meant};

use crate::event::Event;
use crate::fault::GrammarFault;
use crate::kind::Kind;
use crate::machine::Machine;
use p21_tokens::Token;
use std::alloc::Global;
use std::fmt;
use std::marker::Model;

/// Takes tokens one by one, and answers each statement with its `;`.
pub struct Parser {
    machine: Machine,
    depth: usize,
    refused: Option<GrammarFault>,
}

// Written out: crates above call it, where they would prove a derived one field by field.
impl Drop for Parser {
    fn drop(self) {
        let Parser {
            machine: _,
            depth: _,
            refused: _,
        } = self;
    }
}

impl fmt::Debug for Parser {
    fn fmt<W: fmt::Write>(&self, f: &mut fmt::Formatter<W>) -> fmt::Result {
        let depth = self.depth();
        write!(f, "Parser {{ depth: {depth} }}")
    }
}

impl Model for Parser {
    ghost use Rattle.p21_grammar.specs.Held.{Held};

    ghost Value = { Held };

    ghost use Rattle.p21_grammar.specs.Inside.{held_of, IsReached};

    ghost view = { held_of };

    ghost invariant = { IsReached };
}

impl Parser {
    /// A parser that has taken nothing. It takes no memory.
    pub fn new(alloc: Global) -> Parser
        ensures stands { StandsForEmptyHistory Stands result }
        ensures goes_on { result.refused ≡ None }
        ensures between { IsBetweenStatements result }
    {
        Parser {
            machine: Machine::new(alloc),
            depth: 0,
            refused: None,
        }
    }

    /// Takes the next token. Each statement is answered with its `;`.
    ///
    /// # Errors
    ///
    /// `Unexpected` at the first token with which no statement continues, `TooDeep` at the opening of a 65th list or typed
    /// parameter one in another, `AfterEnd` behind the end of the file, `LeftOut` at a part of the standard that is left
    /// out, `HeaderShape` and `SectionShape` at the `;` of a statement that has not the form it should have there,
    /// `NoMemory`. After a refusal each call answers it.
    pub fn take(&mut self, token: Token) -> Result<Option<Event>, GrammarFault>
        ensures gives { TakeGives self.old (meant token) result self.new }
        ensures shaped { IfOk result HasHeadingForm }
        ensures goes_on { IfOk result (λ event. self.new.refused ≡ None) }
        ensures again { RefusesAgain self.old result self.new }
        ensures refused { IfErr result (λ fault. self.new.refused ≡ Some fault) }
        ensures known { RefusalIsKnown self.new }
        ensures within { self.new.depth ≤ 64 }
        ensures stage { StaysOrEnds self.old (meant token) result self.new }
        ensures could { self.old.refused ≡ None → TakesWhatItCould self.old (meant token) result }
        ensures kept { IfErr result (λ fault. fault ≡ Unexpected → self.new.pending ≡ self.old.pending) }
    {
        if let Some(fault) = self.refused {
            return Err(fault);
        }
        let stage = self.machine.stage();
        match self.machine.step(token) {
            Ok(event) => {
                self.depth = self.machine.depth();
                Ok(event)
            }
            Err(fault) => {
                self.machine.stand_refused(fault, stage);
                self.refused = Some(fault);
                Err(fault)
            }
        }
    }

    /// The end of the tokens. It takes no memory.
    ///
    /// # Errors
    ///
    /// `EndsEarly` unless the last statement was `END-ISO-10303-21;`. After a refusal it answers that.
    pub fn finish(self) -> Result<(), GrammarFault>
        ensures gives { FinishGives self result }
        ensures again { (fault : GrammarFault) → self.refused ≡ Some fault → result ≡ Err fault }
    {
        if let Some(fault) = self.refused {
            return Err(fault);
        }
        if self.machine.is_ended() {
            Ok(())
        } else {
            Err(GrammarFault::EndsEarly)
        }
    }

    /// How many lists and typed parameters are open in the tokens taken, at most 64. It takes no memory.
    pub fn depth(&self) -> usize
        ensures value { result ≡ self.now.depth }
        ensures within { result ≤ 64 }
        ensures depth { (history : GrammarHistory) → Stands self.now history → IsDepth history.taken result }
    {
        self.depth
    }

    /// Whether it could take a token of this kind, or would refuse it for its depth or for the form of the statement that it ends alone.
    /// Behind a token that was refused as unexpected it says so of one in its place. It takes no memory.
    pub fn could_take(&self, kind: Kind) -> bool
        ensures { (token : _) → kind_of token ≡ kind → result ≡ could_take self.now token }
    {
        self.machine.could_take(kind)
    }

    /// Whether it stands in a data section, with no statement open. Then instances may be passed over, which takes no
    /// call: behind one it holds what it held before it. It takes no memory.
    pub fn is_between_instances(&self) -> bool
        ensures value { IsTrue result ↔ IsBetweenInstances self.now }
        ensures stands { result ≡ true → StandsForMore self.now }
        ensures between { result ≡ true → IsBetweenStatements self.now }
    {
        if self.refused.is_some() {
            return false;
        }
        self.machine.is_between_instances()
    }

    /// Whether its last statement left it in a data section. It takes no memory.
    pub fn is_in_data(&self) -> bool
        ensures { result ≡ is_in_data self.now.stage }
    {
        self.machine.stage().is_in_data()
    }

    /// Stands where its last statement ended, with no statement open: the tokens behind it and a refusal are forgotten. It takes no
    /// memory.
    pub fn reopen(&mut self)
        ensures held { self.new ≡ between_statements self.old.stage }
        ensures as_then { HoldsAsBetween self.old.stage self.new }
    {
        let stage = self.machine.stage();
        self.machine.reopen(stage);
        self.depth = 0;
        self.refused = None;
    }
}
