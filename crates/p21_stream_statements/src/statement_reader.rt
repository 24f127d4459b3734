ghost use Rattle.std.specs.Prelude.{◌≡◌, ◌≤◌, ◌↔◌, ◌+◌, [], length, IfErr, IsTrue, None, true, false};
ghost use Rattle.p21_spec_exchange.specs.OpenNesting.{IsDepth};
ghost use Rattle.p21_grammar.specs.Between.{StandsForMore};
ghost use Rattle.p21_grammar.specs.Expected.{could_take};
ghost use Rattle.p21_grammar.specs.Kind.{kind_of};
ghost use Rattle.p21_grammar.specs.Stage.{is_in_data};
ghost use Rattle.p21_stream_statements.specs.Source.{IsOfBytes};
ghost use Rattle.p21_stream_statements.specs.StatementReader.{FinishGives, HasOpenStatement, IsLive, NeedsNoMemory, StatementHistory, StepGives, TakesWithinPiece, limits_of, nothing_read};
ghost use Rattle.p21_stream_statements.specs.Place.{StepPlaces, place_behind};
ghost use Rattle.p21_stream_statements.specs.PassingOver.{GivesPassed, IsAtRest, IsBetweenInstances, held_behind, room_of};
ghost use Rattle.p21_stream_statements.specs.Reopening.{GivesReopened, IsBetweenStatements, StepBegins};

use crate::fault::Fault;
use p21_grammar::{Event, GrammarFault, Kind, Line, Parser};
use p21_tokens::{Lexer, Places, Token};
use p21_values::Limits;
use std::alloc::Global;
use std::marker::Model;

/// A lexer, and a parser that takes its tokens.
pub struct StatementReader {
    lexer: Lexer,
    parser: Parser,
    // Whether the last statement ended the file.
    ended: bool,
}

// Written out: crates above call it, where they would prove a derived one field by field.
impl Drop for StatementReader {
    fn drop(self) {
        let StatementReader {
            lexer: _,
            parser: _,
            ended: _,
        } = self;
    }
}

impl Model for StatementReader {
    ghost use Rattle.p21_stream_statements.specs.StatementReader.{Held};

    ghost Value = { Held };

    ghost view = { λ reader. record { lexer = reader.lexer; parser = reader.parser } };
}

impl StatementReader {
    /// A statement reader that has taken no bytes. It takes no memory.
    pub fn new(alloc: Global, limits: Limits) -> StatementReader
        ensures live { IsLive result nothing_read }
        ensures limits { limits_of result ≡ (limits.record_source, limits.file_source) }
        ensures between { IsBetweenStatements result }
    {
        StatementReader {
            lexer: Lexer::new(alloc, limits),
            parser: Parser::new(alloc),
            ended: false,
        }
    }

    /// Takes the bytes of one token, or of the rest of a piece in which none is whole, and says how many; with the `;` of
    /// a statement, the statement. The byte behind a token may have been looked at: it has to be offered next.
    ///
    /// # Errors
    ///
    /// The lexer's, or the parser's at the token.
    pub fn step(&mut self, piece: &[u8]) -> Result<Option<(usize, Option<Event>)>, Fault>
        ensures takes { TakesWithinPiece piece.now result }
        ensures gives { StepGives self.old piece.now result self.new }
        ensures limits { limits_of self.new ≡ limits_of self.old }
        ensures no_memory { NeedsNoMemory self.old piece.now result }
        ensures kind { IfErr result (λ fault. IsOfBytes fault) }
        ensures place { StepPlaces self.old piece.now result self.new }
        ensures begins { StepBegins self.old result self.new }
    {
        let (count, token) = match self.lexer.next(piece) {
            Ok(answer) => answer,
            Err(fault) => return Err(Fault::from(fault)),
        };
        let Some(token) = token else {
            return Ok(None);
        };
        match self.parser.take(token) {
            Ok(event) => {
                self.ended = has_ended(&event, self.ended);
                Ok(Some((count, event)))
            }
            Err(fault) => Err(Fault::from(fault)),
        }
    }

    /// The end of the bytes. A last whole token is looked at only where the file has ended before it.
    ///
    /// # Errors
    ///
    /// The lexer's, `EndsEarly`, or the parser's at a last token.
    pub fn finish(self) -> Result<(), Fault>
        ensures gives { FinishGives self result }
        ensures kind { IfErr result (λ fault. IsOfBytes fault) }
    {
        let StatementReader {
            lexer,
            parser,
            ended,
        } = self;
        let last = match lexer.finish() {
            Ok(last) => last,
            Err(fault) => return Err(Fault::from(fault)),
        };
        let Some(token) = last else {
            return match parser.finish() {
                Ok(()) => Ok(()),
                Err(fault) => Err(Fault::from(fault)),
            };
        };
        Err(last_fault(parser, token, ended))
    }

    /// The token bytes of the open statement. It takes no memory.
    pub fn pending(&self) -> u64
        ensures within { result ≤ (limits_of self.now).0 }
        ensures pending { (reading : StatementHistory) → IsLive self.now reading → HasOpenStatement reading result self.now.parser.depth }
    {
        self.lexer.pending()
    }

    /// The lists and typed parameters that are open, at most 64. It takes no memory.
    pub fn depth(&self) -> u64
        ensures within { result ≤ 64 }
        ensures depth { result ≡ self.now.parser.depth }
    {
        self.parser.depth() as u64
    }

    /// Whether a token of this kind could stand behind the tokens taken, or in place of the one that was refused as unexpected, as
    /// `Parser::could_take` says. It takes no memory.
    pub fn could_take(&self, kind: Kind) -> bool
        ensures { (token : _) → kind_of token ≡ kind → result ≡ could_take self.now.parser token }
    {
        self.parser.could_take(kind)
    }

    /// Where it stands in the file. It takes no memory.
    pub fn places(&self) -> Places
        ensures byte { result.byte ≡ place_behind self.now }
    {
        self.lexer.places()
    }

    /// Notes that the statement that was passed over last has so many bytes. It takes no memory.
    pub fn note_statement(&mut self, count: u64)
        ensures { self.new ≡ self.old }
    {
        self.lexer.note_statement(count);
    }

    /// Whether it stands in a data section, between two tokens, with no statement open. Then instances that are read elsewhere
    /// may be passed over. It takes no memory.
    pub fn is_between_instances(&self) -> bool
        ensures value { IsTrue result ↔ IsBetweenInstances self.now }
        ensures rests { result ≡ true → (reading : StatementHistory) → IsLive self.now reading → IsAtRest reading }
        ensures stands { result ≡ true → StandsForMore self.now.parser }
        ensures between { result ≡ true → IsBetweenStatements self.now }
    {
        if !self.lexer.is_resting() {
            return false;
        }
        self.parser.is_between_instances()
    }

    /// How many bytes of whole instances the limits allow, also where one instance has them all. It takes no memory.
    pub fn room_for_statements(&self) -> u64
        ensures value { result ≡ room_of self.now }
    {
        self.lexer.room_for_statements()
    }

    /// Passes over bytes of whole instances, with separators around their tokens, as if it had taken them; says whether it
    /// did. It does where it stands between instances and has room for as many. The caller has read them. It takes no
    /// memory.
    pub fn pass_over(&mut self, count: usize) -> bool
        ensures passes { IsTrue result ↔ (IsBetweenInstances self.old × (count ≤ room_of self.old)) }
        ensures held { result ≡ true → self.new ≡ held_behind self.old count }
        ensures left { result ≡ false → self.new ≡ self.old }
        ensures gives { result ≡ true → GivesPassed self.old count self.new }
        ensures limits { limits_of self.new ≡ limits_of self.old }
        ensures depth { self.new.parser.depth ≡ self.old.parser.depth }
        ensures between { result ≡ true → IsBetweenStatements self.new }
    {
        if !self.is_between_instances() {
            return false;
        }
        self.lexer.pass_over(count)
    }

    /// Whether the last statement left it in a data section, also where something is refused. It takes no memory.
    pub fn is_in_data(&self) -> bool
        ensures { result ≡ is_in_data self.now.parser.stage }
    {
        self.parser.is_in_data()
    }

    /// Stands in front of this byte of the file with no statement open, as if separators stood there from the end of the last statement
    /// on; says whether it does. It does where the file may have as many bytes. A refusal is forgotten. So the reading goes on behind a
    /// statement that is passed over. It takes no memory.
    pub fn reopen(&mut self, place: u64) -> bool
        ensures reopens { IsTrue result ↔ (place ≤ (limits_of self.old).1) }
        ensures gives { result ≡ true → GivesReopened self.old place self.new }
        ensures place { result ≡ true → place_behind self.new ≡ place }
        ensures between { result ≡ true → IsBetweenStatements self.new }
        ensures stage { self.new.parser.stage ≡ self.old.parser.stage }
        ensures limits { limits_of self.new ≡ limits_of self.old }
        ensures left { result ≡ false → self.new ≡ self.old }
    {
        if !self.lexer.reopen(place) {
            return false;
        }
        self.parser.reopen();
        true
    }
}

/// The fault of a last token, behind which no `;` stands.
fn last_fault(mut parser: Parser, token: Token, ended: bool) -> Fault
    ensures { IsOfBytes result }
{
    if !ended {
        return Fault::Grammar(GrammarFault::EndsEarly);
    }
    match parser.take(token) {
        Ok(_) => Fault::Grammar(GrammarFault::EndsEarly),
        Err(fault) => Fault::from(fault),
    }
}

/// Whether the last statement behind this call is the last line of a file.
fn has_ended(event: &Option<Event>, before: bool) -> bool {
    match event {
        Some(Event::Section(Line::Finish)) => true,
        Some(_) => false,
        None => before,
    }
}
