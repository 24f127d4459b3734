//! The steps inside the parameters of a record.
ghost use Rattle.std.specs.Prelude.{◌≡◌, IfOk, IfErr};
ghost use Rattle.p21_grammar.specs.Machine.{open_of, opening_of, stack_of, closed_part, put_back, close_typed, spot_of, head_of, enter, close, close_empty, comma, put, at_next, at_behind, at_word, word, Keeps, MakesMove, RefusesMove};
ghost use Rattle.p21_grammar_tree.specs.View.{key_view, part_view, view, views};
ghost use Rattle.p21_spec_exchange.specs.Token as token;
ghost use Rattle.p21_tokens.specs.Token.{meant};
ghost use Rattle.p21_grammar.specs.declared.fault.GrammarFault.TheVariants.{NoMemory};

use super::faults::misplaced_param_fault;
use super::room::{make_room, trimmed_list_params, trimmed_record_params};
use super::{At, Head, Machine, Opening, Row, key};
use crate::fault::GrammarFault;
use p21_grammar_tree::{Key, Param, Params, Part, Record};
use p21_tokens::{Absent, Token};
use p21_values::{Name, Word};
use std::mem;

/// How deep lists and typed parameters may stand one in another.
const NESTING: usize = 64;

#[tactic(auto, using(crate::proofs::Stacks::stacks))]
impl Machine {
    /// Opens a list or a typed parameter.
    #[inline(always)]
    fn enter(&mut self, opening: Opening) -> Result<(), GrammarFault>
        ensures ok { IfOk result (λ _. MakesMove (enter self.old.stage (opening_of opening) (open_of self.old.row) (stack_of self.old.frames.items)) self.new) }
        ensures err { IfErr result (λ why. RefusesMove (enter self.old.stage (opening_of opening) (open_of self.old.row) (stack_of self.old.frames.items)) why) }
        ensures kept { IfErr result (λ why. Keeps why self.old.stage (spot_of self.old) self.new) }
    {
        if self.frames.len() >= NESTING {
            return Err(GrammarFault::TooDeep);
        }
        self.at = At::Next;
        let opened = Row {
            opening,
            params: Vec::new(self.alloc),
        };
        let around = mem::replace(&mut self.row, opened);
        self.frames.push(around)?;
        Ok(())
    }

    /// A parameter of the open row.
    #[inline(always)]
    fn put(&mut self, param: Param) -> Result<(), GrammarFault>
        ensures ok { IfOk result (λ _. MakesMove (put self.old.stage (open_of self.old.row) (stack_of self.old.frames.items) (view param)) self.new) }
        ensures err { IfErr result (λ why. RefusesMove (put self.old.stage (open_of self.old.row) (stack_of self.old.frames.items) (view param)) why) }
        ensures kept { IfErr result (λ why. Keeps why self.old.stage (spot_of self.old) self.new) }
    {
        self.at = At::Behind;
        self.row.params.push(param)?;
        Ok(())
    }

    /// The simple record whose parameters have ended.
    fn close_part(&mut self, head: Head, part: Part) -> Result<(), GrammarFault>
        ensures ok { IfOk result (λ _. (self.new.stage ≡ self.old.stage) × (spot_of self.new ≡ closed_part (head_of head) (part_view part))) }
        ensures err { IfErr result (λ why. why ≡ NoMemory) }
    {
        self.at = match head {
            Head::Bare => At::RecordEnd(part),
            Head::Simple(name) => At::InstanceEnd(name, Record::Simple(part)),
            Head::Among(name, parts) => {
                let mut parts = parts;
                parts.push(part)?;
                At::Among(name, parts)
            }
        };
        Ok(())
    }

    /// A list or a typed parameter that has ended, in the row around it.
    fn put_back(&mut self, param: Param) -> Result<(), GrammarFault>
        ensures ok { IfOk result (λ _. MakesMove (put_back self.old.stage (stack_of self.old.frames.items) (view param)) self.new) }
        ensures err { IfErr result (λ why. RefusesMove (put_back self.old.stage (stack_of self.old.frames.items) (view param)) why) }
    {
        let Some(around) = self.frames.pop() else {
            return Err(GrammarFault::Unexpected);
        };
        self.row = around;
        make_room(&mut self.row.params)?;
        self.put(param)
    }

    /// A typed parameter has one parameter.
    fn close_typed(&mut self, key: Key, params: Vec<Param>) -> Result<(), GrammarFault>
        ensures ok { IfOk result (λ _. MakesMove (close_typed self.old.stage (stack_of self.old.frames.items) (key_view key) (views params.items)) self.new) }
        ensures err { IfErr result (λ why. RefusesMove (close_typed self.old.stage (stack_of self.old.frames.items) (key_view key) (views params.items)) why) }
    {
        let mut params = params;
        let Some(param) = params.pop() else {
            return Err(GrammarFault::Unexpected);
        };
        if !params.is_empty() {
            return Err(GrammarFault::Unexpected);
        }
        let param = Box::new(self.alloc, param)?;
        self.put_back(Param::Tagged(key, param))
    }

    /// The parenthesis behind parameters.
    fn close(&mut self) -> Result<(), GrammarFault>
        ensures ok { IfOk result (λ _. MakesMove (close self.old.stage (open_of self.old.row) (stack_of self.old.frames.items)) self.new) }
        ensures err { IfErr result (λ why. RefusesMove (close self.old.stage (open_of self.old.row) (stack_of self.old.frames.items)) why) }
        ensures kept { IfErr result (λ why. Keeps why self.old.stage (spot_of self.old) self.new) }
    {
        if !self.could_close() {
            return Err(GrammarFault::Unexpected);
        }
        let closed = Row {
            opening: Opening::List,
            params: Vec::new(self.alloc),
        };
        let Row { opening, params } = mem::replace(&mut self.row, closed);
        match opening {
            Opening::Part(head, key) => {
                let params = trimmed_record_params(self.alloc, params, &head)?;
                let params = Params::from_vec(params);
                self.close_part(head, Part { key, params })
            }
            Opening::List => {
                let params = trimmed_list_params(self.alloc, params, &self.frames)?;
                self.put_back(Param::List(Params::from_vec(params)))
            }
            Opening::Tagged(key) => self.close_typed(key, params),
        }
    }

    /// The parenthesis right behind an opening one.
    fn close_empty(&mut self) -> Result<(), GrammarFault>
        ensures ok { IfOk result (λ _. MakesMove (close_empty self.old.stage (open_of self.old.row) (stack_of self.old.frames.items)) self.new) }
        ensures err { IfErr result (λ why. RefusesMove (close_empty self.old.stage (open_of self.old.row) (stack_of self.old.frames.items)) why) }
        ensures kept { IfErr result (λ why. Keeps why self.old.stage (spot_of self.old) self.new) }
    {
        if !self.row.params.is_empty() {
            return Err(GrammarFault::Unexpected);
        }
        self.close()
    }

    /// A comma behind a parameter.
    #[inline(always)]
    fn comma(&mut self) -> Result<(), GrammarFault>
        ensures ok { IfOk result (λ _. MakesMove (comma self.old.stage (open_of self.old.row) (stack_of self.old.frames.items)) self.new) }
        ensures err { IfErr result (λ why. RefusesMove (comma self.old.stage (open_of self.old.row) (stack_of self.old.frames.items)) why) }
        ensures kept { IfErr result (λ why. Keeps why self.old.stage (spot_of self.old) self.new) }
    {
        if let Opening::Tagged(_) = &self.row.opening {
            return Err(GrammarFault::Unexpected);
        }
        self.at = At::Next;
        Ok(())
    }

    /// The name of another instance as a parameter.
    #[inline(always)]
    fn put_name(&mut self, name: Name) -> Result<(), GrammarFault>
        ensures ok { IfOk result (λ _. MakesMove (at_next self.old.stage (open_of self.old.row) (stack_of self.old.frames.items) (token.name name)) self.new) }
        ensures err { IfErr result (λ why. RefusesMove (at_next self.old.stage (open_of self.old.row) (stack_of self.old.frames.items) (token.name name)) why) }
        ensures kept { IfErr result (λ why. Keeps why self.old.stage (spot_of self.old) self.new) }
    {
        if self.stage.is_in_header() {
            return Err(GrammarFault::Unexpected);
        }
        self.put(Param::Name(name))
    }

    /// A user-defined keyword of a typed parameter.
    fn put_user_keyword(&mut self, word: Word) -> Result<(), GrammarFault>
        ensures ok { IfOk result (λ _. MakesMove (at_next self.old.stage (open_of self.old.row) (stack_of self.old.frames.items) (token.user_keyword word)) self.new) }
        ensures err { IfErr result (λ why. RefusesMove (at_next self.old.stage (open_of self.old.row) (stack_of self.old.frames.items) (token.user_keyword word)) why) }
        ensures kept { IfErr result (λ why. Keeps why self.old.stage (spot_of self.old) self.new) }
    {
        if !self.stage.is_in_header() {
            return Err(GrammarFault::LeftOut(Absent::UserKeyword));
        }
        self.at = At::Word(Key { user: true, word });
        Ok(())
    }

    /// Where a parameter may begin.
    #[inline(always)]
    pub(crate) fn next(&mut self, token: Token) -> Result<(), GrammarFault>
        ensures ok { IfOk result (λ _. MakesMove (at_next self.old.stage (open_of self.old.row) (stack_of self.old.frames.items) (meant token)) self.new) }
        ensures err { IfErr result (λ why. RefusesMove (at_next self.old.stage (open_of self.old.row) (stack_of self.old.frames.items) (meant token)) why) }
        ensures kept { IfErr result (λ why. Keeps why self.old.stage (spot_of self.old) self.new) }
    {
        let param = match token {
            Token::Dollar => Param::Dollar,
            Token::Star => Param::Star,
            Token::Whole(number) => Param::Whole(number),
            Token::Real(number) => Param::Real(number),
            Token::Text(text) => Param::Text(text),
            Token::Item(word) => Param::Item(word),
            Token::Bits(bits) => Param::Bits(bits),
            Token::Name(name) => return self.put_name(name),
            Token::Keyword(word) => {
                self.at = At::Word(key(word));
                return Ok(());
            }
            Token::UserKeyword(word) => return self.put_user_keyword(word),
            Token::Left => return self.enter(Opening::List),
            Token::Right => return self.close_empty(),
            Token::Begin | Token::Finish | Token::Comma | Token::Semicolon | Token::Equals => {
                return Err(GrammarFault::Unexpected);
            }
        };
        self.put(param)
    }

    /// Behind a parameter.
    #[inline(always)]
    pub(crate) fn behind(&mut self, token: Token) -> Result<(), GrammarFault>
        ensures ok { IfOk result (λ _. MakesMove (at_behind self.old.stage (open_of self.old.row) (stack_of self.old.frames.items) (meant token)) self.new) }
        ensures err { IfErr result (λ why. RefusesMove (at_behind self.old.stage (open_of self.old.row) (stack_of self.old.frames.items) (meant token)) why) }
        ensures kept { IfErr result (λ why. Keeps why self.old.stage (spot_of self.old) self.new) }
    {
        match token {
            Token::Comma => self.comma(),
            Token::Right => self.close(),
            token => Err(misplaced_param_fault(self.stage, &token)),
        }
    }

    /// Behind the keyword of a typed parameter.
    pub(crate) fn word(&mut self, key: Key, token: Token) -> Result<(), GrammarFault>
        ensures ok { IfOk result (λ _. MakesMove (at_word self.old.stage (key_view key) (open_of self.old.row) (stack_of self.old.frames.items) (meant token)) self.new) }
        ensures err { IfErr result (λ why. RefusesMove (at_word self.old.stage (key_view key) (open_of self.old.row) (stack_of self.old.frames.items) (meant token)) why) }
        ensures kept { IfErr result (λ why. Keeps why self.old.stage (word (key_view key) (open_of self.old.row) (stack_of self.old.frames.items)) self.new) }
    {
        match token {
            Token::Left => self.enter(Opening::Tagged(key)),
            token => {
                self.at = At::Word(key);
                Err(misplaced_param_fault(self.stage, &token))
            }
        }
    }
}
