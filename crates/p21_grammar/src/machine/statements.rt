//! The steps from the beginning of a statement to its `;`, its parameters apart.
ghost use Rattle.std.specs.Prelude.{[], IfOk, IfErr};
ghost use Rattle.p21_spec_exchange.specs.Parameter.{no_params};
ghost use Rattle.p21_spec_exchange.specs.Statement.{section, header, instance};
ghost use Rattle.p21_spec_exchange.specs.Token.{semicolon};
ghost use Rattle.p21_grammar.specs.Stage.{after};
ghost use Rattle.p21_grammar.specs.Machine.{head_of, at_line, at_named, at_equal, at_inside, at_keyed, at_record_end, at_instance_end, end_keyword, end_record, next, go, part_row, open_at, ended, end_heading, close_records, spot_of, inside, instance_end, keyed, line as behind_line, record_end, AnswersMove, Keeps, MakesMove, RefusesMove};
ghost use Rattle.p21_grammar.specs.HeadingShape.{HasHeadingShape};
ghost use Rattle.p21_grammar.specs.Statements.{line_of};
ghost use Rattle.p21_grammar_tree.specs.View.{key_view, part_view, part_views, record_view};
ghost use Rattle.p21_tokens.specs.Token.{meant};

use super::faults::misplaced_fault;
use super::{At, Head, Machine, Opening, Row, key};
use crate::event::{Event, Line};
use crate::fault::GrammarFault;
use crate::shape::{is_heading, is_key};
use p21_grammar_tree::{Key, Part, Parts, Record};
use p21_tokens::Token;
use p21_values::Name;

#[tactic(auto, using(crate::proofs::Stacks::stacks))]
impl Machine {
    /// The end of a section line.
    fn end_line(&mut self, line: Line) -> Result<Option<Event>, GrammarFault>
        ensures ok { IfOk result (λ event. AnswersMove (ended (section (line_of line)) (after self.old.stage (section (line_of line)))) self.new event) }
        ensures err { IfErr result (λ why. RefusesMove (ended (section (line_of line)) (after self.old.stage (section (line_of line)))) why) }
        ensures kept { IfErr result (λ why. Keeps why self.old.stage (spot_of self.old) self.new) }
        ensures shaped { IfOk result HasHeadingShape }
    {
        self.stage = self.stage.after_line(line)?;
        self.at = At::Idle;
        Ok(Some(Event::Section(line)))
    }

    /// The end of a header record.
    fn end_header(&mut self, part: Part) -> Result<Option<Event>, GrammarFault>
        ensures ok { IfOk result (λ event. AnswersMove (ended (header (part_view part)) (after self.old.stage (header (part_view part)))) self.new event) }
        ensures err { IfErr result (λ why. RefusesMove (ended (header (part_view part)) (after self.old.stage (header (part_view part)))) why) }
        ensures kept { IfErr result (λ why. Keeps why self.old.stage (record_end (part_view part)) self.new) }
        ensures shaped { IfOk result HasHeadingShape }
    {
        self.stage = match self.stage.after_part(&part) {
            Ok(stage) => stage,
            Err(fault) => {
                self.at = At::RecordEnd(part);
                return Err(fault);
            }
        };
        self.at = At::Idle;
        Ok(Some(Event::Header(part)))
    }

    /// The end of a DATA with parameters.
    fn end_heading(&mut self, part: Part) -> Result<Option<Event>, GrammarFault>
        ensures ok { IfOk result (λ event. AnswersMove (end_heading self.old.stage (part_view part)) self.new event) }
        ensures err { IfErr result (λ why. RefusesMove (end_heading self.old.stage (part_view part)) why) }
        ensures kept { IfErr result (λ why. Keeps why self.old.stage (record_end (part_view part)) self.new) }
        ensures shaped { IfOk result HasHeadingShape }
    {
        if !is_heading(&part) {
            return Err(GrammarFault::SectionShape);
        }
        self.stage = match self.stage.after_heading() {
            Ok(stage) => stage,
            Err(fault) => {
                self.at = At::RecordEnd(part);
                return Err(fault);
            }
        };
        self.at = At::Idle;
        Ok(Some(Event::Named(part)))
    }

    /// The end of a record with no instance name.
    fn end_record(&mut self, part: Part) -> Result<Option<Event>, GrammarFault>
        ensures ok { IfOk result (λ event. AnswersMove (end_record self.old.stage (part_view part)) self.new event) }
        ensures err { IfErr result (λ why. RefusesMove (end_record self.old.stage (part_view part)) why) }
        ensures kept { IfErr result (λ why. Keeps why self.old.stage (record_end (part_view part)) self.new) }
        ensures shaped { IfOk result HasHeadingShape }
    {
        if self.stage.is_in_header() {
            self.end_header(part)
        } else {
            self.end_heading(part)
        }
    }

    /// The end of a bare keyword: that of the header, or the beginning of a data section without a name.
    fn end_keyword(&mut self, key: &Key) -> Result<Option<Event>, GrammarFault>
        ensures ok { IfOk result (λ event. AnswersMove (end_keyword self.old.stage (key_view key.now)) self.new event) }
        ensures err { IfErr result (λ why. RefusesMove (end_keyword self.old.stage (key_view key.now)) why) }
        ensures kept { IfErr result (λ why. Keeps why self.old.stage (spot_of self.old) self.new) }
        ensures shaped { IfOk result HasHeadingShape }
    {
        if self.stage.is_in_header() {
            if is_key(key, b"ENDSEC") {
                self.end_line(Line::SectionEnd)
            } else {
                Err(GrammarFault::Unexpected)
            }
        } else if is_key(key, b"DATA") {
            self.end_line(Line::DataStart)
        } else {
            Err(GrammarFault::Unexpected)
        }
    }

    /// The end of an instance.
    fn end_instance(&mut self, name: Name, body: Record) -> Result<Option<Event>, GrammarFault>
        ensures ok { IfOk result (λ event. AnswersMove (ended (instance name (record_view body)) (after self.old.stage (instance name (record_view body)))) self.new event) }
        ensures err { IfErr result (λ why. RefusesMove (ended (instance name (record_view body)) (after self.old.stage (instance name (record_view body)))) why) }
        ensures kept { IfErr result (λ why. Keeps why self.old.stage (instance_end name (record_view body)) self.new) }
        ensures shaped { IfOk result HasHeadingShape }
    {
        self.stage = match self.stage.after_instance() {
            Ok(stage) => stage,
            Err(fault) => {
                self.at = At::InstanceEnd(name, body);
                return Err(fault);
            }
        };
        self.at = At::Idle;
        Ok(Some(Event::Instance(name, body)))
    }

    /// Behind a section line without its `;`.
    pub(crate) fn line(&mut self, line: Line, token: Token) -> Result<Option<Event>, GrammarFault>
        ensures ok { IfOk result (λ event. AnswersMove (at_line self.old.stage (line_of line) (meant token)) self.new event) }
        ensures err { IfErr result (λ why. RefusesMove (at_line self.old.stage (line_of line) (meant token)) why) }
        ensures kept { IfErr result (λ why. Keeps why self.old.stage (behind_line (line_of line)) self.new) }
        ensures shaped { IfOk result HasHeadingShape }
    {
        self.at = At::Line(line);
        match token {
            Token::Semicolon => self.end_line(line),
            token => Err(misplaced_fault(self.stage, &token)),
        }
    }

    /// Behind the name of an instance.
    #[inline(always)]
    pub(crate) fn named(&mut self, name: Name, token: Token) -> Result<(), GrammarFault>
        ensures ok { IfOk result (λ _. MakesMove (at_named self.old.stage name (meant token)) self.new) }
        ensures err { IfErr result (λ why. RefusesMove (at_named self.old.stage name (meant token)) why) }
        ensures kept { IfErr result (λ why. Keeps why self.old.stage (spot_of self.old) self.new) }
    {
        match token {
            Token::Equals => {
                self.at = At::Equal(name);
                Ok(())
            }
            token => Err(misplaced_fault(self.stage, &token)),
        }
    }

    /// Behind `#1=`.
    #[inline(always)]
    pub(crate) fn equal(&mut self, name: Name, token: Token) -> Result<(), GrammarFault>
        ensures ok { IfOk result (λ _. MakesMove (at_equal self.old.stage name (meant token)) self.new) }
        ensures err { IfErr result (λ why. RefusesMove (at_equal self.old.stage name (meant token)) why) }
        ensures kept { IfErr result (λ why. Keeps why self.old.stage (spot_of self.old) self.new) }
    {
        match token {
            Token::Keyword(word) => {
                self.at = At::Keyed(Head::Simple(name), key(word));
                Ok(())
            }
            Token::Left => {
                self.at = At::Among(name, Vec::new(self.alloc));
                Ok(())
            }
            token => Err(misplaced_fault(self.stage, &token)),
        }
    }

    /// The parenthesis behind the records of an instance.
    fn close_records(&mut self, name: Name, parts: Vec<Part>) -> Result<(), GrammarFault>
        ensures ok { IfOk result (λ _. MakesMove (close_records self.old.stage name (part_views parts.items)) self.new) }
        ensures err { IfErr result (λ why. RefusesMove (close_records self.old.stage name (part_views parts.items)) why) }
        ensures kept { IfErr result (λ why. Keeps why self.old.stage (inside name (part_views parts.items)) self.new) }
    {
        let Some(parts) = Parts::from_vec(parts) else {
            self.at = At::Among(name, Vec::new(self.alloc));
            return Err(GrammarFault::Unexpected);
        };
        self.at = At::InstanceEnd(name, Record::Complex(parts));
        Ok(())
    }

    /// Behind `#1=(` and records.
    pub(crate) fn among(
        &mut self,
        name: Name,
        parts: Vec<Part>,
        token: Token,
    ) -> Result<(), GrammarFault>
        ensures ok { IfOk result (λ _. MakesMove (at_inside self.old.stage name (part_views parts.items) (meant token)) self.new) }
        ensures err { IfErr result (λ why. RefusesMove (at_inside self.old.stage name (part_views parts.items) (meant token)) why) }
        ensures kept { IfErr result (λ why. Keeps why self.old.stage (inside name (part_views parts.items)) self.new) }
    {
        match token {
            Token::Keyword(word) => {
                self.at = At::Keyed(Head::Among(name, parts), key(word));
                Ok(())
            }
            Token::Right => self.close_records(name, parts),
            token => {
                self.at = At::Among(name, parts);
                Err(misplaced_fault(self.stage, &token))
            }
        }
    }

    /// Opens the parameters of a simple record.
    fn open_part(&mut self, head: Head, key: Key)
        ensures { MakesMove (go self.old.stage (next (open_at (part_row (head_of head) (key_view key)) no_params) [])) self.new }
    {
        self.at = At::Next;
        self.frames.clear();
        self.row = Row {
            opening: Opening::Part(head, key),
            params: Vec::new(self.alloc),
        };
    }

    /// The `;` behind the keyword of a simple record.
    fn end_keyed(&mut self, head: Head, key: Key) -> Result<Option<Event>, GrammarFault>
        ensures ok { IfOk result (λ event. AnswersMove (at_keyed self.old.stage (head_of head) (key_view key) semicolon) self.new event) }
        ensures err { IfErr result (λ why. RefusesMove (at_keyed self.old.stage (head_of head) (key_view key) semicolon) why) }
        ensures kept { IfErr result (λ why. Keeps why self.old.stage (keyed (head_of head) (key_view key)) self.new) }
        ensures shaped { IfOk result HasHeadingShape }
    {
        let ended = match &head {
            Head::Bare => self.end_keyword(&key),
            Head::Simple(_) | Head::Among(_, _) => Err(GrammarFault::Unexpected),
        };
        if ended.is_err() {
            self.at = At::Keyed(head, key);
        }
        ended
    }

    /// Behind the keyword of a simple record.
    pub(crate) fn keyed(
        &mut self,
        head: Head,
        key: Key,
        token: Token,
    ) -> Result<Option<Event>, GrammarFault>
        ensures ok { IfOk result (λ event. AnswersMove (at_keyed self.old.stage (head_of head) (key_view key) (meant token)) self.new event) }
        ensures err { IfErr result (λ why. RefusesMove (at_keyed self.old.stage (head_of head) (key_view key) (meant token)) why) }
        ensures kept { IfErr result (λ why. Keeps why self.old.stage (keyed (head_of head) (key_view key)) self.new) }
        ensures shaped { IfOk result HasHeadingShape }
    {
        match token {
            Token::Left => {
                self.open_part(head, key);
                Ok(None)
            }
            Token::Semicolon => self.end_keyed(head, key),
            token => {
                self.at = At::Keyed(head, key);
                Err(misplaced_fault(self.stage, &token))
            }
        }
    }

    /// Behind a record with no instance name.
    pub(crate) fn record_end(
        &mut self,
        part: Part,
        token: Token,
    ) -> Result<Option<Event>, GrammarFault>
        ensures ok { IfOk result (λ event. AnswersMove (at_record_end self.old.stage (part_view part) (meant token)) self.new event) }
        ensures err { IfErr result (λ why. RefusesMove (at_record_end self.old.stage (part_view part) (meant token)) why) }
        ensures kept { IfErr result (λ why. Keeps why self.old.stage (record_end (part_view part)) self.new) }
        ensures shaped { IfOk result HasHeadingShape }
    {
        match token {
            Token::Semicolon => self.end_record(part),
            token => {
                self.at = At::RecordEnd(part);
                Err(misplaced_fault(self.stage, &token))
            }
        }
    }

    /// Behind the record of an instance.
    pub(crate) fn instance_end(
        &mut self,
        name: Name,
        body: Record,
        token: Token,
    ) -> Result<Option<Event>, GrammarFault>
        ensures ok { IfOk result (λ event. AnswersMove (at_instance_end self.old.stage name (record_view body) (meant token)) self.new event) }
        ensures err { IfErr result (λ why. RefusesMove (at_instance_end self.old.stage name (record_view body) (meant token)) why) }
        ensures kept { IfErr result (λ why. Keeps why self.old.stage (instance_end name (record_view body)) self.new) }
        ensures shaped { IfOk result HasHeadingShape }
    {
        match token {
            Token::Semicolon => self.end_instance(name, body),
            token => {
                self.at = At::InstanceEnd(name, body);
                Err(misplaced_fault(self.stage, &token))
            }
        }
    }
}
