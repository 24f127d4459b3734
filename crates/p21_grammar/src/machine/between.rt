//! The steps where no statement is open.
ghost use Rattle.std.specs.Prelude.{IfOk, IfErr};
ghost use Rattle.p21_grammar.specs.Machine.{at_idle, at_start, at_begun, at_header, at_headed, at_data, at_behind_unnamed, at_behind_named, at_data_keyword, spot_of, Keeps, MakesMove, RefusesMove};
ghost use Rattle.p21_tokens.specs.Token.{meant};

use super::faults::{fault_behind_end, other_section_fault};
use super::{At, Head, Machine, key};
use crate::event::Line;
use crate::fault::GrammarFault;
use crate::shape::is_word;
use crate::stage::Stage;
use p21_grammar_tree::Key;
use p21_tokens::{Absent, Token};
use p21_values::Word;

#[tactic(auto, using(crate::proofs::Stacks::stacks))]
impl Machine {
    /// At the start of the file.
    fn start(&mut self, token: Token) -> Result<(), GrammarFault>
        ensures ok { IfOk result (λ _. MakesMove (at_start self.old.stage (meant token)) self.new) }
        ensures err { IfErr result (λ why. RefusesMove (at_start self.old.stage (meant token)) why) }
        ensures kept { IfErr result (λ why. Keeps why self.old.stage (spot_of self.old) self.new) }
    {
        match token {
            Token::Begin => {
                self.at = At::Line(Line::Begin);
                Ok(())
            }
            _ => Err(GrammarFault::Unexpected),
        }
    }

    /// Behind `ISO-10303-21;`.
    fn begun(&mut self, token: Token) -> Result<(), GrammarFault>
        ensures ok { IfOk result (λ _. MakesMove (at_begun self.old.stage (meant token)) self.new) }
        ensures err { IfErr result (λ why. RefusesMove (at_begun self.old.stage (meant token)) why) }
        ensures kept { IfErr result (λ why. Keeps why self.old.stage (spot_of self.old) self.new) }
    {
        match token {
            Token::Keyword(word) => {
                if !is_word(&word, b"HEADER") {
                    return Err(other_section_fault(&word));
                }
                self.at = At::Line(Line::HeaderStart);
                Ok(())
            }
            _ => Err(GrammarFault::Unexpected),
        }
    }

    /// In the header.
    fn header(&mut self, token: Token) -> Result<(), GrammarFault>
        ensures ok { IfOk result (λ _. MakesMove (at_header self.old.stage (meant token)) self.new) }
        ensures err { IfErr result (λ why. RefusesMove (at_header self.old.stage (meant token)) why) }
        ensures kept { IfErr result (λ why. Keeps why self.old.stage (spot_of self.old) self.new) }
    {
        match token {
            Token::Keyword(word) => {
                self.at = At::Keyed(Head::Bare, key(word));
                Ok(())
            }
            Token::UserKeyword(word) => {
                self.at = At::Keyed(Head::Bare, Key { user: true, word });
                Ok(())
            }
            _ => Err(GrammarFault::Unexpected),
        }
    }

    /// A keyword with which a data section begins, or where one may begin.
    fn data_keyword(&mut self, word: Word) -> Result<(), GrammarFault>
        ensures ok { IfOk result (λ _. MakesMove (at_data_keyword self.old.stage word) self.new) }
        ensures err { IfErr result (λ why. RefusesMove (at_data_keyword self.old.stage word) why) }
        ensures kept { IfErr result (λ why. Keeps why self.old.stage (spot_of self.old) self.new) }
    {
        if !is_word(&word, b"DATA") {
            return Err(other_section_fault(&word));
        }
        self.at = At::Keyed(Head::Bare, key(word));
        Ok(())
    }

    /// Behind the header.
    fn headed(&mut self, token: Token) -> Result<(), GrammarFault>
        ensures ok { IfOk result (λ _. MakesMove (at_headed self.old.stage (meant token)) self.new) }
        ensures err { IfErr result (λ why. RefusesMove (at_headed self.old.stage (meant token)) why) }
        ensures kept { IfErr result (λ why. Keeps why self.old.stage (spot_of self.old) self.new) }
    {
        match token {
            Token::Keyword(word) => self.data_keyword(word),
            Token::Finish => Err(GrammarFault::LeftOut(Absent::NoDataSection)),
            _ => Err(GrammarFault::Unexpected),
        }
    }

    /// In a data section.
    #[inline(always)]
    fn data(&mut self, token: Token) -> Result<(), GrammarFault>
        ensures ok { IfOk result (λ _. MakesMove (at_data self.old.stage (meant token)) self.new) }
        ensures err { IfErr result (λ why. RefusesMove (at_data self.old.stage (meant token)) why) }
        ensures kept { IfErr result (λ why. Keeps why self.old.stage (spot_of self.old) self.new) }
    {
        match token {
            Token::Name(name) => {
                self.at = At::Named(name);
                Ok(())
            }
            Token::Keyword(word) => {
                if !is_word(&word, b"ENDSEC") {
                    return Err(GrammarFault::Unexpected);
                }
                self.at = At::Line(Line::SectionEnd);
                Ok(())
            }
            Token::UserKeyword(_) => Err(GrammarFault::LeftOut(Absent::UserKeyword)),
            _ => Err(GrammarFault::Unexpected),
        }
    }

    /// Behind a data section without a name.
    fn behind_unnamed(&mut self, token: Token) -> Result<(), GrammarFault>
        ensures ok { IfOk result (λ _. MakesMove (at_behind_unnamed self.old.stage (meant token)) self.new) }
        ensures err { IfErr result (λ why. RefusesMove (at_behind_unnamed self.old.stage (meant token)) why) }
        ensures kept { IfErr result (λ why. Keeps why self.old.stage (spot_of self.old) self.new) }
    {
        match token {
            Token::Keyword(word) => {
                if is_word(&word, b"DATA") {
                    return Err(GrammarFault::LeftOut(Absent::SecondSection));
                }
                Err(other_section_fault(&word))
            }
            Token::Finish => {
                self.at = At::Line(Line::Finish);
                Ok(())
            }
            _ => Err(GrammarFault::Unexpected),
        }
    }

    /// Behind a data section with a name.
    fn behind_named(&mut self, token: Token) -> Result<(), GrammarFault>
        ensures ok { IfOk result (λ _. MakesMove (at_behind_named self.old.stage (meant token)) self.new) }
        ensures err { IfErr result (λ why. RefusesMove (at_behind_named self.old.stage (meant token)) why) }
        ensures kept { IfErr result (λ why. Keeps why self.old.stage (spot_of self.old) self.new) }
    {
        match token {
            Token::Keyword(word) => self.data_keyword(word),
            Token::Finish => {
                self.at = At::Line(Line::Finish);
                Ok(())
            }
            _ => Err(GrammarFault::Unexpected),
        }
    }

    /// Where no statement is open.
    #[inline(always)]
    pub(crate) fn idle(&mut self, token: Token) -> Result<(), GrammarFault>
        ensures ok { IfOk result (λ _. MakesMove (at_idle self.old.stage (meant token)) self.new) }
        ensures err { IfErr result (λ why. RefusesMove (at_idle self.old.stage (meant token)) why) }
        ensures kept { IfErr result (λ why. Keeps why self.old.stage (spot_of self.old) self.new) }
    {
        match self.stage {
            Stage::Start => self.start(token),
            Stage::Begun => self.begun(token),
            Stage::Description | Stage::FileName | Stage::FileSchema | Stage::Further => {
                self.header(token)
            }
            Stage::Headed => self.headed(token),
            Stage::Unnamed | Stage::Named => self.data(token),
            Stage::BehindUnnamed => self.behind_unnamed(token),
            Stage::BehindNamed => self.behind_named(token),
            Stage::Ended => Err(fault_behind_end(&token)),
        }
    }
}
