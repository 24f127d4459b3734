//! With which kinds of token the machine goes on from where it stands. It is asked for a token that is refused alone.
ghost use Rattle.std.specs.Prelude.{◌≡◌};
ghost use Rattle.p21_grammar.specs.Begins.{begins_param, closes, ends, ends_keyword, ends_record, has_comma, takes, takes_end};
ghost use Rattle.p21_grammar.specs.Expected.{is_of_form};
ghost use Rattle.p21_grammar.specs.Machine.{head_of, open_of, spot_of, stack_of};
ghost use Rattle.p21_grammar_tree.specs.View.{key_view, part_view};

use super::{At, Head, Machine, Opening};
use crate::event::Line;
use crate::fault::GrammarFault;
use crate::kind::{Kind, is_keyword};
use crate::shape::{is_heading, is_key};
use crate::stage::Stage;
use p21_grammar_tree::{Key, Part};

#[tactic(auto, using(crate::proofs::Stacks::stacks))]
impl Machine {
    /// Whether it goes on with a token of this kind, or refuses it for its depth or for the form of its statement alone.
    pub fn could_take(&self, kind: Kind) -> bool
        ensures { result ≡ takes self.now.stage (spot_of self.now) kind }
    {
        match &self.at {
            At::Idle => self.stage.could_begin_with(kind),
            At::Line(line) => match kind {
                Kind::Semicolon => could_end(self.stage.after_line(*line)),
                _ => false,
            },
            At::Named(_) => matches!(kind, Kind::Equals),
            At::Equal(_) => match kind {
                Kind::Left => true,
                kind => is_keyword(kind),
            },
            At::Among(_, parts) => match kind {
                Kind::Right => !parts.is_empty(),
                kind => is_keyword(kind),
            },
            At::Keyed(head, key) => match kind {
                Kind::Left => true,
                Kind::Semicolon => self.could_end_keyed(head, key),
                _ => false,
            },
            At::Next => self.could_begin_param(kind),
            At::Word(_) => matches!(kind, Kind::Left),
            At::Behind => match kind {
                Kind::Comma => self.could_go_on(),
                Kind::Right => self.could_close(),
                _ => false,
            },
            At::RecordEnd(part) => match kind {
                Kind::Semicolon => self.could_end_record(part),
                _ => false,
            },
            At::InstanceEnd(_, _) => match kind {
                Kind::Semicolon => could_end(self.stage.after_instance()),
                _ => false,
            },
        }
    }

    /// Whether a `;` ends the keyword of a simple record.
    fn could_end_keyed(&self, head: &Head, key: &Key) -> bool
        ensures { result ≡ takes_end self.now.stage (head_of head.now) (key_view key.now) }
    {
        match head {
            Head::Bare => self.could_end_keyword(key),
            Head::Simple(_) | Head::Among(_, _) => false,
        }
    }

    /// Whether a `;` ends a bare keyword.
    fn could_end_keyword(&self, key: &Key) -> bool
        ensures { result ≡ ends_keyword self.now.stage (key_view key.now) }
    {
        if self.stage.is_in_header() {
            is_key(key, b"ENDSEC") && could_end(self.stage.after_line(Line::SectionEnd))
        } else {
            is_key(key, b"DATA") && could_end(self.stage.after_line(Line::DataStart))
        }
    }

    /// Whether a `;` ends a record with no instance name.
    fn could_end_record(&self, part: &Part) -> bool
        ensures { result ≡ ends_record self.now.stage (part_view part.now) }
    {
        if self.stage.is_in_header() {
            could_end(self.stage.after_part(part))
        } else {
            !is_heading(part) || could_end(self.stage.after_heading())
        }
    }

    /// Whether a parameter of the open row may begin with a token of this kind, or the row end with it.
    fn could_begin_param(&self, kind: Kind) -> bool
        ensures { result ≡ begins_param self.now.stage (open_of self.now.row) (stack_of self.now.frames.items) kind }
    {
        match kind {
            Kind::Dollar => true,
            Kind::Star => true,
            Kind::Whole => true,
            Kind::Real => true,
            Kind::Text => true,
            Kind::Item => true,
            Kind::Bits => true,
            Kind::Name => !self.stage.is_in_header(),
            Kind::UserKeyword => self.stage.is_in_header(),
            Kind::Left => true,
            Kind::Right => self.row.params.is_empty() && self.could_close(),
            kind => is_keyword(kind),
        }
    }

    /// Whether a comma may stand behind a parameter of the open row.
    fn could_go_on(&self) -> bool
        ensures { result ≡ has_comma (open_of self.now.row) }
    {
        !matches!(self.row.opening, Opening::Tagged(_))
    }

    /// Whether a parenthesis may stand behind the parameters of the open row: a list and a typed parameter stand in another row, and
    /// a typed parameter has one parameter.
    pub(crate) fn could_close(&self) -> bool
        ensures { result ≡ closes (open_of self.now.row) (stack_of self.now.frames.items) }
    {
        match &self.row.opening {
            Opening::Part(_, _) => true,
            Opening::List => !self.frames.is_empty(),
            Opening::Tagged(_) => !self.frames.is_empty() && self.row.params.len() == 1,
        }
    }
}

/// Whether a `;` ends a statement, which may have another form than it should have.
fn could_end(behind: Result<Stage, GrammarFault>) -> bool
    ensures { result ≡ ends behind }
{
    match behind {
        Ok(_) => true,
        Err(fault) => is_of_form(fault),
    }
}

/// Whether a token is refused for what it opens or ends, and not for itself.
fn is_of_form(fault: GrammarFault) -> bool
    ensures { result ≡ is_of_form fault }
{
    matches!(
        fault,
        GrammarFault::TooDeep | GrammarFault::HeaderShape | GrammarFault::SectionShape
    )
}
