//! Statements are judged twice. Token by token the machine knows only what is open; at each `;` one small type,
//! `Stage`, says whether a file has this statement there. So the order of a file and the shape of its header are tested
//! in one place, and the proof divides there too.
ghost use Rattle.std.specs.Prelude.{◌≡◌, ℕ};
ghost use Rattle.p21_spec_exchange.specs.Record.{Record};
ghost use Rattle.p21_spec_exchange.specs.Statement.{section, header, instance, section_end};
ghost use Rattle.p21_grammar.specs.Begins.{begins, begins_header_record};
ghost use Rattle.p21_grammar.specs.Stage.{after, after_heading, is_in_header, is_in_data};
ghost use Rattle.p21_grammar.specs.Statements.{line_of};
ghost use Rattle.p21_grammar_tree.specs.View.{part_view};

use crate::event::Line;
use crate::fault::GrammarFault;
use crate::kind::{Kind, is_keyword};
use crate::shape::{is_file_description, is_file_name, is_file_schema, is_further};
use p21_grammar_tree::Part;
use p21_tokens::Absent;

/// How far the statements of a file have come.
#[derive(Clone, Copy, PartialEq, Eq)]
pub enum Stage {
    Start,
    /// Behind `ISO-10303-21;`
    Begun,
    /// Behind `HEADER;`
    Description,
    /// Behind FILE_DESCRIPTION
    FileName,
    /// Behind FILE_NAME
    FileSchema,
    /// Behind FILE_SCHEMA, and the records that follow
    Further,
    /// Behind the `ENDSEC;` of the header
    Headed,
    /// In a data section without a name
    Unnamed,
    /// In a data section with a name
    Named,
    /// Behind a data section without a name
    BehindUnnamed,
    /// Behind a data section with a name
    BehindNamed,
    /// Behind `END-ISO-10303-21;`
    Ended,
}

impl Stage {
    pub fn is_in_header(self) -> bool
        ensures { result ≡ is_in_header self }
    {
        matches!(
            self,
            Stage::Description | Stage::FileName | Stage::FileSchema | Stage::Further
        )
    }

    pub fn is_in_data(self) -> bool
        ensures { result ≡ is_in_data self }
    {
        matches!(self, Stage::Unnamed | Stage::Named)
    }

    /// Whether a statement may begin with a token of this kind.
    pub fn could_begin_with(self, kind: Kind) -> bool
        ensures { result ≡ begins self kind }
    {
        match self {
            Stage::Start => matches!(kind, Kind::Begin),
            Stage::Begun => matches!(kind, Kind::HeaderStart),
            Stage::Description => could_begin_record(kind),
            Stage::FileName => could_begin_record(kind),
            Stage::FileSchema => could_begin_record(kind),
            Stage::Further => could_begin_record(kind),
            Stage::Headed => matches!(kind, Kind::DataStart),
            Stage::Unnamed => matches!(kind, Kind::Name | Kind::SectionEnd),
            Stage::Named => matches!(kind, Kind::Name | Kind::SectionEnd),
            Stage::BehindUnnamed => matches!(kind, Kind::Finish),
            Stage::BehindNamed => matches!(kind, Kind::DataStart | Kind::Finish),
            Stage::Ended => false,
        }
    }

    /// The stage behind a section line, or why no file has it there.
    pub fn after_line(self, line: Line) -> Result<Stage, GrammarFault>
        ensures { result ≡ after self (section (line_of line)) }
    {
        match line {
            Line::Begin => match self {
                Stage::Start => Ok(Stage::Begun),
                _ => Err(GrammarFault::Unexpected),
            },
            Line::HeaderStart => match self {
                Stage::Begun => Ok(Stage::Description),
                _ => Err(GrammarFault::Unexpected),
            },
            Line::SectionEnd => self.after_section(),
            Line::DataStart => match self {
                Stage::Headed => Ok(Stage::Unnamed),
                Stage::BehindNamed => Err(GrammarFault::LeftOut(Absent::SecondSection)),
                _ => Err(GrammarFault::Unexpected),
            },
            Line::Finish => match self {
                Stage::BehindUnnamed | Stage::BehindNamed => Ok(Stage::Ended),
                _ => Err(GrammarFault::Unexpected),
            },
        }
    }

    /// The stage behind an ENDSEC.
    fn after_section(self) -> Result<Stage, GrammarFault>
        ensures { result ≡ after self (section section_end) }
    {
        match self {
            Stage::Description | Stage::FileName | Stage::FileSchema => {
                Err(GrammarFault::HeaderShape)
            }
            Stage::Further => Ok(Stage::Headed),
            Stage::Unnamed => Ok(Stage::BehindUnnamed),
            Stage::Named => Ok(Stage::BehindNamed),
            _ => Err(GrammarFault::Unexpected),
        }
    }

    /// The stage behind a DATA with a name.
    pub fn after_heading(self) -> Result<Stage, GrammarFault>
        ensures { result ≡ after_heading self }
    {
        match self {
            Stage::Headed | Stage::BehindNamed => Ok(Stage::Named),
            _ => Err(GrammarFault::Unexpected),
        }
    }

    /// The stage behind a header record.
    pub fn after_part(self, part: &Part) -> Result<Stage, GrammarFault>
        ensures { result ≡ after self (header (part_view part.now)) }
    {
        let (fits, next) = match self {
            Stage::Description => (is_file_description(part), Stage::FileName),
            Stage::FileName => (is_file_name(part), Stage::FileSchema),
            Stage::FileSchema => (is_file_schema(part), Stage::Further),
            Stage::Further => (is_further(part), Stage::Further),
            _ => return Err(GrammarFault::Unexpected),
        };
        if fits {
            Ok(next)
        } else {
            Err(GrammarFault::HeaderShape)
        }
    }

    pub fn after_instance(self) -> Result<Stage, GrammarFault>
        ensures { (n : ℕ) (r : Record) → result ≡ after self (instance n r) }
    {
        match self {
            Stage::Unnamed | Stage::Named => Ok(self),
            _ => Err(GrammarFault::Unexpected),
        }
    }
}

/// Whether a record of the header may begin with a token of this kind, or its end.
fn could_begin_record(kind: Kind) -> bool
    ensures { result ≡ begins_header_record kind }
{
    match kind {
        Kind::UserKeyword => true,
        kind => is_keyword(kind),
    }
}
