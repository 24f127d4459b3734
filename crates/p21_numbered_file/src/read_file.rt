//! What is read of a file, statement by statement.
ghost use Rattle.std.specs.Prelude.{◌≡◌, ◌++◌, ◌∷◌, [], OnOk};
ghost use Rattle.p21_spec_exchange.specs.CanonicalText.{line as line_text};
ghost use Rattle.p21_spec_exchange.specs.Statement.{header, instance};
ghost use Rattle.p21_spec_exchange.specs.DataSection.{heading_of};
ghost use Rattle.p21_spec_laws.specs.Keeping.{headings_behind};
ghost use Rattle.p21_grammar.specs.Statements.{line_of, statement_of};
ghost use Rattle.p21_grammar_tree.specs.View.{items_of, part_view, record_view, views};
ghost use Rattle.p21_numbered_file.specs.Headings.{headings_in};
ghost use Rattle.p21_numbered_file.specs.Reading.{IsReadTo, StandsNext};

use p21_canon::write_header;
use p21_grammar::{Event, Line};
use p21_grammar_tree::{Part, Record};
use p21_mapping::{Trail, check_owned_record};
use p21_mapping_values::Typed;
use p21_schema::Schema;
use p21_values::{Name, NoMemory};
use std::alloc::Global;

/// An instance: its name, the number of its section, counted from 0, and its record.
#[derive(Drop)]
pub(crate) struct ReadInstance<'a> {
    pub name: u64,
    pub section: usize,
    pub typed: Typed<'a>,
}

/// What was read of a file: the canonical lines of its header records, each with its line feed; how each data section begins, by its
/// record where it has a name; and the instances, in their order.
#[derive(Drop)]
pub(crate) struct ReadFile<'a> {
    pub header: Vec<u8>,
    pub sections: Vec<Option<Part>>,
    pub instances: Vec<ReadInstance<'a>>,
}

impl<'a> ReadFile<'a> {
    /// Nothing read. It takes no memory.
    pub(crate) fn new(alloc: Global) -> ReadFile<'a>
        ensures header { result.header.items ≡ [] }
        ensures sections { result.sections.items ≡ [] }
        ensures instances { result.instances.items ≡ [] }
    {
        ReadFile {
            header: Vec::new(alloc),
            sections: Vec::new(alloc),
            instances: Vec::new(alloc),
        }
    }

    /// Takes the statement that stands next in a file that reads.
    pub(crate) fn take(
        &mut self,
        alloc: Global,
        schema: &'a Schema,
        event: Event,
    ) -> Result<(), NoMemory>
        requires { StandsNext schema.now self.old (statement_of event) }
        ensures { OnOk result ((next : StandsNext schema.now self.old (statement_of event))
            → IsReadTo schema.now next.meaning (next.given ++ statement_of event ∷ []) self.new) }
    {
        match event {
            Event::Section(line) => self.take_line(line),
            Event::Named(part) => self.take_heading(part),
            Event::Header(part) => self.take_header(&part),
            Event::Instance(name, of) => self.take_instance(alloc, schema, name, of),
        }
    }

    /// Takes a section line without a name.
    fn take_line(&mut self, line: Line) -> Result<(), NoMemory>
        ensures header { self.new.header ≡ self.old.header }
        ensures instances { self.new.instances ≡ self.old.instances }
        ensures sections { OnOk result (headings_in self.new.sections.items ≡ headings_behind (headings_in self.old.sections.items)
            (line_of line)) }
    {
        match line {
            Line::DataStart => {
                self.sections.push(None)?;
                Ok(())
            }
            Line::Begin => Ok(()),
            Line::HeaderStart => Ok(()),
            Line::SectionEnd => Ok(()),
            Line::Finish => Ok(()),
        }
    }

    /// Takes the line that begins a data section with a name, by its record.
    fn take_heading(&mut self, part: Part) -> Result<(), NoMemory>
        ensures header { self.new.header ≡ self.old.header }
        ensures instances { self.new.instances ≡ self.old.instances }
        ensures sections { OnOk result (headings_in self.new.sections.items ≡ headings_in self.old.sections.items
            ++ heading_of (views (items_of part.params)) ∷ []) }
    {
        self.sections.push(Some(part))?;
        Ok(())
    }

    /// Takes a record of the header section.
    fn take_header(&mut self, part: &Part) -> Result<(), NoMemory>
        ensures header { OnOk result (self.new.header.items ≡ self.old.header.items ++ line_text (header (part_view part.now))) }
        ensures instances { self.new.instances ≡ self.old.instances }
        ensures sections { self.new.sections ≡ self.old.sections }
    {
        write_header(part, &mut self.header)?;
        self.header.push(b'\n')?;
        Ok(())
    }

    /// Takes an instance. Its record is checked; it means something, since the file does, so that only memory can be wanting.
    fn take_instance(
        &mut self,
        alloc: Global,
        schema: &'a Schema,
        name: Name,
        of: Record,
    ) -> Result<(), NoMemory>
        requires { StandsNext schema.now self.old (instance name (record_view of)) }
        ensures { OnOk result ((next : StandsNext schema.now self.old (instance name (record_view of)))
            → IsReadTo schema.now next.meaning (next.given ++ instance name (record_view of) ∷ []) self.new) }
    {
        let Ok((typed, _needs)) = check_owned_record(alloc, schema, of, &mut Trail::new()) else {
            return Err(NoMemory);
        };
        let section = self.sections.len() - 1;
        self.instances.push(ReadInstance {
            name: name.0,
            section,
            typed,
        })?;
        Ok(())
    }
}
