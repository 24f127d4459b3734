//! What is kept of the statements of a file that is read by itself.
ghost use Rattle.std.specs.List.{AllByRecursion as Each};
ghost use Rattle.std.specs.Prelude.{◌≡◌, ◌↔◌, ℕ, Contains, IfErr, IfSome, IsNone, IsTrue, length};
ghost use Rattle.p21_spec_exchange.specs.DataSection.{heading_of};
ghost use Rattle.p21_spec_exchange.specs.Statement.{data_start, header, instance, section};
ghost use Rattle.p21_grammar.specs.Statements.{line_of, statement_of};
ghost use Rattle.p21_grammar_tree.specs.View.{items_of, part_view, part_views, record_view, views};
ghost use Rattle.p21_stream_statements.specs.Source.{IsOfBytes};
ghost use Rattle.p21_stream_syntax.specs.Given.{Refuses, Takes, kept_of, nothing_kept};
ghost use Rattle.p21_stream_syntax.specs.Waiting.{claims_in};

use crate::known_schema::KnownSchema;
use crate::references::{Reference, Waiting};
use crate::sections::Sections;
use crate::shape::heading;
use crate::well_formed::WellFormed;
use p21_grammar::{Event, Line};
use p21_grammar_tree::{Part, Record};
use p21_stream_statements::Fault;
use p21_stream_store::NamedMemberships;
use p21_syntax_words::KeywordCounts;
use p21_values::Name;
use std::alloc::Global;

/// The records of the header, the schema, the data sections, the names of the instances, the references that wait, and the
/// keywords.
#[derive(Drop)]
pub struct Given {
    alloc: Global,
    pub(crate) header: Vec<Part>,
    pub(crate) schema: KnownSchema,
    pub(crate) sections: Sections,
    pub(crate) names: NamedMemberships,
    pub(crate) waiting: Waiting,
    pub(crate) keywords: KeywordCounts,
}

impl Given {
    /// Nothing. It takes no memory.
    pub fn new(alloc: Global) -> Given
        ensures { kept_of result ≡ nothing_kept }
    {
        Given {
            alloc,
            header: Vec::new(alloc),
            schema: KnownSchema::new(alloc),
            sections: Sections::new(alloc),
            names: NamedMemberships::new(alloc),
            waiting: Waiting::new(alloc),
            keywords: KeywordCounts::new(alloc),
        }
    }

    /// Takes a statement.
    ///
    /// # Errors
    ///
    /// `SchemaName` where a `FILE_SCHEMA` begins with no name, or a section names another schema; `SectionTwice`,
    /// `DuplicateName`, `NoMemory`.
    pub fn take(&mut self, event: Event) -> Result<(), Fault>
        ensures gives { Takes (kept_of self.old) (statement_of event) result (kept_of self.new) }
        ensures refuses { Refuses (kept_of self.old) (statement_of event) result }
        ensures kind { IfErr result (λ fault. IsOfBytes fault) }
    {
        match event {
            Event::Section(line) => self.take_line(line),
            Event::Named(part) => self.take_heading(part),
            Event::Header(part) => self.take_header(part),
            Event::Instance(name, of) => self.take_instance(name, &of),
        }
    }

    /// Takes a section line without a name.
    ///
    /// # Errors
    ///
    /// `NoMemory`.
    pub fn take_line(&mut self, line: Line) -> Result<(), Fault>
        ensures gives { Takes (kept_of self.old) (section (line_of line)) result (kept_of self.new) }
        ensures refuses { Refuses (kept_of self.old) (section (line_of line)) result }
        ensures kind { IfErr result (λ fault. IsOfBytes fault) }
    {
        let Ok(()) = self.sections.begin(line) else {
            return Err(Fault::NoMemory);
        };
        Ok(())
    }

    /// Takes the line that begins a data section, by its record.
    ///
    /// # Errors
    ///
    /// `SchemaName`, `SectionTwice`, `NoMemory`.
    pub fn take_heading(&mut self, part: Part) -> Result<(), Fault>
        ensures gives { Takes (kept_of self.old) (section (data_start (heading_of (views (items_of part.params))))) result
            (kept_of self.new) }
        ensures refuses { Refuses (kept_of self.old) (section (data_start (heading_of (views (items_of part.params))))) result }
        ensures kind { IfErr result (λ fault. IsOfBytes fault) }
    {
        let Some((name, text)) = heading(&part) else {
            return self.take_line(Line::DataStart);
        };
        if !self.schema.is_named_by(text) {
            return Err(Fault::SchemaName);
        }
        if self.sections.has_name(name) {
            return Err(Fault::SectionTwice);
        }
        let Ok(()) = self.sections.add(self.alloc, part) else {
            return Err(Fault::NoMemory);
        };
        Ok(())
    }

    /// Takes a record of the header.
    ///
    /// # Errors
    ///
    /// `SchemaName`, `NoMemory`.
    pub fn take_header(&mut self, part: Part) -> Result<(), Fault>
        ensures gives { Takes (kept_of self.old) (header (part_view part)) result (kept_of self.new) }
        ensures refuses { Refuses (kept_of self.old) (header (part_view part)) result }
        ensures kind { IfErr result (λ fault. IsOfBytes fault) }
    {
        match self.schema.take(self.alloc, &part) {
            Ok(()) => {}
            Err(fault) => return Err(fault),
        }
        let Ok(()) = self.header.push(part) else {
            return Err(Fault::NoMemory);
        };
        Ok(())
    }

    /// Takes an instance: its name, the references to names that have not come, and its keywords.
    ///
    /// # Errors
    ///
    /// `DuplicateName`, `NoMemory`.
    pub fn take_instance(&mut self, name: Name, of: &Record) -> Result<(), Fault>
        ensures gives { Takes (kept_of self.old) (instance name (record_view of.now)) result (kept_of self.new) }
        ensures refuses { Refuses (kept_of self.old) (instance name (record_view of.now)) result }
        ensures kind { IfErr result (λ fault. IsOfBytes fault) }
    {
        if self.names.has_name(name.0) {
            return Err(Fault::DuplicateName);
        }
        let Ok(()) = self.names.push(name.0, 0) else {
            return Err(Fault::NoMemory);
        };
        let Ok(()) = self.waiting.add(name, of, &self.names) else {
            return Err(Fault::NoMemory);
        };
        self.waiting.look_again(&self.names);
        let Ok(()) = self.keywords.add(of) else {
            return Err(Fault::NoMemory);
        };
        Ok(())
    }

    /// Whether an instance of this name has come. It takes no memory.
    pub fn has_name(&self, name: Name) -> bool
        ensures { IsTrue result ↔ Contains (kept_of self.now).names name }
    {
        self.names.has_name(name.0)
    }

    /// The references that wait, in the order of the file: each one to a name that has not come is among them. It takes no memory.
    pub fn waiting(&self) -> &[Reference]
        ensures { claims_in result.now ≡ (kept_of self.now).waiting }
    {
        &self.waiting.references
    }

    /// The instance that has the first reference in the file to a name that none has. It takes no memory.
    pub(crate) fn first_missing(&self) -> Option<Name>
        ensures some { IfSome result (λ holder. (target : ℕ) × Contains (kept_of self.now).waiting (holder, target)
            × ¬ Contains (kept_of self.now).names target) }
        ensures none { IsNone result → Each (λ claim. Contains (kept_of self.now).names claim.1) (kept_of self.now).waiting }
    {
        self.waiting.first_missing(&self.names)
    }

    /// What the file says of itself.
    pub fn into_well_formed(self) -> WellFormed
        ensures instances { result.instances ≡ length (kept_of self).names }
        ensures schema { result.schema.items ≡ (kept_of self).schema }
        ensures header { part_views result.header.items ≡ (kept_of self).header }
        ensures keywords { result.keywords ≡ (kept_of self).counts }
    {
        let Given {
            alloc: _,
            header,
            schema: KnownSchema { name },
            sections: _,
            names,
            waiting: _,
            keywords,
        } = self;
        WellFormed {
            instances: names.len() as u64,
            schema: name,
            header,
            keywords,
        }
    }
}
