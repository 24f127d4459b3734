//! The data sections of a file, with their names.
//!
//! Two files are held against each other by the numbers of their sections. Names of sections are compared once for each
//! section, at the end, and the number of the section of the earlier file is kept for each of the later one; then an
//! instance costs a comparison of two numbers. It is for these numbers that `same` asks for memory at the end.
ghost use Rattle.std.specs.Prelude.{◌≡◌, ◌<◌, ◌≤◌, ◌+◌, ◌++◌, ◌∷◌, ◌↔◌, [], length, Contains, IfOk, IfSome, IsNone, IsTrue, List, OnOk, Some, slice_get, ℕ};
ghost use Rattle.std.specs.List.{AllByRecursion as Each};
ghost use Rattle.p21_spec_laws.specs.Keeping.{headings_behind};
ghost use Rattle.p21_spec_exchange.specs.DataSection.{Heading, heading_names, named, section_names, heading_of, unnamed};
ghost use Rattle.p21_grammar.specs.Statements.{line_of};
ghost use Rattle.p21_grammar_tree.specs.View.{items_of, views};
ghost use Rattle.p21_stream_kept.specs.Sections.{HaveNumbers, heading_in, headings_of, names_in};

use crate::shape::heading;
use p21_grammar::Line;
use p21_grammar_tree::Part;
use p21_values::{NoMemory, Text};
use std::alloc::Global;
use std::collections::BTreeMap;
use std::marker::Model;

/// A data section: the record that begins it, where it has a name.
#[derive(Drop)]
pub(crate) struct Section {
    pub(crate) part: Option<Part>,
}

/// The data sections in the order of the source, with the number of each by its name.
#[derive(Drop)]
pub(crate) struct Sections {
    all: Vec<Section>,
    // The number of the section of each name.
    numbers: BTreeMap<Vec<char>, usize>,
}

impl Model for Sections {
    ghost use Rattle.std.specs.Prelude.{List};
    ghost use Rattle.p21_spec_exchange.specs.DataSection.{Heading};
    ghost use Rattle.p21_stream_kept.specs.Sections.{AreNamedBy, headings_of};

    ghost Value = { List Heading };

    ghost view = { λ a. headings_of a.all.items };

    ghost invariant = { λ a. AreNamedBy a.numbers (headings_of a.all.items) };
}

impl Sections {
    /// A list without sections. It takes no memory.
    pub fn new(alloc: Global) -> Sections
        ensures { result ≡ [] }
    {
        Sections {
            all: Vec::new(alloc),
            numbers: BTreeMap::new(alloc),
        }
    }

    /// The sections in their order.
    pub fn items(&self) -> &[Section]
        ensures { headings_of result.now ≡ self.now }
    {
        &self.all
    }

    /// Whether a section has this name.
    pub fn has_name(&self, name: &Text) -> bool
        ensures { IsTrue result ↔ Contains (section_names self.now) name.now }
    {
        self.find(name).is_some()
    }

    /// The number of the section of this name.
    fn find(&self, name: &Text) -> Option<usize>
        ensures found { IfSome result (λ number. (schema : List ℕ) × (slice_get self.now number ≡ Some (named name.now schema))) }
        ensures kept { (schema : List ℕ) (number : ℕ) → slice_get self.now number ≡ Some (named name.now schema) → result ≡ Some number }
    {
        self.numbers.get(name.chars()).copied()
    }

    /// The number of a section that begins as this one, if there is one.
    fn number_of(&self, section: &Section) -> Option<usize>
        ensures some { IfSome result (λ number. slice_get self.now number ≡ Some (heading_in section.now.part)) }
        ensures none { IsNone result → Contains self.now (heading_in section.now.part) → ⊥ }
    {
        match heading_parts(section) {
            Some((name, schema)) => self.named_number(name, schema),
            None => unnamed_number(&self.all),
        }
    }

    /// The number of the section with this name and this schema text, if there is one.
    fn named_number(&self, name: &Text, schema: &Text) -> Option<usize>
        ensures some { IfSome result (λ number. slice_get self.now number ≡ Some (named name.now schema.now)) }
        ensures none { IsNone result → Contains self.now (named name.now schema.now) → ⊥ }
    {
        let Some(number) = self.find(name) else {
            return None;
        };
        if begins_with(&self.all[number], name, schema) {
            Some(number)
        } else {
            None
        }
    }

    /// For each of other sections the number of one that begins as it; nothing where one begins as none.
    ///
    /// # Errors
    ///
    /// `NoMemory`.
    pub fn numbers_of(
        &self,
        alloc: Global,
        others: &Sections,
    ) -> Result<Option<Vec<usize>>, NoMemory>
        ensures some { IfOk result (λ found. IfSome found (λ numbers. HaveNumbers self.now others.now numbers.items)) }
        ensures none { IfOk result (λ found. IsNone found → Each (Contains self.now) others.now → ⊥) }
    {
        let mut numbers = Vec::with_capacity(alloc, others.items().len())?;
        for section in others.items() {
            let Some(number) = self.number_of(section) else {
                return Ok(None);
            };
            numbers.push(number)?;
        }
        Ok(Some(numbers))
    }

    /// Whether the sections of two numbers begin alike. No two sections have one name, so no names are compared.
    pub fn begin_alike(&self, number: usize, other: usize) -> bool
        ensures { (own its : Heading) → slice_get self.now number ≡ Some own → slice_get self.now other ≡ Some its → IsTrue result
            ↔ (own ≡ its) }
    {
        // Looked at, so that the proof knows that each name leads to one section.
        let _numbers = &self.numbers;
        number == other || (self.is_unnamed_at(number) && self.is_unnamed_at(other))
    }

    /// Whether the section of this number has no name.
    fn is_unnamed_at(&self, number: usize) -> bool
        ensures { (own : Heading) → slice_get self.now number ≡ Some own → IsTrue result ↔ (own ≡ unnamed) }
    {
        match self.all.get(number) {
            Some(section) => is_unnamed(section),
            None => false,
        }
    }

    /// The number of the last section, counted from the first.
    pub fn last(&self) -> usize
        requires { 0 < length self.now }
        ensures { result + 1 ≡ length self.now }
    {
        self.all.len() - 1
    }

    /// Adds a section without a name where the line begins one.
    pub fn begin(&mut self, line: Line) -> Result<(), NoMemory>
        ensures ok { OnOk result (self.new ≡ headings_behind self.old (line_of line)) }
        ensures more { length self.old ≤ length self.new }
    {
        match line {
            Line::DataStart => {
                let Ok(()) = self.all.push(Section { part: None }) else {
                    return Err(NoMemory);
                };
                Ok(())
            }
            _ => Ok(()),
        }
    }

    /// Adds the section that the record begins, under a name that none has yet.
    pub fn add(&mut self, alloc: Global, part: Part) -> Result<(), NoMemory>
        requires { (name : List ℕ) → Contains (heading_names (heading_of (views (items_of part.params)))) name
            → Contains (section_names self.old) name → ⊥ }
        ensures ok { OnOk result (self.new ≡ self.old ++ heading_of (views (items_of part.params)) ∷ []) }
        ensures more { length self.old ≤ length self.new }
    {
        let name = name_of(alloc, &part)?;
        let number = self.all.len();
        let Ok(()) = self.all.push(Section { part: Some(part) }) else {
            return Err(NoMemory);
        };
        let Some(name) = name else {
            return Ok(());
        };
        let Ok(_) = self.numbers.insert(name, number) else {
            self.all.pop();
            return Err(NoMemory);
        };
        Ok(())
    }
}

/// The name and the schema text with which a section begins, where it has them.
fn heading_parts(section: &Section) -> Option<(&Text, &Text)>
    ensures some { IfSome result (λ found. heading_in section.now.part ≡ named found.0.now found.1.now) }
    ensures none { IsNone result → heading_in section.now.part ≡ unnamed }
{
    match &section.part {
        Some(part) => heading(part),
        None => None,
    }
}

/// Whether a section begins with this name and this schema text.
fn begins_with(section: &Section, name: &Text, schema: &Text) -> bool
    ensures { IsTrue result ↔ (heading_in section.now.part ≡ named name.now schema.now) }
{
    match heading_parts(section) {
        Some((own, text)) => own.chars() == name.chars() && text.chars() == schema.chars(),
        None => false,
    }
}

/// Whether a section has no name.
fn is_unnamed(section: &Section) -> bool
    ensures { IsTrue result ↔ (heading_in section.now.part ≡ unnamed) }
{
    heading_parts(section).is_none()
}

/// The number of the first section that has no name, if there is one.
fn unnamed_number(sections: &[Section]) -> Option<usize>
    ensures some { IfSome result (λ number. slice_get (headings_of sections.now) number ≡ Some unnamed) }
    ensures none { IsNone result → Contains (headings_of sections.now) unnamed → ⊥ }
{
    for number in 0..sections.len() {
        if is_unnamed(&sections[number]) {
            return Some(number);
        }
    }
    None
}

/// The characters of the name with which the record begins a section, if it has one.
fn name_of(alloc: Global, part: &Part) -> Result<Option<Vec<char>>, NoMemory>
    ensures { IfOk result (λ name. heading_names (heading_of (views (items_of part.now.params))) ≡ names_in name) }
{
    match heading(part) {
        Some((name, _)) => Ok(Some(Vec::from_slice(alloc, name.chars())?)),
        None => Ok(None),
    }
}
