//! The data sections of a file, with their names.
ghost use Rattle.std.specs.Prelude.{◌≡◌, ◌++◌, ◌∷◌, ◌↔◌, [], Contains, IfOk, IfSome, IsTrue, List, OnOk, Some, slice_get, ℕ};
ghost use Rattle.p21_spec_laws.specs.Keeping.{headings_behind};
ghost use Rattle.p21_spec_exchange.specs.DataSection.{heading_names, named, section_names, heading_of};
ghost use Rattle.p21_grammar.specs.Statements.{line_of};
ghost use Rattle.p21_grammar_tree.specs.View.{items_of, views};
ghost use Rattle.p21_stream_syntax.specs.Sections.{names_in};

use crate::shape::heading;
use p21_grammar::Line;
use p21_grammar_tree::Part;
use p21_values::{NoMemory, Text};
use std::alloc::Global;
use std::collections::BTreeMap;
use std::marker::Model;

/// A data section: the record that begins it, where it has a name.
#[derive(Drop)]
pub(crate) struct Section {
    pub(crate) part: Option<Part>,
}

/// The data sections in the order of the source, with the number of each by its name.
#[derive(Drop)]
pub(crate) struct Sections {
    all: Vec<Section>,
    // The number of the section of each name.
    numbers: BTreeMap<Vec<char>, usize>,
}

impl Model for Sections {
    ghost use Rattle.std.specs.Prelude.{List};
    ghost use Rattle.p21_spec_exchange.specs.DataSection.{Heading};
    ghost use Rattle.p21_stream_syntax.specs.Sections.{AreNamedBy, headings_of};

    ghost Value = { List Heading };

    ghost view = { λ a. headings_of a.all.items };

    ghost invariant = { λ a. AreNamedBy a.numbers (headings_of a.all.items) };
}

impl Sections {
    /// A list without sections. It takes no memory.
    pub fn new(alloc: Global) -> Sections
        ensures { result ≡ [] }
    {
        Sections {
            all: Vec::new(alloc),
            numbers: BTreeMap::new(alloc),
        }
    }

    /// Whether a section has this name.
    pub fn has_name(&self, name: &Text) -> bool
        ensures { IsTrue result ↔ Contains (section_names self.now) name.now }
    {
        self.find(name).is_some()
    }

    /// The number of the section of this name.
    fn find(&self, name: &Text) -> Option<usize>
        ensures found { IfSome result (λ number. (schema : List ℕ) × (slice_get self.now number ≡ Some (named name.now schema))) }
        ensures kept { (schema : List ℕ) (number : ℕ) → slice_get self.now number ≡ Some (named name.now schema) → result ≡ Some number }
    {
        self.numbers.get(name.chars()).copied()
    }

    /// Adds a section without a name where the line begins one.
    pub fn begin(&mut self, line: Line) -> Result<(), NoMemory>
        ensures ok { OnOk result (self.new ≡ headings_behind self.old (line_of line)) }
    {
        match line {
            Line::DataStart => {
                let Ok(()) = self.all.push(Section { part: None }) else {
                    return Err(NoMemory);
                };
                Ok(())
            }
            _ => Ok(()),
        }
    }

    /// Adds the section that the record begins, under a name that none has yet.
    pub fn add(&mut self, alloc: Global, part: Part) -> Result<(), NoMemory>
        requires { (name : List ℕ) → Contains (heading_names (heading_of (views (items_of part.params)))) name
            → Contains (section_names self.old) name → ⊥ }
        ensures ok { OnOk result (self.new ≡ self.old ++ heading_of (views (items_of part.params)) ∷ []) }
    {
        let name = name_of(alloc, &part)?;
        let number = self.all.len();
        let Ok(()) = self.all.push(Section { part: Some(part) }) else {
            return Err(NoMemory);
        };
        let Some(name) = name else {
            return Ok(());
        };
        let Ok(_) = self.numbers.insert(name, number) else {
            self.all.pop();
            return Err(NoMemory);
        };
        Ok(())
    }
}

/// The characters of the name with which the record begins a section, if it has one.
fn name_of(alloc: Global, part: &Part) -> Result<Option<Vec<char>>, NoMemory>
    ensures { IfOk result (λ name. heading_names (heading_of (views (items_of part.now.params))) ≡ names_in name) }
{
    match heading(part) {
        Some((name, _)) => Ok(Some(Vec::from_slice(alloc, name.chars())?)),
        None => Ok(None),
    }
}
