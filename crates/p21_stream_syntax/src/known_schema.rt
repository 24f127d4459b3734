//! The schema that a file names.
ghost use Rattle.std.specs.Prelude.{◌≡◌, ◌≢◌, ◌↔◌, [], IfErr, IsTrue};
ghost use Rattle.p21_spec_schema.specs.SchemaName.{NamesSchema};
ghost use Rattle.p21_spec_syntax.specs.WellFormedFile.{BeginsWithName};
ghost use Rattle.p21_stream_statements.specs.Source.{IsOfBytes};
ghost use Rattle.p21_stream_syntax.specs.Given.{IsOfSchemaText, TakesPart, TakesSchema};
ghost use Rattle.p21_grammar_tree.specs.View.{part_view};

use crate::schema_name::{names_schema, schema_name};
use crate::shape::schema_text;
use p21_grammar_tree::Part;
use p21_stream_statements::Fault;
use p21_values::Text;
use std::alloc::Global;

/// The name of the schema of a file.
#[derive(Drop)]
pub(crate) struct KnownSchema {
    // In upper case; empty in front of the `FILE_SCHEMA`.
    pub(crate) name: Vec<u8>,
}

impl KnownSchema {
    /// None is known yet. It takes no memory.
    pub(crate) fn new(alloc: Global) -> KnownSchema
        ensures { result.name.items ≡ [] }
    {
        KnownSchema {
            name: Vec::new(alloc),
        }
    }

    /// Whether the schema is known, and a text names it.
    pub(crate) fn is_named_by(&self, text: &Text) -> bool
        ensures { IsTrue result ↔ ((self.now.name.items ≢ []) × NamesSchema text.now self.now.name.items) }
    {
        if self.name.is_empty() {
            return false;
        }
        names_schema(text.chars(), &self.name)
    }

    /// Takes a record of the header. Where it is a `FILE_SCHEMA`, its text names the schema; a further one has to name the same.
    ///
    /// # Errors
    ///
    /// `SchemaName` where the text begins with no name, or names another schema; `NoMemory`.
    pub(crate) fn take(&mut self, alloc: Global, part: &Part) -> Result<(), Fault>
        ensures gives { TakesPart self.old.name.items (part_view part.now) result self.new.name.items }
        ensures kind { IfErr result (λ fault. IsOfBytes fault) }
        ensures of_text { IfErr result (λ fault. IsOfSchemaText fault) }
    {
        match schema_text(part) {
            Some(text) => self.take_text(alloc, text),
            None => Ok(()),
        }
    }

    /// Takes the text of a `FILE_SCHEMA`.
    fn take_text(&mut self, alloc: Global, text: &Text) -> Result<(), Fault>
        ensures gives { TakesSchema self.old.name.items text.now result self.new.name.items }
        ensures kind { IfErr result (λ fault. IsOfBytes fault) }
        ensures of_text { IfErr result (λ fault. IsOfSchemaText fault) }
    {
        if !begins_with_name(text.chars()) {
            return Err(Fault::SchemaName);
        }
        if !self.name.is_empty() {
            return self.take_again(text);
        }
        let Ok(name) = schema_name(alloc, text.chars()) else {
            return Err(Fault::NoMemory);
        };
        self.name = name;
        Ok(())
    }

    /// Takes the text of a further `FILE_SCHEMA`, which begins with a name.
    fn take_again(&self, text: &Text) -> Result<(), Fault>
        requires begins { BeginsWithName text.now }
        requires known { self.now.name.items ≢ [] }
        ensures gives { TakesSchema self.now.name.items text.now result self.now.name.items }
        ensures kind { IfErr result (λ fault. IsOfBytes fault) }
        ensures of_text { IfErr result (λ fault. IsOfSchemaText fault) }
    {
        if self.is_named_by(text) {
            Ok(())
        } else {
            Err(Fault::SchemaName)
        }
    }
}

/// Whether a letter stands first, as in each name of EXPRESS.
fn begins_with_name(text: &[char]) -> bool
    ensures { IsTrue result ↔ BeginsWithName text.now }
{
    let Some(first) = text.first() else {
        return false;
    };
    let code = *first as u32;
    (65 <= code && code <= 90) || (97 <= code && code <= 122)
}
