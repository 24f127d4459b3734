//! What rows are about.
use crate::left_out::LeftOut;
use p21_express_graph::Place;
use p21_schema::Schema;
use p21_stream_output::Accepted;
use p21_values::Name;
use std::alloc::Global;
use std::collections::BTreeMap;

/// How rows are written.
#[derive(Clone, Copy, Debug, PartialEq, Eq)]
pub enum RowForm {
    Text,
    Json,
}

/// What happened from the first file to the second.
#[derive(Clone, Copy, Debug, PartialEq, Eq)]
pub enum Happening {
    Changed,
    Came,
    Went,
}

/// What a row is about.
#[derive(Clone, Copy)]
pub enum Subject {
    /// A header record, or a parameter of one.
    Header(Happening),
    /// A data section.
    Section(Happening),
    /// The data section in which an instance stands.
    Moved(Name),
    /// An instance that only the second file has.
    Came(Name),
    /// An instance that only the first file has.
    Went(Name),
    /// The set of entities of an instance.
    Set(Name),
    /// The value of an instance at an attribute.
    Value(Name, Place),
}

/// How rows are written, of what schema, and under which names: those that the instances of the first file really have, where it stands
/// under others; and what is left out. The second file says which instances it has.
#[derive(Clone, Copy)]
pub(crate) struct Style<'a> {
    pub alloc: Global,
    pub form: RowForm,
    pub schema: &'a Schema,
    pub names: Option<&'a BTreeMap<u64, u64>>,
    pub left_out: LeftOut<'a>,
    pub second: &'a Accepted,
}
