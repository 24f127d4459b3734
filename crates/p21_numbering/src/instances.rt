//! The instances of a file, as they are numbered.

use p21_mapping_values::Typed;

/// An instance: its name, the texts of the heading of its section (none, or its name and its schema), and its record.
#[derive(Drop)]
pub struct Instance<'a> {
    pub name: u64,
    pub heading: &'a [&'a [char]],
    pub typed: Typed<'a>,
}
