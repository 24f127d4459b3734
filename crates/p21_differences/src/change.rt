//! What changed about a name.
use p21_values::Name;

/// What changed about the name of an instance, from the first file to the second, with the line that each has of it in its canonical
/// file.
#[derive(Clone, Copy)]
pub enum Change<'a> {
    /// Only the second file has an instance of the name.
    Came(Name, &'a [u8]),
    /// Only the first one has.
    Went(Name, &'a [u8]),
    /// Both have, with different sets of entities.
    Set(Name, &'a [u8], &'a [u8]),
    /// Both have, of one set of entities, with different values.
    Values(Name, &'a [u8], &'a [u8]),
}
