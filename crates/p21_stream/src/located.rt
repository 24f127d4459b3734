use p21_express_graph::Place as AttributePlace;
use p21_stream_sieve::Indices;
use p21_stream_statements::{Expected, Place, Refusal};

/// Why a file is refused, and where in it this stands.
#[derive(Clone, Copy, Debug, PartialEq, Eq)]
pub struct Located {
    pub refusal: Refusal,
    /// Want of memory, a read, a write and a reference have none.
    pub place: Option<Place>,
    /// The attribute whose value is refused, by the entity that declares it: only a value of a record has one.
    pub attribute: Option<AttributePlace>,
    /// Which element of this value is refused, where one is.
    pub indices: Indices,
    /// What could stand in place of the token that is refused, where it is one with which no statement goes on.
    pub expected: Expected,
}
