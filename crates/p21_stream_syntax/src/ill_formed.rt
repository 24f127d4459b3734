use p21_stream_statements::{Place, Refusal};

/// Why a file isn't well formed, and where in it this stands.
#[derive(Clone, Copy, Debug, PartialEq, Eq)]
pub struct IllFormed {
    pub refusal: Refusal,
    /// Want of memory, a read and a reference have none.
    pub place: Option<Place>,
}
