//! What a survey is doing.
use crate::listed::Extent;
use crate::seeking::Sought;
use p21_stream_statements::Fault;

/// What a survey does with the bytes that come next.
#[derive(Drop)]
pub(crate) enum Stage {
    /// It reads statements.
    Reading,
    /// It looks for where the reading goes on behind a broken statement.
    Seeking(Sought),
    /// It looks for where the statement begins whose refusal ends the list.
    Waiting(Unlisted),
    /// Nothing: the list has ended.
    Ended(Extent),
}

/// A refusal that ends the list, and isn't listed yet: the bytes behind the last statement so far don't tell where the next one begins.
#[derive(Drop)]
pub(crate) struct Unlisted {
    pub fault: Fault,
    pub bytes: Vec<u8>,
}
