use p21_stream_output::Accepted;
use p21_stream_sieve::Spots;
use p21_stream_statements::{At, Fault, Refusal};
use p21_stream_syntax::WellFormed;

/// A refusal that is listed, and how many bytes of the file stand in front of its statement.
#[derive(Clone, Copy, Debug, PartialEq, Eq)]
pub struct Listed {
    pub fault: Fault,
    pub at: At,
    pub begins: u64,
}

/// How far a file is read.
#[derive(Clone, Copy, Debug, PartialEq, Eq)]
pub enum Extent {
    /// To its end.
    Whole,
    /// So many bytes: those in front of the statement whose refusal ends the list.
    ReadTo(u64),
    /// As far as to the last refusal of the list, since no more were asked for.
    Most,
}

/// What a survey finds of a file.
#[derive(Drop)]
pub struct Found {
    /// The refusals of statements, in the order of the file.
    pub list: Vec<Listed>,
    /// The refusals of references, behind them.
    pub references: Vec<Refusal>,
    pub extent: Extent,
    /// The file, exactly where nothing is refused by the rules of a schema.
    pub accepted: Option<Accepted>,
    /// What it says of itself, exactly where nothing is refused of it by itself.
    pub well_formed: Option<WellFormed>,
    /// Where the refusals stand, as far as that was asked for and is known.
    pub spots: Spots,
}
