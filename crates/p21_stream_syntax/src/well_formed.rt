use p21_grammar_tree::Part;
use p21_syntax_words::KeywordCounts;

/// What a well-formed file says of itself.
#[derive(Debug, Drop)]
pub struct WellFormed {
    /// How many instances it has.
    pub instances: u64,
    /// The name of its schema, in upper case.
    pub schema: Vec<u8>,
    /// The records of its header, in their order.
    pub header: Vec<Part>,
    /// How many records of its instances have which keyword.
    pub keywords: KeywordCounts,
}
