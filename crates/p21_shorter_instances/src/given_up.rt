/// Why an instance isn't taken straight from its bytes.
#[derive(Debug, Clone, Copy)]
pub enum GivenUp {
    /// It isn't usual. Those take it who read it token by token.
    NotUsual,
    /// Memory was refused for it.
    NoMemory,
}
