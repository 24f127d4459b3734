/// What a session holds of a file: the token bytes of the open statement, the lists and typed parameters that are open
/// in it, the bytes of the canonical lines that are kept, and the references.
#[derive(Clone, Copy, Debug, PartialEq, Eq)]
pub struct Held {
    pub pending: u64,
    pub depth: u64,
    pub kept: u64,
    pub needs: u64,
}
