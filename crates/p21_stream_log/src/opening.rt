ghost use Rattle.std.specs.Prelude.{◌≡◌, ◌↔◌, ◌++◌, IsTrue, List, ℕ};
ghost use Rattle.p21_stream_log.specs.Opening.{OpensAs};

use p21_shorter_tokens::behind_separators;

/// How bytes behind a statement begin, separators apart.
#[derive(Clone, Copy, Debug, PartialEq, Eq)]
pub enum Opening {
    /// With `ENDSEC`.
    SectionEnd,
    /// With something else, whatever stands behind the bytes.
    Statement,
    /// With no more than the first bytes of `ENDSEC`, or of a remark.
    Untold,
}

/// How bytes behind a statement begin. A statement that begins with `ENDSEC` is passed over by no list.
pub fn opening_of(bytes: &[u8]) -> Opening
    ensures { OpensAs bytes.now result }
{
    let rest = behind_separators(bytes);
    if begins_with(rest, b"ENDSEC") {
        return Opening::SectionEnd;
    }
    if begins_with(b"ENDSEC", rest) {
        return Opening::Untold;
    }
    if begins_with(b"/*", rest) {
        return Opening::Untold;
    }
    if begins_with(rest, b"/*") {
        return Opening::Untold;
    }
    Opening::Statement
}

/// Whether bytes begin with others.
pub(crate) fn begins_with(bytes: &[u8], front: &[u8]) -> bool
    ensures { IsTrue result ↔ ((rest : List ℕ) × (bytes.now ≡ front.now ++ rest)) }
{
    bytes.starts_with(front)
}
