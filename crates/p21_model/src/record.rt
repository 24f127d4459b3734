//! What stands behind the name of an instance in its line.
ghost use Rattle.std.specs.Prelude.{◌≡◌};
ghost use Rattle.p21_model.specs.Line.{behind_equals};

/// What stands behind the first `=`.
pub(crate) fn record_of(line: &[u8]) -> &[u8]
    ensures { result.now ≡ behind_equals line.now }
{
    for at in 0..line.len() {
        if line[at] == b'=' {
            return &line[at + 1..];
        }
    }
    &[]
}
