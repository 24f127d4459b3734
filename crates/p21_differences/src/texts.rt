//! Texts compared.
ghost use Rattle.std.specs.Prelude.{◌≡◌, MatchBool};

/// Whether two texts differ.
pub(crate) fn differ(one: &[u8], other: &[u8]) -> bool
    ensures { MatchBool result (one.now ≡ other.now → ⊥) (one.now ≡ other.now) }
{
    if one == other {
        return false;
    }
    true
}
