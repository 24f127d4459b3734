//! `restore_on_failure` is the only function that cuts an output back when memory runs out on the way, for values and
//! for tokens.
ghost use Rattle.std.specs.Prelude.{◌≡◌, ℕ, ◌↔◌, ◌++◌, List, OnOk, OnErr, take};

use crate::fault::NoMemory;

/// A value with one canonical spelling.
pub trait Canonical {
    /// Holds of each value of the type.
    ghost is_value: { Self → Type 0 };

    /// The two values mean the same.
    ghost same: { Self → Self → Type 0 };

    /// The bytes spell the value.
    ghost spells: { List ℕ → Self → Type 0 };

    /// The canonical spelling of the value.
    ghost spelling: { Self → List ℕ };

    /// Appends the canonical spelling. A refusal leaves `out` as it was.
    fn write_canonical(&self, out: &mut Vec<u8>) -> Result<(), NoMemory>
        ensures value { is_value self.now }
        ensures ok { OnOk result (out.new.items ≡ out.old.items ++ spelling self.now) }
        ensures err { OnErr result (out.new.items ≡ out.old.items) };

    /// Two values mean the same exactly if their canonical spellings are equal.
    ghost same_spelling: { (a b : Self) → is_value a → is_value b → same a b ↔ (spelling a ≡ spelling b) };

    /// The canonical spelling spells the value.
    ghost spells_value: { (a : Self) → is_value a → spells (spelling a) a };
}

/// Answers whether all was written, and leaves only the first bytes where memory ran out on the way. It takes no
/// memory.
pub fn restore_on_failure(
    out: &mut Vec<u8>,
    before: usize,
    written: Result<(), NoMemory>,
) -> Result<(), NoMemory>
    ensures answer { result ≡ written }
    ensures ok { OnOk result (out.new.items ≡ out.old.items) }
    ensures err { OnErr result (out.new.items ≡ take before out.old.items) }
{
    if written.is_err() {
        out.truncate(before);
    }
    written
}
