//! The instances that a value names, at any depth.
ghost use Rattle.std.specs.Prelude.{◌≡◌, ◌<◌, ◌^◌, [], ◌∷◌, ℕ, List, length, false, IfSome, MatchOption};
ghost use Rattle.std.specs.List.{AllByRecursion as Each};
ghost use Rattle.p21_model_values.specs.Named.{HandsOutName, leading_number, names_in};

use p21_scan::{name_number, split_digits};
use p21_values::Name;

/// The names of instances in a value, of which some have been handed out.
#[derive(Clone, Copy)]
pub struct References<'a> {
    /// The text behind the last one.
    pub rest: &'a [u8],
}

impl<'a> References<'a> {
    /// The next name. It takes no memory.
    pub fn next(&mut self) -> Option<Name>
        ensures handed { (names : List ℕ) → names_in self.old.rest.now false ≡ names → Each (λ n. n < 2 ^ 64) names → HandsOutName names
            result (names_in self.new.rest.now false) }
        ensures shorter { IfSome result (λ name. length self.new.rest.now < length self.old.rest.now) }
    {
        let Some(behind) = behind_mark(self.rest) else {
            return None;
        };
        let (digits, _) = split_digits(behind);
        let Some(number) = name_number(digits) else {
            return None;
        };
        self.rest = behind;
        Some(Name(number))
    }
}

/// What stands behind the first `#` outside of strings.
fn behind_mark(bytes: &[u8]) -> Option<&[u8]>
    ensures shorter { IfSome result (λ behind. length behind.now < length bytes.now) }
    ensures names { MatchOption result (names_in bytes.now false ≡ [])
        (λ behind. names_in bytes.now false ≡ leading_number behind.now ∷ names_in behind.now false) }
{
    let mut quoted = false;
    for at in 0..bytes.len() {
        let byte = bytes[at];
        if byte == b'\'' {
            quoted = !quoted;
        } else if byte == b'#' && !quoted {
            return Some(&bytes[at + 1..]);
        }
    }
    None
}
