//! The characters of a text one by one.
ghost use Rattle.std.specs.Prelude.{◌≡◌, ◌<◌, ◌≤◌, ◌^◌, ◌++◌, ◌∷◌, [], ℕ, List, length, Some, IfSome, IsNone, MatchOption};
ghost use Rattle.std.specs.Char.{IsScalar};
ghost use Rattle.p21_spec_basics.specs.Digits.{hex_digits};
ghost use Rattle.p21_spec_exchange.specs.Spelling.{character_spelling};
ghost use Rattle.p21_spec_exchange.specs.Text.{end_extended};
ghost use Rattle.p21_model_values.specs.Spelled.{AreLeftCharacters, HandsOutCharacter};

use p21_scan::{behind, hex_value, is_hex_digit};

/// The characters of a text, of which some have been handed out.
#[derive(Clone, Copy)]
pub struct Characters<'a> {
    /// The spelling from the next character on, up to the apostrophe at its end.
    pub rest: &'a [u8],
}

impl<'a> Characters<'a> {
    /// The next character. It takes no memory.
    pub fn next(&mut self) -> Option<char>
        ensures handed { (characters : List ℕ) → AreLeftCharacters characters self.old.rest.now
            → HandsOutCharacter characters result self.new.rest.now }
        ensures shorter { IfSome result (λ character. length self.new.rest.now < length self.old.rest.now) }
    {
        let Some((character, rest)) = leading_character(self.rest) else {
            return None;
        };
        self.rest = rest;
        Some(character)
    }
}

/// The character at the front, and what stands behind it; nothing at the apostrophe at the end.
fn leading_character(bytes: &[u8]) -> Option<(char, &[u8])>
    ensures shorter { IfSome result (λ found. length found.1.now < length bytes.now) }
    ensures some { (character : ℕ) (rest : List ℕ) → IsScalar character → bytes.now ≡ character_spelling character ++ rest → MatchOption
        result ⊥ (λ found. (found.0 ≡ character) × (found.1.now ≡ rest)) }
    ensures none { bytes.now ≡ 39 ∷ [] → IsNone result }
{
    let Some((first, rest)) = bytes.split_first() else {
        return None;
    };
    match *first {
        b'\'' => quoted_apostrophe(rest),
        b'\\' => directed_character(rest),
        byte => Some((char::from(byte), rest)),
    }
}

/// The apostrophe before these bytes, if it stands twice.
fn quoted_apostrophe(bytes: &[u8]) -> Option<(char, &[u8])>
    ensures shorter { IfSome result (λ found. length found.1.now < length bytes.now) }
    ensures some { (rest : List ℕ) → bytes.now ≡ 39 ∷ rest → MatchOption result ⊥ (λ found. (found.0 ≡ 39) × (found.1.now ≡ rest)) }
    ensures none { bytes.now ≡ [] → IsNone result }
{
    let Some(rest) = behind(b'\'', bytes) else {
        return None;
    };
    Some(('\'', rest))
}

/// The character of the backslash before these bytes: itself, if it stands twice, or that of a directive.
fn directed_character(bytes: &[u8]) -> Option<(char, &[u8])>
    ensures shorter { IfSome result (λ found. length found.1.now < length bytes.now) }
    ensures twice { (rest : List ℕ) → bytes.now ≡ 92 ∷ rest → MatchOption result ⊥ (λ found. (found.0 ≡ 92) × (found.1.now ≡ rest)) }
    ensures short { (character : ℕ) (rest : List ℕ) → IsScalar character → character < 16 ^ 4 → bytes.now ≡ 88 ∷ 50 ∷ 92 ∷
        (hex_digits 4 character ++ (end_extended ++ rest)) → MatchOption result ⊥ (λ found. (found.0 ≡ character) × (found.1.now ≡ rest)) }
    ensures long { (character : ℕ) (rest : List ℕ) → IsScalar character → character < 16 ^ 8 → bytes.now ≡ 88 ∷ 52 ∷ 92 ∷
        (hex_digits 8 character ++ (end_extended ++ rest)) → MatchOption result ⊥ (λ found. (found.0 ≡ character) × (found.1.now ≡ rest)) }
{
    if let Some(rest) = behind(b'\\', bytes) {
        return Some(('\\', rest));
    }
    let Some((mark, group)) = bytes.split_at_checked(3) else {
        return None;
    };
    if mark[1] == b'4' {
        grouped_character(8, group)
    } else {
        grouped_character(4, group)
    }
}

/// The character of so many hex digits at the front, behind which an extended directive ends.
fn grouped_character(width: usize, bytes: &[u8]) -> Option<(char, &[u8])>
    requires { width ≤ 8 }
    ensures within { IfSome result (λ found. length found.1.now ≤ length bytes.now) }
    ensures some { (character : ℕ) (rest : List ℕ) → IsScalar character → character < 16 ^ width → bytes.now ≡ hex_digits width character
        ++ (end_extended ++ rest) → MatchOption result ⊥ (λ found. (found.0 ≡ character) × (found.1.now ≡ rest)) }
{
    let Some((digits, behind)) = bytes.split_at_checked(width) else {
        return None;
    };
    let Some((_, rest)) = behind.split_at_checked(4) else {
        return None;
    };
    let Some(character) = hex_character(digits) else {
        return None;
    };
    Some((character, rest))
}

/// The character that hex digits stand for, if they stand for one.
fn hex_character(digits: &[u8]) -> Option<char>
    requires { length digits.now ≤ 8 }
    ensures { (character : ℕ) → IsScalar character → character < 16 ^ length digits.now
        → digits.now ≡ hex_digits (length digits.now) character → result ≡ Some character }
{
    let Some(code) = hex_number(digits) else {
        return None;
    };
    char::from_u32(code)
}

/// The number that hex digits stand for, if they are such.
fn hex_number(digits: &[u8]) -> Option<u32>
    requires { length digits.now ≤ 8 }
    ensures { (code : ℕ) → code < 16 ^ length digits.now → digits.now ≡ hex_digits (length digits.now) code → result ≡ Some code }
{
    let mut code = 0u32;
    for digit in digits {
        if !is_hex_digit(*digit) {
            return None;
        }
        code = code * 16 + u32::from(hex_value(*digit));
    }
    Some(code)
}
