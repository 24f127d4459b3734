ghost use Rattle.std.specs.Prelude.{◌≡◌, ℕ, List, MatchOption};
ghost use Rattle.p21_spec_schema.specs.Express.{Lexeme as ExpressLexeme};
ghost use Rattle.p21_spec_schema.specs.ExpressLaying.{LaidLexemes};
ghost use Rattle.p21_express_lexemes.specs.Laid.{ReadsFirstLexeme};
ghost use Rattle.p21_express_lexemes.specs.Meaning.{IsFirstLexeme};
ghost use Rattle.p21_express_lexemes.specs.FirstLexeme.{first_lexeme_of, lexeme_of, unquote, quoted, unquoted};

use crate::bytes::{Class, begins, begins_both, begins_of, behind, split_of};
use crate::skip::behind_separators;

/// A lexical element of EXPRESS.
#[derive(Clone, Copy)]
pub enum Lexeme<'a> {
    /// An identifier or a reserved word, as it is written.
    Identifier(&'a [u8]),
    Digits(&'a [u8]),
    SimpleString,
    EncodedString,
    Symbol(u8),
}

/// What stands at the front of a text.
#[derive(Clone, Copy)]
pub enum FirstLexeme<'a> {
    /// A lexeme, and what is left behind it.
    Found(Lexeme<'a>, &'a [u8]),
    /// Separators alone.
    Ended,
    /// No lexeme and no separators.
    Wrong,
}

/// Reads the lexeme at the front of a text.
#[tactic(auto, using(crate::proofs::Once::reads_first_lexeme))]
pub fn read_first_lexeme(bytes: &[u8]) -> FirstLexeme
    ensures front { IsFirstLexeme (first_lexeme_of bytes.now) result }
    ensures laid { ReadsFirstLexeme bytes.now result }
{
    match behind_separators(bytes) {
        Some(rest) => lexeme_of(rest),
        None => FirstLexeme::Wrong,
    }
}

/// The lexemes of a text are one list.
#[tactic(auto, using(crate::proofs::Once::one_laying))]
pub fn one_laying()
    ensures { (bytes : List ℕ) (lexemes others : List ExpressLexeme) → LaidLexemes lexemes bytes → LaidLexemes others bytes → lexemes ≡ others }
{}

/// The lexeme that begins with the first byte.
#[tactic(auto, using(crate::proofs::Lexing::at_end, crate::proofs::Lexing::at_identifier, crate::proofs::Lexing::at_digits, crate::proofs::Lexing::at_simple, crate::proofs::Lexing::at_encoded, crate::proofs::Lexing::at_symbol, crate::proofs::Lexing::at_nothing))]
fn lexeme_of(bytes: &[u8]) -> FirstLexeme
    ensures { IsFirstLexeme (lexeme_of bytes.now) result }
{
    if bytes.is_empty() {
        return FirstLexeme::Ended;
    }
    if begins_of(Class::Letter, bytes) {
        let (name, rest) = split_of(Class::IdentifierByte, bytes);
        return FirstLexeme::Found(Lexeme::Identifier(name), rest);
    }
    if begins_of(Class::Digit, bytes) {
        let (digits, rest) = split_of(Class::Digit, bytes);
        return FirstLexeme::Found(Lexeme::Digits(digits), rest);
    }
    if begins(b'\'', bytes) {
        return simple_string(behind(1, bytes));
    }
    if begins(b'"', bytes) {
        return encoded_string(behind(1, bytes));
    }
    if begins_of(Class::SymbolByte, bytes) {
        return FirstLexeme::Found(Lexeme::Symbol(bytes[0]), behind(1, bytes));
    }
    FirstLexeme::Wrong
}

ghost use Rattle.p21_express_lexemes.specs.FirstLexeme.{simple_of, encoded_of};
ghost use Rattle.p21_express_lexemes.specs.Bytes.{front as front_bytes, behind as behind_bytes};
ghost use Rattle.p21_express_lexemes.specs.declared.bytes.Class.TheVariants.{Encoded};
ghost use Rattle.std.specs.Prelude.{false};

/// A simple string, behind its first mark.
fn simple_string(bytes: &[u8]) -> FirstLexeme
    ensures { IsFirstLexeme (simple_of (unquote false bytes.now)) result }
{
    match behind_simple(bytes) {
        Some(rest) => FirstLexeme::Found(Lexeme::SimpleString, rest),
        None => FirstLexeme::Wrong,
    }
}

/// An encoded string, behind its first mark.
fn encoded_string(bytes: &[u8]) -> FirstLexeme
    ensures { IsFirstLexeme (encoded_of (front_bytes Encoded bytes.now) (behind_bytes Encoded bytes.now)) result }
{
    let (_inside, rest) = split_of(Class::Encoded, bytes);
    if rest.is_empty() {
        return FirstLexeme::Wrong;
    }
    FirstLexeme::Found(Lexeme::EncodedString, behind(1, rest))
}

/// What stands behind a simple string, within it.
#[tactic(auto, using(crate::proofs::Strings::leads_start, crate::proofs::Strings::leads_double, crate::proofs::Strings::leads_pass, crate::proofs::Strings::leads_close, crate::proofs::Strings::leads_open))]
fn behind_simple(bytes: &[u8]) -> Option<&[u8]>
    ensures { MatchOption result (unquote false bytes.now ≡ unquoted) (λ rest. (inside : List ℕ) × (unquote false bytes.now ≡ quoted inside rest.now)) }
{
    let mut rest = bytes;
    while !rest.is_empty() {
        if begins_both(b'\'', b'\'', rest) {
            rest = behind(2, rest);
        } else if begins(b'\'', rest) {
            return Some(behind(1, rest));
        } else {
            rest = behind(1, rest);
        }
    }
    None
}
