//! A value.
ghost use Rattle.std.specs.Prelude.{◌≡◌, ◌<◌, ◌^◌, ℕ, ℤ, List, None, Some, IfSome, IsNone, MatchOption, cond, false};
ghost use Rattle.std.specs.Float.{binary64};
ghost use Rattle.std.specs.Float.Parse.{parse_float};
ghost use Rattle.std.specs.List.{AllByRecursion as Each};
ghost use Rattle.p21_spec_exchange.specs.Number.{Decimal};
ghost use Rattle.p21_spec_exchange.specs.Parameter.{Param, Params, key_of, list, name, real, text, typed, whole};
ghost use Rattle.p21_spec_file.specs.Reference.{param_references};
ghost use Rattle.p21_model_values.specs.Ends.{has_point, kind_by};
ghost use Rattle.p21_model_values.specs.Named.{names_in};
ghost use Rattle.p21_model_values.specs.Spelled.{AreDigitsOfReal, AreDigitsOfWhole, AreLeftCharacters};
ghost use Rattle.p21_model_values.specs.Written.{AreElements, IsTextOf, kind_of};
ghost use Rattle.p21_model_values.specs.declared.kind.Kind.TheVariants as kind;

use crate::characters::Characters;
use crate::digits::Digits;
use crate::elements::Elements;
use crate::kind::Kind;
use crate::references::References;
use p21_scan::{exponent_value, is_digit, scan_keyword, scan_number};
use p21_values::Name;

/// A value, by its text in the canonical file.
#[derive(Clone, Copy)]
pub struct Value<'a> {
    pub text: &'a [u8],
}

impl<'a> Value<'a> {
    /// What the value is. It takes no memory.
    pub fn kind(self) -> Kind
        ensures { (p : Param) → IsTextOf self.entry.text.now p → result ≡ kind_of p }
    {
        match self.text.split_first() {
            Some((first, _)) => kind_by(*first, self.text),
            None => Kind::Missing,
        }
    }

    /// The instance that a reference names; nothing where the value is none. It takes no memory.
    pub fn reference(self) -> Option<Name>
        ensures { (n : ℕ) → IsTextOf self.entry.text.now (name n) → result ≡ Some n }
    {
        match Name::read(self.text) {
            Ok(name) => Some(name),
            Err(_) => None,
        }
    }

    /// The elements of an aggregate, in the order of the canonical file; none where the value is no aggregate. It takes no memory.
    pub fn elements(self) -> Elements<'a>
        ensures { (ps : Params) → IsTextOf self.entry.text.now (list ps) → AreElements ps result.rest.now }
    {
        match self.text.split_first() {
            Some((_, rest)) => Elements { rest },
            None => Elements { rest: &[] },
        }
    }

    /// The keyword and the value of a value that stands with the keyword of its type; nothing where the value is none such. It
    /// takes no memory.
    pub fn typed(self) -> Option<(&'a [u8], Value<'a>)>
        ensures { (word : List ℕ) (p : Param) → IsTextOf self.entry.text.now (typed (key_of word) p)
            → MatchOption result ⊥ (λ found. (found.0.now ≡ word) × IsTextOf found.1.text.now p) }
    {
        let (word, behind) = scan_keyword(self.text)?;
        if behind.len() < 2 {
            return None;
        }
        let text = &behind[1..behind.len() - 1];
        Some((word, Value { text }))
    }

    /// The characters of a text, first to last; none where the value is no text. It takes no memory.
    pub fn characters(self) -> Characters<'a>
        ensures { (characters : List ℕ) → IsTextOf self.entry.text.now (text characters) → AreLeftCharacters characters result.rest.now }
    {
        match self.text.split_first() {
            Some((_, rest)) => Characters { rest },
            None => Characters { rest: &[] },
        }
    }

    /// The exact digits of a whole number or a real; nothing where the value is neither. It takes no memory.
    pub fn digits(self) -> Option<Digits<'a>>
        ensures whole { (z : ℤ) → IsTextOf self.entry.text.now (whole z) → MatchOption result ⊥ (λ digits. AreDigitsOfWhole digits z) }
        ensures real { (d : Decimal) → IsTextOf self.entry.text.now (real d) → MatchOption result ⊥ (λ digits. AreDigitsOfReal digits d) }
    {
        let Some((number, _)) = scan_number(self.text) else {
            return None;
        };
        let Some(decimals) = number.decimals else {
            return Some(Digits {
                negative: number.negative,
                whole: number.whole,
                fraction: &[],
                exponent: 0,
            });
        };
        let Some(exponent) = exponent_value(decimals.exponent) else {
            return None;
        };
        Some(Digits {
            negative: number.negative,
            whole: number.whole,
            fraction: decimals.fraction,
            exponent,
        })
    }

    /// The double that is nearest to a whole number or a real, by the rule that a tie goes to the even one; infinite past the
    /// largest one. Nothing where the value is neither. It takes no memory.
    pub fn nearest(self) -> Option<f64>
        ensures some { IfSome result (λ double. parse_float binary64 self.entry.text.now ≡ Some double) }
        ensures none { IsNone result → parse_float binary64 self.entry.text.now ≡ None }
    {
        match fast_float::parse(self.text) {
            Ok(double) => Some(double),
            Err(_) => None,
        }
    }

    /// The names of instances in the value, at any depth, in the order of its text. It takes no memory.
    pub fn references(self) -> References<'a>
        ensures { (p : Param) → IsTextOf self.entry.text.now p
            → (names_in result.rest.now false ≡ param_references p) × Each (λ n. n < 2 ^ 64) (param_references p) }
    {
        References { rest: self.text }
    }
}

/// What a value is whose text begins with this byte.
fn kind_by(first: u8, text: &[u8]) -> Kind
    ensures { result ≡ kind_by first (has_point text.now) }
{
    if first == b'$' {
        return Kind::Missing;
    }
    if first == b'*' {
        return Kind::Derived;
    }
    if first == b'\'' {
        return Kind::Text;
    }
    if first == b'.' {
        return Kind::Item;
    }
    if first == b'"' {
        return Kind::Bits;
    }
    if first == b'#' {
        return Kind::Reference;
    }
    if first == b'(' {
        return Kind::Aggregate;
    }
    if first == b'-' || is_digit(first) {
        return number_kind(text);
    }
    Kind::Typed
}

/// What a number is: a real has a point.
fn number_kind(text: &[u8]) -> Kind
    ensures { result ≡ cond (has_point text.now) kind.Real kind.Whole }
{
    if text.contains(&b'.') {
        return Kind::Real;
    }
    Kind::Whole
}
