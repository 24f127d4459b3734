//! Values, by their texts in the canonical file.
ghost use Rattle.std.specs.Float.{binary64};
ghost use Rattle.std.specs.Float.Parse.{parse_float};
ghost use Rattle.std.specs.Prelude.{◌≡◌, ℕ, ℤ, List};
ghost use Rattle.p21_c.specs.Filled.{AreFirst, IsToldNumber};
ghost use Rattle.p21_c.specs.Models.{HandsOutElement, TellsDigits, TellsDouble};
ghost use Rattle.p21_c.specs.Reports.{done};
ghost use Rattle.p21_c.specs.Spans.{IsSpanOf};
ghost use Rattle.p21_c.specs.Values.{kind_number};
ghost use Rattle.p21_model_values.specs.Spelled.{AreDigitsOfReal, AreDigitsOfWhole, AreLeftCharacters};
ghost use Rattle.p21_model_values.specs.Written.{AreElements, AreLeft, IsTextOf, kind_of};
ghost use Rattle.p21_spec_exchange.specs.Number.{Decimal};
ghost use Rattle.p21_spec_exchange.specs.Parameter.{Param, Params, key_of, list, name as reference_to, real, text, typed, whole};

use crate::answers::{DONE, REFUSED, flag};
use crate::spans::{Span, span_of};
use p21_model::{Characters, Elements, Kind, Value};

/// The digits of a number, on both sides of the point, its sign and its exponent.
#[repr(C)]
#[derive(Clone, Copy)]
pub struct NumberDigits {
    pub negative: u8,
    pub exponent: i32,
    pub whole: Span,
    pub fraction: Span,
}

/// What a value is.
#[unsafe(no_mangle)]
pub extern "C" fn p21_value_kind(value: &[u8]) -> u8
    ensures { (p : Param) → IsTextOf value.now p → result ≡ kind_number (kind_of p) }
{
    let value = Value { text: value };
    kind_number(value.kind())
}

/// The instance that a reference names.
#[unsafe(no_mangle)]
pub extern "C" fn p21_value_reference(value: &[u8], name: &mut u64) -> u8
    ensures { (n : ℕ) → IsTextOf value.now (reference_to n) → (name.new ≡ n) × (result ≡ done) }
{
    let value = Value { text: value };
    let Some(found) = value.reference() else {
        return REFUSED;
    };
    *name = found.0;
    DONE
}

/// Where the values in an aggregate begin.
#[unsafe(no_mangle)]
pub extern "C" fn p21_value_elements(value: &[u8], rest: &mut Span)
    ensures { (ps : Params) → IsTextOf value.now (list ps) → IsSpanOf (AreElements ps) rest.new }
{
    let value = Value { text: value };
    *rest = span_of(value.elements().rest);
}

/// Hands out the first of the values that are left in an aggregate, and those that are left then.
#[unsafe(no_mangle)]
pub extern "C" fn p21_next_element(left: &[u8], element: &mut Span, rest: &mut Span) -> u8
    ensures { (ps : Params) (after : List ℕ) → AreLeft ps after left.now
        → HandsOutElement ps after result element.old element.new rest.old rest.new }
{
    let mut elements = Elements { rest: left };
    let Some(found) = elements.next() else {
        return REFUSED;
    };
    *element = span_of(found.text);
    *rest = span_of(elements.rest);
    DONE
}

/// The keyword and the value of a value that stands with the keyword of its type.
#[unsafe(no_mangle)]
pub extern "C" fn p21_value_typed(value: &[u8], keyword: &mut Span, inside: &mut Span) -> u8
    ensures { (word : List ℕ) (p : Param) → IsTextOf value.now (typed (key_of word) p)
        → IsSpanOf (λ text. text ≡ word) keyword.new × IsSpanOf (λ text. IsTextOf text p) inside.new × (result ≡ done) }
{
    let value = Value { text: value };
    let Some((word, found)) = value.typed() else {
        return REFUSED;
    };
    *keyword = span_of(word);
    *inside = span_of(found.text);
    DONE
}

/// Tells the characters of a text, as many as there is room for.
#[unsafe(no_mangle)]
pub extern "C" fn p21_value_characters(value: &[u8], characters: &mut [u32], count: &mut usize)
    ensures { (cs : List ℕ) → IsTextOf value.now (text cs) → AreFirst IsToldNumber cs characters.new count.new }
{
    let value = Value { text: value };
    *count = tell_characters(value.characters(), characters);
}

/// The exact digits of a whole number or a real.
#[unsafe(no_mangle)]
pub extern "C" fn p21_value_digits(value: &[u8], digits: &mut NumberDigits) -> u8
    ensures whole { (z : ℤ) → IsTextOf value.now (whole z) → TellsDigits (λ found. AreDigitsOfWhole found z) digits.new × (result ≡ done) }
    ensures real { (d : Decimal) → IsTextOf value.now (real d)
        → TellsDigits (λ found. AreDigitsOfReal found d) digits.new × (result ≡ done) }
{
    let value = Value { text: value };
    let Some(found) = value.digits() else {
        return REFUSED;
    };
    *digits = NumberDigits {
        negative: flag(found.negative),
        exponent: found.exponent,
        whole: span_of(found.whole),
        fraction: span_of(found.fraction),
    };
    DONE
}

/// The double that is nearest to a whole number or a real.
#[unsafe(no_mangle)]
pub extern "C" fn p21_value_double(value: &[u8], nearest: &mut f64) -> u8
    ensures { TellsDouble (parse_float binary64 value.now) result nearest.old nearest.new }
{
    let value = Value { text: value };
    let Some(found) = value.nearest() else {
        return REFUSED;
    };
    *nearest = found;
    DONE
}

/// Tells characters, as many as there is room for, and answers how many they were.
fn tell_characters(characters: Characters<'_>, room: &mut [u32]) -> usize
    ensures { (cs : List ℕ) → AreLeftCharacters cs characters.entry.rest.now → AreFirst IsToldNumber cs room.new result }
{
    let mut left = characters;
    for at in 0..room.len() {
        let Some(character) = left.next() else {
            return at;
        };
        room[at] = u32::from(character);
    }
    room.len()
}

/// The number of a kind.
fn kind_number(kind: Kind) -> u8
    ensures { result ≡ kind_number kind }
{
    match kind {
        Kind::Missing => 0,
        Kind::Derived => 1,
        Kind::Whole => 2,
        Kind::Real => 3,
        Kind::Text => 4,
        Kind::Item => 5,
        Kind::Bits => 6,
        Kind::Reference => 7,
        Kind::Aggregate => 8,
        Kind::Typed => 9,
    }
}
