//! Whether two values are the same but for reals that are near.
ghost use Rattle.std.specs.Prelude.{◌≡◌, ◌↔◌, ◌⊎◌, ◌<◌, length, IsTrue, IfNone, IfSome};
ghost use Rattle.p21_model_values.specs.Written.{IsTextOf};
ghost use Rattle.p21_spec_exchange.specs.Parameter.{Param};
ghost use Rattle.p21_tolerance.specs.NearValues.{AreInside, AreLists, AreNearValues, AreTypedAlike, IsList, IsReal, IsTyped, IsTypedAs};
ghost use Rattle.p21_tolerance.specs.Within.{tolerance_of};

use crate::tolerance::Tolerance;
use crate::within::{are_within, are_within_share};
use p21_model_values::{Kind, Value};

/// Whether two values are the same but for reals, at any depth, that differ by no more than a tolerance, or by no more than one of them
/// times it. It takes no memory.
pub fn are_near(first: Value<'_>, second: Value<'_>, tolerance: Tolerance) -> bool
    ensures { (p q : Param) → IsTextOf first.entry.text.now p → IsTextOf second.entry.text.now q
        → IsTrue result ↔ AreNearValues (tolerance_of tolerance) p q }
{
    if let Some((one, other)) = inside_both(first, second) {
        return are_near(one, other, tolerance);
    }
    if !is_list(first) || !is_list(second) {
        return are_alike(first, second, tolerance);
    }
    let mut ones = first.elements();
    let mut others = second.elements();
    while let Some(one) = ones.next() {
        let Some(other) = others.next() else {
            return false;
        };
        if one.text.len() >= first.text.len() {
            return false;
        }
        if !are_near(one, other, tolerance) {
            return false;
        }
    }
    others.next().is_none()
}

/// The values inside of two that stand with one keyword.
fn inside_both<'a>(first: Value<'a>, second: Value<'a>) -> Option<(Value<'a>, Value<'a>)>
    ensures shorter { IfSome result (λ found. length found.0.text.now < length first.entry.text.now) }
    ensures some { IfSome result (λ found. (p q : Param) → IsTextOf first.entry.text.now p → IsTextOf second.entry.text.now q
        → AreInside p q found.0.text.now found.1.text.now) }
    ensures none { IfNone result ((p q : Param) → IsTextOf first.entry.text.now p → IsTextOf second.entry.text.now q → AreTypedAlike p q
        → ⊥) }
{
    let Some((word, one)) = inside(first) else {
        return None;
    };
    let Some((other_word, other)) = inside(second) else {
        return None;
    };
    if word != other_word {
        return None;
    }
    if one.text.len() >= first.text.len() {
        return None;
    }
    Some((one, other))
}

/// The keyword of a value that stands with one which is no user keyword, and the value inside.
fn inside(value: Value<'_>) -> Option<(&[u8], Value<'_>)>
    ensures some { IfSome result (λ found. (p : Param) → IsTextOf value.entry.text.now p → IsTypedAs p found.0.now found.1.text.now) }
    ensures none { IfNone result ((p : Param) → IsTextOf value.entry.text.now p → IsTyped p → ⊥) }
{
    if !is_typed(value) {
        return None;
    }
    let Some((word, inner)) = value.typed() else {
        return None;
    };
    Some((word, inner))
}

/// Whether a value stands with a keyword that is no user keyword.
fn is_typed(value: Value<'_>) -> bool
    ensures { (p : Param) → IsTextOf value.entry.text.now p → IsTrue result ↔ IsTyped p }
{
    match value.kind() {
        Kind::Typed => {}
        _ => return false,
    }
    match value.text.first() {
        Some(byte) => *byte != b'!',
        None => false,
    }
}

/// Whether a value is an aggregate.
fn is_list(value: Value<'_>) -> bool
    ensures { (p : Param) → IsTextOf value.entry.text.now p → IsTrue result ↔ IsList p }
{
    match value.kind() {
        Kind::Aggregate => true,
        _ => false,
    }
}

/// Whether two values are near that aren't both aggregates, nor stand with one keyword.
fn are_alike(first: Value<'_>, second: Value<'_>, tolerance: Tolerance) -> bool
    ensures { (p q : Param) → IsTextOf first.entry.text.now p → IsTextOf second.entry.text.now q → (AreLists p q → ⊥)
        → (AreTypedAlike p q → ⊥) → IsTrue result ↔ AreNearValues (tolerance_of tolerance) p q }
{
    if is_real(first) && is_real(second) {
        return are_within(first, second, tolerance) || are_within_share(first, second, tolerance);
    }
    first.text == second.text
}

/// Whether a value is a real.
fn is_real(value: Value<'_>) -> bool
    ensures { (p : Param) → IsTextOf value.entry.text.now p → IsTrue result ↔ IsReal p }
{
    match value.kind() {
        Kind::Real => true,
        _ => false,
    }
}
