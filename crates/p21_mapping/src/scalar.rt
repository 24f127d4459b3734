ghost use Rattle.std.specs.Prelude.{IfErr, IfOk};
ghost use Rattle.p21_spec_exchange.specs.Parameter as parameter;
ghost use Rattle.p21_mapping.specs.Outcome.{DecidesItem, FitsAlone, IsKindFault, RefusesItem};

use crate::bounds::{is_boolean, is_logical, is_within};
use p21_express_graph::TypeUse;
use p21_grammar_tree::CheckFault;
use p21_mapping_values::Value;
use p21_schema::Base;
use p21_values::{Bits, Decimal, Text, Whole, Word};
use std::alloc::Global;

/// The fault of a parameter of a kind that the type doesn't take.
pub(crate) fn other_kind(base: Base<'_>) -> CheckFault
    ensures { IsKindFault base.entry result }
{
    match base {
        Base::Select(_) => CheckFault::SelectType,
        Base::Plain(_) => CheckFault::WrongKind,
        Base::Items(_) => CheckFault::WrongKind,
    }
}

/// An INTEGER token, at an INTEGER or a NUMBER.
pub(crate) fn fit_whole(alloc: Global, base: Base<'_>, whole: Whole) -> Result<Value, CheckFault>
    ensures { FitsAlone base.entry (parameter.whole whole) result }
{
    let Base::Plain(of) = base else {
        return Err(other_kind(base));
    };
    match of {
        TypeUse::Whole => Ok(Value::Whole(whole)),
        TypeUse::Number => {
            let number = Decimal::of_whole(alloc, &whole)?;
            number.holds();
            Ok(Value::Number(number))
        }
        _ => Err(CheckFault::WrongKind),
    }
}

/// A REAL token, at a REAL or a NUMBER.
pub(crate) fn fit_real(base: Base<'_>, real: Decimal) -> Result<Value, CheckFault>
    ensures { FitsAlone base.entry (parameter.real real) result }
{
    real.holds();
    let Base::Plain(of) = base else {
        return Err(other_kind(base));
    };
    match of {
        TypeUse::Real => Ok(Value::Real(real)),
        TypeUse::Number => Ok(Value::Number(real)),
        _ => Err(CheckFault::WrongKind),
    }
}

/// A STRING token.
pub(crate) fn fit_text(base: Base<'_>, text: Text) -> Result<Value, CheckFault>
    ensures { FitsAlone base.entry (parameter.text text) result }
{
    text.holds();
    let Base::Plain(of) = base else {
        return Err(other_kind(base));
    };
    let TypeUse::Text(width) = of else {
        return Err(CheckFault::WrongKind);
    };
    if is_within(*width, text.len() as u128) {
        Ok(Value::Text(text))
    } else {
        Err(CheckFault::Width)
    }
}

/// A BINARY token.
pub(crate) fn fit_bits(base: Base<'_>, bits: Bits) -> Result<Value, CheckFault>
    ensures { FitsAlone base.entry (parameter.bits bits) result }
{
    let Base::Plain(of) = base else {
        return Err(other_kind(base));
    };
    let TypeUse::Bits(width) = of else {
        return Err(CheckFault::WrongKind);
    };
    if is_within(*width, bits.len()) {
        Ok(Value::Bits(bits))
    } else {
        Err(CheckFault::Width)
    }
}

/// An enumeration token, at a BOOLEAN, a LOGICAL or an enumeration.
pub(crate) fn fit_item(base: Base<'_>, word: Word) -> Result<Value, CheckFault>
    ensures { FitsAlone base.entry (parameter.item word) result }
{
    word.holds();
    match is_item(base, &word) {
        Ok(true) => Ok(Value::Item(word)),
        Ok(false) => Err(CheckFault::UnknownItem),
        Err(fault) => Err(fault),
    }
}

/// Whether the word is one of the items of the type.
fn is_item(base: Base<'_>, word: &Word) -> Result<bool, CheckFault>
    ensures ok { IfOk result (λ is_one. DecidesItem base.entry word.now is_one) }
    ensures err { IfErr result (λ fault. RefusesItem base.entry word.now fault) }
{
    match base {
        Base::Items(items) => Ok(items.has(word)),
        Base::Select(_) => Err(CheckFault::SelectType),
        Base::Plain(of) => match of {
            TypeUse::Boolean => Ok(is_boolean(word)),
            TypeUse::Logical => Ok(is_logical(word)),
            _ => Err(CheckFault::WrongKind),
        },
    }
}
