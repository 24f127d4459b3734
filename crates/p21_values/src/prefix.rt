//! Numbers at the front of bytes, each read in one pass.
ghost use Rattle.std.specs.Prelude.{IfOk, IfSome, take};
ghost use Rattle.p21_values.specs.Prefix.{SpellsNumber};

use crate::decimal::{Decimal, Digits};
use crate::fault::{NoMemory, ValueFault};
use crate::whole::Whole;
use p21_scan::{exponent_value, scan_number};
use std::alloc::Global;

/// A whole number or a real.
#[derive(Debug, Drop)]
pub enum Number {
    Whole(Whole),
    Real(Decimal),
}

/// The number that stands at the front of bytes, and how many bytes it has. Its digits and those of its exponent are all
/// that stand there; the bytes may go on with what makes another number of it. `None` where no number stands there, and
/// where it is out of range: whoever wants to know why reads it as a `Whole` or a `Decimal`.
///
/// # Errors
///
/// `NoMemory`.
#[inline(always)]
pub fn read_number(alloc: Global, bytes: &[u8]) -> Option<Result<(usize, Number), NoMemory>>
    ensures { IfSome result (λ answer. IfOk answer (λ front. SpellsNumber (take front.0 bytes.now) front.1)) }
{
    let (number, rest) = scan_number(bytes)?;
    let count = bytes.len() - rest.len();
    let Some(decimals) = number.decimals else {
        return match Whole::of_digits(alloc, number.negative, number.whole) {
            Ok(number) => Some(Ok((count, Number::Whole(number)))),
            Err(_no_memory) => Some(Err(NoMemory)),
        };
    };
    let exponent = exponent_value(decimals.exponent)?;
    let digits = Digits {
        whole: number.whole,
        fraction: decimals.fraction,
    };
    match Decimal::of_digits(alloc, number.negative, digits, exponent) {
        Ok(number) => Some(Ok((count, Number::Real(number)))),
        Err(ValueFault::NoMemory) => Some(Err(NoMemory)),
        Err(_out_of_range) => None,
    }
}
