ghost use Rattle.std.specs.Prelude.{◌≡◌, IfOk};

use p21_values::{Bits, Canonical, Decimal, NoMemory, Text, ValueFault, Whole, Word};
use std::alloc::Global;

/// A copy of a whole number, read from its spelling.
#[tactic(auto, using(crate::proofs::Respelled::same_whole, crate::proofs::Respelled::whole_memory))]
pub(crate) fn copied_whole(alloc: Global, whole: &Whole) -> Result<Whole, NoMemory>
    ensures { IfOk result (λ copy. copy ≡ whole.now) }
{
    let mut bytes = Vec::new(alloc);
    whole.write_canonical(&mut bytes)?;
    match Whole::read(alloc, &bytes) {
        Ok(copy) => Ok(copy),
        Err(fault) => Err(want_of_memory(fault)),
    }
}

/// A copy of a decimal number, read from its spelling.
#[tactic(auto, using(crate::proofs::Respelled::same_real, crate::proofs::Respelled::real_memory))]
pub(crate) fn copied_real(alloc: Global, real: &Decimal) -> Result<Decimal, NoMemory>
    ensures { IfOk result (λ copy. copy ≡ real.now) }
{
    let mut bytes = Vec::new(alloc);
    real.write_canonical(&mut bytes)?;
    match Decimal::read(alloc, &bytes) {
        Ok(copy) => Ok(copy),
        Err(fault) => Err(want_of_memory(fault)),
    }
}

/// A copy of bits, read from their spelling.
#[tactic(auto, using(crate::proofs::Respelled::same_bits, crate::proofs::Respelled::bits_memory))]
pub(crate) fn copied_bits(alloc: Global, bits: &Bits) -> Result<Bits, NoMemory>
    ensures { IfOk result (λ copy. copy ≡ bits.now) }
{
    let mut bytes = Vec::new(alloc);
    bits.write_canonical(&mut bytes)?;
    match Bits::read(alloc, &bytes) {
        Ok(copy) => Ok(copy),
        Err(fault) => Err(want_of_memory(fault)),
    }
}

/// A copy of a text, made character by character.
pub(crate) fn copied_text(alloc: Global, text: &Text) -> Result<Text, NoMemory>
    ensures { IfOk result (λ copy. copy ≡ text.now) }
{
    let mut copy = Text::new(alloc);
    let characters = text.chars();
    for character in characters {
        copy.push(*character)?;
    }
    Ok(copy)
}

/// A copy of a word.
pub(crate) fn copied_word(alloc: Global, word: &Word) -> Result<Word, NoMemory>
    ensures { IfOk result (λ copy. copy ≡ word.now) }
{
    word.holds();
    let bytes = word.bytes();
    Word::of_prefix(alloc, bytes, bytes.len())
}

/// Want of memory, the one refusal of bytes that spell a value.
fn want_of_memory(fault: ValueFault) -> NoMemory
    requires { fault ≡ ValueFault.NoMemory }
{
    match fault {
        ValueFault::NoMemory => NoMemory,
        _ => unreachable!(),
    }
}
