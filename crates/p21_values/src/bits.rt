//! `Bits::len` answers a number of 128 bits. A token of more than a quarter of the address space has more bits than a
//! number of 64 bits can count, and no binary is refused for its length.
ghost use Rattle.std.specs.Prelude.{◌↔◌, IsTrue};
ghost use Rattle.p21_spec_exchange.specs.Binary.{SpellsBits};
ghost use Rattle.p21_values.specs.Bits.{bits_of};

use crate::bytes::Bytes;
use crate::canonical::Canonical;
use crate::fault::{NoMemory, ValueFault};
use p21_scan::scan_binary;
use std::alloc::Global;
use std::marker::Model;

/// A list of bits (ISO 10303-21, tokens: binary).
#[derive(Debug, Drop)]
pub struct Bits {
    token: Bytes,
}

impl Model for Bits {
    ghost use Rattle.std.specs.Prelude.{Bool, List};
    ghost use Rattle.p21_spec_exchange.specs.Binary.{SpellsBits};
    ghost use Rattle.p21_values.specs.Bits.{bits_of};

    ghost Value = { List Bool };

    ghost view = { λ a. bits_of a.token };

    ghost invariant = { λ a. SpellsBits a.token (bits_of a.token) };
}

impl Bits {
    ghost use Rattle.std.specs.Prelude.{◌≡◌, length};
    ghost use Rattle.p21_spec_exchange.specs.Binary.{SpellsBits};
    ghost use Rattle.p21_values.specs.Fault.{Reads};
    ghost use Rattle.p21_values.specs.declared.fault.ValueFault.TheVariants.{BadBinary};

    /// Reads one binary: between quotes, a digit from 0 to 3 and hex digits in upper case. The digit counts the zero
    /// bits that fill the first hex digit, and the other bits of the hex digits are the value.
    ///
    /// # Errors
    ///
    /// `BadBinary` where the form is another or a bit that fills is not zero, and `NoMemory`.
    pub fn read(alloc: Global, bytes: &[u8]) -> Result<Bits, ValueFault>
        ensures { Reads BadBinary (SpellsBits bytes.now) result }
    {
        if !is_binary(bytes) {
            return Err(ValueFault::BadBinary);
        }
        Ok(Bits {
            token: Bytes::of(alloc, bytes)?,
        })
    }

    /// How many bits there are. It takes no memory.
    pub fn len(&self) -> u128
        ensures { result ≡ length self.now }
    {
        let padding = self.token[1] - b'0';
        4 * (self.token.len() as u128 - 3) - u128::from(padding)
    }
}

fn is_binary(bytes: &[u8]) -> bool
    ensures { IsTrue result ↔ SpellsBits bytes.now (bits_of bytes.now) }
{
    match scan_binary(bytes) {
        Some((_binary, rest)) => rest.is_empty(),
        None => false,
    }
}

impl PartialEq for Bits {
    ghost use Rattle.std.proofs.Common.{rules};
    ghost use Rattle.std.proofs.Math.Bool.{beq};
    ghost use Rattle.std.specs.Cmp.Lexicographic.{pointwise};
    ghost use Rattle.std.specs.Cmp.Rules.{comparing};
    ghost use Rattle.std.specs.Prelude.{◌≡◌, ◌↔◌, IsTrue};

    ghost eq = { pointwise beq };

    ghost laws = { Prim.search (comparing, rules) };

    /// Whether both mean the same. It takes no memory.
    fn eq(&self, other: &Bits) -> bool
        ensures eq { result ≡ pointwise beq self.now other.now }
        ensures same { IsTrue result ↔ (self.now ≡ other.now) }
    {
        self.token == other.token
    }
}

impl Canonical for Bits {
    ghost use Rattle.std.specs.Prelude.{◌≡◌};
    ghost use Rattle.p21_spec_exchange.proofs.BitSpellings.{bits_spell, same_bits};
    ghost use Rattle.p21_spec_exchange.specs.Binary.{SpellsBits};
    ghost use Rattle.p21_spec_exchange.specs.Spelling.{bits_spelling};

    ghost is_value = { λ _. Unit {0} };

    ghost same = { λ a b. a ≡ b };

    ghost spells = { SpellsBits };

    ghost spelling = { bits_spelling };

    ghost same_spelling = { λ a b _ _. same_bits a b };

    ghost spells_value = { λ a _. bits_spell a };

    fn write_canonical(&self, out: &mut Vec<u8>) -> Result<(), NoMemory> {
        out.extend_from_slice(&self.token)?;
        Ok(())
    }
}
