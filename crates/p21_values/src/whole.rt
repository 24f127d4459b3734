ghost use Rattle.std.specs.Prelude.{◌≡◌, ◌++◌, IfOk, OnErr, OnOk};
ghost use Rattle.p21_spec_basics.specs.Digits.{AllDigits, number};
ghost use Rattle.p21_spec_exchange.specs.Number.{SpellsWhole, signed};
ghost use Rattle.p21_spec_exchange.specs.Spelling.{whole_spelling};
ghost use Rattle.p21_values.specs.Canonical.{Continues};
ghost use Rattle.p21_values.specs.declared.fault.ValueFault.TheVariants.{BadNumber};
ghost use Rattle.p21_values.specs.Fault.{Reads};

use crate::bytes::Bytes;
use crate::canonical::{Canonical, restore_on_failure};
use crate::fault::{NoMemory, ValueFault};
use p21_scan::{scan_integer, without_leading_zeros};
use std::alloc::{AllocError, Global};
use std::marker::Model;

/// A whole number of any size.
#[derive(Debug, Drop)]
pub struct Whole {
    negative: bool,
    // ASCII, the first of them no zero: none for the number zero.
    digits: Bytes,
}

impl Model for Whole {
    ghost use Rattle.std.specs.Prelude.{ℤ};
    ghost use Rattle.p21_spec_basics.specs.Digits.{number};
    ghost use Rattle.p21_spec_exchange.specs.Number.{signed};
    ghost use Rattle.p21_values.specs.Stored.{IsStoredWhole};

    ghost Value = { ℤ };

    ghost view = { λ whole. signed whole.negative (number whole.digits) };

    ghost invariant = { λ whole. IsStoredWhole whole.negative whole.digits };
}

impl Whole {
    /// Reads the bytes of one integer (ISO 10303-21, tokens: integer): a sign or none, and one digit or more.
    ///
    /// # Errors
    ///
    /// `BadNumber` where the bytes are no integer, `NoMemory`.
    pub fn read(alloc: Global, bytes: &[u8]) -> Result<Whole, ValueFault>
        ensures { Reads BadNumber (SpellsWhole bytes.now) result }
    {
        let Some((integer, rest)) = scan_integer(bytes) else {
            return Err(ValueFault::BadNumber);
        };
        if !rest.is_empty() {
            return Err(ValueFault::BadNumber);
        }
        Ok(Whole::of_digits(alloc, integer.negative, integer.digits)?)
    }

    // The number of the digits.
    #[inline(always)]
    pub(crate) fn of_digits(
        alloc: Global,
        negative: bool,
        digits: &[u8],
    ) -> Result<Whole, AllocError>
        requires { AllDigits digits.now }
        ensures { IfOk result (λ whole. whole ≡ signed negative (number digits.now)) }
    {
        let significant = without_leading_zeros(digits);
        Ok(Whole {
            negative: negative && !significant.is_empty(),
            digits: Bytes::of(alloc, significant)?,
        })
    }

    // The sign, and the digits in ASCII, of which the first is no zero.
    pub(crate) fn parts(&self) -> (bool, &[u8])
        ensures value { signed result.0 (number result.1.now) ≡ self.now }
        ensures digits { AllDigits result.1.now }
    {
        (self.negative, &self.digits)
    }
}

impl PartialEq for Whole {
    ghost use Rattle.std.proofs.Common.{rules};
    ghost use Rattle.std.specs.Cmp.Rules.{comparing};
    ghost use Rattle.std.specs.Prelude.{◌≡◌, ◌↔◌, IsTrue};
    ghost use Rattle.std.specs.Ordering.{int_eq};

    ghost eq = { int_eq };

    ghost laws = { Prim.search (comparing, rules) };

    /// Whether both mean the same. It takes no memory.
    fn eq(&self, other: &Whole) -> bool
        ensures eq { result ≡ int_eq self.now other.now }
        ensures same { IsTrue result ↔ (self.now ≡ other.now) }
    {
        self.negative == other.negative && self.digits == other.digits
    }
}

impl Eq for Whole {
    ghost use Rattle.std.proofs.Common.{rules};
    ghost use Rattle.std.specs.Cmp.Rules.{comparing};

    ghost laws = { Prim.search (comparing, rules) };
}

impl Canonical for Whole {
    ghost use Rattle.std.specs.Prelude.{◌≡◌};
    ghost use Rattle.p21_spec_exchange.specs.Number.{SpellsWhole};
    ghost use Rattle.p21_spec_exchange.specs.Spelling.{whole_spelling};
    ghost use Rattle.p21_spec_exchange.proofs.WholeSpellings.{whole_spelling_same, whole_spells};

    ghost is_value = { λ _. Unit {0} };

    ghost same = { λ a b. a ≡ b };

    ghost spells = { SpellsWhole };

    ghost spelling = { whole_spelling };

    ghost same_spelling = { λ a b _ _. whole_spelling_same a b };

    ghost spells_value = { λ a _. whole_spells a };

    fn write_canonical(&self, out: &mut Vec<u8>) -> Result<(), NoMemory> {
        let before = out.len();
        let written = append(self, out);
        restore_on_failure(out, before, written)
    }
}

// Appends the canonical spelling, or a part of it where memory runs out.
fn append(whole: &Whole, out: &mut Vec<u8>) -> Result<(), NoMemory>
    ensures ok { OnOk result (out.new.items ≡ out.old.items ++ whole_spelling whole.now) }
    ensures err { OnErr result (Continues out.old.items out.new.items) }
{
    if whole.digits.is_empty() {
        out.push(b'0')?;
        return Ok(());
    }
    if whole.negative {
        out.push(b'-')?;
    }
    out.extend_from_slice(&whole.digits)?;
    Ok(())
}
