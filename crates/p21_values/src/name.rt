ghost use Rattle.std.specs.Prelude.{◌≡◌, ◌^◌, ◌<◌, drop};
ghost use Rattle.p21_spec_basics.specs.Digits.{plain_digits};
ghost use Rattle.p21_values.specs.Name.{ReadsName};

use crate::canonical::Canonical;
use crate::fault::{NoMemory, ValueFault};
use p21_scan::{name_number, scan_name};
use std::marker::Model;

/// The name of an instance, which is a number (ISO 10303-21, tokens: entity instance name).
#[derive(Clone, Copy, Debug, PartialEq, Eq)]
pub struct Name(pub u64);

impl Model for Name {
    ghost use Rattle.std.specs.Prelude.{ℕ};

    ghost Value = { ℕ };

    ghost view = { λ a. a.0 };

    ghost inverse = { λ n. record { 0 = n } };
}

impl Name {
    /// The number is one of 64 bits. It does nothing.
    pub fn holds(&self)
        ensures { self.now < 2 ^ 64 }
    {
        let _number = self.0;
    }

    /// Reads one instance name: `#` and one digit or more, where leading zeros do not count. It takes no memory.
    ///
    /// # Errors
    ///
    /// `BadName` where the form is another, and `NameRange` where the number is above 18446744073709551615.
    pub fn read(bytes: &[u8]) -> Result<Name, ValueFault>
        ensures { ReadsName bytes.now result }
    {
        let Some((digits, rest)) = scan_name(bytes) else {
            return Err(ValueFault::BadName);
        };
        if !rest.is_empty() {
            return Err(ValueFault::BadName);
        }
        match name_number(digits) {
            Some(number) => Ok(Name(number)),
            None => Err(ValueFault::NameRange),
        }
    }
}

/// Writes the digits of a number at the end of the text, and says where they begin.
fn fill_digits(text: &mut [u8; 21], number: u64) -> usize
    ensures within { (0 < result) × (result < 21) }
    ensures digits { drop result text.new ≡ plain_digits number }
{
    let mut start = 20;
    text[start] = b'0' + (number % 10) as u8;
    let mut rest = number / 10;
    while rest > 0 {
        start -= 1;
        text[start] = b'0' + (rest % 10) as u8;
        rest /= 10;
    }
    start
}

impl Canonical for Name {
    ghost use Rattle.std.specs.Prelude.{◌≡◌, ◌<◌, ◌^◌};
    ghost use Rattle.p21_spec_exchange.proofs.Names.{name_spells, same_names};
    ghost use Rattle.p21_spec_exchange.specs.Name.{SpellsName};
    ghost use Rattle.p21_spec_exchange.specs.Spelling.{name_spelling};

    ghost is_value = { λ n. n < 2 ^ 64 };

    ghost same = { λ a b. a ≡ b };

    ghost spells = { SpellsName };

    ghost spelling = { name_spelling };

    ghost same_spelling = { same_names };

    ghost spells_value = { name_spells };

    fn write_canonical(&self, out: &mut Vec<u8>) -> Result<(), NoMemory> {
        let mut text = [0; 21];
        let start = fill_digits(&mut text, self.0) - 1;
        text[start] = b'#';
        out.extend_from_slice(&text[start..])?;
        Ok(())
    }
}
