ghost use Rattle.std.specs.Prelude.{◌≡◌, ◌≤◌, IfOk, length, take};
ghost use Rattle.p21_spec_exchange.specs.Keyword.{IsKeyword};
ghost use Rattle.p21_values.specs.declared.fault.ValueFault.TheVariants.{BadWord};
ghost use Rattle.p21_values.specs.Fault.{Reads};
ghost use Rattle.p21_values.specs.Word.{SpellsWord};

use crate::bytes::Bytes;
use crate::canonical::Canonical;
use crate::fault::{NoMemory, ValueFault};
use p21_scan::scan_keyword;
use std::alloc::Global;
use std::marker::Model;

/// The characters of a keyword or of an enumeration item.
#[derive(Debug, Drop)]
pub struct Word {
    bytes: Bytes,
}

impl Model for Word {
    ghost use Rattle.std.specs.Prelude.{ℕ, List};
    ghost use Rattle.p21_spec_exchange.specs.Keyword.{IsKeyword};

    ghost Value = { List ℕ };

    ghost view = { λ word. word.bytes };

    ghost invariant = { λ word. IsKeyword word.bytes };
}

impl Word {
    /// Reads the characters of a keyword (ISO 10303-21, tokens: keyword): an upper-case letter or `_`, then upper-case
    /// letters, digits and `_`.
    ///
    /// # Errors
    ///
    /// `BadWord` where the bytes are no keyword, `NoMemory`.
    pub fn read(alloc: Global, bytes: &[u8]) -> Result<Word, ValueFault>
        ensures { Reads BadWord (SpellsWord bytes.now) result }
    {
        let Some((word, rest)) = scan_keyword(bytes) else {
            return Err(ValueFault::BadWord);
        };
        if !rest.is_empty() {
            return Err(ValueFault::BadWord);
        }
        Ok(Word {
            bytes: Bytes::of(alloc, word)?,
        })
    }

    /// The word of so many bytes at the front.
    ///
    /// # Errors
    ///
    /// `NoMemory`.
    #[inline(always)]
    pub fn of_prefix(alloc: Global, bytes: &[u8], count: usize) -> Result<Word, NoMemory>
        requires within { count ≤ length bytes.now }
        requires keyword { IsKeyword (take count bytes.now) }
        ensures { IfOk result (λ word. word ≡ take count bytes.now) }
    {
        Ok(Word {
            bytes: Bytes::front(alloc, bytes, count)?,
        })
    }

    /// Each word is that of a keyword. It does nothing.
    pub fn holds(&self)
        ensures { IsKeyword self.now }
    {
        let _bytes = &self.bytes;
    }

    /// The characters, in ASCII. It takes no memory.
    pub fn bytes(&self) -> &[u8]
        ensures { result.now ≡ self.now }
    {
        &self.bytes
    }
}

impl PartialEq for Word {
    ghost use Rattle.std.proofs.Common.{rules};
    ghost use Rattle.std.specs.Cmp.Rules.{comparing};
    ghost use Rattle.std.specs.Prelude.{◌≡◌, ◌↔◌, IsTrue};
    ghost use Rattle.std.specs.Str.{bytes_eq};

    ghost eq = { bytes_eq };

    ghost laws = { Prim.search (comparing, rules) };

    /// Whether both mean the same. It takes no memory.
    fn eq(&self, other: &Word) -> bool
        ensures eq { result ≡ bytes_eq self.now other.now }
        ensures same { IsTrue result ↔ (self.now ≡ other.now) }
    {
        self.bytes == other.bytes
    }
}

impl Eq for Word {
    ghost use Rattle.std.proofs.Common.{rules};
    ghost use Rattle.std.specs.Cmp.Rules.{comparing};

    ghost laws = { Prim.search (comparing, rules) };
}

impl Canonical for Word {
    ghost use Rattle.std.specs.Prelude.{◌≡◌, refl};
    ghost use Rattle.p21_spec_exchange.specs.Keyword.{IsKeyword};
    ghost use Rattle.p21_values.specs.Word.{SpellsWord};

    ghost is_value = { IsKeyword };

    ghost same = { λ a b. a ≡ b };

    ghost spells = { SpellsWord };

    ghost spelling = { λ word. word };

    ghost same_spelling = { λ _ _ _ _. (λ same. same, λ same. same) };

    ghost spells_value = { λ _ keyword. (refl, keyword) };

    fn write_canonical(&self, out: &mut Vec<u8>) -> Result<(), NoMemory> {
        out.extend_from_slice(&self.bytes)?;
        Ok(())
    }
}
