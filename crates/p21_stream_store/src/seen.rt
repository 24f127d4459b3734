//! Which names have come, a bit for each.
//!
//! A bit for each name below 8,388,608 says which have come, so that no table is searched for a name that hasn't: in a
//! file whose names are shuffled these are two of three look-ups, and a bit of each fits in the processor's cache where
//! a position doesn't. That the name of an instance is new is said by its bit too (`has_name`), where the byte of its
//! membership had to be read before it was written. Without the bits `check` of the shuffled boundary model took 1.15
//! times as long, `canon` and `same` 1.06 times. A bit that is set claims nothing, so a push that fails leaves it. Bits
//! of more names would take more than a megabyte for one name alone.
ghost use Rattle.std.specs.Prelude.{◌≡◌, ◌≢◌, ◌<◌, ◌≤◌, ℕ, length, slice_index_or, vec_capacity, IsOk, OnOk, false};
ghost use Rattle.std.specs.Int.{bit_at};
ghost use Rattle.p21_stream_store.specs.Seen.{HasBit, MayHaveCome};

use crate::room::reach;
use p21_values::NoMemory;

/// Names below this have a bit, so that the bits take a megabyte at most.
const NAMES_WITH_A_BIT: u64 = 8_388_608;
/// So many bits stand in one word.
const WORD: u64 = 64;

/// Whether a name may have come: it has no bit, or its bit is set.
#[inline]
pub fn may_have_come(words: &[u64], name: u64) -> bool
    ensures { result ≡ false → MayHaveCome words.now name → ⊥ }
{
    if name >= NAMES_WITH_A_BIT {
        return true;
    }
    let index = (name / WORD) as usize;
    if index >= words.len() {
        return false;
    }
    (words[index] >> (name % WORD)) & 1 == 1
}

/// Sets the bit of a name, if it has one. All others stay. Where the bit is there, or the name has none, nothing is asked for.
///
/// # Errors
///
/// `NoMemory`, which changes no bit.
#[inline]
pub fn note(words: &mut Vec<u64>, name: u64) -> Result<(), NoMemory>
    ensures noted { OnOk result (MayHaveCome words.new.items name) }
    ensures others { (other : ℕ) → MayHaveCome words.old.items other → MayHaveCome words.new.items other }
    ensures there { HasBit words.old.items name → IsOk result }
    ensures large { 8388608 ≤ name → IsOk result × (words.new ≡ words.old) }
    ensures room { (m : ℕ) → vec_capacity words.old ≤ m → 131072 ≤ m → vec_capacity words.new ≤ m }
{
    if name >= NAMES_WITH_A_BIT {
        return Ok(());
    }
    let index = (name / WORD) as usize;
    let Ok(()) = make_word(words, index) else {
        return Err(NoMemory);
    };
    set_bit(words, index, name % WORD);
    Ok(())
}

/// Makes a word of this number, and those in front of it, where there is none yet. No bit changes.
#[inline]
fn make_word(words: &mut Vec<u64>, index: usize) -> Result<(), NoMemory>
    requires { index < 131072 }
    ensures made { OnOk result (index < length words.new.items) }
    ensures there { index < length words.old.items → IsOk result × (words.new ≡ words.old) }
    ensures same { (other : ℕ) → slice_index_or words.new.items other 0 ≡ slice_index_or words.old.items other 0 }
    ensures room { (m : ℕ) → vec_capacity words.old ≤ m → 131072 ≤ m → vec_capacity words.new ≤ m }
{
    if index < words.len() {
        return Ok(());
    }
    reach(words, index, (NAMES_WITH_A_BIT / WORD) as usize, 0)
}

/// Sets a bit of a word.
#[inline]
fn set_bit(words: &mut Vec<u64>, index: usize, bit: u64)
    requires word { index < length words.old.items }
    requires bit { bit < 64 }
    ensures set { bit_at (slice_index_or words.new.items index 0) bit ≡ 1 }
    ensures bits { (other : ℕ) → bit_at (slice_index_or words.old.items index 0) other ≡ 1
        → bit_at (slice_index_or words.new.items index 0) other ≡ 1 }
    ensures words { (other : ℕ) → other ≢ index → slice_index_or words.new.items other 0 ≡ slice_index_or words.old.items other 0 }
    ensures room { vec_capacity words.new ≡ vec_capacity words.old }
{
    words[index] |= 1 << bit;
}
