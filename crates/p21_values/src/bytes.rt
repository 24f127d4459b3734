//! Bytes, which lie in the value itself where they are few.
//!
//! The digits of a number are kept as bytes '0' to '9'. A canonical spelling then costs one copy, reading and writing
//! are linear, and no big-number arithmetic is needed. A shorter form can come later behind the same contract.
//!
//! Up to 24 bytes of a number, a word or a binary lie in place. Most then need no allocation: a double has at most 17
//! digits. A list takes 24 bytes itself, so the bytes in place cost only the variant and the count. The count has four
//! bytes to keep the others aligned: copies of 8 or 16 bytes that straddle two earlier stores cost more than an
//! allocation did. `smallvec` with room for 16 was no faster than a list.
ghost use Rattle.std.specs.Prelude.{◌≡◌, ◌≤◌, [], ◌++◌, length, take, IfOk};

use std::alloc::{AllocError, Global};
use std::fmt;
use std::marker::Model;
use std::ops::DerefSlice;

/// How many bytes lie in place: as many as a list takes.
const BYTES_IN_PLACE: usize = 24;

#[derive(Drop)]
enum ByteStorage {
    // Their count, in so many bytes that the others are aligned: then they are copied as words.
    Short(u32, [u8; BYTES_IN_PLACE]),
    Long(Vec<u8>),
}

/// Bytes that don't change.
#[derive(Drop)]
pub(crate) struct Bytes {
    kept: ByteStorage,
}

impl Model for Bytes {
    ghost use Rattle.std.specs.Prelude.{ℕ, List};
    ghost use Rattle.p21_values.specs.ByteStorage.{FitsStorage, stored_bytes};

    ghost Value = { List ℕ };

    ghost view = { λ bytes. stored_bytes bytes.kept };

    ghost invariant = { λ bytes. FitsStorage bytes.kept };
}

impl Bytes {
    pub(crate) fn empty() -> Bytes
        ensures { result ≡ [] }
    {
        Bytes {
            kept: ByteStorage::Short(0, [0; BYTES_IN_PLACE]),
        }
    }

    pub(crate) fn of(alloc: Global, bytes: &[u8]) -> Result<Bytes, AllocError>
        ensures { IfOk result (λ kept. kept ≡ bytes.now) }
    {
        Bytes::of_both(alloc, bytes, &[])
    }

    /// The bytes of both lists, one behind the other.
    #[tactic(auto, using(crate::proofs::ByteStorageLemmas::both_copied))]
    pub(crate) fn of_both(alloc: Global, front: &[u8], behind: &[u8]) -> Result<Bytes, AllocError>
        ensures { IfOk result (λ kept. kept ≡ front.now ++ behind.now) }
    {
        let count = front.len() + behind.len();
        if count > BYTES_IN_PLACE {
            return long(alloc, front, behind);
        }
        let mut bytes = [0; BYTES_IN_PLACE];
        bytes[..front.len()].copy_from_slice(front);
        bytes[front.len()..count].copy_from_slice(behind);
        Ok(Bytes {
            kept: ByteStorage::Short(count as u32, bytes),
        })
    }

    /// So many bytes at the front. Where there are more, a whole place is copied: that takes no loop.
    #[inline(always)]
    pub(crate) fn front(alloc: Global, bytes: &[u8], count: usize) -> Result<Bytes, AllocError>
        requires { count ≤ length bytes.now }
        ensures { IfOk result (λ kept. kept ≡ take count bytes.now) }
    {
        if count > BYTES_IN_PLACE || bytes.len() < BYTES_IN_PLACE {
            return Bytes::of(alloc, &bytes[..count]);
        }
        let mut place = [0; BYTES_IN_PLACE];
        place.copy_from_slice(&bytes[..BYTES_IN_PLACE]);
        Ok(Bytes {
            kept: ByteStorage::Short(count as u32, place),
        })
    }

    pub(crate) fn len(&self) -> usize
        ensures { result ≡ length self.now }
    {
        self[..].len()
    }
}

#[cold]
#[inline(never)]
fn long(alloc: Global, front: &[u8], behind: &[u8]) -> Result<Bytes, AllocError>
    ensures { IfOk result (λ kept. kept ≡ front.now ++ behind.now) }
{
    let mut bytes = Vec::with_capacity(alloc, front.len() + behind.len())?;
    bytes.extend_from_slice(front)?;
    bytes.extend_from_slice(behind)?;
    Ok(Bytes {
        kept: ByteStorage::Long(bytes),
    })
}

impl DerefSlice for Bytes {
    ghost use Rattle.std.specs.Prelude.{◌≡◌};

    type Elem = u8;

    ghost deref_gives = { λ kept bytes. bytes ≡ kept };

    fn deref(&self) -> &[u8] {
        match &self.kept {
            ByteStorage::Short(count, bytes) => &bytes[..*count as usize],
            ByteStorage::Long(bytes) => bytes.as_slice(),
        }
    }
}

impl fmt::Debug for Bytes {
    fn fmt<W: fmt::Write>(&self, f: &mut fmt::Formatter<W>) -> fmt::Result {
        f.debug_list().entries(&self[..]).finish()
    }
}

impl PartialEq for Bytes {
    ghost use Rattle.std.proofs.Common.{rules};
    ghost use Rattle.std.specs.Cmp.Rules.{comparing};
    ghost use Rattle.std.specs.Str.{bytes_eq};

    ghost eq = { bytes_eq };

    ghost laws = { Prim.search (comparing, rules) };

    fn eq(&self, other: &Bytes) -> bool {
        self[..] == other[..]
    }
}
