//! What tells nodes of one rank from one another, as rows of numbers.
ghost use Rattle.std.specs.List.Sorted.{IsPermutation, IsSorted};
ghost use Rattle.std.specs.List.{flat_map};
ghost use Rattle.std.specs.Prelude.{◌≡◌, ◌<◌, ◌++◌, ◌∷◌, ℕ, length, slice_index_or, Contains, IfOk, []};
ghost use Rattle.p21_numbering.specs.Arrays.{AreUses, Use as UseOf, entries_at, entry_cmp, marked, numbers, rank_at, ranks_of, uses_of};
ghost use Rattle.p21_numbering.specs.Keyed.{IsKeyed};
ghost use Rattle.p21_numbering.specs.Rows.{held_rows};

use crate::adjacency::{Adjacency, Use};
use std::alloc::{AllocError, Global};

/// A use of a fresh node (0), or by one (1), the number of its place, and the rank of that node.
type Entry = (u8, u64, usize);

/// The key of each node that a round may tell from others: of those that share their rank, and have uses of fresh nodes or by them.
/// That of every other node is empty.
pub fn keys(
    alloc: Global,
    uses: &Adjacency,
    users: &Adjacency,
    rank: &[usize],
    fresh: &[bool],
    sizes: &[usize],
) -> Result<Vec<Vec<u64>>, AllocError>
    requires long { length fresh.now ≡ length rank.now }
    requires sizes { length sizes.now ≡ length rank.now }
    requires within { (n : ℕ) → n < length rank.now → rank_at rank.now n < length rank.now }
    requires uses { AreUses (length rank.now) uses.now }
    requires users { AreUses (length rank.now) users.now }
    ensures size { IfOk result (λ keys. length keys.items ≡ length rank.now) }
    ensures each { IfOk result (λ keys. (n : ℕ) → n < length rank.now
        → IsKeyed (rank_at rank.now n) (rank_at sizes.now (rank_at rank.now n)) (ranks_of rank.now fresh.now) (uses_of uses.now n)
        (uses_of users.now n) (slice_index_or (held_rows keys.items) n [])) }
{
    let count = rank.len();
    let mut keys = Vec::with_capacity(alloc, count)?;
    for n in 0..count {
        let own = rank[n];
        let many = sizes[own];
        let key = key_among(
            alloc,
            own,
            many,
            uses.of(n, count),
            users.of(n, count),
            rank,
            fresh,
        )?;
        keys.push(key)?;
    }
    Ok(keys)
}

/// The key of a node of this rank, which so many have; an empty one, where it can't be told from others.
fn key_among(
    alloc: Global,
    own: usize,
    many: usize,
    uses: &[Use],
    users: &[Use],
    rank: &[usize],
    fresh: &[bool],
) -> Result<Vec<u64>, AllocError>
    requires long { length fresh.now ≡ length rank.now }
    requires uses { (u : UseOf) → Contains uses.now u → u.0 < length rank.now }
    requires users { (u : UseOf) → Contains users.now u → u.0 < length rank.now }
    ensures { IfOk result (λ key. IsKeyed own many (ranks_of rank.now fresh.now) uses.now users.now key.items) }
{
    if many < 2 {
        return Ok(Vec::new(alloc));
    }
    let entries = sorted_entries(alloc, uses, users, rank, fresh)?;
    if entries.is_empty() {
        return Ok(Vec::new(alloc));
    }
    key(alloc, own, &entries)
}

/// The key of a node of this rank.
fn key(alloc: Global, rank: usize, entries: &[Entry]) -> Result<Vec<u64>, AllocError>
    ensures { IfOk result (λ key. key.items ≡ rank ∷ flat_map numbers entries.now) }
{
    let room = entries.len().saturating_mul(3).saturating_add(1);
    let mut key = Vec::with_capacity(alloc, room)?;
    key.push(rank as u64)?;
    for entry in entries {
        let (side, place, other) = *entry;
        key.push(u64::from(side))?;
        key.push(place)?;
        key.push(other as u64)?;
    }
    Ok(key)
}

/// The uses of fresh nodes, and those by fresh nodes, in order.
fn sorted_entries(
    alloc: Global,
    uses: &[Use],
    users: &[Use],
    rank: &[usize],
    fresh: &[bool],
) -> Result<Vec<Entry>, AllocError>
    requires long { length fresh.now ≡ length rank.now }
    requires uses { (u : UseOf) → Contains uses.now u → u.0 < length rank.now }
    requires users { (u : UseOf) → Contains users.now u → u.0 < length rank.now }
    ensures permutation { IfOk result (λ entries. IsPermutation
        (entries_at 0 (marked fresh.now) (rank_at rank.now) uses.now ++ entries_at 1 (marked fresh.now) (rank_at rank.now) users.now)
        entries.items) }
    ensures rises { IfOk result (λ entries. IsSorted entry_cmp entries.items) }
{
    let onto = with_entries(Vec::new(alloc), 0, uses, rank, fresh)?;
    let mut entries = with_entries(onto, 1, users, rank, fresh)?;
    entries.sort_unstable();
    Ok(entries)
}

/// The entries, and behind them those of uses whose other node is fresh.
fn with_entries(
    entries: Vec<Entry>,
    side: u8,
    uses: &[Use],
    rank: &[usize],
    fresh: &[bool],
) -> Result<Vec<Entry>, AllocError>
    requires long { length fresh.now ≡ length rank.now }
    requires uses { (u : UseOf) → Contains uses.now u → u.0 < length rank.now }
    ensures { IfOk result (λ more. more.items ≡ entries.items ++ entries_at side (marked fresh.now) (rank_at rank.now) uses.now) }
{
    let mut more = entries;
    for one in uses {
        let (node, place) = *one;
        if fresh[node] {
            more.push((side, place, rank[node]))?;
        }
    }
    Ok(more)
}
