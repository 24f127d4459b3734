//! Ranks behind a round, by the keys that there are.
ghost use Rattle.std.specs.Prelude.{◌≡◌, ◌<◌, ◌≤◌, ◌+◌, ◌^◌, ◌∷◌, [], ℕ, length, slice_index_or, IfOk};
ghost use Rattle.p21_spec_file.specs.CanonicalRecord.{AreTextsRising};
ghost use Rattle.p21_numbering.specs.Arrays.{rank_at};
ghost use Rattle.p21_numbering.specs.Keyed.{AreTellable, told_rank as rank_told};
ghost use Rattle.p21_numbering.specs.Rows.{held_rows, lent_rows, rank_among};

use crate::rows::rank_in;
use std::alloc::{AllocError, Global};

/// The rank of each node behind a round, by its rank before, how many had each rank, its key, and all keys, which rise.
///
/// # Errors
///
/// Where memory runs out.
pub fn told_ranks(
    alloc: Global,
    rank: &[usize],
    sizes: &[usize],
    keys: &[Vec<u64>],
    sorted: &[&[u64]],
) -> Result<Vec<usize>, AllocError>
    requires { AreTellable rank.now sizes.now (held_rows keys.now) (lent_rows sorted.now) }
    ensures size { IfOk result (λ ranks. length ranks.items ≡ length rank.now) }
    ensures each { IfOk result (λ ranks. (n : ℕ) → n < length rank.now
        → rank_at ranks.items n ≡ rank_told (lent_rows sorted.now) (rank_at rank.now n) (rank_at sizes.now (rank_at rank.now n))
        (slice_index_or (held_rows keys.now) n [])) }
{
    let mut ranks = Vec::with_capacity(alloc, rank.len())?;
    for n in 0..rank.len() {
        let own = rank[n];
        let many = sizes[own];
        ranks.push(told_rank(own, many, &keys[n], sorted))?;
    }
    Ok(ranks)
}

/// The rank behind a round of a node of this rank, which so many have: without a key it stays, and those with keys stand behind those
/// without.
fn told_rank(rank: usize, many: usize, key: &[u64], sorted: &[&[u64]]) -> usize
    requires rises { AreTextsRising (lent_rows sorted.now) }
    requires next { rank_among (lent_rows sorted.now) ((rank + 1) ∷ []) ≤ rank + many }
    requires small { rank + many < 2 ^ 64 }
    requires some { 1 ≤ many }
    requires told { rank_told (lent_rows sorted.now) rank many key.now < 2 ^ 64 }
    ensures { result ≡ rank_told (lent_rows sorted.now) rank many key.now }
{
    if key.is_empty() {
        return rank;
    }
    let lower = rank_in(sorted, &[rank as u64 + 1]);
    let below = rank_in(sorted, key);
    rank + many - lower + below
}
