//! Rounds until no node is fresh.
ghost use Rattle.std.specs.List.{range_with_len};
ghost use Rattle.std.specs.Prelude.{◌≡◌, ◌<◌, ◌≤◌, ℕ, List, length, nat_eq, not, IfOk};
ghost use Rattle.p21_spec_numbering.specs.Fresh.{final_rank};
ghost use Rattle.p21_spec_numbering.specs.Graph.{Graph, how_many, rank_by};
ghost use Rattle.p21_numbering.specs.Arrays.{AreCounted, AreRanksBy, AreUses, Represents, marked, rank_at};

use crate::adjacency::Adjacency;
use crate::rounds::{Ranks, next_ranks};
use std::alloc::{AllocError, Global};

/// The ranks of the nodes once none is fresh, where at first those of the labels stand, and all are fresh.
///
/// # Errors
///
/// Where memory runs out.
pub fn final_ranks(
    alloc: Global,
    uses: &Adjacency,
    users: &Adjacency,
    labelled: Vec<usize>,
) -> Result<Vec<usize>, AllocError>
    requires uses { AreUses (length labelled.items) uses.now }
    requires users { AreUses (length labelled.items) users.now }
    requires within { (n : ℕ) → n < length labelled.items → rank_at labelled.items n < length labelled.items }
    requires counted { AreCounted (length labelled.items) (rank_at labelled.items) }
    ensures size { IfOk result (λ rank. length rank.items ≡ length labelled.items) }
    ensures within { IfOk result (λ rank. (n : ℕ) → n < length labelled.items → rank_at rank.items n < length labelled.items) }
    ensures ended { IfOk result (λ rank. (g : Graph) (place : ℕ → List ℕ) → Represents g place (length labelled.items) uses.now users.now
        → AreRanksBy (rank_by g.label g.nodes) (length labelled.items) labelled.items
        → AreRanksBy (final_rank g) (length labelled.items) rank.items) }
{
    let count = labelled.len();
    let fresh = vec![in alloc; true; count]?;
    let mut ranks = Ranks {
        rank: labelled,
        fresh,
    };
    for round in 0..count {
        if !is_any_fresh(&ranks.fresh) {
            return Ok(ranks.rank);
        }
        ranks = next_ranks(alloc, uses, users, &ranks.rank, &ranks.fresh)?;
    }
    Ok(ranks.rank)
}

/// Whether a node is fresh.
fn is_any_fresh(fresh: &[bool]) -> bool
    ensures { result ≡ not (nat_eq (how_many (marked fresh.now) (range_with_len 0 (length fresh.now))) 0) }
{
    for one in fresh {
        if *one {
            return true;
        }
    }
    false
}
