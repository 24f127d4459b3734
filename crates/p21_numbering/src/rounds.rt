//! One round of ranks.
ghost use Rattle.std.specs.Prelude.{◌≡◌, ◌<◌, ℕ, List, length, IfOk};
ghost use Rattle.p21_spec_numbering.specs.Fresh.{tell};
ghost use Rattle.p21_spec_numbering.specs.Graph.{Graph};
ghost use Rattle.p21_numbering.specs.Arrays.{AgreeBelow, AreRanks, AreUses, Represents, ranks_of};

use crate::adjacency::Adjacency;
use crate::key_rows::keys;
use crate::parts::{fresh_nodes, sizes};
use crate::rows::{lent_keys, sorted_rows};
use crate::told_ranks::told_ranks;
use std::alloc::{AllocError, Global};

/// The rank of each node, and whether it is fresh: whether its uses may tell others apart that were not told apart before.
#[derive(Drop)]
pub struct Ranks {
    pub rank: Vec<usize>,
    pub fresh: Vec<bool>,
}

/// The ranks by the uses of fresh nodes.
///
/// # Errors
///
/// Where memory runs out.
pub fn next_ranks(
    alloc: Global,
    uses: &Adjacency,
    users: &Adjacency,
    rank: &[usize],
    fresh: &[bool],
) -> Result<Ranks, AllocError>
    requires ranks { AreRanks (length rank.now) rank.now fresh.now }
    requires uses { AreUses (length rank.now) uses.now }
    requires users { AreUses (length rank.now) users.now }
    ensures ranks { IfOk result (λ next. AreRanks (length rank.now) next.rank.items next.fresh.items) }
    ensures told { IfOk result (λ next. (g : Graph) (place : ℕ → List ℕ) → Represents g place (length rank.now) uses.now users.now
        → AgreeBelow (length rank.now) (ranks_of next.rank.items next.fresh.items) (tell g (ranks_of rank.now fresh.now))) }
{
    let sizes = sizes(alloc, rank)?;
    let keys = keys(alloc, uses, users, rank, fresh, &sizes)?;
    let rows = lent_keys(alloc, &keys)?;
    let sorted = sorted_rows(alloc, &rows)?;
    let parts = told_ranks(alloc, rank, &sizes, &keys, &sorted)?;
    let next = fresh_nodes(alloc, rank, &parts)?;
    Ok(Ranks {
        rank: parts,
        fresh: next,
    })
}
