//! What is known of the instances of a file by their names.
ghost use Rattle.std.specs.Prelude.{◌≡◌, ◌<◌, ℕ, length, IfOk};
ghost use Rattle.p21_numbering.specs.Arrays.{rank_at};
ghost use Rattle.p21_numbering.specs.NewNames.{NamesGet};
ghost use Rattle.p21_numbering.specs.Largest.{AreSizes};
ghost use Rattle.p21_numbering.specs.Nodes.{held_nodes, names};
ghost use Rattle.p21_numbering.specs.Standing.{is_shared, many, standing_of};

use crate::graph::Node;
use crate::parts::sizes;
use crate::renamed_text::new_name;
use p21_values::Name;
use std::alloc::{AllocError, Global};
use std::collections::BTreeMap;

/// The rank of each name, and how many instances have each rank.
#[derive(Drop)]
pub struct Standings {
    pub ranks: BTreeMap<u64, u64>,
    pub sizes: Vec<usize>,
}

impl Standings {
    /// Those of nodes with these ranks.
    pub fn new(alloc: Global, nodes: &[Node], ranks: &[usize]) -> Result<Standings, AllocError>
        requires size { length ranks.now ≡ length nodes.now }
        requires within { (k : ℕ) → k < length ranks.now → rank_at ranks.now k < length ranks.now }
        ensures ranks { IfOk result (λ standings. NamesGet standings.ranks (names (held_nodes nodes.now)) ranks.now) }
        ensures sizes { IfOk result (λ standings. AreSizes (length ranks.now) (length ranks.now) ranks.now standings.sizes.items) }
    {
        let sizes = sizes(alloc, ranks)?;
        let ranks = ranks_by_name(alloc, nodes, ranks)?;
        Ok(Standings { ranks, sizes })
    }

    /// The rank of a name.
    pub fn rank(&self, name: u64) -> u64
        ensures { result ≡ (standing_of self.now).rank name }
    {
        new_name(&self.ranks, Name(name)).0
    }

    /// How many instances have a rank.
    pub fn size(&self, rank: u64) -> usize
        ensures { result ≡ (standing_of self.now).size rank }
    {
        match self.sizes.get(rank as usize) {
            Some(size) => *size,
            None => 0,
        }
    }

    /// How many instances have the rank of a name.
    pub fn many(&self, name: u64) -> usize
        ensures { result ≡ many (standing_of self.now) name }
    {
        self.size(self.rank(name))
    }

    /// Whether another instance has the rank of this one.
    pub fn is_shared(&self, name: u64) -> bool
        ensures { result ≡ is_shared (standing_of self.now) name }
    {
        self.many(name) > 1
    }
}

/// The rank of each name.
fn ranks_by_name(
    alloc: Global,
    nodes: &[Node],
    ranks: &[usize],
) -> Result<BTreeMap<u64, u64>, AllocError>
    requires { length ranks.now ≡ length nodes.now }
    ensures { IfOk result (λ by_name. NamesGet by_name (names (held_nodes nodes.now)) ranks.now) }
{
    let mut by_name = BTreeMap::new(alloc);
    for k in 0..nodes.len() {
        by_name.insert(nodes[k].name, ranks[k] as u64)?;
    }
    Ok(by_name)
}
