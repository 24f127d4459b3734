//! The uses of nodes by one another, seen from one of the two.
ghost use Rattle.std.specs.List.Sorted.{IsNonDecreasingBy};
ghost use Rattle.std.specs.List.{filter};
ghost use Rattle.std.specs.Prelude.{◌≡◌, ◌<◌, ◌≤◌, ◌+◌, ℕ, length, map, nat_eq, Contains, IfOk};
ghost use Rattle.p21_numbering.specs.Arrays.{AreUses, Edge as EdgeOf, IsStart, other_end, rank_at, uses_of};

use std::alloc::{AllocError, Global};

/// A node, the other node, and the number of the place. Numbers of places are ordered as the places are.
pub type Edge = (usize, usize, u64);

/// The other node, and the number of the place.
pub type Use = (usize, u64);

/// The uses of each node, one behind the other, and where those of each begin; at the end stands where they end.
#[derive(Drop)]
pub struct Adjacency {
    pub starts: Vec<usize>,
    pub uses: Vec<Use>,
}

impl Adjacency {
    /// The uses of so many nodes, from all of them in the order of the nodes.
    ///
    /// # Errors
    ///
    /// Where memory runs out.
    pub fn new(alloc: Global, count: usize, edges: &[Edge]) -> Result<Adjacency, AllocError>
        requires rises { IsNonDecreasingBy (λ (e : EdgeOf). e.0) edges.now }
        requires within { (e : EdgeOf) → Contains edges.now e → e.1 < count }
        ensures are { IfOk result (λ all. AreUses count all) }
        ensures uses { IfOk result (λ all. all.uses.items ≡ map other_end edges.now) }
        ensures each { IfOk result (λ all. (n : ℕ) → n < count
            → uses_of all n ≡ map other_end (filter (λ (e : EdgeOf). nat_eq e.0 n) edges.now)) }
    {
        let starts = starts(alloc, count, edges)?;
        let uses = other_ends(alloc, edges)?;
        Ok(Adjacency { starts, uses })
    }

    /// The uses of a node.
    pub fn of(&self, node: usize, count: usize) -> &[Use]
        requires are { AreUses count self.now }
        requires node { node < count }
        ensures { result.now ≡ uses_of self.now node }
    {
        let start = self.starts[node];
        let end = self.starts[node + 1];
        &self.uses[start..end]
    }
}

/// Where the uses of each node begin, and where the last ones end.
fn starts(alloc: Global, count: usize, edges: &[Edge]) -> Result<Vec<usize>, AllocError>
    requires rises { IsNonDecreasingBy (λ (e : EdgeOf). e.0) edges.now }
    ensures long { IfOk result (λ starts. length starts.items ≡ count + 1) }
    ensures each { IfOk result (λ starts. (n : ℕ) → n ≤ count → IsStart edges.now n (rank_at starts.items n)) }
{
    let mut starts = Vec::new(alloc);
    starts.push(0)?;
    for n in 0..count {
        starts.push(edges.partition_point(|edge| edge.0 <= n))?;
    }
    Ok(starts)
}

/// The other nodes with the places.
fn other_ends(alloc: Global, edges: &[Edge]) -> Result<Vec<Use>, AllocError>
    ensures { IfOk result (λ uses. uses.items ≡ map other_end edges.now) }
{
    let mut uses = Vec::with_capacity(alloc, edges.len())?;
    for edge in edges {
        let (_, other, place) = *edge;
        uses.push((other, place))?;
    }
    Ok(uses)
}
