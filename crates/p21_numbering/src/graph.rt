//! The graph of instances, and the ranks of its nodes.
ghost use Rattle.std.specs.Prelude.{◌≡◌, ◌<◌, ℕ, length, map, IfOk};
ghost use Rattle.p21_spec_file.specs.File.{FileMeaning};
ghost use Rattle.p21_spec_numbering.specs.Fresh.{final_rank};
ghost use Rattle.p21_spec_numbering.specs.Graph.{Graph};
ghost use Rattle.p21_spec_numbering.specs.Laws.{ranking_of};
ghost use Rattle.p21_spec_numbering.specs.Renamed.{IsWhole};
ghost use Rattle.p21_spec_schema.specs.Schema.{Schema as SchemaOf};
ghost use Rattle.p21_numbering.specs.Arrays.{rank_at};
ghost use Rattle.p21_numbering.specs.Nodes.{HaveRanks, IsGraph, Node as NodeOf, held_nodes};
ghost use Rattle.p21_numbering.specs.NodesOf.{AreNodesOf};
ghost use Rattle.p21_numbering.specs.Rows.{lent_rows};

use crate::adjacency::Adjacency;
use crate::edges::{edges, turned};
use crate::ending::final_ranks;
use crate::rows::ranks_of_rows;
use crate::uses::PlacedUse;
use std::alloc::{AllocError, Global};

/// An instance: its name, what it says without names, and where it refers to others.
#[derive(Drop)]
pub struct Node {
    pub name: u64,
    pub label: Vec<u64>,
    pub uses: Vec<PlacedUse>,
}

/// The rank of each node, where names and orders don't count.
///
/// # Errors
///
/// Where memory runs out.
pub fn ranks(alloc: Global, nodes: &[Node]) -> Result<Vec<usize>, AllocError>
    ensures size { IfOk result (λ ranks. length ranks.items ≡ length nodes.now) }
    ensures within { IfOk result (λ ranks. (k : ℕ) → k < length ranks.items → rank_at ranks.items k < length ranks.items) }
    ensures ranking { IfOk result (λ ranks. (s : SchemaOf) (m : FileMeaning) → IsWhole m → AreNodesOf s m (held_nodes nodes.now)
        → HaveRanks (ranking_of s m) (held_nodes nodes.now) ranks.items) }
    ensures ranks { IfOk result (λ ranks. (g : Graph) → IsGraph g (held_nodes nodes.now)
        → HaveRanks (final_rank g) (held_nodes nodes.now) ranks.items) }
{
    let labels = labels(alloc, nodes)?;
    let labelled = ranks_of_rows(alloc, &labels)?;
    let edges = edges(alloc, nodes)?;
    let turned = turned(alloc, &edges)?;
    let uses = Adjacency::new(alloc, nodes.len(), &edges)?;
    let users = Adjacency::new(alloc, nodes.len(), &turned)?;
    // Their room is wanted for what follows.
    drop(labels);
    drop(edges);
    drop(turned);
    final_ranks(alloc, &uses, &users, labelled)
}

/// The labels of nodes.
fn labels(alloc: Global, nodes: &[Node]) -> Result<Vec<&[u64]>, AllocError>
    ensures { IfOk result (λ labels. lent_rows labels.items ≡ map (λ (n : NodeOf). n.label) (held_nodes nodes.now)) }
{
    let mut labels = Vec::with_capacity(alloc, nodes.len())?;
    for node in nodes {
        let node: &Node = node;
        labels.push(node.label.as_slice())?;
    }
    Ok(labels)
}
