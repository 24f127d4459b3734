//! The uses of nodes by one another, by the numbers of nodes and places.
ghost use Rattle.std.specs.BTreeMap.{BTreeMap as MapOf};
ghost use Rattle.std.specs.List.{flat_map, range_with_len};
ghost use Rattle.std.specs.Prelude.{◌≡◌, ◌↔◌, ◌++◌, ◌<◌, length, map, Contains, IfOk};
ghost use Rattle.p21_spec_file.specs.CanonicalRecord.{AreTextsRising};
ghost use Rattle.p21_spec_numbering.specs.Uses.{Use as UseOf};
ghost use Rattle.p21_numbering.specs.Arrays.{Edge as EdgeOf};
ghost use Rattle.p21_numbering.specs.Edges.{AreEdges, AreOrdered, FindsNames, edge_of, edges_from, own_places, places_of, turned_edge};
ghost use Rattle.p21_numbering.specs.Nodes.{held_nodes};
ghost use Rattle.p21_numbering.specs.PlacedUses.{held_uses};
ghost use Rattle.p21_numbering.specs.Rows.{lent_rows};

use crate::adjacency::Edge;
use crate::graph::Node;
use crate::rows::{rank_in, sorted_rows};
use crate::uses::PlacedUse;
use std::alloc::{AllocError, Global};
use std::collections::BTreeMap;

/// The uses of all nodes by one another, each once, in order.
pub fn edges(alloc: Global, nodes: &[Node]) -> Result<Vec<Edge>, AllocError>
    ensures ordered { IfOk result (λ edges. AreOrdered edges.items) }
    ensures edges { IfOk result (λ edges. AreEdges (held_nodes nodes.now) edges.items) }
{
    let positions = positions(alloc, nodes)?;
    let places = places(alloc, nodes)?;
    let sorted = sorted_rows(alloc, &places)?;
    let edges = all_edges(alloc, nodes, &positions, &sorted)?;
    Ok(in_order(edges))
}

/// Where each name stands among the nodes.
fn positions(alloc: Global, nodes: &[Node]) -> Result<BTreeMap<u64, usize>, AllocError>
    ensures { IfOk result (λ positions. FindsNames positions (held_nodes nodes.now)) }
{
    let mut positions = BTreeMap::new(alloc);
    for k in 0..nodes.len() {
        positions.insert(nodes[k].name, k)?;
    }
    Ok(positions)
}

/// The places of all uses.
fn places(alloc: Global, nodes: &[Node]) -> Result<Vec<&[u64]>, AllocError>
    ensures { IfOk result (λ places. lent_rows places.items ≡ places_of (held_nodes nodes.now)) }
{
    let mut places = Vec::new(alloc);
    for node in nodes {
        let node: &Node = node;
        places = with_places(places, &node.uses)?;
    }
    Ok(places)
}

/// The places, and behind them those of more uses.
fn with_places<'a>(
    places: Vec<&'a [u64]>,
    uses: &'a [PlacedUse],
) -> Result<Vec<&'a [u64]>, AllocError>
    ensures { IfOk result (λ more. lent_rows more.items ≡ lent_rows places.entry.items ++ map (λ (u : UseOf). u.0) (held_uses uses.now)) }
{
    let mut more = places;
    for one in uses {
        let one: &PlacedUse = one;
        more.push(one.place.as_slice())?;
    }
    Ok(more)
}

/// The uses of all nodes.
fn all_edges(
    alloc: Global,
    nodes: &[Node],
    positions: &BTreeMap<u64, usize>,
    places: &[&[u64]],
) -> Result<Vec<Edge>, AllocError>
    requires { AreTextsRising (lent_rows places.now) }
    ensures { IfOk result (λ edges. edges.items ≡ flat_map (edges_from positions.now (lent_rows places.now) (held_nodes nodes.now))
        (range_with_len 0 (length nodes.now))) }
{
    let mut edges = Vec::new(alloc);
    for k in 0..nodes.len() {
        edges = with_edges(edges, k, &nodes[k].uses, positions, places)?;
    }
    Ok(edges)
}

/// The edges, and behind them those of one more node.
fn with_edges(
    edges: Vec<Edge>,
    node: usize,
    uses: &[PlacedUse],
    positions: &BTreeMap<u64, usize>,
    places: &[&[u64]],
) -> Result<Vec<Edge>, AllocError>
    requires { AreTextsRising (lent_rows places.now) }
    ensures { IfOk result (λ more. more.items ≡ edges.items
        ++ flat_map (edge_of positions.now (lent_rows places.now) node) (held_uses uses.now)) }
{
    let mut more = edges;
    for one in uses {
        let one: &PlacedUse = one;
        if let Some(other) = positions.get(&one.target) {
            more.push((node, *other, rank_in(places, &one.place) as u64))?;
        }
    }
    Ok(more)
}

/// The edges from the other node, in order.
pub fn turned(alloc: Global, edges: &[Edge]) -> Result<Vec<Edge>, AllocError>
    ensures ordered { IfOk result (λ turned. AreOrdered turned.items) }
    ensures members { IfOk result (λ turned. (e : EdgeOf) → Contains turned.items e ↔ Contains (map turned_edge edges.now) e) }
{
    let mut turned = Vec::with_capacity(alloc, edges.len())?;
    for edge in edges {
        let (node, other, place) = *edge;
        turned.push((other, node, place))?;
    }
    Ok(in_order(turned))
}

/// The edges in order, each once.
fn in_order(edges: Vec<Edge>) -> Vec<Edge>
    ensures ordered { AreOrdered result.items }
    ensures members { (e : EdgeOf) → Contains result.items e ↔ Contains edges.items e }
{
    let mut ordered = edges;
    ordered.sort_unstable();
    ordered.dedup();
    ordered
}
