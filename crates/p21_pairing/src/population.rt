//! The nodes of both files as one population.
ghost use Rattle.std.specs.List.{AllByRecursion as Each};
ghost use Rattle.std.specs.Prelude.{◌≡◌, ◌<◌, ◌+◌, ◌^◌, length, map, IfOk};
ghost use Rattle.p21_spec_numbering.proofs.Uses.{moved_use};
ghost use Rattle.p21_numbering.specs.Instances.{Instance as InstanceOf, file_instances, names_of};
ghost use Rattle.p21_numbering.specs.NewNames.{new_name};
ghost use Rattle.p21_numbering.specs.NodesOf.{HasKnownParts};
ghost use Rattle.p21_numbering.specs.PlacedUses.{held_uses};
ghost use Rattle.p21_pairing.specs.Population.{AreNodesFrom, ArePositions, BeginWith};

use p21_numbering::{Instance, Node, PlacedUse, node};
use p21_schema::Schema;
use p21_values::NoMemory;
use std::alloc::{AllocError, Global};
use std::collections::BTreeMap;

/// The nodes of the instances of both files, those of the second behind those of the first: their positions are their names.
pub fn joint_nodes(
    alloc: Global,
    schema: &Schema,
    first: &[Instance<'_>],
    second: &[Instance<'_>],
) -> Result<Vec<Node>, NoMemory>
    requires first { Each (λ (i : InstanceOf). HasKnownParts schema.now i.typed) (file_instances first.now) }
    requires second { Each (λ (i : InstanceOf). HasKnownParts schema.now i.typed) (file_instances second.now) }
    ensures size { IfOk result (λ nodes. length nodes.items ≡ length first.now + length second.now) }
    ensures first { IfOk result (λ nodes. AreNodesFrom schema.now first.now 0 nodes.items) }
    ensures second { IfOk result (λ nodes. AreNodesFrom schema.now second.now (length first.now) nodes.items) }
{
    let nodes = with_nodes(alloc, schema, first, Vec::new(alloc))?;
    let all = with_nodes(alloc, schema, second, nodes)?;
    Ok(all)
}

/// The nodes, and behind them those of a file, with their positions for names.
fn with_nodes(
    alloc: Global,
    schema: &Schema,
    instances: &[Instance<'_>],
    nodes: Vec<Node>,
) -> Result<Vec<Node>, NoMemory>
    requires { Each (λ (i : InstanceOf). HasKnownParts schema.now i.typed) (file_instances instances.now) }
    ensures size { IfOk result (λ more. length more.items ≡ length nodes.items + length instances.now) }
    ensures kept { IfOk result (λ more. BeginWith nodes.items more.items) }
    ensures more { IfOk result (λ more. AreNodesFrom schema.now instances.now (length nodes.items) more.items) }
{
    let positions = positions(alloc, instances, nodes.len())?;
    let mut more = nodes;
    for k in 0..instances.len() {
        let one = &instances[k];
        let made = node(alloc, schema, one.name, one.heading, &one.typed)?;
        let moved = moved_node(alloc, made, &positions)?;
        more.push(moved)?;
    }
    Ok(more)
}

/// The position of each name, from this one on.
fn positions(
    alloc: Global,
    instances: &[Instance<'_>],
    start: usize,
) -> Result<BTreeMap<u64, u64>, AllocError>
    requires { start + length instances.now < 2 ^ 64 }
    ensures { IfOk result (λ positions. ArePositions (new_name positions) start (names_of (file_instances instances.now))) }
{
    let mut positions = BTreeMap::new(alloc);
    for k in 0..instances.len() {
        let position = start + k;
        positions.insert(instances[k].name, position as u64)?;
    }
    Ok(positions)
}

/// The node with other names.
fn moved_node(alloc: Global, node: Node, names: &BTreeMap<u64, u64>) -> Result<Node, AllocError>
    ensures name { IfOk result (λ moved. moved.name ≡ new_name names.now node.name) }
    ensures label { IfOk result (λ moved. moved.label.items ≡ node.label.items) }
    ensures uses { IfOk result (λ moved. held_uses moved.uses.items ≡ map (moved_use (new_name names.now)) (held_uses node.uses.items)) }
{
    let Node { name, label, uses } = node;
    let uses = moved_uses(alloc, uses, names)?;
    Ok(Node {
        name: moved_name(names, name),
        label,
        uses,
    })
}

/// The references, to other names.
fn moved_uses(
    alloc: Global,
    uses: Vec<PlacedUse>,
    names: &BTreeMap<u64, u64>,
) -> Result<Vec<PlacedUse>, AllocError>
    ensures { IfOk result (λ moved. held_uses moved.items ≡ map (moved_use (new_name names.now)) (held_uses uses.items)) }
{
    let mut moved = Vec::with_capacity(alloc, uses.len())?;
    let mut left = uses;
    left.reverse();
    while let Some(one) = left.pop() {
        moved.push(moved_one(one, names))?;
    }
    Ok(moved)
}

/// The reference, to another name.
fn moved_one(one: PlacedUse, names: &BTreeMap<u64, u64>) -> PlacedUse
    ensures place { result.place.items ≡ one.place.items }
    ensures target { result.target ≡ new_name names.now one.target }
{
    let PlacedUse { place, target } = one;
    PlacedUse {
        place,
        target: moved_name(names, target),
    }
}

/// The other name; 0 where the map has none.
fn moved_name(names: &BTreeMap<u64, u64>, name: u64) -> u64
    ensures { result ≡ new_name names.now name }
{
    match names.get(&name) {
        Some(new) => *new,
        None => 0,
    }
}
