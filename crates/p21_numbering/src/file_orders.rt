//! The order of the instances of a file.
ghost use Rattle.std.specs.List.{AllByRecursion as Each};
ghost use Rattle.std.specs.Prelude.{◌≡◌, ◌<◌, ℕ, List, length, IfOk};
ghost use Rattle.p21_spec_file.specs.File.{FileMeaning, Reads};
ghost use Rattle.p21_spec_numbering.specs.Laws.{ranking_of};
ghost use Rattle.p21_numbering.specs.Instances.{AreInstancesOf, Instance as InstanceOf, file_instances, instance_at, names_of};
ghost use Rattle.p21_numbering.specs.Nodes.{held_nodes, names, node_at};
ghost use Rattle.p21_numbering.specs.NodesOf.{HasKnownParts, IsNodeFor};
ghost use Rattle.p21_numbering.specs.Ordering.{Orders};
ghost use Rattle.p21_numbering.specs.Ranked.{held_instances, ranked_at};
ghost use Rattle.p21_numbering.specs.RankedBy.{IsRankedBy};
ghost use Rattle.p21_numbering.specs.Standing.{standing_of};

use crate::graph::{Node, ranks};
use crate::instances::Instance;
use crate::labels::node;
use crate::orders::{Unordered, order};
use crate::ranked::{RankedInstance, ranked};
use crate::standings::Standings;
use p21_schema::Schema;
use p21_values::NoMemory;
use std::alloc::Global;

/// The names of the instances of a file in the order of the numbers that the model gives them, from 1 on: by rank, and in each
/// rank by the copies, which are counted in one sequence.
///
/// # Errors
///
/// `Alike`, with two names that the model doesn't tell apart, where it isn't decided; `NoMemory`.
pub fn file_order(
    alloc: Global,
    schema: &Schema,
    instances: &[Instance<'_>],
) -> Result<Vec<u64>, Unordered>
    requires { Each (λ (i : InstanceOf). HasKnownParts schema.now i.typed) (file_instances instances.now) }
    ensures { (bytes : List ℕ) (m : FileMeaning) → Reads schema.now bytes m → AreInstancesOf m (file_instances instances.now)
        → Orders (ranking_of schema.now) m result }
{
    schema.well_formed();
    let nodes = nodes(alloc, schema, instances)?;
    let ranks = ranks(alloc, &nodes)?;
    let standings = Standings::new(alloc, &nodes, &ranks)?;
    // Their room is wanted for what follows.
    drop(nodes);
    drop(ranks);
    let ranked = ranked_instances(alloc, schema, instances, &standings)?;
    order(alloc, &ranked)
}

/// The node of each instance.
fn nodes(alloc: Global, schema: &Schema, instances: &[Instance<'_>]) -> Result<Vec<Node>, NoMemory>
    requires { Each (λ (i : InstanceOf). HasKnownParts schema.now i.typed) (file_instances instances.now) }
    ensures size { IfOk result (λ nodes. length nodes.items ≡ length instances.now) }
    ensures names { IfOk result (λ nodes. names (held_nodes nodes.items) ≡ names_of (file_instances instances.now)) }
    ensures each { IfOk result (λ nodes. (k : ℕ) → k < length instances.now
        → IsNodeFor schema.now (instance_at (file_instances instances.now) k).name (instance_at (file_instances instances.now) k).typed
        (instance_at (file_instances instances.now) k).heading (node_at (held_nodes nodes.items) k)) }
{
    let mut nodes = Vec::with_capacity(alloc, instances.len())?;
    for k in 0..instances.len() {
        let one = &instances[k];
        let made = node(alloc, schema, one.name, one.heading, &one.typed)?;
        nodes.push(made)?;
    }
    Ok(nodes)
}

/// Each instance by its rank.
fn ranked_instances(
    alloc: Global,
    schema: &Schema,
    instances: &[Instance<'_>],
    standings: &Standings,
) -> Result<Vec<RankedInstance>, NoMemory>
    requires { Each (λ (i : InstanceOf). HasKnownParts schema.now i.typed) (file_instances instances.now) }
    ensures size { IfOk result (λ all. length all.items ≡ length instances.now) }
    ensures each { IfOk result (λ all. (k : ℕ) → k < length instances.now
        → IsRankedBy schema.now (standing_of standings.now) (instance_at (file_instances instances.now) k)
        (ranked_at (held_instances all.items) k)) }
{
    let mut all = Vec::with_capacity(alloc, instances.len())?;
    for k in 0..instances.len() {
        let made = ranked(alloc, schema, &instances[k], standings)?;
        all.push(made)?;
    }
    Ok(all)
}
