//! The partners of instances.
ghost use Rattle.std.specs.List.{AllByRecursion as Each};
ghost use Rattle.std.specs.Prelude.{◌≡◌, ◌<◌, ◌+◌, ℕ, Some, length, IfOk};
ghost use Rattle.p21_numbering.specs.Instances.{Instance as InstanceOf, file_instances};
ghost use Rattle.p21_numbering.specs.NodesOf.{HasKnownParts};
ghost use Rattle.p21_pairing.specs.Clauses.{AreWithin, Matched};
ghost use Rattle.p21_pairing.specs.Pairs.{partner_at};
ghost use Rattle.p21_pairing.specs.Partners.{LeadToPairing};

use crate::alone::pair_alone;
use crate::around::pair_around;
use crate::kinds::kinds;
use crate::pairs::{Pairs, no_pairs};
use crate::population::joint_nodes;
use p21_numbering::{Instance, Node, ranks};
use p21_schema::Schema;
use p21_values::NoMemory;
use std::alloc::{AllocError, Global};

/// Where more pairs than this were chosen and differ, a list of what differs by them says more than anybody reads, and other pairs may
/// tell less: a caller had better say that nothing is decided.
pub const MOST_CHOICES: usize = 1000;

/// Partners of the instances of two files.
#[derive(Drop)]
pub struct FoundPartners {
    /// For each instance of the first file the position of its partner in the second one, if it has one.
    pub partners: Vec<Option<usize>>,
    /// How many pairs differ that were made by the order of the files alone, among several that are alike in what was looked at: pairs
    /// of copies, which say the same with partners around them, don't count.
    pub choices: usize,
}

/// The partners of the instances of two files: what is alone in its rank among both, then what is alone in what it says and what is
/// around it, and at last what is left of each set of entities, in order.
///
/// # Errors
///
/// `NoMemory`.
pub fn partners(
    alloc: Global,
    schema: &Schema,
    first: &[Instance<'_>],
    second: &[Instance<'_>],
) -> Result<FoundPartners, NoMemory>
    requires first { Each (λ (i : InstanceOf). HasKnownParts schema.now i.typed) (file_instances first.now) }
    requires second { Each (λ (i : InstanceOf). HasKnownParts schema.now i.typed) (file_instances second.now) }
    ensures size { IfOk result (λ found. length found.partners.items ≡ length first.now) }
    ensures within { IfOk result (λ found. (i j : ℕ) → partner_at found.partners.items i ≡ Some j → j < length second.now) }
    ensures pairing { IfOk result (λ found. LeadToPairing schema.now (file_instances first.now) (file_instances second.now)
        found.partners.items) }
{
    schema.well_formed();
    let nodes = joint_nodes(alloc, schema, first, second)?;
    let ranks = ranks(alloc, &nodes)?;
    let kinds = kinds(alloc, first, second)?;
    let found = matched(alloc, &nodes, &ranks, &kinds, first.len(), second.len())?;
    let Pairs {
        partners,
        owners: _,
        chosen,
    } = found;
    Ok(FoundPartners {
        partners,
        choices: chosen.len(),
    })
}

/// The pairs of so many instances in each file, by their nodes, their ranks and their kinds.
fn matched(
    alloc: Global,
    nodes: &[Node],
    ranks: &[usize],
    kinds: &[usize],
    first: usize,
    second: usize,
) -> Result<Pairs, AllocError>
    requires nodes { length nodes.now ≡ first + second }
    requires ranks { length ranks.now ≡ first + second }
    requires kinds { length kinds.now ≡ first + second }
    requires ranks_within { AreWithin ranks.now }
    requires kinds_within { AreWithin kinds.now }
    ensures { IfOk result (λ found. Matched ranks.now kinds.now first second found) }
{
    let none = no_pairs(alloc, first, second)?;
    let alone = pair_alone(alloc, ranks, kinds, none)?;
    let left = pair_around(alloc, nodes, kinds, alone)?;
    Ok(left)
}
