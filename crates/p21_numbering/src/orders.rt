//! The order of instances by rank, where copies are counted in one sequence.
ghost use Rattle.std.specs.List.Sorted.{IsPermutation, IsSorted};
ghost use Rattle.std.specs.List.{flat_map, range_with_len};
ghost use Rattle.std.specs.Prelude.{◌≡◌, ◌≢◌, ◌<◌, ◌++◌, ℕ, List, None, true, false, length, map, Contains, IfOk};
ghost use Rattle.p21_spec_file.specs.File.{FileMeaning, Reads};
ghost use Rattle.p21_spec_numbering.specs.Ordered.{Ranking};
ghost use Rattle.p21_spec_schema.specs.Schema.{Schema as SchemaOf};
ghost use Rattle.p21_spec_schema.specs.WellFormed.{IsWellFormed};
ghost use Rattle.p21_numbering.specs.declared.orders.Unordered.TheVariants.{Alike};
ghost use Rattle.p21_numbering.specs.Arrays.{Entry as EntryOf, entry_cmp};
ghost use Rattle.p21_numbering.specs.Edges.{FindsNames};
ghost use Rattle.p21_numbering.specs.Ordering.{FindsClash, FindsLoose, FindsOther, Orders, entries_of, named_node, pair_of, pairs_from};
ghost use Rattle.p21_numbering.specs.Ranked.{AreRanked, held_instance, held_instances, name_of, ranked_at};

use crate::joining::joined_parts;
use crate::ranked::RankedInstance;
use p21_values::NoMemory;
use std::alloc::{AllocError, Global};
use std::collections::BTreeMap;

/// Why instances have no order.
#[derive(Debug, Drop)]
pub enum Unordered {
    /// The model doesn't tell the instances of these two names apart, and they may not be exchanged.
    Alike(u64, u64),
    /// Memory ran out.
    NoMemory,
}

impl From<AllocError> for Unordered {
    ghost use Rattle.std.specs.Prelude.{◌≡◌};
    ghost use Rattle.p21_numbering.specs.declared.orders.Unordered.TheVariants.{NoMemory};

    ghost from_gives = { λ _ fault. fault ≡ NoMemory };

    fn from(_error: AllocError) -> Unordered {
        Unordered::NoMemory
    }
}

impl From<NoMemory> for Unordered {
    ghost use Rattle.std.specs.Prelude.{◌≡◌};
    ghost use Rattle.p21_numbering.specs.declared.orders.Unordered.TheVariants.{NoMemory};

    ghost from_gives = { λ _ fault. fault ≡ NoMemory };

    fn from(_error: NoMemory) -> Unordered {
        Unordered::NoMemory
    }
}

/// The rank, the part and the position of an instance.
type Entry = (u64, usize, usize);

/// The names of the instances by rank. In each rank the copies stand in the order of the parts that hang together.
///
/// # Errors
///
/// `Alike`, with two names of one rank, where the model isn't decided; `NoMemory`.
pub fn order(alloc: Global, instances: &[RankedInstance]) -> Result<Vec<u64>, Unordered>
    ensures { (s : SchemaOf) → IsWellFormed s → (bytes : List ℕ) (m : FileMeaning) → Reads s bytes m → (ranking : Ranking)
        → AreRanked s ranking m (held_instances instances.now) → Orders ranking m result }
{
    match first_loose(instances) {
        Some(found) => Err(alike(found.0, other_of(instances, found.0, found.1))),
        None => tight_order(alloc, instances),
    }
}

/// The same, where none is loose.
fn tight_order(alloc: Global, instances: &[RankedInstance]) -> Result<Vec<u64>, Unordered>
    requires { FindsLoose (held_instances instances.now) None }
    ensures { (s : SchemaOf) → IsWellFormed s → (bytes : List ℕ) (m : FileMeaning) → Reads s bytes m → (ranking : Ranking)
        → AreRanked s ranking m (held_instances instances.now) → Orders ranking m result }
{
    let positions = positions(alloc, instances)?;
    let pairs = pairs(alloc, instances, &positions)?;
    let parts = joined_parts(alloc, instances.len(), &pairs)?;
    let sorted = sorted_entries(alloc, instances, &parts)?;
    match clash(instances, &sorted) {
        Some(found) => Err(alike(at(instances, found.0).name, at(instances, found.1).name)),
        None => Ok(names_of(alloc, instances, &sorted)?),
    }
}

fn alike(one: u64, other: u64) -> Unordered
    ensures { result ≡ Alike one other }
{
    Unordered::Alike(one, other)
}

/// The instance at a position.
fn at(instances: &[RankedInstance], k: usize) -> &RankedInstance
    requires { k < length instances.now }
    ensures { held_instance result.now ≡ ranked_at (held_instances instances.now) k }
{
    &instances[k]
}

/// The first that is loose.
fn first_loose(instances: &[RankedInstance]) -> Option<(u64, u64)>
    ensures { FindsLoose (held_instances instances.now) result }
{
    for k in 0..instances.len() {
        match at(instances, k).loose {
            Some(found) => return Some(found),
            None => {}
        }
    }
    None
}

/// Another name of this rank; this one, where there is no other.
fn other_of(instances: &[RankedInstance], name: u64, rank: u64) -> u64
    ensures { FindsOther (held_instances instances.now) name rank result }
{
    for k in 0..instances.len() {
        let one = at(instances, k);
        if is_other(one, name, rank) {
            return one.name;
        }
    }
    name
}

/// Whether the instance has this rank and another name.
fn is_other(one: &RankedInstance, name: u64, rank: u64) -> bool
    ensures yes { result ≡ true → ((held_instance one.now).rank ≡ rank) × ((held_instance one.now).name ≢ name) }
    ensures no { result ≡ false → (held_instance one.now).rank ≡ rank → (held_instance one.now).name ≢ name → ⊥ }
{
    if one.rank != rank {
        return false;
    }
    one.name != name
}

/// Where each name stands.
fn positions(
    alloc: Global,
    instances: &[RankedInstance],
) -> Result<BTreeMap<u64, usize>, AllocError>
    ensures { IfOk result (λ positions. FindsNames positions (map named_node (held_instances instances.now))) }
{
    let mut positions = BTreeMap::new(alloc);
    for k in 0..instances.len() {
        positions.insert(at(instances, k).name, k)?;
    }
    Ok(positions)
}

/// The positions of each two of which one refers to the other, and that share their ranks.
fn pairs(
    alloc: Global,
    instances: &[RankedInstance],
    positions: &BTreeMap<u64, usize>,
) -> Result<Vec<(usize, usize)>, AllocError>
    ensures { IfOk result (λ pairs. pairs.items ≡ flat_map (pairs_from positions.now (held_instances instances.now))
        (range_with_len 0 (length instances.now))) }
{
    let mut pairs = Vec::new(alloc);
    for k in 0..instances.len() {
        pairs = with_pairs(pairs, k, &at(instances, k).beside, positions)?;
    }
    Ok(pairs)
}

/// The pairs, and behind them those of one more position.
fn with_pairs(
    pairs: Vec<(usize, usize)>,
    position: usize,
    beside: &[u64],
    positions: &BTreeMap<u64, usize>,
) -> Result<Vec<(usize, usize)>, AllocError>
    ensures { IfOk result (λ more. more.items ≡ pairs.items ++ flat_map (pair_of positions.now position) beside.now) }
{
    let mut more = pairs;
    for name in beside {
        more = with_pair(more, position, *name, positions)?;
    }
    Ok(more)
}

/// The pairs, and behind them that of a position and a name, if it stands anywhere.
fn with_pair(
    pairs: Vec<(usize, usize)>,
    position: usize,
    name: u64,
    positions: &BTreeMap<u64, usize>,
) -> Result<Vec<(usize, usize)>, AllocError>
    ensures { IfOk result (λ more. more.items ≡ pairs.items ++ pair_of positions.now position name) }
{
    let mut more = pairs;
    if let Some(other) = positions.get(&name) {
        more.push((position, *other))?;
    }
    Ok(more)
}

/// The entries of all instances, in order.
fn sorted_entries(
    alloc: Global,
    instances: &[RankedInstance],
    parts: &[usize],
) -> Result<Vec<Entry>, AllocError>
    requires { length parts.now ≡ length instances.now }
    ensures permutation { IfOk result (λ sorted. IsPermutation (entries_of (held_instances instances.now) parts.now) sorted.items) }
    ensures sorted { IfOk result (λ sorted. IsSorted entry_cmp sorted.items) }
{
    let mut sorted = entries(alloc, instances, parts)?;
    sorted.sort_unstable();
    Ok(sorted)
}

/// The entries of all instances.
fn entries(
    alloc: Global,
    instances: &[RankedInstance],
    parts: &[usize],
) -> Result<Vec<Entry>, AllocError>
    requires { length parts.now ≡ length instances.now }
    ensures { IfOk result (λ entries. entries.items ≡ entries_of (held_instances instances.now) parts.now) }
{
    let mut entries = Vec::with_capacity(alloc, instances.len())?;
    for k in 0..instances.len() {
        let one = at(instances, k);
        entries.push((one.rank, parts[k], k))?;
    }
    Ok(entries)
}

/// The positions of two neighbours of one rank that are in one part, or say different things.
fn clash(instances: &[RankedInstance], sorted: &[Entry]) -> Option<(usize, usize)>
    requires { (e : EntryOf) → Contains sorted.now e → e.2 < length instances.now }
    ensures { FindsClash (held_instances instances.now) sorted.now result }
{
    for next in 1..sorted.len() {
        let first = sorted[next - 1];
        let second = sorted[next];
        let one = at(instances, first.2);
        let other = at(instances, second.2);
        if do_clash(one, other, first, second) {
            return Some((first.2, second.2));
        }
    }
    None
}

/// Whether two entries are of one rank, and the instances are in one part or say different things.
fn do_clash(one: &RankedInstance, other: &RankedInstance, first: Entry, second: Entry) -> bool
    ensures yes { result ≡ true → ¬ (first.0 ≡ second.0
        → (first.1 ≢ second.1) × ((held_instance one.now).said ≡ (held_instance other.now).said)) }
    ensures no { result ≡ false → first.0 ≡ second.0 → (first.1 ≢ second.1)
        × ((held_instance one.now).said ≡ (held_instance other.now).said) }
{
    if first.0 != second.0 {
        return false;
    }
    if first.1 == second.1 {
        return true;
    }
    one.said.as_slice() != other.said.as_slice()
}

/// The names of entries.
fn names_of(
    alloc: Global,
    instances: &[RankedInstance],
    sorted: &[Entry],
) -> Result<Vec<u64>, AllocError>
    requires { (e : EntryOf) → Contains sorted.now e → e.2 < length instances.now }
    ensures { IfOk result (λ names. names.items ≡ map (λ (e : EntryOf). name_of (held_instances instances.now) e.2) sorted.now) }
{
    let mut names = Vec::with_capacity(alloc, sorted.len())?;
    for entry in sorted {
        let one = at(instances, entry.2);
        names.push(one.name)?;
    }
    Ok(names)
}
