//! Which nodes are fresh behind a round.
ghost use Rattle.std.specs.List.{range_with_len};
ghost use Rattle.std.specs.Prelude.{◌≡◌, ◌<◌, ◌||◌, not, ltb, leb, nat_eq, ℕ, length, if◌then◌else◌, IfOk};
ghost use Rattle.p21_spec_numbering.specs.Fresh.{is_largest};
ghost use Rattle.p21_spec_numbering.specs.Graph.{Graph};
ghost use Rattle.p21_numbering.specs.Arrays.{rank_at, marked};
ghost use Rattle.p21_numbering.specs.Largest.{AreSizes, IsLargestAmong, beats};

use std::alloc::{AllocError, Global};

/// Of the parts of an old rank all nodes are fresh but those of the first of the largest.
pub fn fresh_nodes(alloc: Global, old: &[usize], new: &[usize]) -> Result<Vec<bool>, AllocError>
    requires old { length old.now ≡ length new.now }
    requires old_within { (n : ℕ) → n < length new.now → rank_at old.now n < length new.now }
    requires new_within { (n : ℕ) → n < length new.now → rank_at new.now n < length new.now }
    ensures size { IfOk result (λ fresh. length fresh.items ≡ length new.now) }
    ensures each { IfOk result (λ fresh. (g : Graph) → g.nodes ≡ range_with_len 0 (length new.now) → (n : ℕ) → n < length new.now
        → marked fresh.items n ≡ not (is_largest g (rank_at old.now) (rank_at new.now) n)) }
{
    let sizes = sizes(alloc, new)?;
    let largest = largest(alloc, old, new, &sizes)?;
    let mut fresh = Vec::with_capacity(alloc, new.len())?;
    for n in 0..new.len() {
        let best = largest[old[n]];
        fresh.push(is_other(best, new[n]))?;
    }
    Ok(fresh)
}

/// Whether a part isn't the best one.
fn is_other(best: usize, part: usize) -> bool
    ensures { result ≡ not (nat_eq best part) }
{
    best != part
}

/// How many nodes have each rank.
pub fn sizes(alloc: Global, rank: &[usize]) -> Result<Vec<usize>, AllocError>
    requires { (n : ℕ) → n < length rank.now → rank_at rank.now n < length rank.now }
    ensures { IfOk result (λ sizes. AreSizes (length rank.now) (length rank.now) rank.now sizes.items) }
{
    let mut sizes = vec![in alloc; 0; rank.len()]?;
    for n in 0..rank.len() {
        let part = rank[n];
        let size = sizes[part];
        sizes[part] = size + 1;
    }
    Ok(sizes)
}

/// Of each old rank the largest part, and of equal ones the first.
fn largest(
    alloc: Global,
    old: &[usize],
    new: &[usize],
    sizes: &[usize],
) -> Result<Vec<usize>, AllocError>
    requires sizes { length sizes.now ≡ length new.now }
    requires old { length old.now ≡ length new.now }
    requires old_within { (n : ℕ) → n < length new.now → rank_at old.now n < length new.now }
    requires new_within { (n : ℕ) → n < length new.now → rank_at new.now n < length new.now }
    ensures size { IfOk result (λ largest. length largest.items ≡ length new.now) }
    ensures each { IfOk result (λ largest. (o : ℕ) → o < length new.now
        → IsLargestAmong (length new.now) (length new.now) old.now new.now sizes.now o (rank_at largest.items o)) }
{
    let mut largest = vec![in alloc; new.len(); new.len()]?;
    for n in 0..new.len() {
        let cell = old[n];
        let best = largest[cell];
        largest[cell] = larger(sizes, new[n], best);
    }
    Ok(largest)
}

/// The part, if there is no best one yet, or it is larger, or as large and before it.
fn larger(sizes: &[usize], part: usize, best: usize) -> usize
    requires { part < length sizes.now }
    ensures { result ≡ (if (leb (length sizes.now) best || beats sizes.now part best) then part else best) }
{
    if best >= sizes.len()
        || sizes[best] < sizes[part]
        || (sizes[part] == sizes[best] && part < best)
    {
        part
    } else {
        best
    }
}
