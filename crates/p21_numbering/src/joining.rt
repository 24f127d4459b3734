//! Parts of what pairs join.
ghost use Rattle.std.specs.List.{range_with_len};
ghost use Rattle.std.specs.Prelude.{◌≡◌, ◌≢◌, ◌<◌, ◌∷◌, ◌++◌, [], ℕ, length, map, nat_eq, slice_set, if◌then◌else◌, Contains, IfOk, OnOk};
ghost use Rattle.p21_numbering.specs.Joining.{AreAbsorbed, AreJoined, ArePartition, Connected, number_at};
ghost use Rattle.p21_numbering.specs.Rows.{held_rows};

use std::alloc::{AllocError, Global};
use std::mem::replace;

/// The number of the part of each position, and the positions in the part of each number.
#[derive(Drop)]
struct Parts {
    of: Vec<usize>,
    members: Vec<Vec<usize>>,
}

/// The number of the part that each position below `count` is in: pairs join parts, and nothing else does.
///
/// # Errors
///
/// Where memory runs out.
pub fn joined_parts(
    alloc: Global,
    count: usize,
    pairs: &[(usize, usize)],
) -> Result<Vec<usize>, AllocError>
    requires { (p : ℕ × ℕ) → Contains pairs.now p → (p.0 < count) × (p.1 < count) }
    ensures size { IfOk result (λ of. length of.items ≡ count) }
    ensures joined { IfOk result (λ of. (p : ℕ × ℕ) → Contains pairs.now p → number_at of.items p.0 ≡ number_at of.items p.1) }
    ensures connected { IfOk result (λ of. (j k : ℕ) → j < count → k < count → number_at of.items j ≡ number_at of.items k
        → Connected pairs.now j k) }
{
    let of = numbers_below(alloc, count)?;
    let members = single_rows(alloc, count)?;
    let mut parts = Parts { of, members };
    for pair in pairs {
        let (one, other) = *pair;
        parts = joined(alloc, parts, one, other)?;
    }
    Ok(parts.of)
}

/// The numbers from 0 on.
fn numbers_below(alloc: Global, count: usize) -> Result<Vec<usize>, AllocError>
    ensures { IfOk result (λ numbers. numbers.items ≡ range_with_len 0 count) }
{
    let mut numbers = Vec::with_capacity(alloc, count)?;
    for k in 0..count {
        numbers.push(k)?;
    }
    Ok(numbers)
}

/// Each number from 0 on in a row of its own.
fn single_rows(alloc: Global, count: usize) -> Result<Vec<Vec<usize>>, AllocError>
    ensures { IfOk result (λ rows. held_rows rows.items ≡ map (λ k. k ∷ []) (range_with_len 0 count)) }
{
    let mut rows = Vec::with_capacity(alloc, count)?;
    for k in 0..count {
        rows.push(vec![in alloc; k]?)?;
    }
    Ok(rows)
}

/// The parts, where those of the two positions are one.
fn joined(alloc: Global, parts: Parts, one: usize, other: usize) -> Result<Parts, AllocError>
    requires partition { ArePartition (length parts.of.items) parts.of.items (held_rows parts.members.items) }
    requires one { one < length parts.of.items }
    requires other { other < length parts.of.items }
    ensures { IfOk result (λ more. AreJoined one other parts.of.items more.of.items (held_rows more.members.items)) }
{
    let first = parts.of[one];
    let second = parts.of[other];
    if first == second {
        return Ok(parts);
    }
    if parts.members[first].len() < parts.members[second].len() {
        absorbed(alloc, parts, first, second)
    } else {
        absorbed(alloc, parts, second, first)
    }
}

/// The parts, where the small one has gone into the large one.
fn absorbed(alloc: Global, parts: Parts, small: usize, large: usize) -> Result<Parts, AllocError>
    requires partition { ArePartition (length parts.of.items) parts.of.items (held_rows parts.members.items) }
    requires small { small < length parts.of.items }
    requires large { large < length parts.of.items }
    requires differ { small ≢ large }
    ensures { IfOk result (λ more. AreAbsorbed small large parts.of.items more.of.items (held_rows more.members.items)) }
{
    let Parts {
        mut of,
        mut members,
    } = parts;
    let moved = replace(&mut members[small], Vec::new(alloc));
    relabel(&mut of, &moved, large);
    members[large].extend_from_slice(&moved)?;
    Ok(Parts { of, members })
}

/// Gives these positions one number.
fn relabel(of: &mut Vec<usize>, moved: &[usize], number: usize)
    requires { (k : ℕ) → Contains moved.now k → k < length of.old.items }
    ensures size { length of.new.items ≡ length of.old.items }
    ensures moved { (k : ℕ) → Contains moved.now k → number_at of.new.items k ≡ number }
    ensures others { (k : ℕ) → ¬ Contains moved.now k → number_at of.new.items k ≡ number_at of.old.items k }
{
    for one in moved {
        of[*one] = number;
    }
}
