//! What instances say with all that they refer to.
ghost use Rattle.std.specs.Prelude.{◌≡◌, length, IfOk};
ghost use Rattle.p21_pairing.specs.Clauses.{AreWithin};

use crate::around::Neighbour;
use crate::kinds::ranks_of;
use std::alloc::{AllocError, Global};

/// So many references are followed from an instance on.
const MOST_STEPS: usize = 20;

/// The number of what each instance says with all that it refers to, by the number of what it says itself.
pub fn whole_labels(
    alloc: Global,
    neighbours: &[Vec<Neighbour>],
    labels: &[usize],
) -> Result<Vec<usize>, AllocError>
    requires { AreWithin labels.now }
    ensures size { IfOk result (λ wholes. length wholes.items ≡ length labels.now) }
    ensures within { IfOk result (λ wholes. AreWithin wholes.items) }
{
    let mut wholes = Vec::from_slice(alloc, labels)?;
    for step in 0..MOST_STEPS {
        let next = one_step_more(alloc, neighbours, &wholes)?;
        let is_done = next == wholes;
        wholes = next;
        if is_done {
            return Ok(wholes);
        }
    }
    Ok(wholes)
}

/// The numbers with those of what each instance refers to. Where these tell nothing more, they are the same numbers.
fn one_step_more(
    alloc: Global,
    neighbours: &[Vec<Neighbour>],
    wholes: &[usize],
) -> Result<Vec<usize>, AllocError>
    ensures size { IfOk result (λ more. length more.items ≡ length wholes.now) }
    ensures within { IfOk result (λ more. AreWithin more.items) }
{
    let mut rows = Vec::with_capacity(alloc, wholes.len())?;
    for k in 0..wholes.len() {
        rows.push(row_below(alloc, neighbours, wholes, k)?)?;
    }
    let ranks = ranks_of(alloc, &rows)?;
    Ok(ranks)
}

/// The number of an instance, and behind it those of what it refers to, with their places.
fn row_below(
    alloc: Global,
    neighbours: &[Vec<Neighbour>],
    wholes: &[usize],
    one: usize,
) -> Result<Vec<u64>, AllocError> {
    let mut entries = Vec::new(alloc);
    if let Some(around) = neighbours.get(one) {
        for neighbour in around {
            let (side, place, other) = *neighbour;
            if side == 0 {
                entries.push((place, number(wholes, other)))?;
            }
        }
    }
    entries.sort_unstable();
    let mut row = Vec::with_capacity(alloc, 1)?;
    row.push(number(wholes, one))?;
    for entry in &entries {
        let (place, whole) = *entry;
        row.push(place)?;
        row.push(whole)?;
    }
    Ok(row)
}

/// The number of an instance.
fn number(wholes: &[usize], one: usize) -> u64 {
    match wholes.get(one) {
        Some(whole) => *whole as u64,
        None => 0,
    }
}
