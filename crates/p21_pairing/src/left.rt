//! Pairs of what is left, in the order of the files.
ghost use Rattle.std.specs.Prelude.{◌≡◌, ◌<◌, ◌+◌, [], ℕ, None, length, Contains, IfOk};
ghost use Rattle.p21_numbering.specs.Rows.{held_rows};
ghost use Rattle.p21_pairing.specs.Clauses.{AreForBoth, AreWithin, Fit, KeepsFree, LeavesNone, More};
ghost use Rattle.p21_pairing.specs.Left.{AreListed};
ghost use Rattle.p21_pairing.specs.Pairs.{partner_at};

use crate::pairs::{Pairs, is_taken, with_pair};
use std::alloc::{AllocError, Global};

/// The pairs, and those of instances without a partner that have one key, in order, if they are of one kind: where keys say the kind, no
/// two of one key are left.
pub fn pair_left(
    alloc: Global,
    keys: &[usize],
    kinds: &[usize],
    pairs: Pairs,
) -> Result<Pairs, AllocError>
    requires keys { AreForBoth keys.now pairs }
    requires kinds { AreForBoth kinds.now pairs }
    requires within { AreWithin keys.now }
    requires pairs { Fit kinds.now pairs }
    ensures more { IfOk result (λ more. More kinds.now pairs more) }
    ensures none_left { IfOk result (λ more. LeavesNone keys.now kinds.now pairs more) }
{
    let first = pairs.partners.len();
    let mut left = listed(alloc, keys, first, &pairs.owners)?;
    let mut more = pairs;
    for one in 0..first {
        let key = keys[one];
        more = with_one_of(kinds, more, one, &mut left[key]);
    }
    Ok(more)
}

/// The instances of the second file that have no partner, by their keys, which begin at a position; the last ones first.
fn listed(
    alloc: Global,
    keys: &[usize],
    start: usize,
    owners: &[Option<usize>],
) -> Result<Vec<Vec<usize>>, AllocError>
    requires keys { length keys.now ≡ start + length owners.now }
    requires within { AreWithin keys.now }
    ensures size { IfOk result (λ rows. length rows.items ≡ length keys.now) }
    ensures each { IfOk result (λ rows. AreListed keys.now start owners.now 0 (held_rows rows.items)) }
{
    let mut empty = Vec::with_capacity(alloc, keys.len())?;
    for key in 0..keys.len() {
        empty.push(Vec::new(alloc))?;
    }
    let mut rows = empty;
    for k in 0..owners.len() {
        rows = with_listed(keys, start, owners, owners.len() - 1 - k, rows)?;
    }
    Ok(rows)
}

/// The rows, with one instance more, if it has no partner.
fn with_listed(
    keys: &[usize],
    start: usize,
    owners: &[Option<usize>],
    one: usize,
    rows: Vec<Vec<usize>>,
) -> Result<Vec<Vec<usize>>, AllocError>
    requires keys { length keys.now ≡ start + length owners.now }
    requires within { AreWithin keys.now }
    requires one { one < length owners.now }
    requires rows { AreListed keys.now start owners.now (one + 1) (held_rows rows.items) }
    ensures { IfOk result (λ more. AreListed keys.now start owners.now one (held_rows more.items)) }
{
    if is_taken(owners, one) {
        return Ok(rows);
    }
    let key = keys[start + one];
    let mut more = rows;
    more[key].push(one)?;
    Ok(more)
}

/// The pairs, with one more: this instance and the last one of a row that is free and of its kind, if it is free itself. Those behind
/// it are gone from the row.
fn with_one_of(kinds: &[usize], pairs: Pairs, one: usize, row: &mut Vec<usize>) -> Pairs
    requires kinds { AreForBoth kinds.now pairs }
    requires one { one < length pairs.partners.items }
    requires row { (j : ℕ) → Contains row.old.items j → j < length pairs.owners.items }
    requires pairs { Fit kinds.now pairs }
    ensures more { More kinds.now pairs result }
    ensures fewer { (j : ℕ) → Contains row.new.items j → Contains row.old.items j }
    ensures kept { KeepsFree kinds.now one pairs result row.old.items row.new.items }
    ensures found { partner_at result.partners.items one ≡ None → row.new.items ≡ [] }
{
    if is_taken(&pairs.partners, one) {
        return pairs;
    }
    let mut more = pairs;
    while let Some(other) = row.pop() {
        more = with_pair(kinds, more, one, other);
        let is_done = is_taken(&more.partners, one);
        if is_done {
            return more;
        }
    }
    more
}
