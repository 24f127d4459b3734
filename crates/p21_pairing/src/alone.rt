//! Pairs of what is alone in its file.
ghost use Rattle.std.specs.Prelude.{◌≡◌, ◌<◌, ◌≤◌, ◌+◌, ℕ, length, IfOk};
ghost use Rattle.p21_pairing.specs.Clauses.{AreForBoth, AreWithin, Fit, More};
ghost use Rattle.p21_pairing.specs.Clauses.{PairsAlone, PairsHolder, PairsHolders, PairsOneOnly, PairsOnly};
ghost use Rattle.p21_pairing.specs.Holders.{AreHolders, Hold, more_held};
ghost use Rattle.p21_pairing.specs.declared.alone.Holder.TheVariants.{One};

use crate::pairs::{Pairs, is_taken, with_pair};
use std::alloc::{AllocError, Global};

/// What has a key: no instance, one alone, or several.
#[derive(Clone, Copy)]
pub enum Holder {
    Nobody,
    One(usize),
    Several,
}

/// The pairs, and those of instances that are alone in their files in having no partner and this key, if they are of one kind.
pub fn pair_alone(
    alloc: Global,
    keys: &[usize],
    kinds: &[usize],
    pairs: Pairs,
) -> Result<Pairs, AllocError>
    requires keys { AreForBoth keys.now pairs }
    requires kinds { AreForBoth kinds.now pairs }
    requires within { AreWithin keys.now }
    requires pairs { Fit kinds.now pairs }
    ensures more { IfOk result (λ more. More kinds.now pairs more) }
    ensures alone { IfOk result (λ more. PairsAlone keys.now kinds.now pairs more) }
{
    let firsts = holders(alloc, keys, 0, &pairs.partners)?;
    let seconds = holders(alloc, keys, pairs.partners.len(), &pairs.owners)?;
    let mut more = pairs;
    for key in 0..keys.len() {
        let first = firsts[key];
        let second = seconds[key];
        more = with_holders(kinds, more, first, second);
    }
    Ok(more)
}

/// The pairs, with one more where one instance alone holds a key in each file.
fn with_holders(kinds: &[usize], pairs: Pairs, first: Holder, second: Holder) -> Pairs
    requires kinds { AreForBoth kinds.now pairs }
    requires within { (i j : ℕ) → Hold first second i j → (i < length pairs.partners.items) × (j < length pairs.owners.items) }
    requires pairs { Fit kinds.now pairs }
    ensures more { More kinds.now pairs result }
    ensures joined { PairsHolders kinds.now first second pairs result }
    ensures only { PairsOnly first second pairs result }
{
    match first {
        Holder::One(one) => with_holder_of(kinds, pairs, one, second),
        _ => pairs,
    }
}

/// The pairs, with one more where one instance alone holds a key in the second file.
fn with_holder_of(kinds: &[usize], pairs: Pairs, one: usize, second: Holder) -> Pairs
    requires kinds { AreForBoth kinds.now pairs }
    requires one { (j : ℕ) → second ≡ One j → one < length pairs.partners.items }
    requires other { (j : ℕ) → second ≡ One j → j < length pairs.owners.items }
    requires pairs { Fit kinds.now pairs }
    ensures more { More kinds.now pairs result }
    ensures joined { PairsHolder kinds.now one second pairs result }
    ensures only { PairsOneOnly one second pairs result }
{
    match second {
        Holder::One(other) => with_pair(kinds, pairs, one, other),
        _ => pairs,
    }
}

/// What has each key, of instances without a partner; the keys of their file begin at a position.
pub fn holders(
    alloc: Global,
    keys: &[usize],
    start: usize,
    partners: &[Option<usize>],
) -> Result<Vec<Holder>, AllocError>
    requires long { start + length partners.now ≤ length keys.now }
    requires within { AreWithin keys.now }
    ensures size { IfOk result (λ holders. length holders.items ≡ length keys.now) }
    ensures each { IfOk result (λ holders. AreHolders keys.now start partners.now (length partners.now) holders.items) }
{
    let mut holders = Vec::with_capacity(alloc, keys.len())?;
    for key in 0..keys.len() {
        holders.push(Holder::Nobody)?;
    }
    for k in 0..partners.len() {
        holders = with_one(keys, start, partners, k, holders);
    }
    Ok(holders)
}

/// What has each key, with one instance more, if it has no partner.
fn with_one(
    keys: &[usize],
    start: usize,
    partners: &[Option<usize>],
    one: usize,
    holders: Vec<Holder>,
) -> Vec<Holder>
    requires one { one < length partners.now }
    requires long { start + length partners.now ≤ length keys.now }
    requires within { AreWithin keys.now }
    requires size { length holders.items ≡ length keys.now }
    requires each { AreHolders keys.now start partners.now one holders.items }
    ensures size { length result.items ≡ length keys.now }
    ensures each { AreHolders keys.now start partners.now (one + 1) result.items }
{
    if is_taken(partners, one) {
        return holders;
    }
    let key = keys[start + one];
    let mut more = holders;
    let holder = more[key];
    more[key] = with_holder(holder, one);
    more
}

/// What has a key, with one instance more.
fn with_holder(holder: Holder, one: usize) -> Holder
    ensures { result ≡ more_held holder one }
{
    match holder {
        Holder::Nobody => Holder::One(one),
        _ => Holder::Several,
    }
}
