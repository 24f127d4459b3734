//! Pairs of instances of two files.
ghost use Rattle.std.specs.Prelude.{◌≡◌, ◌≢◌, ◌<◌, ℕ, true, false, None, length, IfOk};
ghost use Rattle.p21_numbering.specs.Arrays.{rank_at};
ghost use Rattle.p21_pairing.specs.Clauses.{AreForBoth, Fit, Joined};
ghost use Rattle.p21_pairing.specs.Pairs.{partner_at};

use std::alloc::{AllocError, Global};

/// The partner of each instance of the first file, and of each one of the second; and the instances of the first file that got theirs by
/// order alone, where others could have been.
#[derive(Drop)]
pub struct Pairs {
    pub partners: Vec<Option<usize>>,
    pub owners: Vec<Option<usize>>,
    pub chosen: Vec<usize>,
}

/// No pairs of so many instances.
pub fn no_pairs(alloc: Global, first: usize, second: usize) -> Result<Pairs, AllocError>
    ensures first { IfOk result (λ pairs. length pairs.partners.items ≡ first) }
    ensures second { IfOk result (λ pairs. length pairs.owners.items ≡ second) }
    ensures partners { IfOk result (λ pairs. (k : ℕ) → partner_at pairs.partners.items k ≡ None) }
    ensures owners { IfOk result (λ pairs. (k : ℕ) → partner_at pairs.owners.items k ≡ None) }
{
    let partners = vec![in alloc; None; first]?;
    let owners = vec![in alloc; None; second]?;
    Ok(Pairs {
        partners,
        owners,
        chosen: Vec::new(alloc),
    })
}

/// The pairs with one more: these two, if neither has a partner and they are of one kind.
pub fn with_pair(kinds: &[usize], pairs: Pairs, one: usize, other: usize) -> Pairs
    requires kinds { AreForBoth kinds.now pairs }
    requires one { one < length pairs.partners.items }
    requires other { other < length pairs.owners.items }
    requires pairs { Fit kinds.now pairs }
    ensures { Joined kinds.now one other pairs result }
{
    let first = pairs.partners.len();
    if is_taken(&pairs.partners, one) {
        return pairs;
    }
    if is_taken(&pairs.owners, other) {
        return pairs;
    }
    if are_apart(kinds, one, first + other) {
        return pairs;
    }
    let Pairs {
        mut partners,
        mut owners,
        chosen,
    } = pairs;
    partners[one] = Some(other);
    owners[other] = Some(one);
    Pairs {
        partners,
        owners,
        chosen,
    }
}

/// Whether an instance has a partner.
pub fn is_taken(partners: &[Option<usize>], one: usize) -> bool
    requires { one < length partners.now }
    ensures yes { result ≡ true → partner_at partners.now one ≡ None → ⊥ }
    ensures no { result ≡ false → partner_at partners.now one ≡ None }
{
    match partners[one] {
        Some(_) => true,
        None => false,
    }
}

/// Whether two instances are of two kinds.
fn are_apart(kinds: &[usize], one: usize, other: usize) -> bool
    requires one { one < length kinds.now }
    requires other { other < length kinds.now }
    ensures yes { result ≡ true → rank_at kinds.now one ≢ rank_at kinds.now other }
    ensures no { result ≡ false → rank_at kinds.now one ≡ rank_at kinds.now other }
{
    kinds[one] != kinds[other]
}
