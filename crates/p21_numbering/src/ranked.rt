//! Instances by their ranks.
ghost use Rattle.std.specs.List.{filter};
ghost use Rattle.std.specs.Prelude.{◌≡◌, ◌≢◌, ◌++◌, ◌∷◌, [], true, false, map, IfOk};
ghost use Rattle.p21_spec_numbering.specs.Uses.{Use};
ghost use Rattle.p21_numbering.specs.Instances.{file_instance};
ghost use Rattle.p21_numbering.specs.NodesOf.{HasKnownParts};
ghost use Rattle.p21_numbering.specs.PlacedUses.{held_uses};
ghost use Rattle.p21_numbering.specs.Ranked.{held_instance};
ghost use Rattle.p21_numbering.specs.RankedBy.{FindsUneven, IsAlone, IsRankedBy, IsSharing, with_rank as with_rank_of};
ghost use Rattle.p21_numbering.specs.Standing.{is_shared, many as many_of, standing_of};

use crate::instances::Instance;
use crate::loose::loose_in_rows;
use crate::said::said;
use crate::standings::Standings;
use crate::uses::{PlacedUse, uses_in};
use p21_schema::Schema;
use p21_values::NoMemory;
use std::alloc::{AllocError, Global};

/// An instance by its rank: what it says where each reference is to a rank, and the instances that it hangs together
/// with. What it says and what it hangs together with counts for one that shares its rank with others.
#[derive(Drop)]
pub struct RankedInstance {
    pub name: u64,
    pub rank: u64,
    pub said: Vec<u64>,
    /// The names of those that it refers to, and that share their ranks.
    pub beside: Vec<u64>,
    /// The name and the rank of one that shares its rank and that it refers to in such a way that the model isn't decided.
    pub loose: Option<(u64, u64)>,
}

/// An instance by its rank, where these are the standings of all.
pub fn ranked(
    alloc: Global,
    schema: &Schema,
    instance: &Instance<'_>,
    standings: &Standings,
) -> Result<RankedInstance, NoMemory>
    requires { HasKnownParts schema.now (file_instance instance.now).typed }
    ensures { IfOk result (λ ranked. IsRankedBy schema.now (standing_of standings.now) (file_instance instance.now) (held_instance ranked)) }
{
    if standings.is_shared(instance.name) {
        sharing(alloc, schema, instance, standings)
    } else {
        Ok(alone(alloc, instance, standings)?)
    }
}

/// An instance that shares its rank with others.
fn sharing(
    alloc: Global,
    schema: &Schema,
    instance: &Instance<'_>,
    standings: &Standings,
) -> Result<RankedInstance, NoMemory>
    requires { HasKnownParts schema.now (file_instance instance.now).typed }
    ensures { IfOk result (λ ranked. IsSharing schema.now (standing_of standings.now) (file_instance instance.now) (held_instance ranked)) }
{
    let uses = uses_in(alloc, &instance.typed)?;
    let beside = shared_targets(alloc, &uses, standings)?;
    let said = said(
        alloc,
        schema,
        instance.heading,
        &instance.typed,
        &standings.ranks,
    )?;
    let loose = first_uneven(&beside, standings.many(instance.name), standings);
    Ok(RankedInstance {
        name: instance.name,
        rank: standings.rank(instance.name),
        said,
        beside,
        loose: with_rank(loose, standings),
    })
}

/// An instance that shares its rank with no other.
fn alone(
    alloc: Global,
    instance: &Instance<'_>,
    standings: &Standings,
) -> Result<RankedInstance, AllocError>
    ensures { IfOk result (λ ranked. IsAlone (standing_of standings.now) (file_instance instance.now) (held_instance ranked)) }
{
    let loose = loose_in_rows(alloc, instance.typed.values.items(), standings)?;
    Ok(RankedInstance {
        name: instance.name,
        rank: standings.rank(instance.name),
        said: Vec::new(alloc),
        beside: Vec::new(alloc),
        loose: with_rank(loose, standings),
    })
}

/// The names that references lead to, of those that share their ranks.
fn shared_targets(
    alloc: Global,
    uses: &[PlacedUse],
    standings: &Standings,
) -> Result<Vec<u64>, AllocError>
    ensures { IfOk result (λ names. names.items ≡ filter (is_shared (standing_of standings.now))
        (map (λ (u : Use). u.1) (held_uses uses.now))) }
{
    let mut names = Vec::new(alloc);
    for k in 0..uses.len() {
        names = with_shared(names, uses[k].target, standings)?;
    }
    Ok(names)
}

/// The names, and behind them this one, if it shares its rank.
fn with_shared(names: Vec<u64>, name: u64, standings: &Standings) -> Result<Vec<u64>, AllocError>
    ensures { IfOk result (λ more. more.items ≡ names.items ++ filter (is_shared (standing_of standings.now)) (name ∷ [])) }
{
    let mut more = names;
    if standings.is_shared(name) {
        more.push(name)?;
    }
    Ok(more)
}

/// The first name of another rank than one that so many have.
fn first_uneven(names: &[u64], many: usize, standings: &Standings) -> Option<u64>
    ensures { FindsUneven (standing_of standings.now) many names.now result }
{
    for name in names {
        if is_uneven(*name, many, standings) {
            return Some(*name);
        }
    }
    None
}

/// Whether another number of instances has the rank of this name.
fn is_uneven(name: u64, many: usize, standings: &Standings) -> bool
    ensures yes { result ≡ true → many_of (standing_of standings.now) name ≢ many }
    ensures no { result ≡ false → many_of (standing_of standings.now) name ≡ many }
{
    standings.many(name) != many
}

/// The name with its rank.
fn with_rank(name: Option<u64>, standings: &Standings) -> Option<(u64, u64)>
    ensures { result ≡ with_rank_of (standing_of standings.now) name }
{
    match name {
        Some(name) => Some((name, standings.rank(name))),
        None => None,
    }
}
