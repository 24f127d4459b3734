//! Pairs by the order of the files, with those of them that could have been others.
ghost use Rattle.std.specs.Prelude.{IfOk};
ghost use Rattle.p21_pairing.specs.Clauses.{AreForBoth, AreWithin, Fit, LeavesNone, More};

use crate::alone::{Holder, holders};
use crate::left::pair_left;
use crate::pairs::Pairs;
use std::alloc::{AllocError, Global};

/// The pairs, and those of what is left by keys, in order (`pair_left`); those of a key that several instances without a partner have in
/// either file are noted as chosen.
pub fn pair_in_order(
    alloc: Global,
    keys: &[usize],
    kinds: &[usize],
    pairs: Pairs,
) -> Result<Pairs, AllocError>
    requires keys { AreForBoth keys.now pairs }
    requires kinds { AreForBoth kinds.now pairs }
    requires within { AreWithin keys.now }
    requires pairs { Fit kinds.now pairs }
    ensures more { IfOk result (λ more. More kinds.now pairs more) }
    ensures none_left { IfOk result (λ more. LeavesNone keys.now kinds.now pairs more) }
{
    let firsts = holders(alloc, keys, 0, &pairs.partners)?;
    let seconds = holders(alloc, keys, pairs.partners.len(), &pairs.owners)?;
    let open = open_choices(alloc, keys, &firsts, &seconds, &pairs.partners)?;
    let mut left = pair_left(alloc, keys, kinds, pairs)?;
    note_chosen(&open, &left.partners, &mut left.chosen)?;
    Ok(left)
}

/// Whether each instance of the first file has no partner, and a key that several have in either file.
fn open_choices(
    alloc: Global,
    keys: &[usize],
    firsts: &[Holder],
    seconds: &[Holder],
    partners: &[Option<usize>],
) -> Result<Vec<bool>, AllocError> {
    let mut open = Vec::with_capacity(alloc, partners.len())?;
    for (partner, key) in partners.iter().zip(keys) {
        let several = is_several(firsts, *key) || is_several(seconds, *key);
        open.push(partner.is_none() && several)?;
    }
    Ok(open)
}

/// Whether several have a key.
fn is_several(holders: &[Holder], key: usize) -> bool {
    match holders.get(key) {
        Some(Holder::Several) => true,
        _ => false,
    }
}

/// Notes the instances of which an open choice is made.
fn note_chosen(
    open: &[bool],
    partners: &[Option<usize>],
    chosen: &mut Vec<usize>,
) -> Result<(), AllocError> {
    for (one, (is_open, partner)) in open.iter().zip(partners).enumerate() {
        if *is_open && partner.is_some() {
            chosen.push(one)?;
        }
    }
    Ok(())
}
