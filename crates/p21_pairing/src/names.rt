//! The names that the instances of a file get by their partners.
ghost use Rattle.std.specs.BTreeSet.{contains};
ghost use Rattle.std.specs.Ordering.{nat_cmp};
ghost use Rattle.std.specs.Prelude.{◌≡◌, ◌≤◌, ◌+◌, false, length, IfOk};
ghost use Rattle.p21_numbering.specs.Instances.{file_instances, instance_at, names_of};
ghost use Rattle.p21_numbering.specs.NewNames.{NamesGet};
ghost use Rattle.p21_pairing.specs.Names.{AreNewNames, GivesName, HasNames};
ghost use Rattle.p21_pairing.specs.Pairs.{partner_at};
ghost use Rattle.p21_pairing.specs.Partners.{NamesByPartners};

use p21_numbering::Instance;
use p21_values::NoMemory;
use std::alloc::{AllocError, Global};
use std::collections::{BTreeMap, BTreeSet};

/// The lowest name for an instance without a partner.
const FIRST_NAME: u64 = 1;

/// A new name for each instance of the first file, by its old one: that of its partner, which stands at this position in the second file;
/// without a partner the lowest from 1 on that no instance of the second file has, and none got before.
///
/// # Errors
///
/// `NoMemory`, also where no name of 64 bits is left.
pub fn names_by(
    alloc: Global,
    first: &[Instance<'_>],
    second: &[Instance<'_>],
    partners: &[Option<usize>],
) -> Result<BTreeMap<u64, u64>, NoMemory>
    ensures { IfOk result (λ names. NamesByPartners partners.now (file_instances first.now) (file_instances second.now) names) }
{
    let news = new_names(alloc, first.len(), second, partners)?;
    let names = named_anew(alloc, first, &news)?;
    Ok(names)
}

/// The new name of each instance by its old one.
fn named_anew(
    alloc: Global,
    instances: &[Instance<'_>],
    news: &[u64],
) -> Result<BTreeMap<u64, u64>, AllocError>
    requires { length news.now ≡ length instances.now }
    ensures { IfOk result (λ names. NamesGet names (names_of (file_instances instances.now)) news.now) }
{
    let mut names = BTreeMap::new(alloc);
    for k in 0..instances.len() {
        names.insert(instances[k].name, news[k])?;
    }
    Ok(names)
}

/// The new names of so many instances with these partners.
fn new_names(
    alloc: Global,
    count: usize,
    second: &[Instance<'_>],
    partners: &[Option<usize>],
) -> Result<Vec<u64>, NoMemory>
    ensures size { IfOk result (λ news. length news.items ≡ count) }
    ensures names { IfOk result (λ news. AreNewNames partners.now (file_instances second.now) news.items) }
{
    let taken = taken_names(alloc, second)?;
    let mut news = Vec::with_capacity(alloc, count)?;
    let mut next = FIRST_NAME;
    for k in 0..count {
        let partner = partner(partners, k);
        let name = new_name(&taken, second, partner, &mut next)?;
        news.push(name)?;
    }
    Ok(news)
}

/// The partner of an instance, if it has one.
fn partner(partners: &[Option<usize>], one: usize) -> Option<usize>
    ensures { result ≡ partner_at partners.now one }
{
    match partners.get(one) {
        Some(partner) => *partner,
        None => None,
    }
}

/// The names of instances.
fn taken_names(alloc: Global, instances: &[Instance<'_>]) -> Result<BTreeSet<u64>, AllocError>
    ensures { IfOk result (λ taken. HasNames taken (names_of (file_instances instances.now))) }
{
    let mut taken = BTreeSet::new(alloc);
    for k in 0..instances.len() {
        taken.insert(instances[k].name)?;
    }
    Ok(taken)
}

/// The new name of an instance with this partner. One without has the next name that is free, and that behind it is next then.
fn new_name(
    taken: &BTreeSet<u64>,
    second: &[Instance<'_>],
    partner: Option<usize>,
    next: &mut u64,
) -> Result<u64, NoMemory>
    requires { HasNames taken.now (names_of (file_instances second.now)) }
    ensures { IfOk result (λ name. GivesName (file_instances second.now) partner next.old next.new name) }
{
    match partner {
        Some(other) => Ok(name_at(second, other)),
        None => {
            let free = free_name(taken, *next)?;
            *next = behind(free)?;
            Ok(free)
        }
    }
}

/// The name of the instance at a position; 0 where there is none.
fn name_at(instances: &[Instance<'_>], position: usize) -> u64
    ensures { result ≡ (instance_at (file_instances instances.now) position).name }
{
    match instances.get(position) {
        Some(one) => one.name,
        None => 0,
    }
}

/// The lowest name from this one on that isn't taken.
fn free_name(taken: &BTreeSet<u64>, from: u64) -> Result<u64, NoMemory>
    ensures free { IfOk result (λ name. contains nat_cmp taken.now name ≡ false) }
    ensures behind { IfOk result (λ name. from ≤ name) }
{
    let mut name = from;
    while taken.contains(&name) {
        name = behind(name)?;
    }
    Ok(name)
}

/// The name behind this one.
fn behind(name: u64) -> Result<u64, NoMemory>
    ensures { IfOk result (λ next. next ≡ name + 1) }
{
    match name.checked_add(1) {
        Some(next) => Ok(next),
        None => Err(NoMemory),
    }
}
