//! References that keep a file from being decided, in an instance that shares its rank with no other.
ghost use Rattle.std.specs.Prelude.{◌≡◌, ◌++◌, ℕ, List, Some, None, IfOk, if◌then◌else◌};
ghost use Rattle.p21_mapping_values.specs.TypedView.{rows_view};
ghost use Rattle.p21_mapping_values.specs.View.{view, views};
ghost use Rattle.p21_numbering.specs.NewNames.{new_name};
ghost use Rattle.p21_numbering.specs.Standing.{IsCount, fills, is_shared, loose_among, loose_element as loose_element_of, loose_in as loose_in_of, loose_rows, loose_value as loose_value_of, listed, plain_name as plain_name_of, plain_names as plain_names_of, standing_of};

use crate::standings::Standings;
use p21_mapping_values::{Value, Values};
use std::alloc::{AllocError, Global};
use std::collections::BTreeMap;

/// The first name of one that shares its rank, in rows of values, but for plain elements of sets that have all of that rank.
pub fn loose_in_rows(
    alloc: Global,
    rows: &[Values],
    standings: &Standings,
) -> Result<Option<u64>, AllocError>
    ensures { IfOk result (λ found. found ≡ loose_rows (standing_of standings.now) (rows_view rows.now)) }
{
    for row in rows {
        let found = loose_in(alloc, row.items(), standings)?;
        match found {
            Some(name) => return Ok(Some(name)),
            None => {}
        }
    }
    Ok(None)
}

/// The first in a value.
#[cycle(loose)]
fn loose_value(
    alloc: Global,
    value: &Value,
    standings: &Standings,
) -> Result<Option<u64>, AllocError>
    ensures { IfOk result (λ found. found ≡ loose_value_of (standing_of standings.now) (view value.now)) }
{
    match value {
        Value::Reference(name) => Ok(loose_name(name.0, standings)),
        Value::List(values) => loose_in(alloc, values.items(), standings),
        Value::Array(values) => loose_in(alloc, values.items(), standings),
        Value::Set(values) => loose_in_set(alloc, values.items(), standings),
        Value::Bag(values) => loose_in(alloc, values.items(), standings),
        Value::Tagged(_, inner) => loose_value(alloc, inner, standings),
        _ => Ok(None),
    }
}

/// The name, if it shares its rank.
fn loose_name(name: u64, standings: &Standings) -> Option<u64>
    ensures { result ≡ (if is_shared (standing_of standings.now) name then Some name else None) }
{
    if standings.is_shared(name) {
        return Some(name);
    }
    None
}

/// The first in values.
#[cycle(loose)]
fn loose_in(
    alloc: Global,
    values: &[Value],
    standings: &Standings,
) -> Result<Option<u64>, AllocError>
    ensures { IfOk result (λ found. found ≡ loose_in_of (standing_of standings.now) (views values.now)) }
{
    for value in values {
        let found = loose_value(alloc, value, standings)?;
        match found {
            Some(name) => return Ok(Some(name)),
            None => {}
        }
    }
    Ok(None)
}

/// The first in the elements of a set.
#[cycle(loose)]
fn loose_in_set(
    alloc: Global,
    values: &[Value],
    standings: &Standings,
) -> Result<Option<u64>, AllocError>
    ensures { IfOk result (λ found. found ≡ loose_among (standing_of standings.now) (plain_names_of (views values.now)) (views values.now)) }
{
    let names = plain_names(alloc, values)?;
    let counts = counts(alloc, &names, standings)?;
    for value in values {
        let found = loose_element(alloc, value, &counts, standings)?;
        match found {
            Some(name) => return Ok(Some(name)),
            None => {}
        }
    }
    Ok(None)
}

/// The first in an element of a set that has so many plain references of each rank.
#[cycle(loose)]
fn loose_element(
    alloc: Global,
    value: &Value,
    counts: &BTreeMap<u64, usize>,
    standings: &Standings,
) -> Result<Option<u64>, AllocError>
    ensures { IfOk result (λ found. (names : List ℕ) → IsCount (standing_of standings.now) names counts.now
        → found ≡ loose_element_of (standing_of standings.now) names (view value.now)) }
{
    if is_full(plain_name(value), counts, standings) {
        return Ok(None);
    }
    loose_value(alloc, value, standings)
}

/// Whether there are as many plain references of the rank of this name as there are instances.
fn is_full(name: Option<u64>, counts: &BTreeMap<u64, usize>, standings: &Standings) -> bool
    ensures { (names : List ℕ) → IsCount (standing_of standings.now) names counts.now
        → result ≡ fills (standing_of standings.now) names name }
{
    match name {
        Some(name) => count(counts, standings.rank(name)) == standings.many(name),
        None => false,
    }
}

/// The name of a plain reference.
fn plain_name(value: &Value) -> Option<u64>
    ensures { result ≡ plain_name_of (view value.now) }
{
    match value {
        Value::Reference(name) => Some(name.0),
        _ => None,
    }
}

/// The names of the plain references.
fn plain_names(alloc: Global, values: &[Value]) -> Result<Vec<u64>, AllocError>
    ensures { IfOk result (λ names. names.items ≡ plain_names_of (views values.now)) }
{
    let mut names = Vec::new(alloc);
    for value in values {
        names = with_name(names, plain_name(value))?;
    }
    Ok(names)
}

/// The names, and behind them this one, if there is one.
fn with_name(names: Vec<u64>, name: Option<u64>) -> Result<Vec<u64>, AllocError>
    ensures { IfOk result (λ more. more.items ≡ names.items ++ listed name) }
{
    let mut more = names;
    if let Some(name) = name {
        more.push(name)?;
    }
    Ok(more)
}

/// How many of these names have each rank.
fn counts(
    alloc: Global,
    names: &[u64],
    standings: &Standings,
) -> Result<BTreeMap<u64, usize>, AllocError>
    ensures { IfOk result (λ counts. IsCount (standing_of standings.now) names.now counts) }
{
    let mut counts = BTreeMap::new(alloc);
    for i in 0..names.len() {
        let rank = standings.rank(names[i]);
        let before = count(&counts, rank);
        counts.insert(rank, before + 1)?;
    }
    Ok(counts)
}

/// How many there are of a rank.
fn count(counts: &BTreeMap<u64, usize>, rank: u64) -> usize
    ensures { result ≡ new_name counts.now rank }
{
    match counts.get(&rank) {
        Some(count) => *count,
        None => 0,
    }
}
