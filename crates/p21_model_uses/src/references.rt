//! References by the numbers of their users and attributes.
ghost use Rattle.std.specs.Prelude.{◌≡◌, ◌^◌, ◌<◌, ◌≤◌, ℕ, List, Contains, IfErr, IfOk, IfSome, IsNone, length, map, slice_index_or};
ghost use Rattle.std.specs.List.{AllByRecursion as Each};
ghost use Rattle.p21_model_uses.specs.Tables.{AreEachOnce, IsOfMany, IsWithin, pair_cmp, place_of, told_by, user_and_place, user_of};
ghost use Rattle.p21_model_uses.specs.UseRows.{UseRow as MeantRow};
ghost use Rattle.std.specs.Ordering.{nat_cmp};

use crate::fault::UsersFault;
use crate::rows::{UseRow, row_at};
use p21_values::NoMemory;
use std::alloc::Global;

/// The numbers of the user and of the attribute, in the tables of both.
#[derive(Clone, Copy)]
pub(crate) struct Reference {
    pub(crate) user: u32,
    pub(crate) place: u32,
}

/// The users, each once, rising.
pub(crate) fn users_of(alloc: Global, rows: &[UseRow]) -> Result<Vec<u64>, NoMemory>
    ensures { IfOk result (λ users. AreEachOnce nat_cmp (map user_of rows.now) users.items) }
{
    let mut users = Vec::with_capacity(alloc, rows.len())?;
    for at in 0..rows.len() {
        users.push(row_at(rows, at).1)?;
    }
    users.sort_unstable();
    users.dedup();
    users.shrink_to_fit();
    Ok(users)
}

/// The attributes that have a reference, each once, rising.
pub(crate) fn places_of(alloc: Global, rows: &[UseRow]) -> Result<Vec<(u32, u32)>, NoMemory>
    ensures { IfOk result (λ places. AreEachOnce pair_cmp (map place_of rows.now) places.items) }
{
    let mut places = Vec::with_capacity(alloc, rows.len())?;
    for at in 0..rows.len() {
        let row = row_at(rows, at);
        places.push((row.2, row.3))?;
    }
    places.sort_unstable();
    places.dedup();
    places.shrink_to_fit();
    Ok(places)
}

/// The references of these uses, in their order.
pub(crate) fn references_of(
    alloc: Global,
    users: &[u64],
    places: &[(u32, u32)],
    rows: &[UseRow],
) -> Result<Vec<Reference>, UsersFault>
    ensures told { IfOk result (λ references. map (told_by users.now places.now) references.items ≡ map user_and_place rows.now) }
    ensures within { IfOk result (λ references. Each (IsWithin users.now places.now) references.items) }
    ensures fault { AreEachOnce nat_cmp (map user_of rows.now) users.now → AreEachOnce pair_cmp (map place_of rows.now) places.now →
        IfErr result (IsOfMany (length rows.now)) }
{
    let mut references = Vec::with_capacity(alloc, rows.len())?;
    for at in 0..rows.len() {
        let Some(reference) = reference_of(users, places, row_at(rows, at)) else {
            return Err(UsersFault::TooMany);
        };
        references.push(reference)?;
    }
    Ok(references)
}

/// The reference of a use whose user and attribute are among these; none where a number of 32 bits doesn't reach one of them.
fn reference_of(users: &[u64], places: &[(u32, u32)], row: UseRow) -> Option<Reference>
    ensures told { IfSome result (λ found. told_by users.now places.now found ≡ user_and_place row) }
    ensures within { IfSome result (λ found. IsWithin users.now places.now found) }
    ensures none { (rows : List MeantRow) → Contains rows row → AreEachOnce nat_cmp (map user_of rows) users.now →
        AreEachOnce pair_cmp (map place_of rows) places.now → IsNone result → 2 ^ 32 ≤ length rows }
{
    let Some(user) = user_number(users, row.1) else {
        return None;
    };
    let Some(place) = place_number(places, (row.2, row.3)) else {
        return None;
    };
    Some(Reference { user, place })
}

/// The number of a user, if it is among these.
fn user_number(users: &[u64], user: u64) -> Option<u32>
    ensures some { IfSome result (λ n. (n < length users.now) × (slice_index_or users.now n 0 ≡ user)) }
    ensures none { (all : List ℕ) → Contains all user → AreEachOnce nat_cmp all users.now → IsNone result → 2 ^ 32 ≤ length all }
{
    match users.binary_search(&user) {
        Ok(at) => narrow(at),
        Err(_) => None,
    }
}

/// The number of an attribute, if it is among these.
fn place_number(places: &[(u32, u32)], place: (u32, u32)) -> Option<u32>
    ensures some { IfSome result (λ n. (n < length places.now) × (slice_index_or places.now n (0, 0) ≡ place)) }
    ensures none { (all : List (ℕ × ℕ)) → Contains all place → AreEachOnce pair_cmp all places.now → IsNone result → 2 ^ 32 ≤ length all }
{
    match places.binary_search(&place) {
        Ok(at) => narrow(at),
        Err(_) => None,
    }
}

/// A number in 32 bits, if it has no more.
pub(crate) fn narrow(number: usize) -> Option<u32>
    ensures some { IfSome result (λ n. n ≡ number) }
    ensures none { IsNone result → 2 ^ 32 ≤ number }
{
    match u32::try_from(number) {
        Ok(number) => Some(number),
        Err(_) => None,
    }
}
