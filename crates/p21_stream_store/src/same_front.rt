//! Lists of entities compared 16 entities at a time.
ghost use Rattle.std.specs.Prelude.{◌≡◌, ◌+◌, ◌≤◌, drop, length, take, IsTrue};
ghost use Rattle.p21_mapping_values.specs.TypedView.{ids_view};

use p21_express_graph::EntityId;
use std::simd::prelude::*;

/// So many entities are compared at once.
const ROW: usize = 16;

/// Whether the entities are the same, one by one.
#[inline(always)]
pub(crate) fn are_same(entities: &[EntityId], others: &[EntityId]) -> bool
    ensures { IsTrue result → entities.now ≡ others.now }
{
    if entities.len() != others.len() {
        return false;
    }
    if entities.len() < ROW {
        return are_few_same(entities, others);
    }
    are_same_by_rows(entities, others)
}

/// The same of lists that are equally long, one by one.
#[inline(always)]
fn are_few_same(entities: &[EntityId], others: &[EntityId]) -> bool
    requires { length entities.now ≡ length others.now }
    ensures { IsTrue result → entities.now ≡ others.now }
{
    for at in 0..entities.len() {
        if entities[at].0 != others[at].0 {
            return false;
        }
    }
    true
}

/// The same, row by row.
#[inline(never)]
fn are_same_by_rows(entities: &[EntityId], others: &[EntityId]) -> bool
    ensures { IsTrue result → entities.now ≡ others.now }
{
    let same = same_front(entities, others);
    are_equal(&entities[same..], &others[same..])
}

/// Whether the entities are equal, one by one.
#[inline(always)]
fn are_equal(entities: &[EntityId], others: &[EntityId]) -> bool
    ensures { IsTrue result → entities.now ≡ others.now }
{
    entities == others
}

/// How many entities at the front of both are the same, where they are looked at in whole rows.
pub(crate) fn same_front(entities: &[EntityId], others: &[EntityId]) -> usize
    ensures within { result ≤ length entities.now }
    ensures both { result ≤ length others.now }
    ensures same { take result entities.now ≡ take result others.now }
{
    let count = entities.len().min(others.len());
    let mut at = 0;
    while ROW <= count - at && has_same_row(entities, others, at) {
        at += ROW;
    }
    at
}

/// Whether the rows from there on are the same.
#[inline(always)]
fn has_same_row(entities: &[EntityId], others: &[EntityId], at: usize) -> bool
    requires entities { at + 16 ≤ length entities.now }
    requires others { at + 16 ≤ length others.now }
    ensures { IsTrue result → take 16 (drop at entities.now) ≡ take 16 (drop at others.now) }
{
    let row = row_at(entities, at);
    row.simd_eq(row_at(others, at)).all()
}

/// The numbers of the entities of the row from there on.
#[inline(always)]
fn row_at(entities: &[EntityId], at: usize) -> u32x16
    requires { at + 16 ≤ length entities.now }
    ensures { result ≡ ids_view (take 16 (drop at entities.now)) }
{
    let row = &entities[at..at + ROW];
    u32x16::from_array([
        row[0].0, row[1].0, row[2].0, row[3].0, row[4].0, row[5].0, row[6].0, row[7].0, row[8].0,
        row[9].0, row[10].0, row[11].0, row[12].0, row[13].0, row[14].0, row[15].0,
    ])
}
