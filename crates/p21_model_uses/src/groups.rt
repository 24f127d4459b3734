//! Where the uses of each name begin and end.
ghost use Rattle.std.specs.Prelude.{◌≡◌, ◌^◌, ◌≤◌, false, true, IfErr, IfOk, IfSome, IsNone, leb, length};
ghost use Rattle.std.specs.List.Sorted.{IsPartitionPoint};
ghost use Rattle.p21_model_uses.specs.Tables.{AreGroupsOf, IsOfMany};
ghost use Rattle.p21_model_uses.specs.UseRows.{AreInOrder, UseRow as MeantRow};

use crate::fault::UsersFault;
use crate::references::narrow;
use crate::rows::{UseRow, row_at};
use std::alloc::Global;

/// A name that is used, and where the references to it begin and end.
#[derive(Clone, Copy)]
pub(crate) struct Used {
    pub(crate) name: u64,
    pub(crate) start: u32,
    pub(crate) end: u32,
}

/// The names that are used, rising.
pub(crate) fn groups_of(alloc: Global, rows: &[UseRow]) -> Result<Vec<Used>, UsersFault>
    requires { AreInOrder rows.now }
    ensures groups { IfOk result (λ used. AreGroupsOf rows.now (length rows.now) used.items) }
    ensures fault { IfErr result (IsOfMany (length rows.now)) }
{
    let mut used = Vec::new(alloc);
    let mut at = 0;
    while at < rows.len() {
        let row = row_at(rows, at);
        let end = end_of(rows, row.0);
        let Some(group) = group_of(row.0, at, end) else {
            return Err(UsersFault::TooMany);
        };
        used.push(group)?;
        at = end;
    }
    used.shrink_to_fit();
    Ok(used)
}

/// Where the uses of this name and of all below it end.
fn end_of(rows: &[UseRow], name: u64) -> usize
    requires { AreInOrder rows.now }
    ensures bound { result ≤ length rows.now }
    ensures end { IsPartitionPoint (λ (u : MeantRow). leb u.0 name ≡ true) (λ (u : MeantRow). leb u.0 name ≡ false) rows.now result }
{
    rows.partition_point(|row| row.0 <= name)
}

/// The uses of a name from here to there, unless a number of 32 bits doesn't reach so far.
fn group_of(name: u64, start: usize, end: usize) -> Option<Used>
    ensures some { IfSome result (λ found. (found.name ≡ name) × (found.start ≡ start) × (found.end ≡ end)) }
    ensures none { IsNone result → start ≤ end → 2 ^ 32 ≤ end }
{
    let Some(start) = narrow(start) else {
        return None;
    };
    let Some(end) = narrow(end) else {
        return None;
    };
    Some(Used { name, start, end })
}
