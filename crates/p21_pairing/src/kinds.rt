//! Kinds of instances, by their sets of entities.
ghost use Rattle.std.specs.Prelude.{◌≡◌, ◌<◌, ℕ, length, map, IfOk};
ghost use Rattle.p21_mapping_values.specs.TypedView.{ids_view};
ghost use Rattle.p21_numbering.specs.Arrays.{rank_at};
ghost use Rattle.p21_numbering.specs.Instances.{file_instances};
ghost use Rattle.p21_numbering.specs.Rows.{held_rows, lent_rows, rank_among};
ghost use Rattle.p21_pairing.specs.Clauses.{rows_with};
ghost use Rattle.p21_pairing.specs.Kinds.{AreKinds};

use p21_express_graph::EntityId;
use p21_numbering::{Instance, ranks_of_rows};
use std::alloc::{AllocError, Global};

/// A number for the set of entities of each instance of the first file, and behind them of the second one.
pub fn kinds(
    alloc: Global,
    first: &[Instance<'_>],
    second: &[Instance<'_>],
) -> Result<Vec<usize>, AllocError>
    ensures { IfOk result (λ kinds. AreKinds (file_instances first.now) (file_instances second.now) kinds.items) }
{
    let own = with_entities(alloc, first, Vec::new(alloc))?;
    let rows = with_entities(alloc, second, own)?;
    let kinds = ranks_of(alloc, &rows)?;
    Ok(kinds)
}

/// The rank of each row among them.
pub fn ranks_of(alloc: Global, rows: &[Vec<u64>]) -> Result<Vec<usize>, AllocError>
    ensures size { IfOk result (λ ranks. length ranks.items ≡ length rows.now) }
    ensures within { IfOk result (λ ranks. (k : ℕ) → k < length rows.now → rank_at ranks.items k < length rows.now) }
    ensures ranks { IfOk result (λ ranks. ranks.items ≡ map (rank_among (held_rows rows.now)) (held_rows rows.now)) }
{
    let lent = lent(alloc, rows)?;
    ranks_of_lent(alloc, &lent)
}

/// The rank of each row among them.
pub fn ranks_of_lent(alloc: Global, rows: &[&[u64]]) -> Result<Vec<usize>, AllocError>
    ensures size { IfOk result (λ ranks. length ranks.items ≡ length rows.now) }
    ensures within { IfOk result (λ ranks. (k : ℕ) → k < length rows.now → rank_at ranks.items k < length rows.now) }
    ensures ranks { IfOk result (λ ranks. ranks.items ≡ map (rank_among (lent_rows rows.now)) (lent_rows rows.now)) }
{
    ranks_of_rows(alloc, rows)
}

/// The rows, lent.
fn lent(alloc: Global, rows: &[Vec<u64>]) -> Result<Vec<&[u64]>, AllocError>
    ensures { IfOk result (λ lent. lent_rows lent.items ≡ held_rows rows.now) }
{
    let mut lent = Vec::with_capacity(alloc, rows.len())?;
    for row in rows {
        let row: &Vec<u64> = row;
        lent.push(row.as_slice())?;
    }
    Ok(lent)
}

/// The rows, and behind them the entities of each instance.
fn with_entities(
    alloc: Global,
    instances: &[Instance<'_>],
    rows: Vec<Vec<u64>>,
) -> Result<Vec<Vec<u64>>, AllocError>
    ensures { IfOk result (λ more. held_rows more.items ≡ rows_with (held_rows rows.items) (file_instances instances.now)) }
{
    let mut more = rows;
    for k in 0..instances.len() {
        let one = &instances[k];
        let row = entities(alloc, one.typed.parts.items())?;
        more.push(row)?;
    }
    Ok(more)
}

/// The numbers of entities.
fn entities(alloc: Global, parts: &[EntityId]) -> Result<Vec<u64>, AllocError>
    ensures { IfOk result (λ row. row.items ≡ ids_view parts.now) }
{
    let mut row = Vec::with_capacity(alloc, parts.len())?;
    for part in parts {
        row.push(u64::from(part.0))?;
    }
    Ok(row)
}
