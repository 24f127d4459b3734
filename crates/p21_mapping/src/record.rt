ghost use Rattle.std.specs.Prelude.{◌≡◌, IfOk};
ghost use Rattle.p21_grammar_tree.specs.View.{part_view, part_views, record_view};

use crate::param::{copied_key, copied_params};
use p21_grammar_tree::{Part, Parts, Record};
use p21_values::NoMemory;
use std::alloc::Global;

/// A copy of a record.
///
/// # Errors
///
/// `NoMemory`.
pub fn copied_record(alloc: Global, of: &Record) -> Result<Record, NoMemory>
    ensures { IfOk result (λ copy. record_view copy ≡ record_view of.now) }
{
    match of {
        Record::Simple(part) => Ok(Record::Simple(copied_part(alloc, part)?)),
        Record::Complex(parts) => Ok(Record::Complex(copied_parts(alloc, parts)?)),
    }
}

/// A copy of a simple record.
fn copied_part(alloc: Global, part: &Part) -> Result<Part, NoMemory>
    ensures { IfOk result (λ copy. part_view copy ≡ part_view part.now) }
{
    Ok(Part {
        key: copied_key(alloc, &part.key)?,
        params: copied_params(alloc, part.params.items())?,
    })
}

/// Copies of simple records, in their order.
fn copied_parts(alloc: Global, parts: &Parts) -> Result<Parts, NoMemory>
    ensures { IfOk result (λ copy. part_views copy ≡ part_views parts.now) }
{
    let all = copied_each(alloc, parts.items())?;
    match Parts::from_vec(all) {
        Some(copy) => Ok(copy),
        None => unreachable!(),
    }
}

fn copied_each(alloc: Global, parts: &[Part]) -> Result<Vec<Part>, NoMemory>
    ensures { IfOk result (λ copies. part_views copies.items ≡ part_views parts.now) }
{
    let mut copies = Vec::with_capacity(alloc, parts.len())?;
    for i in 0..parts.len() {
        copies.push(copied_part(alloc, &parts[i])?)?;
    }
    Ok(copies)
}
