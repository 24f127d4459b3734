ghost use Rattle.std.specs.Prelude.{◌≡◌, length, slice_get, Contains, IfOk, Some, ℕ};
ghost use Rattle.p21_express_graph.specs.Orders.{numbers};
ghost use Rattle.p21_mapping.specs.ArrangedRows.{AreArranged, HasNoEntityTwice};
ghost use Rattle.p21_mapping_values.specs.TypedView.{rows_view};

use crate::positions::Positions;
use p21_express_graph::EntityId;
use p21_mapping_values::Values;
use p21_values::NoMemory;
use std::alloc::Global;
use std::mem;

/// The rows of entities in the order of the set that they are.
pub(crate) fn arranged_rows(
    alloc: Global,
    entities: &[EntityId],
    listed: &[EntityId],
    rows: Vec<Values>,
) -> Result<Vec<Values>, NoMemory>
    requires listed { (e : ℕ) → Contains (numbers entities.now) e → Contains (numbers listed.now) e }
    requires differ { HasNoEntityTwice (numbers entities.now) }
    requires each { length rows.items ≡ length listed.now }
    ensures { IfOk result (λ all. AreArranged (numbers listed.now) (rows_view rows.items) (numbers entities.now) (rows_view all.items)) }
{
    let positions = Positions::of(alloc, listed)?;
    let mut left = rows;
    let mut all = Vec::with_capacity(alloc, entities.len())?;
    for entity in entities {
        let at = position(&positions, *entity);
        let row = mem::replace(&mut left[at], Values::from_vec(Vec::new(alloc)));
        all.push(row)?;
    }
    Ok(all)
}

/// Where an entity stands.
fn position(positions: &Positions<'_>, entity: EntityId) -> usize
    requires { Contains positions.now entity.0 }
    ensures { slice_get positions.now result ≡ Some entity.0 }
{
    match positions.find(entity) {
        Some(at) => at,
        None => unreachable!(),
    }
}
