//! Where the values of an instance refer to others.
ghost use Rattle.std.specs.Prelude.{◌≡◌, ◌<◌, ◌≤◌, ◌+◌, ◌^◌, ◌++◌, [], ◌∷◌, length, map, IfOk, OnOk};
ghost use Rattle.p21_spec_numbering.specs.Uses.{typed_uses, uses_among, uses_from, value_uses};
ghost use Rattle.p21_mapping_values.specs.TypedView.{typed_view};
ghost use Rattle.p21_mapping_values.specs.View.{view, views};
ghost use Rattle.p21_numbering.specs.PlacedUses.{behind, held_uses};

use p21_mapping_values::{Typed, Value};
use std::alloc::{AllocError, Global};

/// A reference: the way to it, and the name of the instance that it leads to.
#[derive(Drop)]
pub struct PlacedUse {
    pub place: Vec<u64>,
    pub target: u64,
}

/// The references of an instance, in the order of its values. The way to one is the number of the entity in the set, the number
/// of the attribute, then the position from 1 in each list and array, and 0 in each set and bag.
///
/// # Errors
///
/// Where memory runs out.
pub fn uses_in(alloc: Global, typed: &Typed<'_>) -> Result<Vec<PlacedUse>, AllocError>
    ensures { IfOk result (λ uses. held_uses uses.items ≡ typed_uses (typed_view typed.now)) }
{
    let mut place = Vec::new(alloc);
    let mut uses = Vec::new(alloc);
    let rows = typed.values.items();
    for k in 0..rows.len() {
        place.push(k as u64)?;
        add_in_order(rows[k].items(), 0, &mut place, &mut uses)?;
        place.pop();
    }
    Ok(uses)
}

/// Adds the references in a value that stands at this place.
#[cycle(add)]
fn add_value(
    value: &Value,
    place: &mut Vec<u64>,
    uses: &mut Vec<PlacedUse>,
) -> Result<(), AllocError>
    ensures uses { OnOk result (held_uses uses.new.items ≡ held_uses uses.old.items
        ++ map (behind place.old.items) (value_uses (view value.now))) }
    ensures place { OnOk result (place.new.items ≡ place.old.items) }
{
    match value {
        Value::Reference(name) => add_use(place, name.0, uses),
        Value::List(values) => add_in_order(values.items(), 1, place, uses),
        Value::Array(values) => add_in_order(values.items(), 1, place, uses),
        Value::Set(values) => add_among(values.items(), place, uses),
        Value::Bag(values) => add_among(values.items(), place, uses),
        Value::Tagged(_, inner) => add_value(inner, place, uses),
        _ => Ok(()),
    }
}

/// Adds the references in values with positions, from the first one's on.
#[cycle(add)]
fn add_in_order(
    values: &[Value],
    first: u64,
    place: &mut Vec<u64>,
    uses: &mut Vec<PlacedUse>,
) -> Result<(), AllocError>
    requires { first ≤ 1 }
    ensures uses { OnOk result (held_uses uses.new.items ≡ held_uses uses.old.items
        ++ map (behind place.old.items) (uses_from first (views values.now))) }
    ensures place { OnOk result (place.new.items ≡ place.old.items) }
{
    for i in 0..values.len() {
        place.push(first + i as u64)?;
        add_value(&values[i], place, uses)?;
        place.pop();
    }
    Ok(())
}

/// Adds the references in values without order.
#[cycle(add)]
fn add_among(
    values: &[Value],
    place: &mut Vec<u64>,
    uses: &mut Vec<PlacedUse>,
) -> Result<(), AllocError>
    ensures uses { OnOk result (held_uses uses.new.items ≡ held_uses uses.old.items
        ++ map (behind place.old.items) (uses_among (views values.now))) }
    ensures place { OnOk result (place.new.items ≡ place.old.items) }
{
    place.push(0)?;
    for value in values {
        add_value(value, place, uses)?;
    }
    place.pop();
    Ok(())
}

/// Adds a reference.
fn add_use(place: &Vec<u64>, target: u64, uses: &mut Vec<PlacedUse>) -> Result<(), AllocError>
    ensures { OnOk result (held_uses uses.new.items ≡ held_uses uses.old.items ++ (place.now.items, target) ∷ []) }
{
    let place = Vec::from_slice(*place.allocator(), place)?;
    uses.push(PlacedUse { place, target })?;
    Ok(())
}
