//! The numbers of the names in an order.
ghost use Rattle.std.specs.List.{IsDistinct};
ghost use Rattle.std.specs.Prelude.{◌≡◌, ℕ, nat_eq, Contains, IfOk};
ghost use Rattle.p21_spec_numbering.specs.Ordered.{number_in};
ghost use Rattle.p21_numbering.specs.NewNames.{new_name};

use std::alloc::{AllocError, Global};
use std::collections::BTreeMap;

/// The number of each name, where names differ: its position in the order, from 1 on.
///
/// # Errors
///
/// Where memory runs out.
pub fn numbers_in(alloc: Global, order: &[u64]) -> Result<BTreeMap<u64, u64>, AllocError>
    ensures { IfOk result (λ numbers. IsDistinct nat_eq order.now → (n : ℕ) → Contains order.now n
        → new_name numbers n ≡ number_in order.now n) }
{
    let mut numbers = BTreeMap::new(alloc);
    for k in 0..order.len() {
        numbers.insert(order[k], k as u64 + 1)?;
    }
    Ok(numbers)
}
