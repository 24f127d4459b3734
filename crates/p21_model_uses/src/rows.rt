//! Uses in their order.
ghost use Rattle.std.specs.Prelude.{◌≡◌, ◌<◌, ◌↔◌, Contains, length, slice_index_or};
ghost use Rattle.p21_model_uses.specs.UseRows.{AreInOrder, UseRow as MeantRow};

/// The name that is used, that of the instance that uses it, and the entity and the number of the attribute.
pub(crate) type UseRow = (u64, u64, u32, u32);

/// The uses in their order, each once.
pub(crate) fn in_order(rows: Vec<UseRow>) -> Vec<UseRow>
    ensures order { AreInOrder result.items }
    ensures members { (u : MeantRow) → Contains result.items u ↔ Contains rows.items u }
{
    let mut ordered = rows;
    ordered.sort_unstable();
    ordered.dedup();
    ordered
}

/// The use that stands here.
pub(crate) fn row_at(rows: &[UseRow], at: usize) -> UseRow
    requires { at < length rows.now }
    ensures { result ≡ slice_index_or rows.now at (0, 0, 0, 0) }
{
    rows[at]
}
