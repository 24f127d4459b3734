ghost use Rattle.std.specs.Prelude.{◌≤◌, IsTrue};
ghost use Rattle.p21_shorter_instances.specs.Elements.{AddsLength};

/// Adds how long an element is, where elements are compared; says whether there was memory.
#[inline(always)]
pub(crate) fn add_length(
    compared: bool,
    before: usize,
    behind: usize,
    lengths: &mut Vec<usize>,
) -> bool
    ensures { IsTrue result → AddsLength compared before behind lengths.old.items lengths.new.items }
{
    if !compared {
        return true;
    }
    lengths.push(behind.saturating_sub(before)).is_ok()
}
