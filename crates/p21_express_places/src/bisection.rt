use p21_values::NoMemory;
use std::alloc::Global;

/// Parts of something, of which each has all that the ones in front of it have.
pub(crate) trait Parts {
    /// Whether the part with so much of it is refused.
    fn is_refused(&self, alloc: Global, count: usize) -> Result<bool, NoMemory>;
}

/// The place in a list of what is the last of the shortest part that is refused, where so many may be in a part.
pub(crate) fn first_refused<P: Parts>(
    alloc: Global,
    parts: &P,
    count: usize,
) -> Result<Option<usize>, NoMemory> {
    if count == 0 || !parts.is_refused(alloc, count)? {
        return Ok(None);
    }
    let (mut low, mut high) = (0, count);
    for _ in 0..64 {
        if high.saturating_sub(low) <= 1 {
            break;
        }
        let middle = low.saturating_add(high.saturating_sub(low) / 2);
        if parts.is_refused(alloc, middle)? {
            high = middle;
        } else {
            low = middle;
        }
    }
    Ok(Some(high.saturating_sub(1)))
}
