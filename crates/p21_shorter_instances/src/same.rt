//! Bytes compared eight at a time.
ghost use Rattle.std.specs.Prelude.{◌≡◌, ◌+◌, ◌≤◌, length, IsTrue, drop, take};
ghost use Rattle.std.specs.Int.{to_le_bytes, w64};

/// Whether these are the same bytes.
#[inline(always)]
pub(crate) fn are_same(bytes: &[u8], others: &[u8]) -> bool
    ensures { IsTrue result → bytes.now ≡ others.now }
{
    let size = bytes.len();
    if size != others.len() {
        return false;
    }
    if size < 8 {
        return bytes == others;
    }
    let last = size - 8;
    let mut count = 0;
    while count < last {
        if word_at(bytes, count) != word_at(others, count) {
            return false;
        }
        count += 8;
    }
    word_at(bytes, last) == word_at(others, last)
}

/// Eight bytes as a number.
#[inline(always)]
fn word_at(bytes: &[u8], at: usize) -> u64
    requires { at + 8 ≤ length bytes.now }
    ensures { to_le_bytes w64 result ≡ take 8 (drop at bytes.now) }
{
    match bytes[at..].split_first_chunk::<8>() {
        Some((front, _)) => u64::from_le_bytes(*front),
        None => unreachable!(),
    }
}
