//! Where the parts of a real stand.
ghost use Rattle.std.specs.Prelude.{◌+◌, ◌≤◌, length, IfSome};
ghost use Rattle.p21_shorter_tokens.specs.Places.{HasPlaces, ShowDigits};

use crate::masks::{digit_masks, real_masks};

/// Where the parts of a real stand, counted from its first byte.
#[derive(Clone, Copy)]
pub struct Places {
    /// Where the point stands.
    pub point: usize,
    /// Where the first byte stands behind the point that is no digit.
    pub end: usize,
    /// Where the first digit stands that is not `0`, if there is one.
    pub first: usize,
    /// The place behind the last one, 0 if there is none.
    pub behind: usize,
}

/// Finds them where a digit stands there, within 32 bytes; the real may go on with an exponent at `end`.
#[inline(always)]
pub fn real_places(bytes: &[u8], at: usize) -> Option<Places>
    requires { at + 32 ≤ length bytes.now }
    ensures { IfSome result (λ places. HasPlaces bytes.now at places.point places.end places.first places.behind) }
{
    let (low, zeros) = digit_masks(bytes, at);
    if low & low.wrapping_sub(1) != 0 {
        return shown_places(bytes, at, low, zeros);
    }
    let (others, zeros) = real_masks(bytes, at);
    shown_places(bytes, at, others, zeros)
}

/// The same by what two masks show.
#[inline(always)]
fn shown_places(bytes: &[u8], at: usize, others: u64, zeros: u64) -> Option<Places>
    requires { ShowDigits bytes.now at others zeros }
    ensures { IfSome result (λ places. HasPlaces bytes.now at places.point places.end places.first places.behind) }
{
    if others == 0 {
        return None;
    }
    let rest = others & (others - 1);
    if rest == 0 {
        return None;
    }
    let point = others.trailing_zeros() as usize;
    if point == 0 || bytes[at + point] != b'.' {
        return None;
    }
    let end = rest.trailing_zeros() as usize;
    let counted = !(zeros | others) & ((1u64 << end) - 1);
    let first = counted.trailing_zeros() as usize;
    let behind = 64 - counted.leading_zeros() as usize;
    Some(Places {
        point,
        end,
        first,
        behind,
    })
}
