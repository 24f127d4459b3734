//! Lists that grow by an element or to an index, with room for no more elements than are stated, and at least twofold where they
//! grow. Of the library's calls `reserve_exact` and `push_reserved` say how much room a list has at most; a `push` may make as much as
//! it likes.
ghost use Rattle.std.specs.Prelude.{◌≡◌, ◌+◌, ◌*◌, ◌<◌, ◌≤◌, ℕ, [], ◌∷◌, ◌++◌, length, min, slice_index_or, vec_capacity, vec_len, IsOk, OnErr, OnOk};

use p21_values::NoMemory;

/// A list that grows has room for so many elements at least.
const FEWEST: usize = 16;

/// Adds an element. Where there is room for it, nothing is asked for.
///
/// # Errors
///
/// `NoMemory`, which changes no element.
#[inline]
pub fn add<T: Drop>(list: &mut Vec<T>, element: T) -> Result<(), NoMemory>
    ensures ok { OnOk result (list.new.items ≡ list.old.items ++ element ∷ []) }
    ensures err { OnErr result (list.new.items ≡ list.old.items) }
    ensures full { OnErr result (vec_capacity list.old ≤ vec_len list.old) }
    ensures kept { vec_len list.old < vec_capacity list.old → vec_capacity list.new ≡ vec_capacity list.old }
    ensures twofold { vec_capacity list.old ≤ vec_len list.old → OnOk result (2 * vec_len list.old ≤ vec_capacity list.new) }
    ensures room { (m : ℕ) → vec_capacity list.old ≤ m → 32 ≤ m → 2 * vec_len list.old ≤ m → vec_capacity list.new ≤ m }
{
    make_room(list)?;
    list.push_reserved(element);
    Ok(())
}

/// Makes room for one element more, where there is none: for as many again as the list has, or for some.
///
/// # Errors
///
/// `NoMemory`, which changes nothing.
#[inline]
pub fn make_room<T>(list: &mut Vec<T>) -> Result<(), NoMemory>
    ensures items { list.new.items ≡ list.old.items }
    ensures ok { OnOk result (vec_len list.new + 1 ≤ vec_capacity list.new) }
    ensures full { OnErr result (vec_capacity list.old ≤ vec_len list.old) }
    ensures kept { vec_len list.old < vec_capacity list.old → vec_capacity list.new ≡ vec_capacity list.old }
    ensures twofold { vec_capacity list.old ≤ vec_len list.old → OnOk result (2 * vec_len list.old ≤ vec_capacity list.new) }
    ensures room { (m : ℕ) → vec_capacity list.old ≤ m → 32 ≤ m → 2 * vec_len list.old ≤ m → vec_capacity list.new ≤ m }
{
    let count = list.len();
    if count < list.capacity() {
        return Ok(());
    }
    let Ok(()) = list.reserve_exact(count.max(FEWEST)) else {
        return Err(NoMemory);
    };
    Ok(())
}

/// Adds elements of this value until there is one at an index, where there is none yet; and further ones, so that a list grows
/// twofold, up to the most. It gets room for no more elements than the most, and where there is one at the index, nothing changes.
pub fn reach<T: Copy>(list: &mut Vec<T>, index: usize, most: usize, fill: T) -> Result<(), NoMemory>
    requires { index < most }
    ensures reached { OnOk result (index < length list.new.items) }
    ensures there { index < vec_len list.old → IsOk result × (list.new ≡ list.old) }
    ensures twofold { vec_len list.old ≤ index → OnOk result (min most (2 * vec_len list.old) ≤ vec_len list.new) }
    ensures same { (other : ℕ) → slice_index_or list.new.items other fill ≡ slice_index_or list.old.items other fill }
    ensures err { OnErr result (list.new.items ≡ list.old.items) }
    ensures no_room { OnErr result (vec_capacity list.new ≡ vec_capacity list.old) }
    ensures room { (m : ℕ) → vec_capacity list.old ≤ m → most ≤ m → vec_capacity list.new ≤ m }
{
    if index < list.len() {
        return Ok(());
    }
    let more = wider_count(list.len(), index, most) - list.len();
    let Ok(()) = list.reserve_exact(more) else {
        return Err(NoMemory);
    };
    fill_up(list, more, fill);
    Ok(())
}

/// How many elements a list gets, so that there is one at an index: twice as many, or as many as that takes.
pub fn wider_count(count: usize, index: usize, most: usize) -> usize
    requires behind { count ≤ index }
    requires within { index < most }
    ensures reached { index < result }
    ensures twofold { min most (2 * count) ≤ result }
    ensures most { result ≤ most }
{
    if count >= most / 2 {
        return most;
    }
    let twice = count + count;
    if twice > index { twice } else { index + 1 }
}

/// Adds so many elements of this value, for which there is room.
fn fill_up<T: Copy>(list: &mut Vec<T>, more: usize, fill: T)
    requires { vec_len list.old + more ≤ vec_capacity list.old }
    ensures count { vec_len list.new ≡ vec_len list.old + more }
    ensures same { (other : ℕ) → slice_index_or list.new.items other fill ≡ slice_index_or list.old.items other fill }
    ensures room { vec_capacity list.new ≡ vec_capacity list.old }
{
    for _ in 0..more {
        list.push_reserved(fill);
    }
}
