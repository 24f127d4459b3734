//! Numbers one behind the other, each in a width that holds it.
ghost use Rattle.std.specs.Prelude.{◌≡◌, ◌<◌, ◌≤◌, ◌-◌, ◌^◌, ◌+◌, ℕ, List, [], ◌∷◌, ◌++◌, length, map, min, slice_get, vec_capacity, vec_len, OnErr, OnOk, Some, false, true};

use crate::room::make_room;
use crate::widths::Width;
use p21_values::NoMemory;
use std::alloc::Global;

/// Numbers in their order.
pub trait Row: Drop {
    ghost numbers: { Self → List ℕ };

    // So many numbers it holds at most.
    ghost most: { ℕ };

    // It has room for so many more at least.
    ghost room: { Self → ℕ };

    /// A list without numbers. It takes no memory.
    fn new(alloc: Global) -> Self
        ensures { numbers result ≡ [] };

    /// How many numbers there are.
    fn len(&self) -> usize
        requires { most < 2 ^ 64 }
        ensures len { result ≡ length (numbers self.now) }
        ensures most { result ≤ most };

    /// Whether there is no number.
    fn is_empty(&self) -> bool
        ensures none { result ≡ true → numbers self.now ≡ [] }
        ensures some { result ≡ false → 0 < length (numbers self.now) };

    /// The number at a position.
    fn get(&self, place: usize) -> usize
        requires { place < length (numbers self.now) }
        ensures { slice_get (numbers self.now) place ≡ Some result };

    /// Makes room for one number more, whatever its width. Where there is room, nothing is asked for.
    ///
    /// # Errors
    ///
    /// `NoMemory`. No number changes.
    fn make_place(&mut self) -> Result<(), NoMemory>
        ensures same { numbers self.new ≡ numbers self.old }
        ensures ok { OnOk result (0 < room self.new) }
        ensures full { OnErr result (room self.old ≡ 0) };

    /// Adds a number, for which there is room.
    fn put(&mut self, number: usize)
        requires { 0 < room self.old }
        ensures { numbers self.new ≡ numbers self.old ++ number ∷ [] };
}

impl Row for Vec<usize> {
    ghost numbers = { λ row. row.items };

    ghost most = { 2 ^ 60 };

    ghost room = { λ row. vec_capacity row - vec_len row };

    fn new(alloc: Global) -> Vec<usize> {
        Vec::new(alloc)
    }

    fn len(&self) -> usize {
        self.as_slice().len()
    }

    fn is_empty(&self) -> bool {
        self.as_slice().is_empty()
    }

    fn get(&self, place: usize) -> usize {
        self[place]
    }

    fn make_place(&mut self) -> Result<(), NoMemory> {
        make_room(self)
    }

    fn put(&mut self, number: usize) {
        self.push_reserved(number);
    }
}

/// So many numbers stand in one width at most, which is more than memory holds. So the sum of lengths stays in 64 bits.
const MOST_OF_A_WIDTH: usize = 1 << 60;

/// Numbers of one width, and behind them wider ones: the first that the width doesn't hold, and those behind it.
#[derive(Drop)]
pub struct Layer<T, R> {
    narrow: Vec<T>,
    wide: R,
    ghost narrow_most: { length narrow.items ≤ 2 ^ 60 },
}

impl<T: Width + Drop, R: Row> Row for Layer<T, R> {
    ghost numbers = { λ layer. map T.value layer.narrow.items ++ R.numbers layer.wide };

    ghost most = { 2 ^ 60 + R.most };

    ghost room = { λ layer. min (vec_capacity layer.narrow - vec_len layer.narrow) (R.room layer.wide) };

    fn new(alloc: Global) -> Layer<T, R> {
        Layer {
            narrow: Vec::new(alloc),
            wide: R::new(alloc),
        }
    }

    fn len(&self) -> usize {
        self.narrow.len() + self.wide.len()
    }

    fn is_empty(&self) -> bool {
        self.narrow.is_empty() && self.wide.is_empty()
    }

    fn get(&self, place: usize) -> usize {
        let first = self.narrow.len();
        if place < first {
            return self.narrow[place].number();
        }
        self.wide.get(place - first)
    }

    fn make_place(&mut self) -> Result<(), NoMemory> {
        make_room(&mut self.narrow)?;
        self.wide.make_place()
    }

    fn put(&mut self, number: usize) {
        if self.wide.is_empty() && self.narrow.len() < MOST_OF_A_WIDTH {
            if let Some(narrow) = T::of(number) {
                self.narrow.push_reserved(narrow);
                return;
            }
        }
        self.wide.put(number);
    }
}
