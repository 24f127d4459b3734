//! Numbers that rise by equal steps.
ghost use Rattle.std.specs.Prelude.{◌≡◌, ◌+◌, ◌*◌, ◌/◌, ◌<◌, ◌≤◌, ◌^◌, ℕ, [], ◌∷◌, ◌++◌, length, slice_get, IfSome, IsNone, MatchBool, None, Some};
ghost use Rattle.std.specs.List.{range_with_len};
ghost use Rattle.p21_stream_store.specs.Runs.{numbers_by, place_in};

use std::marker::Model;

/// Numbers that rise by equal steps, as by one or by ten. They take no memory.
#[derive(Drop)]
pub struct Run {
    first: usize,
    step: usize,
    // In 32 bits, so that a sum of lengths stays in 64.
    count: u32,
}

impl Model for Run {
    ghost use Rattle.std.specs.Prelude.{◌+◌, ◌*◌, ◌-◌, ◌<◌, ◌^◌, List, ℕ};
    ghost use Rattle.p21_stream_store.specs.Runs.{numbers_by};

    ghost Value = { List ℕ };

    ghost view = { λ a. numbers_by a.first a.step a.count };

    ghost invariant = { λ a. (0 < a.step) × (a.first + (a.count - 1) * a.step < 2 ^ 64) };
}

impl Run {
    /// A run without numbers.
    pub fn new() -> Run
        ensures { result ≡ [] }
    {
        Run {
            first: 0,
            step: 1,
            count: 0,
        }
    }

    /// So many numbers from 0 on, by ones.
    pub fn below(count: usize) -> Run
        requires { count < 2 ^ 32 }
        ensures { result ≡ range_with_len 0 count }
    {
        Run {
            first: 0,
            step: 1,
            count: count as u32,
        }
    }

    /// The numbers rise by equal steps. It does nothing.
    pub fn rises(&self)
        ensures { (first : ℕ) × (step : ℕ) × (0 < step) × (self.now ≡ numbers_by first step (length self.now)) }
    {
        let _step = self.step;
    }

    /// How many numbers there are.
    pub fn len(&self) -> usize
        ensures len { result ≡ length self.now }
        ensures small { result < 2 ^ 32 }
    {
        self.count as usize
    }

    /// The number at a position.
    pub fn get(&self, place: usize) -> usize
        requires { place < length self.now }
        ensures { slice_get self.now place ≡ Some result }
    {
        self.first + place * self.step
    }

    /// The position of a number.
    #[inline]
    pub fn position_of(&self, number: u64) -> Option<usize>
        ensures { result ≡ place_in self.now number }
    {
        let number = number as usize;
        if number < self.first {
            return None;
        }
        let distance = number - self.first;
        let place = steps_within(distance, self.step);
        if place >= self.count as usize || place * self.step != distance {
            return None;
        }
        Some(place)
    }

    /// The first number from this one on, and its position.
    pub fn next_from(&self, least: u64) -> Option<(u64, usize)>
        ensures found { IfSome result (λ found. (least ≤ found.0) × (found.0 < 2 ^ 64) × (place_in self.now found.0 ≡ Some found.1)) }
        ensures between { IfSome result (λ found. (other : ℕ) → least ≤ other → other < found.0 → place_in self.now other ≡ None) }
        ensures none { IsNone result → (other : ℕ) → least ≤ other → place_in self.now other ≡ None }
    {
        // Behind the last number no step is counted, which would cost a division.
        let steps = self.count.saturating_sub(1) as usize;
        let last = self.first + steps * self.step;
        if least as usize > last {
            return None;
        }
        let from = self.first.max(least as usize);
        let place = steps_to(from - self.first, self.step);
        if place >= self.count as usize {
            return None;
        }
        Some(((self.first + place * self.step) as u64, place))
    }

    /// Adds a number, if it is the next one; says whether it is. The second number says the step.
    pub fn push(&mut self, number: usize) -> bool
        ensures { MatchBool result (self.new ≡ self.old ++ number ∷ []) (self.new ≡ self.old) }
    {
        if self.count == 0 {
            self.first = number;
            self.count = 1;
            return true;
        }
        let last = self.first + (self.count as usize - 1) * self.step;
        if number <= last || self.count == u32::MAX {
            return false;
        }
        if self.count == 1 {
            self.step = number - last;
            self.count = 2;
            return true;
        }
        if number - last != self.step {
            return false;
        }
        self.count += 1;
        true
    }
}

/// How many whole steps there are in a distance. Mostly they are of one.
#[inline(always)]
fn steps_within(distance: usize, step: usize) -> usize
    requires { 0 < step }
    ensures { result ≡ distance / step }
{
    if step == 1 {
        return distance;
    }
    distance / step
}

/// The fewest steps that reach as far as a distance.
#[inline(always)]
fn steps_to(distance: usize, step: usize) -> usize
    requires { 0 < step }
    ensures reached { distance ≤ result * step }
    ensures fewest { (count : ℕ) → distance ≤ count * step → result ≤ count }
{
    let whole = steps_within(distance, step);
    if whole * step < distance {
        return whole + 1;
    }
    whole
}
