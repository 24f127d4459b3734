ghost use Rattle.std.specs.Prelude.{◌≡◌, ◌<◌, ◌^◌, ℕ, length, Contains, reverse, IfOk, MatchOption, [], ◌∷◌};
ghost use Rattle.p21_spec_schema.specs.Declared.{HasNoCircle};
ghost use Rattle.p21_express_graph.specs.SettledOrder.{AreWithin, IsNext, IsSettledOrder, lists_of};
ghost use Rattle.p21_express_graph.specs.Walk.{IsDone, IsOpen};
ghost use Rattle.p21_express_graph.specs.Walking.{WalksAlong, StepsTo, left};

use p21_values::NoMemory;
use std::alloc::Global;

/// What a step of a walk has come to.
#[derive(Clone, Copy, Debug, Drop)]
enum Progress {
    Going,
    Circle,
    Finished,
}

/// A walk along numbers that lead to numbers: which are done, in which order, the way to the one that is looked at, and how
/// many are known to be done from the first on.
#[derive(Drop)]
struct Walk {
    done: Vec<bool>,
    listed: Vec<u32>,
    way: Vec<u32>,
    passed: usize,
}

/// Lists all numbers below the number of lists, each behind those in its list; or none where a chain of them comes back.
///
/// # Errors
///
/// `NoMemory`.
pub fn settled_order(alloc: Global, nexts: &[Vec<u32>]) -> Result<Option<Vec<u32>>, NoMemory>
    requires few { length nexts.now < 2 ^ 32 }
    requires within { AreWithin (lists_of nexts.now) }
    ensures { IfOk result (λ answer. MatchOption answer (HasNoCircle (IsNext (lists_of nexts.now)) → ⊥) (λ listed. IsSettledOrder (lists_of nexts.now) listed.items)) }
{
    let mut walk = Walk {
        done: vec![in alloc; false; nexts.len()]?,
        listed: Vec::with_capacity(alloc, nexts.len())?,
        way: Vec::new(alloc),
        passed: 0,
    };
    loop {
        match walk.step(nexts)? {
            Progress::Going => {}
            Progress::Circle => return Ok(None),
            Progress::Finished => return Ok(Some(walk.listed)),
        }
    }
}

impl Walk {
    fn step(&mut self, nexts: &[Vec<u32>]) -> Result<Progress, NoMemory>
        requires few { length nexts.now < 2 ^ 32 }
        requires within { AreWithin (lists_of nexts.now) }
        requires stands { WalksAlong (lists_of nexts.now) self.old (reverse self.old.way.items) }
        ensures { IfOk result (λ progress. StepsTo (lists_of nexts.now) (left (lists_of nexts.now) self.old (reverse self.old.way.items)) progress self.new) }
    {
        match self.way.pop() {
            Some(top) => self.go_on(nexts, top),
            None => self.begin(nexts),
        }
    }

    /// Goes on from the last number of the way, which is taken from it.
    fn go_on(&mut self, nexts: &[Vec<u32>], top: u32) -> Result<Progress, NoMemory>
        requires within { AreWithin (lists_of nexts.now) }
        requires stands { WalksAlong (lists_of nexts.now) self.old (top ∷ reverse self.old.way.items) }
        ensures { IfOk result (λ progress. StepsTo (lists_of nexts.now) (left (lists_of nexts.now) self.old (top ∷ reverse self.old.way.items)) progress self.new) }
    {
        match first_open(&nexts[top as usize], &self.done) {
            Some(next) => {
                self.way.push(top)?;
                self.way.push(next)?;
                if self.way.len() > nexts.len() {
                    return Ok(Progress::Circle);
                }
                Ok(Progress::Going)
            }
            None => {
                self.done[top as usize] = true;
                self.listed.push(top)?;
                Ok(Progress::Going)
            }
        }
    }

    /// Begins a way at the first number that isn't done.
    fn begin(&mut self, nexts: &[Vec<u32>]) -> Result<Progress, NoMemory>
        requires few { length nexts.now < 2 ^ 32 }
        requires empty { self.old.way.items ≡ [] }
        requires stands { WalksAlong (lists_of nexts.now) self.old [] }
        ensures { IfOk result (λ progress. StepsTo (lists_of nexts.now) (left (lists_of nexts.now) self.old []) progress self.new) }
    {
        if self.passed == nexts.len() {
            return Ok(Progress::Finished);
        }
        if self.done[self.passed] {
            self.passed += 1;
        } else {
            self.way.push(self.passed as u32)?;
        }
        Ok(Progress::Going)
    }
}

/// The first number that isn't done.
fn first_open(numbers: &[u32], done: &[bool]) -> Option<u32>
    requires { (x : ℕ) → Contains numbers.now x → x < length done.now }
    ensures { MatchOption result ((x : ℕ) → Contains numbers.now x → IsDone done.now x) (λ x. Contains numbers.now x × IsOpen done.now x) }
{
    for number in numbers {
        if !done[*number as usize] {
            return Some(*number);
        }
    }
    None
}
