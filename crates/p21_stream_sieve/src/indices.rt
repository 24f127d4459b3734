/// The most levels of aggregates of which the index is told: those inside are not.
const MOST_LEVELS: usize = 8;

/// Which element of the value of an attribute is refused: the way there through the aggregates, the outermost first, each by its
/// number from 1 on. The value inside a typed parameter is its element 1. There are none where the whole value is refused.
#[derive(Clone, Copy, Debug, PartialEq, Eq)]
pub struct Indices {
    numbers: [u32; MOST_LEVELS],
    count: usize,
}

impl Indices {
    /// No index. It takes no memory.
    pub fn none() -> Indices {
        Indices {
            numbers: [0; MOST_LEVELS],
            count: 0,
        }
    }

    /// Those of steps from the element up to the value, each counted from 0.
    pub fn of(steps: &[usize]) -> Indices {
        let mut indices = Indices::none();
        for at in 0..steps.len() {
            indices.add(number_of(steps[steps.len() - 1 - at]));
        }
        indices
    }

    /// Those of these numbers.
    pub fn of_numbers(numbers: &[u32]) -> Indices {
        let mut indices = Indices::none();
        for number in numbers {
            indices.add(*number);
        }
        indices
    }

    /// The numbers. It takes no memory.
    pub fn numbers(&self) -> &[u32] {
        self.numbers.get(..self.count).unwrap_or(&[])
    }

    fn add(&mut self, number: u32) {
        if let Some(slot) = self.numbers.get_mut(self.count) {
            *slot = number;
            self.count = self.count.saturating_add(1);
        }
    }
}

/// The number from 1 on of an element that is counted from 0.
fn number_of(step: usize) -> u32 {
    step.saturating_add(1).min(u32::MAX as usize) as u32
}
