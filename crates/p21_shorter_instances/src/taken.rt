//! What is taken of an instance.
ghost use Rattle.std.specs.Prelude.{◌≡◌, []};

use p21_mapping_values::Need;
use p21_shorter_tokens::Draft;
use std::alloc::Global;

/// What is taken of an instance, straight from its bytes: the draft of its canonical line, and what its references need, in the
/// order in which they are named.
pub struct Taken {
    pub draft: Draft,
    pub needs: Vec<Need>,
}

// Written out: crates above call it, where they would prove a derived one field by field.
impl Drop for Taken {
    fn drop(self) {
        let Taken { draft: _, needs: _ } = self;
    }
}

impl Taken {
    /// Nothing. It takes no memory.
    pub fn new(alloc: Global) -> Taken
        ensures draft { result.draft ≡ [] }
        ensures needs { result.needs.items ≡ [] }
    {
        Taken {
            draft: Draft::new(alloc),
            needs: Vec::new(alloc),
        }
    }
}
