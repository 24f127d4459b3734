use crate::fault::Fault;
use crate::statement_reader::StatementReader;
use p21_grammar::{GrammarFault, KINDS, Kind};

/// The kinds of token that could stand in place of one that was refused.
#[derive(Clone, Copy, Debug, PartialEq, Eq)]
pub struct Expected {
    // A bit for each kind, by its number.
    kinds: u32,
}

impl Expected {
    /// No kind. It takes no memory.
    pub fn none() -> Expected {
        Expected { kinds: 0 }
    }

    /// What a statement reader could have taken in place of the token with which it was refused as unexpected: no kind where it was
    /// refused for another reason. It takes no memory.
    pub fn of(fault: Fault, statements: &StatementReader) -> Expected {
        let mut expected = Expected::none();
        if !matches!(fault, Fault::Grammar(GrammarFault::Unexpected)) {
            return expected;
        }
        for kind in &KINDS {
            if statements.could_take(*kind) {
                expected.kinds |= bit_of(*kind);
            }
        }
        expected
    }

    /// Whether a token of this kind could stand there. It takes no memory.
    pub fn has(self, kind: Kind) -> bool {
        self.kinds & bit_of(kind) != 0
    }
}

fn bit_of(kind: Kind) -> u32 {
    1u32.wrapping_shl(kind as u32)
}
