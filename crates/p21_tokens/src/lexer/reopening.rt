//! A lexer that is taken back, behind a statement that is passed over.
//!
//! The bytes that are passed over count: for places, and for the limit of the file. So the lexer stands for a history that has as many
//! separators in their stead, which give no token and belong to no statement.
ghost use Rattle.std.specs.Prelude.{◌≡◌, ◌↔◌, ◌≤◌, IsTrue, true, false};
ghost use Rattle.p21_tokens.specs.Held.{file_limit_of};
ghost use Rattle.p21_tokens.specs.Reopening.{GivesReopened, reopened};

use super::Lexer;
use crate::places::Starts;
use p21_tokens_automaton::Mode;
use p21_values::Text;

impl Lexer {
    /// Stands in front of this byte of the file, with no token and no statement open, as if from where it last rested on separators
    /// stood there; says whether it does. It does where the file may have as many bytes. A refusal is forgotten. It takes no memory.
    pub fn reopen(&mut self, place: u64) -> bool
        ensures reopens { IsTrue result ↔ (place ≤ file_limit_of self.old) }
        ensures held { result ≡ true → self.new ≡ reopened self.old place }
        ensures left { result ≡ false → self.new ≡ self.old }
        ensures history { result ≡ true → GivesReopened self.old place self.new }
    {
        if place > self.file_limit {
            return false;
        }
        self.mode = Mode::Between;
        self.pending_bytes.clear();
        self.text = Text::new(self.alloc);
        self.size = 0;
        self.statement = 0;
        self.file = place;
        self.starts = Starts {
            token: place,
            statement: place,
        };
        self.refused = None;
        true
    }
}
