//! Whole statements that are read elsewhere, and passed over here.
ghost use Rattle.std.specs.Prelude.{◌≡◌, ◌↔◌, ◌+◌, ◌≤◌, IsTrue, true, false};
ghost use Rattle.p21_tokens.specs.Histories.{Stands, TokenHistory};
ghost use Rattle.p21_tokens.specs.Passing.{GivesPassed, IsAtRest, IsResting, room_of};

use super::Lexer;
use p21_tokens_automaton::Mode;

impl Lexer {
    /// Whether it stands between two tokens, with nothing pending and no statement open. It takes no memory.
    pub fn is_resting(&self) -> bool
        ensures value { IsTrue result ↔ IsResting self.now }
        ensures rests { result ≡ true → (history : TokenHistory) → Stands self.now history → IsAtRest history }
    {
        if self.refused.is_some() {
            return false;
        }
        let Mode::Between = self.mode else {
            return false;
        };
        self.size == 0 && self.statement == 0
    }

    /// How many bytes of whole statements both limits allow, also where one statement has them all. It takes no memory.
    pub fn room_for_statements(&self) -> u64
        ensures value { result ≡ room_of self.now }
    {
        let file = self.file_limit - self.file;
        file.min(self.statement_limit)
    }

    /// Passes over bytes of whole statements, with separators around their tokens, as if it had taken them; says whether
    /// it did. It does where it rests and has room for as many. The caller has read them. It takes no memory.
    pub fn pass_over(&mut self, count: usize) -> bool
        ensures passes { IsTrue result ↔ (IsResting self.old × (count ≤ room_of self.old)) }
        ensures held { result ≡ true → self.new ≡ record self.old { file = self.old.file + count } }
        ensures left { result ≡ false → self.new ≡ self.old }
        ensures history { result ≡ true → GivesPassed self.old count self.new }
    {
        let count = count as u64;
        if !self.is_resting() {
            return false;
        }
        if self.room_for_statements() < count {
            return false;
        }
        self.file += count;
        true
    }
}
