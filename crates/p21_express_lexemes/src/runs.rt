ghost use Rattle.p21_express_lexemes.specs.Runs.{AreApart, marks, run_of, behind_run, RunRead, ReadsRun};
ghost use Rattle.p21_express_lexemes.specs.Taking.{TakesExpected};

use crate::fault::{SyntaxFault, Wanted};
use crate::lexemes::Lexemes;

/// A lexeme at which a run opens or closes.
#[derive(Clone, Copy)]
pub enum Mark<'a> {
    /// A word in upper case.
    Word(&'a [u8]),
    Symbol(u8),
    Nothing,
}

/// Reads over a run and the lexeme that closes it.
///
/// # Errors
///
/// `Token` or `Syntax` where nothing closes it.
#[tactic(auto, unfolding(crate::specs::Runs::behind_run))]
pub fn read_over(lexemes: &mut Lexemes, opens: Mark, closes: Mark) -> Result<(), SyntaxFault>
    requires { AreApart (marks opens) (marks closes) }
    ensures behind { TakesExpected result (behind_run (marks opens.entry) (marks closes.entry) lexemes.old) lexemes.new }
    ensures reads { ReadsRun result (marks opens.entry) (marks closes.entry) lexemes.old lexemes.new }
{
    if run_over(lexemes, opens, closes) {
        Ok(())
    } else {
        Err(lexemes.refusal(Wanted::Grammar))
    }
}

/// The lexemes one by one, and how many open ones there are.
fn run_over(lexemes: &mut Lexemes, opens: Mark, closes: Mark) -> bool
    ensures { RunRead result (run_of (marks opens.entry) (marks closes.entry) 1 lexemes.old) lexemes.new }
{
    let most = lexemes.most();
    let mut depth = 1usize;
    while depth > 0 {
        if lexemes.take(closes) {
            depth -= 1;
        } else if lexemes.take(opens) {
            depth += 1;
        } else if !lexemes.advance() {
            return false;
        }
    }
    true
}
