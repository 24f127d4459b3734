ghost use Rattle.std.specs.Prelude.{◌≡◌};
ghost use Rattle.p21_tokens.specs.Steps.{is_token_byte};

use crate::token::Token;
use p21_tokens_automaton::{Action, Mode};

/// What one byte did.
#[derive(Drop)]
pub(crate) enum Outcome {
    /// It was taken, and gave no token.
    Took,
    /// It was taken, and gave a token.
    Gave(Token),
    /// It ended the token in front of it, and wasn't taken.
    Handed(Token),
}

/// Whether a byte counts as one of a token: not between tokens, nor behind a `/`.
pub(crate) fn is_token_byte(mode: Mode, action: Action) -> bool
    ensures { result ≡ is_token_byte mode action }
{
    match action {
        Action::Pass(_next) => false,
        Action::Refuse(_wrong) => match mode {
            Mode::Slash => false,
            _ => true,
        },
        _ => true,
    }
}
