//! As what a token is refused that does not go on with what is open.
ghost use Rattle.std.specs.Prelude.{◌≡◌};
ghost use Rattle.p21_grammar.specs.Machine.{at_end, misplaced_fault, misplaced_param_fault, other_section_fault, refuse};
ghost use Rattle.p21_tokens.specs.Token.{meant};

use crate::fault::GrammarFault;
use crate::shape::is_word;
use crate::stage::Stage;
use p21_tokens::{Absent, Token};
use p21_values::Word;

/// A keyword where a section or the end of the file may begin.
pub(crate) fn other_section_fault(word: &Word) -> GrammarFault
    ensures { result ≡ other_section_fault word.now }
{
    if is_word(word, b"ANCHOR") {
        GrammarFault::LeftOut(Absent::Anchor)
    } else if is_word(word, b"REFERENCE") {
        GrammarFault::LeftOut(Absent::Reference)
    } else if is_word(word, b"SIGNATURE") {
        GrammarFault::LeftOut(Absent::Signature)
    } else {
        GrammarFault::Unexpected
    }
}

/// A token behind the end of the file.
pub(crate) fn fault_behind_end(token: &Token) -> GrammarFault
    ensures { at_end (meant token.now) ≡ refuse result }
{
    match token {
        Token::Keyword(word) if is_word(word, b"SIGNATURE") => {
            GrammarFault::LeftOut(Absent::Signature)
        }
        _ => GrammarFault::AfterEnd,
    }
}

/// A token that does not go on with a statement.
pub(crate) fn misplaced_fault(stage: Stage, token: &Token) -> GrammarFault
    ensures { result ≡ misplaced_fault stage (meant token.now) }
{
    match token {
        Token::UserKeyword(_) if stage.is_in_data() => GrammarFault::LeftOut(Absent::UserKeyword),
        _ => GrammarFault::Unexpected,
    }
}

/// The same where parameters are open.
pub(crate) fn misplaced_param_fault(stage: Stage, token: &Token) -> GrammarFault
    ensures { result ≡ misplaced_param_fault stage (meant token.now) }
{
    match token {
        Token::UserKeyword(_) if !stage.is_in_header() => {
            GrammarFault::LeftOut(Absent::UserKeyword)
        }
        _ => GrammarFault::Unexpected,
    }
}
