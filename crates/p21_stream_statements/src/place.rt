ghost use Rattle.std.specs.Prelude.{◌≡◌};
ghost use Rattle.p21_stream_statements.specs.Place.{at_byte, place_of, place_of_grammar, place_of_token};

use crate::fault::Fault;
use p21_grammar::GrammarFault;
use p21_tokens::{Places, TokenFault};

/// Where in a file a refusal stands.
#[derive(Clone, Copy, Debug, PartialEq, Eq)]
pub struct Place {
    /// So many bytes stand in front of it.
    pub byte: u64,
}

impl Place {
    /// The place of a refusal, by where its reader stands. What bytes decide has the place of the byte or of the token,
    /// and what is refused with a whole statement that of the statement. A reference, want of memory, a read and a write
    /// have none. It takes no memory.
    pub fn of(fault: Fault, places: Places) -> Option<Place>
        ensures { result ≡ place_of fault places }
    {
        match fault {
            Fault::Token(fault) => place_of_token(fault, places),
            Fault::Grammar(fault) => place_of_grammar(fault, places),
            Fault::Check(_) => at_byte(places.statement),
            Fault::SchemaName => at_byte(places.statement),
            Fault::SectionTwice => at_byte(places.statement),
            Fault::DuplicateName => at_byte(places.statement),
            Fault::CanonicalTooLong => at_byte(places.statement),
            Fault::Dangling => None,
            Fault::WrongTarget => None,
            Fault::NoMemory => None,
            Fault::Read => None,
            Fault::Write => None,
        }
    }
}

fn at_byte(byte: u64) -> Option<Place>
    ensures { result ≡ at_byte byte }
{
    Some(Place { byte })
}

fn place_of_token(fault: TokenFault, places: Places) -> Option<Place>
    ensures { result ≡ place_of_token fault places }
{
    match fault {
        TokenFault::OpenString => at_byte(places.token),
        TokenFault::OpenComment => at_byte(places.token),
        TokenFault::NumberRange => at_byte(places.token),
        TokenFault::LeftOut(_) => at_byte(places.token),
        TokenFault::NotUtf8 => at_byte(places.character),
        TokenFault::RecordTooLong => at_byte(places.statement),
        TokenFault::FileTooLong => at_byte(places.statement),
        TokenFault::NoMemory => None,
        TokenFault::BadByte => at_byte(places.byte),
        TokenFault::BadDirective => at_byte(places.byte),
        TokenFault::BadCodePoint => at_byte(places.byte),
        TokenFault::BadNumber => at_byte(places.byte),
        TokenFault::BadBinary => at_byte(places.byte),
        TokenFault::NameRange => at_byte(places.byte),
        TokenFault::BadName => at_byte(places.byte),
        TokenFault::NotOneParameter => at_byte(places.byte),
        TokenFault::EndsEarly => at_byte(places.byte),
    }
}

fn place_of_grammar(fault: GrammarFault, places: Places) -> Option<Place>
    ensures { result ≡ place_of_grammar fault places }
{
    match fault {
        GrammarFault::EndsEarly => at_byte(places.byte),
        GrammarFault::HeaderShape => at_byte(places.statement),
        GrammarFault::SectionShape => at_byte(places.statement),
        GrammarFault::NoMemory => None,
        GrammarFault::Unexpected => at_byte(places.token),
        GrammarFault::TooDeep => at_byte(places.token),
        GrammarFault::AfterEnd => at_byte(places.token),
        GrammarFault::LeftOut(_) => at_byte(places.token),
    }
}
