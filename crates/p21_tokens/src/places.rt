ghost use Rattle.std.specs.Prelude.{◌≡◌};

use p21_tokens_automaton::{Mode, TextMode};

/// Places in a file, each the number of bytes in front of it.
#[derive(Clone, Copy, Debug, PartialEq, Eq)]
pub struct Places {
    /// Behind the bytes taken. Behind a refusal the refused byte stands there.
    pub byte: u64,
    /// The beginning of the token or remark that is open, or else of the last one.
    pub token: u64,
    /// The beginning of the statement that is open, or else of the last one.
    pub statement: u64,
    /// The beginning of the character in UTF-8 that is open in a string, or else `byte`.
    pub character: u64,
}

/// Where a token and a statement begin in a file.
#[derive(Clone, Copy)]
pub(crate) struct Starts {
    pub(crate) token: u64,
    pub(crate) statement: u64,
}

impl Starts {
    /// At the beginning of a file.
    pub(crate) fn new() -> Starts {
        Starts {
            token: 0,
            statement: 0,
        }
    }

    /// Where they begin when the next byte stands at a place, behind so many token bytes of the statement. A byte that
    /// nothing open stands before begins a token, and so may one that turns out to be a separator.
    #[inline(always)]
    pub(crate) fn at(self, mode: Mode, statement: u64, place: u64) -> Starts {
        let token = match mode {
            Mode::Between => place,
            _ => self.token,
        };
        Starts {
            token,
            statement: if statement == 0 {
                token
            } else {
                self.statement
            },
        }
    }
}

/// How many bytes are taken of a character in UTF-8 that is open. The bits so far tell how many bytes they came from.
pub(crate) fn bytes_of_character(mode: Mode) -> u64 {
    let Mode::Text(mode) = mode else {
        return 0;
    };
    match mode {
        TextMode::Utf8Third(_, _, _) => 1,
        TextMode::Utf8Second(_, _, bits) => { if bits < 16 { 1 } else { 2 } }
        TextMode::Utf8Last(bits) => {
            if bits < 32 {
                1
            } else if bits < 1024 {
                2
            } else {
                3
            }
        }
        _ => 0,
    }
}
