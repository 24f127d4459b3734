use p21_tokens::{Lexer, Limits, Token};
use p21_values::NoMemory;
use std::alloc::Global;

/// What a token is, as far as the form of a parameter goes by it.
#[derive(Clone, Copy, Debug, PartialEq, Eq)]
pub(crate) enum Sign {
    Left,
    Right,
    Comma,
    Text,
    /// `$`
    Unset,
    Other,
}

/// A token of a statement.
#[derive(Clone, Copy, Debug, PartialEq, Eq)]
pub(crate) struct Mark {
    pub sign: Sign,
    /// How many bytes of the statement stand in front of it.
    pub start: u64,
}

/// The tokens at the front of bytes.
///
/// # Errors
///
/// `NoMemory`.
pub(crate) fn marks_of(alloc: Global, source: &[u8]) -> Result<Vec<Mark>, NoMemory> {
    let mut lexer = Lexer::new(alloc, Limits::usual());
    let mut marks = Vec::new(alloc);
    let mut rest = source;
    // Each round takes a byte or more, but the first.
    for _ in 0..source.len() {
        let Ok((count, Some(token))) = lexer.next(rest) else {
            break;
        };
        marks.push(Mark {
            sign: sign_of(&token),
            start: lexer.places().token,
        })?;
        rest = &rest[count..];
    }
    Ok(marks)
}

fn sign_of(token: &Token) -> Sign {
    match token {
        Token::Left => Sign::Left,
        Token::Right => Sign::Right,
        Token::Comma => Sign::Comma,
        Token::Text(_) => Sign::Text,
        Token::Dollar => Sign::Unset,
        _ => Sign::Other,
    }
}
