ghost use Rattle.std.specs.Prelude.{◌≡◌, ◌≢◌, IfOk, IfSome, IsTrue, false, slice_get};
ghost use Rattle.p21_spec_exchange.specs.Token.{semicolon};
ghost use Rattle.p21_stream_log.specs.Broken.{HasSize, IsFrontOf, is_apostrophe, refused_place};
ghost use Rattle.p21_stream_log.specs.Front.{HasTaken, IsFront};
ghost use Rattle.p21_tokens.specs.Token.{meant};

use p21_stream_statements::{Fault, Place};
use p21_tokens::{Lexer, Places, Token, TokenFault};
use p21_values::{Limits, NoMemory};
use std::alloc::Global;

/// Whether bytes are those of a statement that hasn't ended, as a lexer takes them: whole tokens, of which none is a `;`, and what is no
/// whole token yet. Where a limit is passed it says no.
///
/// # Errors
///
/// `NoMemory`.
pub fn is_front(alloc: Global, limits: Limits, statement: &[u8]) -> Result<bool, NoMemory>
    ensures { IfOk result (λ found. IsTrue found → IsFront statement.now) }
{
    match lexer_behind(alloc, limits, statement) {
        Ok(Some(_)) => Ok(true),
        Ok(None) => Ok(false),
        Err(NoMemory) => Err(NoMemory),
    }
}

/// A lexer that has taken the bytes of a statement that hasn't ended. None where they are no such bytes, or a limit is passed.
///
/// # Errors
///
/// `NoMemory`.
pub(crate) fn lexer_behind(
    alloc: Global,
    limits: Limits,
    statement: &[u8],
) -> Result<Option<Lexer>, NoMemory>
    ensures { IfOk result (λ found. IfSome found (λ lexer. HasTaken statement.now lexer)) }
{
    let mut lexer = Lexer::new(alloc, limits);
    let mut rest = statement;
    // Each round takes a token, and bytes have no more tokens than bytes.
    for _ in 0..=statement.len() {
        let (count, token) = match lexer.next(rest) {
            Ok(answer) => answer,
            Err(TokenFault::NoMemory) => return Err(NoMemory),
            Err(_) => return Ok(None),
        };
        let Some(token) = token else {
            return Ok(Some(lexer));
        };
        if ends_statement(token) {
            return Ok(None);
        }
        rest = &rest[count..];
    }
    Ok(None)
}

/// Where in a file that stands which is refused, by where its reader stands: a byte, or a token of the grammar by its first byte, and a
/// string by its last one. The bytes begin behind so many of the file.
pub(crate) fn refused_place(fault: Fault, places: Places, start: u64, bytes: &[u8]) -> u64
    ensures { result ≡ refused_place fault places start bytes.now }
{
    let first = match Place::of(fault, places) {
        Some(place) => place.byte,
        None => places.byte,
    };
    match fault {
        Fault::Grammar(_) => {
            if is_apostrophe(bytes, first.saturating_sub(start)) {
                places.byte.saturating_sub(1)
            } else {
                first
            }
        }
        _ => first,
    }
}

/// Whether an apostrophe stands behind so many bytes.
fn is_apostrophe(bytes: &[u8], count: u64) -> bool
    ensures { result ≡ is_apostrophe (slice_get bytes.now count) }
{
    if count >= bytes.len() as u64 {
        return false;
    }
    bytes[count as usize] == b'\''
}

/// So many bytes at the front of others, where a statement begins so and bytes stand behind them; or none.
///
/// # Errors
///
/// `NoMemory`.
pub(crate) fn front_of<'a>(
    alloc: Global,
    limits: Limits,
    bytes: &'a [u8],
    count: u64,
) -> Result<&'a [u8], NoMemory>
    ensures front { IfOk result (λ front. IsFrontOf bytes.now front.now) }
    ensures size { IfOk result (λ front. HasSize bytes.now count front.now) }
{
    if count >= bytes.len() as u64 {
        return Ok(&bytes[..0]);
    }
    let front = &bytes[..count as usize];
    match is_front(alloc, limits, front) {
        Ok(true) => Ok(front),
        Ok(false) => Ok(&bytes[..0]),
        Err(NoMemory) => Err(NoMemory),
    }
}

/// Whether a token is the `;` of a statement. It stands by itself, so that the token is given up here.
fn ends_statement(token: Token) -> bool
    ensures { result ≡ false → meant token ≢ semicolon }
{
    is_semicolon(&token)
}

fn is_semicolon(token: &Token) -> bool
    ensures { result ≡ false → meant token.now ≢ semicolon }
{
    match token {
        Token::Semicolon => true,
        _ => false,
    }
}
