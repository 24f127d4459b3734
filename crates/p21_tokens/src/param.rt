//! The lexer reads a single parameter too, so that `p21 param` and whole files can't disagree about a scalar. A second
//! token is refused when it is known, before the rest of the text is read.
ghost use Rattle.std.specs.Prelude.{◌≡◌, ◌<◌, ◌≤◌, ◌↔◌, ◌++◌, ◌∷◌, ℕ, List, [], length, slice_range, Err, IsTrue, None, OnOk, IfOk, MatchResult};
ghost use Rattle.p21_spec_basics.specs.Limits.{text_limit};
ghost use Rattle.p21_spec_exchange.specs.Token.{IsScalarToken};
ghost use Rattle.p21_tokens.specs.Finding.{FindsOnlyScalar, FindsScalar, PendingBytes, left_over};
ghost use Rattle.p21_tokens.specs.Parameter.{IsAnswer, IsRefusal};
ghost use Rattle.p21_tokens.specs.Token.{meant};

use crate::fault::TokenFault;
use crate::lexer::Lexer;
use crate::token::Token;
use p21_values::{Canonical, Limits};
use std::alloc::Global;

/// The most bytes of a text.
const LONGEST_PARAMETER: usize = 16_777_216;

/// The canonical spelling of the one scalar parameter between separators: `$`, `*`, an INTEGER, REAL, STRING,
/// ENUMERATION or BINARY, or an instance name.
///
/// # Errors
///
/// `FileTooLong` for a text of more than 16,777,216 bytes; `NotOneParameter` at the first token that is no scalar, and at
/// a second token; `EndsEarly` where there is no token; the faults of the lexer; `NoMemory`.
#[tactic(auto, using(crate::proofs::OneScalar::refusal_of))]
pub fn canonical_param(alloc: Global, text: &[u8]) -> Result<Vec<u8>, TokenFault>
    ensures { MatchResult result (λ answer. IsAnswer text.now answer.items) (λ fault. IsRefusal text.now fault) }
{
    if text.len() > LONGEST_PARAMETER {
        return Err(TokenFault::FileTooLong);
    }
    let token = match one_scalar(alloc, text) {
        Ok(token) => token,
        Err(fault) => return Err(fault),
    };
    let mut answer = Vec::new(alloc);
    token.write_canonical(&mut answer)?;
    Ok(answer)
}

/// The one token of a text, if it is a scalar.
fn one_scalar(alloc: Global, text: &[u8]) -> Result<Token, TokenFault>
    requires { length text.now ≤ text_limit }
    ensures { FindsScalar text.now result }
{
    let mut lexer = Lexer::new(alloc, Limits::usual());
    let found = match given_scalar(&mut lexer, text) {
        Ok(found) => found,
        Err(fault) => return Err(fault),
    };
    let last = match lexer.finish() {
        Ok(last) => last,
        Err(fault) => return Err(fault),
    };
    only_scalar(found, last)
}

/// Takes the bytes of a text, and hands out the token that is given before they end, if one is.
// Lexer, tokens and their search stand in three functions, so that the proof has few values to give back at each way out.
fn given_scalar(lexer: &mut Lexer, text: &[u8]) -> Result<Option<Token>, TokenFault>
    requires { PendingBytes lexer.now text.now text.now None }
    ensures { MatchResult result (λ found. PendingBytes lexer.new text.now [] found) (λ fault. FindsScalar text.now (Err fault)) }
{
    let mut found = None;
    let mut rest = text;
    while !rest.is_empty() {
        match take_scalar(lexer, rest, &mut found) {
            Ok(taken) => rest = &rest[taken..],
            Err(fault) => return Err(fault),
        }
    }
    Ok(found)
}

/// Takes bytes up to the end of one token or of all, and says how many. A token has to be a scalar, and the first.
fn take_scalar(
    lexer: &mut Lexer,
    rest: &[u8],
    found: &mut Option<Token>,
) -> Result<usize, TokenFault>
    requires { 0 < length rest.now }
    ensures within { IfOk result (λ taken. taken ≤ length rest.now) }
    ensures smaller { IfOk result (λ taken. left_over (slice_range rest.now taken (length rest.now)) found.new < left_over rest.now found.old) }
    ensures pending { (bytes : List ℕ) → PendingBytes lexer.old bytes rest.now found.old →
        MatchResult result (λ taken. PendingBytes lexer.new bytes (slice_range rest.now taken (length rest.now)) found.new) (λ fault. FindsScalar bytes (Err fault)) }
{
    match lexer.next(rest) {
        Err(fault) => Err(fault),
        Ok((taken, None)) => Ok(taken),
        Ok((taken, Some(token))) => {
            if found.is_some() {
                return Err(TokenFault::NotOneParameter);
            }
            if !is_scalar(&token) {
                return Err(TokenFault::NotOneParameter);
            }
            *found = Some(token);
            Ok(taken)
        }
    }
}

/// The one of two tokens that is there, if it is a scalar.
fn only_scalar(found: Option<Token>, last: Option<Token>) -> Result<Token, TokenFault>
    ensures { FindsOnlyScalar found last result }
{
    match (found, last) {
        (None, None) => Err(TokenFault::EndsEarly),
        (Some(token), None) => Ok(token),
        (None, Some(token)) => {
            if is_scalar(&token) {
                Ok(token)
            } else {
                Err(TokenFault::NotOneParameter)
            }
        }
        (Some(_first), Some(_second)) => Err(TokenFault::NotOneParameter),
    }
}

/// Whether a token is a whole parameter by itself.
fn is_scalar(token: &Token) -> bool
    ensures { IsTrue result ↔ IsScalarToken (meant token.now) }
{
    match token {
        Token::Name(_)
        | Token::Whole(_)
        | Token::Real(_)
        | Token::Text(_)
        | Token::Item(_)
        | Token::Bits(_)
        | Token::Dollar
        | Token::Star => true,
        _ => false,
    }
}
