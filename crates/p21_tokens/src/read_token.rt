//! The lexer keeps the bytes of a number, word, name or binary until its end, and then has `p21_values` read them. So
//! there is one reader of each, and its range rules stand in one crate. Each byte of such a token is kept once.
//! Instance names need only their digits, and a name out of range is refused at the digit that passes the range, so
//! that a long name needs no memory.
//!
//! A last token is read by `read_ended_token`, whose `BadByte` says that the state ends no token; `read_last_token`
//! turns it into an early end. A case of its own would be built and taken apart again for each token.
ghost use Rattle.std.specs.Prelude.{◌≡◌, IfOk, OnErr, Some};
ghost use Rattle.p21_spec_exchange.specs.Keyword.{IsKeyword};
ghost use Rattle.p21_tokens_automaton.specs.Reading.{closed_token, ended_token_in, ended_name, ended_number, ended_word, single_token, marker_of};
ghost use Rattle.p21_tokens.specs.Steps.{ReadsFound, ReadsEnd};
ghost use Rattle.p21_tokens.specs.Token.{meant};

use crate::fault::{TokenFault, value_fault};
use crate::token::Token;
use p21_scan::{scan_item, scan_user_keyword};
use p21_tokens_automaton::{Marker, Mode, NameMode, NumberMode, Single, TextMode, WordMode};
use p21_values::{Bits, Decimal, Name, NoMemory, Text, Whole, Word};
use std::alloc::Global;
use std::mem;

/// The token that a byte behind it ends. A string's characters move into it.
pub(crate) fn read_ended_token(
    alloc: Global,
    mode: Mode,
    pending_bytes: &[u8],
    text: &mut Text,
) -> Result<Token, TokenFault>
    ensures found { ReadsFound (ended_token_in mode pending_bytes.now text.old) result }
    ensures left { OnErr result (text.new ≡ text.old) }
{
    match mode {
        Mode::Number(mode) => read_number(alloc, mode, pending_bytes),
        Mode::Word(mode) => read_word(alloc, mode, pending_bytes),
        Mode::Name(mode) => read_name(mode),
        Mode::Text(TextMode::Apostrophe) => Ok(Token::Text(mem::replace(text, Text::new(alloc)))),
        _ => Err(TokenFault::BadByte),
    }
}

/// The token that the end of the bytes leaves, or none between tokens.
pub(crate) fn read_last_token(
    alloc: Global,
    mode: Mode,
    pending_bytes: &[u8],
    text: &mut Text,
) -> Result<Option<Token>, TokenFault>
    ensures { ReadsEnd mode pending_bytes.now text.old result }
{
    match mode {
        Mode::Between => Ok(None),
        Mode::Slash => Err(TokenFault::EndsEarly),
        Mode::Comment => Err(TokenFault::OpenComment),
        Mode::Star => Err(TokenFault::OpenComment),
        Mode::Text(mode) => match mode {
            TextMode::Apostrophe => Ok(Some(Token::Text(mem::replace(text, Text::new(alloc))))),
            _ => Err(TokenFault::OpenString),
        },
        _ => match read_ended_token(alloc, mode, pending_bytes, text) {
            Ok(token) => Ok(Some(token)),
            Err(TokenFault::BadByte) => Err(TokenFault::EndsEarly),
            Err(fault) => Err(fault),
        },
    }
}

/// The number of pending bytes.
fn read_number(alloc: Global, mode: NumberMode, pending_bytes: &[u8]) -> Result<Token, TokenFault>
    ensures { ReadsFound (ended_number mode pending_bytes.now) result }
{
    match mode {
        NumberMode::Whole => read_whole(alloc, pending_bytes),
        NumberMode::Fraction => read_real(alloc, pending_bytes),
        NumberMode::ExponentDigits => read_real(alloc, pending_bytes),
        _ => Err(TokenFault::BadByte),
    }
}

fn read_whole(alloc: Global, pending_bytes: &[u8]) -> Result<Token, TokenFault>
    ensures { ReadsFound (Some (spelled whole pending_bytes.now)) result }
{
    match Whole::read(alloc, pending_bytes) {
        Ok(number) => Ok(Token::Whole(number)),
        Err(fault) => Err(value_fault(fault)),
    }
}

fn read_real(alloc: Global, pending_bytes: &[u8]) -> Result<Token, TokenFault>
    ensures { ReadsFound (Some (spelled real pending_bytes.now)) result }
{
    match Decimal::read(alloc, pending_bytes) {
        Ok(number) => Ok(Token::Real(number)),
        Err(fault) => Err(value_fault(fault)),
    }
}

/// The instance name of the digits that were taken.
fn read_name(mode: NameMode) -> Result<Token, TokenFault>
    ensures { ReadsFound (ended_name mode) result }
{
    match mode {
        NameMode::Digits(value) => Ok(Token::Name(Name(value))),
        NameMode::Hash => Err(TokenFault::BadByte),
    }
}

/// The keyword of pending bytes, or the first or last token of a file.
pub(crate) fn read_word(
    alloc: Global,
    mode: WordMode,
    pending_bytes: &[u8],
) -> Result<Token, TokenFault>
    ensures { ReadsFound (ended_word mode pending_bytes.now) result }
{
    match mode {
        WordMode::Keyword => match Word::read(alloc, pending_bytes) {
            Ok(word) => Ok(Token::Keyword(word)),
            Err(fault) => Err(value_fault(fault)),
        },
        WordMode::UserKeyword => read_user_keyword(alloc, pending_bytes),
        WordMode::Marked(Marker::Begin) => Ok(Token::Begin),
        WordMode::Marked(Marker::Finish) => Ok(Token::Finish),
        _ => Err(TokenFault::BadByte),
    }
}

/// A user-defined keyword.
fn read_user_keyword(alloc: Global, pending_bytes: &[u8]) -> Result<Token, TokenFault>
    ensures { ReadsFound (Some (spelled user_keyword pending_bytes.now)) result }
{
    let Some((word, rest)) = scan_user_keyword(pending_bytes) else {
        return Err(TokenFault::BadByte);
    };
    if !rest.is_empty() {
        return Err(TokenFault::BadByte);
    }
    match word_of(alloc, word) {
        Ok(word) => Ok(Token::UserKeyword(word)),
        Err(_no_memory) => Err(TokenFault::NoMemory),
    }
}

fn word_of(alloc: Global, characters: &[u8]) -> Result<Word, NoMemory>
    requires { IsKeyword characters.now }
    ensures { IfOk result (λ word. word ≡ characters.now) }
{
    Word::of_prefix(alloc, characters, characters.len())
}

ghost use Rattle.p21_tokens_automaton.specs.Reading.{spelled, whole, real, user_keyword, item, bits};

/// The token of pending bytes whose last one ends it: an enumeration item or a binary.
pub(crate) fn read_closed_token(
    alloc: Global,
    mode: Mode,
    pending_bytes: &[u8],
) -> Result<Token, TokenFault>
    ensures { ReadsFound (closed_token mode pending_bytes.now) result }
{
    match mode {
        Mode::Word(_mode) => read_item(alloc, pending_bytes),
        Mode::Binary(_mode) => read_bits(alloc, pending_bytes),
        _ => Err(TokenFault::BadByte),
    }
}

/// An enumeration item between its points.
fn read_item(alloc: Global, pending_bytes: &[u8]) -> Result<Token, TokenFault>
    ensures { ReadsFound (Some (spelled item pending_bytes.now)) result }
{
    let Some((word, rest)) = scan_item(pending_bytes) else {
        return Err(TokenFault::BadByte);
    };
    if !rest.is_empty() {
        return Err(TokenFault::BadByte);
    }
    match word_of(alloc, word) {
        Ok(word) => Ok(Token::Item(word)),
        Err(_no_memory) => Err(TokenFault::NoMemory),
    }
}

fn read_bits(alloc: Global, pending_bytes: &[u8]) -> Result<Token, TokenFault>
    ensures { ReadsFound (Some (spelled bits pending_bytes.now)) result }
{
    match Bits::read(alloc, pending_bytes) {
        Ok(value) => Ok(Token::Bits(value)),
        Err(fault) => Err(value_fault(fault)),
    }
}

pub(crate) fn single_token(single: Single) -> Token
    ensures { meant result ≡ single_token single }
{
    match single {
        Single::Left => Token::Left,
        Single::Right => Token::Right,
        Single::Comma => Token::Comma,
        Single::Semicolon => Token::Semicolon,
        Single::Equals => Token::Equals,
        Single::Dollar => Token::Dollar,
        Single::Star => Token::Star,
    }
}

/// The first or last token of a file that these bytes begin, where a `-` stands behind them.
pub(crate) fn marker_of(pending_bytes: &[u8]) -> Option<Mode>
    ensures { result ≡ marker_of pending_bytes.now }
{
    if pending_bytes == b"ISO".as_slice() {
        Some(Mode::Word(WordMode::Marker(Marker::Begin, 4)))
    } else if pending_bytes == b"END".as_slice() {
        Some(Mode::Word(WordMode::Marker(Marker::Finish, 4)))
    } else {
        None
    }
}
