//! Tokens that stand whole at the front of bytes, read without a state.
//!
//! A token that stands whole in a piece, with the byte behind it, is read where it lies; only tokens that are cut by
//! the end of a piece, or that need more care, go byte by byte through the states. Both ways owe the same contract, so
//! nobody can tell which one read a token. Where memory fails for a token that is read where it lies, that is the
//! answer: read again byte by byte it might find memory, since it then grows in smaller steps, and nobody would see
//! that some was refused. So what reads such a token has three answers, `Option<Result<.., NoMemory>>`, and owes a
//! proof that want of memory never comes at a separator.
ghost use Rattle.std.specs.Prelude.{◌≡◌, ◌≤◌, false, true, IfOk, IfSome, OnErr, get_or};
ghost use Rattle.p21_scan.specs.Bytes.{is_blank};
ghost use Rattle.p21_tokens_automaton.specs.Step.{advance};
ghost use Rattle.p21_tokens_automaton.specs.declared.mode.Mode.TheVariants.{Between};
ghost use Rattle.p21_tokens_automaton.specs.declared.mode.Action.TheVariants.{Give};
ghost use Rattle.p21_tokens.specs.Prefix.{ArePlain, EndsNumber, ReachesWaitingToken, ReadsLeadingToken, ReadsWaitingToken};
ghost use Rattle.p21_tokens.specs.Token.{meant};

use crate::read_token::single_token;
use crate::token::Token;
use p21_scan::{behind, ends_text, name_number, scan_keyword, scan_name};
use p21_tokens_automaton::{Action, Mode, NumberMode, Single, advance, plain_characters};
use p21_values::{Name, NoMemory, Number, Text, Word, read_number};
use std::alloc::Global;

/// A token at the front of bytes and how many bytes it has, or want of memory for it, where one is easily seen.
pub(crate) type LeadingToken = Option<Result<(usize, Token), NoMemory>>;

/// The token at the front of bytes where it is one of one byte, or a keyword, a number, an instance name or a string of
/// plain characters with the byte behind it.
pub(crate) fn leading_token(alloc: Global, bytes: &[u8]) -> LeadingToken
    ensures { ReadsLeadingToken bytes.now result }
{
    let (first, _rest) = bytes.split_first()?;
    if let Some(single) = single(*first) {
        return Some(Ok((1, single_token(single))));
    }
    waiting_token(alloc, *first, bytes)
}

/// The token that one byte is.
fn single(byte: u8) -> Option<Single>
    ensures { IfSome result (λ single. advance Between byte ≡ Give single) }
{
    match byte {
        b'(' => Some(Single::Left),
        b')' => Some(Single::Right),
        b',' => Some(Single::Comma),
        b';' => Some(Single::Semicolon),
        b'=' => Some(Single::Equals),
        b'$' => Some(Single::Dollar),
        b'*' => Some(Single::Star),
        _ => None,
    }
}

fn waiting_token(alloc: Global, first: u8, bytes: &[u8]) -> LeadingToken
    requires { get_or bytes.now 0 0 ≡ first }
    ensures token { ReadsWaitingToken bytes.now result }
    ensures no_memory { IfSome result (λ front. OnErr front (is_blank first ≡ false)) }
{
    match first {
        b'#' => Some(Ok(leading_name(bytes)?)),
        b'\'' => leading_text(alloc, bytes),
        b'0'..=b'9' | b'+' | b'-' => leading_number(alloc, bytes),
        _ => leading_keyword(alloc, bytes),
    }
}

/// The byte behind it is none that a number goes on with.
fn leading_number(alloc: Global, bytes: &[u8]) -> LeadingToken
    ensures { ReadsWaitingToken bytes.now result }
{
    let (count, number) = match read_number(alloc, bytes)? {
        Ok(front) => front,
        Err(fault) => return Some(Err(fault)),
    };
    let next = *bytes.get(count)?;
    match number {
        Number::Whole(number) => {
            if !ends_number(NumberMode::Whole, next) {
                return None;
            }
            Some(Ok((count, Token::Whole(number))))
        }
        Number::Real(number) => {
            if !ends_number(NumberMode::Fraction, next) {
                return None;
            }
            Some(Ok((count, Token::Real(number))))
        }
    }
}

/// Whether a byte ends the number that led to the mode.
fn ends_number(mode: NumberMode, byte: u8) -> bool
    ensures { result ≡ true → EndsNumber mode byte }
{
    matches!(advance(Mode::Number(mode), byte), Action::End)
}

fn leading_keyword(alloc: Global, bytes: &[u8]) -> LeadingToken
    ensures token { ReadsWaitingToken bytes.now result }
    ensures no_memory { IfSome result (λ front. OnErr front (is_blank (get_or bytes.now 0 0) ≡ false)) }
{
    let (word, rest) = scan_keyword(bytes)?;
    let (_byte, _more) = rest.split_first()?;
    match Word::of_prefix(alloc, bytes, word.len()) {
        Ok(kept) => Some(Ok((word.len(), Token::Keyword(kept)))),
        Err(fault) => Some(Err(fault)),
    }
}

fn leading_name(bytes: &[u8]) -> Option<(usize, Token)>
    ensures { IfSome result (λ front. ReachesWaitingToken bytes.now front.0 (meant front.1)) }
{
    let (digits, rest) = scan_name(bytes)?;
    let (_byte, _more) = rest.split_first()?;
    let number = name_number(digits)?;
    Some((bytes.len() - rest.len(), Token::Name(Name(number))))
}

fn leading_text(alloc: Global, bytes: &[u8]) -> LeadingToken
    ensures { ReadsWaitingToken bytes.now result }
{
    let inside = behind(b'\'', bytes)?;
    let (characters, rest) = inside.split_at_checked(plain_count(inside))?;
    if rest.len() < 2 || !ends_text(rest) {
        return None;
    }
    match plain_text(alloc, characters) {
        Ok(text) => Some(Ok((characters.len() + 2, Token::Text(text)))),
        Err(fault) => Some(Err(fault)),
    }
}

/// How many bytes of a string are characters of one byte each. There is often none.
fn plain_count(inside: &[u8]) -> usize
    ensures { ArePlain inside.now result }
{
    match inside.first() {
        Some(b'\'') => 0,
        _ => plain_characters(inside),
    }
}

fn plain_text(alloc: Global, characters: &[u8]) -> Result<Text, NoMemory>
    ensures { IfOk result (λ text. text ≡ characters.now) }
{
    let mut text = Text::new(alloc);
    if !characters.is_empty() {
        text.push_latin1(characters)?;
    }
    Ok(text)
}
