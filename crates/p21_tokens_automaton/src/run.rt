ghost use Rattle.p21_spec_basics.specs.Digits.{is_digit};
ghost use Rattle.std.specs.Prelude.{◌≡◌, ◌^◌, ◌<◌, ◌≤◌, ◌⊎◌, false, length, slice_index};
ghost use Rattle.p21_tokens_automaton.specs.Run.{IsRun, AreNameDigits, EachHasAction};
ghost use Rattle.p21_scan.specs.Class.{is_of_class};
ghost use Rattle.p21_tokens_automaton.specs.declared.mode.Action.TheVariants.{Pass, Put};
ghost use Rattle.p21_tokens_automaton.specs.declared.mode.Mode.TheVariants.{Between, Name, Text};
ghost use Rattle.p21_tokens_automaton.specs.declared.mode.NameMode.TheVariants.{Digits};
ghost use Rattle.p21_tokens_automaton.specs.declared.mode.TextMode.TheVariants.{Inside};
ghost use Rattle.p21_scan.specs.declared.class.Class.TheVariants.{Blank, Plain};

use crate::mode::{BinaryMode, Mode, NameMode, NumberMode, TextMode, WordMode};
use p21_scan::{Class, is_digit, long_prefix, rare_prefix, short_prefix};

/// How many bytes at the front leave the mode as it is, and what each of them does.
#[derive(Clone, Copy, Debug, PartialEq, Eq)]
pub enum Run {
    /// They stand between tokens.
    Passed(usize),
    /// They belong to the token, and are pending.
    PendingBytes(usize),
    /// They are characters of a string.
    Characters(usize),
    /// They are characters of a string, if they are whole in UTF-8.
    Utf8(usize),
    /// They are digits of an instance name, and stand for this number with those before them.
    Named(usize, u64),
}

/// A run of bytes at the front, which may be shorter than it could be.
pub fn run_of(mode: Mode, bytes: &[u8]) -> Run
    ensures { IsRun mode bytes.now result }
{
    match mode {
        Mode::Between => Run::Passed(blanks(bytes)),
        Mode::Comment => Run::Passed(long_prefix(Class::Commented, bytes)),
        Mode::Number(NumberMode::Whole) => Run::PendingBytes(short_prefix(Class::Digit, bytes)),
        Mode::Number(NumberMode::Fraction) => Run::PendingBytes(short_prefix(Class::Digit, bytes)),
        Mode::Number(NumberMode::ExponentDigits) => Run::PendingBytes(short_prefix(
            Class::Digit,
            bytes,
        )),
        Mode::Word(WordMode::Keyword) => Run::PendingBytes(long_prefix(Class::KeywordByte, bytes)),
        Mode::Word(WordMode::UserKeyword) => Run::PendingBytes(long_prefix(
            Class::KeywordByte,
            bytes,
        )),
        Mode::Word(WordMode::Item) => Run::PendingBytes(long_prefix(Class::KeywordByte, bytes)),
        Mode::Binary(BinaryMode::Hex) => Run::PendingBytes(long_prefix(Class::HexDigit, bytes)),
        Mode::Name(NameMode::Digits(value)) => {
            let (count, value) = name_digits(value, bytes);
            Run::Named(count, value)
        }
        Mode::Text(TextMode::Inside) => text_run(bytes),
        _ => Run::Passed(0),
    }
}

/// Characters of a string: those of one byte each, or else those of several with any behind them.
fn text_run(bytes: &[u8]) -> Run
    ensures { IsRun (Text Inside) bytes.now result }
{
    let plain = plain_characters(bytes);
    if plain > 0 {
        return Run::Characters(plain);
    }
    Run::Utf8(long_prefix(Class::CharacterByte, bytes))
}

/// Digits of an instance name at the front, behind those that stand for a number, as long as any digit more is in range:
/// how many, and the number that they stand for with those before them.
#[inline]
fn name_digits(value: u64, bytes: &[u8]) -> (usize, u64)
    ensures are { AreNameDigits (Name (Digits value)) bytes.now result.0 result.1 }
    ensures ends { result.0 < length bytes.now → (is_digit (slice_index bytes.now result.0) ≡ false) ⊎ (10 ^ 18 ≤ result.1) }
{
    let mut count = 0;
    let mut number = value;
    while number < SHORT_NAME && count < bytes.len() && is_digit(bytes[count]) {
        number = number * 10 + u64::from(bytes[count] - b'0');
        count += 1;
    }
    (count, number)
}

/// How many blanks stand at the front.
#[inline]
pub fn blanks(bytes: &[u8]) -> usize
    ensures are { EachHasAction Between bytes.now result (λ byte. Pass Between) }
    ensures ends { result < length bytes.now → is_of_class Blank (slice_index bytes.now result) ≡ false }
{
    rare_prefix(Class::Blank, bytes)
}

/// How many bytes at the front are characters of a string, each of one byte.
#[inline]
pub fn plain_characters(bytes: &[u8]) -> usize
    ensures are { EachHasAction (Text Inside) bytes.now result (λ byte. Put (Text Inside) byte) }
    ensures ends { result < length bytes.now → is_of_class Plain (slice_index bytes.now result) ≡ false }
{
    long_prefix(Class::Plain, bytes)
}

/// A number below it can take any digit more.
const SHORT_NAME: u64 = 1_000_000_000_000_000_000;
