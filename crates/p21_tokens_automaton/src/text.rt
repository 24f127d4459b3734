ghost use Rattle.std.specs.Prelude.{◌≡◌, ◌&&◌, nat_le, IsTrue};
ghost use Rattle.p21_scan.specs.Hex.{is_hex_digit};
ghost use Rattle.p21_tokens_automaton.specs.Step.{text_action, inside_action, utf8_action, utf8_value, utf8_last_action, directive_action, backslash_action, page_action, hex_mark_action, arbitrary_action, arbitrary_second_action, put_scalar, first2_action, group_value, digits2_action, group_action, low_first_action, low_digits_action, low_group_action, first4_action, digits4_action};
ghost use Rattle.p21_tokens_automaton.specs.declared.mode.TextMode.TheVariants.{Apostrophe, Extended2Next, Extended4Next, Utf8Second, Utf8Third};

use crate::mode::{Action, Mode, TextMode, Wrong};
use p21_scan::{hex_value, is_hex_digit};

/// What a byte does inside a string.
pub(crate) fn text_action(mode: TextMode, byte: u8) -> Action
    ensures { result ≡ text_action mode byte }
{
    match mode {
        TextMode::Inside => inside_action(byte),
        TextMode::Apostrophe => apostrophe_action(byte),
        TextMode::Backslash => backslash_action(byte),
        TextMode::PageMark => directive_action(b'\\', TextMode::Page, byte),
        TextMode::Page => page_action(byte),
        TextMode::AlphabetMark => directive_action(b'A', TextMode::Alphabet, byte),
        TextMode::Alphabet => directive_action(b'\\', TextMode::Inside, byte),
        TextMode::HexMark => hex_mark_action(byte),
        TextMode::Arbitrary => arbitrary_action(byte),
        TextMode::ArbitrarySecond(high) => arbitrary_second_action(high, byte),
        TextMode::Extended2Mark => directive_action(b'\\', TextMode::Extended2First, byte),
        TextMode::Extended2First => first2_action(byte),
        TextMode::Extended2Next => next2_action(byte),
        TextMode::Extended2Digits(count, value) => digits2_action(count, value, byte),
        TextMode::LowFirst(high) => low_first_action(high, byte),
        TextMode::LowDigits(high, count, value) => low_digits_action(high, count, value, byte),
        TextMode::Extended4Mark => directive_action(b'\\', TextMode::Extended4First, byte),
        TextMode::Extended4First => first4_action(byte),
        TextMode::Extended4Next => next4_action(byte),
        TextMode::Extended4Digits(count, value) => digits4_action(count, value, byte),
        TextMode::EndBackslash => directive_action(b'X', TextMode::EndMark, byte),
        TextMode::EndMark => directive_action(b'0', TextMode::EndZero, byte),
        TextMode::EndZero => directive_action(b'\\', TextMode::Inside, byte),
        TextMode::Utf8Last(value) => utf8_last_action(value, byte),
        TextMode::Utf8Second(low, high, value) => utf8_second_action(low, high, value, byte),
        TextMode::Utf8Third(low, high, value) => utf8_third_action(low, high, value, byte),
    }
}

/// A byte between two units.
fn inside_action(byte: u8) -> Action
    ensures { result ≡ inside_action byte }
{
    if byte == b'\'' {
        Action::Skip(Mode::Text(TextMode::Apostrophe))
    } else if byte == b'\\' {
        Action::Skip(Mode::Text(TextMode::Backslash))
    } else if byte < 32 || byte == 127 {
        Action::Skip(Mode::Text(TextMode::Inside))
    } else if byte < 127 {
        Action::Put(Mode::Text(TextMode::Inside), byte as char)
    } else {
        utf8_action(byte)
    }
}

/// The byte behind an apostrophe: a second one stands for one, and any other byte is behind the string.
fn apostrophe_action(byte: u8) -> Action
    ensures { result ≡ text_action Apostrophe byte }
{
    if byte == b'\'' {
        Action::Put(Mode::Text(TextMode::Inside), '\'')
    } else {
        Action::End
    }
}

/// The first byte of a character in UTF-8.
fn utf8_action(byte: u8) -> Action
    ensures { result ≡ utf8_action byte }
{
    if 0xC2 <= byte && byte <= 0xDF {
        Action::Skip(Mode::Text(TextMode::Utf8Last(u32::from(byte % 32))))
    } else if byte == 0xE0 {
        Action::Skip(Mode::Text(TextMode::Utf8Second(0xA0, 0xBF, 0)))
    } else if byte == 0xED {
        Action::Skip(Mode::Text(TextMode::Utf8Second(0x80, 0x9F, 13)))
    } else if 0xE1 <= byte && byte <= 0xEF {
        Action::Skip(Mode::Text(TextMode::Utf8Second(0x80, 0xBF, u32::from(byte % 16))))
    } else if byte == 0xF0 {
        Action::Skip(Mode::Text(TextMode::Utf8Third(0x90, 0xBF, 0)))
    } else if byte == 0xF4 {
        Action::Skip(Mode::Text(TextMode::Utf8Third(0x80, 0x8F, 4)))
    } else if 0xF1 <= byte && byte <= 0xF3 {
        Action::Skip(Mode::Text(TextMode::Utf8Third(0x80, 0xBF, u32::from(byte % 8))))
    } else {
        Action::Refuse(Wrong::Utf8)
    }
}

/// The bits of a character in UTF-8 with six more.
fn utf8_value(value: u32, byte: u8) -> u32
    ensures { result ≡ utf8_value value byte }
{
    value % 0x8000 * 64 + u32::from(byte % 64)
}

/// The last byte but two of a character in UTF-8, in these bounds.
fn utf8_third_action(low: u8, high: u8, value: u32, byte: u8) -> Action
    ensures { result ≡ text_action (Utf8Third low high value) byte }
{
    if low <= byte && byte <= high {
        Action::Skip(Mode::Text(TextMode::Utf8Second(0x80, 0xBF, utf8_value(value, byte))))
    } else {
        Action::Refuse(Wrong::Utf8)
    }
}

/// The last byte but one of a character in UTF-8, in these bounds.
fn utf8_second_action(low: u8, high: u8, value: u32, byte: u8) -> Action
    ensures { result ≡ text_action (Utf8Second low high value) byte }
{
    if low <= byte && byte <= high {
        Action::Skip(Mode::Text(TextMode::Utf8Last(utf8_value(value, byte))))
    } else {
        Action::Refuse(Wrong::Utf8)
    }
}

fn utf8_last_action(value: u32, byte: u8) -> Action
    ensures { result ≡ utf8_last_action value byte }
{
    if byte < 0x80 || 0xBF < byte {
        return Action::Refuse(Wrong::Utf8);
    }
    match char::from_u32(utf8_value(value, byte)) {
        Some(character) => Action::Put(Mode::Text(TextMode::Inside), character),
        None => Action::Refuse(Wrong::Utf8),
    }
}

/// The byte that a directive goes on with.
fn directive_action(expected: u8, mode: TextMode, byte: u8) -> Action
    ensures { result ≡ directive_action expected mode byte }
{
    if byte == expected {
        Action::Skip(Mode::Text(mode))
    } else {
        Action::Refuse(Wrong::Directive)
    }
}

fn backslash_action(byte: u8) -> Action
    ensures { result ≡ backslash_action byte }
{
    match byte {
        b'\\' => Action::Put(Mode::Text(TextMode::Inside), '\\'),
        b'X' => Action::Skip(Mode::Text(TextMode::HexMark)),
        b'S' => Action::Skip(Mode::Text(TextMode::PageMark)),
        b'P' => Action::Skip(Mode::Text(TextMode::AlphabetMark)),
        _ => Action::Refuse(Wrong::Directive),
    }
}

/// The byte behind `\S\`.
fn page_action(byte: u8) -> Action
    ensures { result ≡ page_action byte }
{
    if b' ' <= byte && byte <= b'~' {
        Action::Put(Mode::Text(TextMode::Inside), (byte + 128) as char)
    } else {
        Action::Refuse(Wrong::Directive)
    }
}

/// The byte behind `\X`.
fn hex_mark_action(byte: u8) -> Action
    ensures { result ≡ hex_mark_action byte }
{
    match byte {
        b'2' => Action::Skip(Mode::Text(TextMode::Extended2Mark)),
        b'4' => Action::Skip(Mode::Text(TextMode::Extended4Mark)),
        b'\\' => Action::Skip(Mode::Text(TextMode::Arbitrary)),
        _ => Action::Refuse(Wrong::Directive),
    }
}

fn arbitrary_action(byte: u8) -> Action
    ensures { result ≡ arbitrary_action byte }
{
    if is_hex_digit(byte) {
        Action::Skip(Mode::Text(TextMode::ArbitrarySecond(hex_value(byte))))
    } else {
        Action::Refuse(Wrong::Directive)
    }
}

fn arbitrary_second_action(high: u8, byte: u8) -> Action
    ensures { result ≡ arbitrary_second_action high byte }
{
    if is_hex_digit(byte) {
        let character = (high % 16 * 16 + hex_value(byte)) as char;
        Action::Put(Mode::Text(TextMode::Inside), character)
    } else {
        Action::Refuse(Wrong::Directive)
    }
}

/// A character that is known, if it is a scalar value.
fn put_scalar(mode: TextMode, character: u32) -> Action
    ensures { result ≡ put_scalar mode character }
{
    match char::from_u32(character) {
        Some(character) => Action::Put(Mode::Text(mode), character),
        None => Action::Refuse(Wrong::CodePoint),
    }
}

/// The first digit of a group of `\X2\`.
fn first2_action(byte: u8) -> Action
    ensures { result ≡ first2_action byte }
{
    if is_hex_digit(byte) {
        Action::Skip(Mode::Text(TextMode::Extended2Digits(1, u16::from(hex_value(byte)))))
    } else {
        Action::Refuse(Wrong::Directive)
    }
}

/// What stands behind a group of `\X2\`: the end of the directive, or a further group.
fn next2_action(byte: u8) -> Action
    ensures { result ≡ text_action Extended2Next byte }
{
    if byte == b'\\' {
        Action::Skip(Mode::Text(TextMode::EndBackslash))
    } else {
        first2_action(byte)
    }
}

/// The value of a group with one digit more, of at most four.
fn group_value(value: u16, byte: u8) -> u16
    requires { IsTrue (is_hex_digit byte) }
    ensures { result ≡ group_value value byte }
{
    value % 4096 * 16 + u16::from(hex_value(byte))
}

fn digits2_action(count: u8, value: u16, byte: u8) -> Action
    ensures { result ≡ digits2_action count value byte }
{
    if !is_hex_digit(byte) {
        return Action::Refuse(Wrong::Directive);
    }
    let value = group_value(value, byte);
    if count < 3 {
        Action::Skip(Mode::Text(TextMode::Extended2Digits(count + 1, value)))
    } else {
        group_action(value)
    }
}

/// A whole group of `\X2\`.
fn group_action(value: u16) -> Action
    ensures { result ≡ group_action value }
{
    if 0xD800 <= value && value <= 0xDBFF {
        Action::Skip(Mode::Text(TextMode::LowFirst(value)))
    } else {
        put_scalar(TextMode::Extended2Next, u32::from(value))
    }
}

/// The first digit of a group behind a high surrogate.
fn low_first_action(high: u16, byte: u8) -> Action
    ensures { result ≡ low_first_action high byte }
{
    if is_hex_digit(byte) {
        Action::Skip(Mode::Text(TextMode::LowDigits(high, 1, u16::from(hex_value(byte)))))
    } else if byte == b'\\' {
        Action::Refuse(Wrong::CodePoint)
    } else {
        Action::Refuse(Wrong::Directive)
    }
}

fn low_digits_action(high: u16, count: u8, value: u16, byte: u8) -> Action
    ensures { result ≡ low_digits_action high count value byte }
{
    if !is_hex_digit(byte) {
        return Action::Refuse(Wrong::Directive);
    }
    let value = group_value(value, byte);
    if count < 3 {
        Action::Skip(Mode::Text(TextMode::LowDigits(high, count + 1, value)))
    } else {
        low_group_action(high, value)
    }
}

/// Whether it is a low surrogate.
fn is_low(value: u16) -> bool
    ensures { result ≡ (nat_le 0xDC00 value && nat_le value 0xDFFF) }
{
    0xDC00 <= value && value <= 0xDFFF
}

/// A whole group behind a high surrogate.
fn low_group_action(high: u16, value: u16) -> Action
    ensures { result ≡ low_group_action high value }
{
    if !is_low(value) {
        return Action::Refuse(Wrong::CodePoint);
    }
    put_scalar(
        TextMode::Extended2Next,
        65536 + u32::from(high % 1024) * 1024 + u32::from(value % 1024),
    )
}

/// The first digit of a group of `\X4\`.
fn first4_action(byte: u8) -> Action
    ensures { result ≡ first4_action byte }
{
    if is_hex_digit(byte) {
        Action::Skip(Mode::Text(TextMode::Extended4Digits(1, u32::from(hex_value(byte)))))
    } else {
        Action::Refuse(Wrong::Directive)
    }
}

/// What stands behind a group of `\X4\`: the end of the directive, or a further group.
fn next4_action(byte: u8) -> Action
    ensures { result ≡ text_action Extended4Next byte }
{
    if byte == b'\\' {
        Action::Skip(Mode::Text(TextMode::EndBackslash))
    } else {
        first4_action(byte)
    }
}

fn digits4_action(count: u8, value: u32, byte: u8) -> Action
    ensures { result ≡ digits4_action count value byte }
{
    if !is_hex_digit(byte) {
        return Action::Refuse(Wrong::Directive);
    }
    let value = value % 0x1000_0000 * 16 + u32::from(hex_value(byte));
    if count < 7 {
        Action::Skip(Mode::Text(TextMode::Extended4Digits(count + 1, value)))
    } else {
        put_scalar(TextMode::Extended4Next, value)
    }
}
