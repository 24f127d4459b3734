//! Bytes of a class at the front, tested one by one.
ghost use Rattle.std.specs.Prelude.{◌≡◌, ◌<◌, false, length, slice_index};
ghost use Rattle.p21_scan.specs.Class.{AreOfClass, is_of_class};

use crate::bytes::{is_blank, is_digit, is_keyword_byte};
use crate::hex_digits::is_hex_digit;
use crate::wide::long_prefix;

/// Bytes that stand in a token, or between tokens, all alike.
#[derive(Clone, Copy)]
pub enum Class {
    Blank,
    /// Inside a comment, any but `*`.
    Commented,
    Digit,
    KeywordByte,
    HexDigit,
    /// Inside a string, a character of its own.
    Plain,
    /// Inside a string, a character of its own, or one of its bytes in UTF-8.
    CharacterByte,
}

#[inline(always)]
fn is_of_class(class: Class, byte: u8) -> bool
    ensures { result ≡ is_of_class class byte }
{
    match class {
        Class::Blank => is_blank(byte),
        Class::Commented => byte != b'*',
        Class::Digit => is_digit(byte),
        Class::KeywordByte => is_keyword_byte(byte),
        Class::HexDigit => is_hex_digit(byte),
        Class::CharacterByte => b' ' <= byte && byte != b'\'' && byte != b'\\' && byte != 127,
        Class::Plain => b' ' <= byte && byte <= b'~' && byte != b'\'' && byte != b'\\',
    }
}

/// How many bytes at the front are of the class, where there is often none.
#[inline]
pub fn rare_prefix(class: Class, bytes: &[u8]) -> usize
    ensures are { AreOfClass class bytes.now result }
    ensures ends { result < length bytes.now → is_of_class class (slice_index bytes.now result) ≡ false }
{
    match bytes.first() {
        None => 0,
        Some(byte) => {
            if !is_of_class(class, *byte) {
                return 0;
            }
            long_prefix(class, bytes)
        }
    }
}

/// How many bytes at the front are of the class, where there are often few.
#[inline(always)]
pub fn short_prefix(class: Class, bytes: &[u8]) -> usize
    ensures are { AreOfClass class bytes.now result }
    ensures ends { result < length bytes.now → is_of_class class (slice_index bytes.now result) ≡ false }
{
    let mut count = 0;
    while count < bytes.len() && is_of_class(class, bytes[count]) {
        count += 1;
    }
    count
}
