ghost use Rattle.std.specs.Prelude.{◌≡◌};
ghost use Rattle.p21_stream_resume.specs.Step.{class_of};

use p21_scan::{is_blank, is_digit};

/// What a byte is where signposts are looked for.
#[derive(Clone, Copy, Debug, PartialEq, Eq)]
pub(crate) enum Class {
    Digit,
    Hash,
    Equals,
    Semicolon,
    Parenthesis,
    LineEnd,
    /// A blank that ends no line.
    Blank,
    Other,
}

pub(crate) fn class_of(byte: u8) -> Class
    ensures { result ≡ class_of byte }
{
    match byte {
        b'#' => Class::Hash,
        b'=' => Class::Equals,
        b';' => Class::Semicolon,
        b')' => Class::Parenthesis,
        b'\n' => Class::LineEnd,
        b'\r' => Class::LineEnd,
        _ => {
            if is_digit(byte) {
                Class::Digit
            } else if is_blank(byte) {
                Class::Blank
            } else {
                Class::Other
            }
        }
    }
}
