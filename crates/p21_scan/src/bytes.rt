ghost use Rattle.std.specs.Prelude.{◌≡◌};
ghost use Rattle.p21_spec_basics.specs.Digits.{is_digit};
ghost use Rattle.p21_scan.specs.Bytes.{is_upper, is_keyword_byte, is_blank};

/// Whether a byte is a digit, `0` to `9`.
#[inline(always)]
pub fn is_digit(byte: u8) -> bool
    ensures { result ≡ is_digit byte }
{
    b'0' <= byte && byte <= b'9'
}

/// An upper-case letter or `_`.
#[inline(always)]
pub fn is_upper(byte: u8) -> bool
    ensures { result ≡ is_upper byte }
{
    (b'A' <= byte && byte <= b'Z') || byte == b'_'
}

/// Whether a byte may stand in a keyword: an upper-case letter, `_` or a digit.
#[inline(always)]
pub fn is_keyword_byte(byte: u8) -> bool
    ensures { result ≡ is_keyword_byte byte }
{
    is_upper(byte) || is_digit(byte)
}

/// A separator byte.
#[inline(always)]
pub fn is_blank(byte: u8) -> bool
    ensures { result ≡ is_blank byte }
{
    byte <= b' ' || byte == 127
}
