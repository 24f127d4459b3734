ghost use Rattle.std.specs.Prelude.{◌≡◌, ◌≤◌, length, drop};
ghost use Rattle.p21_express_lexemes.specs.Bytes.{is_of, begins, begins_of, begins_both, front, behind};

/// Bytes that are read alike.
#[derive(Clone, Copy)]
pub(crate) enum Class {
    Blank,
    Letter,
    Digit,
    IdentifierByte,
    /// In an encoded string, any but its mark.
    Encoded,
    /// In a tail remark, any but the end of the line.
    LineByte,
    SymbolByte,
}

#[tactic(auto, unfolding(crate::specs::Bytes::is_of))]
pub(crate) fn is_of(class: Class, byte: u8) -> bool
    ensures { result ≡ is_of class byte }
{
    match class {
        Class::Blank => byte <= b' ' || byte == 127,
        Class::Letter => is_letter(byte),
        Class::Digit => is_digit(byte),
        Class::IdentifierByte => is_letter(byte) || is_digit(byte) || byte == b'_',
        Class::Encoded => byte != b'"',
        Class::LineByte => byte != b'\n',
        Class::SymbolByte => is_symbol(byte),
    }
}

ghost use Rattle.p21_spec_basics.specs.Digits.{is_digit};
ghost use Rattle.p21_express_lexemes.specs.Bytes.{is_letter, is_symbol};

fn is_letter(byte: u8) -> bool
    ensures { result ≡ is_letter byte }
{
    (b'A' <= byte && byte <= b'Z') || (b'a' <= byte && byte <= b'z')
}

fn is_digit(byte: u8) -> bool
    ensures { result ≡ is_digit byte }
{
    b'0' <= byte && byte <= b'9'
}

fn is_symbol(byte: u8) -> bool
    ensures { result ≡ is_symbol byte }
{
    b'!' <= byte
        && byte <= b'~'
        && !is_letter(byte)
        && !is_digit(byte)
        && byte != b'\''
        && byte != b'"'
}

/// Whether the first byte is of the class.
pub(crate) fn begins_of(class: Class, bytes: &[u8]) -> bool
    ensures { result ≡ begins_of class bytes.now }
{
    match bytes.first() {
        Some(byte) => is_of(class, *byte),
        None => false,
    }
}

/// Whether the first byte is this one.
pub(crate) fn begins(first: u8, bytes: &[u8]) -> bool
    ensures { result ≡ begins first bytes.now }
{
    match bytes.first() {
        Some(byte) => *byte == first,
        None => false,
    }
}

/// Whether the first two bytes are these.
pub(crate) fn begins_both(first: u8, second: u8, bytes: &[u8]) -> bool
    ensures { result ≡ begins_both first second bytes.now }
{
    bytes.len() >= 2 && bytes[0] == first && bytes[1] == second
}

/// The bytes of the class at the front, and what stands behind them.
#[tactic(auto, using(crate::proofs::Spans::front_counted, crate::proofs::Spans::behind_counted))]
pub(crate) fn split_of(class: Class, bytes: &[u8]) -> (&[u8], &[u8])
    ensures front { result.0.now ≡ front class bytes.now }
    ensures behind { result.1.now ≡ behind class bytes.now }
{
    let mut count = 0;
    while count < bytes.len() && is_of(class, bytes[count]) {
        count += 1;
    }
    bytes.split_at(count)
}

/// What stands behind so many bytes.
pub(crate) fn behind(count: usize, bytes: &[u8]) -> &[u8]
    requires { count ≤ length bytes.now }
    ensures { result.now ≡ drop count bytes.now }
{
    bytes.split_at(count).1
}
