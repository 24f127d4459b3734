ghost use Rattle.std.specs.Prelude.{◌≡◌, ℕ, ◌^◌, ◌<◌, ◌≤◌, ◌+◌, Bool, List, ◌∷◌, ◌++◌, length, take, IfNone, IfSome};
ghost use Rattle.p21_spec_basics.specs.Digits.{AllDigits, number};
ghost use Rattle.p21_spec_exchange.specs.Number.{is_minus};
ghost use Rattle.p21_spec_exchange.proofs.Forms.{NoDigitFirst, behind_sign, first_sign};
ghost use Rattle.p21_scan.specs.Digits.{BeginsWithoutByte, WithoutTrailingZeros, WithoutLeadingZeros};

/// Whether a minus stands first, and what stands behind the sign: all the bytes where there is none.
#[inline(always)]
pub fn split_sign(bytes: &[u8]) -> (bool, &[u8])
    ensures minus { result.0 ≡ is_minus (first_sign bytes.now) }
    ensures rest { result.1.now ≡ behind_sign bytes.now }
{
    match bytes {
        [b'+', rest @ ..] => (false, rest),
        [b'-', rest @ ..] => (true, rest),
        _ => (false, bytes),
    }
}

/// The digits at the front, and what stands behind them.
#[tactic(auto, using(crate::proofs::DigitRuns::digits_more))]
#[inline(always)]
pub fn split_digits(bytes: &[u8]) -> (&[u8], &[u8])
    ensures bytes_are { bytes.now ≡ result.0.now ++ result.1.now }
    ensures digits { AllDigits result.0.now }
    ensures rest { NoDigitFirst result.1.now }
{
    for (i, byte) in bytes.iter().enumerate() {
        if !byte.is_ascii_digit() {
            return bytes.split_at(i);
        }
    }
    (bytes, &[])
}

/// The digits without the zeros in front: none for the number zero.
#[inline(always)]
pub fn without_leading_zeros(digits: &[u8]) -> &[u8]
    requires { AllDigits digits.now }
    ensures { WithoutLeadingZeros digits.now result.now }
{
    let mut rest = digits;
    while !rest.is_empty() && rest[0] == b'0' {
        rest = &rest[1..];
    }
    rest
}

/// The digits without the zeros at the end.
#[inline(always)]
pub fn without_trailing_zeros(digits: &[u8]) -> &[u8]
    requires { AllDigits digits.now }
    ensures { WithoutTrailingZeros digits.now result.now }
{
    let mut kept = digits.len();
    while kept > 0 && digits[kept - 1] == b'0' {
        kept -= 1;
    }
    &digits[..kept]
}

/// What stands behind the first byte, where that is the one asked for.
#[inline(always)]
pub fn behind(first: u8, bytes: &[u8]) -> Option<&[u8]>
    ensures none { IfNone result (BeginsWithoutByte first bytes.now) }
    ensures some { IfSome result (λ rest. bytes.now ≡ first ∷ rest.now) }
{
    let (byte, rest) = bytes.split_first()?;
    if *byte == first { Some(rest) } else { None }
}

/// The number that at most 18 digits stand for. Those of most names are taken without a loop.
#[inline(always)]
pub fn number_of(digits: &[u8]) -> u64
    requires are_digits { AllDigits digits.now }
    requires short { length digits.now ≤ 18 }
    ensures { result ≡ number digits.now }
{
    let count = digits.len();
    if count < 4 || count > 7 {
        return number_in_turn(digits);
    }
    let four = number_of_four(digits);
    if count == 4 {
        return four;
    }
    let five = with_digit(four, digits, 4);
    if count == 5 {
        return five;
    }
    let six = with_digit(five, digits, 5);
    if count == 6 {
        return six;
    }
    with_digit(six, digits, 6)
}

/// The same, digit by digit.
#[inline(never)]
fn number_in_turn(digits: &[u8]) -> u64
    requires are_digits { AllDigits digits.now }
    requires short { length digits.now ≤ 18 }
    ensures { result ≡ number digits.now }
{
    let mut value = 0u64;
    for at in 0..digits.len() {
        value = with_digit(value, digits, at);
    }
    value
}

/// The number that the first four digits stand for.
#[inline(always)]
fn number_of_four(digits: &[u8]) -> u64
    requires are_digits { AllDigits digits.now }
    requires within { 4 ≤ length digits.now }
    ensures { result ≡ number (take 4 digits.now) }
{
    let one = with_digit(0, digits, 0);
    let two = with_digit(one, digits, 1);
    let three = with_digit(two, digits, 2);
    with_digit(three, digits, 3)
}

/// The number that the digits up to this one stand for, by that of those before it.
#[inline(always)]
fn with_digit(front: u64, digits: &[u8], at: usize) -> u64
    requires are_digits { AllDigits digits.now }
    requires within { at < length digits.now }
    requires short { at < 18 }
    requires front { front ≡ number (take at digits.now) }
    ensures { result ≡ number (take (at + 1) digits.now) }
{
    let code = u64::from(digits[at]);
    front * 10 + (code - u64::from(b'0'))
}

/// The number that at most nine digits stand for.
#[inline(always)]
pub fn short_number(digits: &[u8]) -> u32
    requires are_digits { AllDigits digits.now }
    requires short { length digits.now ≤ 9 }
    ensures value { result ≡ number digits.now }
    ensures small { result < 10 ^ 9 }
{
    number_of(digits) as u32
}
