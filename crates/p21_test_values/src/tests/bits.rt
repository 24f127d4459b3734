use super::{Pairs, are_equal, is_spelled, passes};
use p21_values::{Bits, ValueFault};

/// Tokens, and how many bits they have.
type Tokens = &'static [(&'static str, u128)];

const TOKENS: Tokens = &[
    ("\"23B\"", 6),
    ("\"0\"", 0),
    ("\"30\"", 1),
    ("\"31\"", 1),
    ("\"0A\"", 4),
    ("\"17F\"", 7),
    // of as many bytes as lie in place, and of more
    ("\"00123456789ABCDEF0123\"", 80),
    ("\"00123456789ABCDEF01234\"", 84),
    ("\"00123456789ABCDEF012345\"", 88),
    ("\"00123456789ABCDEF0123456789ABCDEF0\"", 132),
];

fn read(rt: &HostRuntime, token: &str) -> Result<Bits, ValueFault> {
    Bits::read(rt.alloc(), token.as_bytes())
}

fn count(rt: &HostRuntime, token: &str) -> Option<u128> {
    match read(rt, token) {
        Ok(bits) => Some(bits.len()),
        Err(_) => None,
    }
}

/// The first token that has not so many bits, or another spelling.
fn first_wrong(rt: &HostRuntime, tokens: Tokens) -> &'static str {
    for (token, bits) in tokens {
        if count(rt, token) != Some(*bits) || !is_spelled(rt, read(rt, token), token.as_bytes()) {
            return token;
        }
    }
    "none"
}

const OTHERS: &[&str] = &[
    "\"33B\"", "\"1\"", "\"18\"", "\"40\"", "\"23b\"", "\"23B", "23B\"", "\"\"", "\"", "",
];

fn first_taken(rt: &HostRuntime, tokens: &'static [&'static str]) -> &'static str {
    for token in tokens {
        if read(rt, token).err() != Some(ValueFault::BadBinary) {
            return token;
        }
    }
    "none"
}

const PAIRS: Pairs = &[
    ("\"30\"", "\"30\"", true),
    ("\"30\"", "\"31\"", false),
    ("\"30\"", "\"20\"", false),
];

/// The second token of the first pair that doesn't mean what its row says.
fn first_unlike(rt: &HostRuntime, pairs: Pairs) -> &'static str {
    for (one, other, equal) in pairs {
        if are_equal(read(rt, one), read(rt, other)) != Some(*equal) {
            return other;
        }
    }
    "none"
}

#[test]
fn reads_refuses_and_compares(rt: HostRuntime) {
    passes(&rt, first_wrong(&rt, TOKENS));
    passes(&rt, first_taken(&rt, OTHERS));
    passes(&rt, first_unlike(&rt, PAIRS));
}
