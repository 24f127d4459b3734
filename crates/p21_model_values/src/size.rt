//! Where a value ends in a list.
ghost use Rattle.std.specs.Prelude.{◌≡◌, ◌≤◌, ◌<◌, ◌+◌, ◌^◌, ◌++◌, ◌∷◌, List, ℕ, suc, length, MatchOption, IfSome, false};
ghost use Rattle.p21_spec_exchange.specs.CanonicalText.{param_text};
ghost use Rattle.p21_spec_exchange.specs.Parameter.{Param};
ghost use Rattle.p21_spec_laws.specs.Written.{IsWritten};
ghost use Rattle.p21_model_values.specs.Ends.{size_within};
ghost use Rattle.p21_model_values.specs.Written.{EndsValue};

/// Inside a string or not, and inside so many parentheses.
#[derive(Clone, Copy)]
struct Within {
    quoted: bool,
    depth: usize,
}

/// How many bytes the first value has: it ends before a comma or a closing parenthesis that stands in no string and in no
/// parentheses of its own.
pub(crate) fn value_size(bytes: &[u8]) -> usize
    ensures within { result ≤ length bytes.now }
    ensures counted { result ≡ size_within bytes.now false 0 }
    ensures size { (p : Param) (rest : List ℕ) → IsWritten p → EndsValue rest → bytes.now ≡ param_text p ++ rest
        → result ≡ length (param_text p) }
{
    size_to_end(bytes)
}

/// How many bytes stand before that end.
fn size_to_end(bytes: &[u8]) -> usize
    ensures within { result ≤ length bytes.now }
    ensures size { result ≡ size_within bytes.now false 0 }
{
    let mut within = Within {
        quoted: false,
        depth: 0,
    };
    for at in 0..bytes.len() {
        match behind_byte(bytes[at], within) {
            Some(next) => within = next,
            None => return at,
        }
    }
    bytes.len()
}

/// Behind a byte, unless the value ends before it.
#[inline(always)]
fn behind_byte(byte: u8, within: Within) -> Option<Within>
    requires { within.depth + 1 < 2 ^ 64 }
    ensures few { IfSome result (λ next. next.depth ≤ within.depth + 1) }
    ensures size { (rest : List ℕ) → MatchOption result (size_within (byte ∷ rest) within.quoted within.depth ≡ 0)
        (λ next. size_within (byte ∷ rest) within.quoted within.depth ≡ suc (size_within rest next.quoted next.depth)) }
{
    let Within { quoted, depth } = within;
    if byte == b'\'' {
        return Some(Within {
            quoted: !quoted,
            depth,
        });
    }
    if quoted {
        return Some(within);
    }
    if byte == b'(' {
        return Some(Within {
            quoted,
            depth: depth + 1,
        });
    }
    if byte == b')' {
        return match depth {
            0 => None,
            _ => Some(Within {
                quoted,
                depth: depth - 1,
            }),
        };
    }
    if byte == b',' && depth == 0 {
        return None;
    }
    Some(within)
}
