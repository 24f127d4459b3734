//! Statements in which a file ends, where no remark in them ends.
ghost use Rattle.std.specs.Prelude.{◌≡◌, ◌↔◌, IsTrue};
ghost use Rattle.p21_stream_log.specs.Endless.{BeginsUnended};
ghost use Rattle.p21_stream_resume.specs.Standing.{EndsNoRemark};

use crate::opening::begins_with;
use p21_shorter_tokens::behind_separators;

/// Whether no `*/` stands in bytes, so that no remark in them ends.
pub fn ends_no_remark(bytes: &[u8]) -> bool
    ensures { IsTrue result → EndsNoRemark bytes.now }
{
    for at in 1..bytes.len() {
        if is_remark_end(bytes[at - 1], bytes[at]) {
            return false;
        }
    }
    true
}

fn is_remark_end(first: u8, second: u8) -> bool
    ensures { IsTrue result ↔ ((first ≡ 42) × (second ≡ 47)) }
{
    first == b'*' && second == b'/'
}

/// Whether something begins in bytes behind a statement that isn't `ENDSEC`, where no remark ends in them or behind them.
pub fn begins_unended(bytes: &[u8]) -> bool
    ensures { IsTrue result → BeginsUnended bytes.now }
{
    let rest = behind_separators(bytes);
    if rest.is_empty() {
        return false;
    }
    if begins_with(rest, b"ENDSEC") {
        return false;
    }
    !begins_with(b"ENDSEC", rest)
}
