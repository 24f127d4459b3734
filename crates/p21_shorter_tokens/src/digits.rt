//! Bytes at the front: a certain one, or a run of zeros.
ghost use Rattle.std.specs.Prelude.{◌≡◌, false};
ghost use Rattle.p21_scan.specs.Digits.{BeginsWithoutByte};
ghost use Rattle.p21_shorter_tokens.specs.Runs.{AreLeadingZeros};

use p21_scan::behind;

/// How many zeros stand at the front.
#[inline(always)]
#[tactic(auto, using(crate::proofs::Zeros::zeros_more, crate::proofs::Zeros::zeros_ended, crate::proofs::Zeros::zeros_whole))]
pub(crate) fn leading_zeros(bytes: &[u8]) -> usize
    ensures { AreLeadingZeros bytes.now result }
{
    for (i, byte) in bytes.iter().enumerate() {
        if *byte != b'0' {
            return i;
        }
    }
    bytes.len()
}

/// Whether this byte stands first.
#[inline(always)]
pub(crate) fn begins_with(first: u8, bytes: &[u8]) -> bool
    ensures { result ≡ false → BeginsWithoutByte first bytes.now }
{
    behind(first, bytes).is_some()
}
