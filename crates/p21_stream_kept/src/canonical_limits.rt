ghost use Rattle.std.specs.Prelude.{◌≡◌, ◌↔◌, ◌<◌, ◌≤◌, ◌+◌, ◌^◌, IsTrue};
ghost use Rattle.p21_stream_kept.specs.Steps.{FitsLimits};

use p21_values::Limits;

/// Whether a canonical line of this size, its line feed apart, is within its limit, and all lines with it are within that
/// of a file.
pub fn fits_limits(limits: Limits, bytes: u64, framing: u64, size: u64) -> bool
    ensures decides { IsTrue result ↔ FitsLimits limits (bytes + framing) size }
    ensures fits { IsTrue result → bytes + framing + (size + 1) < 2 ^ 64 }
{
    let most = limits.file_canonical();
    if size > limits.record_canonical() {
        return false;
    }
    let Some(so_far) = bytes.checked_add(framing) else {
        return false;
    };
    match so_far.checked_add(size) {
        Some(sum) => sum < most,
        None => false,
    }
}
