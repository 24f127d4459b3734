ghost use Rattle.std.specs.Prelude.{◌≡◌, ◌≤◌, length, take};
ghost use Rattle.std.specs.Str.{IsUtf8};

use simdutf8::compat::from_utf8;

/// A count of bytes, cut to the room that is left.
pub(crate) fn at_most(count: usize, room: u64) -> usize
    ensures within { result ≤ count }
    ensures room { result ≤ room }
{
    if count as u64 <= room {
        count
    } else {
        room as usize
    }
}

/// The characters at the front of bytes, as far as they are whole in UTF-8.
pub(crate) fn whole_characters(bytes: &[u8]) -> &str
    ensures within { length result.now ≤ length bytes.now }
    ensures front { result.now ≡ take (length result.now) bytes.now }
{
    match from_utf8(bytes) {
        Ok(text) => text,
        Err(fault) => match from_utf8(&bytes[..fault.valid_up_to()]) {
            Ok(text) => text,
            Err(_fault) => "",
        },
    }
}
