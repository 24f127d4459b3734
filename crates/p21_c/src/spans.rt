//! Bytes of a file or of a schema that are handed out where they lie.
ghost use Rattle.std.specs.Prelude.{◌≡◌};
ghost use Rattle.std.specs.Ptr.{as_ptr};
ghost use Rattle.p21_c.specs.Spans.{span_of};

/// Where bytes lie, and how many they are.
#[repr(C)]
#[derive(Clone, Copy)]
pub struct Span {
    pub bytes: *const u8,
    pub length: usize,
}

/// Where these bytes lie, and how many they are.
pub(crate) fn span_of(bytes: &[u8]) -> Span
    ensures { result ≡ span_of bytes.entry }
{
    Span {
        bytes: start_of(bytes),
        length: bytes.len(),
    }
}

/// Where these bytes lie.
fn start_of(bytes: &[u8]) -> *const u8
    ensures { result ≡ as_ptr bytes.entry }
{
    bytes.as_ptr()
}
