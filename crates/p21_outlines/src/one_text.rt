//! Whether two accepted files have one canonical text.
ghost use Rattle.std.specs.Prelude.{◌≡◌, ◌↔◌, IsTrue};
ghost use Rattle.p21_stream_output.specs.Output.{output_text};

use p21_stream_output::{Accepted, Cursor};

/// The bytes of each text that are compared at once.
const PIECE: usize = 65_536;

/// Whether the canonical texts of two accepted files are one. It takes no memory.
pub fn have_one_text(first: &Accepted, second: &Accepted) -> bool
    ensures { IsTrue result ↔ (output_text first.now ≡ output_text second.now) }
{
    let mut cursor = Cursor::start();
    let mut other_cursor = Cursor::start();
    let mut piece = [0; PIECE];
    let mut other_piece = [0; PIECE];
    loop {
        let count = first.read(&mut cursor, &mut piece);
        let other_count = second.read(&mut other_cursor, &mut other_piece);
        if !are_one(&piece[..count], &other_piece[..other_count]) {
            return false;
        }
        if count == 0 {
            return true;
        }
    }
}

/// Whether two pieces are one.
fn are_one(one: &[u8], other: &[u8]) -> bool
    ensures { IsTrue result ↔ (one.now ≡ other.now) }
{
    one == other
}
