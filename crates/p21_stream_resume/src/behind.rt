ghost use Rattle.std.specs.Prelude.{◌≡◌, ◌↔◌, ◌++◌, IsTrue, List, ℕ};
ghost use Rattle.p21_spec_survey.specs.Landmark.{IsOpened};

use crate::class::{Class, class_of};

/// Whether a `;`, a `)` or the end of a line is the last byte of a piece, blanks apart, where it is told so of the bytes in front of the
/// piece. It reads no more of the piece than its last blanks.
pub fn is_opened_behind(opened: bool, piece: &[u8]) -> bool
    ensures { (before : List ℕ) → (IsTrue opened ↔ IsOpened before) → (IsTrue result ↔ IsOpened (before ++ piece.now)) }
{
    let mut count = piece.len();
    while count > 0 {
        match class_of(piece[count - 1]) {
            Class::Blank => count -= 1,
            Class::Semicolon => return true,
            Class::Parenthesis => return true,
            Class::LineEnd => return true,
            _ => return false,
        }
    }
    opened
}
