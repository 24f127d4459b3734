ghost use Rattle.p21_stream_log.specs.Log.{IsOffered};

/// The most bytes that are offered to the reader at once: among so many the next `;` is looked for with each token.
const MOST: usize = 64;

/// The bytes of a piece that are offered to the reader: those up to the next `;`, so that a statement ends with the last byte that is taken.
pub(crate) fn offered(piece: &[u8]) -> &[u8]
    ensures { IsOffered piece.now result.now }
{
    let most = piece.len().min(MOST);
    for count in 0..most {
        if piece[count] == b';' {
            return &piece[..=count];
        }
    }
    &piece[..most]
}
