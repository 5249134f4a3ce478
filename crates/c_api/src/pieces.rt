//! Copies of parts of a byte string.
ghost use Rattle.c_api.specs.Pieces.{IsPiece};

// Copies bytes from index `from` on into the front of the buffer, as many as fit and are there, and returns their number.
pub(crate) fn copy_piece(bytes: &[u8], from: usize, buffer: &mut [u8]) -> usize
    ensures { IsPiece bytes.now from buffer.old buffer.new result }
{
    if from >= bytes.len() {
        return 0;
    }
    let rest = &bytes[from..];
    let count = rest.len().min(buffer.len());
    buffer[..count].copy_from_slice(&rest[..count]);
    count
}
