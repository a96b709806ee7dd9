//! Bytes that arrive.
ghost use Rattle.std.specs.Prelude.{◌≡◌, ◌≤◌, length};

/// Copies the first bytes into a piece, as many as it has room for, and tells how many these are.
pub(crate) fn give(bytes: &[u8], piece: &mut [u8]) -> usize
    ensures there { result ≤ length bytes.now }
    ensures room { result ≤ length piece.new }
    ensures same { length piece.new ≡ length piece.old }
{
    let count = bytes.len().min(piece.len());
    piece[..count].copy_from_slice(&bytes[..count]);
    count
}
