//! Pieces of byte strings.
ghost use Rattle.std.specs.Prelude.{◌≡◌, ◌≤◌, ◌+◌, ◌++◌, length, take};

/// Writes a piece at a place, and keeps what stands before it.
pub fn put(out: &mut [u8], at: usize, piece: &[u8])
    requires { at + length piece.now ≤ length out.old }
    ensures { take (at + length piece.now) out.new ≡ take at out.old ++ piece.now }
{
    out[at..at + piece.len()].copy_from_slice(piece);
}
