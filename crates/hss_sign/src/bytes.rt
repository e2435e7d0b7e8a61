//! Pieces of byte strings.
ghost use Rattle.std.specs.Prelude.{◌≡◌, ◌≤◌, ◌+◌, length, take, drop};

/// The LMS public key at a place.
pub(crate) fn read_key(bytes: &[u8], at: usize) -> [u8; 56]
    requires { at + 56 ≤ length bytes.now }
    ensures { result ≡ take 56 (drop at bytes.now) }
{
    let mut key = [0u8; 56];
    key.copy_from_slice(&bytes[at..at + 56]);
    key
}
