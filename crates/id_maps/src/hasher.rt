//! The hash of an id.

ghost use Rattle.std.specs.Prelude.{◌≡◌};
ghost use Rattle.id_maps.specs.Hashing as hashing;

use std::hash::Hasher;

/// Hashes bytes one after the other, each by a rotation and an exclusive or. That is enough for bytes that hold an id,
/// which is a SHA-256: nobody chooses them.
#[derive(Clone, Copy)]
pub struct IdHasher {
    state: u64,
}

impl Default for IdHasher {
    ghost is_default = { λ h. h ≡ hashing.initial };

    fn default() -> IdHasher {
        IdHasher { state: 0 }
    }
}

impl Hasher for IdHasher {
    ghost write = { hashing.write };

    ghost finish = { λ h. h.state };

    #[inline(always)]
    fn finish(&self) -> u64 {
        self.state
    }

    #[inline(always)]
    fn write(&mut self, bytes: &[u8]) {
        let mut state = self.state;
        for byte in bytes {
            state = state.rotate_left(8) ^ u64::from(*byte);
        }
        self.state = state;
    }
}
