//! The randomizer C of a leaf.
ghost use Rattle.std.specs.Prelude.{◌≡◌};
ghost use Rattle.lms_sign.specs.Randomizer.{randomizer_of};

use lms_ots::put;
use rand_chacha::ChaCha20Rng;
use rand_core::SeedableRng;
use rand_core::utils::NextWord;

/// The first 32 bytes of the ChaCha20 key stream with the seed as key and stream `q` + 1. So a
/// leaf always signs a message with the same randomizer.
#[tactic(auto, unfolding(crate::specs::Randomizer::stream_bytes, crate::specs::Randomizer::randomizer_of))]
pub(crate) fn randomizer(seed: &[u8; 32], q: u32) -> [u8; 32]
    ensures { result ≡ randomizer_of seed.now q }
{
    let mut stream = ChaCha20Rng::from_seed(*seed);
    stream.set_stream(u64::from(q) + 1);
    let mut c = [0u8; 32];
    for i in 0..8usize {
        put(&mut c, 4 * i, &stream.next_word().to_le_bytes());
    }
    c
}
