//! What the words of a key stream draw.

ghost use Rattle.std.specs.Prelude.{◌≡◌, ◌+◌, ◌<◌, ◌^◌};
ghost use Rattle.load_maker.specs.Draws.{draw_from, key_bytes, stream_at};

use rand_chacha::ChaCha20Rng;
use rand_core::SeedableRng;
use rand_core::utils::NextWord;

/// What four words draw for one transaction.
#[derive(Clone, Copy)]
pub struct Draw {
    /// Its client, 1 to 8.
    pub client: u8,
    /// The number, below 16, of the key that it reads and writes.
    pub key: u8,
    /// The number, below 16, of the key that it writes too, where that is another one.
    pub other: u8,
    /// The rounds after it is prepared, below 4.
    pub rounds: u8,
}

/// The key of a number: its 8 bytes, the lowest first, and 24 zero bytes.
fn key_of(seed: u64) -> [u8; 32]
    ensures { result ≡ key_bytes seed }
{
    let mut key = [0u8; 32];
    key[..8].copy_from_slice(&seed.to_le_bytes());
    key
}

/// Stream 0 of ChaCha20 under the key of a number, at its first word.
pub(crate) fn stream_of(seed: u64) -> ChaCha20Rng
    ensures { result ≡ stream_at seed 0 }
{
    ChaCha20Rng::from_seed(key_of(seed))
}

/// Draws a transaction by the next four words.
pub(crate) fn next_draw(stream: &mut ChaCha20Rng) -> Draw
    requires { stream.old.word_pos < 2 ^ 64 }
    ensures drawn { result ≡ draw_from stream.old }
    ensures moved { stream.new ≡ record stream.old { word_pos = stream.old.word_pos + 4 } }
{
    let client = 1 + stream.next_word() % 8;
    let key = stream.next_word() % 16;
    let other = stream.next_word() % 16;
    let rounds = stream.next_word() % 4;
    Draw {
        client: client as u8,
        key: key as u8,
        other: other as u8,
        rounds: rounds as u8,
    }
}
