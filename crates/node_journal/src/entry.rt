//! A handed frame as the entry of a record: the moment, the sender, the frame.

ghost use Rattle.std.specs.Prelude.{◌≡◌, ◌++◌, ◌∷◌, [], option_map};
ghost use Rattle.std.specs.Int.{to_be_bytes, w64};
ghost use Rattle.node_journal.specs.Entries.{front_of, handed_in, party_named};

use crate::limits::BEFORE_FRAME;
use basil_types::party::{Party, party_bytes};

/// A frame that is lent, by whom it was sent and at which moment.
#[derive(Clone, Copy)]
pub(crate) struct Lent<'a> {
    pub(crate) now: u64,
    pub(crate) from: Party,
    pub(crate) frame: &'a [u8],
}

/// Who is named by three bytes.
fn party_of(kind: u8, second: u8, number: u8) -> Option<Party>
    ensures { result ≡ party_named kind second number }
{
    if kind == 0 {
        return Some(Party::Replica {
            shard: second,
            index: number,
        });
    }
    if kind == 1 && second == 0 {
        return Some(Party::Client { number });
    }
    None
}

/// The bytes of an entry before its frame.
pub(crate) fn front(now: u64, from: Party) -> [u8; BEFORE_FRAME]
    ensures { result ≡ front_of now from }
{
    let [a, b, c, d, e, f, g, h] = now.to_be_bytes();
    let [kind, second, number] = party_bytes(from);
    [a, b, c, d, e, f, g, h, kind, second, number]
}

/// What an entry says, if its bytes are one.
#[tactic(auto, unfolding(crate::specs::Entries::handed_in))]
pub(crate) fn read(entry: &[u8]) -> Option<Lent<'_>>
    ensures { option_map (λ lent. record { now = lent.now; from = lent.from; frame = lent.frame.now }) result
        ≡ handed_in entry.now }
{
    match entry {
        [a, b, c, d, e, f, g, h, kind, second, number, frame @ ..] => {
            let now = u64::from_be_bytes([*a, *b, *c, *d, *e, *f, *g, *h]);
            match party_of(*kind, *second, *number) {
                Some(from) => Some(Lent { now, from, frame }),
                None => None,
            }
        }
        _ => None,
    }
}
