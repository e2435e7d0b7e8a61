//! Finding a held transaction by its id.

ghost use Rattle.std.specs.Prelude.{◌≡◌, ◌<◌, IfSome, length, position};
ghost use Rattle.client_core.specs.Clients.{ClientValue};
ghost use Rattle.client_core.specs.Finding.{id_in, is_id, is_named};
ghost use Rattle.client_core.specs.Showing.{ShowsHeld};
ghost use Rattle.client_core.specs.Slots as slots;

use crate::held::{Held, Slot};

impl Slot {
    /// The id of its transaction, if it is formed.
    pub(crate) fn id(&self) -> Option<[u8; 32]>
        ensures { result ≡ id_in self.now }
    {
        match &self.formed {
            Some(formed) => Some(*formed.pursuit.id()),
            None => None,
        }
    }
}

/// Whether an id that a slot may have is this one.
fn is_same(own: &Option<[u8; 32]>, id: &[u8; 32]) -> bool
    ensures { result ≡ is_id id.now own.now }
{
    match own {
        Some(own) => id.as_slice() == own.as_slice(),
        None => false,
    }
}

/// The place of the first of these ids that is this one.
fn place_among(ids: &[Option<[u8; 32]>], id: &[u8; 32]) -> Option<usize>
    ensures { result ≡ position (is_id id.now) ids.now }
{
    ids.iter().position(|own| is_same(own, id))
}

impl Held {
    /// The first slot whose transaction is formed and has this id.
    fn place_of(&self, id: &[u8; 32]) -> Option<usize>
        ensures { result ≡ position (is_named id.now) self.now.slots.items }
    {
        place_among(self.ids.as_slice(), id)
    }

    /// The first slot whose transaction is formed and has this id.
    pub(crate) fn slot_of_id(&self, id: &[u8; 32]) -> Option<usize>
        ensures found { (v : ClientValue) → ShowsHeld self.now v → result ≡ slots.slot_of_id v id.now }
        ensures within { IfSome result (λ place. place < length self.now.slots.items) }
    {
        self.place_of(id)
    }
}
