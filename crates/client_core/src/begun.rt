//! Finding a transaction that the client began by its time.

ghost use Rattle.std.specs.Prelude.{◌≡◌, ◌<◌, ◌&&◌, ◌==◌, IfSome, length, position};
ghost use Rattle.client_core.specs.Clients.{ClientValue};
ghost use Rattle.client_core.specs.Showing.{ShowsHeld};
ghost use Rattle.client_core.specs.Slots as slots;

use crate::held::{Held, Slot};

impl Held {
    /// The first slot that the client began at this time.
    fn place_of_time(&self, time: u64) -> Option<usize>
        ensures { result ≡ position (λ (s : Slot). s.begun && (s.time == time)) self.now.slots.items }
    {
        self.slots
            .iter()
            .position(|slot| slot.begun && slot.time == time)
    }

    /// The first slot that the client began at this time.
    pub(crate) fn slot_of_time(&self, time: u64) -> Option<usize>
        ensures found { (v : ClientValue) → ShowsHeld self.now v → result ≡ slots.slot_of_time v time }
        ensures within { IfSome result (λ place. place < length self.now.slots.items) }
    {
        self.place_of_time(time)
    }
}
