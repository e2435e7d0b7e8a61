//! Frames are seen, and enter the pool.

ghost use Rattle.std.specs.Prelude.{◌≡◌, ◌+◌, ◌≤◌, ◌++◌, ◌∷◌, [], List, OnOk, length};
ghost use Rattle.basil_types.specs.Words.{SignedWords};
ghost use Rattle.cluster_run.specs.Parts.{mail_from};
ghost use Rattle.cluster_run.specs.Parts as parts;
ghost use Rattle.cluster_run.specs.States.{Setup, State};
ghost use Rattle.message_pool.specs.Posts.{pool_bytes, sent};
ghost use Rattle.node_steps.specs.Holding.{Holds};
ghost use Rattle.node_steps.specs.Envelopes.{EnvelopeValue};
ghost use Rattle.cluster_world.specs.Comes.{Comes};
ghost use Rattle.cluster_world.specs.Sending.{Goes, HasRoomFor, full_of, has_frame_at, mails};
ghost use Rattle.cluster_world.specs.Shows.{Shows};

use crate::engine::Engine;
use crate::fault::StepFault;
use basil_types::bytes::Bytes;
use basil_types::list;
use basil_types::outbox::{Envelope, Outbox};
use basil_types::party::Party;
use cluster_run::fault::WorldFault;
use keyring::signer::Signer;
use keyring::verifier::Verifier;
use premise_watch::broken::WatchFault;

impl<V: Verifier, S: Signer> Engine<V, S> {
    /// Why messages don't enter: the pool, which holds so much, has no room for them.
    pub(crate) fn full(&self) -> StepFault
        ensures { result ≡ full_of self.now.pool }
    {
        StepFault::World(WorldFault::PoolFull {
            messages: self.pool.len(),
            bytes: self.pool.bytes(),
        })
    }

    /// Shows a frame to the watch, and to nobody else.
    pub(crate) fn show(&mut self, frame: &[u8]) -> Result<(), StepFault>
        ensures { (s : Setup) (st : State) → Shows s self.old st →
            Comes s st (parts.see s frame.now st) self.new result }
    {
        self.sight.see(frame)?;
        Ok(())
    }

    /// Whether the message of this number has this frame, so that the run has seen it.
    pub(crate) fn has_frame(&self, message: u64, frame: &[u8]) -> bool
        ensures { result ≡ has_frame_at self.now.pool.posts message frame.now }
    {
        match self.pool.at(message) {
            Some(posted) => posted.frame.as_slice() == frame,
            None => false,
        }
    }

    /// A message for which there is room enters the pool, and is seen, unless the one before it has the same frame.
    fn enter_one(&mut self, from: Party, to: Party, frame: Bytes) -> Result<(), WatchFault>
        requires few { length self.old.pool.posts + 1 ≤ self.old.pool.limits.messages }
        requires small { pool_bytes self.old.pool.posts + length frame ≤ self.old.pool.limits.bytes }
        ensures goes { (s : Setup) (st : State) → Shows s self.old st →
            Goes s (parts.enter_all s (record { from = from; to = to; frame = frame } ∷ []) st) self.new result }
        ensures grown { OnOk result (self.new.pool.posts ≡ self.old.pool.posts ++ sent from to frame ∷ []) }
        ensures limits { self.new.pool.limits ≡ self.old.pool.limits }
    {
        let shown = frame.as_slice();
        let was_seen = self.has_frame(self.pool.len(), shown);
        self.sight.look(shown, was_seen)?;
        self.pool.enter(from, to, frame)?;
        Ok(())
    }

    /// Messages for which there is room enter the pool in order, and each is seen as it enters.
    pub(crate) fn enter_all(
        &mut self,
        from: Party,
        messages: list::List<Envelope>,
    ) -> Result<(), WatchFault>
        requires { HasRoomFor self.old.pool messages.items }
        ensures { (s : Setup) (st : State) → Shows s self.old st →
            Goes s (parts.enter_all s (mails from messages.items) st) self.new result }
    {
        for message in messages.into_vec() {
            self.enter_one(from, message.to, message.frame)?;
        }
        Ok(())
    }

    /// A message enters the pool, where there is room, and is seen.
    pub(crate) fn enter(&mut self, from: Party, message: Envelope) -> Result<(), StepFault>
        ensures { (s : Setup) (st : State) → Shows s self.old st →
            Comes s st (parts.enter s (mail_from from message ∷ []) st) self.new result }
    {
        let bytes = message.frame.as_slice().len() as u64;
        if !self.pool.room().has(1, bytes) {
            return Err(self.full());
        }
        self.enter_one(from, message.to, message.frame)?;
        Ok(())
    }

    /// What a party signed is noted, and its messages, for which there is room, enter the pool.
    pub(crate) fn send(&mut self, from: Party, out: Outbox) -> Result<(), WatchFault>
        requires { HasRoomFor self.old.pool out.messages.items }
        ensures { (s : Setup) (st : State) (said : List SignedWords) (mail : List EnvelopeValue) → Shows s self.old st →
            Holds out mail said → Goes s (parts.send s from said mail st) self.new result }
    {
        let Outbox { messages, signed } = out;
        self.sight.note_all(from, signed.as_slice())?;
        self.enter_all(from, messages)
    }
}
