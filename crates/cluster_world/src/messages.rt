//! Messages are delivered, lost and diverted.

ghost use Rattle.std.specs.Prelude.{◌≡◌, ◌-◌, ◌≤◌, Ok, Some, IfSome, length, option_map, true, false};
ghost use Rattle.cluster_run.specs.Events as events;
ghost use Rattle.cluster_run.specs.Parts as parts;
ghost use Rattle.cluster_run.specs.States.{Setup, State};
ghost use Rattle.message_pool.specs.declared.posted.Posted.{Posted};
ghost use Rattle.message_pool.specs.Posts.{PoolValue, posted_at};
ghost use Rattle.sight_laws.specs.Seen.{IsSeenFrame, PoolIsSeen};
ghost use Rattle.cluster_world.specs.Comes.{Comes};
ghost use Rattle.cluster_world.specs.Handing.{Hands};
ghost use Rattle.cluster_world.specs.Shows.{Shows, Stands};
ghost use Rattle.cluster_world.specs.Taking.{Handles, IsTaken, Takes};
ghost use Rattle.std.specs.Prelude.{IfOk};

use crate::engine::Engine;
use crate::fault::StepFault;
use crate::taking::Took;
use basil_types::party::Party;
use keyring::signer::Signer;
use keyring::verifier::Verifier;

impl<V: Verifier, S: Signer> Engine<V, S> {
    /// The sender and the receiver of a message.
    fn parties_of(&self, message: u64) -> Option<(Party, Party)>
        ensures parties { result ≡ option_map (λ (p : Posted). (p.from, p.to)) (posted_at self.now.pool.posts message) }
        ensures number { IfSome result (λ _. (1 ≤ message) × (message ≤ length self.now.pool.posts)) }
    {
        match self.pool.at(message) {
            Some(posted) => Some((posted.from, posted.to)),
            None => None,
        }
    }

    /// A frame is seen, if it wasn't before, and its receiver takes it. Where what it would send has no room, nothing
    /// was seen.
    fn hand(
        &mut self,
        from: Party,
        to: Party,
        frame: &[u8],
        was_seen: bool,
    ) -> Result<Took, StepFault>
        ensures within { IfOk result (IsTaken self.old.pool) }
        ensures handed { (s : Setup) (st : State) →
            (was_seen ≡ true → IsSeenFrame s st.watch st.certified frame.now) → Stands s self.old st →
            Hands s st self.old.pool from to frame.now self.new result }
        ensures pool { self.new.pool ≡ self.old.pool }
    {
        self.sight.look(frame, was_seen)?;
        match self.take(from, to, frame) {
            Ok(took) => Ok(took),
            Err(fault) => {
                self.sight.undo();
                Err(fault)
            }
        }
    }

    /// What the receiver of a message did: what it sends enters the pool.
    fn react(&mut self, message: u64, took: Took) -> Result<(), StepFault>
        requires { IsTaken self.old.pool took }
        ensures { (s : Setup) (st before : State) (pool : PoolValue) (handles : Handles) →
            self.old.pool.posts ≡ st.pool → PoolIsSeen s st → Takes s st pool handles self.old (Ok took)
            → Comes s before (handles message st) self.new result }
    {
        match took {
            Took::Nothing => Ok(()),
            Took::Refused => {
                self.refused = Some(message);
                Ok(())
            }
            Took::Sent(party, out) => {
                self.send(party, out)?;
                Ok(())
            }
        }
    }

    /// A message is delivered, and its receiver is handed these bytes. They are seen, unless they are the message's
    /// own, which were seen when it entered.
    pub(crate) fn deliver(&mut self, message: u64, given: &[u8]) -> Result<(), StepFault>
        ensures { (s : Setup) (st : State) → Shows s self.old st →
            Comes s st (events.happens s (events.Deliver message given.now) st) self.new result }
    {
        let Some((from, to)) = self.parties_of(message) else {
            return Ok(());
        };
        let was_seen = self.has_frame(message, given);
        let took = self.hand(from, to, given, was_seen)?;
        self.pool.deliver(message);
        self.react(message, took)
    }

    /// A message is delivered to another party, which is handed these bytes; it may still be delivered to its receiver.
    pub(crate) fn divert(&mut self, message: u64, to: Party, given: &[u8]) -> Result<(), StepFault>
        ensures { (s : Setup) (st : State) → Shows s self.old st →
            Comes s st (events.happens s (events.Divert message to given.now) st) self.new result }
    {
        let Some((from, _)) = self.parties_of(message) else {
            return Ok(());
        };
        let took = self.hand(from, to, given, false)?;
        self.react(message, took)
    }

    /// A message is lost.
    pub(crate) fn lose(&mut self, message: u64)
        ensures { (s : Setup) (st : State) → Shows s self.old st →
            Comes s st (events.happens s (events.Lose message) st) self.new (Ok tt) }
    {
        if self.parties_of(message).is_some() {
            self.pool.lose(message);
        }
    }
}
