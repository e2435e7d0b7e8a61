//! One event of a run.

ghost use Rattle.std.specs.Prelude.{◌≡◌};
ghost use Rattle.cluster_run.specs.Events as events;
ghost use Rattle.cluster_run.specs.States.{Setup, State};
ghost use Rattle.cluster_world.specs.Comes.{Comes};
ghost use Rattle.cluster_world.specs.EventValues.{event_value};
ghost use Rattle.cluster_world.specs.Shows.{Shows};

use crate::calls::own_slot;
use crate::engine::Engine;
use crate::event::Event;
use crate::fault::StepFault;
use crate::written::Written;
use faulty_parties::place::Place;
use faulty_parties::proposals::Proposed;
use faulty_parties::replies::Logged;
use keyring::signer::Signer;
use keyring::verifier::Verifier;

impl<V: Verifier, S: Signer> Engine<V, S> {
    /// A client forms and signs a transaction, and sends it.
    fn prepare(&mut self, tx: u32) -> Result<(), StepFault>
        ensures { (s : Setup) (st : State) → Shows s self.old st →
            Comes s st (events.happens s (events.Prepare tx) st) self.new result }
    {
        match own_slot(&self.begun, tx) {
            Some((client, slot)) => self.prepare_own(tx, client, slot),
            None => self.prepare_faulty(tx),
        }
    }

    /// A message is lost.
    fn lost(&mut self, message: u64) -> Result<(), StepFault>
        ensures { (s : Setup) (st : State) → Shows s self.old st →
            Comes s st (events.happens s (events.Lose message) st) self.new result }
    {
        self.lose(message);
        Ok(())
    }

    /// A replica's clock is set.
    fn ticks(&mut self, shard: u8, replica: u8, moment: u64) -> Result<(), StepFault>
        ensures { (s : Setup) (st : State) → Shows s self.old st →
            Comes s st (events.happens s (events.Clock shard replica moment) st) self.new result }
    {
        self.set_clock(shard, replica, moment);
        Ok(())
    }

    /// An event happens, as the rules of a run say.
    pub fn step(&mut self, event: Event<'_>) -> Result<(), StepFault>
        ensures { (s : Setup) (st : State) → Shows s self.old st →
            Comes s st (events.happens s (event_value event.entry) st) self.new result }
    {
        match event {
            Event::Begin { client, time } => self.begin(client, time),
            Event::Read { tx, key } => self.read(tx, key),
            Event::Write { tx, key, value } => self.write(tx, Written::Value { key, value }),
            Event::Delete { tx, key } => self.write(tx, Written::Deleted { key }),
            Event::Claim { tx, key, writer } => self.claim(tx, key, writer),
            Event::Prepare { tx } => self.prepare(tx),
            Event::Settle { tx, client } => self.settle(tx, client),
            Event::Recover { tx, client } => self.recover(tx, client),
            Event::Invoke { tx, client } => self.invoke(tx, client),
            Event::Deliver { message, given } => self.deliver(message, given),
            Event::Lose { message } => self.lost(message),
            Event::Divert { message, to, given } => self.divert(message, to, given),
            Event::Clock {
                shard,
                replica,
                moment,
            } => self.ticks(shard, replica, moment),
            Event::Vote {
                shard,
                replica,
                tx,
                decision,
                client,
            } => {
                self.vote(
                    Place {
                        shard,
                        index: replica,
                    },
                    tx,
                    decision,
                    client,
                )
            }
            Event::Second {
                tx,
                decision,
                replica,
            } => self.second(tx, decision, replica),
            Event::Logged {
                shard,
                replica,
                tx,
                decision,
                decided,
                current,
                client,
            } => {
                let logged = Logged {
                    decision,
                    decided,
                    current,
                };
                self.log_reply(
                    Place {
                        shard,
                        index: replica,
                    },
                    tx,
                    logged,
                    client,
                )
            }
            Event::Elect {
                shard,
                replica,
                tx,
                decision,
                view,
            } => {
                self.word(
                    Place {
                        shard,
                        index: replica,
                    },
                    tx,
                    decision,
                    view,
                )
            }
            Event::Decide {
                shard,
                replica,
                tx,
                decision,
                view,
                to,
            } => {
                let said = Proposed { decision, view };
                self.proposal(
                    Place {
                        shard,
                        index: replica,
                    },
                    tx,
                    said,
                    to,
                )
            }
            Event::Raw { from, to, frame } => self.raw(from, to, frame),
            Event::Show { frame } => self.show(frame),
        }
    }
}
