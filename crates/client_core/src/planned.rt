//! A client's calls in two halves: planned, and then done or given up.

ghost use Rattle.std.specs.Prelude.{◌≡◌, IfErr, IfOk, length};
ghost use Rattle.client_core.specs.Shown.{ShowsClient};
ghost use Rattle.client_core.specs.Asks.{CanBeAsked, IsPlannedAsk, answer_to, by_call};
ghost use Rattle.client_core.specs.Asks.{by_frame, is_call, is_call_fault, slot_of};
ghost use Rattle.client_core.specs.Clients.{ClientDone, ClientValue};
ghost use Rattle.client_core.specs.Done.{CanCommit, IsSent, KeepsSlots};
ghost use Rattle.client_core.specs.Letting.{IsLetGo};
ghost use Rattle.client_core.specs.Seats.{self_at};
ghost use Rattle.client_core.specs.Works.{WillDo, word_count};
ghost use Rattle.node_steps.specs.Pendings.{bytes_sent};
ghost use Rattle.node_steps.specs.Pens.{pen_value};

use crate::ask::{Ask, AskFault};
use crate::client::Client;
use crate::commit::{let_go, perform};
use crate::invoking::plan_invoke;
use crate::preparing::plan_prepare;
use crate::reading::plan_read;
use crate::receiving::plan_frame;
use crate::recovering::plan_recover;
use crate::settling::plan_settle;
use crate::work::ClientPlan;
use basil_types::outbox::Outbox;
use certificates::FrameFault;
use client_steps::fault::CallFault;
use keyring::signer::Signer;
use keyring::verifier::Verifier;

/// The plan of a call, as what was asked.
fn call_planned(planned: Result<ClientPlan, CallFault>) -> Result<ClientPlan, AskFault>
    ensures { result ≡ by_call planned }
{
    match planned {
        Ok(plan) => Ok(plan),
        Err(fault) => Err(AskFault::Call(fault)),
    }
}

/// The plan of the answer to a frame, as what was asked.
fn frame_planned(planned: Result<ClientPlan, FrameFault>) -> Result<ClientPlan, AskFault>
    ensures { result ≡ by_frame planned }
{
    match planned {
        Ok(plan) => Ok(plan),
        Err(fault) => Err(AskFault::Frame(fault)),
    }
}

impl<V: Verifier, S: Signer> Client<V, S> {
    /// Plans what is asked, or refuses what the call or the frame refuses. It takes all the memory for it, and leaves
    /// what the client shows. The plan is for `commit` or `give_up`, with no other call of this client between.
    pub fn plan(&mut self, ask: Ask<'_>) -> Result<ClientPlan, AskFault>
        requires { CanBeAsked self.old.held ask }
        ensures answer { (v : ClientValue) → ShowsClient self.old v →
            IsPlannedAsk (S.fixed self.old.pen) self.new.held v result
            (answer_to (self_at self.old.seat (V.accepted self.old.keys) (S.fixed self.old.pen)) v ask.entry) }
        ensures kind { IfErr result (λ e. is_call_fault e ≡ is_call ask.entry) }
        ensures ready { IfOk result (CanCommit (S.fixed self.new.pen)
            (pen_value (S.spent self.new.pen) (S.left_of self.new.pen)) self.new.held) }
        ensures slot { (v : ClientValue) → ShowsClient self.old v →
            IfOk result (λ plan. plan.slot ≡ slot_of v ask.entry) }
        ensures shown { (v : ClientValue) → ShowsClient self.old v → ShowsClient self.new v }
        ensures keys { self.new.keys ≡ self.old.keys }
        ensures pen { self.new.pen ≡ self.old.pen }
        ensures seat { self.new.seat ≡ self.old.seat }
        ensures slots { KeepsSlots self.old.held self.new.held }
    {
        let held = &mut self.held;
        match ask {
            Ask::Read { slot, key } => {
                call_planned(plan_read(held, &self.seat, slot as usize, key))
            }
            Ask::Prepare { slot } => {
                call_planned(plan_prepare(held, &self.seat, &self.pen, slot as usize))
            }
            Ask::Settle { slot } => call_planned(plan_settle(held, &self.seat, slot as usize)),
            Ask::Recover { t, signature } => {
                call_planned(plan_recover(held, &self.seat, t, signature))
            }
            Ask::Invoke { slot } => call_planned(plan_invoke(held, &self.seat, slot as usize)),
            Ask::Frame { frame } => frame_planned(plan_frame(held, &self.seat, &self.keys, frame)),
        }
    }

    /// Does what was planned, and answers what it sends. Takes no memory.
    pub fn commit(&mut self, plan: ClientPlan) -> Outbox
        requires { CanCommit (S.fixed self.old.pen) (pen_value (S.spent self.old.pen) (S.left_of self.old.pen))
            self.old.held plan }
        ensures done { (v : ClientValue) (d : ClientDone) →
            ShowsClient self.old v →
            WillDo (S.fixed self.old.pen) self.old.held v plan d →
            ShowsClient self.new d.client
            × IsSent result d }
        ensures messages { length result.messages.items ≡ plan.messages }
        ensures bytes { bytes_sent result.messages.items ≡ plan.bytes }
        ensures words { length result.signed.items ≡ word_count plan.work }
        ensures keys { self.new.keys ≡ self.old.keys }
        ensures seat { self.new.seat ≡ self.old.seat }
        ensures fixed { S.fixed self.new.pen ≡ S.fixed self.old.pen }
        ensures slots { KeepsSlots self.old.held self.new.held }
    {
        let ClientPlan { work, out, .. } = plan;
        let mut out = out;
        perform(
            &mut self.held,
            &mut self.pen,
            self.seat.alloc,
            &mut out,
            work,
        );
        out
    }

    /// Lets a plan go. Everything is as it was before the plan.
    pub fn give_up(&mut self, plan: ClientPlan)
        ensures shown { (v : ClientValue) → ShowsClient self.old v → ShowsClient self.new v }
        // The frame that it would take isn't held back any more.
        ensures let_go { IsLetGo self.new.held plan.work }
        ensures keys { self.new.keys ≡ self.old.keys }
        ensures pen { self.new.pen ≡ self.old.pen }
        ensures seat { self.new.seat ≡ self.old.seat }
        ensures slots { KeepsSlots self.old.held self.new.held }
    {
        let_go(&mut self.held, &plan.work);
    }
}
