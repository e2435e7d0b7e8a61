//! What a client sends for a transaction that it pursues (Basil, stage 2, writeback phase).

ghost use Rattle.std.specs.Prelude.{◌≡◌, [], false, is_some, None, IfOk, IfSome, map};
ghost use Rattle.client_steps.specs.Sending.{IsSending, SendsSecond};
ghost use Rattle.client_recover.specs.Pursuits as pursuits;
ghost use Rattle.client_recover.specs.Pursuits.{outcome, take_frame, to_involved};
ghost use Rattle.client_recover.specs.Standing.{StandsFor};
ghost use Rattle.client_recover.specs.Taken.{PursuitValue, TakenValue};
ghost use Rattle.frame_values.specs.Owned.{certificate_value, message_value};
ghost use Rattle.frame_views.specs.Fitting.{FitsCertificate, FitsMessage, widest};
ghost use Rattle.frame_views.specs.Spelling.{spelling};
ghost use Rattle.frame_views.specs.Values as values;
ghost use Rattle.node_steps.specs.Framed.{framed};

use crate::address::{involved_parties, sent_to, shard_parties};
use basil_types::memory::NoMemory;
use basil_types::outbox::Outbox;
use basil_types::party::Party;
use client_recover::Pursuit;
use frame_values::lending::WritebackParts;
use frame_values::owned::{Certificate, Message};
use frame_writing::{encode_into, put_writeback_parts};
use node_steps::pending::outbox;
use std::alloc::Global;
use txn_meta::places::log_shard;

/// What is sent, and whether the second stage starts with it.
#[derive(Drop)]
pub struct Sending {
    pub out: Outbox,
    pub starts: bool,
}

/// Nothing is sent, and nothing starts.
fn nothing(alloc: Global) -> Sending
    ensures messages { result.out.messages.items ≡ [] }
    ensures signed { result.out.signed.items ≡ [] }
    ensures starts { result.starts ≡ false }
{
    Sending {
        out: outbox(alloc),
        starts: false,
    }
}

/// The frame of a message.
fn frame_of(alloc: Global, message: &Message) -> Result<Vec<u8>, NoMemory>
    requires { FitsMessage widest (message_value message.now) }
    ensures { IfOk result (λ frame. frame.items ≡ spelling (message_value message.now)) }
{
    let mut frame = Vec::new(alloc);
    encode_into(message, &mut frame)?;
    Ok(frame)
}

/// A message for every replica of the log shard.
pub fn log_shard_frames(
    alloc: Global,
    pursuit: &Pursuit,
    message: &Message,
) -> Result<Outbox, NoMemory>
    requires { FitsMessage widest (message_value message.now) }
    ensures messages { IfOk result (λ out. out.messages.items ≡ map framed
        (pursuits.to_log_shard pursuit.now.cluster pursuit.now.transaction (message_value message.now))) }
    ensures signed { IfOk result (λ out. out.signed.items ≡ []) }
{
    let frame = frame_of(alloc, message)?;
    let cluster = pursuit.cluster();
    let shard = log_shard(pursuit.transaction().view(), cluster);
    let parties = shard_parties(alloc, cluster, shard)?;
    sent_to(alloc, parties.as_slice(), frame.as_slice())
}

/// The messages of the second stage, or want of memory. None exactly where the votes let nothing be logged.
pub fn second_frames(alloc: Global, pursuit: &Pursuit) -> Result<Option<Outbox>, NoMemory>
    ensures sends { (p : PursuitValue) → StandsFor pursuit.now p → IfOk result (SendsSecond pursuit.now.cluster p) }
    ensures signed { IfOk result (λ o. IfSome o (λ out. out.signed.items ≡ [])) }
{
    let second = pursuit.second()?;
    match second {
        Some(message) => {
            let out = log_shard_frames(alloc, pursuit, &message)?;
            Ok(Some(out))
        }
        None => Ok(None),
    }
}

/// The frame of a writeback.
fn writeback_frame(
    alloc: Global,
    pursuit: &Pursuit,
    certificate: &Certificate,
) -> Result<Vec<u8>, NoMemory>
    requires { FitsCertificate widest (certificate_value certificate.now) }
    ensures { IfOk result (λ frame. frame.items ≡ spelling (values.Writeback (record {
      transaction = pursuit.now.transaction;
      certificate = certificate_value certificate.now;
    }))) }
{
    let mut frame = Vec::new(alloc);
    let writeback = WritebackParts {
        transaction: pursuit.transaction().view(),
        certificate,
    };
    put_writeback_parts(&writeback, &mut frame)?;
    Ok(frame)
}

/// A writeback for every replica of every involved shard.
pub(crate) fn tell_frames(
    alloc: Global,
    pursuit: &Pursuit,
    certificate: &Certificate,
) -> Result<Outbox, NoMemory>
    requires { FitsCertificate widest (certificate_value certificate.now) }
    ensures messages { IfOk result (λ out. out.messages.items ≡ map framed
        (to_involved pursuit.now.cluster pursuit.now.transaction (values.Writeback (record {
          transaction = pursuit.now.transaction;
          certificate = certificate_value certificate.now;
        })))) }
    ensures signed { IfOk result (λ out. out.signed.items ≡ []) }
{
    let frame = writeback_frame(alloc, pursuit, certificate)?;
    let parties = involved_parties(alloc, pursuit.cluster(), pursuit.transaction().view())?;
    sent_to(alloc, parties.as_slice(), frame.as_slice())
}

/// What is sent once a frame was taken that decides nothing: the second stage starts by itself where all have voted and
/// it hasn't started.
fn go_on(alloc: Global, pursuit: &Pursuit, second: bool) -> Result<Sending, NoMemory>
    ensures sends { (p : PursuitValue) → StandsFor pursuit.now p → second ≡ p.second →
        outcome pursuit.now.cluster p ≡ None →
        IfOk result (λ s. IsSending s second (pursuits.go_on pursuit.now.cluster p)) }
    ensures signed { IfOk result (λ s. s.out.signed.items ≡ []) }
{
    if second {
        return Ok(nothing(alloc));
    }
    if !pursuit.all_voted() {
        return Ok(nothing(alloc));
    }
    let frames = second_frames(alloc, pursuit)?;
    match frames {
        Some(out) => Ok(Sending { out, starts: true }),
        None => Ok(nothing(alloc)),
    }
}

/// What is sent once a frame was taken, by whether the frames before it decided.
pub fn send_taken(
    alloc: Global,
    pursuit: &Pursuit,
    second: bool,
    decided: bool,
) -> Result<Sending, NoMemory>
    ensures sends { (p : PursuitValue) (x : TakenValue) → decided ≡ is_some (outcome pursuit.now.cluster p) →
        second ≡ p.second → StandsFor pursuit.now (take_frame pursuit.now.cluster p x).pursuit →
        IfOk result (λ s. IsSending s second (take_frame pursuit.now.cluster p x)) }
    ensures signed { IfOk result (λ s. s.out.signed.items ≡ []) }
{
    if decided {
        return Ok(nothing(alloc));
    }
    match pursuit.outcome() {
        Some(told) => {
            let out = tell_frames(alloc, pursuit, told.1)?;
            Ok(Sending { out, starts: false })
        }
        None => go_on(alloc, pursuit, second),
    }
}
