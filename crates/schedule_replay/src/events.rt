//! The events of a line.

ghost use Rattle.std.specs.Prelude.{◌≡◌, ℕ, List, option_map};
ghost use Rattle.cluster_world.specs.EventValues.{event_value};
ghost use Rattle.schedule_replay.specs.Events as lines;
ghost use Rattle.schedule_replay.specs.LineKinds.{IsAsk, IsElection, IsLie, IsLogReply, IsOwn, IsRest};
ghost use Rattle.schedule_replay.specs.Replays.{NamesValue};

use crate::names::Names;
use basil_types::bytes::Bytes;
use cluster_world::event::Event;
use schedule_text::line::Line;

/// What a faulty client claims to have read.
fn claim_of<'a>(
    names: &Names,
    name: &Bytes,
    key: &'a Bytes,
    writer: &Option<Bytes>,
) -> Option<Event<'a>>
    ensures { option_map event_value result ≡ lines.claim_of names.now name.now key.now writer.now }
{
    let writer = match writer {
        Some(writer) => Some(names.number_of(writer)?),
        None => None,
    };
    let tx = names.number_of(name)?;
    let key = key.as_slice();
    Some(Event::Claim { tx, key, writer })
}

/// The event of a line that begins a transaction, or reads or writes in one.
fn own_of<'a>(names: &Names, line: &'a Line) -> Option<Event<'a>>
    ensures { (given : List ℕ) → IsOwn line.now →
        option_map event_value result ≡ lines.event_of names.now given line.now }
{
    match line {
        Line::Begin { client, time, .. } => {
            let client = *client;
            let time = *time;
            Some(Event::Begin { client, time })
        }
        Line::Read { name, key } => {
            let tx = names.number_of(name)?;
            let key = key.as_slice();
            Some(Event::Read { tx, key })
        }
        Line::Write { name, key, value } => {
            let tx = names.number_of(name)?;
            let key = key.as_slice();
            let value = value.as_slice();
            Some(Event::Write { tx, key, value })
        }
        Line::Delete { name, key } => {
            let tx = names.number_of(name)?;
            let key = key.as_slice();
            Some(Event::Delete { tx, key })
        }
        Line::Claim { name, key, writer } => claim_of(names, name, key, writer),
        _ => None,
    }
}

/// The event of a line that asks a client for a stage of a transaction.
fn ask_of<'a>(names: &Names, line: &'a Line) -> Option<Event<'a>>
    ensures { (given : List ℕ) → IsAsk line.now →
        option_map event_value result ≡ lines.event_of names.now given line.now }
{
    match line {
        Line::Prepare { name } => {
            let tx = names.number_of(name)?;
            Some(Event::Prepare { tx })
        }
        Line::Settle { name, client } => {
            let tx = names.number_of(name)?;
            let client = *client;
            Some(Event::Settle { tx, client })
        }
        Line::Recover { name, client } => {
            let tx = names.number_of(name)?;
            let client = *client;
            Some(Event::Recover { tx, client })
        }
        Line::Invoke { name, client } => {
            let tx = names.number_of(name)?;
            let client = *client;
            Some(Event::Invoke { tx, client })
        }
        _ => None,
    }
}

/// The event of a line by which a faulty replica votes, or a faulty client begins a second stage.
fn lie_of<'a>(names: &Names, line: &'a Line) -> Option<Event<'a>>
    ensures { (given : List ℕ) → IsLie line.now →
        option_map event_value result ≡ lines.event_of names.now given line.now }
{
    match line {
        Line::Vote {
            shard,
            replica,
            name,
            decision,
            client,
        } => Some(Event::Vote {
            shard: *shard,
            replica: *replica,
            tx: names.number_of(name)?,
            decision: *decision,
            client: *client,
        }),
        Line::Second {
            name,
            decision,
            replica,
        } => Some(Event::Second {
            tx: names.number_of(name)?,
            decision: *decision,
            replica: *replica,
        }),
        _ => None,
    }
}

/// The event of a line by which a faulty replica replies to a second stage.
fn log_reply_of<'a>(names: &Names, line: &'a Line) -> Option<Event<'a>>
    ensures { (given : List ℕ) → IsLogReply line.now →
        option_map event_value result ≡ lines.event_of names.now given line.now }
{
    match line {
        Line::Logged {
            shard,
            replica,
            name,
            decision,
            decided,
            current,
            client,
        } => Some(Event::Logged {
            shard: *shard,
            replica: *replica,
            tx: names.number_of(name)?,
            decision: *decision,
            decided: *decided,
            current: *current,
            client: *client,
        }),
        _ => None,
    }
}

/// The event of a line by which a faulty replica takes part in an election.
fn election_of<'a>(names: &Names, line: &'a Line) -> Option<Event<'a>>
    ensures { (given : List ℕ) → IsElection line.now →
        option_map event_value result ≡ lines.event_of names.now given line.now }
{
    match line {
        Line::Elect {
            shard,
            replica,
            name,
            decision,
            view,
        } => Some(Event::Elect {
            shard: *shard,
            replica: *replica,
            tx: names.number_of(name)?,
            decision: *decision,
            view: *view,
        }),
        Line::Decide {
            shard,
            replica,
            name,
            decision,
            view,
            to,
        } => Some(Event::Decide {
            shard: *shard,
            replica: *replica,
            tx: names.number_of(name)?,
            decision: *decision,
            view: *view,
            to: *to,
        }),
        _ => None,
    }
}

/// The event of a line that concerns messages, clocks or frames; what is delivered or diverted is this.
fn rest_of<'a>(line: &'a Line, given: &'a [u8]) -> Option<Event<'a>>
    ensures { (names : NamesValue) → IsRest line.now →
        option_map event_value result ≡ lines.event_of names given.now line.now }
{
    match line {
        Line::Deliver { message } => {
            let message = *message;
            Some(Event::Deliver { message, given })
        }
        Line::Lose { message } => {
            let message = *message;
            Some(Event::Lose { message })
        }
        Line::Divert { message, to } => {
            let message = *message;
            let to = *to;
            Some(Event::Divert { message, to, given })
        }
        Line::Clock {
            shard,
            replica,
            moment,
        } => Some(Event::Clock {
            shard: *shard,
            replica: *replica,
            moment: *moment,
        }),
        Line::Raw { from, to, frame } => {
            let from = *from;
            let to = *to;
            let frame = frame.as_slice();
            Some(Event::Raw { from, to, frame })
        }
        Line::Show { frame } => {
            let frame = frame.as_slice();
            Some(Event::Show { frame })
        }
        _ => None,
    }
}

/// The event of a line that has one alone; what is delivered or diverted is this.
pub(crate) fn event_of<'a>(names: &Names, line: &'a Line, given: &'a [u8]) -> Option<Event<'a>>
    ensures { option_map event_value result ≡ lines.event_of names.now given.now line.now }
{
    match line {
        Line::Begin { .. }
        | Line::Read { .. }
        | Line::Write { .. }
        | Line::Delete { .. }
        | Line::Claim { .. } => own_of(names, line),
        Line::Prepare { .. } | Line::Settle { .. } | Line::Recover { .. } | Line::Invoke { .. } =>
            ask_of(names, line),
        Line::Vote { .. } | Line::Second { .. } => lie_of(names, line),
        Line::Logged { .. } => log_reply_of(names, line),
        Line::Elect { .. } | Line::Decide { .. } => election_of(names, line),
        Line::Deliver { .. }
        | Line::Lose { .. }
        | Line::Divert { .. }
        | Line::Clock { .. }
        | Line::Raw { .. }
        | Line::Show { .. } => rest_of(line, given),
        Line::Header { .. }
        | Line::Skipped
        | Line::Faulty { .. }
        | Line::Round
        | Line::Stop { .. } => None,
    }
}
