//! What a node sends, and what it signed.

use crate::bytes::Bytes;
use crate::list::List;
use crate::party::Party;
use crate::words::Words;

/// A frame on its way to a party.
#[derive(Drop)]
pub struct Envelope {
    pub to: Party,
    pub frame: Bytes,
}

/// What a node's call appends: the messages that it sends, and the words that it signed, each in order.
#[derive(Drop)]
pub struct Outbox {
    pub messages: List<Envelope>,
    pub signed: List<Words>,
}
