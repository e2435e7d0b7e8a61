//! The calls of a party of a cluster's file.

ghost use Rattle.std.specs.Prelude.{IfOk, map, string_bytes};
ghost use Rattle.party_commands.specs.Clients.{IsPartyCall, IsReady};

use crate::client::{ClientCall, read_client};
use crate::node::{NodeCall, read_node};
use basil_types::memory::NoMemory;
use std::alloc::Global;

/// A party of a cluster's file that does its work over links.
#[derive(Drop)]
pub enum PartyCall {
    Node(NodeCall),
    Client(ClientCall),
}

/// The call of a party that the arguments spell; none where they spell none.
pub fn read_party(alloc: Global, arguments: &[String]) -> Result<Option<PartyCall>, NoMemory>
    ensures value { IfOk result (IsPartyCall (map string_bytes arguments.now)) }
    ensures ready { IfOk result IsReady }
{
    match read_node(alloc, arguments)? {
        Some(call) => Ok(Some(PartyCall::Node(call))),
        None => match read_client(alloc, arguments)? {
            Some(call) => Ok(Some(PartyCall::Client(call))),
            None => Ok(None),
        },
    }
}
