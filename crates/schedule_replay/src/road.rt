//! What a node is handed of a message.

ghost use Rattle.std.specs.Prelude.{◌≡◌, ◌++◌, ℕ, List, IfErr, IfOk, OnErr, option_map};
ghost use Rattle.schedule_replay.specs.Roads.{Uses, carries_all, gift, handed, road_with};
ghost use Rattle.schedule_replay.specs.Shown.{IsOfRoad, failed_by_link};

use crate::fault::Halt;
use basil_types::links::{LinkFail, Links};
use std::alloc::Global;

/// What a delivery hands over of these bytes: the bytes themselves, or, where deliveries are carried, what links give
/// for them.
pub(crate) fn hand_over<L: Links>(
    alloc: Global,
    frame: Vec<u8>,
    links: &mut L,
    carried: bool,
) -> Result<Vec<u8>, Halt>
    ensures given { IfOk result (λ given. (later : List (List ℕ)) →
        given.items ≡ handed (road_with carried (gift carried given.items ++ later)) frame.items) }
    ensures told { IfOk result (λ given.
        L.told links.new ≡ option_map (carries_all (gift carried given.items)) (L.told links.old)) }
    ensures as_before { OnErr result (L.told links.new ≡ L.told links.old) }
    ensures only { IfErr result IsOfRoad }
    ensures links { Uses carried links.old links.new (L.faults links.old) (L.faults links.new)
        (failed_by_link result) }
{
    if !carried {
        return Ok(frame);
    }
    let mut given = Vec::new(alloc);
    match links.carry(&frame, &mut given) {
        Ok(()) => Ok(given),
        Err(LinkFail::Failed) => Err(Halt::Link),
        Err(LinkFail::NoMemory) => Err(Halt::NoMemory),
    }
}
