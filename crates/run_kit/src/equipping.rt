//! What a node of a run begins with.

ghost use Rattle.std.specs.Prelude.{◌≡◌, IfOk};
ghost use Rattle.cluster_nodes.specs.Standings.{IsOf};
ghost use Rattle.node_steps.specs.Pens.{pen_value};

use crate::kit::Kit;
use basil_types::memory::NoMemory;
use basil_types::party::Party;

/// A keyring, and the pen of a party.
#[derive(Drop)]
pub struct Equipment<V, S> {
    pub keys: V,
    pub pen: S,
}

/// A keyring of a kit, and its pen of this party before its first signature.
pub fn equip<K: Kit>(kit: &K, party: Party) -> Result<Equipment<K::Keys, K::Pen>, NoMemory>
    ensures owner { IfOk result (λ own. (K.Pen.fixed own.pen).party ≡ party) }
    ensures kit { IfOk result (λ own. IsOf (K.value kit.now) party (K.Keys.accepted own.keys) (K.Pen.fixed own.pen)
        (pen_value (K.Pen.spent own.pen) (K.Pen.left_of own.pen))) }
{
    let keys = kit.keys()?;
    let pen = kit.pen(party)?;
    Ok(Equipment { keys, pen })
}
