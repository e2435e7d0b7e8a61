//! Kits.

ghost use Rattle.std.specs.Prelude.{◌≡◌, Bool, true, IfOk};
ghost use Rattle.basil_types.specs.declared.party.Party.{Party};
ghost use Rattle.cluster_run.specs.Safety.{AreSigned};
ghost use Rattle.cluster_run.specs.States.{KitValue};
ghost use Rattle.keyring.specs.Signing.{AcceptsSigner};
ghost use Rattle.node_steps.specs.Pens.{pen_value, GivesItsSize};

use basil_types::memory::NoMemory;
use basil_types::party::Party;
use keyring::signer::Signer;
use keyring::verifier::Verifier;

/// Where the keyrings and the pens of a run come from. Its meaning is a fixed value: what its keyrings accept, how the
/// pen of each party signs, and the place where that pen begins. Each call hands out one more, so that who wants no
/// signature made twice asks for the pen of a party once.
pub trait Kit {
    type Keys: Verifier + Drop;

    type Pen: Signer + Drop;

    // What its keyrings accept, how the pen of each party signs, and where it begins.
    ghost value: { Self → KitValue };
    // Whether its keyrings know a party: they accept what the party's pen signs.
    ghost knows: { Self → Party → Bool };

    /// A keyring.
    fn keys(&self) -> Result<Self::Keys, NoMemory>
        ensures { IfOk result (λ keys. Self.Keys.accepted keys ≡ (value self.now).accepts) };

    /// The pen of a party, before its first signature.
    fn pen(&self, party: Party) -> Result<Self::Pen, NoMemory>
        ensures signing { IfOk result (λ pen. Self.Pen.fixed pen ≡ (value self.now).signing party) }
        ensures place { IfOk result (λ pen.
            pen_value (Self.Pen.spent pen) (Self.Pen.left_of pen) ≡ (value self.now).pen party) };

    // Each pen is its party's.
    ghost owner: { (kit : Self) (party : Party) → ((value kit).signing party).party ≡ party };
    // What the pen of a known party signs is accepted.
    ghost agrees: { (kit : Self) (party : Party) → knows kit party ≡ true
        → AcceptsSigner (value kit).accepts ((value kit).signing party) };
    // Each signature that a pen has left has its size.
    ghost sized: { (kit : Self) (party : Party) → GivesItsSize ((value kit).signing party) ((value kit).pen party) };
    // What the clients' pens give fits a frame.
    ghost signed: { (kit : Self) → AreSigned (value kit) };
}
