//! A kit whose keyrings accept every signature.

ghost use Rattle.certificates.specs.Accepted.{Accepted};

use basil_types::memory::NoMemory;
use basil_types::party::Party;
use keyring::plain::PlainPen;
use keyring::verifier::Verifier;
use run_kit::Kit;

/// A keyring that accepts every signature.
#[derive(Drop)]
pub(crate) struct TrustingKeys;

impl Verifier for TrustingKeys {
    ghost use Rattle.std.specs.Prelude.{true};

    ghost accepted = { λ _ _ _ _. true };

    fn accepts(&self, _party: Party, _words: &[u8], _signature: &[u8]) -> bool {
        true
    }
}

/// The kit of such keyrings, and of plain pens.
#[derive(Drop)]
pub(crate) struct Trusting;

impl Kit for Trusting {
    type Keys = TrustingKeys;

    type Pen = PlainPen;

    ghost use Rattle.std.specs.Prelude.{true};
    ghost use Rattle.std.proofs.Common.{refl};
    ghost use Rattle.replay_kit.specs.Values.{plain_value};
    ghost use Rattle.replay_kit.specs.ValueLaws.{plain-signed, plain-sized};

    ghost value = { λ _. record plain_value { accepts = λ _ _ _. true } };

    ghost knows = { λ _ _. true };

    ghost owner = { λ _ _. refl };

    ghost agrees = { λ _ _ _ _ _ _. refl };

    ghost sized = { λ _ party. plain-sized party };

    ghost signed = { λ _. plain-signed };

    fn keys(&self) -> Result<TrustingKeys, NoMemory> {
        Ok(TrustingKeys)
    }

    fn pen(&self, party: Party) -> Result<PlainPen, NoMemory> {
        Ok(PlainPen::new(party))
    }
}
