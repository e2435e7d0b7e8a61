//! The parts of a replica that change.

ghost use Rattle.std.specs.Prelude.{◌≡◌, []};
ghost use Rattle.mvtso_check.specs.Standing.{StandsFor};

use crate::known::Known;
use crate::leading::Leading;
use crate::logged::Logged;
use std::alloc::Global;

/// What a replica knows, what it logged, and the election words that it collected.
#[derive(Drop)]
pub(crate) struct Parts {
    pub(crate) known: Known,
    pub(crate) logged: Logged,
    pub(crate) leading: Leading,
}

impl Parts {
    /// Nothing is known, logged or collected.
    pub(crate) fn new(alloc: Global) -> Parts
        ensures table { result.known.table ≡ record { entries = []; room = None } }
        ensures noted { StandsFor result.known.store [] [] }
        ensures logged { result.logged.entries ≡ [] }
        ensures kept { result.leading ≡ record { kept = []; next = None } }
    {
        Parts {
            known: Known::new(alloc),
            logged: Logged::new(alloc),
            leading: Leading::new(alloc),
        }
    }
}
