//! The earliest log replies of replicas.

ghost use Rattle.std.specs.Prelude.{◌≡◌, None, Some, OnOk, OnErr};
ghost use Rattle.std.specs.Option.{option_copied};
ghost use Rattle.client_recover.specs.Firsts.{IsSame, IsSet, number_of, part_at};

use basil_types::memory::NoMemory;
use frame_values::owned::LogPart;
use indexmap::IndexMap;
use std::alloc::Global;
use std::marker::Model;

/// For each decision and view in which it was decided the earliest log reply of each replica, and of how many replicas
/// there is one.
#[derive(Drop)]
pub struct Earliest {
    parts: IndexMap<(bool, u64, u8), LogPart>,
    counts: IndexMap<(bool, u64), u32>,
}

impl Model for Earliest {
    ghost use Rattle.client_recover.specs.Firsts.{CountsParts, Parts};

    ghost Value = { Parts };

    ghost view = { λ e. e.parts.entries };

    ghost invariant = { λ e. CountsParts e.parts.entries e.counts.entries };
}

impl Earliest {
    ghost use Rattle.std.specs.Prelude.{[]};

    /// None. Takes no memory.
    pub(crate) fn new(alloc: Global) -> Earliest
        ensures { result ≡ [] }
    {
        Earliest {
            parts: IndexMap::new(alloc),
            counts: IndexMap::new(alloc),
        }
    }

    /// That of a replica for this decision in this view.
    pub(crate) fn get(&self, logged: (bool, u64), replica: u8) -> Option<&LogPart>
        ensures { option_copied result ≡ part_at self.now logged replica }
    {
        self.parts.get(&(logged.0, logged.1, replica))
    }

    /// Of how many replicas there is one for this decision in this view.
    pub(crate) fn number(&self, logged: (bool, u64)) -> u32
        ensures { result ≡ number_of self.now logged }
    {
        match self.counts.get(&logged) {
            Some(number) => *number,
            None => 0,
        }
    }

    /// Keeps that of a replica for this decision in this view, of which there is none.
    pub(crate) fn add(
        &mut self,
        logged: (bool, u64),
        replica: u8,
        part: LogPart,
    ) -> Result<(), NoMemory>
        requires { part_at self.old logged replica ≡ None }
        ensures added { OnOk result (IsSet self.old self.new (logged.0, logged.1, replica) (Some part)) }
        ensures as_before { OnErr result (IsSame self.old self.new) }
    {
        let number = self.number(logged);
        self.parts.insert((logged.0, logged.1, replica), part)?;
        match self.counts.insert(logged, number + 1) {
            Ok(_) => Ok(()),
            Err(_) => {
                let _ = self.parts.swap_remove(&(logged.0, logged.1, replica));
                Err(NoMemory)
            }
        }
    }

    /// Forgets that of a replica for this decision in this view. Takes no memory.
    pub(crate) fn forget(&mut self, logged: (bool, u64), replica: u8)
        ensures { IsSet self.old self.new (logged.0, logged.1, replica) None }
    {
        let number = self.number(logged);
        match self.parts.swap_remove(&(logged.0, logged.1, replica)) {
            Some(_) => {
                // Only a new key could be refused, and there is a number.
                let _ = self.counts.insert(logged, number.saturating_sub(1));
            }
            None => {}
        }
    }
}
