//! What is written in the end.

ghost use Rattle.std.specs.Prelude.{◌≡◌, ◌⊎◌, ◌<◌};
ghost use Rattle.basil_types.specs.Causes.{Rose};
ghost use Rattle.command_ends.specs.Answers.{Answers, Counts, IsTold};
ghost use Rattle.command_ends.specs.Outcome.{Usage};
ghost use Rattle.command_ends.specs.Endings.{outcome_is};

use crate::ending::Ending;
use crate::status::Status;
use crate::texts::{status_of_ending, text_of_ending};
use basil_types::sink::Sink;
use std::alloc::Global;

/// Writes the text of an ending, and tells its status.
pub fn write_ending<K: Sink>(alloc: Global, ending: &Ending, sink: &mut K) -> Status
    ensures answers { (counts : Counts) →
        Answers result (outcome_is ending.now) counts (K.taken sink.old) (K.taken sink.new) }
    ensures complete { (Rose (K.faults sink.old) (K.faults sink.new) → ⊥) → IsTold result (outcome_is ending.now) }
    ensures arguments { result ≡ Status.BadWords → ⊥ }
    ensures cause { result ≡ Status.WriteFault → Rose (K.faults sink.old) (K.faults sink.new) }
    ensures told { K.faults sink.old < K.faults sink.new → result ≡ Status.WriteFault }
    ensures no_read { result ≡ Status.ReadFault → ⊥ }
    ensures no_link { result ≡ Status.LinkFault → ⊥ }
{
    let Ok(text) = text_of_ending(alloc, ending) else {
        return Status::NoMemory;
    };
    match sink.write(&text) {
        Ok(()) => status_of_ending(ending),
        Err(_) => Status::WriteFault,
    }
}

/// Writes that the arguments are no command.
pub fn write_usage<K: Sink>(sink: &mut K) -> Status
    ensures answers { (counts : Counts) → Answers result Usage counts (K.taken sink.old) (K.taken sink.new) }
    ensures complete { (Rose (K.faults sink.old) (K.faults sink.new) → ⊥) → result ≡ Status.BadWords }
    ensures cause { result ≡ Status.WriteFault → Rose (K.faults sink.old) (K.faults sink.new) }
    ensures told { K.faults sink.old < K.faults sink.new → result ≡ Status.WriteFault }
    ensures either { (result ≡ Status.BadWords) ⊎ (result ≡ Status.WriteFault) }
{
    match sink.write(b"usage\n") {
        Ok(()) => Status::BadWords,
        Err(_) => Status::WriteFault,
    }
}
