//! How often a client sends of itself.

ghost use Rattle.client_laws.specs.Saying.{SpeaksTwice};

/// At frames a client sends at most twice for each transaction that it holds: once as its second stage starts, and once
/// as it is decided.
pub fn speaks_twice()
    ensures { SpeaksTwice }
{}
