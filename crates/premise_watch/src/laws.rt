//! Laws of what the watch looks at, and of faulty parties.

ghost use Rattle.std.specs.Prelude.{List};
ghost use Rattle.basil_types.specs.declared.party.Party.{Party};
ghost use Rattle.basil_types.specs.Setting.{Setting};
ghost use Rattle.premise_watch.specs.Laws.{MarksTellBoth};
ghost use Rattle.premise_watch.specs.Parties.{AreCounted, AreFew};

/// The marks of a message are its signatures and its transactions, nested ones too, each in the order of the bytes.
pub fn marks_tell_both()
    ensures { MarksTellBoth }
{}

/// Parties of which at most f are counted as replicas of each shard are a set with at most f of each.
pub fn counted_are_few()
    ensures { (c : Setting) (parties : List Party) → AreCounted c.f parties → AreFew c parties }
{}
