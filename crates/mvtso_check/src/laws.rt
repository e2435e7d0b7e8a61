//! Laws of verdicts.

ghost use Rattle.mvtso_check.specs.Laws.{NothingConflicts, DependenciesAreSettled};
ghost use Rattle.mvtso_check.specs.Standing.{HeldOnes, StoresFollow};

/// Where the verdict is to commit or to wait, no prepared or committed transaction of the book conflicts with the
/// transaction on a key of the shard.
pub fn nothing_that_stands_conflicts()
    ensures { NothingConflicts }
{}

/// Where the verdict is to commit, each dependency on a key of the shard is a known transaction that is committed and
/// wrote the key at the version that was read.
pub fn dependencies_are_settled()
    ensures { DependenciesAreSettled }
{}

/// Which transactions of a table are held, up to their order, after an entry arrives, waits, votes or ends; and that no
/// two of them have one version, where the table's ids differ.
pub fn held_ones()
    ensures { HeldOnes }
{}

/// A store that stood for a table still stands for it after one entry's change, once that transaction is entered or
/// taken out as it should be.
pub fn stores_follow_tables()
    ensures { StoresFollow }
{}
