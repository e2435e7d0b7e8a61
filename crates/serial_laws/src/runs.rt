//! The laws of every lawful list of steps, from the invariant.

ghost use Rattle.serial_laws.specs.Laws.{InEveryRun, OneOfEachVersion, NoneBetween, ReadsAreLatest, ClosedAreSerial};
ghost use Rattle.serial_laws.specs.Laws.{ShownAreClosed, ShownAreSerial, ShownMapsAreLatest, ShownAreListed, AreSafe};

use crate::invariant::holds_in_every_run;
use crate::states::{
    are_safe, closed_are_serial, none_between, one_of_each_version, reads_are_latest,
    shown_are_closed, shown_are_serial, shown_maps_are_latest,
};

/// After every lawful list of steps no two committed transactions have one version.
pub fn one_of_each_version_in_every_run()
    ensures { InEveryRun OneOfEachVersion }
{
    holds_in_every_run();
    one_of_each_version();
}

/// After every lawful list of steps no committed transaction wrote a key between the version that a committed one read
/// and that one's own, whoever their clients are.
pub fn none_between_in_every_run()
    ensures { InEveryRun NoneBetween }
{
    holds_in_every_run();
    none_between();
}

/// After every lawful list of steps a committed transaction of a correct client read what the latest committed writer
/// below it left.
pub fn reads_are_latest_in_every_run()
    ensures { InEveryRun ReadsAreLatest }
{
    holds_in_every_run();
    reads_are_latest();
}

/// After every lawful list of steps each closed list of committed transactions is serial.
pub fn closed_are_serial_in_every_run()
    ensures { InEveryRun ClosedAreSerial }
{
    holds_in_every_run();
    closed_are_serial();
}

/// After every lawful list of steps each correct client's transaction that has had a commit certificate shown read from
/// one that has, or at genesis.
pub fn shown_are_closed_in_every_run()
    ensures { InEveryRun ShownAreClosed }
{
    holds_in_every_run();
    shown_are_closed();
}

/// After every lawful list of steps all transactions that have had a commit certificate shown are serial.
pub fn shown_are_serial_in_every_run()
    ensures { InEveryRun ShownAreSerial }
{
    holds_in_every_run();
    shown_are_serial();
}

/// After every lawful list of steps their map has at each key what the latest writer of them left there.
pub fn shown_maps_are_latest_in_every_run()
    ensures { InEveryRun ShownMapsAreLatest }
{
    holds_in_every_run();
    shown_maps_are_latest();
}

/// After every lawful list of steps there is a list of all transactions that have had a commit certificate shown.
pub fn shown_are_listed_in_every_run()
    ensures { InEveryRun ShownAreListed }
{}

/// After every lawful list of steps no transaction has had both a commit and an abort certificate shown, and each read
/// of a correct client's committed transaction is that of the map before it.
pub fn are_safe_in_every_run()
    ensures { InEveryRun AreSafe }
{
    holds_in_every_run();
    are_safe();
}
