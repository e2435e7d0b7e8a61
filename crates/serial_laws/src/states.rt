//! What the invariant says of the committed transactions of a state.

ghost use Rattle.serial_laws.specs.Laws.{FromInvariant, OneOfEachVersion, NoneBetween, ReadsAreLatest, ClosedAreSerial};
ghost use Rattle.serial_laws.specs.Laws.{ShownAreClosed, ShownAreSerial, ShownMapsAreLatest, AreSafe};

use crate::laws::settings_are_sane;
use agreement_laws::{agreement, dependency_there, exclusion, voters};
use basil_types::replayed::{maps_are_latest, maps_before_are_latest};

/// No two committed transactions have one version.
pub fn one_of_each_version()
    ensures { FromInvariant OneOfEachVersion }
{}

/// No committed transaction wrote a key between the version that a committed one read and that one's own, whoever their
/// clients are.
pub fn none_between()
    ensures { FromInvariant NoneBetween }
{
    settings_are_sane();
    exclusion();
}

/// What a committed transaction of a correct client read is what the latest committed writer below it left, and that
/// writer has had a commit certificate shown.
pub fn reads_are_latest()
    ensures { FromInvariant ReadsAreLatest }
{
    settings_are_sane();
    voters();
    dependency_there();
    none_between();
}

/// All that have had a commit certificate shown: each of a correct client read from one of them, or at genesis.
pub fn shown_are_closed()
    ensures { FromInvariant ShownAreClosed }
{
    reads_are_latest();
}

/// In a list of committed transactions that has what each of a correct client read from, each read is that of the map
/// before its transaction, and running the transactions one after another by their versions serves each read so.
pub fn closed_are_serial()
    ensures { FromInvariant ClosedAreSerial }
{
    settings_are_sane();
    voters();
    maps_before_are_latest();
    reads_are_latest();
}

/// The same of all that have had a commit certificate shown.
pub fn shown_are_serial()
    ensures { FromInvariant ShownAreSerial }
{
    shown_are_closed();
    closed_are_serial();
}

/// The map that all that have had a commit certificate shown leave has at each key what the latest writer of them left.
pub fn shown_maps_are_latest()
    ensures { FromInvariant ShownMapsAreLatest }
{
    maps_are_latest();
    shown_are_closed();
    one_of_each_version();
}

/// No transaction has had both a commit and an abort certificate shown, and each read of a correct client's committed
/// transaction is that of the map before it.
pub fn are_safe()
    ensures { FromInvariant AreSafe }
{
    settings_are_sane();
    agreement();
    shown_are_serial();
}
