//! A law of transactions alone: the setting that they make.

ghost use Rattle.serial_laws.specs.Laws.{SettingsAreSane};

use txn_meta::conflicts::shard_conflicts;

/// Real transactions make a sane setting: the conflicts and dependencies that their reads, writes and versions give
/// meet what the laws of agreement ask.
pub fn settings_are_sane()
    ensures { SettingsAreSane }
{
    shard_conflicts();
}
