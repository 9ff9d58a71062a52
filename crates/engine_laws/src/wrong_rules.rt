//! Rules that look right and aren't: each lets through a list of lines, from a good start, that isn't serial.
ghost use Rattle.engine_laws.specs.WrongRules.{IsRefuted, IsRestartRefuted, locking_until_sealed};
ghost use Rattle.engine_laws.specs.WrongRules.{versions_newest, versions_without_waits};
ghost use Rattle.engine_laws.specs.WrongRules.{timestamps_without_committed_reads, timestamps_without_waits};
ghost use Rattle.engine_laws.specs.WrongRules.{validation_without_committed, validation_without_prepared};
ghost use Rattle.mdb_base.specs.declared.names.Engine.TheVariants.{Locking};

/// Locking isn't serial where a sealing frees the run's keys, nor where numbers start again at 1 after a restart.
pub fn wrong_locking()
    ensures freed_keys { IsRefuted locking_until_sealed }
    ensures numbers_from_one { IsRestartRefuted Locking }
{}

/// Timestamp order isn't serial where it forgets what committed runs have read, nor where nobody waits for an older writer.
pub fn wrong_timestamp_order()
    ensures forgotten_reads { IsRefuted timestamps_without_committed_reads }
    ensures no_waits { IsRefuted timestamps_without_waits }
{}

/// Validation isn't serial without the writes of prepared runs, nor without those that committed since the begin.
pub fn wrong_validation()
    ensures no_prepared { IsRefuted validation_without_prepared }
    ensures no_committed { IsRefuted validation_without_committed }
{}

/// Multiversion timestamp order isn't serial where an old run is answered the newest version, nor where a read doesn't wait for an
/// older writer.
pub fn wrong_multiversion()
    ensures newest_version { IsRefuted versions_newest }
    ensures no_waits { IsRefuted versions_without_waits }
{}
