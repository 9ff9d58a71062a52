//! How many attempts were begun, by the journal that is found on a coordinator's disk.
ghost use Rattle.std.specs.Prelude.{◌≡◌, ◌<◌, All, IfOk, OnOk, map};
ghost use Rattle.mdb_base.specs.declared.names.Tid.{Tid as TheTid};
ghost use Rattle.mdb_base.specs.declared.names.Tx.{Tx as TheTx};
ghost use Rattle.mdb_base.specs.Words.{Each};
ghost use Rattle.fed_rules.specs.declared.records.CoordRecord.{CoordRecord as TheRecord};
ghost use Rattle.fed_rules.specs.declared.sums.CommittedAttempt.{CommittedAttempt as TheCommitted};
ghost use Rattle.fed_rules.specs.declared.sums.OpenAttempt.{OpenAttempt as TheOpen};
ghost use Rattle.coord_tables.specs.Found.{attempts_in, found_attempts, reached};
ghost use Rattle.coord_tables.specs.Trees.{noted};

use crate::begun::Begun;
use fed_rules::{CommittedAttempt, CoordRecord, OpenAttempt};
use mdb_base::Memory;
use std::alloc::Global;

/// Notes the open attempts of a Checkpoint.
fn reach_open(begun: &mut Begun, attempts: &[OpenAttempt]) -> Result<(), Memory>
    requires { All (λ (attempt : TheOpen). attempt.tid.attempt < 32) attempts.now }
    ensures { OnOk result ((tx : TheTx) → noted begun.new.listed tx
        ≡ reached tx (noted begun.old.listed tx) (map (λ (attempt : TheOpen). attempt.tid) attempts.now)) }
{
    for attempt in attempts {
        begun.reach(attempt.tid)?;
    }
    Ok(())
}

/// Notes the committed attempts of a Checkpoint.
fn reach_committed(begun: &mut Begun, attempts: &[CommittedAttempt]) -> Result<(), Memory>
    requires { All (λ (attempt : TheCommitted). attempt.tid.attempt < 32) attempts.now }
    ensures { OnOk result ((tx : TheTx) → noted begun.new.listed tx
        ≡ reached tx (noted begun.old.listed tx) (map (λ (attempt : TheCommitted). attempt.tid) attempts.now)) }
{
    for attempt in attempts {
        begun.reach(attempt.tid)?;
    }
    Ok(())
}

/// Notes the attempts that a record names.
fn reach_record(begun: &mut Begun, kept: &CoordRecord) -> Result<(), Memory>
    requires { Each (λ (tid : TheTid). tid.attempt < 32) (attempts_in kept.now) }
    ensures { OnOk result ((tx : TheTx) → noted begun.new.listed tx ≡ reached tx (noted begun.old.listed tx) (attempts_in kept.now)) }
{
    match kept {
        CoordRecord::Initiation { tid, .. } => begun.reach(*tid),
        CoordRecord::Commit { tid, .. } => begun.reach(*tid),
        CoordRecord::Abort { tid, .. } => begun.reach(*tid),
        CoordRecord::End { tid } => begun.reach(*tid),
        CoordRecord::Checkpoint(sum) => {
            reach_open(begun, sum.open_attempts.as_slice())?;
            reach_committed(begun, sum.committed.as_slice())
        }
    }
}

/// How many attempts of each transaction were begun: those that these records name, a Checkpoint's lists included, and of their transactions
/// those before them. Attempts are 0 to 31.
pub fn begun_by(alloc: Global, records: &[CoordRecord]) -> Result<Begun, Memory>
    requires { All (λ (kept : TheRecord). Each (λ (tid : TheTid). tid.attempt < 32) (attempts_in kept)) records.now }
    ensures { IfOk result (λ begun. (tx : TheTx) → noted begun.listed tx ≡ found_attempts tx records.now) }
{
    let mut begun = Begun::new(alloc);
    for record in records {
        reach_record(&mut begun, record)?;
    }
    Ok(begun)
}
