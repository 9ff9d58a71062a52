//! The global attempts that the records on the disks name.
ghost use Rattle.std.specs.Prelude.{◌≡◌, ◌++◌, IfOk, List, OnOk, map};
ghost use Rattle.std.specs.List.{flat_map};
ghost use Rattle.fed_rules.specs.Resumed.{begun, names};
ghost use Rattle.journal_disk.specs.Disk.{Image};
ghost use Rattle.found_disks.specs.Finding.{found_in};
ghost use Rattle.world_recovery.specs.FoundBegun as naming;

use fed_rules::{CommittedAttempt, CoordRecord, DoubtfulSum, OpenAttempt, SiteRecord};
use found_disks::Journals;
use mdb_base::{Memory, Tid};
use site_journal::SiteJournal;
use std::alloc::Global;

/// Lists the attempt of a record of the coordinator behind these, unless it is a Checkpoint.
fn list_record(tids: &mut Vec<Tid>, entry: &CoordRecord) -> Result<(), Memory>
    ensures { OnOk result (tids.new.items ≡ tids.old.items ++ naming.coord_names entry.now) }
{
    match entry {
        CoordRecord::Initiation { tid, .. } => tids.push(*tid)?,
        CoordRecord::Commit { tid, .. } => tids.push(*tid)?,
        CoordRecord::Abort { tid, .. } => tids.push(*tid)?,
        CoordRecord::End { tid } => tids.push(*tid)?,
        CoordRecord::Checkpoint(_) => {}
    }
    Ok(())
}

/// Lists these committed attempts behind others.
fn list_committed(tids: &mut Vec<Tid>, committed: &[CommittedAttempt]) -> Result<(), Memory>
    ensures { OnOk result (tids.new.items ≡ tids.old.items ++ naming.committed_names committed.now) }
{
    for attempt in committed {
        tids.push(attempt.tid)?;
    }
    Ok(())
}

/// Lists these open attempts behind others.
fn list_open(tids: &mut Vec<Tid>, open_attempts: &[OpenAttempt]) -> Result<(), Memory>
    ensures { OnOk result (tids.new.items ≡ tids.old.items ++ naming.open_names open_attempts.now) }
{
    for attempt in open_attempts {
        tids.push(attempt.tid)?;
    }
    Ok(())
}

/// Lists the attempts that the first record of the coordinator names behind these.
fn list_first(tids: &mut Vec<Tid>, first: &CoordRecord) -> Result<(), Memory>
    ensures { OnOk result (tids.new.items ≡ tids.old.items ++ naming.first_names first.now) }
{
    match first {
        CoordRecord::Checkpoint(sum) => {
            list_committed(tids, sum.committed.as_slice())?;
            list_open(tids, sum.open_attempts.as_slice())
        }
        _ => list_record(tids, first),
    }
}

/// Lists the attempts of these records of the coordinator behind others, unless they are Checkpoints.
fn list_records(tids: &mut Vec<Tid>, entries: &[CoordRecord]) -> Result<(), Memory>
    ensures { OnOk result (tids.new.items ≡ tids.old.items ++ flat_map naming.coord_names entries.now) }
{
    for entry in entries {
        list_record(tids, entry)?;
    }
    Ok(())
}

/// Lists the attempts that the coordinator's records name, the oldest record first.
fn list_coordinator(tids: &mut Vec<Tid>, entries: &[CoordRecord]) -> Result<(), Memory>
    ensures { OnOk result (tids.new.items ≡ tids.old.items ++ naming.coordinator_tids entries.now) }
{
    match entries.split_first() {
        None => Ok(()),
        Some((first, newer)) => {
            list_first(tids, first)?;
            list_records(tids, newer)
        }
    }
}

/// Lists these attempts in doubt behind others.
fn list_doubtful(tids: &mut Vec<Tid>, doubtful: &[DoubtfulSum]) -> Result<(), Memory>
    ensures { OnOk result (tids.new.items ≡ tids.old.items ++ map (λ held. held.tid) doubtful.now) }
{
    for held in doubtful {
        tids.push(held.tid)?;
    }
    Ok(())
}

/// Lists the global attempts that a record of a site names behind these.
fn list_site_record(tids: &mut Vec<Tid>, entry: &SiteRecord) -> Result<(), Memory>
    ensures { OnOk result (tids.new.items ≡ tids.old.items ++ names entry.now) }
{
    match entry {
        SiteRecord::Prepared { tid, .. } => tids.push(*tid)?,
        SiteRecord::Ended { tid, .. } => tids.push(*tid)?,
        SiteRecord::Checkpoint(sum) => {
            list_doubtful(tids, sum.doubtful.as_slice())?;
            if let Some(owner) = sum.owner {
                tids.push(owner)?;
            }
        }
        SiteRecord::Setup { .. } | SiteRecord::Start { .. } | SiteRecord::Local { .. } => {}
    }
    Ok(())
}

/// Lists the global attempts that these records of a site name behind others.
fn list_site(tids: &mut Vec<Tid>, entries: &[SiteRecord]) -> Result<(), Memory>
    ensures { OnOk result (tids.new.items ≡ tids.old.items ++ naming.site_tids entries.now) }
{
    for entry in entries {
        list_site_record(tids, entry)?;
    }
    Ok(())
}

/// Lists the global attempts that the records of sites name behind these.
fn list_sites(tids: &mut Vec<Tid>, journals: &[SiteJournal]) -> Result<(), Memory>
    ensures { OnOk result (tids.new.items ≡ tids.old.items ++ naming.sites_tids journals.now) }
{
    for journal in journals {
        list_site(tids, journal.records())?;
    }
    Ok(())
}

/// The global attempts that a record in these journals names, each once, by rising attempt.
pub(crate) fn begun_in(alloc: Global, journals: &Journals) -> Result<Vec<Tid>, Memory>
    ensures { IfOk result (λ tids. (images : List Image) → tids.items ≡ begun (found_in images journals.now)) }
{
    let mut tids = Vec::new(alloc);
    list_coordinator(&mut tids, journals.coordinator.records())?;
    list_sites(&mut tids, journals.sites.as_slice())?;
    tids.sort_unstable();
    tids.dedup();
    Ok(tids)
}
