//! Any calls on a journal, one after the other, and what is read of its disk at the end.
ghost use Rattle.std.specs.Prelude.{◌≡◌, ◌≤◌, ◌<◌, ◌+◌, ℕ, length, map, reverse, IfOk, OnOk, IsErrOf, IsTrue};
ghost use Rattle.std.specs.List.{AllByRecursion};
ghost use Rattle.mdb_base.specs.Counts.{HasRisen};
ghost use Rattle.fed_rules.specs.Disk.{journal as journal_of};
ghost use Rattle.journal_disk.specs.Disk.{HasCalled, reads};
ghost use Rattle.frame_journal.specs.Journal.{IsKeptOn};
ghost use Rattle.frame_journal.specs.Records.{as_written, entry_frame, AreRecordsOf};
ghost use Rattle.journal_rules.specs.Calls.{Follows, IsWritable, MayBeMade, NoneFailed, bytes_after, disk_after, made_calls};
ghost use Rattle.journal_rules.specs.Stands.{StandsFor};

use frame_journal::{Format, Journal};
use journal_disk::{Disk, JournalErr};
use mdb_base::Memory;
use std::alloc::Global;

/// One call on a journal. Nothing is written while the journal is torn.
#[derive(Drop)]
pub enum JournalCall<R: Drop> {
    Note(R),
    Force(R),
    /// A checkpoint is forced, and what stands before it is trimmed.
    Check(R),
    Cut,
    Stop(u64),
}

/// Makes these calls on the journal of an empty disk, the last one of the list first, of which the disk may fail any. What is then loaded
/// are exactly the records whose frames are whole on the disk: none of them is no record, and none is damaged. Where no call failed, the
/// bytes and the records are those of the rules after the same calls, and the disk had each of these calls once.
pub fn load_after_calls<R: Drop, F: Format<R>, D: Disk>(
    alloc: Global,
    disk: &mut D,
    calls: Vec<JournalCall<R>>,
) -> Result<Journal<R, F>, JournalErr>
    requires empty { (D.seen disk.old).size ≡ 0 }
    requires may { AllByRecursion (MayBeMade F.spelling F.in_range F.is_checkpoint) calls.items }
    ensures whole { IfOk result (λ journal. IsTrue D.tells → AreRecordsOf (entry_frame F.spelling) (D.seen disk.new).image.bytes journal.entries) }
    ensures records { (at : ℕ) → IsErrOf result (JournalErr.Malformed at) → IsTrue D.tells → ⊥ }
    ensures undamaged { (at : ℕ) → IsErrOf result (JournalErr.Damaged at) → IsTrue D.tells → ⊥ }
    ensures failed { IsErrOf result JournalErr.Failed → HasRisen (D.seen disk.old).faults (D.seen disk.new).faults }
    ensures loaded { IfOk result (λ journal. IsTrue D.tells → NoneFailed (D.seen disk.old).faults (D.seen disk.new).faults
        → journal.entries ≡ map as_written (reverse (journal_of F.frame_bytes (disk_after F.frame_bytes calls.items)))) }
    ensures called { OnOk result (IsTrue D.tells → NoneFailed (D.seen disk.old).faults (D.seen disk.new).faults
        → HasCalled (made_calls F.frame_bytes calls.items + reads (D.seen disk.new).size) (D.seen disk.old) (D.seen disk.new)) }
    ensures image { OnOk result (IsTrue D.tells → NoneFailed (D.seen disk.old).faults (D.seen disk.new).faults
        → (D.seen disk.new).image ≡ bytes_after F.spelling F.frame_bytes calls.items) }
    ensures stands { OnOk result (IsTrue D.tells → NoneFailed (D.seen disk.old).faults (D.seen disk.new).faults
        → StandsFor F.spelling F.frame_bytes (D.seen disk.new).image (disk_after F.frame_bytes calls.items)) }
{
    let mut journal = Journal::<R, F>::new(alloc);
    let mut calls = calls;
    while calls.len() > 0 {
        let call = calls.take_last();
        make_call(alloc, disk, &mut journal, call)?;
    }
    let _written = journal.records();
    Journal::load(alloc, disk)
}

// Makes a call, which the disk may fail.
fn make_call<R: Drop, F: Format<R>, D: Disk>(
    alloc: Global,
    disk: &mut D,
    journal: &mut Journal<R, F>,
    call: JournalCall<R>,
) -> Result<(), Memory>
    requires kept_on { IsKeptOn F.spelling D.tells (D.seen disk.old) journal.old }
    requires may { MayBeMade F.spelling F.in_range F.is_checkpoint call }
    ensures kept_on { IsKeptOn F.spelling D.tells (D.seen disk.new) journal.new }
    ensures later { (D.seen disk.old).faults ≤ (D.seen disk.new).faults }
    ensures follows { OnOk result (IsTrue D.tells → NoneFailed (D.seen disk.old).faults (D.seen disk.new).faults
        → Follows F.spelling F.is_record F.frame_bytes call (D.seen disk.old) (D.seen disk.new)) }
{
    match call {
        JournalCall::Note(entry) => note(alloc, disk, journal, entry),
        JournalCall::Force(entry) => force(alloc, disk, journal, entry),
        JournalCall::Check(entry) => check(alloc, disk, journal, entry),
        JournalCall::Cut => {
            let _ = journal.cut(disk);
            Ok(())
        }
        JournalCall::Stop(cut) => {
            journal.stop(disk, cut);
            Ok(())
        }
    }
}

// Appends an entry.
fn note<R: Drop, F: Format<R>, D: Disk>(
    alloc: Global,
    disk: &mut D,
    journal: &mut Journal<R, F>,
    entry: R,
) -> Result<(), Memory>
    requires kept_on { IsKeptOn F.spelling D.tells (D.seen disk.old) journal.old }
    requires writable { IsWritable F.spelling F.in_range entry }
    ensures kept_on { IsKeptOn F.spelling D.tells (D.seen disk.new) journal.new }
    ensures later { (D.seen disk.old).faults ≤ (D.seen disk.new).faults }
    ensures follows { OnOk result (IsTrue D.tells → NoneFailed (D.seen disk.old).faults (D.seen disk.new).faults
        → Follows F.spelling F.is_record F.frame_bytes (JournalCall.Note entry) (D.seen disk.old) (D.seen disk.new)) }
{
    if journal.is_torn() {
        return Ok(());
    }
    journal.reserve(alloc, disk, &entry)?;
    let _ = journal.note(disk, entry);
    Ok(())
}

// Appends an entry and syncs.
fn force<R: Drop, F: Format<R>, D: Disk>(
    alloc: Global,
    disk: &mut D,
    journal: &mut Journal<R, F>,
    entry: R,
) -> Result<(), Memory>
    requires kept_on { IsKeptOn F.spelling D.tells (D.seen disk.old) journal.old }
    requires writable { IsWritable F.spelling F.in_range entry }
    ensures kept_on { IsKeptOn F.spelling D.tells (D.seen disk.new) journal.new }
    ensures later { (D.seen disk.old).faults ≤ (D.seen disk.new).faults }
    ensures follows { OnOk result (IsTrue D.tells → NoneFailed (D.seen disk.old).faults (D.seen disk.new).faults
        → Follows F.spelling F.is_record F.frame_bytes (JournalCall.Force entry) (D.seen disk.old) (D.seen disk.new)) }
{
    if journal.is_torn() {
        return Ok(());
    }
    journal.reserve(alloc, disk, &entry)?;
    let _ = journal.force(disk, entry);
    Ok(())
}

// Forces a checkpoint and trims what stands before it.
fn check<R: Drop, F: Format<R>, D: Disk>(
    alloc: Global,
    disk: &mut D,
    journal: &mut Journal<R, F>,
    entry: R,
) -> Result<(), Memory>
    requires kept_on { IsKeptOn F.spelling D.tells (D.seen disk.old) journal.old }
    requires writable { IsWritable F.spelling F.in_range entry }
    requires checkpoint { F.is_checkpoint entry }
    ensures kept_on { IsKeptOn F.spelling D.tells (D.seen disk.new) journal.new }
    ensures later { (D.seen disk.old).faults ≤ (D.seen disk.new).faults }
    ensures follows { OnOk result (IsTrue D.tells → NoneFailed (D.seen disk.old).faults (D.seen disk.new).faults
        → Follows F.spelling F.is_record F.frame_bytes (JournalCall.Check entry) (D.seen disk.old) (D.seen disk.new)) }
{
    if journal.is_torn() {
        return Ok(());
    }
    journal.reserve(alloc, disk, &entry)?;
    let Ok(()) = journal.force(disk, entry) else {
        return Ok(());
    };
    let _ = journal.trim(disk);
    Ok(())
}
