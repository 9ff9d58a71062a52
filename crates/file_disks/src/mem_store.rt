//! A store in memory, some calls of which can be told to fail.
ghost use Rattle.std.specs.Prelude.{◌≡◌, ◌≤◌, ◌<◌, ◌^◌, ◌↔◌, [], IsTrue, IsErrOf, IfOk, IfSome, IsSome, OnOk, Contains, length};
ghost use Rattle.mdb_base.specs.Counts.{HasCauseOf};
ghost use Rattle.journal_disk.specs.Disk.{no_bytes, synced_bytes};
ghost use Rattle.journal_disk.specs.MemDisk.{mem_image, mem_failing, mem_faults};

use crate::counting::is_listed;
use crate::errors::OpenErr;
use crate::store::{LONGEST_JOURNAL, Store};
use journal_disk::{Disk, MemDisk};
use mdb_base::Memory;
use std::alloc::Global;

/// A store of nine disks in memory. It hands out copies of them, with all bytes synced, on which no call fails.
#[derive(Drop)]
pub struct MemStore {
    disks: Vec<MemDisk>,
    failing: Vec<u32>,
    calls: u64,
    faults: u64,
    ghost nine_disks: { length disks.items ≡ 9 },
}

impl MemStore {
    ghost use Rattle.file_disks.specs.MemStore.{IsNewStore};

    /// A store of these disks that fails at these calls, counted from 1.
    pub fn new(disks: Vec<MemDisk>, failing: Vec<u32>) -> MemStore
        requires nine { length disks.items ≡ 9 }
        ensures { IsNewStore result disks.items failing.items }
    {
        MemStore {
            disks,
            failing,
            calls: 0,
            faults: 0,
        }
    }
}

// Puts these bytes on an empty disk, on which no call fails, and syncs them.
fn fill(alloc: Global, disk: &mut MemDisk, bytes: &[u8]) -> Result<(), Memory>
    requires empty { mem_image disk.old ≡ no_bytes }
    requires never_fails { mem_failing disk.old ≡ [] }
    ensures { OnOk result (mem_image disk.new ≡ synced_bytes bytes.now) }
{
    disk.reserve(alloc, bytes.len() as u64)?;
    match (disk.append(bytes), disk.sync()) {
        (Ok(()), Ok(())) => Ok(()),
        _ => unreachable!(),
    }
}

// A disk with these bytes, all synced, on which no call fails.
fn disk_of(alloc: Global, bytes: &[u8]) -> Result<MemDisk, Memory>
    ensures { IfOk result (λ disk. mem_image disk ≡ synced_bytes bytes.now) }
{
    let mut disk = MemDisk::new(alloc)?;
    match fill(alloc, &mut disk, bytes) {
        Ok(()) => Ok(disk),
        Err(Memory) => Err(Memory),
    }
}

// A disk with the bytes of this one, all synced, on which no call fails. The answer is none where a call of this
// one failed.
fn copy_of(alloc: Global, disk: &mut MemDisk) -> Result<Option<MemDisk>, Memory>
    ensures image { IfOk result (λ copied. IfSome copied (λ copy. mem_image copy ≡ synced_bytes (mem_image disk.old).bytes)) }
    ensures whole { IfOk result (λ copied. mem_failing disk.old ≡ [] → IsSome copied) }
    ensures same { mem_image disk.new ≡ mem_image disk.old }
{
    let mut bytes = vec![in alloc; 0; disk.len() as usize]?;
    match disk.read_at(0, &mut bytes) {
        Ok(()) => Ok(Some(disk_of(alloc, &bytes)?)),
        Err(_) => Ok(None),
    }
}

impl MemStore {
    ghost use Rattle.file_disks.specs.MemStore.{disk_failing, store_journals};
    ghost use Rattle.file_disks.specs.Stores.{journal_of, IsLarge};

    // Whether an actor's journal has more bytes than may be opened.
    fn is_large(&self, number: u8) -> bool
        requires { number ≤ 8 }
        ensures { IsTrue result ↔ IsLarge (journal_of number (store_journals self.now)) }
    {
        self.disks[number as usize].len() > LONGEST_JOURNAL
    }

    // A copy of an actor's disk. The answer is none where a call of that disk failed.
    fn copied(&mut self, number: u8) -> Result<Option<MemDisk>, Memory>
        requires { number ≤ 8 }
        ensures image { IfOk result (λ copied. IfSome copied (λ copy. mem_image copy ≡ synced_bytes (journal_of number (store_journals self.old)))) }
        ensures whole { IfOk result (λ copied. disk_failing number self.old ≡ [] → IsSome copied) }
        ensures journals { store_journals self.new ≡ store_journals self.old }
        ensures failing { self.new.failing ≡ self.old.failing }
        ensures calls { self.new.calls ≡ self.old.calls }
        ensures faults { self.new.faults ≡ self.old.faults }
    {
        let alloc = *self.failing.allocator();
        copy_of(alloc, &mut self.disks[number as usize])
    }
}

impl Store<MemDisk> for MemStore {
    ghost use Rattle.std.specs.Prelude.{true};
    ghost use Rattle.journal_disk.specs.Disk.{one_more};
    ghost use Rattle.file_disks.specs.MemStore.{disk_failing, store_calls, store_failing, store_faults, store_journals};
    ghost use Rattle.file_disks.specs.Stores.{journal_of, IsNotLarge, IsLarge};

    ghost tells = { true };

    ghost journals = { store_journals };

    ghost faults = { store_faults };

    /// It fails at the calls of the store that are listed, where the journal isn't large, and where a call of that
    /// disk fails.
    fn open_disk(&mut self, number: u8) -> Result<MemDisk, OpenErr>
        requires { number ≤ 8 }
        ensures image { IfOk result (λ disk. mem_image disk ≡ synced_bytes (journal_of number (store_journals self.old))) }
        ensures not_large { IfOk result (λ disk. IsNotLarge (length (mem_image disk).bytes)) }
        ensures large { IsErrOf result OpenErr.Large ↔ IsLarge (journal_of number (store_journals self.old)) }
        ensures journals { store_journals self.new ≡ store_journals self.old }
        ensures listed { Contains (store_failing self.old) (one_more (store_calls self.old)) → IsNotLarge (length (journal_of number (store_journals self.old))) → IsErrOf result OpenErr.Failed }
        ensures only_listed { disk_failing number self.old ≡ [] → IsErrOf result OpenErr.Failed → Contains (store_failing self.old) (one_more (store_calls self.old)) }
        ensures calls { store_calls self.new ≡ one_more (store_calls self.old) }
        ensures failing { store_failing self.new ≡ store_failing self.old }
        ensures cause { HasCauseOf OpenErr.Failed (store_faults self.old) (store_faults self.new) result }
    {
        self.calls = self.calls.saturating_add(1);
        if self.is_large(number) {
            return Err(OpenErr::Large);
        }
        if !is_listed(&self.failing, self.calls) {
            if let Some(copy) = self.copied(number)? {
                return Ok(copy);
            }
        }
        self.faults = self.faults.saturating_add(1);
        Err(OpenErr::Failed)
    }
}
