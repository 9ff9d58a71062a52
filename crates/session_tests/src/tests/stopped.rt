//! Disks that stop, and what goes on from what they held.
ghost use Rattle.std.specs.Prelude.{◌≡◌, IfOk, length};
ghost use Rattle.mdb_base.specs.Words.{Each};
ghost use Rattle.journal_disk.specs.MemDisk.{mem_image};

use super::{GIVEN, TAKEN};
use mdb_top::{Disk, MemDisk, MemSink, MemSource, NoGate, federate};
use std::alloc::Global;
use std::sync::Wait;
use std::test::Fail;
use std::thread::Threads;

/// How many bytes what a session puts that goes on has at most.
const ROOM: usize = 4_096;

/// The bytes that each of these disks holds once it has stopped with this cut.
pub(super) fn left_on(
    alloc: Global,
    disks: &mut Vec<MemDisk>,
    cut: u64,
) -> Result<Vec<Vec<u8>>, Fail> {
    let mut journals = Vec::new(alloc);
    for disk in disks.iter_mut() {
        disk.stop(cut);
        let mut journal = vec![in alloc; 0; disk.len() as usize]?;
        disk.read_at(0, &mut journal)?;
        journals.push(journal)?;
    }
    Ok(journals)
}

/// A disk with these bytes, all of them synced, whose call of this number fails, counted from 1; at call 0 none does.
fn disk_with(alloc: Global, journal: &[u8], call: u32) -> Result<MemDisk, Fail>
    ensures { IfOk result (λ disk. (mem_image disk).synced ≡ length (mem_image disk).bytes) }
{
    // The journal is appended by a call too.
    let failing = if call == 0 { 0 } else { call.saturating_add(1) };
    let mut disk = MemDisk::failing(alloc, &[failing])?;
    disk.reserve(alloc, journal.len() as u64)?;
    disk.append(journal)?;
    disk.stop(journal.len() as u64);
    Ok(disk)
}

/// Nine disks with these bytes, all of them synced, of which this one fails at this call; at call 0 none does.
pub(super) fn disks_with(
    alloc: Global,
    journals: &[Vec<u8>],
    number: usize,
    call: u32,
) -> Result<Vec<MemDisk>, Fail>
    ensures nine { IfOk result (λ disks. length disks.items ≡ 9) }
    ensures synced { IfOk result (λ disks. Each (λ disk. (mem_image disk).synced ≡ length (mem_image disk).bytes) disks.items) }
{
    let mut disks = Vec::new(alloc);
    for (place, journal) in journals.iter().enumerate() {
        let failing = if place == number { call } else { 0 };
        let disk = disk_with(alloc, journal, failing)?;
        disks.push(disk)?;
    }
    if disks.len() != 9 {
        return Err(Fail::from("there are nine actors"));
    }
    Ok(disks)
}

/// The status of the session that goes on from these disks, and what is put.
pub(super) fn resumed<R: Threads + Wait + Sync + AllocGlobal>(
    rt: &R,
    disks: &mut Vec<MemDisk>,
) -> Result<(u8, String), Fail>
    requires nine { length disks.old.items ≡ 9 }
    requires synced { Each (λ disk. (mem_image disk).synced ≡ length (mem_image disk).bytes) disks.old.items }
{
    let alloc = rt.alloc();
    let mut words = Vec::new(alloc);
    words.push(String::from_str(alloc, "resume")?)?;
    words.push(String::from_str(alloc, "x")?)?;
    let mut source = MemSource::new(Vec::new(alloc), GIVEN, Vec::new(alloc));
    let mut sink = MemSink::new(alloc, ROOM, TAKEN, Vec::new(alloc))?;
    let status = federate(rt, alloc, &words, &mut source, &mut sink, disks, &NoGate);
    match str::from_utf8(sink.written()) {
        Ok(put) => Ok((status, String::from_str(alloc, put)?)),
        Err(_) => Err(Fail::from("a text is put")),
    }
}
