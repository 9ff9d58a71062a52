//! Disks in memory by their journals. A journal that isn't listed is empty.
ghost use Rattle.std.specs.Prelude.{◌≡◌, IfOk, length};
ghost use Rattle.journal_disk.specs.MemDisk.{mem_image, mem_size};

use crate::faults::Faults;
use crate::headers::{first_word, number};
use crate::wrong::Wrong;
use case_text::push_hex;
use journal_disk::{Disk, MemDisk};
use mdb_base::Memory;
use std::alloc::Global;

/// How many actors there are: the coordinator, and eight sites.
pub(crate) const ACTORS: usize = 9;

/// How many disks there are, as their numbers are.
pub(crate) const DISKS: u32 = 9;

/// A disk with this journal, all of it synced, whose call of this number fails, counted from 1; at call 0 none does.
pub(crate) fn disk_with(alloc: Global, journal: &[u8], call: u32) -> Result<MemDisk, Memory>
    ensures synced { IfOk result (λ disk. (mem_image disk).synced ≡ length (mem_image disk).bytes) }
    ensures size { IfOk result (λ disk. mem_size disk ≡ length journal.now) }
{
    // The journal is appended by a call too.
    let failing = if call == 0 { 0 } else { call.saturating_add(1) };
    let mut disk = MemDisk::failing(alloc, &[failing])?;
    disk.reserve(alloc, journal.len() as u64)?;
    match disk.append(journal) {
        Ok(()) => {
            disk.stop(journal.len() as u64);
            Ok(disk)
        }
        Err(_) => Err(Memory),
    }
}

/// The journal of this place.
pub(crate) fn journal_at(journals: &[Vec<u8>], place: usize) -> &[u8] {
    match journals.get(place) {
        Some(journal) => journal,
        None => &[],
    }
}

/// Adds disks with these journals, all of them synced, from the first place that has none on; one call can fail.
pub(crate) fn add_disks(
    alloc: Global,
    journals: &[Vec<u8>],
    faults: Faults,
    disks: &mut Vec<MemDisk>,
) -> Result<(), Memory> {
    for place in disks.len()..ACTORS {
        let call = faults.call_of(place);
        disks.push(disk_with(alloc, journal_at(journals, place), call)?)?;
    }
    Ok(())
}

/// What a disk holds.
pub(crate) fn journal_of(alloc: Global, disk: &mut MemDisk) -> Result<Vec<u8>, Wrong> {
    let mut journal = vec![in alloc; 0; disk.len() as usize]?;
    disk.read_at(0, &mut journal)?;
    Ok(journal)
}

/// Puts what the disks hold in place of these journals.
pub(crate) fn read_journals(
    alloc: Global,
    disks: &mut Vec<MemDisk>,
    journals: &mut Vec<Vec<u8>>,
) -> Result<(), Wrong> {
    journals.clear();
    for disk in disks.iter_mut() {
        journals.push(journal_of(alloc, disk)?)?;
    }
    Ok(())
}

/// Each disk stops, and keeps so many bytes of those that aren't synced.
pub(crate) fn stop_each(disks: &mut Vec<MemDisk>, cut: u32) {
    for disk in disks.iter_mut() {
        disk.stop(u64::from(cut));
    }
}

/// The bytes that lines of digits spell.
fn bytes_of(alloc: Global, digits: &[u8]) -> Result<Vec<u8>, Wrong> {
    let mut bytes = Vec::new(alloc);
    if push_hex(&mut bytes, digits)? {
        Ok(bytes)
    } else {
        Err(Wrong::Body)
    }
}

/// The disk of this number.
fn disk_of<'a>(disks: &'a mut Vec<MemDisk>, word: &str) -> Result<&'a mut MemDisk, Wrong> {
    let place = number(word)? as usize;
    match disks.get_mut(place) {
        Some(disk) => Ok(disk),
        None => Err(Wrong::Header),
    }
}

/// The disk of this number has these bytes.
fn put_on(
    alloc: Global,
    disks: &mut Vec<MemDisk>,
    word: &str,
    journal: &[u8],
) -> Result<(), Wrong> {
    let disk = disk_of(disks, word)?;
    *disk = disk_with(alloc, journal, 0)?;
    Ok(())
}

/// The disk of this number has the bytes that the lines spell.
pub(crate) fn put_digits(
    alloc: Global,
    disks: &mut Vec<MemDisk>,
    word: &str,
    digits: &[u8],
) -> Result<(), Wrong> {
    put_on(alloc, disks, word, &bytes_of(alloc, digits)?)
}

/// The disk has so many bytes of 0.
pub(crate) fn put_zeros(alloc: Global, disks: &mut Vec<MemDisk>, words: &str) -> Result<(), Wrong> {
    let (word, count) = first_word(words);
    let count = number(count)? as usize;
    put_on(alloc, disks, word, &vec![in alloc; 0; count]?)
}

/// The disk of this number holds the bytes that the lines spell.
pub(crate) fn is_held(
    alloc: Global,
    disks: &mut Vec<MemDisk>,
    word: &str,
    digits: &[u8],
) -> Result<(), Wrong> {
    let journal = journal_of(alloc, disk_of(disks, word)?)?;
    if bytes_of(alloc, digits)?.as_slice() == journal.as_slice() {
        Ok(())
    } else {
        Err(Wrong::Disk)
    }
}
