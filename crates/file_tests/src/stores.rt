//! A store in memory.
use file_disks::{LONGEST_JOURNAL, MemStore, OpenErr, Store};
use journal_disk::{Disk, MemDisk};
use mdb_base::Memory;
use std::alloc::Global;
use std::test::Fail;

// Nine disks of which that of this number has so many bytes.
fn nine(alloc: Global, number: usize, count: usize) -> Result<Vec<MemDisk>, Memory> {
    let mut disks = Vec::new(alloc);
    for at in 0..9 {
        let mut disk = MemDisk::new(alloc)?;
        if at == number {
            let bytes = vec![in alloc; 7; count]?;
            disk.reserve(alloc, count as u64)?;
            let _ = disk.append(&bytes);
        }
        disks.push(disk)?;
    }
    Ok(disks)
}

// A store whose disk of this number alone has bytes, so many, and which fails at these calls.
fn store_of(alloc: Global, number: usize, count: usize, failing: &[u32]) -> Option<MemStore> {
    let disks = nine(alloc, number, count).ok()?;
    let failing = Vec::from_slice(alloc, failing).ok()?;
    if disks.len() != 9 {
        return None;
    }
    Some(MemStore::new(disks, failing))
}

// How many bytes each disk has that is opened, in their order, with the first refusal.
fn sizes(alloc: Global, store: &mut MemStore) -> Result<Vec<u64>, OpenErr> {
    let mut sizes = Vec::new(alloc);
    for number in 0..9 {
        let size = store.open_disk(number)?.len();
        sizes.push(size)?;
    }
    Ok(sizes)
}

#[test]
fn a_store_in_memory_hands_out_synced_copies(rt: HostRuntime) -> Result<(), Fail> {
    let alloc = rt.alloc();
    let mut store = store_of(alloc, 3, 5, &[]).ok_or("no memory")?;
    let want = [0, 0, 0, 5, 0, 0, 0, 0, 0];
    assert_eq!(rt; sizes(alloc, &mut store)?.as_slice(), want.as_slice());
    let mut copy = store.open_disk(3)?;
    copy.stop(0);
    assert_eq!(rt; copy.len(), 5);
    copy.cut_back(0)?;
    assert_eq!(rt; sizes(alloc, &mut store)?.as_slice(), want.as_slice());
    Ok(())
}

#[test]
fn a_store_in_memory_fails_at_its_calls(rt: HostRuntime) -> Result<(), Fail> {
    let alloc = rt.alloc();
    let mut store = store_of(alloc, 3, 5, &[2]).ok_or("no memory")?;
    assert!(rt; store.open_disk(0).is_ok());
    assert!(rt; matches!(store.open_disk(1), Err(OpenErr::Failed)));
    assert!(rt; store.open_disk(1).is_ok());
    Ok(())
}

// Puts 64 mebibytes and one byte on the disk.
fn fill(alloc: Global, disk: &mut MemDisk) -> Result<(), OpenErr> {
    let piece = vec![in alloc; 7; 1_048_576]?;
    for _ in 0..64 {
        disk.reserve(alloc, 1_048_576)?;
        disk.append(&piece)?;
    }
    disk.reserve(alloc, 1)?;
    disk.append(&[7])?;
    Ok(())
}

// A store whose disk 3 alone has bytes, 67,108,865 of them, and whose first call fails.
fn large_store(alloc: Global) -> Option<MemStore> {
    let mut disks = nine(alloc, 9, 0).ok()?;
    fill(alloc, disks.get_mut(3)?).ok()?;
    let failing = Vec::from_slice(alloc, &[1]).ok()?;
    if disks.len() != 9 {
        return None;
    }
    Some(MemStore::new(disks, failing))
}

#[test]
fn a_journal_is_large_above_67108864_bytes(rt: HostRuntime) -> Result<(), Fail> {
    let alloc = rt.alloc();
    assert_eq!(rt; LONGEST_JOURNAL, 67_108_864);
    let mut store = large_store(alloc).ok_or("no memory")?;
    // Large comes also at a call that is to fail.
    assert!(rt; matches!(store.open_disk(3), Err(OpenErr::Large)));
    assert!(rt; matches!(store.open_disk(3), Err(OpenErr::Large)));
    Ok(())
}
