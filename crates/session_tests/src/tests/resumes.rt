//! Sessions that go on from the journals of a store.
ghost use Rattle.std.specs.Prelude.{IfSome, length, ◌≡◌};

use super::empty_disks;
use super::stores::{gone_on, stored};
use file_disks::MemStore;
use mdb_top::{Disk, MemDisk};
use std::alloc::Global;
use std::test::Fail;

// The journal of site 1, locking, presumed nothing and without items, which started once and committed a local transaction that writes 7 to key
// 5: in frames of version 1.
const OLD: [u8; 43] = [
    0, 6, 1, 1, 1, 1, 0, 0, 0, 5, 2, 0, 0, 0, 1, 0, 26, 5, 0, 0, 0, 1, 0, 0, 0, 0, 0, 0, 0, 0, 2,
    0, 1, 0, 5, 0, 0, 0, 0, 0, 0, 0, 7,
];

// The same, but its first record has no kind.
const NO_RECORD: [u8; 43] = [
    0, 6, 9, 1, 1, 1, 0, 0, 0, 5, 2, 0, 0, 0, 1, 0, 26, 5, 0, 0, 0, 1, 0, 0, 0, 0, 0, 0, 0, 0, 2,
    0, 1, 0, 5, 0, 0, 0, 0, 0, 0, 0, 7,
];

// A whole frame of version 2 whose digest is that of nothing.
const ZEROS: [u8; 36] = [0; 36];

// The disk that has these bytes, the status, and what is put.
const CASES: [(usize, &[u8], u8, &[u8]); 6] = [
    (9, &[], 0, b"back 0 => up known 0\nforgotten\nend\n"),
    (4, &[0, 6, 1], 0, b"back 0 => up known 0\nforgotten\nend\n"),
    (1, &NO_RECORD, 10, b"disk 1 is damaged at 0\n"),
    (8, &ZEROS, 10, b"disk 8 is damaged at 0\n"),
    (2, &OLD, 11, b"disk 2 is foreign\n"),
    (0, &OLD, 10, b"disk 0 is damaged at 0\n"),
];

// A store of nine disks, of which this one has these bytes.
fn store_with(alloc: Global, number: usize, bytes: &[u8]) -> Option<MemStore> {
    let mut disks = empty_disks(alloc).ok()?;
    if let Some(disk) = disks.get_mut(number) {
        disk.reserve(alloc, bytes.len() as u64).ok()?;
        disk.append(bytes).ok()?;
    }
    if disks.len() != 9 {
        return None;
    }
    Some(MemStore::new(disks, Vec::new(alloc)))
}

#[test]
fn a_session_goes_on_or_a_disk_says_why_not(rt: HostRuntime) -> Result<(), Fail> {
    let alloc = rt.alloc();
    for (number, bytes, want, text) in CASES {
        let mut store = store_with(alloc, number, bytes).ok_or("no memory")?;
        let mut disks: Vec<MemDisk> = Vec::new(alloc);
        let (status, put) = stored(&rt, "resume x", b"", &mut store, &mut disks)?;
        assert_eq!(rt; status, want, "{number}");
        assert_eq!(rt; put.as_slice(), text, "{number}");
    }
    Ok(())
}

#[test]
fn frames_of_version_1_stay_before_new_ones(rt: HostRuntime) -> Result<(), Fail> {
    let alloc = rt.alloc();
    let mut store = store_with(alloc, 1, &OLD).ok_or("no memory")?;
    let mut disks: Vec<MemDisk> = Vec::new(alloc);
    let (status, put) = stored(&rt, "resume x", b"", &mut store, &mut disks)?;
    assert_eq!(rt; status, 0);
    assert_eq!(rt; put.as_slice(), gone_on(alloc, 2)?.as_slice());
    let Some(disk) = disks.get_mut(1) else {
        return Err(Fail::from("no disk"));
    };
    // The Start of the second epoch, in version 2, stands behind them.
    assert_eq!(rt; disk.len(), 43 + 41);
    let mut journal = vec![in alloc; 0; disk.len() as usize]?;
    disk.read_at(0, &mut journal)?;
    journal.truncate(OLD.len());
    assert_eq!(rt; journal.as_slice(), OLD.as_slice());
    Ok(())
}

// Puts 64 mebibytes and one byte on the disk.
fn fill(alloc: Global, disk: &mut MemDisk) -> Result<(), Fail> {
    let piece = vec![in alloc; 0; 1_048_576]?;
    for _ in 0..64 {
        disk.reserve(alloc, 1_048_576)?;
        disk.append(&piece)?;
    }
    disk.reserve(alloc, 1)?;
    disk.append(&[0])?;
    Ok(())
}

#[test]
fn a_journal_that_is_too_long_is_not_opened(rt: HostRuntime) -> Result<(), Fail> {
    let alloc = rt.alloc();
    let mut journals = empty_disks(alloc)?;
    fill(alloc, &mut journals[3])?;
    let mut store = MemStore::new(journals, Vec::new(alloc));
    let mut disks: Vec<MemDisk> = Vec::new(alloc);
    let (status, put) = stored(&rt, "resume x", b"", &mut store, &mut disks)?;
    assert_eq!(rt; status, 12);
    assert_eq!(rt; put.as_slice(), b"disk 3 is large\n".as_slice());
    assert_eq!(rt; disks.len(), 3);
    Ok(())
}
