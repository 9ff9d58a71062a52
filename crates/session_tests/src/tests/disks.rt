//! Stops at a disk call, and disks that fail or are used.
use super::{empty_disks, expect, replayed_on};
use mdb_base::Memory;
use mdb_top::{Disk, MemDisk};
use std::alloc::Global;

const SESSION: &str =
    "site 1 locking nothing\nlocal 1 1 get:5 add:5:0:7\ncommands\nbegin 1\nstep 1\nstep 1\ncommit 1\n";

/// A disk with one byte.
fn used_disk(alloc: Global) -> Result<MemDisk, Memory> {
    let mut disk = MemDisk::new(alloc)?;
    disk.reserve(alloc, 1)?;
    match disk.append(b"x") {
        Ok(()) => Ok(disk),
        Err(_) => Err(Memory),
    }
}

#[test]
fn a_stop_between_append_and_sync(rt: HostRuntime) {
    expect(
        &rt,
        "site 1 locking abort\nlocal 1 1 set:5:1\ncommands\nbegin 1\nstep 1\ntrip 1 1 65535\ncommit 1\nbegin 1\nback 1\nfate 1\nbegin 1\n",
        0,
        "begin 1 => begun 1.0\nstep 1 => wrote 5 1\ntrip 1 1 65535 => set\ncommit 1 => stopped kept 3\nbegin 1 => down\nback 1 => up epoch 2 doubtful 0\nfate 1 => committed 1.0\nbegin 1 => committed 1.0\norder 1.0\nreads 1.0\nforgotten\ntable 1 5=1\nend\n",
    );
    expect(
        &rt,
        "site 1 locking abort\nlocal 1 1 set:5:1\ncommands\nbegin 1\nstep 1\ntrip 1 1 0\ncommit 1\nback 1\nfate 1\nbegin 1\n",
        0,
        "begin 1 => begun 1.0\nstep 1 => wrote 5 1\ntrip 1 1 0 => set\ncommit 1 => stopped kept 2\nback 1 => up epoch 2 doubtful 0\nfate 1 => aborted\nbegin 1 => begun 1.1\nabort 1 => aborted 1.1\norder\nforgotten\ntable 1\nend\n",
    );
}

#[test]
fn a_failing_disk_is_named(rt: HostRuntime) -> Result<(), std::test::Fail> {
    let mut disks = empty_disks(rt.alloc())?;
    disks[1] = MemDisk::failing(rt.alloc(), &[3])?;
    let (status, put) = replayed_on(&rt, SESSION.as_bytes(), disks)?;
    assert_eq!(rt; status, 5);
    assert_eq!(rt; put.as_slice(), b"disk 1 failed\n".as_slice());
    Ok(())
}

#[test]
fn the_failing_disk_of_the_second_site_is_named(rt: HostRuntime) -> Result<(), std::test::Fail> {
    let mut disks = empty_disks(rt.alloc())?;
    disks[2] = MemDisk::failing(rt.alloc(), &[3])?;
    let input = "site 1 locking nothing\nsite 2 timestamp abort\n";
    let (status, put) = replayed_on(&rt, input.as_bytes(), disks)?;
    assert_eq!(rt; status, 5);
    assert_eq!(rt; put.as_slice(), b"disk 2 failed\n".as_slice());
    Ok(())
}

#[test]
fn the_lines_before_a_failed_call_are_put(rt: HostRuntime) -> Result<(), std::test::Fail> {
    let mut disks = empty_disks(rt.alloc())?;
    disks[0] = MemDisk::failing(rt.alloc(), &[1])?;
    let input = "site 1 locking nothing\ncommands\ncheck 1\ncheck 0\nhalt 1 0\n";
    let (status, put) = replayed_on(&rt, input.as_bytes(), disks)?;
    assert_eq!(rt; status, 5);
    assert_eq!(rt;
        put.as_slice(),
        b"check 1 => checked\ndisk 0 failed\n".as_slice()
    );
    Ok(())
}

#[test]
fn a_used_disk_is_named(rt: HostRuntime) -> Result<(), std::test::Fail> {
    let mut disks = empty_disks(rt.alloc())?;
    disks[4] = used_disk(rt.alloc())?;
    let (status, put) = replayed_on(&rt, SESSION.as_bytes(), disks)?;
    assert_eq!(rt; status, 8);
    assert_eq!(rt; put.as_slice(), b"disk 4 is used\n".as_slice());
    Ok(())
}

#[test]
fn the_least_used_disk_is_named(rt: HostRuntime) -> Result<(), std::test::Fail> {
    let mut disks = empty_disks(rt.alloc())?;
    disks[4] = used_disk(rt.alloc())?;
    disks[7] = used_disk(rt.alloc())?;
    let (status, put) = replayed_on(&rt, SESSION.as_bytes(), disks)?;
    assert_eq!(rt; status, 8);
    assert_eq!(rt; put.as_slice(), b"disk 4 is used\n".as_slice());
    Ok(())
}
