//! Checkpoints in whole sessions, and what the disk of a site holds at the end.
use super::{called, empty_disks, expect};
use mdb_top::{Disk, MemDisk, NoGate};
use std::alloc::Global;
use std::sync::Wait;
use std::test::Fail;
use std::thread::Threads;

// A local commits, and a Checkpoint of its site follows.
pub(super) const CHECKED: [(&str, &str); 3] = [
    // The Checkpoint alone is kept, and tells what committed.
    (
        "site 1 locking nothing
local 1 1 set:5:7
commands
begin 1
step 1
commit 1
check 1
halt 1 0
back 1
begin 1
",
        "begin 1 => begun 1.0
step 1 => wrote 5 7
commit 1 => committed 1.0 number 2
check 1 => checked
halt 1 0 => stopped kept 1
back 1 => up epoch 2 doubtful 0
begin 1 => committed 1.0
order 1.0
reads 1.0
forgotten
table 1 5=7
end
",
    ),
    // A stop before the Checkpoint is synced keeps the records that it would replace.
    (
        "site 1 locking nothing
local 1 1 set:5:7
commands
begin 1
step 1
commit 1
trip 1 1 10
check 1
",
        "begin 1 => begun 1.0
step 1 => wrote 5 7
commit 1 => committed 1.0 number 2
trip 1 1 10 => set
check 1 => stopped kept 3
back 1 => up epoch 2 doubtful 0
order 1.0
reads 1.0
forgotten
table 1 5=7
end
",
    ),
    // A stop before the front is trimmed keeps them and the Checkpoint.
    (
        "site 1 locking nothing
local 1 1 set:5:7
commands
begin 1
step 1
commit 1
trip 1 2 0
check 1
",
        "begin 1 => begun 1.0
step 1 => wrote 5 7
commit 1 => committed 1.0 number 2
trip 1 2 0 => set
check 1 => stopped kept 4
back 1 => up epoch 2 doubtful 0
order 1.0
reads 1.0
forgotten
table 1 5=7
end
",
    ),
];

#[test]
fn checkpoints_keep_what_was_committed(rt: HostRuntime) {
    for (input, output) in CHECKED.iter() {
        expect(&rt, input, 0, output);
    }
}

// A set-up, a start and the record of the local, of 42, 41 and 62 bytes.
const COMMITTED: [u8; 145] = [
    0, 0, 0, 6, 1, 1, 1, 1, 0, 0, 49, 208, 136, 222, 135, 233, 50, 35, 138, 230, 214, 10, 255, 88,
    163, 244, 8, 48, 123, 53, 60, 184, 252, 6, 96, 208, 18, 96, 245, 7, 25, 40, 0, 0, 0, 5, 2, 0,
    0, 0, 1, 35, 32, 104, 139, 7, 75, 192, 217, 236, 164, 91, 151, 17, 86, 8, 41, 220, 158, 227, 3,
    20, 125, 163, 254, 204, 3, 236, 106, 45, 105, 29, 63, 0, 0, 0, 26, 5, 0, 0, 0, 1, 0, 0, 0, 0,
    0, 0, 0, 0, 2, 0, 1, 0, 5, 0, 0, 0, 0, 0, 0, 0, 7, 180, 105, 87, 199, 57, 136, 29, 132, 239,
    82, 225, 253, 6, 181, 84, 208, 185, 69, 111, 234, 224, 219, 184, 22, 28, 131, 16, 62, 26, 203,
    12, 90,
];

// A Checkpoint, of 82 bytes, and the second start.
const TRIMMED: [u8; 123] = [
    0, 0, 0, 46, 6, 1, 1, 1, 0, 0, 0, 1, 0, 0, 0, 0, 0, 0, 0, 2, 0, 0, 0, 0, 0, 0, 0, 0, 0, 0, 1,
    0, 5, 0, 0, 0, 0, 0, 0, 0, 7, 0, 1, 0, 0, 0, 1, 0, 0, 0, 221, 197, 140, 167, 25, 93, 132, 201,
    218, 197, 35, 247, 29, 17, 247, 172, 149, 4, 45, 2, 43, 109, 103, 176, 153, 208, 59, 121, 117,
    156, 3, 35, 0, 0, 0, 5, 2, 0, 0, 0, 2, 172, 123, 201, 46, 142, 198, 179, 182, 110, 0, 139, 103,
    251, 5, 12, 36, 179, 88, 105, 198, 91, 70, 234, 149, 65, 80, 39, 62, 224, 77, 203, 113,
];

/// The bytes of a disk.
fn bytes_of(alloc: Global, disk: &mut MemDisk) -> Result<Vec<u8>, Fail> {
    let mut bytes = vec![in alloc; 0; disk.len() as usize]?;
    match disk.read_at(0, &mut bytes) {
        Ok(()) => Ok(bytes),
        Err(_) => Err(Fail::from("no call fails")),
    }
}

/// What disk 1 holds after this session, and whether the coordinator's disk is empty.
fn kept<R: Threads + Wait + Sync + AllocGlobal>(
    rt: &R,
    input: &str,
) -> Result<(Vec<u8>, bool), Fail> {
    let mut disks = empty_disks(rt.alloc())?;
    let (status, _) = called(
        rt,
        &["replay"],
        input.as_bytes(),
        (0, 0),
        &mut disks,
        &NoGate,
    )?;
    if status != 0 {
        return Err(Fail::from("the session is carried out"));
    }
    let unused = disks[0].len() == 0;
    Ok((bytes_of(rt.alloc(), &mut disks[1])?, unused))
}

#[test]
fn a_committed_local_has_these_bytes(rt: HostRuntime) -> Result<(), Fail> {
    let input = "site 1 locking nothing
local 1 1 get:5 add:5:0:7
commands
begin 1
step 1
step 1
commit 1
";
    let (bytes, unused) = kept(&rt, input)?;
    assert_eq!(rt; bytes.as_slice(), COMMITTED.as_slice());
    assert!(rt; unused);
    Ok(())
}

#[test]
fn a_trimmed_disk_has_these_bytes(rt: HostRuntime) -> Result<(), Fail> {
    let (bytes, unused) = kept(&rt, CHECKED[0].0)?;
    assert_eq!(rt; bytes.as_slice(), TRIMMED.as_slice());
    assert!(rt; unused);
    Ok(())
}
