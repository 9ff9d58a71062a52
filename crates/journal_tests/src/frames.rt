//! Frames on a disk in memory.
ghost use Rattle.std.specs.Prelude.{◌<◌};

use journal_disk::{Disk, DiskErr, FrameErr, Frames, MemDisk, Version, append_frame};
use std::alloc::Global;
use std::test::Fail;

// The frame of the payload `04 00000001 00 01`, made by another program.
const FRAME: [u8; 43] = [
    0x00, 0x00, 0x00, 0x07, 0x04, 0x00, 0x00, 0x00, 0x01, 0x00, 0x01, 0x36, 0x00, 0x12, 0xcc, 0xcc,
    0xd1, 0x42, 0xd7, 0x62, 0x15, 0xc5, 0xb6, 0x6d, 0x53, 0xdb, 0x33, 0x95, 0x95, 0xdc, 0xa6, 0x09,
    0x1f, 0xc0, 0x78, 0xe4, 0x6e, 0x16, 0x49, 0xe8, 0x12, 0x04, 0x6a,
];

// A disk with these bytes.
fn disk_with(alloc: Global, bytes: &[u8]) -> Result<MemDisk, DiskErr> {
    let mut disk = MemDisk::new(alloc)?;
    disk.reserve(alloc, bytes.len() as u64)?;
    disk.append(bytes)?;
    Ok(disk)
}

// Whether the disk has exactly these bytes.
fn holds(alloc: Global, disk: &mut MemDisk, want: &[u8]) -> bool {
    let Ok(mut bytes) = vec![in alloc; 0; disk.len() as usize] else {
        return false;
    };
    disk.read_at(0, &mut bytes).is_ok() && bytes.as_slice() == want
}

// Appends the frame of this payload.
fn append(alloc: Global, disk: &mut MemDisk, payload: &[u8]) -> Result<(), FrameErr> {
    let Ok(mut frame) = vec![in alloc; 0; payload.len() + 36] else {
        return Err(FrameErr::Failed);
    };
    let Ok(()) = disk.reserve(alloc, frame.len() as u64) else {
        return Err(FrameErr::Failed);
    };
    frame[4..payload.len() + 4].copy_from_slice(payload);
    append_frame(disk, &mut frame)
}

#[test]
fn a_frame_has_its_length_and_its_digest(rt: HostRuntime) -> Result<(), Fail> {
    let mut disk = MemDisk::new(rt.alloc())?;
    append(rt.alloc(), &mut disk, &[4, 0, 0, 0, 1, 0, 1])?;
    assert!(rt; holds(rt.alloc(), &mut disk, &FRAME));
    Ok(())
}

// In frames of version 1 the set-up of a locking site, its first start, and a local transaction 1.0 that wrote 7 to
// key 5 with the number 2; and in one of version 2, whose digest was made by another program, the second start.
const BOTH: [u8; 84] = [
    0, 6, 1, 1, 1, 1, 0, 0, 0, 5, 2, 0, 0, 0, 1, 0, 26, 5, 0, 0, 0, 1, 0, 0, 0, 0, 0, 0, 0, 0, 2,
    0, 1, 0, 5, 0, 0, 0, 0, 0, 0, 0, 7, 0, 0, 0, 5, 2, 0, 0, 0, 2, 172, 123, 201, 46, 142, 198,
    179, 182, 110, 0, 139, 103, 251, 5, 12, 36, 179, 88, 105, 198, 91, 70, 234, 149, 65, 80, 39,
    62, 224, 77, 203, 113,
];

#[test]
fn a_journal_of_the_first_version_goes_on_in_the_second(rt: HostRuntime) -> Result<(), Fail> {
    let mut disk = disk_with(rt.alloc(), &BOTH[..43])?;
    append(rt.alloc(), &mut disk, &[2, 0, 0, 0, 2])?;
    assert!(rt; holds(rt.alloc(), &mut disk, &BOTH));
    let frames = Frames::read(rt.alloc(), &mut disk)?;
    assert!(rt; frames.len() == 4);
    assert!(rt; frames.version(2) == Version::First && frames.version(3) == Version::Second);
    Ok(())
}

// How many whole frames are read of one of version 1 and this one, of which this byte is changed.
fn read_changed(alloc: Global, place: usize) -> Result<usize, DiskErr>
    requires { place < 46 }
{
    let mut bytes = [0; 46];
    bytes[..3].copy_from_slice(&[0, 1, 9]);
    bytes[3..].copy_from_slice(&FRAME);
    bytes[place] ^= 1;
    let mut disk = disk_with(alloc, &bytes)?;
    let frames = Frames::read(alloc, &mut disk)?;
    Ok(frames.len())
}

#[test]
fn a_changed_byte_of_a_payload_or_a_digest_is_seen(rt: HostRuntime) {
    for place in 7..46 {
        let seen = read_changed(rt.alloc(), place);
        assert_eq!(rt; seen, Err(DiskErr::Damaged { at: 3 }), "at {place}");
    }
}

// A payload of version 1 has no digest.
#[test]
fn a_changed_length_may_look_like_a_torn_rest(rt: HostRuntime) {
    for (place, whole) in [(0, 0), (1, 0), (2, 2), (3, 1), (4, 2), (5, 1)] {
        assert_eq!(rt; read_changed(rt.alloc(), place), Ok(whole), "at {place}");
    }
}
