//! A disk over a file in memory, whose calls fail.
use file_disks::{FileDisk, MemFile};
use journal_disk::{Disk, Failed};
use std::alloc::Global;
use std::test::Fail;

// A write of the file takes at most so many bytes.
const MOST: usize = 3;

// An empty disk whose file fails at these calls.
fn disk_failing_at(alloc: Global, failing: &[u32]) -> Option<FileDisk<MemFile>> {
    let failing = Vec::from_slice(alloc, failing).ok()?;
    let file = MemFile::new(Vec::new(alloc), MOST, failing);
    Some(FileDisk::new(file, Vec::new(alloc)))
}

fn append(alloc: Global, disk: &mut FileDisk<MemFile>, piece: &str) -> Result<(), Failed> {
    match disk.reserve(alloc, piece.len() as u64) {
        Ok(()) => disk.append(piece.as_bytes()),
        Err(_) => Err(Failed),
    }
}

// A stop has no answer: the call behind it says whether it went through.
fn stop_and_append(alloc: Global, disk: &mut FileDisk<MemFile>, cut: u64) -> Result<(), Failed> {
    disk.stop(cut);
    append(alloc, disk, "w")
}

// Leaves the first half.
fn cut_in_half(disk: &mut FileDisk<MemFile>) -> Result<(), Failed> {
    let half = disk.len() / 2;
    disk.cut_back(half)
}

// Carries out one step of a session, by number, each of them on a disk in any state.
fn step(alloc: Global, disk: &mut FileDisk<MemFile>, number: usize) -> bool {
    let answer = match number {
        0 => append(alloc, disk, "ab"),
        2 => append(alloc, disk, "cd"),
        3 => cut_in_half(disk),
        4 => disk.trim_front(0),
        5 => stop_and_append(alloc, disk, 0),
        _ => disk.sync(),
    };
    answer.is_ok()
}

// Which of the seven steps go through where this call of the file fails.
fn steps_with(alloc: Global, failing: u32) -> Option<([bool; 7], FileDisk<MemFile>)> {
    let mut disk = disk_failing_at(alloc, &[failing])?;
    let mut answers = [false; 7];
    for number in 0..7 {
        answers[number] = step(alloc, &mut disk, number);
    }
    Some((answers, disk))
}

// The steps that go through where this call of the file fails, one digit a step, and what the file has then.
const FAILING: [(u32, [bool; 7], &str); 11] = [
    (1, [false, true, true, true, true, true, true], "cw"),
    (2, [true, false, false, false, false, false, false], "ab"),
    (3, [true, true, false, true, true, true, true], "aw"),
    (4, [true, true, true, false, false, false, false], "abcd"),
    (5, [true, true, true, false, false, false, false], "ab"),
    (6, [true, true, true, true, false, false, false], "ab"),
    (7, [true, true, true, true, true, false, false], "ab"),
    (8, [true, true, true, true, true, false, false], "ab"),
    (9, [true, true, true, true, true, false, true], "ab"),
    (10, [true, true, true, true, true, true, false], "abw"),
    (11, [true, true, true, true, true, true, true], "abw"),
];

#[test]
fn a_disk_is_lost_but_where_an_append_failed(rt: HostRuntime) -> Result<(), Fail> {
    let alloc = rt.alloc();
    for (failing, want, kept) in FAILING {
        let (answers, disk) = steps_with(alloc, failing).ok_or("no memory")?;
        assert_eq!(rt; answers, want, "call {failing}");
        assert_eq!(rt; disk.file().bytes(), kept.as_bytes(), "call {failing}");
        assert_eq!(rt; disk.calls(), 7, "each call counts, call {failing}");
    }
    Ok(())
}

// What the disk holds behind each call, and how many bytes are synced then.
const STATES: [(&str, usize); 10] = [
    ("", 0),
    ("abcd", 0),
    ("abcd", 4),
    ("abcdefgh", 4),
    ("abcdef", 6),
    ("cdef", 4),
    ("cdefxyz", 4),
    ("cdefx", 5),
    ("cdefxw", 5),
    ("cdefxw", 6),
];

// The last of these states behind each event.
const BEHIND: [usize; 8] = [0, 1, 2, 3, 5, 6, 8, 9];

// How many calls of the file the events make.
const CALLS: u32 = 13;

// Leaves the first six bytes, and then drops the first two.
fn cut_and_trim(disk: &mut FileDisk<MemFile>) -> Result<(), Failed> {
    if disk.len() < 6 {
        return Err(Failed);
    }
    disk.cut_back(6)?;
    disk.trim_front(2)
}

// The events by number, from 1.
fn event(alloc: Global, disk: &mut FileDisk<MemFile>, number: usize) -> Result<(), Failed> {
    match number {
        1 => append(alloc, disk, "abcd"),
        3 => append(alloc, disk, "efgh"),
        4 => cut_and_trim(disk),
        5 => append(alloc, disk, "xyz"),
        6 => stop_and_append(alloc, disk, 1),
        _ => disk.sync(),
    }
}

// Plays the events until one fails, and answers how many went through.
fn played(alloc: Global, disk: &mut FileDisk<MemFile>) -> usize {
    for number in 1..BEHIND.len() {
        if event(alloc, disk, number).is_err() {
            return number - 1;
        }
    }
    BEHIND.len() - 1
}

// Whether a stop in one of these states may leave this.
fn may_leave(from: usize, to: usize, left: &[u8]) -> bool {
    STATES.iter().enumerate().any(|(at, state)| from <= at
        && at <= to
        && left.len() >= state.1
        && state.0.as_bytes().starts_with(left))
}

// Plays the events on a file that does nothing more from this call on: how many went through, and the disk.
fn cut_off_at(alloc: Global, call: u32) -> Option<(usize, FileDisk<MemFile>)> {
    let mut failing = Vec::new(alloc);
    for number in call..=CALLS {
        failing.push(number).ok()?;
    }
    let mut disk = disk_failing_at(alloc, &failing)?;
    let done = played(alloc, &mut disk);
    Some((done, disk))
}

#[test]
fn each_kill_leaves_what_a_stop_leaves(rt: HostRuntime) -> Result<(), Fail> {
    let alloc = rt.alloc();
    for call in 1..=CALLS {
        let (done, disk) = cut_off_at(alloc, call).ok_or("no memory")?;
        assert!(rt; done < BEHIND.len() - 1, "no call {call} is made");
        let (from, to) = (BEHIND[done], BEHIND[done + 1]);
        assert!(rt; may_leave(from, to, disk.file().bytes()), "at call {call}");
    }
    let (done, disk) = cut_off_at(alloc, CALLS + 1).ok_or("no memory")?;
    assert_eq!(rt; done, BEHIND.len() - 1);
    assert_eq!(rt; disk.file().bytes(), b"cdefxw".as_slice());
    assert_eq!(rt; disk.file().synced(), 6);
    assert_eq!(rt; disk.file().calls(), 13);
    Ok(())
}
