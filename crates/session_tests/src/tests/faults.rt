//! A session of three sites in which each call of a disk, of the source and of the sink fails in turn.
ghost use Rattle.std.specs.Prelude.{◌≡◌, IfOk, length};

use super::sessions::PRESUMPTIONS;
use super::{GIVEN, TAKEN, called, empty_disks, first_lines, replayed_on};
use mdb_base::Memory;
use mdb_top::{MemDisk, NoGate};
use std::alloc::Global;
use std::process::Abort;
use std::sync::Wait;
use std::test::Fail;
use std::thread::Threads;

/// Nine empty disks, of which this one fails at this call, counted from 1; at call 0 none fails.
pub(super) fn failing_disks(alloc: Global, number: u8, call: u32) -> Result<Vec<MemDisk>, Memory>
    ensures { IfOk result (λ disks. length disks.items ≡ 9) }
{
    let mut disks = Vec::new(alloc);
    for place in 0_u8..9 {
        let failing = if place == number { call } else { 0 };
        disks.push(MemDisk::failing(alloc, &[failing])?)?;
    }
    Ok(disks)
}

// A disk, and for each of its calls in the session how many lines stand before the one that makes it; those of the set-up have none.
pub(super) const CALLS: [(u8, &[usize]); 4] = [
    // The Initiation and the Commit are forced, the End is appended.
    (0, &[4, 4, 18, 18, 23]),
    // Both records of the set-up are appended and then synced; Prepared and Ended are forced.
    (1, &[0, 0, 0, 5, 5, 20, 20]),
    (2, &[0, 0, 0, 11, 11, 22, 22]),
    // Here Ended is appended alone, twice; between them the site comes up, reads its journal and forces its Start.
    (3, &[0, 0, 0, 17, 17, 19, 25, 25, 25, 28]),
];

/// What is put of the session where this disk fails behind so many lines.
fn put_before(alloc: Global, number: u8, lines: usize) -> Result<String, Fail> {
    let mut text = first_lines(alloc, PRESUMPTIONS.1, lines)?;
    text.push_str(&format!(in alloc; "disk {number} failed\n")?)?;
    Ok(text)
}

/// The disk fails at each of its calls in turn, behind so many lines, and the session is whole where a further one fails. Gives how many
/// calls failed.
fn fails_at_each(
    rt: &(impl Abort + Threads + Wait + Sync + AllocGlobal),
    number: u8,
    calls: &[usize],
) -> Result<u32, Fail> {
    let (input, output) = PRESUMPTIONS;
    let mut call: u32 = 0;
    for lines in calls {
        call = call.saturating_add(1);
        let disks = failing_disks(rt.alloc(), number, call)?;
        let (status, put) = replayed_on(rt, input.as_bytes(), disks)?;
        let want = put_before(rt.alloc(), number, *lines)?;
        assert_eq!(rt; status, 5, "{number} {call}");
        assert_eq!(rt; put.as_slice(), want.as_bytes(), "{number} {call}");
    }
    let disks = failing_disks(rt.alloc(), number, call.saturating_add(1))?;
    let (status, put) = replayed_on(rt, input.as_bytes(), disks)?;
    assert_eq!(rt; status, 0, "{number}");
    assert_eq!(rt; put.as_slice(), output.as_bytes(), "{number}");
    Ok(call)
}

/// 29 failed calls: 5 of the coordinator, 7 of each of the sites 1 and 2, and 10 of site 3.
#[test]
fn each_disk_fails_at_each_of_its_calls(rt: HostRuntime) -> Result<(), Fail> {
    let mut failed: u32 = 0;
    for (number, calls) in CALLS.iter() {
        failed = failed.saturating_add(fails_at_each(&rt, *number, calls)?);
    }
    assert_eq!(rt; failed, 29);
    Ok(())
}

/// 5 failed reads: one for each piece of the input, and one for its end.
#[test]
fn each_read_fails(rt: HostRuntime) -> Result<(), Fail> {
    let (input, output) = PRESUMPTIONS;
    let mut failed: usize = 0;
    for call in 1_u32..100 {
        let mut disks = empty_disks(rt.alloc())?;
        let (status, put) = called(
            &rt,
            &["replay"],
            input.as_bytes(),
            (call, 0),
            &mut disks,
            &NoGate,
        )?;
        if status == 0 {
            assert_eq!(rt; put.as_slice(), output.as_bytes());
            assert_eq!(rt; failed, input.len().div_ceil(GIVEN).saturating_add(1));
            assert_eq!(rt; failed, 5);
            return Ok(());
        }
        assert_eq!(rt; status, 3, "{call}");
        assert_eq!(rt; put.as_slice(), b"read failed\n".as_slice(), "{call}");
        failed = failed.saturating_add(1);
    }
    Err(Fail::from("the input is short"))
}

/// A word and an input, the call of the source and that of one disk that fail (no call is 0), and the status.
#[derive(Clone, Copy)]
struct Ending {
    word: &'static str,
    input: &'static str,
    take: u32,
    number: u8,
    call: u32,
    status: u8,
}

/// The status of a call that ends so, where this call of the sink fails, and what was put.
fn ended<R: Threads + Wait + Sync + AllocGlobal>(
    rt: &R,
    ending: Ending,
    put: u32,
) -> Result<(u8, Vec<u8>), Memory> {
    let mut disks = failing_disks(rt.alloc(), ending.number, ending.call)?;
    let input = ending.input.as_bytes();
    called(
        rt,
        &[ending.word],
        input,
        (ending.take, put),
        &mut disks,
        &NoGate,
    )
}

/// The sink fails at each of its calls in turn, one for each piece of the text of this ending. The calls before have taken their pieces, and
/// the status is 4 in place of 0 and else stays. Gives how many calls failed.
fn sink_fails(
    rt: &(impl Abort + Threads + Wait + Sync + AllocGlobal),
    ending: Ending,
) -> Result<usize, Fail> {
    let (status, text) = ended(rt, ending, 0)?;
    assert_eq!(rt; status, ending.status);
    let then = if status == 0 { 4 } else { status };
    let pieces = text.len().div_ceil(TAKEN);
    let mut taken: usize = 0;
    for call in 1_u32..1_000 {
        let (failed, put) = ended(rt, ending, call)?;
        if put.len() == text.len() {
            assert_eq!(rt; taken, pieces);
            assert_eq!(rt; failed, status);
            return Ok(taken);
        }
        assert_eq!(rt; failed, then, "{call}");
        assert_eq!(rt; put.len(), taken.saturating_mul(TAKEN), "{call}");
        assert!(rt; text.starts_with(&put), "{call}");
        taken = taken.saturating_add(1);
    }
    Err(Fail::from("the text is short"))
}

/// The whole output of the session.
fn done() -> Ending {
    Ending {
        word: "replay",
        input: PRESUMPTIONS.0,
        take: 0,
        number: 0,
        call: 0,
        status: 0,
    }
}

/// Another word, a bad line, a failed read, and a failed disk behind lines of the session.
fn refusals() -> [Ending; 4] {
    let done = done();
    let other_word = Ending {
        word: "replays",
        status: 1,
        ..done
    };
    let bad_line = Ending {
        input: "site 1 locking nothing\nsites 2\n",
        status: 2,
        ..done
    };
    let read_failed = Ending {
        take: 2,
        status: 3,
        ..done
    };
    let disk_failed = Ending {
        number: 3,
        call: 10,
        status: 5,
        ..done
    };
    [other_word, bad_line, read_failed, disk_failed]
}

/// 98 failed writes of the output.
#[test]
fn each_write_of_an_output_fails(rt: HostRuntime) -> Result<(), Fail> {
    assert_eq!(rt; sink_fails(&rt, done())?, 98);
    Ok(())
}

/// 101 failed writes of the texts of four refusals: 10, 2, 2 and 87.
#[test]
fn each_write_of_a_refusal_fails(rt: HostRuntime) -> Result<(), Fail> {
    let mut failed: usize = 0;
    for ending in refusals() {
        failed = failed.saturating_add(sink_fails(&rt, ending)?);
    }
    assert_eq!(rt; failed, 101);
    Ok(())
}
