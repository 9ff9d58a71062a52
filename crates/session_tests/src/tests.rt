//! The top call on whole inputs: what it puts, and its status.
ghost use Rattle.std.specs.Prelude.{◌≡◌, IfOk, length};

mod audits;
mod checkpoints;
mod cuts;
mod disks;
mod engines;
mod failing;
mod faults;
mod gates;
mod going_on;
mod journals;
mod large;
mod limits;
mod makes;
mod protocols;
mod refused;
mod repeats;
mod resumes;
mod runs;
mod serial_order;
mod sessions;
mod stopped;
mod stores;
mod tickets;
mod trips;
mod world_disks;

use mdb_base::Memory;
use mdb_top::{Gate, MemDisk, MemSink, MemSource, NoGate, federate, names_folder};
use std::alloc::Global;
use std::process::Abort;
use std::sync::Wait;
use std::test::Fail;
use std::thread::Threads;

/// How many bytes one call of a source gives.
const GIVEN: usize = 100;

/// How many bytes one call of a sink takes.
const TAKEN: usize = 10;

/// How many bytes a sink has room for.
const ROOM: usize = 1_048_576;

/// What words that are no command are told.
const USAGE: &[u8] =
    b"usage: mdbfed replay | run | make NUMBER SITES TRANSACTIONS | audit | store FOLDER | resume FOLDER\n";

/// Nine empty disks, of which no call fails.
fn empty_disks(alloc: Global) -> Result<Vec<MemDisk>, Memory>
    ensures { IfOk result (λ disks. length disks.items ≡ 9) }
{
    let mut disks = Vec::new(alloc);
    for _ in 0_u8..9 {
        disks.push(MemDisk::new(alloc)?)?;
    }
    Ok(disks)
}

/// The status of these words on these bytes and disks with this gate, where the call of the source with the first number fails, counted from
/// 1, and that of the sink with the second, and what was put; at call 0 none fails. Words that name a folder are for `stores::stored`.
fn called<R: Threads + Wait + Sync + AllocGlobal, G: Gate + Sync>(
    rt: &R,
    words: &[&str],
    input: &[u8],
    failing: (u32, u32),
    disks: &mut Vec<MemDisk>,
    gate: &G,
) -> Result<(u8, Vec<u8>), Memory>
    requires { length disks.old.items ≡ 9 }
    ensures { length disks.new.items ≡ 9 }
{
    let alloc = rt.alloc();
    let (take, put) = failing;
    let mut owned = Vec::new(alloc);
    for word in words {
        owned.push(String::from_str(alloc, word)?)?;
    }
    if names_folder(&owned) {
        return Err(Memory);
    }
    let takes = vec![in alloc; take]?;
    let puts = vec![in alloc; put]?;
    let mut source = MemSource::new(Vec::from_slice(alloc, input)?, GIVEN, takes);
    let mut sink = MemSink::new(alloc, ROOM, TAKEN, puts)?;
    let status = federate(rt, alloc, &owned, &mut source, &mut sink, disks, gate);
    Ok((status, Vec::from_slice(alloc, sink.written())?))
}

/// The status of `replay` on these bytes and disks, and what was put.
fn replayed_on<R: Threads + Wait + Sync + AllocGlobal>(
    rt: &R,
    input: &[u8],
    mut disks: Vec<MemDisk>,
) -> Result<(u8, Vec<u8>), Memory>
    requires { length disks.items ≡ 9 }
{
    called(rt, &["replay"], input, (0, 0), &mut disks, &NoGate)
}

/// The status of `replay` on these bytes, and what was put.
fn replayed<R: Threads + Wait + Sync + AllocGlobal>(
    rt: &R,
    input: &[u8],
) -> Result<(u8, Vec<u8>), Memory> {
    replayed_on(rt, input, empty_disks(rt.alloc())?)
}

/// How many lines end in these bytes.
fn lines_in(bytes: &[u8]) -> usize {
    let mut count: usize = 0;
    for byte in bytes {
        if *byte == b'\n' {
            count = count.saturating_add(1);
        }
    }
    count
}

/// The first lines of a text, so many of them.
fn first_lines(alloc: Global, text: &str, count: usize) -> Result<String, Fail> {
    let mut lines = String::new(alloc);
    for line in text.lines().take(count) {
        lines.push_str(line)?;
        lines.push('\n')?;
    }
    Ok(lines)
}

/// `replay` on this text puts that one and has this status. There is memory.
fn expect(
    rt: &(impl Abort + Threads + Wait + Sync + AllocGlobal),
    input: &str,
    status: u8,
    output: &str,
) {
    match replayed(rt, input.as_bytes()) {
        Ok((ended, put)) => {
            assert_eq!(rt; ended, status);
            assert_eq!(rt; put.as_slice(), output.as_bytes());
        }
        Err(_) => panic!(rt; "there is memory"),
    }
}
