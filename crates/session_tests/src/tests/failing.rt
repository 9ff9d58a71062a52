//! Streams that fail in the middle, and inputs about as long as the limit.
use super::{called, empty_disks};
use mdb_base::Memory;
use mdb_top::NoGate;
use std::alloc::Global;
use std::process::Abort;
use std::sync::Wait;
use std::thread::Threads;

const SESSION: &str =
    "site 1 locking nothing\nlocal 1 1 get:5 add:5:0:7\ncommands\nbegin 1\nstep 1\nstep 1\ncommit 1\n";

/// So many bytes of one kind.
fn filled(alloc: Global, byte: u8, count: usize) -> Result<Vec<u8>, Memory> {
    Ok(Vec::from_elem(alloc, byte, count)?)
}

fn session(alloc: Global) -> Result<Vec<u8>, Memory> {
    Ok(Vec::from_slice(alloc, SESSION.as_bytes())?)
}

/// The status of `replay` on these bytes where this call of the source and that one of the sink fail, and what was put.
fn ended<R: Threads + Wait + Sync + AllocGlobal>(
    rt: &R,
    input: &[u8],
    calls: (u32, u32),
) -> Result<(u8, Vec<u8>), Memory> {
    let mut disks = empty_disks(rt.alloc())?;
    called(rt, &["replay"], input, calls, &mut disks, &NoGate)
}

/// `replay` with these failing calls has this status and puts that text. There is memory.
fn expect_ended(
    rt: &(impl Abort + Threads + Wait + Sync + AllocGlobal),
    input: Result<Vec<u8>, Memory>,
    calls: (u32, u32),
    status: u8,
    output: &str,
) {
    let Ok(input) = input else {
        panic!(rt; "there is memory");
    };
    match ended(rt, &input, calls) {
        Ok((ended, put)) => {
            assert_eq!(rt; ended, status);
            assert_eq!(rt; put.as_slice(), output.as_bytes());
        }
        Err(_) => panic!(rt; "there is memory"),
    }
}

#[test]
fn a_failed_read_is_told(rt: HostRuntime) {
    expect_ended(&rt, session(rt.alloc()), (1, 0), 3, "read failed\n");
}

#[test]
fn a_failing_sink_has_got_a_front(rt: HostRuntime) {
    expect_ended(&rt, session(rt.alloc()), (0, 2), 4, "begin 1 =>");
}

#[test]
fn one_byte_above_the_limit_is_too_long(rt: HostRuntime) {
    let input = filled(rt.alloc(), b'x', 4_194_305);
    expect_ended(&rt, input, (0, 0), 7, "too long\n");
}

#[test]
fn as_many_bytes_as_the_limit_are_read(rt: HostRuntime) {
    let input = filled(rt.alloc(), b'\n', 4_194_304);
    expect_ended(&rt, input, (0, 0), 2, "bad line 1 word\n");
}

#[test]
fn a_long_line_is_refused(rt: HostRuntime) {
    let input = filled(rt.alloc(), b'x', 2_049);
    expect_ended(&rt, input, (0, 0), 2, "bad line 1 long\n");
}
