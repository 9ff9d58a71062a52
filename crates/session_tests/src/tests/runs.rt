//! Runs in threads: each transaction commits, once, whatever the interleaving, and the printed commands print the same again.
use super::{called, empty_disks, replayed};
use mdb_top::{Gate, NoGate};
use std::alloc::Global;
use std::process::Abort;
use std::sync::Wait;
use std::test::Fail;
use std::thread::Threads;

// Six transactions at three sites of three rules and protocols, with a message lost, one repeated, one held back, and a stop. Each adds to
// what it reads, so the tables are the same in every serial order.
pub(super) const SIX: &str = "site 1 locking nothing
site 2 timestamp abort
site 3 validation commit
global 1 1/get:1 1/add:1:0:1 2/get:1 2/add:1:1:1
global 2 2/get:1 2/add:1:0:10 3/get:1 3/add:1:1:10
global 3 3/get:1 3/add:1:0:100 1/get:1 1/add:1:1:100
local 4 1 get:1 add:1:0:1000
local 5 2 get:1 add:1:0:1000
local 6 3 get:1 add:1:0:1000
link to 1 0 drop
link from 2 1 twice
link to 3 2 hold:3
stop 2 4 0
";

/// The status of `run` on this scenario with this gate, and what was put.
pub(super) fn ran<R: Threads + Wait + Sync + AllocGlobal, G: Gate + Sync>(
    rt: &R,
    scenario: &str,
    gate: &G,
) -> Result<(u8, String), Fail> {
    let mut disks = empty_disks(rt.alloc())?;
    let (status, put) = called(rt, &["run"], scenario.as_bytes(), (0, 0), &mut disks, gate)?;
    match str::from_utf8(&put) {
        Ok(text) => Ok((status, String::from_str(rt.alloc(), text)?)),
        Err(_) => Err(Fail::from("a text is put")),
    }
}

/// How many lines are this one.
fn count_of(output: &str, wanted: &str) -> u32 {
    let mut count: u32 = 0;
    for line in output.lines() {
        if line == wanted {
            count = count.saturating_add(1);
        }
    }
    count
}

/// How often the order names an attempt of this transaction.
fn times_ordered(output: &str, tx: &str) -> u32 {
    let mut count: u32 = 0;
    for line in output.lines() {
        if let Some(tids) = line.strip_prefix("order") {
            for tid in tids.split_whitespace() {
                if let Some((named, _)) = tid.split_once('.') {
                    if named == tx {
                        count = count.saturating_add(1);
                    }
                }
            }
        }
    }
    count
}

#[test]
fn six_transactions_commit_in_threads(rt: HostRuntime) -> Result<(), Fail> {
    let (status, output) = ran(&rt, SIX, &NoGate)?;
    assert_eq!(rt; status, 0, "{output}");
    for tx in ["1", "2", "3", "4", "5", "6"] {
        assert_eq!(rt; times_ordered(&output, tx), 1, "{output}");
    }
    for line in [
        "trip 2 4 0 => set",
        "table 1 1=1101",
        "table 2 1=1011",
        "table 3 1=1110",
        "end",
    ] {
        assert_eq!(rt; count_of(&output, line), 1, "{output}");
    }
    Ok(())
}

/// The scenario with the commands of the printed lines.
fn session_of(alloc: Global, scenario: &str, output: &str) -> Result<String, Fail> {
    let mut session = String::from_str(alloc, scenario)?;
    session.push_str("commands\n")?;
    for line in output.lines() {
        if let Some((command, _)) = line.split_once(" => ") {
            session.push_str(command)?;
            session.push('\n')?;
        }
    }
    Ok(session)
}

/// Whether both print the same but for the edges of a cycle.
fn print_alike(one: &str, other: &str) -> bool {
    let mut lines = other.lines();
    for line in one.lines() {
        let Some(again) = lines.next() else {
            return false;
        };
        let cut = match line.split_once(" cycle ") {
            Some((front, _)) => front,
            None => line,
        };
        if line != again && !(cut.len() < line.len() && again.starts_with(cut)) {
            return false;
        }
    }
    lines.next().is_none()
}

/// The printed commands of a run of this scenario, given to `replay` with it, print the same but for the edges of a cycle.
fn is_replayed(
    rt: &(impl Abort + Threads + Wait + Sync + AllocGlobal),
    scenario: &str,
) -> Result<(), Fail> {
    let (status, output) = ran(rt, scenario, &NoGate)?;
    assert_eq!(rt; status, 0, "{output}");
    let session = session_of(rt.alloc(), scenario, &output)?;
    let (status, again) = replayed(rt, session.as_bytes())?;
    assert_eq!(rt; status, 0);
    match str::from_utf8(&again) {
        Ok(again) => assert!(rt; print_alike(&output, again), "{output}{again}"),
        Err(_) => return Err(Fail::from("a text is put")),
    }
    Ok(())
}

#[test]
fn the_printed_commands_print_the_same_again(rt: HostRuntime) -> Result<(), Fail> {
    is_replayed(&rt, SIX)
}

#[test]
fn a_scenario_of_nothing_runs(rt: HostRuntime) -> Result<(), Fail> {
    let (status, output) = ran(&rt, "", &NoGate)?;
    assert_eq!(rt; status, 0);
    assert_eq!(rt; output.as_str(), "order\nforgotten\nend\n");
    Ok(())
}

#[test]
fn a_run_has_no_commands(rt: HostRuntime) -> Result<(), Fail> {
    let (status, output) = ran(&rt, "site 1 locking nothing\ncommands\n", &NoGate)?;
    assert_eq!(rt; status, 2);
    assert_eq!(rt; output.as_str(), "bad line 2 word\n");
    Ok(())
}
