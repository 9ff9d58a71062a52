//! A session of three sites that stops at each of its disk calls, and goes on from what the disks held; and stops at each disk call of its
//! going on.
use super::called;
use super::faults::{CALLS, failing_disks};
use super::journals::{report_by, returns_by};
use super::sessions::PRESUMPTIONS;
use super::stopped::{disks_with, left_on, resumed};
use super::trips::settles_as_it_comes_out;
use mdb_top::NoGate;
use std::process::Abort;
use std::sync::Wait;
use std::test::Fail;
use std::thread::Threads;

/// What was put up to a stop, and what the disks held then.
#[derive(Drop)]
struct Stopped {
    put: String,
    journals: Vec<Vec<u8>>,
}

/// The session in which this disk fails at this call, counted from 1; at call 0 none does. Then each disk stops with this cut.
fn stopped_at(
    rt: &(impl Abort + Threads + Wait + Sync + AllocGlobal),
    number: u8,
    call: u32,
    cut: u64,
) -> Result<Stopped, Fail> {
    let alloc = rt.alloc();
    let mut disks = failing_disks(alloc, number, call)?;
    let input = PRESUMPTIONS.0.as_bytes();
    let (status, put) = called(rt, &["replay"], input, (0, 0), &mut disks, &NoGate)?;
    assert_eq!(rt; status == 5, call != 0, "{number} {call}");
    let Ok(put) = str::from_utf8(&put) else {
        return Err(Fail::from("a text is put"));
    };
    let put = String::from_str(alloc, put)?;
    let journals = left_on(alloc, &mut disks, cut)?;
    Ok(Stopped { put, journals })
}

/// The session goes on: the actors come back as their journals say, it ends with this report, and each line that settles the attempt, before
/// the stop or behind it, says its outcome. Gives what is put, and what the disks hold once each stops with this cut.
fn goes_on(
    rt: &(impl Abort + Threads + Wait + Sync + AllocGlobal),
    stopped: &Stopped,
    report: &str,
    cut: u64,
) -> Result<Stopped, Fail> {
    let alloc = rt.alloc();
    let returns = returns_by(alloc, &stopped.journals)?;
    let before = &stopped.put;
    let mut disks = disks_with(alloc, &stopped.journals, 0, 0)?;
    let (status, put) = resumed(rt, &mut disks)?;
    let both = format!(in alloc; "{before}{put}")?;
    assert_eq!(rt; status, 0, "{both}");
    assert!(rt; put.starts_with(returns.as_str()), "{both}");
    assert!(rt; put.ends_with(report), "{both}");
    assert!(rt; settles_as_it_comes_out(alloc, &both)?, "{both}");
    let journals = left_on(alloc, &mut disks, cut)?;
    Ok(Stopped { put, journals })
}

/// What is reported of a stop by its journals. An attempt whose commit was printed before has a Commit record.
fn report_of(rt: &(impl Abort + AllocGlobal), stopped: &Stopped) -> Result<String, Fail> {
    let report = report_by(rt.alloc(), &stopped.journals)?;
    let commits = report.starts_with("outcome 1.0 commit\n");
    assert!(rt;
        commits || !stopped.put.contains("decides commit"),
        "{report}"
    );
    Ok(report)
}

/// 90 stops: at each of 29 calls of four disks, and behind the end, each with three cuts. The session goes on from each, and once more from
/// what that left, and reports the same.
#[test]
fn a_session_goes_on_behind_each_stop(rt: HostRuntime) -> Result<(), Fail> {
    let mut stops: u32 = 0;
    for (number, calls) in CALLS.iter() {
        let first: u32 = if *number == 0 { 0 } else { 1 };
        for call in first..=calls.len() as u32 {
            for cut in [0_u64, 1, 65_535] {
                let stopped = stopped_at(&rt, *number, call, cut)?;
                let report = report_of(&rt, &stopped)?;
                let left = goes_on(&rt, &stopped, &report, cut)?;
                goes_on(&rt, &left, &report, cut)?;
                stops = stops.saturating_add(1);
            }
        }
    }
    assert_eq!(rt; stops, 90);
    Ok(())
}

/// The cut of the stop at this call of a going on.
fn cut_at(call: u32) -> u64 {
    match call % 3 {
        0 => 0,
        1 => 1,
        _ => 65_535,
    }
}

/// The session goes on, and this disk fails at this call: what is put is a front of what is put where none fails, and then the disk. The
/// session goes on from there and reports the same. Says whether there was such a call.
fn fails_going_on(
    rt: &(impl Abort + Threads + Wait + Sync + AllocGlobal),
    stopped: &Stopped,
    whole: &str,
    number: usize,
    call: u32,
) -> Result<bool, Fail> {
    let alloc = rt.alloc();
    let mut disks = disks_with(alloc, &stopped.journals, number, call)?;
    let (status, put) = resumed(rt, &mut disks)?;
    if status == 0 {
        assert_eq!(rt; put.as_str(), whole, "{number} {call}");
        return Ok(false);
    }
    let told = format!(in alloc; "disk {number} failed\n")?;
    assert_eq!(rt; status, 5, "{number} {call}");
    assert!(rt;
        put.strip_suffix(told.as_str())
            .is_some_and(|lines| whole.starts_with(lines)),
        "{put}"
    );
    let cut = cut_at(call);
    let journals = left_on(alloc, &mut disks, cut)?;
    let failed = Stopped { put, journals };
    goes_on(rt, &failed, &report_of(rt, stopped)?, cut)?;
    Ok(true)
}

/// Each disk of the session fails in turn at each of its calls while it goes on from this stop. Gives how many calls failed.
fn fails_at_each(
    rt: &(impl Abort + Threads + Wait + Sync + AllocGlobal),
    stopped: &Stopped,
) -> Result<usize, Fail> {
    let whole = goes_on(rt, stopped, &report_of(rt, stopped)?, 0)?;
    let mut failed: usize = 0;
    for number in 0..4_usize {
        for call in 1_u32..1_000 {
            if !fails_going_on(rt, stopped, &whole.put, number, call)? {
                break;
            }
            failed = failed.saturating_add(1);
        }
    }
    Ok(failed)
}

/// The session stops at each call of this disk, and each call of its going on fails in turn. Each but the three stops within a set-up has at
/// least ten of these: the coordinator reads its disk, and each site reads its own, appends a record and syncs it.
fn outcomes_stay(
    rt: &(impl Abort + Threads + Wait + Sync + AllocGlobal),
    disk: (u8, &[usize]),
) -> Result<(), Fail> {
    let (number, lines) = disk;
    let mut call: u32 = 0;
    for line in lines {
        call = call.saturating_add(1);
        let stopped = stopped_at(rt, number, call, 65_535)?;
        let failed = fails_at_each(rt, &stopped)?;
        assert!(rt; failed >= 10 || *line == 0, "{number} {call} {failed}");
    }
    Ok(())
}

#[test]
fn a_going_on_that_fails_changes_no_outcome(rt: HostRuntime) -> Result<(), Fail> {
    outcomes_stay(&rt, CALLS[0])?;
    outcomes_stay(&rt, CALLS[1])
}

#[test]
fn nor_does_it_where_the_second_site_failed(rt: HostRuntime) -> Result<(), Fail> {
    outcomes_stay(&rt, CALLS[2])
}

#[test]
fn nor_does_it_where_the_third_site_failed(rt: HostRuntime) -> Result<(), Fail> {
    outcomes_stay(&rt, CALLS[3])
}
