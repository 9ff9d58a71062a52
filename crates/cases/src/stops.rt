//! Stops of a session: its disks stop at one of its calls, and it goes on from what they held.
use crate::calls::{Bench, Call};
use crate::disks::{DISKS, read_journals, stop_each};
use crate::faults::{Faults, NONE};
use crate::headers::number;
use crate::printed::{front_of_failed, report_of};
use crate::streams::End;
use crate::sweeps::{CUTS, LIMIT, Whole, at, ends_so};
use crate::wrong::Wrong;
use std::sync::Wait;
use std::thread::Threads;

/// Whether it ended with this report.
fn has_report(end: End, report: &str) -> bool {
    end.status == 0 && report_of(end.output) == report
}

/// Whether the session stops at this call, at call 0 after its end. Where it doesn't stop, it ends as the whole one.
fn stops_at<R: Threads + Wait + Sync + AllocGlobal>(
    rt: &R,
    whole: Whole,
    bench: &mut Bench,
    faults: Faults,
) -> Result<bool, Wrong> {
    bench.carry_out(rt, whole.call, faults)?;
    if bench.ending.status == 5 {
        return Ok(true);
    }
    ends_so(bench.end(), whole.end, faults.call)?;
    Ok(faults.call == 0)
}

/// The session goes on from a stop with this cut, and once more, to one report. Says whether it is this one.
fn goes_on_twice<R: Threads + Wait + Sync + AllocGlobal>(
    rt: &R,
    bench: &mut Bench,
    report: &str,
    number: u32,
    cut: u32,
) -> Result<bool, Wrong> {
    bench.go_on(rt, cut)?;
    if bench.ending.status != 0 {
        return Err(at(number));
    }
    let first = String::from_str(rt.alloc(), report_of(bench.end().output))?;
    bench.go_on(rt, cut)?;
    if has_report(bench.end(), first.as_str()) {
        Ok(first.as_str() == report)
    } else {
        Err(at(number))
    }
}

/// With how many of the cuts the session goes on to its own report from a stop at this call; none where there is no such call. With each
/// cut it goes on to one report, and once more to the same one.
fn stays_with<R: Threads + Wait + Sync + AllocGlobal>(
    rt: &R,
    whole: Whole,
    bench: &mut Bench,
    faults: Faults,
) -> Result<Option<u32>, Wrong> {
    let mut stayed: u32 = 0;
    for cut in CUTS {
        if !stops_at(rt, whole, bench, faults)? {
            return Ok(None);
        }
        let report = report_of(whole.end.output);
        stayed = stayed.saturating_add(u32::from(goes_on_twice(
            rt,
            bench,
            report,
            faults.call,
            cut,
        )?));
    }
    Ok(Some(stayed))
}

/// The session stays with so many of the cuts.
fn stays_so<R: Threads + Wait + Sync + AllocGlobal>(
    rt: &R,
    whole: Whole,
    bench: &mut Bench,
    faults: Faults,
    wanted: u32,
) -> Result<(), Wrong> {
    if stays_with(rt, whole, bench, faults)? == Some(wanted) {
        Ok(())
    } else {
        Err(at(faults.call))
    }
}

/// The session stops after its end, and at each call of this disk in turn, and goes on, with its own report as often as the words say.
pub(crate) fn each_stop<R: Threads + Wait + Sync + AllocGlobal>(
    rt: &R,
    whole: Whole,
    bench: &mut Bench,
    disk: u32,
    words: &str,
) -> Result<(), Wrong> {
    stays_so(rt, whole, bench, NONE, 3)?;
    let mut call: u32 = 1;
    for word in words.split_whitespace() {
        stays_so(rt, whole, bench, Faults::of_disk(disk, call), number(word)?)?;
        call = call.saturating_add(1);
    }
    if stops_at(rt, whole, bench, Faults::of_disk(disk, call))? {
        Err(Wrong::Count(call))
    } else {
        Ok(())
    }
}

/// The cut of the stop at this call, where one stands for all.
fn cut_at(call: u32) -> u32 {
    match call % 3 {
        0 => 0,
        1 => 1,
        _ => 65_535,
    }
}

/// The session stops at this call, at call 0 after its end, and goes on twice to one report. Says whether there is such a call.
fn goes_on_at<R: Threads + Wait + Sync + AllocGlobal>(
    rt: &R,
    whole: Whole,
    bench: &mut Bench,
    faults: Faults,
) -> Result<bool, Wrong> {
    if !stops_at(rt, whole, bench, faults)? {
        return Ok(false);
    }
    goes_on_twice(rt, bench, "", faults.call, cut_at(faults.call))?;
    Ok(true)
}

/// The session stops at each call of this disk in turn, and goes on from there.
fn each_stop_of<R: Threads + Wait + Sync + AllocGlobal>(
    rt: &R,
    whole: Whole,
    bench: &mut Bench,
    disk: u32,
) -> Result<(), Wrong> {
    for call in 1..LIMIT {
        if !goes_on_at(rt, whole, bench, Faults::of_disk(disk, call))? {
            return Ok(());
        }
    }
    Err(Wrong::Count(LIMIT))
}

/// The session stops after its end, and at each call of each disk in turn, and goes on from there.
pub(crate) fn every_stop<R: Threads + Wait + Sync + AllocGlobal>(
    rt: &R,
    whole: Whole,
    bench: &mut Bench,
) -> Result<(), Wrong> {
    goes_on_at(rt, whole, bench, NONE)?;
    for disk in 0..DISKS {
        each_stop_of(rt, whole, bench, disk)?;
    }
    Ok(())
}

/// The session goes on, and this call fails: it says so, and goes on from there to the same report. Says whether there was such a call.
fn fails_going_on<R: Threads + Wait + Sync + AllocGlobal>(
    rt: &R,
    whole: Whole,
    bench: &mut Bench,
    faults: Faults,
) -> Result<bool, Wrong> {
    if !stops_at(rt, whole, bench, faults)? {
        return Ok(false);
    }
    if front_of_failed(whole.end.output, bench.end().output, faults.disk).is_none() {
        return Err(at(faults.call));
    }
    bench.go_on(rt, cut_at(faults.call))?;
    if has_report(bench.end(), report_of(whole.end.output)) {
        Ok(true)
    } else {
        Err(at(faults.call))
    }
}

/// The disk fails in turn at each of its calls while the session goes on. Gives how many calls failed.
fn each_call<R: Threads + Wait + Sync + AllocGlobal>(
    rt: &R,
    whole: Whole,
    bench: &mut Bench,
    disk: u32,
) -> Result<u32, Wrong> {
    for number in 1..LIMIT {
        if !fails_going_on(rt, whole, bench, Faults::of_disk(disk, number))? {
            return Ok(number - 1);
        }
    }
    Err(Wrong::Count(LIMIT))
}

/// Each disk fails in turn at each of its calls while the session goes on. Gives how many calls failed.
fn each_disk<R: Threads + Wait + Sync + AllocGlobal>(
    rt: &R,
    whole: Whole,
    bench: &mut Bench,
) -> Result<u32, Wrong> {
    let mut failed: u32 = 0;
    for disk in 0..DISKS {
        failed = failed.saturating_add(each_call(rt, whole, bench, disk)?);
    }
    Ok(failed)
}

/// The session goes on from these journals, and each call of each disk fails in turn. Gives how many calls failed.
fn each_going_on_from<R: Threads + Wait + Sync + AllocGlobal>(
    rt: &R,
    journals: &[Vec<u8>],
    bench: &mut Bench,
) -> Result<u32, Wrong> {
    let call = Call {
        journals,
        ..Call::new("resume x", &[])
    };
    bench.carry_out(rt, call, NONE)?;
    let output = String::from_str(rt.alloc(), bench.end().output)?;
    let end = End {
        status: bench.ending.status,
        output: output.as_str(),
    };
    each_disk(rt, Whole { call, end }, bench)
}

/// The session stops at each call of this disk in turn, and goes on, where each call of a disk fails in turn; at least so many fail in all.
pub(crate) fn each_going_on<R: Threads + Wait + Sync + AllocGlobal>(
    rt: &R,
    whole: Whole,
    bench: &mut Bench,
    disk: u32,
    words: &str,
) -> Result<(), Wrong> {
    let mut journals = Vec::new(rt.alloc());
    let mut failed: u32 = 0;
    for call in 1..LIMIT {
        if !stops_at(rt, whole, bench, Faults::of_disk(disk, call))? {
            break;
        }
        stop_each(&mut bench.disks, 65_535);
        read_journals(rt.alloc(), &mut bench.disks, &mut journals)?;
        failed = failed.saturating_add(each_going_on_from(rt, &journals, bench)?);
    }
    if failed >= number(words)? {
        Ok(())
    } else {
        Err(Wrong::Count(failed))
    }
}
