//! A session in which a trip stops each actor behind each of its disk calls.
use super::replayed;
use super::serial_order::is_serial;
use super::sessions::PRESUMPTIONS;
use std::alloc::Global;
use std::process::Abort;
use std::sync::Wait;
use std::test::Fail;
use std::thread::Threads;

/// The session with this command before its own.
fn begun_with(alloc: Global, command: &str) -> Result<String, Fail> {
    match PRESUMPTIONS.0.split_once("commands\n") {
        Some((scenario, rest)) => {
            Ok(format!(in alloc; "{scenario}commands\n{command}\n{rest}")?)
        }
        None => Err(Fail::from("the session has commands")),
    }
}

/// What a line that settles an attempt says of it: the attempt and the decision.
fn settled_in(line: &str) -> Option<&str> {
    let (_, told) = line.split_once("=> settles ")?;
    match told.split_once(" sends") {
        Some((settled, _)) => Some(settled),
        None => Some(told),
    }
}

/// Whether each attempt that settles at a site settles as it comes out.
pub(super) fn settles_as_it_comes_out(alloc: Global, output: &str) -> Result<bool, Fail> {
    for line in output.lines() {
        if let Some(settled) = settled_in(line) {
            let outcome = format!(in alloc; "\noutcome {settled}\n")?;
            if !output.contains(outcome.as_str()) {
                return Ok(false);
            }
        }
    }
    Ok(true)
}

/// What a trip did to the session.
enum Effect {
    /// No stop: the lines are those of the session.
    None,
    Commits,
    Aborts,
}

/// What this trip does to the session, which is carried out to a report that its order gives.
fn tripped(
    rt: &(impl Abort + Threads + Wait + Sync + AllocGlobal),
    trip: &str,
) -> Result<Effect, Fail> {
    let alloc = rt.alloc();
    let input = begun_with(alloc, trip)?;
    let (status, put) = replayed(rt, input.as_bytes())?;
    assert_eq!(rt; status, 0, "{trip}");
    let (Ok(output), Some((lines, _))) = (str::from_utf8(&put), PRESUMPTIONS.1.split_once("order"))
    else {
        return Err(Fail::from("lines and a report are put"));
    };
    assert!(rt; settles_as_it_comes_out(alloc, output)?, "{trip}");
    assert!(rt; is_serial(alloc, &input, output)?, "{trip}");
    if output.contains(lines) {
        return Ok(Effect::None);
    }
    if output.contains("\noutcome 1.0 commit\n") {
        return Ok(Effect::Commits);
    }
    assert!(rt; output.contains("\noutcome 1.0 abort\n"), "{trip}");
    Ok(Effect::Aborts)
}

/// In how many sessions a trip behind this call of this actor stops it, with each of three cuts, and in how many of these the attempt commits.
fn stops(
    rt: &(impl Abort + Threads + Wait + Sync + AllocGlobal),
    actor: u8,
    call: u32,
) -> Result<(u32, u32), Fail> {
    let mut stopped: u32 = 0;
    let mut commits: u32 = 0;
    for cut in [0_u32, 1, 65_535] {
        let trip = format!(in rt.alloc(); "trip {actor} {call} {cut}")?;
        match tripped(rt, &trip)? {
            Effect::None => {}
            Effect::Commits => {
                stopped = stopped.saturating_add(1);
                commits = commits.saturating_add(1);
            }
            Effect::Aborts => stopped = stopped.saturating_add(1),
        }
    }
    Ok((stopped, commits))
}

/// A trip of this actor behind each of these calls, with each of three cuts: so many sessions have a stop, and in so many of these the
/// attempt commits.
fn expect_stops(
    rt: &(impl Abort + Threads + Wait + Sync + AllocGlobal),
    actor: u8,
    calls: &[(u32, u32)],
) -> Result<(), Fail> {
    let mut call: u32 = 0;
    for want in calls {
        call = call.saturating_add(1);
        assert_eq!(rt; stops(rt, actor, call)?, *want, "{actor} {call}");
    }
    Ok(())
}

/// 15 stops, behind 5 calls; a sixth isn't made. Without a Commit on the disk the attempt aborts; behind the append of the Commit the cut
/// decides whether it is there.
#[test]
fn a_trip_of_the_coordinator_leaves_one_order(rt: HostRuntime) -> Result<(), Fail> {
    expect_stops(&rt, 0, &[(3, 0), (3, 0), (3, 1), (3, 3), (3, 3), (0, 0)])
}

/// 12 stops of each of the sites 1 and 2, behind 4 calls; a fifth isn't made. One that is stopped before its vote is sent makes the attempt
/// abort; the stops within the settling come behind the decision.
#[test]
fn a_trip_of_a_site_leaves_one_order(rt: HostRuntime) -> Result<(), Fail> {
    expect_stops(&rt, 1, &[(3, 0), (3, 0), (3, 3), (3, 3), (0, 0)])?;
    expect_stops(&rt, 2, &[(3, 0), (3, 0), (3, 3), (3, 3), (0, 0)])
}

/// 9 stops of site 3, of which Ended is appended alone. Its halt then disarms the trip, so behind the calls of its start and of the last
/// settling nothing stops it.
#[test]
fn a_trip_of_the_site_that_is_halted_leaves_one_order(rt: HostRuntime) -> Result<(), Fail> {
    expect_stops(
        &rt,
        3,
        &[(3, 0), (3, 0), (3, 3), (0, 0), (0, 0), (0, 0), (0, 0)],
    )
}
