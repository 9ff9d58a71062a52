//! Printed runs that are audited: those that agree, and of those that don't the first line that differs, with its reason.
use super::checkpoints::CHECKED;
use super::engines::{GRANTED, REFUSED};
use super::protocols::UNIFORM;
use super::runs::{SIX, ran};
use super::sessions::{FEDERATED, LOCAL};
use super::tickets::TICKETS;
use super::{called, empty_disks};
use mdb_top::NoGate;
use std::alloc::Global;
use std::process::Abort;
use std::sync::Wait;
use std::test::Fail;
use std::thread::Threads;

// A local transaction that reads and adds.
const ADDS: &str = "site 1 locking nothing
local 1 1 get:5 add:5:0:7
printed
begin 1 => begun 1.0
step 1 => read 5 0
step 1 => wrote 5 7
commit 1 => committed 1.0 number 2
order 1.0
reads 1.0 0
forgotten
table 1 5=7
end
";

// A text with a part in place of another one, and the verdict on it.
const EDITS: [(&str, &str, &str); 24] = [
    ("", "", "agrees\n"),
    ("read 5 0", "read 5 1", "differs at line 5 answer\n"),
    ("table 1 5=7", "table 1 5=8", "differs at line 11 table\n"),
    // Of two faults the first one is named.
    (
        "read 5 0\nstep 1 => wrote 5 7",
        "read 5 1\nstep 1 => wrote 5 8",
        "differs at line 5 answer\n",
    ),
    // A line is misspelt, or of a site that isn't declared.
    ("begin 1 =>", "begin 1 =", "differs at line 4 form\n"),
    (
        "step 1 => read",
        "halt 2 0 => stopped kept 0\nstep 1 => read",
        "differs at line 5 form\n",
    ),
    (
        "step 1 => read",
        "\nstep 1 => read",
        "differs at line 5 form\n",
    ),
    (
        "step 1 => read",
        "begin 1025 => none\nstep 1 => read",
        "differs at line 5 form\n",
    ),
    // Something is live, an actor is down, or a trip is armed.
    (
        "commit 1 => committed 1.0 number 2\n",
        "",
        "differs at line 7 open\n",
    ),
    (
        "order 1.0",
        "trip 1 5 0 => set\norder 1.0",
        "differs at line 9 open\n",
    ),
    (
        "order 1.0",
        "halt 0 1 => stopped kept 0\norder 1.0",
        "differs at line 9 open\n",
    ),
    // The order leaves one out, names one twice or one that isn't committed, or is misspelt.
    ("order 1.0", "order", "differs at line 8 order\n"),
    ("order 1.0", "order 1.0 1.0", "differs at line 8 order\n"),
    ("order 1.0", "order 1.0 1.1", "differs at line 8 order\n"),
    ("order 1.0", "order  1.0", "differs at line 8 form\n"),
    ("order 1.0", "orders 1.0", "differs at line 8 form\n"),
    ("order 1.0\n", "", "differs at line 8 form\n"),
    // A line of the report is another one, is missing, or is one too many.
    ("reads 1.0 0", "reads 1.0 1", "differs at line 9 reads\n"),
    ("forgotten\n", "", "differs at line 10 forgotten\n"),
    (
        "forgotten\n",
        "outcome 1.0 commit\nforgotten\n",
        "differs at line 10 forgotten\n",
    ),
    ("end\n", "", "differs at line 12 form\n"),
    ("end\n", "end", "differs at line 12 form\n"),
    ("end\n", "end\nend\n", "differs at line 13 form\n"),
    // There is no line `printed`.
    (
        "printed\nbegin 1 => begun 1.0\nstep 1 => read 5 0\nstep 1 => wrote 5 7\ncommit 1 => committed 1.0 number 2\norder 1.0\nreads 1.0 0\nforgotten\ntable 1 5=7\nend\n",
        "",
        "differs at line 3 form\n",
    ),
];

// Two sites with a local transaction each, which no site puts in an order.
const APART: &str = "site 1 locking nothing
site 2 locking nothing
local 1 1 set:1:7
local 2 2 get:1
printed
begin 1 => begun 1.0
step 1 => wrote 1 7
commit 1 => committed 1.0 number 2
begin 2 => begun 2.0
step 2 => read 1 0
commit 2 => committed 2.0 number 2
order 1.0 2.0
reads 1.0
reads 2.0 0
forgotten
table 1 1=7
table 2
end
";

const ORDERS: [(&str, &str, &str); 4] = [
    ("", "", "agrees\n"),
    (
        "order 1.0 2.0\nreads 1.0\nreads 2.0 0",
        "order 2.0 1.0\nreads 2.0 0\nreads 1.0",
        "agrees\n",
    ),
    (
        "order 1.0 2.0\nreads 1.0\nreads 2.0 0",
        "order 2.0 1.0\nreads 1.0\nreads 2.0 0",
        "differs at line 13 reads\n",
    ),
    (
        "order 1.0 2.0\nreads 1.0\nreads 2.0 0",
        "order 1.0\nreads 1.0",
        "differs at line 12 order\n",
    ),
];

// The refusal of the second of two globals whose tickets cross.
const CYCLES: [(&str, &str, &str); 7] = [
    ("", "", "agrees\n"),
    // Any cycle through the refused attempt may be named, also twice round.
    (
        "cycle 2.0>1.0@2 1.0>2.0@1",
        "cycle 2.0>1.0@2 1.0>2.0@1 2.0>1.0@2 1.0>2.0@1",
        "agrees\n",
    ),
    // No edge closes it, it goes over another site, or it goes through another attempt.
    (
        "cycle 2.0>1.0@2 1.0>2.0@1",
        "cycle 2.0>1.0@2",
        "differs at line 31 cycle\n",
    ),
    (
        "cycle 2.0>1.0@2 1.0>2.0@1",
        "cycle 2.0>1.0@1 1.0>2.0@1",
        "differs at line 31 cycle\n",
    ),
    (
        "cycle 2.0>1.0@2 1.0>2.0@1",
        "cycle 1.0>2.0@1 2.0>1.0@2",
        "differs at line 31 cycle\n",
    ),
    // The answer is compared before the places, and the places before the edges.
    (
        "cycle 2.0>1.0@2 1.0>2.0@1 sends 1/7 2/7",
        "cycle 2.0>1.0@2 sends 1/7",
        "differs at line 31 places\n",
    ),
    (
        "cycle 2.0>1.0@2 1.0>2.0@1 sends 1/7 2/7",
        "site 1 no sends 1/7",
        "differs at line 31 answer\n",
    ),
];

/// The lines of a session's scenario, the line `printed`, and this output.
fn submitted(alloc: Global, input: &str, output: &str) -> Result<String, Fail> {
    let mut text = String::new(alloc);
    for line in input.lines() {
        if line == "commands" {
            break;
        }
        text.push_str(line)?;
        text.push('\n')?;
    }
    text.push_str("printed\n")?;
    text.push_str(output)?;
    Ok(text)
}

/// The text with a part in place of another one, which stands in it once.
fn edited(alloc: Global, text: &str, old: &str, new: &str) -> Result<String, Fail> {
    if old.is_empty() {
        return Ok(String::from_str(alloc, text)?);
    }
    match text.split_once(old) {
        Some((front, rest)) => Ok(format!(in alloc; "{front}{new}{rest}")?),
        None => Err(Fail::from("the part stands there")),
    }
}

/// `audit` of this text puts that one and has the status that goes with it.
fn audited<R: Abort + Threads + Wait + Sync + AllocGlobal>(
    rt: &R,
    text: &str,
    verdict: &str,
) -> Result<(), Fail> {
    let mut disks = empty_disks(rt.alloc())?;
    let (status, put) = called(rt, &["audit"], text.as_bytes(), (0, 0), &mut disks, &NoGate)?;
    assert_eq!(rt; put.as_slice(), verdict.as_bytes(), "{text}");
    let wanted = if verdict == "agrees\n" { 0 } else { 9 };
    assert_eq!(rt; status, wanted, "{text}");
    Ok(())
}

/// So it is with each edit of a text.
fn all_audited<R: Abort + Threads + Wait + Sync + AllocGlobal>(
    rt: &R,
    text: &str,
    edits: &[(&str, &str, &str)],
) -> Result<(), Fail> {
    for (old, new, verdict) in edits {
        let other = edited(rt.alloc(), text, old, new)?;
        audited(rt, &other, verdict)?;
    }
    Ok(())
}

/// What these sessions print agrees with their scenarios.
fn all_agree<R: Abort + Threads + Wait + Sync + AllocGlobal>(
    rt: &R,
    sessions: &[(&str, &str)],
) -> Result<(), Fail> {
    for (input, output) in sessions {
        let text = submitted(rt.alloc(), input, output)?;
        audited(rt, &text, "agrees\n")?;
    }
    Ok(())
}

#[test]
fn the_first_line_that_differs_is_named(rt: HostRuntime) -> Result<(), Fail> {
    all_audited(&rt, ADDS, &EDITS)
}

#[test]
fn any_merge_of_the_site_orders_agrees(rt: HostRuntime) -> Result<(), Fail> {
    all_audited(&rt, APART, &ORDERS)
}

#[test]
fn any_cycle_through_the_refused_attempt_agrees(rt: HostRuntime) -> Result<(), Fail> {
    let (input, output) = FEDERATED[2];
    let text = submitted(rt.alloc(), input, output)?;
    all_audited(&rt, &text, &CYCLES)
}

#[test]
fn what_a_session_prints_agrees(rt: HostRuntime) -> Result<(), Fail> {
    all_agree(&rt, &LOCAL)?;
    all_agree(&rt, &FEDERATED)?;
    all_agree(&rt, &TICKETS)?;
    all_agree(&rt, &REFUSED)?;
    all_agree(&rt, &GRANTED)?;
    all_agree(&rt, &UNIFORM)?;
    all_agree(&rt, &CHECKED)
}

#[test]
fn what_a_run_prints_agrees(rt: HostRuntime) -> Result<(), Fail> {
    let (status, put) = ran(&rt, SIX, &NoGate)?;
    assert_eq!(rt; status, 0);
    let text = submitted(rt.alloc(), SIX, &put)?;
    audited(&rt, &text, "agrees\n")
}

/// Texts that aren't audited, with the status and what is put.
const REFUSALS: [(&str, u8, &str); 3] = [
    ("site 9 locking abort\nprinted\n", 2, "bad line 1 range\n"),
    ("site 1 locking abort\nprinted x\n", 2, "bad line 2 word\n"),
    ("site 1 locking abort\nprinted", 2, "bad line 2 ending\n"),
];

#[test]
fn a_bad_scenario_is_named(rt: HostRuntime) -> Result<(), Fail> {
    for (text, status, output) in REFUSALS.iter() {
        let mut disks = empty_disks(rt.alloc())?;
        let (ended, put) = called(
            &rt,
            &["audit"],
            text.as_bytes(),
            (0, 0),
            &mut disks,
            &NoGate,
        )?;
        assert_eq!(rt; ended, *status, "{text}");
        assert_eq!(rt; put.as_slice(), output.as_bytes(), "{text}");
    }
    Ok(())
}
