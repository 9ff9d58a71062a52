//! Whether a printed order is one: its programs, run alone one after another, read and leave what is printed.
use super::checkpoints::CHECKED;
use super::engines::{GRANTED, REFUSED};
use super::limits::EIGHT_SITES;
use super::protocols::UNIFORM;
use super::replayed;
use super::sessions::{FEDERATED, LOCAL};
use super::tickets::TICKETS;
use mdb_base::{Program, Puts, SiteId, SiteRows, Tid, Tx};
use scenario_text::{Scenario, read_commands};
use serial_machine::{AllTables, Reads, run_serial};
use std::alloc::Global;
use std::process::Abort;
use std::sync::Wait;
use std::test::Fail;
use std::thread::Threads;

/// The attempt that a word of the order names.
fn tid_of(word: &str) -> Result<Tid, Fail> {
    match word.split_once('.') {
        Some((tx, attempt)) => Ok(Tid {
            tx: Tx(tx.parse::<u32>()?),
            attempt: attempt.parse::<u8>()?,
        }),
        None => Err(Fail::from("a tid has two parts")),
    }
}

/// The attempts that the printed order names.
fn printed_order(alloc: Global, output: &str) -> Result<Vec<Tid>, Fail> {
    let mut order = Vec::new(alloc);
    for line in output.lines() {
        if let Some(tids) = line.strip_prefix("order") {
            for word in tids.split_whitespace() {
                order.push(tid_of(word)?)?;
            }
        }
    }
    Ok(order)
}

/// The printed lines of reads and tables.
fn printed_values(alloc: Global, output: &str) -> Result<String, Fail> {
    let mut text = String::new(alloc);
    for line in output.lines() {
        if line.starts_with("reads") || line.starts_with("table") {
            text.push_str(line)?;
            text.push('\n')?;
        }
    }
    Ok(text)
}

/// The program of a declared transaction.
fn program_of(alloc: Global, scenario: &Scenario, tx: Tx) -> Result<Program, Fail> {
    for line in scenario.transactions.as_slice() {
        if line.tx == tx {
            return Ok(Program::new(alloc, line.program.steps())?);
        }
    }
    Err(Fail::from("the order names what is declared"))
}

/// The tables of the items.
fn first_tables(alloc: Global, scenario: &Scenario) -> Result<AllTables, Fail> {
    let mut rows = Vec::new(alloc);
    for item in scenario.items.as_slice() {
        rows.push(SiteRows {
            site: item.site,
            rows: Puts::of(vec![in alloc; item.put]?),
        })?;
    }
    Ok(AllTables::new(alloc, &rows)?)
}

/// Prints what each program read.
fn put_reads(alloc: Global, text: &mut String, order: &[Tid], reads: &Reads) -> Result<(), Fail> {
    for (tid, values) in order.iter().zip(reads.as_slice()) {
        text.push_str(&format!(in alloc; "reads {}.{}", tid.tx.0, tid.attempt)?)?;
        for value in values.as_slice() {
            text.push_str(&format!(in alloc; " {value}")?)?;
        }
        text.push('\n')?;
    }
    Ok(())
}

/// Prints the rows of a site.
fn put_table(
    alloc: Global,
    text: &mut String,
    tables: &AllTables,
    site: SiteId,
) -> Result<(), Fail> {
    text.push_str(&format!(in alloc; "table {}", site.0)?)?;
    for row in tables.rows(alloc, site)?.as_slice() {
        text.push_str(&format!(in alloc; " {}={}", row.key.0, row.value)?)?;
    }
    text.push('\n')?;
    Ok(())
}

/// What the programs of this order read and leave, run alone one after another, as it would be printed.
fn serial_values(alloc: Global, scenario: &Scenario, order: &[Tid]) -> Result<String, Fail> {
    let mut programs = Vec::new(alloc);
    for tid in order {
        programs.push(program_of(alloc, scenario, tid.tx)?)?;
    }
    let mut tables = first_tables(alloc, scenario)?;
    let reads = run_serial(alloc, &programs, &mut tables)?;
    let mut text = String::new(alloc);
    put_reads(alloc, &mut text, order, &reads)?;
    for number in 1..=8_u8 {
        let site = SiteId(number);
        if scenario
            .sites
            .as_slice()
            .iter()
            .any(|line| line.site == site)
        {
            put_table(alloc, &mut text, &tables, site)?;
        }
    }
    Ok(text)
}

/// Whether the order of this output gives its reads and its tables, and those of no other attempt.
pub(super) fn is_serial(alloc: Global, input: &str, output: &str) -> Result<bool, Fail> {
    let scenario = read_commands(alloc, input.as_bytes())?.scenario;
    let order = printed_order(alloc, output)?;
    let serial = serial_values(alloc, &scenario, &order)?;
    let printed = printed_values(alloc, output)?;
    Ok(serial.as_bytes() == printed.as_bytes())
}

/// Whether the order that is printed of a session gives what is printed of it.
fn prints_serial<R: Threads + Wait + Sync + AllocGlobal>(
    rt: &R,
    input: &str,
) -> Result<bool, Fail> {
    let (status, put) = replayed(rt, input.as_bytes())?;
    if status != 0 {
        return Err(Fail::from("the session is carried out"));
    }
    match str::from_utf8(&put) {
        Ok(output) => is_serial(rt.alloc(), input, output),
        Err(_) => Err(Fail::from("a text is put")),
    }
}

/// What is printed of these sessions is what their orders give.
fn are_serial(
    rt: &(impl Abort + Threads + Wait + Sync + AllocGlobal),
    sessions: &[(&'static str, &'static str)],
) -> Result<(), Fail> {
    for (input, _) in sessions {
        assert!(rt; prints_serial(rt, input)?, "{input}");
    }
    Ok(())
}

#[test]
fn the_order_of_a_site_gives_the_reads_and_the_table(rt: HostRuntime) -> Result<(), Fail> {
    are_serial(&rt, &LOCAL)?;
    are_serial(&rt, &REFUSED)?;
    are_serial(&rt, &GRANTED)?;
    are_serial(&rt, &CHECKED)
}

#[test]
fn the_order_of_a_federation_gives_the_reads_and_the_tables(rt: HostRuntime) -> Result<(), Fail> {
    are_serial(&rt, &FEDERATED)?;
    are_serial(&rt, &TICKETS)?;
    are_serial(&rt, &UNIFORM)?;
    are_serial(&rt, &[EIGHT_SITES])
}

// Two locals read and write one key.
const COUNTED: &str = "site 1 locking abort
item 1 5 100
local 1 1 get:5 add:5:0:1
local 2 1 get:5 add:5:0:20
";

// Of these the first one is right; the others have another order, a read less, another read, another table, or an attempt too few.
const REPORTS: [(&str, bool); 6] = [
    (
        "order 1.0 2.0\nreads 1.0 100\nreads 2.0 101\ntable 1 5=121\n",
        true,
    ),
    (
        "order 2.0 1.0\nreads 1.0 100\nreads 2.0 101\ntable 1 5=121\n",
        false,
    ),
    (
        "order 1.0 2.0\nreads 1.0 100\nreads 2.0\ntable 1 5=121\n",
        false,
    ),
    (
        "order 1.0 2.0\nreads 1.0 100\nreads 2.0 100\ntable 1 5=121\n",
        false,
    ),
    (
        "order 1.0 2.0\nreads 1.0 100\nreads 2.0 101\ntable 1 5=120\n",
        false,
    ),
    (
        "order 1.0\nreads 1.0 100\nreads 2.0 101\ntable 1 5=121\n",
        false,
    ),
];

#[test]
fn another_order_read_or_table_is_seen(rt: HostRuntime) -> Result<(), Fail> {
    for (report, right) in REPORTS.iter() {
        assert_eq!(rt; is_serial(rt.alloc(), COUNTED, report)?, *right, "{report}");
    }
    Ok(())
}
