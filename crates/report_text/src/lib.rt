//! The report of a finished session as text, and its lines one by one.
#![tactic(auto)]

ghost use Rattle.std.specs.Prelude.{◌≡◌, ◌++◌, OnOk, OnErr, IfOk};
ghost use Rattle.report_text.specs.Spelling.{report_bytes, rest_bytes};

mod lines;
mod words;

pub use fed_rules::{AllReads, AllRows, Outcome, Outcomes, Report, TxReads};
pub use lines::{put_forgotten, put_outcome, put_reads, put_table};
use mdb_base::{Memory, put_text};
use std::alloc::Global;

/// Appends the lines of a report that stand behind the reads: the outcomes, the forgotten ones, the tables, and `end`.
pub fn put_rest(out: &mut Vec<u8>, report: &Report) -> Result<(), Memory>
    ensures { OnOk result (out.new.items ≡ out.old.items ++ rest_bytes report.now) }
{
    lines::put_outcomes(out, report.outcomes.as_slice())?;
    lines::put_forgotten(out, report.forgotten.as_slice())?;
    lines::put_tables(out, report.tables.as_slice())?;
    put_text(out, "end\n")
}

fn report_text(alloc: Global, report: &Report) -> Result<Vec<u8>, Memory>
    ensures { IfOk result (λ text. text.items ≡ report_bytes report.now) }
{
    let mut text = Vec::new(alloc);
    lines::put_order(&mut text, report.order.as_slice())?;
    lines::put_all_reads(&mut text, report.reads.as_slice())?;
    put_rest(&mut text, report)?;
    Ok(text)
}

/// Appends the report, a line feed behind each line: the order, the reads of its members, the outcomes of global attempts, the
/// forgotten ones, the tables of the sites, and `end` (this project's profile). An `Err` changes nothing.
pub fn print_report(alloc: Global, report: &Report, out: &mut Vec<u8>) -> Result<(), Memory>
    ensures ok { OnOk result (out.new.items ≡ out.old.items ++ report_bytes report.now) }
    ensures err { OnErr result (out.new.items ≡ out.old.items) }
{
    let text = report_text(alloc, report)?;
    out.extend_from_slice(&text)?;
    Ok(())
}
