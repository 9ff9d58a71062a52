//! The lines of a report that are due behind its order.
ghost use Rattle.std.specs.Prelude.{◌≡◌, ◌++◌, IfOk, OnOk, map};
ghost use Rattle.audit_rules.specs.Agreement.{Reads, Ends, Forgets, Shows, Last, entries};
ghost use Rattle.audit_text.specs.Lines.{due_line};

use audit_rules::What;
use fed_rules::{Outcome, Report, TxReads};
use mdb_base::{ListOf, Memory, SiteRows, Tid, put_text};
use report_text::{put_forgotten, put_outcome, put_reads, put_table};
use std::alloc::Global;

/// A line that is due, and why another one in its place differs.
#[derive(Drop)]
pub(crate) struct DueLine {
    pub what: What,
    /// Its bytes, with its line feed.
    pub bytes: ListOf<u8>,
}

fn due_reads(alloc: Global, reads: &TxReads) -> Result<DueLine, Memory>
    ensures { IfOk result (λ due. due ≡ due_line (Reads reads.now)) }
{
    let mut bytes = Vec::new(alloc);
    put_reads(&mut bytes, reads)?;
    Ok(DueLine {
        what: What::Reads,
        bytes: ListOf::of(bytes),
    })
}

fn due_outcome(alloc: Global, outcome: Outcome) -> Result<DueLine, Memory>
    ensures { IfOk result (λ due. due ≡ due_line (Ends outcome)) }
{
    let mut bytes = Vec::new(alloc);
    put_outcome(&mut bytes, outcome)?;
    Ok(DueLine {
        what: What::Outcome,
        bytes: ListOf::of(bytes),
    })
}

fn due_forgotten(alloc: Global, tids: &[Tid]) -> Result<DueLine, Memory>
    ensures { IfOk result (λ due. due ≡ due_line (Forgets tids.now)) }
{
    let mut bytes = Vec::new(alloc);
    put_forgotten(&mut bytes, tids)?;
    Ok(DueLine {
        what: What::Forgotten,
        bytes: ListOf::of(bytes),
    })
}

fn due_table(alloc: Global, table: &SiteRows) -> Result<DueLine, Memory>
    ensures { IfOk result (λ due. due ≡ due_line (Shows table.now)) }
{
    let mut bytes = Vec::new(alloc);
    put_table(&mut bytes, table)?;
    Ok(DueLine {
        what: What::Table,
        bytes: ListOf::of(bytes),
    })
}

fn due_end(alloc: Global) -> Result<DueLine, Memory>
    ensures { IfOk result (λ due. due ≡ due_line Last) }
{
    let mut bytes = Vec::new(alloc);
    put_text(&mut bytes, "end\n")?;
    Ok(DueLine {
        what: What::Form,
        bytes: ListOf::of(bytes),
    })
}

fn put_all_reads(alloc: Global, all: &[TxReads], due: &mut Vec<DueLine>) -> Result<(), Memory>
    ensures { OnOk result (due.new.items ≡ due.old.items ++ map due_line (map Reads all.now)) }
{
    for reads in all {
        due.push(due_reads(alloc, reads)?)?;
    }
    Ok(())
}

fn put_outcomes(alloc: Global, outcomes: &[Outcome], due: &mut Vec<DueLine>) -> Result<(), Memory>
    ensures { OnOk result (due.new.items ≡ due.old.items ++ map due_line (map Ends outcomes.now)) }
{
    for outcome in outcomes {
        due.push(due_outcome(alloc, *outcome)?)?;
    }
    Ok(())
}

fn put_tables(alloc: Global, tables: &[SiteRows], due: &mut Vec<DueLine>) -> Result<(), Memory>
    ensures { OnOk result (due.new.items ≡ due.old.items ++ map due_line (map Shows tables.now)) }
{
    for table in tables {
        due.push(due_table(alloc, table)?)?;
    }
    Ok(())
}

/// The lines of the report that are due behind its order, in their order.
pub(crate) fn due_lines(alloc: Global, report: &Report) -> Result<Vec<DueLine>, Memory>
    ensures { IfOk result (λ due. due.items ≡ map due_line (entries report.now)) }
{
    let mut due = Vec::new(alloc);
    put_all_reads(alloc, report.reads.as_slice(), &mut due)?;
    put_outcomes(alloc, report.outcomes.as_slice(), &mut due)?;
    due.push(due_forgotten(alloc, report.forgotten.as_slice())?)?;
    put_tables(alloc, report.tables.as_slice(), &mut due)?;
    due.push(due_end(alloc)?)?;
    Ok(due)
}
