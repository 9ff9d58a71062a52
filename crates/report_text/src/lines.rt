//! The lines of a report.
ghost use Rattle.std.specs.Prelude.{◌≡◌, ◌++◌, OnOk};
ghost use Rattle.std.specs.List.{flat_map};
ghost use Rattle.report_text.specs.Spelling as spelling;
ghost use Rattle.report_text.specs.Spelling.{line_bytes, decision_text};

use crate::words::{put_next_number, put_next_tid, put_rows, put_tids, put_values};
use fed_rules::{Outcome, TxReads};
use mdb_base::{Memory, SiteRows, Tid, put_text};
use presumptions::Decision;

/// Appends the line of the serial order.
pub fn put_order(out: &mut Vec<u8>, order: &[Tid]) -> Result<(), Memory>
    ensures { OnOk result (out.new.items ≡ out.old.items ++ line_bytes (spelling.order_words order.now)) }
{
    put_text(out, "order")?;
    put_tids(out, order)?;
    put_text(out, "\n")
}

/// Appends the line of what a member read.
pub fn put_reads(out: &mut Vec<u8>, reads: &TxReads) -> Result<(), Memory>
    ensures { OnOk result (out.new.items ≡ out.old.items ++ line_bytes (spelling.reads_words reads.now)) }
{
    put_text(out, "reads")?;
    put_next_tid(out, reads.tid)?;
    put_values(out, reads.values.as_slice())?;
    put_text(out, "\n")
}

fn decision_word(decision: Decision) -> &'static str
    ensures { result.now ≡ decision_text decision }
{
    match decision {
        Decision::Commit => "commit",
        Decision::Abort => "abort",
    }
}

/// Appends the line of how a global attempt ended.
pub fn put_outcome(out: &mut Vec<u8>, outcome: Outcome) -> Result<(), Memory>
    ensures { OnOk result (out.new.items ≡ out.old.items ++ line_bytes (spelling.outcome_words outcome)) }
{
    put_text(out, "outcome")?;
    put_next_tid(out, outcome.tid)?;
    put_text(out, " ")?;
    put_text(out, decision_word(outcome.decision))?;
    put_text(out, "\n")
}

/// Appends the line of the forgotten attempts.
pub fn put_forgotten(out: &mut Vec<u8>, forgotten: &[Tid]) -> Result<(), Memory>
    ensures { OnOk result (out.new.items ≡ out.old.items ++ line_bytes (spelling.forgotten_words forgotten.now)) }
{
    put_text(out, "forgotten")?;
    put_tids(out, forgotten)?;
    put_text(out, "\n")
}

/// Appends the line of a site's rows.
pub fn put_table(out: &mut Vec<u8>, table: &SiteRows) -> Result<(), Memory>
    ensures { OnOk result (out.new.items ≡ out.old.items ++ line_bytes (spelling.table_words table.now)) }
{
    put_text(out, "table")?;
    put_next_number(out, u64::from(table.site.0))?;
    put_rows(out, table.rows.as_slice())?;
    put_text(out, "\n")
}

/// Appends a line for each member of the order.
pub fn put_all_reads(out: &mut Vec<u8>, all: &[TxReads]) -> Result<(), Memory>
    ensures { OnOk result (out.new.items ≡ out.old.items ++ flat_map (λ reads. line_bytes (spelling.reads_words reads)) all.now) }
{
    for reads in all {
        put_reads(out, reads)?;
    }
    Ok(())
}

/// Appends a line for each global attempt.
pub fn put_outcomes(out: &mut Vec<u8>, outcomes: &[Outcome]) -> Result<(), Memory>
    ensures { OnOk result (out.new.items ≡ out.old.items ++ flat_map (λ outcome. line_bytes (spelling.outcome_words outcome)) outcomes.now) }
{
    for outcome in outcomes {
        put_outcome(out, *outcome)?;
    }
    Ok(())
}

/// Appends a line for each site.
pub fn put_tables(out: &mut Vec<u8>, tables: &[SiteRows]) -> Result<(), Memory>
    ensures { OnOk result (out.new.items ≡ out.old.items ++ flat_map (λ table. line_bytes (spelling.table_words table)) tables.now) }
{
    for table in tables {
        put_table(out, table)?;
    }
    Ok(())
}
