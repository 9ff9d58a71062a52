//! The summary of a made scenario that was carried out.
ghost use Rattle.std.specs.Prelude.{◌≡◌, ◌%◌, ◌^◌, ◌++◌, IfOk, OnOk, count_by, decimal, is_none, is_some};
ghost use Rattle.report_text.specs.Summaries as summaries;
ghost use Rattle.report_text.specs.Summaries.{is_global_commit, is_local_commit};
ghost use Rattle.session_outputs.specs.Summing.{line_of};

use fed_rules::{CoordRecord, SiteRecord, TxLine};
use mdb_base::{Memory, Put, put_number, put_text};
use std::alloc::Global;

/// What was made, and what the journals on the disks say of it.
#[derive(Clone, Copy, Debug, PartialEq, Eq)]
pub(crate) struct Summary {
    pub sites: u64,
    pub globals: u64,
    pub locals: u64,
    /// Records of commits: the local ones of the sites, and the global ones of the coordinator.
    pub committed: u64,
    /// The sum of all values in the tables of the sites, modulo 2^64.
    pub total: u64,
}

/// Appends a name and a number.
fn put_named(out: &mut Vec<u8>, name: &str, number: u64) -> Result<(), Memory>
    ensures { OnOk result (out.new.items ≡ out.old.items ++ name.now ++ decimal number) }
{
    put_text(out, name)?;
    put_number(out, number)
}

/// The summary as a line.
pub(crate) fn summary_line(alloc: Global, summary: Summary) -> Result<Vec<u8>, Memory>
    ensures { IfOk result (λ text. text.items ≡ line_of summary) }
{
    let mut text = Vec::new(alloc);
    put_named(&mut text, "sites ", summary.sites)?;
    put_named(&mut text, " globals ", summary.globals)?;
    put_named(&mut text, " locals ", summary.locals)?;
    put_named(&mut text, " committed ", summary.committed)?;
    put_named(&mut text, " total ", summary.total)?;
    put_text(&mut text, "\n")?;
    Ok(text)
}

/// How many of the transactions are global ones.
pub(crate) fn globals(lines: &[TxLine]) -> usize
    ensures { result ≡ count_by (λ line. is_none line.home) lines.now }
{
    lines.iter().filter(|line| line.home.is_none()).count()
}

/// How many of the transactions are local ones.
pub(crate) fn locals(lines: &[TxLine]) -> usize
    ensures { result ≡ count_by (λ line. is_some line.home) lines.now }
{
    lines.iter().filter(|line| line.home.is_some()).count()
}

/// Whether the record is the commit of a local transaction.
fn is_local(entry: &SiteRecord) -> bool
    ensures { result ≡ is_local_commit entry.now }
{
    matches!(entry, SiteRecord::Local { .. })
}

/// How many of a site's records are commits of local transactions.
pub(crate) fn local_commits(records: &[SiteRecord]) -> usize
    ensures { result ≡ count_by is_local_commit records.now }
{
    records.iter().filter(|entry| is_local(entry)).count()
}

/// Whether the record is the commit of a global transaction.
fn is_global(entry: &CoordRecord) -> bool
    ensures { result ≡ is_global_commit entry.now }
{
    matches!(entry, CoordRecord::Commit { .. })
}

/// How many of the coordinator's records are commits.
pub(crate) fn global_commits(records: &[CoordRecord]) -> usize
    ensures { result ≡ count_by is_global_commit records.now }
{
    records.iter().filter(|entry| is_global(entry)).count()
}

/// The values of these rows together, modulo 2^64.
pub(crate) fn rows_total(rows: &[Put]) -> u64
    ensures { result ≡ summaries.rows_total rows.now % 2 ^ 64 }
{
    let mut total: u64 = 0;
    for row in rows {
        total = total.wrapping_add(row.value);
    }
    total
}
