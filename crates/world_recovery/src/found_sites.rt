//! Which sites there are by the journals on their disks.
ghost use Rattle.std.specs.Prelude.{◌≡◌, IfOk};
ghost use Rattle.fed_rules.specs.Plans.{AreSites};
ghost use Rattle.fed_rules.specs.Reopened.{home_by};
ghost use Rattle.fed_rules.specs.Resumed.{site_line_by};
ghost use Rattle.mdb_base.specs.Words.{map_some};
ghost use Rattle.world_recovery.specs.Reopening as reopening;

use fed_rules::{
    ItemLines, LinkLines, Scenario, SiteLine, SiteLines, SiteRecord, StopLines, TxLines,
};
use mdb_base::Memory;
use site_journal::SiteJournal;
use std::alloc::Global;

/// The line of a site by the first record of its journal.
fn first_line(first: &SiteRecord) -> Option<SiteLine>
    ensures { result ≡ map_some site_line_by (home_by first.now) }
{
    match first {
        SiteRecord::Setup {
            site,
            engine,
            protocol,
            ..
        } => Some(SiteLine {
            site: *site,
            engine: *engine,
            protocol: *protocol,
        }),
        SiteRecord::Checkpoint(sum) => Some(SiteLine {
            site: sum.site,
            engine: sum.engine,
            protocol: sum.protocol,
        }),
        _ => None,
    }
}

/// The line of a site by its records, the oldest first, where it has one.
fn line_by(records: &[SiteRecord]) -> Option<SiteLine>
    ensures { result ≡ reopening.line_by records.now }
{
    match records.split_first() {
        None => None,
        Some((first, _)) => first_line(first),
    }
}

/// The lines of the sites of these journals.
pub(crate) fn lines_by(alloc: Global, journals: &[SiteJournal]) -> Result<Vec<SiteLine>, Memory>
    ensures { IfOk result (λ lines. lines.items ≡ reopening.lines_by journals.now) }
{
    let mut lines = Vec::new(alloc);
    for journal in journals {
        if let Some(line) = line_by(journal.records()) {
            lines.push(line)?;
        }
    }
    Ok(lines)
}

/// A scenario of these sites, with neither items nor transactions.
pub(crate) fn of_sites(alloc: Global, lines: Vec<SiteLine>) -> Scenario
    requires { AreSites lines.items }
    ensures { result ≡ reopening.of_sites lines.items }
{
    Scenario {
        sites: SiteLines::of(lines),
        items: ItemLines::of(Vec::new(alloc)),
        transactions: TxLines::of(Vec::new(alloc)),
        clients: 1,
        turns: 1,
        tries: 1,
        links: LinkLines::of(Vec::new(alloc)),
        stops: StopLines::of(Vec::new(alloc)),
        conservative: false,
    }
}
