//! The report of a session.
ghost use Rattle.std.specs.Prelude.{◌≡◌, ◌++◌, IfOk, map};
ghost use Rattle.mdb_base.specs.declared.names.Tid.{Tid as TheTid};
ghost use Rattle.order_laws.specs.Least.{all_items};
ghost use Rattle.fed_rules.specs.declared.report.TxReads.{TxReads as TheReads};
ghost use Rattle.fed_rules.specs.declared.scenario.Scenario.{Scenario as TheScenario};
ghost use Rattle.fed_rules.specs.Orders.{IsMerge};
ghost use Rattle.fed_rules.specs.Reports as reports;
ghost use Rattle.fed_rules.specs.Reports.{report_of};
ghost use Rattle.fed_rules.specs.Story.{Story};
ghost use Rattle.session_report.specs.Gathering.{IsGathered};
ghost use Rattle.session_report.specs.InOrder.{IsReportIn};
ghost use Rattle.session_report.specs.Session.{IsSession, TellsCommits, story_of_lines};
ghost use Rattle.session_report.specs.Told.{reads_told};

use crate::gathering::{Gathered, gather};
use crate::marks::Marks;
use crate::telling::Telling;
use fed_rules::{AllReads, AllRows, Line, Outcomes, Report, Scenario, TxReads};
use mdb_base::{Memory, SiteRows, Tid, Tids, Tx};
use order_merge::{is_merge, merge_orders};
use session_routes::Traffic;
use std::alloc::Global;

/// All attempts of these orders, one order after the other. There is room for so many of them.
fn members(alloc: Global, room: usize, orders: &[Tids]) -> Result<Tids, Memory>
    ensures { IfOk result (λ all. all ≡ all_items orders.now) }
{
    let mut all = Vec::with_capacity(alloc, room)?;
    for order in orders {
        all.extend_from_slice(order.as_slice())?;
    }
    Ok(Tids::of(all))
}

/// The reads of these attempts, in their order.
fn all_reads(alloc: Global, telling: &Telling, tids: &[Tid]) -> Result<Vec<TxReads>, Memory>
    ensures { IfOk result (λ reads. reads.items ≡ map (reads_told telling.now) tids.now) }
{
    let mut reads = Vec::new(alloc);
    for tid in tids {
        let member = telling.reads_of(alloc, *tid)?;
        reads.push(member)?;
    }
    Ok(reads)
}

/// The report of what is gathered, in an order that is a merge of the site orders.
fn in_order(alloc: Global, gathered: Gathered, order: Tids) -> Result<Report, Memory>
    ensures { IfOk result (λ report. (scenario : TheScenario) (story : Story) → IsGathered scenario story gathered → IsMerge scenario story order → report ≡ reports.report_in scenario story order) }
{
    let reads = all_reads(alloc, &gathered.telling, order.as_slice())?;
    Ok(Report {
        order,
        reads: AllReads::of(reads),
        outcomes: Outcomes::of(gathered.ends),
        forgotten: Tids::of(gathered.begun),
        tables: AllRows::of(gathered.tables),
    })
}

/// The report of a session that is over: from its lines, the messages of its sites, the marks of their records, and their tables.
/// `committed` tells of a global transaction the attempt for which the coordinator keeps a Commit record. It takes about n log n steps
/// for n lines.
pub fn report<F: Fn(Tx) -> Option<Tid>>(
    alloc: Global,
    scenario: &Scenario,
    lines: &[Line],
    channels: &[Traffic],
    marks: &[Marks],
    tables: Vec<SiteRows>,
    committed: &F,
) -> Result<Report, Memory>
    requires callable { F.IsAlwaysCallable committed.now }
    requires told { TellsCommits (story_of_lines scenario.now lines.now) (F.post committed.now) }
    requires session { IsSession scenario.now lines.now channels.now marks.now tables.items }
    ensures { IfOk result (λ report. report ≡ report_of scenario.now (story_of_lines scenario.now lines.now)) }
{
    let gathered = gather(alloc, scenario, lines, channels, marks, tables, committed)?;
    let orders = gathered.orders.as_slice();
    let all = members(alloc, gathered.transactions, orders)?;
    let order = merge_orders(alloc, orders, &all)?;
    let report = in_order(alloc, gathered, order)?;
    Ok(report)
}

/// The report of a session that is over, in this order in place of the least merge: none where it isn't a merge of the site orders. The other
/// arguments are those of `report`, and it takes as many steps, and those of the order.
pub fn report_in<F: Fn(Tx) -> Option<Tid>>(
    alloc: Global,
    scenario: &Scenario,
    lines: &[Line],
    channels: &[Traffic],
    marks: &[Marks],
    tables: Vec<SiteRows>,
    committed: &F,
    order: &[Tid],
) -> Result<Option<Report>, Memory>
    requires callable { F.IsAlwaysCallable committed.now }
    requires told { TellsCommits (story_of_lines scenario.now lines.now) (F.post committed.now) }
    requires session { IsSession scenario.now lines.now channels.now marks.now tables.items }
    ensures { IfOk result (IsReportIn scenario.now (story_of_lines scenario.now lines.now) order.now) }
{
    let gathered = gather(alloc, scenario, lines, channels, marks, tables, committed)?;
    if !is_merge(alloc, gathered.orders.as_slice(), order)? {
        return Ok(None);
    }
    let printed = Vec::from_slice(alloc, order)?;
    let report = in_order(alloc, gathered, Tids::of(printed))?;
    Ok(Some(report))
}
