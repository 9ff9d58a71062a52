//! What is gathered of a session before its report is written.
ghost use Rattle.std.specs.Prelude.{IfOk};
ghost use Rattle.session_report.specs.Gathering.{IsGathered};
ghost use Rattle.session_report.specs.Session.{IsSession, TellsCommits, story_of_lines};

use crate::commits::{outcomes, refused};
use crate::marks::Marks;
use crate::orders::site_orders;
use crate::telling::Telling;
use fed_rules::{Line, Outcome, Scenario};
use federation_laws::federation_is_serializable;
use mdb_base::{Memory, SiteRows, Tid, Tids, Tx};
use session_routes::Traffic;
use site_history::stories_have_right_lines;
use std::alloc::Global;

/// What the lines of a session tell, the global attempts that were begun and how they ended, the orders of the sites and their tables.
#[derive(Drop)]
pub(crate) struct Gathered {
    pub(crate) telling: Telling,
    pub(crate) begun: Vec<Tid>,
    pub(crate) ends: Vec<Outcome>,
    pub(crate) orders: Vec<Tids>,
    pub(crate) tables: Vec<SiteRows>,
    /// So many transactions there are: of each at most one attempt stands in the orders.
    pub(crate) transactions: usize,
}

/// Gathers what a session that is over reports: all but the order of its attempts.
pub(crate) fn gather<F: Fn(Tx) -> Option<Tid>>(
    alloc: Global,
    scenario: &Scenario,
    lines: &[Line],
    channels: &[Traffic],
    marks: &[Marks],
    tables: Vec<SiteRows>,
    committed: &F,
) -> Result<Gathered, Memory>
    requires callable { F.IsAlwaysCallable committed.now }
    requires told { TellsCommits (story_of_lines scenario.now lines.now) (F.post committed.now) }
    requires session { IsSession scenario.now lines.now channels.now marks.now tables.items }
    ensures { IfOk result (IsGathered scenario.now (story_of_lines scenario.now lines.now)) }
{
    federation_is_serializable();
    stories_have_right_lines();
    let telling = Telling::of(alloc, channels, lines)?;
    let begun = telling.begun(alloc)?;
    let ends = outcomes(alloc, begun.as_slice(), committed)?;
    let refused = refused(alloc, ends.as_slice())?;
    let orders = site_orders(alloc, marks, &refused)?;
    Ok(Gathered {
        telling,
        begun,
        ends,
        orders,
        tables,
        transactions: scenario.transactions.len(),
    })
}
