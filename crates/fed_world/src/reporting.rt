//! The report of a world's session.
ghost use Rattle.std.specs.Prelude.{◌≡◌, ◌<◌, IfOk, Some, length, slice_get};
ghost use Rattle.mdb_base.specs.declared.names.SiteId.{SiteId as TheSite};
ghost use Rattle.fed_rules.specs.Reports.{report_of, tables};
ghost use Rattle.fed_rules.specs.Scenarios.{sites};
ghost use Rattle.fed_rules.specs.Sessions.{fresh};
ghost use Rattle.fed_rules.specs.Story.{story_in, story_of};
ghost use Rattle.session_report.specs.InOrder.{IsReportIn};
ghost use Rattle.fed_world.specs.Reporting as reporting;
ghost use Rattle.fed_world.specs.Worlds.{AnyStory, EachStory, EachWhere, Recalls, Rests, SomeStory};

use crate::world::World;
use fed_rules::Report;
use mdb_base::{Memory, SiteRows, Tid, Tx};
use session_report::{report, report_in};
use std::alloc::Global;

impl World {
    /// The rows of the site at this place, in a session at rest.
    fn rows_at(&self, alloc: Global, place: usize) -> Result<SiteRows, Memory>
        requires cores { place < length self.now.cores.sites.items.items }
        requires channels { place < length self.now.traffic.items }
        ensures { IfOk result (λ rows. EachWhere (Recalls self.now) Rests (λ session commands. (site : TheSite) → slice_get (sites session.plan) place ≡ Some site → rows ≡ reporting.rows_at session.plan (story_in session commands) site)) }
    {
        let rows = self.cores.sites.at(place).core().rows(alloc)?;
        Ok(SiteRows {
            site: self.traffic[place].site,
            rows,
        })
    }

    /// The rows of each site, by rising site, in a session at rest.
    pub(crate) fn tables(&self, alloc: Global) -> Result<Vec<SiteRows>, Memory>
        requires { SomeStory (Recalls self.now) AnyStory }
        ensures { IfOk result (λ rows. EachWhere (Recalls self.now) Rests (λ session commands. rows.items ≡ tables session.plan (story_in session commands))) }
    {
        let mut tables = Vec::new(alloc);
        for place in 0..self.traffic.len() {
            let rows = self.rows_at(alloc, place)?;
            tables.push(rows)?;
        }
        Ok(tables)
    }

    /// The committed attempt of a global transaction, where the coordinator is up.
    fn committed(&self, tx: Tx) -> Option<Tid>
        ensures { reporting.Tells self.now tx result }
    {
        let coordinator = &self.cores.coordinator;
        coordinator.core().committed(tx)
    }

    /// The report of a session at rest. Where the session goes on from disks, it has no order and no reads: nothing is known of those of what
    /// committed before.
    pub fn report(&self, alloc: Global) -> Result<Report, Memory>
        requires { SomeStory (Recalls self.now) Rests }
        ensures reported { IfOk result (λ report. EachWhere (Recalls self.now) Rests (λ session commands. report ≡ reporting.report_for session (story_in session commands))) }
        ensures fresh { IfOk result (λ report. EachStory (λ scenario. Recalls self.now (fresh scenario)) (λ scenario commands. report ≡ report_of scenario (story_of scenario commands))) }
    {
        match &self.begun {
            None => self.fresh_report(alloc),
            Some(begun) => self.found_report(alloc, begun.as_slice()),
        }
    }

    /// The report of a session at rest that began with empty disks.
    fn fresh_report(&self, alloc: Global) -> Result<Report, Memory>
        requires { SomeStory (λ scenario. Recalls self.now (fresh scenario)) (λ scenario. Rests (fresh scenario)) }
        ensures { IfOk result (λ report. EachStory (λ scenario. Recalls self.now (fresh scenario)) (λ scenario commands. report ≡ report_of scenario (story_of scenario commands))) }
    {
        let tables = self.tables(alloc)?;
        let committed = |tx: Tx|
            ensures { reporting.Tells self.entry.now tx result }
        { self.committed(tx) };
        report(
            alloc,
            &self.cores.scenario,
            self.lines.as_slice(),
            self.traffic.as_slice(),
            self.cores.marks.as_slice(),
            tables,
            &committed,
        )
    }

    /// The report of a session at rest that began with empty disks, in this order in place of the least merge: none where it isn't a merge of
    /// the site orders.
    pub fn report_in(&self, alloc: Global, order: &[Tid]) -> Result<Option<Report>, Memory>
        requires { SomeStory (λ scenario. Recalls self.now (fresh scenario)) (λ scenario. Rests (fresh scenario)) }
        ensures { IfOk result (λ report. EachStory (λ scenario. Recalls self.now (fresh scenario)) (λ scenario commands. IsReportIn scenario (story_of scenario commands) order.now report)) }
    {
        let tables = self.tables(alloc)?;
        let committed = |tx: Tx|
            ensures { reporting.Tells self.entry.now tx result }
        { self.committed(tx) };
        report_in(
            alloc,
            &self.cores.scenario,
            self.lines.as_slice(),
            self.traffic.as_slice(),
            self.cores.marks.as_slice(),
            tables,
            &committed,
            order,
        )
    }
}
