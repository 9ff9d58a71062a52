//! The report of a session that goes on from disks.
ghost use Rattle.std.specs.Prelude.{◌≡◌, IfOk, map};
ghost use Rattle.fed_rules.specs.Resumed.{begun as begun_in};
ghost use Rattle.fed_rules.specs.Story.{story_in};
ghost use Rattle.fed_world.specs.Reporting as reporting;
ghost use Rattle.fed_world.specs.Beginnings.{GoesOn};
ghost use Rattle.fed_world.specs.Worlds.{AnyStory, EachWhere, Recalls, Rests, SomeStory};

use crate::world::World;
use fed_rules::{AllReads, AllRows, Outcome, Outcomes, Report};
use mdb_base::{Memory, Tid, Tids};
use presumptions::Decision;
use std::alloc::Global;

/// How an attempt ended of whose transaction this attempt committed.
fn decision_given(committed: Option<Tid>, tid: Tid) -> Decision
    ensures { result ≡ reporting.decision_given committed tid }
{
    match committed {
        None => Decision::Abort,
        Some(other) => {
            if other == tid {
                Decision::Commit
            } else {
                Decision::Abort
            }
        }
    }
}

impl World {
    /// How an attempt ended, in a session at rest.
    fn outcome_of(&self, tid: Tid) -> Outcome
        ensures { EachWhere (Recalls self.now) Rests (λ session commands. result ≡ reporting.outcome_at (story_in session commands) tid) }
    {
        let committed = self.cores.coordinator.core().committed(tid.tx);
        Outcome {
            tid,
            decision: decision_given(committed, tid),
        }
    }

    /// How these attempts ended, in a session at rest.
    fn outcomes_of(&self, alloc: Global, begun: &[Tid]) -> Result<Vec<Outcome>, Memory>
        ensures { IfOk result (λ outcomes. EachWhere (Recalls self.now) Rests (λ session commands. outcomes.items ≡ map (reporting.outcome_at (story_in session commands)) begun.now)) }
    {
        let mut outcomes = Vec::new(alloc);
        for tid in begun {
            let outcome = self.outcome_of(*tid);
            outcomes.push(outcome)?;
        }
        Ok(outcomes)
    }

    /// The report of a session at rest that goes on from disks, of which a record names these attempts.
    pub(crate) fn found_report(&self, alloc: Global, begun: &[Tid]) -> Result<Report, Memory>
        requires { SomeStory (Recalls self.now) AnyStory }
        ensures { IfOk result (λ report. EachWhere (Recalls self.now) Rests (λ session commands. begun.now ≡ begun_in session.found → GoesOn session → report ≡ reporting.found_report session.found (story_in session commands))) }
    {
        let outcomes = self.outcomes_of(alloc, begun)?;
        let forgotten = Vec::from_slice(alloc, begun)?;
        let tables = self.tables(alloc)?;
        Ok(Report {
            order: Tids::of(Vec::new(alloc)),
            reads: AllReads::of(Vec::new(alloc)),
            outcomes: Outcomes::of(outcomes),
            forgotten: Tids::of(forgotten),
            tables: AllRows::of(tables),
        })
    }
}
