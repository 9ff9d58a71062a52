//! What is asked of a site about its own transactions, which it looks up before it submits an event to its core.
ghost use Rattle.std.specs.Prelude.{ℕ, ◌≡◌, IfErr, IfOk, IsSome, IsTrue, None, Ok};
ghost use Rattle.mdb_base.specs.Counts.{HasCauseOf};
ghost use Rattle.fed_rules.specs.declared.events.SiteEvent.TheVariants as Ev;
ghost use Rattle.fed_rules.specs.Requests.{attempt, unless_begun};
ghost use Rattle.fed_rules.specs.Site.{site_line};
ghost use Rattle.local_dbms.specs.Asks.{CanAsk, FailsOn, ServesOn};
ghost use Rattle.local_dbms.specs.Stands.{Each_site, Recalls, Some_site, Stands};

use crate::asks::SiteAsk;
use crate::dbms::LocalDbms;
use crate::programs::{find, plain};
use engine_contract::LocalEngine;
use fed_rules::{Answer, SiteEvent, SiteStep};
use journal_disk::Disk;
use mdb_base::{Tid, Tx};
use site_core::StepErr;
use std::alloc::Global;

/// How many attempts a transaction has.
const MOST_ATTEMPTS: u32 = 32;

/// An answer without an event, which sends nothing.
fn declined(answer: Answer) -> Result<SiteStep, StepErr>
    ensures { result ≡ Ok (record { answer = answer; sends = None }) }
{
    Ok(SiteStep {
        answer,
        sends: None,
    })
}

impl<E: LocalEngine> LocalDbms<E> {
    /// What a begin behind the last attempt of a transaction is answered: what the rule says to a begin, but spent where one more
    /// attempt would begin.
    pub(crate) fn spent(&self, tx: Tx) -> Answer
        ensures { Each_site (Recalls E.stands self.now) (λ home programs past. IsSome (programs tx)
            → (n : ℕ) → result ≡ unless_begun (site_line home past (Ev.Begin (attempt tx n))).answer) }
    {
        if self.core.is_down() {
            return Answer::Down;
        }
        if let Some(committed) = self.core.committed(tx) {
            return Answer::Committed(committed);
        }
        if let Some(running) = self.core.running(tx) {
            return Answer::Running(running);
        }
        Answer::Spent
    }

    /// Answers `begin`: the next attempt of one of the site's own transactions begins, unless all were begun.
    pub(crate) fn begin<D: Disk>(
        &mut self,
        alloc: Global,
        disk: &mut D,
        tx: Tx,
    ) -> Result<SiteStep, StepErr>
        requires told { IsTrue D.tells }
        requires stood { Some_site (Stands E.stands D.tells self.old (D.seen disk.old)) (CanAsk (SiteAsk.Begin tx)) }
        ensures served { IfOk result (ServesOn (Stands E.stands D.tells self.old (D.seen disk.old)) (Stands E.stands D.tells self.new (D.seen disk.new)) (SiteAsk.Begin tx)) }
        ensures failed { IfErr result (FailsOn (Stands E.stands D.tells self.old (D.seen disk.old)) (Stands E.stands D.tells self.new (D.seen disk.new)) (SiteAsk.Begin tx)) }
        ensures cause { HasCauseOf StepErr.Disk (D.seen disk.old).faults (D.seen disk.new).faults result }
    {
        if find(&self.programs, tx).is_none() {
            return declined(Answer::None);
        }
        let begun = self.core.begun(tx);
        if begun >= MOST_ATTEMPTS {
            let answer = self.spent(tx);
            return declined(answer);
        }
        let tid = Tid {
            tx,
            attempt: begun as u8,
        };
        self.core.step(alloc, disk, SiteEvent::Begin(tid))
    }

    /// Answers `step`: the running attempt of a transaction does the next step of its program.
    pub(crate) fn step<D: Disk>(
        &mut self,
        alloc: Global,
        disk: &mut D,
        tx: Tx,
    ) -> Result<SiteStep, StepErr>
        requires told { IsTrue D.tells }
        requires stood { Some_site (Stands E.stands D.tells self.old (D.seen disk.old)) (CanAsk (SiteAsk.Step tx)) }
        ensures served { IfOk result (ServesOn (Stands E.stands D.tells self.old (D.seen disk.old)) (Stands E.stands D.tells self.new (D.seen disk.new)) (SiteAsk.Step tx)) }
        ensures failed { IfErr result (FailsOn (Stands E.stands D.tells self.old (D.seen disk.old)) (Stands E.stands D.tells self.new (D.seen disk.new)) (SiteAsk.Step tx)) }
        ensures cause { HasCauseOf StepErr.Disk (D.seen disk.old).faults (D.seen disk.new).faults result }
    {
        let Some(program) = find(&self.programs, tx) else {
            return declined(Answer::None);
        };
        if self.core.is_down() {
            return declined(Answer::Down);
        }
        let Some(tid) = self.core.running(tx) else {
            return declined(Answer::Idle);
        };
        let Some(noted) = self.core.live(tid) else {
            return declined(Answer::Idle);
        };
        let done = noted.done() as usize;
        if done >= program.len() {
            return declined(Answer::End);
        }
        let act = plain(program.at(done).act, noted.reads());
        self.core.step(alloc, disk, SiteEvent::Act { tid, act })
    }

    /// Answers `commit`: the running attempt of a transaction commits, once every step is done.
    pub(crate) fn commit<D: Disk>(
        &mut self,
        alloc: Global,
        disk: &mut D,
        tx: Tx,
    ) -> Result<SiteStep, StepErr>
        requires told { IsTrue D.tells }
        requires stood { Some_site (Stands E.stands D.tells self.old (D.seen disk.old)) (CanAsk (SiteAsk.Commit tx)) }
        ensures served { IfOk result (ServesOn (Stands E.stands D.tells self.old (D.seen disk.old)) (Stands E.stands D.tells self.new (D.seen disk.new)) (SiteAsk.Commit tx)) }
        ensures failed { IfErr result (FailsOn (Stands E.stands D.tells self.old (D.seen disk.old)) (Stands E.stands D.tells self.new (D.seen disk.new)) (SiteAsk.Commit tx)) }
        ensures cause { HasCauseOf StepErr.Disk (D.seen disk.old).faults (D.seen disk.new).faults result }
    {
        let Some(program) = find(&self.programs, tx) else {
            return declined(Answer::None);
        };
        if self.core.is_down() {
            return declined(Answer::Down);
        }
        let Some(tid) = self.core.running(tx) else {
            return declined(Answer::Idle);
        };
        let Some(noted) = self.core.live(tid) else {
            return declined(Answer::Idle);
        };
        if (noted.done() as usize) < program.len() {
            return declined(Answer::Unfinished);
        }
        self.core.step(alloc, disk, SiteEvent::Commit(tid))
    }

    /// Answers `abort`: the running attempt of a transaction ends.
    pub(crate) fn abort<D: Disk>(
        &mut self,
        alloc: Global,
        disk: &mut D,
        tx: Tx,
    ) -> Result<SiteStep, StepErr>
        requires told { IsTrue D.tells }
        requires stood { Some_site (Stands E.stands D.tells self.old (D.seen disk.old)) (CanAsk (SiteAsk.Abort tx)) }
        ensures served { IfOk result (ServesOn (Stands E.stands D.tells self.old (D.seen disk.old)) (Stands E.stands D.tells self.new (D.seen disk.new)) (SiteAsk.Abort tx)) }
        ensures failed { IfErr result (FailsOn (Stands E.stands D.tells self.old (D.seen disk.old)) (Stands E.stands D.tells self.new (D.seen disk.new)) (SiteAsk.Abort tx)) }
        ensures cause { HasCauseOf StepErr.Disk (D.seen disk.old).faults (D.seen disk.new).faults result }
    {
        if find(&self.programs, tx).is_none() {
            return declined(Answer::None);
        }
        if self.core.is_down() {
            return declined(Answer::Down);
        }
        let Some(tid) = self.core.running(tx) else {
            return declined(Answer::Idle);
        };
        if self.core.live(tid).is_none() {
            return declined(Answer::Idle);
        }
        self.core.step(alloc, disk, SiteEvent::Abort(tid))
    }

    /// Answers `fate`.
    pub(crate) fn fate<D: Disk>(
        &mut self,
        alloc: Global,
        disk: &mut D,
        tx: Tx,
    ) -> Result<SiteStep, StepErr>
        requires told { IsTrue D.tells }
        requires stood { Some_site (Stands E.stands D.tells self.old (D.seen disk.old)) (CanAsk (SiteAsk.Fate tx)) }
        ensures served { IfOk result (ServesOn (Stands E.stands D.tells self.old (D.seen disk.old)) (Stands E.stands D.tells self.new (D.seen disk.new)) (SiteAsk.Fate tx)) }
        ensures failed { IfErr result (FailsOn (Stands E.stands D.tells self.old (D.seen disk.old)) (Stands E.stands D.tells self.new (D.seen disk.new)) (SiteAsk.Fate tx)) }
        ensures cause { HasCauseOf StepErr.Disk (D.seen disk.old).faults (D.seen disk.new).faults result }
    {
        if find(&self.programs, tx).is_none() {
            return declined(Answer::None);
        }
        self.core.step(alloc, disk, SiteEvent::Fate(tx))
    }
}
