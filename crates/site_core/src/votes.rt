//! The vote of a site on a subtransaction: its run is sealed, its Prepared record is forced, and the site is in doubt of it.
ghost use Rattle.std.specs.Prelude.{◌≡◌, ◌+◌, ℕ, None, Some, IfOk, IfErr, IsTrue};
ghost use Rattle.mdb_base.specs.Counts.{HasCauseOf};
ghost use Rattle.fed_rules.specs.Site.{of_prepare, unless_tripped};
ghost use Rattle.fed_rules.specs.declared.answers.Answer.TheVariants as Say;
ghost use Rattle.fed_rules.specs.declared.messages.FromSite.TheVariants as From;
ghost use Rattle.fed_rules.specs.declared.messages.ToSite.TheVariants as To;
ghost use Rattle.prepared_state.specs.Book.{doubt_about};
ghost use Rattle.site_book.specs.Book.{live_in};
ghost use Rattle.site_core.specs.Operations.{finished_ticket};
ghost use Rattle.site_core.specs.Sealing.{HasFinished, StandsSealing};
ghost use Rattle.site_core.specs.Stands.{Answers, Breaks, Stands, calls_for};
ghost use Rattle.site_core.specs.Steps.{AnswersWhere, BreaksWhere, CanPrepare, EachPast, SomePast};

use crate::answers::says;
use crate::site::SiteCore;
use actor_store::{Break, Standing, StepErr};
use engine_contract::{LocalEngine, SealErr, Sealed};
use fed_rules::{Answer, Doubt, FromSite, SiteEvent, SiteRecord, SiteStep};
use journal_disk::Disk;
use mdb_base::{Tid, Why};
use site_journal::SiteJournal;
use std::alloc::Global;

impl<E: LocalEngine> SiteCore<E> {
    /// Votes on a subtransaction: again with its ticket where it was sealed in this epoch of the site, else yes where it is live, has
    /// finished so many operations with its ticket among them, and its sealing isn't refused.
    pub(crate) fn prepare<D: Disk>(
        &mut self,
        alloc: Global,
        disk: &mut D,
        tid: Tid,
        epoch: u32,
        n: u8,
    ) -> Result<SiteStep, StepErr>
        requires told { IsTrue D.tells }
        requires up { self.old.store.standing ≡ Standing.Up }
        requires may { SomePast (Stands E.stands D.tells self.old (D.seen disk.old)) (CanPrepare tid) }
        ensures answered { IfOk result (AnswersWhere E.stands D.tells self.old (D.seen disk.old) self.new (D.seen disk.new) (CanPrepare tid) (λ home past. unless_tripped home past (of_prepare home past tid epoch n))) }
        ensures failed { IfErr result (BreaksWhere E.stands D.tells self.old (D.seen disk.old) self.new (D.seen disk.new) (CanPrepare tid) (SiteEvent.Give (To.Prepare tid epoch n))) }
        ensures cause { HasCauseOf StepErr.Disk (D.seen disk.old).faults (D.seen disk.new).faults result }
    {
        if let Some(doubt) = self.doubts.doubtful(tid) {
            if doubt.epoch == epoch {
                return Ok(votes_yes(tid, doubt.ticket));
            }
            return Ok(votes_no(tid, None));
        }
        let Some(ticket) = self.finished_ticket(tid, epoch, n) else {
            return Ok(votes_no(tid, None));
        };
        match self.engine.seal(alloc, tid) {
            Ok(sealed) => self.record_vote(alloc, disk, tid, sealed, ticket),
            Err(SealErr::Refused(why)) => {
                self.book.close(tid);
                Ok(votes_no(tid, Some(why)))
            }
            Err(SealErr::Memory) => Err(StepErr::Memory),
        }
    }

    /// The ticket of a live attempt that has finished so many operations in this epoch of the site, the taking of it among them.
    fn finished_ticket(&self, tid: Tid, epoch: u32, n: u8) -> Option<u64>
        ensures { result ≡ finished_ticket (live_in self.now.book tid) self.now.epoch epoch n }
    {
        let Some(run) = self.book.live(tid) else {
            return None;
        };
        if epoch == self.epoch && u32::from(n) == run.done() {
            return run.ticket();
        }
        None
    }

    /// Forces the Prepared record of an attempt that is sealed and has this ticket, and votes yes: from now on the site is in doubt of
    /// it. Where there is no memory for the record or for the doubt, the sealing is taken back.
    fn record_vote<D: Disk>(
        &mut self,
        alloc: Global,
        disk: &mut D,
        tid: Tid,
        sealed: Sealed,
        ticket: u64,
    ) -> Result<SiteStep, StepErr>
        requires told { IsTrue D.tells }
        requires up { self.old.store.standing ≡ Standing.Up }
        requires apart { doubt_about tid self.old.doubts.doubts ≡ None }
        requires ticket { sealed.ticket ≡ Some ticket }
        requires may { SomePast (StandsSealing E.stands D.tells tid sealed self.old (D.seen disk.old)) (CanPrepare tid) }
        ensures answered { IfOk result (λ step. EachPast (StandsSealing E.stands D.tells tid sealed self.old (D.seen disk.old))
            (λ home past. CanPrepare tid home past → (n : ℕ) → HasFinished tid n home past → Answers E.stands D.tells 0 (D.seen disk.old) step self.new (D.seen disk.new) home past
            (unless_tripped home past (of_prepare home past tid self.old.epoch n)))) }
        ensures failed { IfErr result (λ why. EachPast (StandsSealing E.stands D.tells tid sealed self.old (D.seen disk.old))
            (λ home past. CanPrepare tid home past → (n : ℕ) → HasFinished tid n home past → Breaks E.stands D.tells (0 + calls_for home past (SiteEvent.Give (To.Prepare tid self.old.epoch n))) (D.seen disk.old) why self.new (D.seen disk.new) home past (SiteEvent.Give (To.Prepare tid self.old.epoch n)))) }
        ensures cause { HasCauseOf StepErr.Disk (D.seen disk.old).faults (D.seen disk.new).faults result }
    {
        let Ok(()) = self.doubts.reserve(alloc) else {
            self.engine.unseal(tid);
            return Err(StepErr::Memory);
        };
        let Sealed {
            number,
            ticket: _,
            writes,
        } = sealed;
        let entry = SiteRecord::Prepared {
            tid,
            epoch: self.epoch,
            number,
            ticket,
            writes,
        };
        let bytes = SiteJournal::frame_len(&entry);
        let Ok(()) = self.store.make_room(alloc, disk, 1, bytes) else {
            self.engine.unseal(tid);
            return Err(StepErr::Memory);
        };
        match self.store.force(disk, entry) {
            Ok(()) => {
                self.book.seal(tid);
                self.doubts.add(Doubt {
                    tid,
                    epoch: self.epoch,
                    ticket,
                });
                Ok(votes_yes(tid, ticket))
            }
            Err(Break::Stopped(kept)) => Ok(says(Answer::Stopped(kept))),
            Err(Break::Failed) => Err(StepErr::Disk),
        }
    }
}

/// A yes vote with the ticket.
fn votes_yes(tid: Tid, ticket: u64) -> SiteStep
    ensures { result ≡ record { answer = Say.VotesYes tid ticket; sends = Some (From.Vote tid (Some ticket)) } }
{
    SiteStep {
        answer: Answer::VotesYes(tid, ticket),
        sends: Some(FromSite::Vote {
            tid,
            yes: Some(ticket),
        }),
    }
}

/// A no vote, with what refused the sealing, if that was it.
fn votes_no(tid: Tid, why: Option<Why>) -> SiteStep
    ensures { result ≡ record { answer = Say.VotesNo tid why; sends = Some (From.Vote tid None) } }
{
    SiteStep {
        answer: Answer::VotesNo(tid, why),
        sends: Some(FromSite::Vote { tid, yes: None }),
    }
}
