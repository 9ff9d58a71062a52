//! The decision on a subtransaction: one that is sealed settles by it, and a live run of it aborts.
ghost use Rattle.std.specs.Prelude.{◌≡◌, [], ◌∷◌, cond, false, option_to_list, IfOk, IfErr, IsSome, IsTrue, Option, OnOk, OnErr};
ghost use Rattle.mdb_base.specs.Counts.{HasCauseOf};
ghost use Rattle.presumptions.specs.Table.{forces};
ghost use Rattle.fed_rules.specs.declared.answers.Answer.TheVariants as Say;
ghost use Rattle.fed_rules.specs.declared.messages.ToSite.TheVariants as To;
ghost use Rattle.fed_rules.specs.declared.records.SiteRecord.{SiteRecord};
ghost use Rattle.fed_rules.specs.Disk.{Append, Disk as RulesDisk, Sync};
ghost use Rattle.fed_rules.specs.Happenings.{Trip};
ghost use Rattle.fed_rules.specs.Site.{ack_of, of_decide, settling_line, unless_tripped};
ghost use Rattle.fed_rules.specs.SiteRecords.{Home};
ghost use Rattle.frame_journal.specs.Journal.{HasRoom, written_size};
ghost use Rattle.journal_disk.specs.Frames.{IsPayload};
ghost use Rattle.site_journal.specs.Spelling.{InRange, spelling};
ghost use Rattle.actor_store.specs.Store.{Called, Old, SomeKeptBehind, is_up};
ghost use Rattle.engine_contract.specs.Calls.{CanCommit as CanCommitRun};
ghost use Rattle.engine_contract.specs.Past.{AddsLine, SomePast as SomeLines};
ghost use Rattle.prepared_state.specs.Book.{doubt_about};
ghost use Rattle.site_core.specs.Stands.{Stands};
ghost use Rattle.site_core.specs.Steps.{AnswersWhere, BreaksWhere, CanDecide, SomePast};
ghost use Rattle.site_core.specs.Store.{Ends, KeepsBehind};

use crate::answers::says;
use crate::site::SiteCore;
use actor_store::{Break, Standing, StepErr};
use engine_contract::LocalEngine;
use fed_rules::{Answer, FromSite, SiteEvent, SiteRecord, SiteStep};
use journal_disk::Disk;
use mdb_base::{Memory, Tid};
use presumptions::{Decision, acks, forces};
use site_journal::SiteJournal;
use std::alloc::Global;

impl<E: LocalEngine> SiteCore<E> {
    /// Carries out the decision on a subtransaction.
    pub(crate) fn decide<D: Disk>(
        &mut self,
        alloc: Global,
        disk: &mut D,
        tid: Tid,
        decision: Decision,
    ) -> Result<SiteStep, StepErr>
        requires told { IsTrue D.tells }
        requires up { self.old.store.standing ≡ Standing.Up }
        requires may { SomePast (Stands E.stands D.tells self.old (D.seen disk.old)) (CanDecide tid) }
        ensures answered { IfOk result (AnswersWhere E.stands D.tells self.old (D.seen disk.old) self.new (D.seen disk.new) (CanDecide tid) (λ home past. unless_tripped home past (of_decide home past tid decision))) }
        ensures failed { IfErr result (BreaksWhere E.stands D.tells self.old (D.seen disk.old) self.new (D.seen disk.new) (CanDecide tid) (SiteEvent.Give (To.Decide tid decision))) }
        ensures cause { HasCauseOf StepErr.Disk (D.seen disk.old).faults (D.seen disk.new).faults result }
    {
        if self.doubts.doubtful(tid).is_some() {
            return self.settle(alloc, disk, tid, decision);
        }
        if self.book.live(tid).is_some() {
            self.engine.abort(tid);
            self.book.close(tid);
            return Ok(self.unheld(tid, decision));
        }
        if self.book.has_entry(tid) {
            return Ok(self.unheld(tid, decision));
        }
        match self.book.close_unheld(tid) {
            Ok(()) => Ok(self.unheld(tid, decision)),
            Err(Memory) => Err(StepErr::Memory),
        }
    }

    /// Settles a subtransaction in doubt: its Ended record is written, and its run ends by the decision.
    fn settle<D: Disk>(
        &mut self,
        alloc: Global,
        disk: &mut D,
        tid: Tid,
        decision: Decision,
    ) -> Result<SiteStep, StepErr>
        requires told { IsTrue D.tells }
        requires up { self.old.store.standing ≡ Standing.Up }
        requires doubtful { IsSome (doubt_about tid self.old.doubts.doubts) }
        requires may { SomePast (Stands E.stands D.tells self.old (D.seen disk.old)) (CanDecide tid) }
        ensures answered { IfOk result (AnswersWhere E.stands D.tells self.old (D.seen disk.old) self.new (D.seen disk.new) (CanDecide tid) (λ home past. unless_tripped home past (of_decide home past tid decision))) }
        ensures failed { IfErr result (BreaksWhere E.stands D.tells self.old (D.seen disk.old) self.new (D.seen disk.new) (CanDecide tid) (SiteEvent.Give (To.Decide tid decision))) }
        ensures cause { HasCauseOf StepErr.Disk (D.seen disk.old).faults (D.seen disk.new).faults result }
    {
        let entry = SiteRecord::Ended { tid, decision };
        let bytes = SiteJournal::frame_len(&entry);
        let Ok(()) = self.store.make_room(alloc, disk, 1, bytes) else {
            return Err(StepErr::Memory);
        };
        match self.write(disk, entry, decision) {
            Ok(()) => {
                end_run(&mut self.engine, tid, decision);
                self.book.close(tid);
                self.doubts.settle(tid);
                Ok(SiteStep {
                    answer: Answer::Settles(tid, decision),
                    sends: self.ack(tid, decision),
                })
            }
            Err(Break::Stopped(kept)) => Ok(says(Answer::Stopped(kept))),
            Err(Break::Failed) => Err(StepErr::Disk),
        }
    }

    /// Writes a record, for which there is room, and syncs it where the protocol forces it at this decision.
    fn write<D: Disk>(
        &mut self,
        disk: &mut D,
        entry: SiteRecord,
        decision: Decision,
    ) -> Result<(), Break>
        requires told { IsTrue D.tells }
        requires kept { SomeKeptBehind (KeepsBehind D.tells (D.seen disk.old) self.old.store) }
        requires up { self.old.store.standing ≡ Standing.Up }
        requires reserved { HasRoom (written_size spelling entry) self.old.store.journal }
        requires in_range { InRange entry }
        requires payload { IsPayload (spelling entry) }
        ensures ends { (old : Old SiteRecord) (rules : RulesDisk SiteRecord) (trip : Option Trip) → KeepsBehind D.tells (D.seen disk.old) self.old.store old rules trip
            → Ends (KeepsBehind D.tells (D.seen disk.new) self.new.store old) rules trip (Append entry ∷ cond (forces self.old.protocol decision) (Sync ∷ []) []) result }
        ensures called { (old : Old SiteRecord) (rules : RulesDisk SiteRecord) (trip : Option Trip) → KeepsBehind D.tells (D.seen disk.old) self.old.store old rules trip
            → Called 0 trip (Append entry ∷ cond (forces self.old.protocol decision) (Sync ∷ []) []) (D.seen disk.old) (D.seen disk.new) result }
        ensures standing { OnOk result (self.new.store.standing ≡ Standing.Up) }
        ensures down { OnErr result (is_up self.new.store.standing ≡ false) }
        ensures rest { self.new ≡ record self.old { store = self.new.store } }
        ensures cause { HasCauseOf Break.Failed (D.seen disk.old).faults (D.seen disk.new).faults result }
    {
        if forces(self.protocol, decision) {
            self.store.force(disk, entry)
        } else {
            self.store.append(disk, entry)
        }
    }

    /// The answer to a decision on what isn't in doubt.
    fn unheld(&self, tid: Tid, decision: Decision) -> SiteStep
        ensures answer { result.answer ≡ Say.Unheld tid }
        ensures sends { (home : Home) → self.now.protocol ≡ home.protocol → option_to_list result.sends ≡ ack_of home tid decision }
    {
        SiteStep {
            answer: Answer::Unheld(tid),
            sends: self.ack(tid, decision),
        }
    }

    /// The acknowledgement of a decision, where the protocol of the site sends one.
    fn ack(&self, tid: Tid, decision: Decision) -> Option<FromSite>
        ensures { (home : Home) → self.now.protocol ≡ home.protocol → option_to_list result ≡ ack_of home tid decision }
    {
        if acks(self.protocol, decision) {
            Some(FromSite::Ack { tid })
        } else {
            None
        }
    }
}

/// Ends a sealed run by the decision.
fn end_run<E: LocalEngine>(engine: &mut E, tid: Tid, decision: Decision)
    requires { SomeLines E.stands engine.old (CanCommitRun tid) }
    ensures { AddsLine E.stands engine.old (settling_line tid decision) engine.new }
{
    match decision {
        Decision::Commit => engine.commit(tid),
        Decision::Abort => engine.abort(tid),
    }
}
