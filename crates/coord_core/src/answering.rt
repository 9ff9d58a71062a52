//! The messages of sites.
ghost use Rattle.std.specs.Prelude.{◌≡◌, Bool, true, IfErr, IfOk, IsOkAnd, IsTrue};
ghost use Rattle.mdb_base.specs.Counts.{HasCauseOf};
ghost use Rattle.fed_rules.specs.CoordPast.{CoordPast};
ghost use Rattle.mdb_base.specs.Words.{holds_of};
ghost use Rattle.global_exec.specs.Counted.{counts, is_answer};
ghost use Rattle.global_exec.specs.Live.{live_of};
ghost use Rattle.mdb_base.specs.declared.names.Tid.{Tid as TheTid};
ghost use Rattle.global_exec.specs.Pasts.{IsAmong};
ghost use Rattle.journal_disk.specs.Disk.{Seen};
ghost use Rattle.coord_tables.specs.Replies.{CountsReply, reply_event};
ghost use Rattle.coord_core.specs.Refusals.{is_refusal};
ghost use Rattle.coord_core.specs.Stands.{Stands, Steps};
ghost use Rattle.coord_core.specs.Steps.{CanStep, FailsOn, FailsWhere, SomePast, StepsOn, StepsWhere};
ghost use Rattle.coord_tables.specs.Terms.{Terms, line_of};

use crate::coord::{CoordCore, ignored, says};
use crate::sending::let_through;
use actor_store::{Standing, StepErr};
use coord_tables::{Taken, some_held};
use fed_rules::{Answer, Cause, CoordEvent, CoordStep, FromSite};
use global_exec::TakePolicy;
use journal_disk::Disk;
use mdb_base::{Memory, Reply, SiteId, Tid, Why};
use std::alloc::Global;

impl<P: TakePolicy> CoordCore<P> {
    /// An answer of a site that counts, other than a wait and a refusal: what became outstanding by it is sent.
    fn go_on<D: Disk>(
        &mut self,
        alloc: Global,
        disk: &mut D,
        tid: Tid,
        taken: Taken,
    ) -> Result<CoordStep, StepErr>
        requires told { IsTrue D.tells }
        requires up { self.old.store.standing ≡ Standing.Up }
        requires answers { is_answer taken.reply ≡ true }
        requires may { SomePast (Stands P.policy D.tells self.old (D.seen disk.old)) (CountsReply tid taken) }
        ensures answered { IfOk result (StepsWhere P.policy D.tells self.old (D.seen disk.old) self.new (D.seen disk.new) (CountsReply tid taken) (reply_event tid taken)) }
        ensures failed { IfErr result (FailsWhere P.policy D.tells self.old (D.seen disk.old) self.new (D.seen disk.new) (CountsReply tid taken) (reply_event tid taken)) }
        ensures cause { HasCauseOf StepErr.Disk (D.seen disk.old).faults (D.seen disk.new).faults result }
    {
        let Taken {
            site,
            epoch,
            n,
            reply,
        } = taken;
        match self.tables.exec.news(alloc, tid, site, epoch, n, reply) {
            Err(Memory) => Err(StepErr::Memory),
            Ok(dues) => match self.may_send(alloc, disk, tid, &dues) {
                Err(Memory) => Err(StepErr::Memory),
                Ok(may) => {
                    let defers = some_held(may, &dues);
                    match let_through(alloc, may, dues) {
                        Err(Memory) => Err(StepErr::Memory),
                        Ok(through) => {
                            self.send(alloc, disk, tid, Some(taken), defers, &through)
                        }
                    }
                }
            },
        }
    }

    /// A wait that counts fixes the epoch of its site.
    fn take_wait(&mut self, alloc: Global, tid: Tid, taken: Taken) -> Result<CoordStep, StepErr>
        requires up { self.old.store.standing ≡ Standing.Up }
        ensures answered { IsOkAnd result (λ step. (tells : Bool) (seen : Seen) (terms : Terms) (past : CoordPast) (by : TheTid) → taken.reply ≡ Reply.Wait by
            → Stands P.policy tells self.old seen terms past → CountsReply tid taken terms past
            → Steps P.policy tells 0 seen step self.new seen terms past (line_of terms past (reply_event tid taken))) }
    {
        self.tables
            .exec
            .take(tid, taken.site, taken.epoch, taken.n, taken.reply);
        says(alloc, Answer::TookWaits)
    }

    /// A refusal or an Unknown that counts decides the attempt abort.
    fn refuse<D: Disk>(
        &mut self,
        alloc: Global,
        disk: &mut D,
        tid: Tid,
        taken: Taken,
    ) -> Result<CoordStep, StepErr>
        requires told { IsTrue D.tells }
        requires up { self.old.store.standing ≡ Standing.Up }
        requires refuses { is_refusal taken.reply ≡ true }
        requires counts { holds_of (counts taken.site taken.epoch taken.n taken.reply) (live_of tid self.old.tables.exec) ≡ true }
        requires may { SomePast (Stands P.policy D.tells self.old (D.seen disk.old)) (CountsReply tid taken) }
        ensures answered { IfOk result (StepsWhere P.policy D.tells self.old (D.seen disk.old) self.new (D.seen disk.new) (CountsReply tid taken) (reply_event tid taken)) }
        ensures failed { IfErr result (FailsWhere P.policy D.tells self.old (D.seen disk.old) self.new (D.seen disk.new) (CountsReply tid taken) (reply_event tid taken)) }
        ensures cause { HasCauseOf StepErr.Disk (D.seen disk.old).faults (D.seen disk.new).faults result }
    {
        let site = taken.site;
        match taken.reply {
            Reply::Unknown => self.abort(alloc, disk, tid, Cause::Unknown { site }),
            Reply::Refused(Why::Die { by }) => self.abort(
                alloc,
                disk,
                tid,
                Cause::Dies { site, by },
            ),
            Reply::Refused(Why::Late { by }) => {
                self.abort(alloc, disk, tid, Cause::TooLate { site, by })
            }
            Reply::Refused(_) => unreachable!(),
            Reply::Done | Reply::Value(_) | Reply::Ticket(_) | Reply::Wait { .. } => unreachable!(),
        }
    }

    /// A reply of a site: where it doesn't count it is ignored.
    pub(crate) fn did<D: Disk>(
        &mut self,
        alloc: Global,
        disk: &mut D,
        tid: Tid,
        taken: Taken,
    ) -> Result<CoordStep, StepErr>
        requires told { IsTrue D.tells }
        requires up { self.old.store.standing ≡ Standing.Up }
        requires may { SomePast (Stands P.policy D.tells self.old (D.seen disk.old)) (λ terms past. IsAmong taken.site terms.protocols) }
        ensures answered { IfOk result (StepsWhere P.policy D.tells self.old (D.seen disk.old) self.new (D.seen disk.new) (λ terms past. IsAmong taken.site terms.protocols) (reply_event tid taken)) }
        ensures failed { IfErr result (FailsWhere P.policy D.tells self.old (D.seen disk.old) self.new (D.seen disk.new) (λ terms past. IsAmong taken.site terms.protocols) (reply_event tid taken)) }
        ensures cause { HasCauseOf StepErr.Disk (D.seen disk.old).faults (D.seen disk.new).faults result }
    {
        if self
            .tables
            .exec
            .counts(tid, taken.site, taken.epoch, taken.n, taken.reply)
        {
            match taken.reply {
                Reply::Done | Reply::Value(_) | Reply::Ticket(_) => {
                    self.go_on(alloc, disk, tid, taken)
                }
                Reply::Wait { .. } => self.take_wait(alloc, tid, taken),
                Reply::Refused(_) | Reply::Unknown => self.refuse(alloc, disk, tid, taken),
            }
        } else {
            ignored(alloc)
        }
    }

    /// A message of a site.
    pub(crate) fn take<D: Disk>(
        &mut self,
        alloc: Global,
        disk: &mut D,
        site: SiteId,
        message: FromSite,
    ) -> Result<CoordStep, StepErr>
        requires told { IsTrue D.tells }
        requires up { self.old.store.standing ≡ Standing.Up }
        requires may { SomePast (Stands P.policy D.tells self.old (D.seen disk.old)) (CanStep (CoordEvent.Take site message)) }
        ensures answered { IfOk result (StepsOn P.policy D.tells self.old (D.seen disk.old) self.new (D.seen disk.new) (CoordEvent.Take site message)) }
        ensures failed { IfErr result (FailsOn P.policy D.tells self.old (D.seen disk.old) self.new (D.seen disk.new) (CoordEvent.Take site message)) }
        ensures cause { HasCauseOf StepErr.Disk (D.seen disk.old).faults (D.seen disk.new).faults result }
    {
        match message {
            FromSite::Did {
                tid,
                epoch,
                n,
                reply,
            } => self.did(
                alloc,
                disk,
                tid,
                Taken {
                    site,
                    epoch,
                    n,
                    reply,
                },
            ),
            FromSite::Vote { tid, yes } => self.vote(alloc, disk, site, tid, yes),
            FromSite::Ack { tid } => self.ack(alloc, disk, site, tid),
            FromSite::Inquiry { tid } => self.inquire(alloc, site, tid),
        }
    }
}
