//! Votes of sites.
ghost use Rattle.std.specs.Prelude.{Bool, ◌≡◌, None, Some, IfErr, IfOk, IfSome, IsOkAnd, IsSome, IsTrue, OnOk};
ghost use Rattle.mdb_base.specs.Counts.{HasCauseOf};
ghost use Rattle.journal_disk.specs.Disk.{Seen};
ghost use Rattle.journal_disk.specs.Frames.{IsPayload};
ghost use Rattle.frame_journal.specs.Journal.{HasRoom, written_size};
ghost use Rattle.coord_journal.specs.Spelling.{spelling};
ghost use Rattle.actor_store.specs.Store.{SomeKeptBehind};
ghost use Rattle.fed_rules.specs.declared.messages.FromSite.TheVariants as From;
ghost use Rattle.fed_rules.specs.CoordPast.{CoordPast};
ghost use Rattle.coord_core.specs.Stands.{Stands, Steps};
ghost use Rattle.coord_core.specs.Steps.{CanStep, EachPast, FailsOn, FailsWhere, SomePast, StepsOn, StepsWhere};
ghost use Rattle.coord_core.specs.Store.{KeepsBehind};
ghost use Rattle.coord_tables.specs.Terms.{Terms, line_of};
ghost use Rattle.coord_tables.specs.Trees.{entry_of};
ghost use Rattle.coord_tables.specs.Voting as spec;
ghost use Rattle.coord_tables.specs.Voting.{CountsVote, IsLastVote, vote_event};

use crate::coord::{CoordCore, ignored, says};
use crate::ending::room_for;
use actor_store::{Standing, StepErr};
use fed_rules::{Answer, Cause, CoordEvent, CoordRecord, CoordStep};
use global_exec::TakePolicy;
use journal_disk::Disk;
use mdb_base::{Memory, SiteId, Tickets, Tid, Tx};
use presumptions::Decision;
use std::alloc::Global;
use ticket_graph::Verdict;

/// The same tickets.
fn same_tickets(alloc: Global, tickets: &Tickets) -> Result<Tickets, Memory>
    ensures { IfOk result (λ same. same ≡ tickets.now) }
{
    let items = Vec::from_slice(alloc, tickets.as_slice())?;
    Ok(Tickets::of(items))
}

impl<P: TakePolicy> CoordCore<P> {
    /// A yes vote that counts, and isn't the last one.
    fn note_vote(
        &mut self,
        alloc: Global,
        site: SiteId,
        tid: Tid,
        ticket: u64,
    ) -> Result<CoordStep, StepErr>
        requires up { self.old.store.standing ≡ Standing.Up }
        ensures answered { IsOkAnd result (λ step. (tells : Bool) (seen : Seen) (terms : Terms) (past : CoordPast) → Stands P.policy tells self.old seen terms past
            → CountsVote site tid terms past → spec.last_tickets terms.protocols past site tid ticket ≡ None
            → Steps P.policy tells 0 seen step self.new seen terms past (line_of terms past (vote_event site tid (Some ticket)))) }
    {
        self.tables.vote(site, tid, ticket);
        says(alloc, Answer::Voted)
    }

    /// Makes room for the Commit of one attempt.
    fn room_for_commit<D: Disk>(
        &mut self,
        alloc: Global,
        disk: &mut D,
        tx: Tx,
        entry: &Option<CoordRecord>,
    ) -> Result<(), Memory>
        requires told { IsTrue D.tells }
        requires kept { SomeKeptBehind (KeepsBehind D.tells (D.seen disk.old) self.old.store) }
        requires fits { IfSome entry.now (λ entry. IsPayload (spelling entry)) }
        ensures stands { EachPast (Stands P.policy D.tells self.old (D.seen disk.old)) (Stands P.policy D.tells self.new (D.seen disk.new)) }
        ensures room { OnOk result (IfSome entry.now (λ entry. HasRoom (written_size spelling entry) self.new.store.journal)) }
        ensures spare { OnOk result (IsSome (entry_of self.new.tables.committed.listed tx)) }
        ensures standing { self.new.store.standing ≡ self.old.store.standing }
        ensures called { (D.seen disk.new).calls ≡ (D.seen disk.old).calls }
        ensures faults { (D.seen disk.new).faults ≡ (D.seen disk.old).faults }
    {
        self.tables.committed.reserve(tx)?;
        room_for(&mut self.store, alloc, disk, entry)
    }

    /// The last yes vote of an attempt: abort where a cycle of the committed attempts and this one would go through it, and else commit.
    fn last_vote<D: Disk>(
        &mut self,
        alloc: Global,
        disk: &mut D,
        site: SiteId,
        tid: Tid,
        ticket: u64,
        tickets: &Tickets,
    ) -> Result<CoordStep, StepErr>
        requires told { IsTrue D.tells }
        requires up { self.old.store.standing ≡ Standing.Up }
        requires may { SomePast (Stands P.policy D.tells self.old (D.seen disk.old)) (IsLastVote site tid ticket tickets.now) }
        ensures answered { IfOk result (StepsWhere P.policy D.tells self.old (D.seen disk.old) self.new (D.seen disk.new) (IsLastVote site tid ticket tickets.now) (vote_event site tid (Some ticket))) }
        ensures failed { IfErr result (FailsWhere P.policy D.tells self.old (D.seen disk.old) self.new (D.seen disk.new) (IsLastVote site tid ticket tickets.now) (vote_event site tid (Some ticket))) }
        ensures cause { HasCauseOf StepErr.Disk (D.seen disk.old).faults (D.seen disk.new).faults result }
    {
        let Ok(sends) = self.tables.decisions(alloc, tid, Decision::Commit) else {
            return Err(StepErr::Memory);
        };
        let Ok(recorded) = same_tickets(alloc, tickets) else {
            drop(sends);
            return Err(StepErr::Memory);
        };
        let entry = Some(CoordRecord::Commit {
            tid,
            tickets: recorded,
        });
        let Ok(()) = self.room_for_commit(alloc, disk, tid.tx, &entry) else {
            drop(sends);
            drop(entry);
            return Err(StepErr::Memory);
        };
        match self.try_tickets(alloc, disk, tid, tickets) {
            Err(Memory) => {
                drop(sends);
                drop(entry);
                Err(StepErr::Memory)
            }
            Ok(Verdict::Cycle(edges)) => {
                drop(sends);
                drop(entry);
                self.abort(alloc, disk, tid, Cause::Cycle(edges))
            }
            Ok(Verdict::Added) => {
                let forgets = self.tables.decide(tid, Decision::Commit, true);
                self.tables.committed.add(tid);
                self.tables.prune();
                let answer = Answer::Decides {
                    decision: Decision::Commit,
                    cause: None,
                    forgets,
                };
                self.end(alloc, disk, entry, CoordStep { answer, sends })
            }
        }
    }

    /// A yes vote that counts.
    fn yes_vote<D: Disk>(
        &mut self,
        alloc: Global,
        disk: &mut D,
        site: SiteId,
        tid: Tid,
        ticket: u64,
    ) -> Result<CoordStep, StepErr>
        requires told { IsTrue D.tells }
        requires up { self.old.store.standing ≡ Standing.Up }
        requires may { SomePast (Stands P.policy D.tells self.old (D.seen disk.old)) (CountsVote site tid) }
        ensures answered { IfOk result (StepsWhere P.policy D.tells self.old (D.seen disk.old) self.new (D.seen disk.new) (CountsVote site tid) (vote_event site tid (Some ticket))) }
        ensures failed { IfErr result (FailsWhere P.policy D.tells self.old (D.seen disk.old) self.new (D.seen disk.new) (CountsVote site tid) (vote_event site tid (Some ticket))) }
        ensures cause { HasCauseOf StepErr.Disk (D.seen disk.old).faults (D.seen disk.new).faults result }
    {
        match self.tables.last_tickets(alloc, site, tid, ticket) {
            Err(Memory) => Err(StepErr::Memory),
            Ok(last) => match last {
                None => self.note_vote(alloc, site, tid, ticket),
                Some(tickets) => self.last_vote(alloc, disk, site, tid, ticket, &tickets),
            },
        }
    }

    /// A vote of a site: a no decides the attempt abort, and the last yes decides it, abort where a cycle of the committed attempts and this
    /// one would go through it, and else commit.
    pub(crate) fn vote<D: Disk>(
        &mut self,
        alloc: Global,
        disk: &mut D,
        site: SiteId,
        tid: Tid,
        yes: Option<u64>,
    ) -> Result<CoordStep, StepErr>
        requires told { IsTrue D.tells }
        requires up { self.old.store.standing ≡ Standing.Up }
        requires may { SomePast (Stands P.policy D.tells self.old (D.seen disk.old)) (CanStep (CoordEvent.Take site (From.Vote tid yes))) }
        ensures answered { IfOk result (StepsOn P.policy D.tells self.old (D.seen disk.old) self.new (D.seen disk.new) (CoordEvent.Take site (From.Vote tid yes))) }
        ensures failed { IfErr result (FailsOn P.policy D.tells self.old (D.seen disk.old) self.new (D.seen disk.new) (CoordEvent.Take site (From.Vote tid yes))) }
        ensures cause { HasCauseOf StepErr.Disk (D.seen disk.old).faults (D.seen disk.new).faults result }
    {
        if self.tables.exec.awaits_vote(tid, site) {
            match yes {
                None => self.abort(alloc, disk, tid, Cause::No { site }),
                Some(ticket) => self.yes_vote(alloc, disk, site, tid, ticket),
            }
        } else {
            ignored(alloc)
        }
    }
}
