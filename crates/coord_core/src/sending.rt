//! What the coordinator sends of an undecided attempt: what is outstanding, but for Takes that the policy holds back.
ghost use Rattle.std.specs.Prelude.{◌≡◌, ◌+◌, Bool, true, false, None, is_some, IfErr, IfOk, IsTrue, OnErr};
ghost use Rattle.mdb_base.specs.Counts.{HasCauseOf};
ghost use Rattle.fed_rules.specs.declared.events.CoordEvent.{CoordEvent as TheEvent};
ghost use Rattle.fed_rules.specs.Coord.{may_take as rules_may_take};
ghost use Rattle.fed_rules.specs.CoordPast.{CoordPast, is_open};
ghost use Rattle.journal_disk.specs.Disk.{Seen};
ghost use Rattle.coord_tables.specs.Sending.{HoldsTheSame, IsSending, after_taken, initiation_of, passed, says_sent};
ghost use Rattle.coord_core.specs.Stands.{Fails, Stands, Steps, calls_for};
ghost use Rattle.coord_core.specs.Steps.{EachPast, SomePast};
ghost use Rattle.coord_tables.specs.Terms.{Terms, line_of};

use crate::coord::CoordCore;
use crate::ending::room_for;
use actor_store::{Standing, StepErr};
use coord_tables::{Taken, passed, send_dues, some_take};
use fed_rules::{Answer, CoordRecord, CoordStep, Dues};
use global_exec::TakePolicy;
use journal_disk::Disk;
use mdb_base::{Memory, Tid};
use std::alloc::Global;

/// What the policy lets pass: all that there is, where it lets Takes pass.
pub(crate) fn let_through(alloc: Global, may: bool, dues: Dues) -> Result<Dues, Memory>
    ensures { IfOk result (λ through. through ≡ passed may dues) }
{
    if may {
        return Ok(dues);
    }
    passed(alloc, may, &dues)
}

impl<P: TakePolicy> CoordCore<P> {
    /// Whether an undecided attempt may take tickets beside the others in their phases.
    pub(crate) fn may_take<D: Disk>(
        &self,
        alloc: Global,
        disk: &D,
        tid: Tid,
    ) -> Result<bool, Memory>
        requires up { self.now.store.standing ≡ Standing.Up }
        requires may { SomePast (Stands P.policy D.tells self.now (D.seen disk.now)) (λ terms past. is_open past tid ≡ true) }
        ensures { IfOk result (λ may. EachPast (Stands P.policy D.tells self.now (D.seen disk.now))
            (λ terms past. is_open past tid ≡ true → may ≡ rules_may_take terms.protocols terms.policy past tid)) }
    {
        match self.tables.stages.stage_of(tid) {
            None => unreachable!(),
            Some(stage) => {
                let others = self.tables.stages.others_taking(alloc, tid)?;
                Ok(self.policy.may_take(stage.sites, &others))
            }
        }
    }

    /// Whether these dues of an undecided attempt may all be sent: the policy is asked where a Take is among them.
    pub(crate) fn may_send<D: Disk>(
        &self,
        alloc: Global,
        disk: &D,
        tid: Tid,
        dues: &Dues,
    ) -> Result<bool, Memory>
        requires up { self.now.store.standing ≡ Standing.Up }
        requires may { SomePast (Stands P.policy D.tells self.now (D.seen disk.now)) (λ terms past. is_open past tid ≡ true) }
        ensures { IfOk result (λ may. EachPast (Stands P.policy D.tells self.now (D.seen disk.now))
            (λ terms past. is_open past tid ≡ true → HoldsTheSame may (rules_may_take terms.protocols terms.policy past tid) dues.now)) }
    {
        if some_take(dues) {
            self.may_take(alloc, disk, tid)
        } else {
            Ok(true)
        }
    }

    /// Sends these dues of an undecided attempt that needs no Initiation for them, once the reply is taken, where there is one.
    fn send_at_once(
        &mut self,
        alloc: Global,
        tid: Tid,
        taken: Option<Taken>,
        defers: bool,
        dues: &Dues,
    ) -> Result<CoordStep, StepErr>
        requires up { self.old.store.standing ≡ Standing.Up }
        ensures answered { IfOk result (λ step. (tells : Bool) (seen : Seen) (terms : Terms) (past : CoordPast) (event : TheEvent) → Stands P.policy tells self.old seen terms past
            → IsSending terms past event tid taken defers dues.now self.old.tables.exec (after_taken tid taken self.old.tables.exec)
            → initiation_of terms.protocols past tid dues.now ≡ None
            → Steps P.policy tells 0 seen step self.new seen terms past (line_of terms past event)) }
        ensures kept { OnErr result (self.new ≡ self.old) }
        ensures why { IfErr result (λ why. why ≡ StepErr.Memory) }
    {
        match send_dues(alloc, tid, dues) {
            Err(Memory) => Err(StepErr::Memory),
            Ok(sends) => {
                self.tables.take_reply(tid, taken);
                self.tables.sent(tid, dues, false);
                let answer = said(defers);
                Ok(CoordStep { answer, sends })
            }
        }
    }

    /// Forces the Initiation of an undecided attempt and sends these dues of it, once the reply is taken, where there is one.
    fn initiate<D: Disk>(
        &mut self,
        alloc: Global,
        disk: &mut D,
        tid: Tid,
        taken: Option<Taken>,
        defers: bool,
        dues: &Dues,
        entry: Option<CoordRecord>,
    ) -> Result<CoordStep, StepErr>
        requires told { IsTrue D.tells }
        requires up { self.old.store.standing ≡ Standing.Up }
        requires may { SomePast (Stands P.policy D.tells self.old (D.seen disk.old)) (λ terms past. is_open past tid ≡ true) }
        requires some { is_some entry ≡ true }
        requires entry { EachPast (Stands P.policy D.tells self.old (D.seen disk.old)) (λ terms past. is_open past tid ≡ true → entry ≡ initiation_of terms.protocols past tid dues.now) }
        ensures answered { IfOk result (λ step. (terms : Terms) (past : CoordPast) (event : TheEvent) → Stands P.policy D.tells self.old (D.seen disk.old) terms past
            → IsSending terms past event tid taken defers dues.now self.old.tables.exec (after_taken tid taken self.old.tables.exec)
            → Steps P.policy D.tells 0 (D.seen disk.old) step self.new (D.seen disk.new) terms past (line_of terms past event)) }
        ensures failed { IfErr result (λ why. (terms : Terms) (past : CoordPast) (event : TheEvent) → Stands P.policy D.tells self.old (D.seen disk.old) terms past
            → IsSending terms past event tid taken defers dues.now self.old.tables.exec (after_taken tid taken self.old.tables.exec)
            → Fails P.policy D.tells (0 + calls_for terms past event) (D.seen disk.old) why self.new (D.seen disk.new) terms past event) }
        ensures cause { HasCauseOf StepErr.Disk (D.seen disk.old).faults (D.seen disk.new).faults result }
    {
        let Ok(sends) = send_dues(alloc, tid, dues) else {
            drop(entry);
            return Err(StepErr::Memory);
        };
        let Ok(()) = room_for(&mut self.store, alloc, disk, &entry) else {
            drop(sends);
            drop(entry);
            return Err(StepErr::Memory);
        };
        self.tables.take_reply(tid, taken);
        self.tables.sent(tid, dues, true);
        let answer = Answer::Initiates;
        self.end(alloc, disk, entry, CoordStep { answer, sends })
    }

    /// Sends these dues of an undecided attempt, once the reply is taken, where there is one. Before its first Prepare the attempt's
    /// Initiation is forced, where it has one.
    pub(crate) fn send<D: Disk>(
        &mut self,
        alloc: Global,
        disk: &mut D,
        tid: Tid,
        taken: Option<Taken>,
        defers: bool,
        dues: &Dues,
    ) -> Result<CoordStep, StepErr>
        requires told { IsTrue D.tells }
        requires up { self.old.store.standing ≡ Standing.Up }
        requires may { SomePast (Stands P.policy D.tells self.old (D.seen disk.old)) (λ terms past. is_open past tid ≡ true) }
        ensures answered { IfOk result (λ step. (terms : Terms) (past : CoordPast) (event : TheEvent) → Stands P.policy D.tells self.old (D.seen disk.old) terms past
            → IsSending terms past event tid taken defers dues.now self.old.tables.exec (after_taken tid taken self.old.tables.exec)
            → Steps P.policy D.tells 0 (D.seen disk.old) step self.new (D.seen disk.new) terms past (line_of terms past event)) }
        ensures failed { IfErr result (λ why. (terms : Terms) (past : CoordPast) (event : TheEvent) → Stands P.policy D.tells self.old (D.seen disk.old) terms past
            → IsSending terms past event tid taken defers dues.now self.old.tables.exec (after_taken tid taken self.old.tables.exec)
            → Fails P.policy D.tells (0 + calls_for terms past event) (D.seen disk.old) why self.new (D.seen disk.new) terms past event) }
        ensures cause { HasCauseOf StepErr.Disk (D.seen disk.old).faults (D.seen disk.new).faults result }
    {
        match self.tables.initiation(alloc, tid, dues) {
            Err(Memory) => Err(StepErr::Memory),
            Ok(entry) => {
                if entry.is_some() {
                    self.initiate(alloc, disk, tid, taken, defers, dues, entry)
                } else {
                    self.send_at_once(alloc, tid, taken, defers, dues)
                }
            }
        }
    }
}

/// The answer of a line that sends dues and forces nothing: whether it holds something back.
fn said(defers: bool) -> Answer
    ensures { result ≡ says_sent false defers }
{
    if defers { Answer::Defers } else { Answer::Only }
}
