//! Sending again.
ghost use Rattle.std.specs.Prelude.{◌≡◌, true, map, IfErr, IfOk, IsTrue};
ghost use Rattle.mdb_base.specs.Counts.{HasCauseOf};
ghost use Rattle.mdb_base.specs.Rising.{IsRising};
ghost use Rattle.presumptions.specs.declared.Participant.{Participant as TheParticipant};
ghost use Rattle.fed_rules.specs.Coord.{decide_to as rules_decide_to, missing as rules_missing};
ghost use Rattle.fed_rules.specs.CoordPast.{Decided, is_open, standing};
ghost use Rattle.protocol_table.specs.Attempts.{lacks_ack, missing, participant_of};
ghost use Rattle.coord_core.specs.Stands.{Holds, Stands};
ghost use Rattle.coord_core.specs.Steps.{CanStep, EachPast, FailsOn, FailsWhere, SomePast, StepsOn, StepsWhere};

use crate::coord::{CoordCore, says};
use crate::sending::let_through;
use actor_store::{Standing, StepErr};
use coord_tables::{decide_to, some_held};
use fed_rules::{Answer, CoordEvent, CoordStep};
use global_exec::TakePolicy;
use journal_disk::Disk;
use mdb_base::{Memory, Tid};
use presumptions::{Decision, Participant, Participants, Protocol, acks};
use protocol_table::{Known, Member, Said};
use std::alloc::Global;

/// Whether the member's acknowledgement of the decision is required and missing, in an attempt that has a record or not.
fn lacks_ack(member: &Member, decision: Decision, initiated: bool) -> bool
    ensures { result ≡ lacks_ack decision initiated member.now }
{
    initiated && acks(member.protocol, decision) && !member.acked
}

/// The participants whose required acknowledgement of the decision is missing.
fn missing_of(alloc: Global, known: &Known, decision: Decision) -> Result<Participants, Memory>
    requires { IsRising (λ (member : TheParticipant). member.site.0) (map participant_of (missing decision known.now)) }
    ensures { IfOk result (λ members. members ≡ map participant_of (missing decision known.now)) }
{
    let mut members = Vec::with_capacity(alloc, known.members.len())?;
    for member in known.members.as_slice() {
        if lacks_ack(member, decision, known.initiated) {
            members.push(Participant {
                site: member.site,
                protocol: member.protocol,
            })?;
        }
    }
    Ok(Participants::of(members))
}

impl<P: TakePolicy> CoordCore<P> {
    /// Sends the decision again to those whose required acknowledgement is missing.
    fn tell(&self, alloc: Global, tid: Tid, decision: Decision) -> Result<CoordStep, StepErr>
        requires up { self.now.store.standing ≡ Standing.Up }
        requires may { SomePast (Holds P.policy self.now) (λ terms past. standing terms.protocols past tid ≡ Decided decision) }
        ensures answer { IfOk result (λ step. step.answer ≡ Answer.Only) }
        ensures sends { IfOk result (λ step. EachPast (Holds P.policy self.now) (λ terms past. standing terms.protocols past tid ≡ Decided decision
            → step.sends ≡ rules_decide_to tid decision (rules_missing terms.protocols past tid decision))) }
        ensures why { IfErr result (λ why. why ≡ StepErr.Memory) }
    {
        match self.tables.known.known(tid) {
            None => unreachable!(),
            Some(known) => {
                let Ok(members) = missing_of(alloc, known, decision) else {
                    return Err(StepErr::Memory);
                };
                let Ok(sends) = decide_to(alloc, tid, decision, &members) else {
                    return Err(StepErr::Memory);
                };
                Ok(CoordStep {
                    answer: Answer::Only,
                    sends,
                })
            }
        }
    }

    /// Sends again all that is outstanding for an undecided attempt, but for Takes that the policy holds back.
    fn send_all<D: Disk>(
        &mut self,
        alloc: Global,
        disk: &mut D,
        tid: Tid,
    ) -> Result<CoordStep, StepErr>
        requires told { IsTrue D.tells }
        requires up { self.old.store.standing ≡ Standing.Up }
        requires may { SomePast (Stands P.policy D.tells self.old (D.seen disk.old)) (λ terms past. is_open past tid ≡ true) }
        ensures answered { IfOk result (StepsWhere P.policy D.tells self.old (D.seen disk.old) self.new (D.seen disk.new) (λ terms past. is_open past tid ≡ true) (CoordEvent.Again tid)) }
        ensures failed { IfErr result (FailsWhere P.policy D.tells self.old (D.seen disk.old) self.new (D.seen disk.new) (λ terms past. is_open past tid ≡ true) (CoordEvent.Again tid)) }
        ensures cause { HasCauseOf StepErr.Disk (D.seen disk.old).faults (D.seen disk.new).faults result }
    {
        let Ok(dues) = self.tables.exec.outstanding(alloc, tid) else {
            return Err(StepErr::Memory);
        };
        let Ok(may) = self.may_take(alloc, disk, tid) else {
            return Err(StepErr::Memory);
        };
        let held = some_held(may, &dues);
        let Ok(through) = let_through(alloc, may, dues) else {
            return Err(StepErr::Memory);
        };
        let none = through.len() == 0;
        let defers = held & none;
        self.send(alloc, disk, tid, None, defers, &through)
    }

    /// Sends again what is outstanding for an undecided attempt, and a decision that is known to those whose required acknowledgement is
    /// missing.
    pub(crate) fn again<D: Disk>(
        &mut self,
        alloc: Global,
        disk: &mut D,
        tid: Tid,
    ) -> Result<CoordStep, StepErr>
        requires told { IsTrue D.tells }
        requires up { self.old.store.standing ≡ Standing.Up }
        requires may { SomePast (Stands P.policy D.tells self.old (D.seen disk.old)) (CanStep (CoordEvent.Again tid)) }
        ensures answered { IfOk result (StepsOn P.policy D.tells self.old (D.seen disk.old) self.new (D.seen disk.new) (CoordEvent.Again tid)) }
        ensures failed { IfErr result (FailsOn P.policy D.tells self.old (D.seen disk.old) self.new (D.seen disk.new) (CoordEvent.Again tid)) }
        ensures cause { HasCauseOf StepErr.Disk (D.seen disk.old).faults (D.seen disk.new).faults result }
    {
        match self.tables.known.answer(tid, Protocol::Nothing) {
            Said::Undecided => self.send_all(alloc, disk, tid),
            Said::Known(decision) => self.tell(alloc, tid, decision),
            Said::Presumed(_) => says(alloc, Answer::Idle),
        }
    }
}
