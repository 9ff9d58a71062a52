//! The host of the coordinator.
ghost use Rattle.std.specs.Prelude.{◌≡◌, [], true, false, IfOk, IsErrOf, IsTrue, map};
ghost use Rattle.mdb_base.specs.Words.{Each};
ghost use Rattle.fed_hosts.specs.Ports.{IsWritten};
ghost use Rattle.fed_hosts.specs.CoordHosts.{CanOpenCoord, HasReturnedCoord, IsHeldCoord};
ghost use Rattle.fed_hosts.specs.CoordSends.{last_sends};
ghost use Rattle.fed_hosts.specs.CoordTurns.{HasCoordTurned};
ghost use Rattle.fed_hosts.specs.CoordViews.{HasCoordServed};
ghost use Rattle.fed_hosts.specs.declared.coord_asks.CoordCall.TheVariants as Asks;
ghost use Rattle.line_text.specs.declared.error.DoorErr.TheVariants as Err_is;

use crate::coord_actor::CoordActor;
use crate::coord_asks::CoordCall;
use crate::coord_parts::CoordParts;
use crate::coord_sends::last_sends;
use crate::gates::Gate;
use crate::plans::Plan;
use crate::ports::Port;
use crate::written::ports_fit;
use client_drivers::DoorErr;
use fed_rules::{Answer, Place, StampedLines, StopLine};
use global_exec::TakePolicy;
use global_manager::{GlobalManager, StepErr};
use journal_disk::Disk;
use mdb_base::{Tid, Tx};
use std::alloc::Global;
use std::marker::{Model, PhantomData};

/// The host of the coordinator: its front with its disk, its lines, what it sent and its ends of the rings to and from each site, all to
/// lie behind one lock. It is the coordinator that `N` names. Once a disk call failed it makes no line.
#[derive(Drop)]
pub struct CoordHost<P: TakePolicy, D: Disk, N: Plan> {
    actor: CoordActor<P, D>,
    failed: bool,
    of: PhantomData<N>,
}

impl<P: TakePolicy, D: Disk, N: Plan> Model for CoordHost<P, D, N> {
    ghost use Rattle.std.specs.Prelude.{IsTrue};
    ghost use Rattle.fed_hosts.specs.CoordKeeps.{CoordKeeps};
    ghost use Rattle.fed_hosts.specs.CoordViews.{CoordView, coord_view_of};

    ghost Value = { CoordView };

    ghost view = { λ h. coord_view_of h.actor h.failed };

    ghost invariant = { λ h. CoordKeeps P.policy D.tells D.seen N.coordinator N.rings h.failed h.actor × IsTrue D.tells };
}

impl<P: TakePolicy, D: Disk, N: Plan> CoordHost<P, D, N> {
    /// The host of a coordinator to which nothing happened yet, with its disk, its scripted stops in their order and, for each of its sites,
    /// by rising site, its ends of new rings with no messages. It takes no memory.
    pub fn new(
        alloc: Global,
        manager: GlobalManager<P>,
        disk: D,
        stops: Vec<StopLine>,
        ports: Vec<Port>,
    ) -> CoordHost<P, D, N>
        requires told { IsTrue D.tells }
        requires opens { CanOpenCoord P.policy D.tells N.coordinator N.rings manager (D.seen disk) stops.items ports.items }
        ensures lines { result.lines ≡ [] }
        ensures first { result.first ≡ 0 }
        ensures failed { result.failed ≡ false }
    {
        CoordHost {
            actor: CoordActor {
                alloc,
                manager,
                disk,
                ports,
                stops,
                armed: 0,
                lines: Vec::new(alloc),
                last: 0,
                first: 0,
                spare: Vec::new(alloc),
            },
            failed: false,
            of: PhantomData,
        }
    }

    /// Takes the host apart. It takes no memory.
    pub fn finish(self) -> CoordParts<P, D>
        ensures held { IsHeldCoord P.policy D.tells D.seen N.coordinator N.rings result }
        ensures view { HasReturnedCoord self result }
        ensures written { Each IsWritten result.ports.items }
    {
        let CoordHost { actor, failed, .. } = self;
        let CoordActor {
            manager,
            disk,
            ports,
            lines,
            ..
        } = actor;
        ports_fit(ports.as_slice());
        CoordParts {
            manager,
            disk,
            lines: StampedLines::of(lines),
            ports,
            failed,
        }
    }

    /// Submits the next attempt of a global transaction. `Spent` also where it would be the last of all attempts, which is left for
    /// finishing. `Disk` comes only where a disk call failed, and from then on always; without memory nothing changes.
    pub fn go<G: Gate>(&mut self, tx: Tx, gate: &G) -> Result<Answer, DoorErr>
        ensures served { IfOk result (HasCoordServed N.coordinator self.old self.new (Asks.Go tx)) }
        ensures memory { IsErrOf result Err_is.Memory → self.new ≡ self.old }
        ensures disk { IsErrOf result Err_is.Disk → self.new ≡ record self.old { failed = true } }
        ensures broken { self.old.failed ≡ true → IsErrOf result Err_is.Disk }
    {
        self.call(CoordCall::Go(tx), gate)
    }

    /// What became of a global transaction. `Disk` comes only where a disk call failed, and from then on always; without memory nothing
    /// changes.
    pub fn fate<G: Gate>(&mut self, tx: Tx, gate: &G) -> Result<Answer, DoorErr>
        ensures served { IfOk result (HasCoordServed N.coordinator self.old self.new (Asks.Fate tx)) }
        ensures memory { IsErrOf result Err_is.Memory → self.new ≡ self.old }
        ensures disk { IsErrOf result Err_is.Disk → self.new ≡ record self.old { failed = true } }
        ensures broken { self.old.failed ≡ true → IsErrOf result Err_is.Disk }
    {
        self.call(CoordCall::Fate(tx), gate)
    }

    /// What is outstanding for an attempt is sent again, or its decision to those that have to acknowledge it. `Disk` comes only where a
    /// disk call failed, and from then on always; without memory nothing changes.
    pub fn again<G: Gate>(&mut self, tid: Tid, gate: &G) -> Result<Answer, DoorErr>
        ensures served { IfOk result (HasCoordServed N.coordinator self.old self.new (Asks.Again tid)) }
        ensures memory { IsErrOf result Err_is.Memory → self.new ≡ self.old }
        ensures disk { IsErrOf result Err_is.Disk → self.new ≡ record self.old { failed = true } }
        ensures broken { self.old.failed ≡ true → IsErrOf result Err_is.Disk }
    {
        self.call(CoordCall::Again(tid), gate)
    }

    /// An undecided attempt is given up. `Disk` comes only where a disk call failed, and from then on always; without memory nothing changes.
    pub fn late<G: Gate>(&mut self, tid: Tid, gate: &G) -> Result<Answer, DoorErr>
        ensures served { IfOk result (HasCoordServed N.coordinator self.old self.new (Asks.Late tid)) }
        ensures memory { IsErrOf result Err_is.Memory → self.new ≡ self.old }
        ensures disk { IsErrOf result Err_is.Disk → self.new ≡ record self.old { failed = true } }
        ensures broken { self.old.failed ≡ true → IsErrOf result Err_is.Disk }
    {
        self.call(CoordCall::Late(tid), gate)
    }

    /// A turn of the coordinator's own, which makes at most one line: a start where it is down, else the taking of the next message, going
    /// round its sites from the one behind that whose packet it took last. A packet that bears no message is left aside. Says whether it
    /// made a line. `Disk` comes only where a disk call failed, and from then on always; without memory nothing changes.
    pub fn turn<G: Gate>(&mut self, gate: &G) -> Result<bool, DoorErr>
        ensures turned { IfOk result (HasCoordTurned N.coordinator self.old self.new) }
        ensures memory { IsErrOf result Err_is.Memory → self.new ≡ record self.old { empties = self.new.empties } }
        ensures disk { IsErrOf result Err_is.Disk → self.new ≡ record self.old { empties = self.new.empties; failed = true } }
        ensures broken { self.old.failed ≡ true → IsErrOf result Err_is.Disk }
    {
        gate.inside(0, self.actor.lines.len() as u32);
        if self.failed {
            return Err(DoorErr::Disk);
        }
        match self.actor.turn::<N>() {
            Ok(made) => Ok(made),
            Err(StepErr::Memory) => Err(DoorErr::Memory),
            Err(StepErr::Disk) => {
                self.failed = true;
                Err(DoorErr::Disk)
            }
        }
    }

    /// The places of what the last line sends, or of what the one before it sends where the last one arms a stop.
    pub fn last_sends(&self) -> &[Place]
        ensures { result.now ≡ last_sends self.now.lines }
    {
        last_sends(self.actor.lines.as_slice())
    }

    /// What a client asks of a transaction or an attempt.
    fn call<G: Gate>(&mut self, call: CoordCall, gate: &G) -> Result<Answer, DoorErr>
        ensures served { IfOk result (HasCoordServed N.coordinator self.old self.new call) }
        ensures memory { IsErrOf result Err_is.Memory → self.new ≡ self.old }
        ensures disk { IsErrOf result Err_is.Disk → self.new ≡ record self.old { failed = true } }
        ensures broken { self.old.failed ≡ true → IsErrOf result Err_is.Disk }
    {
        gate.inside(0, self.actor.lines.len() as u32);
        if self.failed {
            return Err(DoorErr::Disk);
        }
        match self.actor.serve::<N>(call) {
            Ok(answer) => Ok(answer),
            Err(StepErr::Memory) => Err(DoorErr::Memory),
            Err(StepErr::Disk) => {
                self.failed = true;
                Err(DoorErr::Disk)
            }
        }
    }
}
