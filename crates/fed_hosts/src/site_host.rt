//! The host of a site.
ghost use Rattle.std.specs.Prelude.{◌≡◌, [], true, false, IfOk, IsErrOf, IsTrue};
ghost use Rattle.fed_rules.specs.declared.commands.Command.TheVariants as Cmd;
ghost use Rattle.mdb_base.specs.Words.{Each};
ghost use Rattle.host_laws.specs.Written.{FitsFromSite};
ghost use Rattle.fed_hosts.specs.Hosts.{CanOpen, IsHeld, HasReturned};
ghost use Rattle.fed_hosts.specs.Verbs.{command_of};
ghost use Rattle.fed_hosts.specs.Turns.{HasTurned};
ghost use Rattle.fed_hosts.specs.Views.{HasServed};
ghost use Rattle.line_text.specs.declared.error.DoorErr.TheVariants as Err_is;

use crate::ends::HostEnds;
use crate::gates::Gate;
use crate::parts::SiteParts;
use crate::plans::Plan;
use crate::site_actor::SiteActor;
use crate::verbs::Verb;
use crate::written::messages_from_fit;
use client_drivers::DoorErr;
use engine_contract::LocalEngine;
use fed_rules::{Answer, FromMessages, StampedLines, StopLine};
use journal_disk::Disk;
use local_dbms::{LocalDbms, StepErr};
use mdb_base::Tx;
use std::alloc::Global;
use std::marker::{Model, PhantomData};

/// The host of a site: its local database system with its disk, its lines, what it sent and its ends of the rings, all to lie behind
/// one lock. It is one of the sites that `N` names. Once a disk call failed it makes no line.
#[derive(Drop)]
pub struct SiteHost<E: LocalEngine, D: Disk, N: Plan> {
    actor: SiteActor<E, D>,
    failed: bool,
    of: PhantomData<N>,
}

impl<E: LocalEngine, D: Disk, N: Plan> Model for SiteHost<E, D, N> {
    ghost use Rattle.std.specs.Prelude.{IsTrue};
    ghost use Rattle.fed_hosts.specs.Keeps.{Keeps};
    ghost use Rattle.fed_hosts.specs.Views.{SiteView, view_of};

    ghost Value = { SiteView };

    ghost view = { λ h. view_of h.actor h.failed };

    ghost invariant = { λ h. Keeps E.stands D.tells D.seen N.sites N.rings h.failed h.actor × IsTrue D.tells };
}

impl<E: LocalEngine, D: Disk, N: Plan> SiteHost<E, D, N> {
    /// The host of a site that was set up and did nothing yet, with its disk, its scripted stops in their order and its ends of new rings.
    /// It takes no memory.
    pub fn new(
        alloc: Global,
        dbms: LocalDbms<E>,
        disk: D,
        stops: Vec<StopLine>,
        ends: HostEnds,
    ) -> SiteHost<E, D, N>
        requires told { IsTrue D.tells }
        requires opens { CanOpen E.stands D.tells N.sites N.rings dbms (D.seen disk) stops.items ends }
        ensures { result ≡ record { site = ends.site; lines = []; took = []; empties = 0; idle = 0; failed = false } }
    {
        SiteHost {
            actor: SiteActor {
                alloc,
                dbms,
                disk,
                ends,
                stops,
                armed: 0,
                lines: Vec::new(alloc),
                sent: Vec::new(alloc),
                last: 0,
                idle: 0,
            },
            failed: false,
            of: PhantomData,
        }
    }

    /// Takes the host apart. It takes no memory.
    pub fn finish(self) -> SiteParts<E, D>
        ensures held { IsHeld E.stands D.tells D.seen N.sites N.rings result }
        ensures view { HasReturned self result }
        ensures written { Each FitsFromSite result.sent }
    {
        let SiteHost { actor, failed, .. } = self;
        let SiteActor {
            dbms,
            disk,
            ends,
            lines,
            sent,
            ..
        } = actor;
        messages_from_fit(sent.as_slice());
        SiteParts {
            dbms,
            disk,
            lines: StampedLines::of(lines),
            sent: FromMessages::of(sent),
            ends,
            failed,
        }
    }

    /// Begins the next attempt of a transaction. `Spent` also where it would be the last of all attempts, which is left for finishing.
    /// `Disk` comes only where a disk call failed, and from then on always; without memory nothing changes.
    pub fn begin<G: Gate>(&mut self, tx: Tx, gate: &G) -> Result<Answer, DoorErr>
        ensures served { IfOk result (HasServed N.sites self.old self.new (Cmd.Begin tx) tx) }
        ensures memory { IsErrOf result Err_is.Memory → self.new ≡ self.old }
        ensures disk { IsErrOf result Err_is.Disk → self.new ≡ record self.old { failed = true } }
        ensures broken { self.old.failed ≡ true → IsErrOf result Err_is.Disk }
    {
        self.call(Verb::Begin, tx, gate)
    }

    /// The next step of the running attempt of a transaction. `Disk` comes only where a disk call failed, and from then on always; without
    /// memory nothing changes.
    pub fn step<G: Gate>(&mut self, tx: Tx, gate: &G) -> Result<Answer, DoorErr>
        ensures served { IfOk result (HasServed N.sites self.old self.new (Cmd.Step tx) tx) }
        ensures memory { IsErrOf result Err_is.Memory → self.new ≡ self.old }
        ensures disk { IsErrOf result Err_is.Disk → self.new ≡ record self.old { failed = true } }
        ensures broken { self.old.failed ≡ true → IsErrOf result Err_is.Disk }
    {
        self.call(Verb::Step, tx, gate)
    }

    /// Commits the running attempt of a transaction, once every step is done. `Disk` comes only where a disk call failed, and from then on
    /// always; without memory nothing changes.
    pub fn commit<G: Gate>(&mut self, tx: Tx, gate: &G) -> Result<Answer, DoorErr>
        ensures served { IfOk result (HasServed N.sites self.old self.new (Cmd.Commit tx) tx) }
        ensures memory { IsErrOf result Err_is.Memory → self.new ≡ self.old }
        ensures disk { IsErrOf result Err_is.Disk → self.new ≡ record self.old { failed = true } }
        ensures broken { self.old.failed ≡ true → IsErrOf result Err_is.Disk }
    {
        self.call(Verb::Commit, tx, gate)
    }

    /// Aborts the running attempt of a transaction. `Disk` comes only where a disk call failed, and from then on always; without memory
    /// nothing changes.
    pub fn abort<G: Gate>(&mut self, tx: Tx, gate: &G) -> Result<Answer, DoorErr>
        ensures served { IfOk result (HasServed N.sites self.old self.new (Cmd.Abort tx) tx) }
        ensures memory { IsErrOf result Err_is.Memory → self.new ≡ self.old }
        ensures disk { IsErrOf result Err_is.Disk → self.new ≡ record self.old { failed = true } }
        ensures broken { self.old.failed ≡ true → IsErrOf result Err_is.Disk }
    {
        self.call(Verb::Abort, tx, gate)
    }

    /// What became of a transaction. `Disk` comes only where a disk call failed, and from then on always; without memory nothing changes.
    pub fn fate<G: Gate>(&mut self, tx: Tx, gate: &G) -> Result<Answer, DoorErr>
        ensures served { IfOk result (HasServed N.sites self.old self.new (Cmd.Fate tx) tx) }
        ensures memory { IsErrOf result Err_is.Memory → self.new ≡ self.old }
        ensures disk { IsErrOf result Err_is.Disk → self.new ≡ record self.old { failed = true } }
        ensures broken { self.old.failed ≡ true → IsErrOf result Err_is.Disk }
    {
        self.call(Verb::Fate, tx, gate)
    }

    /// A turn of the site's own, which makes at most one line: a start where it is down, else the taking of its next message, else at each
    /// eighth turn that finds none an inquiry about its least attempt in doubt. A packet that bears no message for the site is left aside.
    /// Says whether it made a line. `Disk` comes only where a disk call failed, and from then on always; without memory nothing changes.
    pub fn turn<G: Gate>(&mut self, gate: &G) -> Result<bool, DoorErr>
        ensures turned { IfOk result (HasTurned N.sites self.old self.new) }
        ensures memory { IsErrOf result Err_is.Memory → self.new ≡ record self.old { empties = self.new.empties } }
        ensures disk { IsErrOf result Err_is.Disk → self.new ≡ record self.old { empties = self.new.empties; failed = true } }
        ensures broken { self.old.failed ≡ true → IsErrOf result Err_is.Disk }
    {
        gate.inside(self.actor.ends.site.0, self.actor.lines.len() as u32);
        if self.failed {
            return Err(DoorErr::Disk);
        }
        match self.actor.turn::<N>() {
            Ok(made) => Ok(made),
            Err(StepErr::Memory) => Err(DoorErr::Memory),
            Err(StepErr::Disk) => {
                self.failed = true;
                Err(DoorErr::Disk)
            }
        }
    }

    /// What a client asks of a transaction.
    fn call<G: Gate>(&mut self, verb: Verb, tx: Tx, gate: &G) -> Result<Answer, DoorErr>
        ensures served { IfOk result (HasServed N.sites self.old self.new (command_of verb tx) tx) }
        ensures memory { IsErrOf result Err_is.Memory → self.new ≡ self.old }
        ensures disk { IsErrOf result Err_is.Disk → self.new ≡ record self.old { failed = true } }
        ensures broken { self.old.failed ≡ true → IsErrOf result Err_is.Disk }
    {
        gate.inside(self.actor.ends.site.0, self.actor.lines.len() as u32);
        if self.failed {
            return Err(DoorErr::Disk);
        }
        match self.actor.serve::<N>(verb, tx) {
            Ok(answer) => Ok(answer),
            Err(StepErr::Memory) => Err(DoorErr::Memory),
            Err(StepErr::Disk) => {
                self.failed = true;
                Err(DoorErr::Disk)
            }
        }
    }
}
