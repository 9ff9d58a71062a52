//! The doors of hosts that lie behind locks. A client that got nowhere, or that begins again, leaves its processor to others for a while
//! (`drives`).
ghost use Rattle.std.specs.Prelude.{List};
ghost use Rattle.client_drivers.specs.Calls.{Called};

use crate::drives::Drive;
use crate::wakes::Sites;
use any_engine::AnyEngine;
use client_drivers::{Answer, CoordDoor, DoorErr, SiteDoor};
use conservative_take::AnyPolicy;
use fed_hosts::{CoordHost, Gate, Plan, SiteHost};
use journal_disk::Disk;
use mdb_base::{Tid, Tx};
use std::sync::{Mutex, Wait};

/// The door of a site's host. Each call takes the host's lock, and tells nothing, since other threads call the host too.
#[derive(Drop)]
pub(crate) struct SiteLock<'a, R: Wait, D: Disk, G: Gate, N: Plan> {
    pub(crate) rt: &'a R,
    pub(crate) host: &'a Mutex<SiteHost<AnyEngine, D, N>>,
    pub(crate) gate: &'a G,
    pub(crate) drive: Drive<'a>,
}

#[tactic(none)]
impl<'a, R: Wait, D: Disk, G: Gate, N: Plan> SiteDoor for SiteLock<'a, R, D, G, N> {
    ghost tells = { λ door. λ calls. ⊥ };

    fn begin(&mut self, tx: Tx) -> Result<Answer, DoorErr> {
        self.drive.stand_back();
        self.host.lock(self.rt).begin(tx, self.gate)
    }

    fn step(&mut self, tx: Tx) -> Result<Answer, DoorErr> {
        let answer = self.host.lock(self.rt).step(tx, self.gate);
        self.drive.pause(&answer);
        answer
    }

    fn commit(&mut self, tx: Tx) -> Result<Answer, DoorErr> {
        let answer = self.host.lock(self.rt).commit(tx, self.gate);
        self.drive.note_local();
        answer
    }

    fn abort(&mut self, tx: Tx) -> Result<Answer, DoorErr> {
        let answer = self.host.lock(self.rt).abort(tx, self.gate);
        self.drive.note_local();
        answer
    }

    fn fate(&mut self, tx: Tx) -> Result<Answer, DoorErr> {
        let answer = self.host.lock(self.rt).fate(tx, self.gate);
        self.drive.pause(&answer);
        self.drive.told(answer)
    }
}

/// The door of the coordinator's host. Each call takes the host's lock, and tells nothing, since other threads call the host too.
#[derive(Drop)]
pub(crate) struct CoordLock<'a, R: Wait, D: Disk, G: Gate, N: Plan> {
    pub(crate) rt: &'a R,
    pub(crate) host: &'a Mutex<CoordHost<AnyPolicy, D, N>>,
    pub(crate) gate: &'a G,
    pub(crate) drive: Drive<'a>,
}

#[tactic(none)]
impl<'a, R: Wait, D: Disk, G: Gate, N: Plan> CoordDoor for CoordLock<'a, R, D, G, N> {
    ghost tells = { λ door. λ calls. ⊥ };

    fn go(&mut self, tx: Tx) -> Result<Answer, DoorErr> {
        self.drive.stand_back();
        let mut host = self.host.lock(self.rt);
        let answer = host.go(tx, self.gate);
        let sites = Sites::of(host.last_sends());
        drop(host);
        self.drive.note_asked(sites);
        answer
    }

    fn fate(&mut self, tx: Tx) -> Result<Answer, DoorErr> {
        let answer = self.host.lock(self.rt).fate(tx, self.gate);
        self.drive.pause(&answer);
        self.drive.told(answer)
    }

    fn again(&mut self, tid: Tid) -> Result<Answer, DoorErr> {
        let mut host = self.host.lock(self.rt);
        let answer = host.again(tid, self.gate);
        let sites = Sites::of(host.last_sends());
        drop(host);
        self.drive.note_asked(sites);
        answer
    }

    fn late(&mut self, tid: Tid) -> Result<Answer, DoorErr> {
        let mut host = self.host.lock(self.rt);
        let answer = host.late(tid, self.gate);
        let sites = Sites::of(host.last_sends());
        drop(host);
        self.drive.note_asked(sites);
        answer
    }
}
