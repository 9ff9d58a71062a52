//! A turn of a site's host.
ghost use Rattle.std.specs.Prelude.{◌≡◌, ◌<◌, ◌++◌, ◌∷◌, [], false, true, None, length, IfOk, IfErr, IsTrue};
ghost use Rattle.fed_rules.specs.Happenings.{is_down};
ghost use Rattle.site_core.specs.Made.{about};
ghost use Rattle.scripted_link.specs.Inlets.{empty_count, returned, taken};
ghost use Rattle.fed_hosts.specs.Keeps.{HoldsPacket, Keeps};
ghost use Rattle.host_laws.specs.Plans.{most_lines};
ghost use Rattle.fed_hosts.specs.Rooms.{HasRoom};
ghost use Rattle.fed_hosts.specs.Serving.{HasFailed};
ghost use Rattle.local_dbms.specs.Stands.{Each_site, Stands};
ghost use Rattle.fed_hosts.specs.Turns.{HasTurned, Inquires, Listens, Restarts, Takes};
ghost use Rattle.fed_hosts.specs.Views.{view_of};

use crate::plans::Plan;
use crate::site_actor::{LineParts, MOST_LINES, SiteActor};
use engine_contract::LocalEngine;
use fed_messages::{Packet, decode_to};
use fed_rules::{Command, ToSite};
use journal_disk::Disk;
use local_dbms::{SiteAsk, StepErr};
use mdb_base::Tid;

/// Stamps of messages are below this; a packet with any other is left aside.
pub(crate) const MOST_STAMP: u64 = 1 << 62;

/// At each eighth turn that finds no message a site asks about its least attempt in doubt.
const IDLE_TURNS: u8 = 8;

/// The attempt that a message is about.
fn about(message: &ToSite) -> Tid
    ensures { result ≡ about message.now }
{
    match message {
        ToSite::Work { tid, .. } => *tid,
        ToSite::Take { tid, .. } => *tid,
        ToSite::Prepare { tid, .. } => *tid,
        ToSite::Decide { tid, .. } => *tid,
    }
}

impl<E: LocalEngine, D: Disk> SiteActor<E, D> {
    /// A turn of the site's own, which makes at most one line, and arms the next stop behind it. A site that is down starts again; one
    /// that is up takes the next message; at each eighth turn that finds none it asks about its least attempt in doubt. Says whether a
    /// line was made.
    pub(crate) fn turn<N: Plan>(&mut self) -> Result<bool, StepErr>
        requires told { IsTrue D.tells }
        requires keeps { Keeps E.stands D.tells D.seen N.sites N.rings false self.old }
        ensures keeps { IfOk result (λ _. Keeps E.stands D.tells D.seen N.sites N.rings false self.new) }
        ensures turned { IfOk result (HasTurned N.sites (view_of self.old false) (view_of self.new false)) }
        ensures failed { IfErr result (HasFailed E.stands D.tells D.seen N.sites N.rings self.new) }
        ensures same { IfErr result (λ _. view_of self.new false ≡ record (view_of self.old false) { empties = empty_count self.new.ends.inlet }) }
    {
        if self.lines.len() >= MOST_LINES {
            return Ok(false);
        }
        if self.reserve().is_err() {
            return Err(StepErr::Memory);
        }
        if self.dbms.core().is_down() {
            return self.start::<N>();
        }
        self.listen::<N>()
    }

    /// Takes the next message, or counts a turn that found none.
    fn listen<N: Plan>(&mut self) -> Result<bool, StepErr>
        requires told { IsTrue D.tells }
        requires few { length self.old.lines.items < most_lines }
        requires room { HasRoom self.old }
        requires keeps { Keeps E.stands D.tells D.seen N.sites N.rings false self.old }
        ensures keeps { IfOk result (λ _. Keeps E.stands D.tells D.seen N.sites N.rings false self.new) }
        ensures listens { Each_site (Stands E.stands D.tells self.old.dbms (D.seen self.old.disk)) (λ home programs past.
            is_down past ≡ false → IfOk result (Listens programs home past (view_of self.old false) (view_of self.new false))) }
        ensures failed { IfErr result (HasFailed E.stands D.tells D.seen N.sites N.rings self.new) }
        ensures same { IfErr result (λ _. view_of self.new false ≡ record (view_of self.old false) { empties = empty_count self.new.ends.inlet }) }
    {
        match self.ends.inlet.next() {
            Some(packet) => self.hear::<N>(packet),
            None => self.inquire::<N>(),
        }
    }

    /// Starts the site again.
    fn start<N: Plan>(&mut self) -> Result<bool, StepErr>
        requires told { IsTrue D.tells }
        requires few { length self.old.lines.items < most_lines }
        requires room { HasRoom self.old }
        requires keeps { Keeps E.stands D.tells D.seen N.sites N.rings false self.old }
        ensures keeps { IfOk result (λ _. Keeps E.stands D.tells D.seen N.sites N.rings false self.new) }
        ensures turned { IfOk result (Restarts (view_of self.old false) (view_of self.new false)) }
        ensures failed { IfErr result (HasFailed E.stands D.tells D.seen N.sites N.rings self.new) }
        ensures same { IfErr result (λ _. view_of self.new false ≡ view_of self.old false) }
    {
        let step = self.dbms.ask(self.alloc, &mut self.disk, SiteAsk::Back)?;
        self.carry(LineParts {
            command: Command::Back {
                actor: self.ends.site.0,
            },
            answer: step.answer,
            send: None,
            after: 0,
        });
        Ok(true)
    }

    /// Takes a packet. One that spells no envelope, or has a stamp of 2^62 or more, or is about a transaction of the site's own, is left
    /// aside. Where the message isn't answered the packet is put back.
    fn hear<N: Plan>(&mut self, packet: Packet) -> Result<bool, StepErr>
        requires told { IsTrue D.tells }
        requires few { length self.old.lines.items < most_lines }
        requires room { HasRoom self.old }
        requires keeps { HoldsPacket E.stands D.tells D.seen N.sites N.rings packet self.old }
        requires back { returned self.old.ends.inlet ≡ None }
        ensures keeps { IfOk result (λ _. Keeps E.stands D.tells D.seen N.sites N.rings false self.new) }
        ensures takes { Each_site (Stands E.stands D.tells self.old.dbms (D.seen self.old.disk)) (λ home programs past.
            IfOk result (Takes programs self.old.ends.site packet self.old.lines.items self.new.lines.items)) }
        ensures others { IfOk result (λ _. view_of self.new false ≡ record (view_of self.old false) { lines = self.new.lines.items }) }
        ensures failed { IfErr result (HasFailed E.stands D.tells D.seen N.sites N.rings self.new) }
        ensures same { IfErr result (λ _. self.new.lines.items ≡ self.old.lines.items) }
        ensures back { IfErr result (λ _. taken self.old.ends.inlet ≡ taken self.new.ends.inlet ++ packet ∷ []) }
        ensures site { self.new.ends.site ≡ self.old.ends.site }
        ensures idle { self.new.idle ≡ self.old.idle }
    {
        let Some(envelope) = decode_to(&packet) else {
            return Ok(false);
        };
        if envelope.stamp >= MOST_STAMP || self.dbms.is_own(about(&envelope.message).tx) {
            return Ok(false);
        }
        let ask = SiteAsk::Give(envelope.message);
        match self.dbms.ask(self.alloc, &mut self.disk, ask) {
            Ok(step) => {
                self.carry(LineParts {
                    command: Command::Give {
                        site: self.ends.site,
                        place: envelope.index,
                    },
                    answer: step.answer,
                    send: step.sends,
                    after: envelope.stamp,
                });
                Ok(true)
            }
            Err(why) => {
                self.ends.inlet.put_back(packet);
                Err(why)
            }
        }
    }

    /// Counts a turn that found no message, and at each eighth one asks about the least attempt in doubt.
    fn inquire<N: Plan>(&mut self) -> Result<bool, StepErr>
        requires told { IsTrue D.tells }
        requires few { length self.old.lines.items < most_lines }
        requires room { HasRoom self.old }
        requires keeps { Keeps E.stands D.tells D.seen N.sites N.rings false self.old }
        ensures keeps { IfOk result (λ _. Keeps E.stands D.tells D.seen N.sites N.rings false self.new) }
        ensures inquires { Each_site (Stands E.stands D.tells self.old.dbms (D.seen self.old.disk)) (λ home programs past.
            is_down past ≡ false → IfOk result (Inquires home past (view_of self.old false) (view_of self.new false))) }
        ensures others { IfOk result (λ _. view_of self.new false ≡ record (view_of self.old false) { lines = self.new.lines.items; idle = self.new.idle }) }
        ensures failed { IfErr result (HasFailed E.stands D.tells D.seen N.sites N.rings self.new) }
        ensures same { IfErr result (λ _. view_of self.new false ≡ view_of self.old false) }
    {
        if self.idle < IDLE_TURNS - 1 {
            self.idle += 1;
            return Ok(false);
        }
        let doubts = self.dbms.core().doubts();
        if doubts.len() == 0 {
            self.idle = 0;
            return Ok(false);
        }
        let tid = doubts.at(0).tid;
        let ask = SiteAsk::Ask(tid);
        let step = self.dbms.ask(self.alloc, &mut self.disk, ask)?;
        self.idle = 0;
        self.carry(LineParts {
            command: Command::Ask {
                site: self.ends.site,
                tid,
            },
            answer: step.answer,
            send: step.sends,
            after: 0,
        });
        Ok(true)
    }
}
