//! A turn of the coordinator's host.
ghost use Rattle.std.specs.Prelude.{◌≡◌, ◌<◌, false, true, IfErr, IfOk, IsTrue, length};
ghost use Rattle.fed_hosts.specs.CoordKeeps.{CoordKeeps};
ghost use Rattle.fed_hosts.specs.CoordRooms.{HasCoordRoom};
ghost use Rattle.fed_hosts.specs.CoordServing.{HasCoordFailed, HoldsFrom};
ghost use Rattle.fed_hosts.specs.CoordTurns.{HasCoordTurned, RestartsCoord, TakesFrom};
ghost use Rattle.fed_hosts.specs.CoordViews.{coord_view_of};
ghost use Rattle.host_laws.specs.Plans.{most_lines};
ghost use Rattle.fed_hosts.specs.Ports.{empties_of};
ghost use Rattle.fed_hosts.specs.Rounds.{ArePutBack, HasArrived};

use crate::coord_actor::{CoordActor, CoordLineParts};
use crate::plans::Plan;
use crate::rounds::{Arrived, next_arrived};
use crate::site_actor::MOST_LINES;
use crate::turns::MOST_STAMP;
use fed_messages::decode_from;
use fed_rules::Command;
use global_exec::TakePolicy;
use global_manager::{CoordAsk, StepErr};
use journal_disk::Disk;

impl<P: TakePolicy, D: Disk> CoordActor<P, D> {
    /// A turn of the coordinator's own, which makes at most one line, and arms the next stop behind it. A coordinator that is down starts
    /// again; one that is up takes the next message, going round its sites: behind a message the next turn goes on at the port behind the
    /// one that gave it, and where none came, or it was put back, it begins where this one did. Says whether a line was made.
    pub(crate) fn turn<N: Plan>(&mut self) -> Result<bool, StepErr>
        requires told { IsTrue D.tells }
        requires keeps { CoordKeeps P.policy D.tells D.seen N.coordinator N.rings false self.old }
        ensures keeps { IfOk result (λ _. CoordKeeps P.policy D.tells D.seen N.coordinator N.rings false self.new) }
        ensures turned { IfOk result (HasCoordTurned N.coordinator (coord_view_of self.old false) (coord_view_of self.new false)) }
        ensures failed { IfErr result (HasCoordFailed P.policy D.tells D.seen N.coordinator N.rings self.new) }
        ensures same { IfErr result (λ _. coord_view_of self.new false ≡ record (coord_view_of self.old false) { empties = empties_of self.new.ports.items }) }
    {
        if self.lines.len() >= MOST_LINES {
            return Ok(false);
        }
        if self.reserve().is_err() {
            return Err(StepErr::Memory);
        }
        if self.manager.core().is_down() {
            return self.start::<N>();
        }
        match next_arrived(&mut self.ports, self.first) {
            Some(arrived) => match self.hear::<N>(arrived) {
                Ok(made) => {
                    self.first = arrived.place + 1;
                    Ok(made)
                }
                Err(why) => Err(why),
            },
            None => Ok(false),
        }
    }

    /// Starts the coordinator again.
    fn start<N: Plan>(&mut self) -> Result<bool, StepErr>
        requires told { IsTrue D.tells }
        requires few { length self.old.lines.items < most_lines }
        requires room { HasCoordRoom self.old }
        requires keeps { CoordKeeps P.policy D.tells D.seen N.coordinator N.rings false self.old }
        ensures keeps { IfOk result (λ _. CoordKeeps P.policy D.tells D.seen N.coordinator N.rings false self.new) }
        ensures turned { IfOk result (RestartsCoord (coord_view_of self.old false) (coord_view_of self.new false)) }
        ensures failed { IfErr result (HasCoordFailed P.policy D.tells D.seen N.coordinator N.rings self.new) }
        ensures same { IfErr result (λ _. coord_view_of self.new false ≡ coord_view_of self.old false) }
    {
        let step = self
            .manager
            .ask(self.alloc, &mut self.disk, CoordAsk::Back)?;
        self.carry(CoordLineParts {
            command: Command::Back { actor: 0 },
            answer: step.answer,
            sends: step.sends,
            after: 0,
        });
        Ok(true)
    }

    /// Takes a packet. One that spells no envelope, or has a stamp of 2^62 or more, is left aside. Where the message isn't answered the
    /// packet is put back.
    fn hear<N: Plan>(&mut self, arrived: Arrived) -> Result<bool, StepErr>
        requires told { IsTrue D.tells }
        requires few { length self.old.lines.items < most_lines }
        requires room { HasCoordRoom self.old }
        requires arrived { HasArrived self.old.ports.items arrived }
        requires keeps { HoldsFrom P.policy D.tells D.seen N.coordinator N.rings arrived self.old }
        ensures keeps { IfOk result (λ _. CoordKeeps P.policy D.tells D.seen N.coordinator N.rings false self.new) }
        ensures takes { IfOk result (TakesFrom N.coordinator arrived.place arrived.packet self.old.lines.items self.new.lines.items) }
        ensures others { IfOk result (λ _. coord_view_of self.new false ≡ record (coord_view_of self.old false) { lines = self.new.lines.items }) }
        ensures failed { IfErr result (HasCoordFailed P.policy D.tells D.seen N.coordinator N.rings self.new) }
        ensures same { IfErr result (λ _. self.new.lines.items ≡ self.old.lines.items) }
        ensures back { IfErr result (λ _. ArePutBack arrived self.old.ports.items self.new.ports.items) }
        ensures first { self.new.first ≡ self.old.first }
    {
        let Some(envelope) = decode_from(&arrived.packet) else {
            return Ok(false);
        };
        if envelope.stamp >= MOST_STAMP {
            return Ok(false);
        }
        let site = self.ports[arrived.place].ends.site;
        let ask = CoordAsk::Take {
            site,
            message: envelope.message,
        };
        match self.manager.ask(self.alloc, &mut self.disk, ask) {
            Ok(step) => {
                self.carry(CoordLineParts {
                    command: Command::Take {
                        site,
                        place: envelope.index,
                    },
                    answer: step.answer,
                    sends: step.sends,
                    after: envelope.stamp,
                });
                Ok(true)
            }
            Err(why) => {
                self.ports[arrived.place]
                    .ends
                    .inlet
                    .put_back(arrived.packet);
                Err(why)
            }
        }
    }
}
