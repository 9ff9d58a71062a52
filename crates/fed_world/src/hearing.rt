//! How a command comes to its actor, and its line behind the others.
ghost use Rattle.std.specs.Prelude.{◌≡◌, ◌<◌, IsTrue, IfErr, OnErr, OnOk, map, vec_len, vec_capacity};
ghost use Rattle.fed_world.specs.Faults.{CountsTell};
ghost use Rattle.fed_world.specs.Lines.{AddsWhere};
ghost use Rattle.fed_world.specs.Worlds.{EachCoordAsk, EachSiteAsk, EachWhere, HasRoom, IsHeard, IsUnheard, KeepsRest, SomeCoordAsk, SomeSiteAsk, SomeStory, Stands, error_of, lines_of};

use crate::asks::Asked;
use crate::errors::WorldErr;
use crate::seats::tell_seat;
use crate::world::World;
use fed_rules::{Answer, Command, Line, Places};
use global_manager::CoordAsk;
use journal_disk::Disk;
use local_dbms::{SiteAsk, StepErr};
use session_routes::{make_room, post};
use std::alloc::Global;

/// Why the disk of this actor gave no line.
fn world_err(number: u8, why: StepErr) -> WorldErr
    ensures { result ≡ error_of number why }
{
    match why {
        StepErr::Disk => WorldErr::Disk { number },
        StepErr::Memory => WorldErr::Memory,
    }
}

impl World {
    /// The site at this place hears what the command asks of it, and the line is put behind the others, where there is room.
    #[tactic(none)]
    fn at_site<D: Disk>(
        &mut self,
        alloc: Global,
        disks: &mut Vec<D>,
        command: &Command,
        place: usize,
        ask: SiteAsk,
    ) -> Result<(), WorldErr>
        requires told { IsTrue D.tells }
        requires room { vec_len self.old.lines < vec_capacity self.old.lines }
        requires stood { SomeSiteAsk (Stands D.tells self.old (map D.seen disks.old.items)) place ask }
        ensures heard { OnOk result (AddsWhere (lines_of self.old) (lines_of self.new) command.now (λ line. EachSiteAsk (Stands D.tells self.old (map D.seen disks.old.items)) place ask (IsHeard D.tells self.new (map D.seen disks.new.items) line))) }
        ensures failed { IfErr result (λ why. EachSiteAsk (Stands D.tells self.old (map D.seen disks.old.items)) place ask (IsUnheard D.tells why self.new (map D.seen disks.new.items))) }
        ensures kept { OnErr result (lines_of self.new ≡ lines_of self.old) }
        ensures keeps { KeepsRest self.old self.new }
        ensures cause { CountsTell result (map D.seen disks.old.items) (map D.seen disks.new.items) }
    {
        let traffic = &mut self.traffic[place];
        let number = traffic.site.0;
        let told = tell_seat(
            &mut self.cores.sites.items[place],
            &mut self.cores.marks[place],
            traffic,
            &mut self.lines,
            alloc,
            &mut disks[number as usize],
            command,
            ask,
        );
        match told {
            Ok(()) => Ok(()),
            Err(why) => Err(world_err(number, why)),
        }
    }

    /// The coordinator hears what the command asks of it, what it sends is put into the channels, and the line behind the others, where there
    /// is room. Room for the rest is made before.
    #[tactic(none)]
    fn at_coordinator<D: Disk>(
        &mut self,
        alloc: Global,
        disks: &mut Vec<D>,
        command: &Command,
        ask: CoordAsk,
    ) -> Result<(), WorldErr>
        requires told { IsTrue D.tells }
        requires room { vec_len self.old.lines < vec_capacity self.old.lines }
        requires stood { SomeCoordAsk (Stands D.tells self.old (map D.seen disks.old.items)) ask }
        ensures heard { OnOk result (AddsWhere (lines_of self.old) (lines_of self.new) command.now (λ line. EachCoordAsk (Stands D.tells self.old (map D.seen disks.old.items)) ask (IsHeard D.tells self.new (map D.seen disks.new.items) line))) }
        ensures failed { IfErr result (λ why. EachCoordAsk (Stands D.tells self.old (map D.seen disks.old.items)) ask (IsUnheard D.tells why self.new (map D.seen disks.new.items))) }
        ensures kept { OnErr result (lines_of self.new ≡ lines_of self.old) }
        ensures keeps { KeepsRest self.old self.new }
        ensures cause { CountsTell result (map D.seen disks.old.items) (map D.seen disks.new.items) }
    {
        let Ok(()) = make_room(&mut self.traffic) else {
            return Err(WorldErr::Memory);
        };
        self.places.clear();
        let Ok(()) = self.places.reserve(self.traffic.len()) else {
            return Err(WorldErr::Memory);
        };
        match self.cores.coordinator.ask(alloc, &mut disks[0], ask) {
            Ok(step) => {
                post(&mut self.traffic, step.sends.as_slice(), &mut self.places);
                self.lines.push_reserved(Line {
                    command: *command,
                    answer: step.answer,
                    sends: Places::taken(alloc, &mut self.places),
                });
                Ok(())
            }
            Err(why) => Err(world_err(0, why)),
        }
    }

    /// The actor of a command hears of it, and its line is put behind the others, where there is room.
    pub(crate) fn hear<D: Disk>(
        &mut self,
        alloc: Global,
        disks: &mut Vec<D>,
        command: &Command,
    ) -> Result<(), WorldErr>
        requires told { IsTrue D.tells }
        requires room { vec_len self.old.lines < vec_capacity self.old.lines }
        requires stood { SomeStory (Stands D.tells self.old (map D.seen disks.old.items)) HasRoom }
        ensures heard { OnOk result (AddsWhere (lines_of self.old) (lines_of self.new) command.now (λ line. EachWhere (Stands D.tells self.old (map D.seen disks.old.items)) HasRoom (IsHeard D.tells self.new (map D.seen disks.new.items) line command.now))) }
        ensures failed { IfErr result (λ why. EachWhere (Stands D.tells self.old (map D.seen disks.old.items)) HasRoom (IsUnheard D.tells why self.new (map D.seen disks.new.items) command.now)) }
        ensures kept { OnErr result (lines_of self.new ≡ lines_of self.old) }
        ensures keeps { KeepsRest self.old self.new }
        ensures cause { CountsTell result (map D.seen disks.old.items) (map D.seen disks.new.items) }
    {
        match self.asked(command) {
            Asked::Site { place, ask } => self.at_site(alloc, disks, command, place, ask),
            Asked::Coordinator(ask) => self.at_coordinator(alloc, disks, command, ask),
            Asked::Nobody => {
                self.lines.push_reserved(Line {
                    command: *command,
                    answer: Answer::None,
                    sends: Places::none(),
                });
                Ok(())
            }
        }
    }
}
