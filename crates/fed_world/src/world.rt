//! The world of a session.
ghost use Rattle.std.specs.Prelude.{◌≡◌, ◌∷◌, Bool, IfErr, List, OnErr, OnOk, IsTrue, map};
ghost use Rattle.journal_disk.specs.Disk.{Seen};
ghost use Rattle.fed_world.specs.Faults.{CountsTell};
ghost use Rattle.fed_world.specs.Worlds.{AddsLine, EachStory, EachWhere, FailsAt, HasLineRoom, HasRoom, IsSameWorld, SomeStory, Stands, lines_of};

use crate::cores::Cores;
use crate::errors::WorldErr;
use fed_rules::{Command, Line, Place};
use journal_disk::Disk;
use mdb_base::{Memory, Tid};
use session_routes::{Routes, Traffic};
use std::alloc::Global;

/// A session: its actors with the scenario, who hears of a command, the messages to and from each site, by rising site, the lines made so
/// far, whether a disk call failed, and where it goes on from disks the global attempts that a record there names; with the memory in which
/// the places of what the coordinator sends are gathered.
#[derive(Drop)]
pub struct World {
    pub(crate) cores: Cores,
    pub(crate) routes: Routes,
    pub(crate) traffic: Vec<Traffic>,
    pub(crate) lines: Vec<Line>,
    pub(crate) broken: bool,
    pub(crate) begun: Option<Vec<Tid>>,
    pub(crate) places: Vec<Place>,
}

impl World {
    /// Makes room for the lines of so many further commands. It changes nothing else, also without memory.
    pub fn make_room(&mut self, commands: usize) -> Result<(), Memory>
        ensures room { OnOk result (HasLineRoom commands self.new) }
        ensures same { IsSameWorld self.old self.new }
        ensures stands { (tells : Bool) (disks : List Seen) → EachStory (Stands tells self.old disks) (Stands tells self.new disks) }
    {
        self.lines.reserve(commands)?;
        Ok(())
    }

    /// Carries out a command, and adds its line behind those made before, which stay as they are. Without memory all stays as it was. Where
    /// a disk call of an actor fails, which is told with the actor's number, the world is broken and there is no line: that actor, in memory
    /// and on its disk, is as some stop within the event of this command leaves it, and each other one is as it was.
    pub fn apply<D: Disk>(
        &mut self,
        alloc: Global,
        disks: &mut Vec<D>,
        command: Command,
    ) -> Result<(), WorldErr>
        requires told { IsTrue D.tells }
        requires stood { SomeStory (Stands D.tells self.old (map D.seen disks.old.items)) HasRoom }
        ensures applied { OnOk result (EachWhere (Stands D.tells self.old (map D.seen disks.old.items)) HasRoom (λ session commands. Stands D.tells self.new (map D.seen disks.new.items) session (command ∷ commands))) }
        ensures failed { IfErr result (λ why. EachWhere (Stands D.tells self.old (map D.seen disks.old.items)) HasRoom (FailsAt D.tells why self.new (map D.seen disks.new.items) command)) }
        ensures added { OnOk result (AddsLine self.old self.new command) }
        ensures kept { OnErr result (lines_of self.new ≡ lines_of self.old) }
        ensures cause { CountsTell result (map D.seen disks.old.items) (map D.seen disks.new.items) }
    {
        let Ok(()) = self.lines.reserve(1) else {
            return Err(WorldErr::Memory);
        };
        match self.hear(alloc, disks, &command) {
            Ok(()) => Ok(()),
            Err(WorldErr::Disk { number }) => {
                self.broken = true;
                Err(WorldErr::Disk { number })
            }
            Err(WorldErr::Memory) => Err(WorldErr::Memory),
        }
    }
}
