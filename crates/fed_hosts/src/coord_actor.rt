//! The coordinator's front with all that its host keeps.
ghost use Rattle.std.specs.Prelude.{◌≡◌, OnOk};
ghost use Rattle.fed_hosts.specs.CoordRooms.{HasCoordRoom, IsSameCoord};

use crate::ports::Port;
use crate::posting::make_room;
use fed_rules::{Answer, Command, Place, Sends, Stamped, StopLine};
use global_exec::TakePolicy;
use global_manager::GlobalManager;
use journal_disk::Disk;
use mdb_base::Memory;
use std::alloc::Global;

/// A global transaction manager with its disk, and what its host keeps: its ends of the rings to and from each site, by rising site, with
/// the messages that were sent, the scripted stops and how many of them were armed, the stamped lines, the last stamp, the port whose inlet
/// is asked first at the next turn, and room for the places of what a line sends.
#[derive(Drop)]
pub(crate) struct CoordActor<P: TakePolicy, D: Disk> {
    pub(crate) alloc: Global,
    pub(crate) manager: GlobalManager<P>,
    pub(crate) disk: D,
    pub(crate) ports: Vec<Port>,
    pub(crate) stops: Vec<StopLine>,
    pub(crate) armed: usize,
    pub(crate) lines: Vec<Stamped>,
    pub(crate) last: u64,
    pub(crate) first: usize,
    pub(crate) spare: Vec<Place>,
}

/// What a line of the coordinator is made of: the command with its answer, the messages that it sends, and the stamp of the message that it
/// takes, 0 without one.
#[derive(Drop)]
pub(crate) struct CoordLineParts {
    pub(crate) command: Command,
    pub(crate) answer: Answer,
    pub(crate) sends: Sends,
    pub(crate) after: u64,
}

impl<P: TakePolicy, D: Disk> CoordActor<P, D> {
    /// Makes room for two lines, of which one sends a message to each site, and for the places of these. It changes nothing else, also
    /// without memory.
    pub(crate) fn reserve(&mut self) -> Result<(), Memory>
        ensures room { OnOk result (HasCoordRoom self.new) }
        ensures same { IsSameCoord self.old self.new }
        ensures first { self.new.first ≡ self.old.first }
    {
        self.lines.try_reserve(2)?;
        make_room(&mut self.ports)?;
        self.spare.clear();
        self.spare.try_reserve(self.ports.len())?;
        Ok(())
    }
}
