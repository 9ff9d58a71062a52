//! A site's local database system with all that its host keeps.
ghost use Rattle.std.specs.Prelude.{◌≡◌, OnOk};
ghost use Rattle.fed_hosts.specs.Rooms.{HasRoom, IsSame};

use crate::ends::HostEnds;
use engine_contract::LocalEngine;
use fed_rules::{Answer, Command, FromSite, Stamped, StopLine};
use journal_disk::Disk;
use local_dbms::LocalDbms;
use mdb_base::Memory;
use std::alloc::Global;

/// How many lines a host makes.
pub(crate) const MOST_LINES: usize = 16_777_216;

/// How many attempts of a transaction a host begins: of the 32 there are, one is left for finishing.
pub(crate) const MOST_BEGUN: u32 = 31;

/// A site's local database system with its disk, and what its host keeps: its ends, the scripted stops and how many of them were armed,
/// the stamped lines, the messages that were sent, the last stamp, and how many turns found no message since the last eighth.
#[derive(Drop)]
pub(crate) struct SiteActor<E: LocalEngine, D: Disk> {
    pub(crate) alloc: Global,
    pub(crate) dbms: LocalDbms<E>,
    pub(crate) disk: D,
    pub(crate) ends: HostEnds,
    pub(crate) stops: Vec<StopLine>,
    pub(crate) armed: usize,
    pub(crate) lines: Vec<Stamped>,
    pub(crate) sent: Vec<FromSite>,
    pub(crate) last: u64,
    pub(crate) idle: u8,
}

/// What a line is made of: the command with its answer, the message that it sends, and the stamp of the message that it takes, 0 without
/// one.
#[derive(Drop)]
pub(crate) struct LineParts {
    pub(crate) command: Command,
    pub(crate) answer: Answer,
    pub(crate) send: Option<FromSite>,
    pub(crate) after: u64,
}

impl<E: LocalEngine, D: Disk> SiteActor<E, D> {
    /// Makes room for two lines, of which one sends a message. It changes nothing else, also without memory.
    pub(crate) fn reserve(&mut self) -> Result<(), Memory>
        ensures room { OnOk result (HasRoom self.new) }
        ensures same { IsSame self.old self.new }
        ensures idle { self.new.idle ≡ self.old.idle }
    {
        self.lines.try_reserve(2)?;
        self.sent.try_reserve(1)?;
        self.ends.outlet.reserve()
    }
}
