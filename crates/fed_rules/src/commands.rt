//! Commands, and the lines that they become.
use crate::Places;
use crate::answers::Answer;
use mdb_base::{SiteId, Tid, Tx};

/// A command. Messages of a channel are numbered from 0 in the order in which they are sent.
#[derive(Clone, Copy)]
pub enum Command {
    Begin(Tx),
    Step(Tx),
    Commit(Tx),
    Abort(Tx),
    Fate(Tx),
    Go(Tx),
    Again(Tid),
    Late(Tid),
    /// The site takes this message of the channel to it.
    Give { site: SiteId, place: u32 },
    /// The coordinator takes this message of the channel from the site.
    Take { site: SiteId, place: u32 },
    Ask { site: SiteId, tid: Tid },
    Drop { site: SiteId, tid: Tid },
    /// Actor 0 is the coordinator, and actors 1 to 8 are the sites.
    Halt { actor: u8, cut: u64 },
    Trip { actor: u8, calls: u32, cut: u64 },
    Back { actor: u8 },
    /// Write a Checkpoint, and trim what stands before it.
    Check { actor: u8 },
}

/// The place of a sent message in the channel to or from a site, counted from 0.
#[derive(Clone, Copy, PartialEq, Eq)]
pub struct Place {
    pub site: SiteId,
    pub place: u32,
}

/// One command with its answer and the places of what it sent.
#[derive(Drop)]
pub struct Line {
    pub command: Command,
    pub answer: Answer,
    pub sends: Places,
}

/// A line with its stamp (Lamport 1978).
#[derive(Drop)]
pub struct Stamped {
    pub stamp: u64,
    pub line: Line,
}
