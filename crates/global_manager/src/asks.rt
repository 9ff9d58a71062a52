//! What the coordinator may be asked.
use fed_rules::FromSite;
use mdb_base::{SiteId, Tid, Tx};

/// What is asked of the coordinator.
#[derive(Clone, Copy)]
pub enum CoordAsk {
    /// Submit the next attempt of a global transaction.
    Go(Tx),
    /// How did a global transaction end?
    Fate(Tx),
    /// Send again what is outstanding for an attempt, or its decision to those that have to acknowledge it.
    Again(Tid),
    /// Give an undecided attempt up.
    Late(Tid),
    /// Take a message of one of the coordinator's sites.
    Take { site: SiteId, message: FromSite },
    /// Stop, and keep at most so many bytes behind the synced ones.
    Halt { cut: u64 },
    /// Stop right after so many further disk calls; 0 disarms.
    Trip { calls: u32, cut: u64 },
    /// Start again.
    Back,
    /// Write a Checkpoint, and trim what stands before it.
    Check,
}
