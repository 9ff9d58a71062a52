//! What the tests note of an attempt, so that each call is made only where it may come.
use mdb_base::Tid;

/// How far the unended run of an attempt has come.
#[derive(Clone, Copy)]
pub enum Stage {
    /// There is none.
    Free,
    /// It is live and has no ticket.
    Live,
    /// It is live and has its ticket.
    Ticketed,
    Sealed,
}

/// How far an attempt has come.
#[derive(Clone, Copy)]
pub struct Note {
    pub tid: Tid,
    pub stage: Stage,
}
