//! What a line answers to its command.
use mdb_base::{Edges, Key, Reply, SiteId, Tid, Why};
use presumptions::Decision;

/// Why an attempt is decided abort.
#[derive(PartialEq, Eq, Drop)]
pub enum Cause {
    /// It was given up from outside.
    Late,
    /// A site refused by wait-die.
    Dies { site: SiteId, by: Tid },
    /// A site refused by timestamp order.
    TooLate { site: SiteId, by: Tid },
    /// A site doesn't know the operation.
    Unknown { site: SiteId },
    /// A site voted no.
    No { site: SiteId },
    /// It closes this cycle of ticket edges, which begins and ends at it.
    Cycle(Edges),
}

/// The answer of a line. Fields stand in the order in which they are printed.
#[derive(PartialEq, Eq, Drop)]
pub enum Answer {
    /// There is no such transaction, attempt or message.
    None,
    /// The actor is down.
    Down,
    Idle,
    /// All attempts were begun.
    Spent,
    /// The program has no further step.
    End,
    /// A step is left.
    Unfinished,
    Unbegun,
    /// The transaction is aborted.
    Ended,
    Set,
    /// The actor is up.
    Awake,
    /// The answer is what is sent alone.
    Only,
    Defers,
    Ignored,
    TookWaits,
    Voted,
    Acked,
    Forgets,
    Undecided,
    Initiates,
    /// The Checkpoint would be too long.
    Large,
    /// The Checkpoint is written, and what stood before it is trimmed.
    Checked,
    Committed(Tid),
    Running(Tid),
    Begun(Tid),
    Aborted(Tid),
    Unheld(Tid),
    Asks(Tid),
    Dropped(Tid),
    Read(Key, u64),
    Wrote(Key, u64),
    Waits(Tid),
    Dies(Tid),
    Late(Tid),
    Invalid(Tid, Key),
    /// A local commit, with its serial number.
    Sealed(Tid, u64),
    /// The actor stopped, and so many whole frames are kept.
    Stopped(u64),
    Did(Tid, Reply),
    VotesYes(Tid, u64),
    /// A no vote, with the refusal of the sealing; `None` is a Prepare that fits nothing.
    VotesNo(Tid, Option<Why>),
    Settles(Tid, Decision),
    /// An inquiry about a known attempt.
    Answers(Decision),
    /// An inquiry about an attempt that isn't known.
    Presumes(Decision),
    /// A decision, its cause exactly on abort, and whether the attempt is forgotten in the same line.
    Decides {
        decision: Decision,
        cause: Option<Cause>,
        forgets: bool,
    },
    UpSite {
        epoch: u32,
        doubtful: u32,
    },
    UpCoord {
        known: u32,
    },
}
