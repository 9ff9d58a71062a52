//! The core of the coordinator: it answers each event from its tables of attempts, its ticket graph, its own journal and its own disk.
//!
//! A core stands for the protocols of the sites, its policy, and a list of what happened. Each step answers and sends as the rules say of
//! that list, and the core then stands for the list with that line added; a stop may come right after any disk call. It is generic in the
//! policy and in the disk.
//!
//! That list begins with nothing, or with the past that a journal stands for which was found on the disk: of an actor that wrote exactly these
//! records and then stopped. Then the coordinator is down, and its first start knows what the journal hasn't forgotten.
//!
//! It answers every event: new attempts, messages of sites, repeats, timeouts, fates, halts, trips, Checkpoints and starts. Without memory
//! it stands for the same list.
//!
//! The graph forgets: at the end of each line that decides an attempt, and at each start, a committed attempt is dropped that can lie on no
//! cycle to come by the tickets that counted of the undecided attempts (this project's profile). Where a ticket of an attempt that is
//! tried lies below what was dropped, the graph is made anew from all Commit records, so every decision is exact whatever messages come.
//!
//! Its tables, with their agreement with that list, are those of `coord_tables`.
#![tactic(auto)]

mod acks;
mod answering;
mod arming;
mod checking;
mod coord;
mod deciding;
mod ending;
mod going;
mod listing;
mod quiet;
mod reopening;
mod repeating;
mod sending;
mod starting;
mod trying;
mod votes;

pub use actor_store::StepErr;
pub use coord::CoordCore;
pub use fed_rules::{CoordEvent, CoordRecord, CoordStep};
