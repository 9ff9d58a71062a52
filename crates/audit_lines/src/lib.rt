//! Whether a printed line is the one that is due: its answer, its places, and the cycle that a refusal names. Nothing here has a world; the due line, the
//! coordinator's records and what it knows of the candidate are handed in.
#![tactic(auto)]

mod answers;
mod cycles;
mod edges;
mod faults;
mod names;
mod tellings;
mod votes;

pub use answers::edges_named;
pub use faults::fault_of;
pub use names::names_declared;
pub use votes::Candidate;
