//! The coordinator's table of known attempts: their votes, decisions and acknowledgements, and the answers to inquiries about them.
//!
//! Which acknowledgement is required, and that an attempt is forgotten when the required ones are in, is of the Presumed Any
//! coordinator of Al-Houmaily and Chrysanthis (PODS 1999) with this project's profile of records and acknowledgements.
#![tactic(auto)]

mod classes;
mod ends;
mod entries;
mod known;
mod laws;
mod members;
mod table;

pub use ends::{AckEnd, Said, VoteEnd};
pub use known::{Known, Restored};
pub use laws::{known_attempts_are_as_the_past, known_attempts_go_with_the_past};
pub use members::{Member, Members};
pub use table::ProtocolTable;
