//! What is on the disk of an actor, in bytes: the records of its past, and the rest of one that a stop tore; and which stops within an event
//! a failed disk call may be.
//!
//! Each function here does nothing. Its contract is a theorem.
#![tactic(auto)]

mod standing;

pub use standing::{coordinators_hold_their_records, sites_hold_their_records};
