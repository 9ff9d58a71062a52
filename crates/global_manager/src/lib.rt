//! The coordinator of a federation, seen from its own past alone: its core, and the programs of the global transactions that are submitted to
//! it by their numbers (the global transaction manager of Georgakopoulos, Rusinkiewicz, Sheth 1994). A world of actors and a host behind a
//! lock use it alike.
#![tactic(auto)]

mod asks;
mod looks;
mod manager;
mod operations;
mod programs;
mod requests;

pub use asks::CoordAsk;
pub use coord_core::StepErr;
pub use manager::GlobalManager;
