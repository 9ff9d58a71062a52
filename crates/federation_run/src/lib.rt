//! A scenario in threads: a task for the coordinator, one for each declared site and one for each client. Each host lies behind a lock of
//! its own, so no lock covers the whole, and messages go over rings with the scenario's scripts.
//!
//! What a lock gives is known by its type alone: a host keeps that its lines replay to what it runs. After the tasks are done the hosts
//! are taken apart, the two ends of each ring meet in one thread, and the lines are merged by their stamps (Lamport 1978): they are right
//! lines, whatever the interleaving was.
#![tactic(auto)]

mod clients;
mod closing_up;
mod doors;
mod drives;
mod errors;
mod hosts;
mod laws;
mod lefts;
mod moves;
mod running;
mod scripts;
mod seats;
mod settling;
mod sorting;
mod stops;
mod tasks;
mod wakes;
mod wired;
mod wiring;

pub use errors::RunErr;
pub use fed_hosts::{Gate, NoGate};
pub use running::run_threads;
