//! Strict two-phase locking with wait-die (Bernstein, Hadzilacos, Goodman 1987), with the ticket as one more item that its
//! taker holds exclusively until it is sealed or aborted (tickets: Georgakopoulos, Rusinkiewicz, Sheth 1994). Who holds a key is found
//! by the key, and not by a walk over the runs.
#![tactic(auto)]

mod by_age;
mod engine;
mod holders;
mod key_lists;
mod rule;

pub use engine::LockingEngine;
