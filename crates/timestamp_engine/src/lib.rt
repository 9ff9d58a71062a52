//! Strict timestamp order (Bernstein, Hadzilacos, Goodman 1987): a run's timestamp is the number drawn at its begin, and its
//! serial number too. The ticket is taken in the same order (tickets: Georgakopoulos, Rusinkiewicz, Sheth 1994). Who accessed a key is
//! found by the key, and not by a walk over the runs.
#![tactic(auto)]

mod engine;

pub use engine::TimestampEngine;
