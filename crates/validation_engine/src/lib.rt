//! Backward validation (Härder 1984): every access is granted, and a run is tested when it is sealed. That the writes of prepared
//! runs count in the test is this project's profile, and so is that a ticket (Georgakopoulos, Rusinkiewicz, Sheth 1994) is
//! published at sealing, where it must still be the next one. Who makes a key bad is found by the key, and not by a walk over the
//! runs.
#![tactic(auto)]

mod engine;
mod index;
mod rule;

pub use engine::ValidationEngine;
