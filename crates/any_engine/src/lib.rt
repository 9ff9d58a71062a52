//! An engine of any rule, so that one world has sites of each.
#![tactic(auto)]

mod engine;

pub use engine::AnyEngine;
