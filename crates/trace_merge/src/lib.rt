//! The lines of all actors in one list, by their stamps (Lamport 1978).
#![tactic(auto)]

mod laws;
mod merge;
mod rest;

pub use fed_rules::{Line, Stamped, StampedLines};
pub use laws::{
    deliveries_stand_behind_their_sendings, each_list_splits, earlier_lines_stand_before,
    lists_have_one_trace,
};
pub use merge::merge_traces;
