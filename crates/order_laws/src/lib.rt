//! Chains, orders and their merge, for any type of element: the words that the rules of the federation cite, and their mathematics.
//!
//! Each function here does nothing. Its contract is a theorem.
#![tactic(auto)]

mod chain_laws;
mod merge_laws;
mod search_laws;
mod site_laws;
mod ticket_laws;

pub use chain_laws::{
    Node, cycle_free_when_accepted, cycle_free_when_mapped, cycle_free_when_ordered, has_source,
};
pub use merge_laws::{
    least_is_found, least_is_merge, least_is_one, least_is_said_twice, merge_is_once,
    merges_are_cycle_free,
};
pub use search_laws::search_is_exact;
pub use site_laws::sites_are_cycle_free;
pub use ticket_laws::{cycles_are_found, graph_stays_cycle_free, tids_are_ranked};
