//! The graph of the tickets of committed attempts, which refuses an attempt that would close a cycle and forgets those that can lie
//! on no cycle to come (tickets and their graph are of Georgakopoulos, Rusinkiewicz, Sheth, TKDE 1994; what is forgotten is this
//! project's profile).
#![tactic(auto)]

mod added;
mod cycle_free;
mod entries;
mod find;
mod floors;
mod graph;
mod lowest;
mod ordered;
mod search;
mod steps;
mod verdict;

pub use added::Added;
pub use cycle_free::are_cycle_free;
pub use graph::TicketGraph;
pub use lowest::Lowest;
pub use verdict::Verdict;
