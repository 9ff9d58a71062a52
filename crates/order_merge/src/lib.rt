//! One order for all sites: the least merge of the site orders, and whether another one is a merge of them.
#![tactic(auto)]

mod checking;
mod merge;
mod queue;

pub use checking::is_merge;
pub use merge::merge_orders;
