//! Whether a session may go on from the journals that stand on its disks: each rule of a usable journal as a test of its own, exact both ways.
//!
//! A journal is given as its records, the oldest first. Each test walks over the records once, with ordered sets and maps, so that all of them
//! together take n log n steps in what the journal holds; the test of the ticket graph takes a step more for each committed transaction, of which
//! there are at most as many as transactions. A test answers no at the first record that breaks its rule.
#![tactic(auto)]

mod awaited;
mod beginnings;
mod below;
mod checkpoints;
mod coord_order;
mod coord_sums;
mod coordinators;
mod copies;
mod cycles;
mod epochs;
mod front_order;
mod fronts;
mod journals;
mod keys;
mod named_sites;
mod numbers;
mod owners;
mod parted;
mod rising;
mod same_sums;
mod site_below;
mod site_once;
mod site_sums;
mod site_tickets;
mod sites;
mod unnamed;

pub use coordinators::is_usable_coordinator;
pub use journals::first_foreign;
pub use sites::is_usable_site;
