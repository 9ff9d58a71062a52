//! Programs run alone, one after another, on the tables of all sites: what a serial order means.
#![tactic(auto)]

mod all_tables;
mod running;

pub use all_tables::AllTables;
pub use running::{Reads, run_alone, run_serial};
