//! The table of a site: each key with its value and the number of its last writer.
//!
//! A write with a smaller number than the kept one changes nothing, so writes may be installed in any order, and the table is the
//! one that the writes by rising number give. Look-ups and writes go through a hash table, so each takes constant time.
#![tactic(auto)]

mod numbers;
mod tables;
mod versions;

pub use tables::Tables;
