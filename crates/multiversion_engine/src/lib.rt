//! Multiversion timestamp order with strict writes (Bernstein, Hadzilacos, Goodman 1987).
//!
//! A run draws its number at its begin, and that is its place in the serial order. A read answers the run's own last write of the key,
//! and else the version that the committed runs with smaller numbers left. It never comes too late, and waits only for an older run
//! that wrote the key and hasn't ended. A write comes too late where a younger run has read or written the key, though of an aborted
//! one only the reads count; else it waits for the older unended writer. The ticket is taken in the order of the numbers, and every
//! sealing passes.
//!
//! The table has the newest version of each key. The one that a write is to supersede is noted where that write is granted, so a commit
//! takes no memory. At a commit, of each key that it wrote, those superseded versions are dropped that no unended run reads. A sealed
//! run counts among these until it ends, since its sealing may be taken back. An access takes time by the logarithm of the keys, the
//! runs and the versions, and by the count of the run's own accesses.
#![tactic(auto)]

mod engine;
mod laws;
mod noted;
mod old_versions;
mod unended;

pub use engine::MultiversionEngine;
pub use laws::each_run_reads_its_version;
