//! Why a run has no world.
use fed_rules::Lines;

/// Why a run has no world.
#[derive(Drop)]
pub enum RunErr {
    /// A call of the disk of this actor failed, and of no lesser one. The lines are those of all hosts by their stamps.
    Disk { number: u8, lines: Lines },
    /// There is no memory.
    Memory,
}
