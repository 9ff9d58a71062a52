//! The coordinator's host taken apart.
use crate::ports::Port;
use fed_rules::StampedLines;
use global_exec::TakePolicy;
use global_manager::GlobalManager;
use journal_disk::Disk;

/// What the host of the coordinator leaves: its front and its disk, its lines in their order, for each site, by rising site, its ends and
/// the messages that it sent there in the order of sending, and whether a disk call failed.
#[derive(Drop)]
pub struct CoordParts<P: TakePolicy, D: Disk> {
    pub manager: GlobalManager<P>,
    pub disk: D,
    pub lines: StampedLines,
    pub ports: Vec<Port>,
    pub failed: bool,
}
