//! A run by its name and a number of it.
use mdb_base::Tid;

/// A run by its name, and the number by which it is compared: its age or its serial number.
#[derive(Clone, Copy, Debug, PartialEq, Eq)]
pub struct Rival {
    pub tid: Tid,
    pub rank: u64,
}
