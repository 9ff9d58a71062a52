//! What an engine hands out at sealing, and what it is given of prepared transactions at a restart.
use mdb_base::{Puts, Tid};

/// A sealed transaction: its serial number, its ticket where it took one, and its writes by rising key.
#[derive(Drop)]
pub struct Sealed {
    pub number: u64,
    pub ticket: Option<u64>,
    pub writes: Puts,
}

/// A prepared transaction that a restart finds in doubt.
#[derive(Drop)]
pub struct Kept {
    pub tid: Tid,
    pub number: u64,
    pub ticket: u64,
    pub writes: Puts,
}

/// A prepared transaction in doubt, as its site speaks of it.
#[derive(Clone, Copy)]
pub struct Doubt {
    pub tid: Tid,
    pub epoch: u32,
    pub ticket: u64,
}
