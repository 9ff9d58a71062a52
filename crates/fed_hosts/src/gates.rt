//! What a run may be watched and held by.

/// Is called at the start of each call on a host, under the host's lock, with the number of the host's actor (0 is the coordinator) and
/// with how many lines the host has made.
pub trait Gate: Drop {
    fn inside(&self, actor: u8, event: u32);
}

/// A gate that does nothing.
#[derive(Clone, Copy, Debug, PartialEq, Eq)]
pub struct NoGate;

impl Gate for NoGate {
    fn inside(&self, _actor: u8, _event: u32) {}
}
