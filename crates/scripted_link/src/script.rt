//! The script of a ring.
use mdb_base::{Fate, Keyed, Rising};

/// The fate of the packet that is offered at this place, counted from 0.
#[derive(Clone, Copy, Debug, PartialEq, Eq)]
pub struct FateAt {
    pub place: u32,
    pub fate: Fate,
}

impl Keyed for FateAt {
    ghost key = { λ f. f.place };
}

/// The fates of packets by rising place. Every other packet passes.
pub type LinkScript = Rising<FateAt>;
