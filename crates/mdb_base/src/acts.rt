//! The steps of a program, and the plain reads and writes that they become.
use crate::names::{Key, SiteId};

/// A step's act. Values are numbers modulo 2^64, and an absent key reads 0.
#[derive(Clone, Copy, Debug, PartialEq, Eq)]
pub enum Act {
    Get(Key),
    Set(Key, u64),
    /// Writes the value of an earlier read of the same program plus an amount, modulo 2^64.
    /// Reads are numbered from 0 in program order, and that number is the register, 0 to 31.
    Add { key: Key, register: u8, amount: u64 },
}

/// A step of a program at its site.
#[derive(Clone, Copy, Debug, PartialEq, Eq)]
pub struct Step {
    pub site: SiteId,
    pub act: Act,
}

/// An act with its register filled in.
#[derive(Clone, Copy, Debug, PartialEq, Eq)]
pub enum PlainAct {
    Read(Key),
    Write(Key, u64),
}
