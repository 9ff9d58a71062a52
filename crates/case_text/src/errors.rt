//! Why a file of cases isn't read.
use mdb_base::Memory;
use std::alloc::{AllocError, AllocFailed};

/// Why a file has no sections.
#[derive(Clone, Copy)]
pub enum CaseErr {
    /// The line of this number, counted from 1, spells nothing.
    BadLine(u32),
    /// There is no memory.
    Memory,
}

impl From<Memory> for CaseErr {
    fn from(_: Memory) -> CaseErr {
        CaseErr::Memory
    }
}

impl From<AllocError> for CaseErr {
    fn from(_: AllocError) -> CaseErr {
        CaseErr::Memory
    }
}

impl<T: Drop> From<AllocFailed<T>> for CaseErr {
    fn from(_: AllocFailed<T>) -> CaseErr {
        CaseErr::Memory
    }
}
