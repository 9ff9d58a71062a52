//! How a section can fail to come out as it says.
use journal_disk::Failed;
use mdb_base::Memory;
use std::alloc::{AllocError, AllocFailed};

/// What is wrong with a section.
#[derive(Clone, Copy)]
pub(crate) enum Wrong {
    /// Its header isn't one.
    Header,
    /// Its lines don't say what its header asks for.
    Body,
    /// The file of its lines isn't read.
    File,
    /// The call ended with this status.
    Status(u8),
    /// The output is another one from this line on.
    Output { line: u32 },
    /// The line of this number doesn't stand exactly once in the output.
    Line { line: u32 },
    /// This transaction doesn't stand exactly once in the order.
    Order { tx: u32 },
    /// The disk holds other bytes, or a call of it failed while it was read.
    Disk,
    /// What is swept differs at this call, byte or message.
    Swept(u32),
    /// There are so many of them.
    Count(u32),
    /// Memory is out.
    Memory,
}

impl Wrong {
    /// What it is, and the number that belongs to it.
    pub fn said(self) -> (&'static str, Option<u32>) {
        match self {
            Wrong::Header => ("no such header", None),
            Wrong::Body => ("the lines below don't fit", None),
            Wrong::File => ("the file isn't read", None),
            Wrong::Status(status) => ("the status is", Some(u32::from(status))),
            Wrong::Output { line } => ("the output differs at its line", Some(line)),
            Wrong::Line { line } => ("not once in the output: line", Some(line)),
            Wrong::Order { tx } => ("not once in the order: transaction", Some(tx)),
            Wrong::Disk => ("the disk holds other bytes", None),
            Wrong::Swept(number) => ("it differs at number", Some(number)),
            Wrong::Count(count) => ("their number is", Some(count)),
            Wrong::Memory => ("out of memory", None),
        }
    }
}

impl From<Memory> for Wrong {
    fn from(_: Memory) -> Wrong {
        Wrong::Memory
    }
}

impl From<AllocError> for Wrong {
    fn from(_: AllocError) -> Wrong {
        Wrong::Memory
    }
}

impl<T: Drop> From<AllocFailed<T>> for Wrong {
    fn from(_: AllocFailed<T>) -> Wrong {
        Wrong::Memory
    }
}

impl From<Failed> for Wrong {
    fn from(_: Failed) -> Wrong {
        Wrong::Disk
    }
}
