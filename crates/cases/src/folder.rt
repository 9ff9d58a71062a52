//! A folder of journals, in memory.
use crate::disks::{disk_with, journal_at};
use crate::faults::Faults;
use file_disks::{LONGEST_JOURNAL, OpenErr, Store};
use journal_disk::MemDisk;
use std::alloc::Global;

/// Opens disks with these journals, where one call of the opening or of a disk can fail. It tells nothing of them.
#[derive(Drop)]
pub(crate) struct Folder<'a> {
    alloc: Global,
    journals: &'a [Vec<u8>],
    faults: Faults,
    calls: u32,
    failed: u64,
}

impl<'a> Folder<'a> {
    /// A folder of which no call was made yet.
    pub fn new(alloc: Global, journals: &'a [Vec<u8>], faults: Faults) -> Folder<'a> {
        Folder {
            alloc,
            journals,
            faults,
            calls: 0,
            failed: 0,
        }
    }
}

impl<'a> Store<MemDisk> for Folder<'a> {
    ghost use Rattle.std.specs.Prelude.{false, []};

    ghost tells = { false };

    ghost journals = { λ _. [] };

    ghost faults = { λ folder. folder.failed };

    fn open_disk(&mut self, number: u8) -> Result<MemDisk, OpenErr> {
        self.calls = self.calls.saturating_add(1);
        if self.calls == self.faults.store {
            self.failed = self.failed.saturating_add(1);
            return Err(OpenErr::Failed);
        }
        let place = usize::from(number);
        let journal = journal_at(self.journals, place);
        if journal.len() as u64 > LONGEST_JOURNAL {
            return Err(OpenErr::Large);
        }
        Ok(disk_with(self.alloc, journal, self.faults.call_of(place))?)
    }
}
