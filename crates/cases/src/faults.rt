//! Which calls of a run fail.
use crate::headers::{first_word, number};
use crate::wrong::Wrong;

/// The calls that fail, each counted from 1; at 0 none does. Of the disks it is a call of one.
#[derive(Clone, Copy)]
pub(crate) struct Faults {
    pub source: u32,
    pub sink: u32,
    pub store: u32,
    pub disk: u32,
    pub call: u32,
}

/// No call fails.
pub(crate) const NONE: Faults = Faults {
    source: 0,
    sink: 0,
    store: 0,
    disk: 0,
    call: 0,
};

impl Faults {
    /// Which call of this disk fails.
    pub fn call_of(&self, disk: usize) -> u32 {
        if disk == self.disk as usize {
            self.call
        } else {
            0
        }
    }

    /// This call of a disk alone fails.
    pub fn of_disk(disk: u32, call: u32) -> Faults {
        Faults { disk, call, ..NONE }
    }
}

/// These, and the call that the words name: of the source, the sink or the store, or of a disk.
pub(crate) fn with_failing(faults: Faults, words: &str) -> Result<Faults, Wrong> {
    let (what, rest) = first_word(words);
    let (first, second) = first_word(rest);
    let call = number(first)?;
    match what {
        "source" => Ok(Faults {
            source: call,
            ..faults
        }),
        "sink" => Ok(Faults {
            sink: call,
            ..faults
        }),
        "store" => Ok(Faults {
            store: call,
            ..faults
        }),
        "disk" => Ok(Faults {
            disk: call,
            call: number(second)?,
            ..faults
        }),
        _ => Err(Wrong::Header),
    }
}
