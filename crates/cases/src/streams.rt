//! Where a call reads its input from, and where it puts its output.
use crate::headers::text_of;
use journal_disk::Failed;
use mdb_top::{Sink, Source};
use std::alloc::Global;

/// How many bytes one call of a source gives.
const GIVEN: usize = 100;

/// How many bytes one call of a sink takes.
pub(crate) const TAKEN: usize = 10;

/// An input, of which one call can fail. It tells nothing of it.
#[derive(Drop)]
pub(crate) struct Input<'a> {
    left: &'a [u8],
    failing: u32,
    calls: u32,
    faults: u64,
}

impl<'a> Input<'a> {
    /// An input whose call of this number fails, counted from 1; at 0 none does.
    pub fn new(left: &'a [u8], failing: u32) -> Input<'a> {
        Input {
            left,
            failing,
            calls: 0,
            faults: 0,
        }
    }
}

impl<'a> Source for Input<'a> {
    ghost use Rattle.std.specs.Prelude.{false, []};

    ghost tells = { false };

    ghost left = { λ _. [] };

    ghost faults = { λ input. input.faults };

    fn take(&mut self, into: &mut [u8]) -> Result<usize, Failed> {
        self.calls = self.calls.saturating_add(1);
        if self.calls == self.failing {
            self.faults = self.faults.saturating_add(1);
            return Err(Failed);
        }
        let count = into.len().min(GIVEN).min(self.left.len());
        into[..count].copy_from_slice(&self.left[..count]);
        self.left = &self.left[count..];
        Ok(count)
    }
}

/// A status, and an output.
#[derive(Clone, Copy)]
pub(crate) struct End<'a> {
    pub status: u8,
    pub output: &'a str,
}

/// What a call ends with, which is the sink of its output, too. It tells nothing of it.
#[derive(Drop)]
pub(crate) struct Ending {
    pub status: u8,
    output: Vec<u8>,
    failing: u32,
    calls: u32,
    faults: u64,
}

impl Ending {
    /// That of no call.
    pub fn new(alloc: Global) -> Ending {
        Ending {
            status: 0,
            output: Vec::new(alloc),
            failing: 0,
            calls: 0,
            faults: 0,
        }
    }

    /// A call begins, of which the piece of this number isn't taken, counted from 1; at 0 each one is.
    pub fn begin(&mut self, failing: u32) {
        self.output.clear();
        self.failing = failing;
        self.calls = 0;
    }

    /// The status, and the output.
    pub fn end(&self) -> End<'_> {
        End {
            status: self.status,
            output: text_of(&self.output).unwrap_or(""),
        }
    }
}

impl Sink for Ending {
    ghost use Rattle.std.specs.Prelude.{false, []};

    ghost tells = { false };

    ghost written = { λ _. [] };

    ghost faults = { λ ending. ending.faults };

    fn put(&mut self, piece: &[u8]) -> Result<usize, Failed> {
        self.calls = self.calls.saturating_add(1);
        let count = piece.len().min(TAKEN);
        if self.calls != self.failing && self.output.extend_from_slice(&piece[..count]).is_ok() {
            return Ok(count);
        }
        self.faults = self.faults.saturating_add(1);
        Err(Failed)
    }
}
