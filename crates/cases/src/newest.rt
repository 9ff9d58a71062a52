//! The newest run of a case.
use crate::calls::{Bench, Call};
use crate::comparing::{begins_with, has_each, is_output, orders_each};
use crate::deeds::Want;
use crate::disks::{add_disks, is_held};
use crate::faults::{Faults, NONE};
use crate::headers::{number, text_of};
use crate::streams::End;
use crate::sweeps::Whole;
use crate::wrong::Wrong;
use mdb_base::Memory;
use std::alloc::Global;
use std::sync::Wait;
use std::thread::Threads;

/// The newest run: its words and its input, which calls of it failed, and where it was carried out, with the journals from which it began.
#[derive(Drop)]
pub(crate) struct Newest {
    words: String,
    pub input: Vec<u8>,
    pub failed: Faults,
    pub bench: Bench,
}

/// It has the status that this word spells.
fn has_status(end: End, status: &str) -> Result<(), Wrong> {
    if u32::from(end.status) == number(status)? {
        Ok(())
    } else {
        Err(Wrong::Status(end.status))
    }
}

/// It has the status that this word spells, and this output.
pub(crate) fn is_end(end: End, status: &str, output: &[u8]) -> Result<(), Wrong> {
    has_status(end, status)?;
    is_output(text_of(output)?, end.output)
}

impl Newest {
    /// None yet.
    pub fn new(alloc: Global) -> Newest {
        Newest {
            words: String::new(alloc),
            input: Vec::new(alloc),
            failed: NONE,
            bench: Bench::new(alloc),
        }
    }

    /// A case begins, with nine empty disks.
    pub fn begin(&mut self, alloc: Global) -> Result<(), Wrong> {
        self.note("", &[], NONE)?;
        self.bench.ending.begin(0);
        self.bench.disks.clear();
        add_disks(alloc, &[], NONE, &mut self.bench.disks)?;
        Ok(())
    }

    /// Keeps what is run.
    fn note(&mut self, words: &str, input: &[u8], faults: Faults) -> Result<(), Memory> {
        self.failed = faults;
        self.words.clear();
        self.words.push_str(words)?;
        self.input.clear();
        self.input.extend_from_slice(input)?;
        Ok(())
    }

    /// Carries out a call with these words and this input, on the disks as they are.
    pub fn run<R: Threads + Wait + Sync + AllocGlobal>(
        &mut self,
        rt: &R,
        words: &str,
        input: &[u8],
        faults: Faults,
    ) -> Result<(), Wrong> {
        self.note(words, input, faults)?;
        self.bench.carry_on(rt, words, input, faults)
    }

    /// The run, with what it ended with.
    pub fn whole(&self) -> Whole<'_> {
        let call = Call {
            words: self.words.as_str(),
            input: &self.input,
            journals: &self.bench.journals,
        };
        let end = self.bench.end();
        Whole { call, end }
    }

    /// It has come out as these words and lines say.
    pub fn is_as(
        &mut self,
        alloc: Global,
        want: Want,
        words: &str,
        body: &[u8],
    ) -> Result<(), Wrong> {
        let end = self.bench.end();
        match want {
            Want::Exit => has_status(end, words),
            Want::Output => is_end(end, words, body),
            Want::Begins => begins_with(text_of(body)?, end.output),
            Want::Has => has_each(text_of(body)?, end.output),
            Want::Orders => orders_each(words, end.output),
            Want::Holds => is_held(alloc, &mut self.bench.disks, words, body),
        }
    }
}
