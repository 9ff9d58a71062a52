//! Calls of the federation, and what they end with.
use crate::disks::{ACTORS, add_disks, read_journals, stop_each};
use crate::faults::{Faults, NONE};
use crate::folder::Folder;
use crate::streams::{End, Ending, Input};
use crate::wrong::Wrong;
use journal_disk::MemDisk;
use mdb_base::Memory;
use mdb_top::{NoGate, federate, federate_store, names_folder};
use std::alloc::Global;
use std::sync::Wait;
use std::thread::Threads;

/// A call: its words, its input, and the journals that lie on the disks.
#[derive(Clone, Copy)]
pub(crate) struct Call<'a> {
    pub words: &'a str,
    pub input: &'a [u8],
    pub journals: &'a [Vec<u8>],
}

impl<'a> Call<'a> {
    /// A call on empty disks.
    pub fn new(words: &'a str, input: &'a [u8]) -> Call<'a> {
        Call {
            words,
            input,
            journals: &[],
        }
    }

    /// The same call with another input.
    pub fn with(self, input: &'a [u8]) -> Call<'a> {
        Call { input, ..self }
    }
}

/// The words of a text, cut at its spaces.
fn words_of(alloc: Global, text: &str) -> Result<Vec<String>, Memory> {
    let mut words = Vec::new(alloc);
    for word in text.split(' ') {
        words.push(String::from_str(alloc, word)?)?;
    }
    Ok(words)
}

/// Carries out these words on the disks of a call, and answers the status.
fn carry_out_words<R: Threads + Wait + Sync + AllocGlobal>(
    rt: &R,
    words: &[String],
    call: Call,
    faults: Faults,
    ending: &mut Ending,
    disks: &mut Vec<MemDisk>,
) -> Result<u8, Memory> {
    let alloc = rt.alloc();
    let mut input = Input::new(call.input, faults.source);
    disks.clear();
    if names_folder(words) {
        let mut folder = Folder::new(alloc, call.journals, faults);
        let status = federate_store(
            rt,
            alloc,
            words,
            &mut input,
            ending,
            &mut folder,
            disks,
            &NoGate,
        );
        return Ok(status);
    }
    add_disks(alloc, call.journals, faults, disks)?;
    if disks.len() != ACTORS {
        return Err(Memory);
    }
    Ok(federate(rt, alloc, words, &mut input, ending, disks, &NoGate))
}

/// Carries a call out, of which these calls fail. What it ends with takes the place of that ending and of these disks.
pub(crate) fn carry_out<R: Threads + Wait + Sync + AllocGlobal>(
    rt: &R,
    call: Call,
    faults: Faults,
    ending: &mut Ending,
    disks: &mut Vec<MemDisk>,
) -> Result<(), Wrong> {
    let words = words_of(rt.alloc(), call.words)?;
    ending.begin(faults.sink);
    ending.status = carry_out_words(rt, &words, call, faults, ending, disks)?;
    // The disks that weren't opened are as they were.
    add_disks(rt.alloc(), call.journals, NONE, disks)?;
    Ok(())
}

/// Where calls are carried out: what the newest one ended with, its disks, and the journals from which it went on.
#[derive(Drop)]
pub(crate) struct Bench {
    pub ending: Ending,
    pub disks: Vec<MemDisk>,
    pub journals: Vec<Vec<u8>>,
}

impl Bench {
    /// One of no call.
    pub fn new(alloc: Global) -> Bench {
        Bench {
            ending: Ending::new(alloc),
            disks: Vec::new(alloc),
            journals: Vec::new(alloc),
        }
    }

    /// What the newest call ended with.
    pub fn end(&self) -> End<'_> {
        self.ending.end()
    }

    /// Carries a call out, of which these calls fail.
    pub fn carry_out<R: Threads + Wait + Sync + AllocGlobal>(
        &mut self,
        rt: &R,
        call: Call,
        faults: Faults,
    ) -> Result<(), Wrong> {
        carry_out(rt, call, faults, &mut self.ending, &mut self.disks)
    }

    /// Carries a call out on the disks as they are.
    pub fn carry_on<R: Threads + Wait + Sync + AllocGlobal>(
        &mut self,
        rt: &R,
        words: &str,
        input: &[u8],
        faults: Faults,
    ) -> Result<(), Wrong> {
        read_journals(rt.alloc(), &mut self.disks, &mut self.journals)?;
        let journals = &self.journals;
        let call = Call {
            words,
            input,
            journals,
        };
        carry_out(rt, call, faults, &mut self.ending, &mut self.disks)
    }

    /// The disks stop with this cut, and the session goes on from what they hold.
    pub fn go_on<R: Threads + Wait + Sync + AllocGlobal>(
        &mut self,
        rt: &R,
        cut: u32,
    ) -> Result<(), Wrong> {
        stop_each(&mut self.disks, cut);
        self.carry_on(rt, "resume x", &[], NONE)
    }
}
