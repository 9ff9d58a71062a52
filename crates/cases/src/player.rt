//! The player of a case: what its sections ask for, one after the other.
use crate::calls::{Bench, Call};
use crate::deeds::{Change, Deed, Swept, deed_of, swept_of};
use crate::disks::{put_digits, put_zeros, stop_each};
use crate::faults::{Faults, NONE, with_failing};
use crate::headers::{first_word, number, text_of};
use crate::inputs::{each_byte, each_cut, each_message, each_trip};
use crate::newest::{Newest, is_end};
use crate::printed::{Edit, session_of};
use crate::stops::{each_going_on, each_stop, every_stop};
use crate::sweeps::{Whole, each_disk_call, each_read, each_write};
use crate::wrong::Wrong;
use std::alloc::Global;
use std::sync::Wait;
use std::thread::Threads;

/// What the sections of a case have come to: the newest run, the calls of the next one that are to fail, and the edit of the next audit. What
/// is carried out beside it has a bench of its own.
#[derive(Drop)]
pub(crate) struct Player {
    newest: Newest,
    fails: Faults,
    edit: Edit,
    beside: Bench,
}

/// A call with these words and this input ends so.
fn ends<R: Threads + Wait + Sync + AllocGlobal>(
    rt: &R,
    beside: &mut Bench,
    call: Call,
    status: &str,
    output: &[u8],
) -> Result<(), Wrong> {
    beside.carry_out(rt, call, NONE)?;
    is_end(beside.end(), status, output)
}

/// The audit of what the run has put, with this edit, ends so.
fn audit<R: Threads + Wait + Sync + AllocGlobal>(
    rt: &R,
    whole: Whole,
    edit: &Edit,
    beside: &mut Bench,
    status: &str,
    verdict: &[u8],
) -> Result<(), Wrong> {
    let text = edit.of(rt.alloc(), text_of(whole.call.input)?, whole.end.output)?;
    ends(rt, beside, Call::new("audit", &text), status, verdict)
}

/// The commands that the run has put, given to `replay` after its scenario, put the same again.
fn again<R: Threads + Wait + Sync + AllocGlobal>(
    rt: &R,
    whole: Whole,
    beside: &mut Bench,
) -> Result<(), Wrong> {
    let output = whole.end.output;
    let text = session_of(rt.alloc(), text_of(whole.call.input)?, output)?;
    ends(
        rt,
        beside,
        Call::new("replay", &text),
        "0",
        output.as_bytes(),
    )
}

/// The run is carried out again and again, as this word and what stands after it say.
fn sweep_so<R: Threads + Wait + Sync + AllocGlobal>(
    rt: &R,
    whole: Whole,
    failed: Faults,
    beside: &mut Bench,
    swept: Swept,
    words: &str,
) -> Result<(), Wrong> {
    let (first, more) = first_word(words);
    let count = number(first)?;
    match swept {
        Swept::Source => each_read(rt, whole, beside, count),
        Swept::Sink => each_write(rt, whole, failed, beside, count),
        Swept::Disk => each_disk_call(rt, whole, beside, count, more),
        Swept::Cuts => each_cut(rt, whole, beside, count),
        Swept::Bytes => each_byte(rt, whole, beside, count),
        Swept::Trips => each_trip(rt, whole, beside, count, more),
        Swept::Messages => each_message(rt, whole, beside, count),
        Swept::Stops => each_stop(rt, whole, beside, count, more),
        Swept::Resumes => each_going_on(rt, whole, beside, count, more),
    }
}

/// The run is carried out again and again, as these words say.
fn sweep<R: Threads + Wait + Sync + AllocGlobal>(
    rt: &R,
    newest: &Newest,
    beside: &mut Bench,
    words: &str,
) -> Result<(), Wrong> {
    let whole = newest.whole();
    if words == "stops" {
        return every_stop(rt, whole, beside);
    }
    let (word, rest) = first_word(words);
    sweep_so(rt, whole, newest.failed, beside, swept_of(word)?, rest)
}

impl Player {
    /// A player of which nothing was asked yet.
    pub fn new(alloc: Global) -> Player {
        Player {
            newest: Newest::new(alloc),
            fails: NONE,
            edit: Edit::new(alloc),
            beside: Bench::new(alloc),
        }
    }

    /// What the newest run has put.
    pub fn output(&self) -> &str {
        self.newest.bench.end().output
    }

    /// A case begins.
    fn begin(&mut self, alloc: Global) -> Result<(), Wrong> {
        self.fails = NONE;
        self.edit.clear();
        self.newest.begin(alloc)
    }

    /// The next run or the next audit finds this changed.
    fn change(
        &mut self,
        alloc: Global,
        change: Change,
        words: &str,
        body: &[u8],
    ) -> Result<(), Wrong> {
        let disks = &mut self.newest.bench.disks;
        match change {
            Change::Case => self.begin(alloc),
            Change::Disk => put_digits(alloc, disks, words, body),
            Change::Zeros => put_zeros(alloc, disks, words),
            Change::Stop => {
                stop_each(disks, number(words)?);
                Ok(())
            }
            Change::Fails => {
                self.fails = with_failing(self.fails, words)?;
                Ok(())
            }
            Change::Replace => self.edit.replace(body),
            Change::By => self.edit.by(body),
        }
    }

    /// Carries out a call with these words and lines.
    fn run<R: Threads + Wait + Sync + AllocGlobal>(
        &mut self,
        rt: &R,
        words: &str,
        body: &[u8],
    ) -> Result<(), Wrong> {
        let fails = self.fails;
        self.fails = NONE;
        self.newest.run(rt, words, body, fails)
    }

    /// The audit of the newest run ends so.
    fn audit<R: Threads + Wait + Sync + AllocGlobal>(
        &mut self,
        rt: &R,
        status: &str,
        verdict: &[u8],
    ) -> Result<(), Wrong> {
        audit(
            rt,
            self.newest.whole(),
            &self.edit,
            &mut self.beside,
            status,
            verdict,
        )?;
        self.edit.clear();
        Ok(())
    }

    /// Does what a section with these words and lines asks for.
    pub fn play<R: Threads + Wait + Sync + AllocGlobal>(
        &mut self,
        rt: &R,
        words: &str,
        body: &[u8],
    ) -> Result<(), Wrong> {
        let (word, rest) = first_word(words);
        match deed_of(word)? {
            Deed::Change(change) => self.change(rt.alloc(), change, rest, body),
            Deed::Want(want) => self.newest.is_as(rt.alloc(), want, rest, body),
            Deed::Run => self.run(rt, rest, body),
            Deed::Audit => self.audit(rt, rest, body),
            Deed::Again => again(rt, self.newest.whole(), &mut self.beside),
            Deed::Sweep => sweep(rt, &self.newest, &mut self.beside, rest),
        }
    }
}
