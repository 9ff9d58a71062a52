//! Sweeps over the faults of a call: it is carried out again and again, each time with another call that fails.
use crate::calls::{Bench, Call};
use crate::faults::{Faults, NONE};
use crate::headers::number;
use crate::printed::{front_of_failed, lines_in};
use crate::streams::{End, TAKEN};
use crate::wrong::Wrong;
use std::sync::Wait;
use std::thread::Threads;

/// How many calls a sweep makes at most.
pub(crate) const LIMIT: u32 = 100_000;

/// The cuts of a stop.
pub(crate) const CUTS: [u32; 3] = [0, 1, 65_535];

/// A call that was carried out, and what it ended with.
#[derive(Clone, Copy)]
pub(crate) struct Whole<'a> {
    pub call: Call<'a>,
    pub end: End<'a>,
}

/// It differs at this number.
pub(crate) fn at(number: u32) -> Wrong {
    Wrong::Swept(number)
}

/// There are as many as are wanted.
pub(crate) fn counted(count: u32, wanted: u32) -> Result<(), Wrong> {
    if count == wanted {
        Ok(())
    } else {
        Err(Wrong::Count(count))
    }
}

/// It ended so; else it differs at this number.
pub(crate) fn ends_so(end: End, wanted: End, number: u32) -> Result<(), Wrong> {
    if end.status == wanted.status && end.output == wanted.output {
        Ok(())
    } else {
        Err(at(number))
    }
}

/// What a call ends with whose source fails.
const UNREAD: End<'static> = End {
    status: 3,
    output: "read failed\n",
};

/// Each call of the source fails in turn, one for each piece of the input and one for its end; so many fail.
pub(crate) fn each_read<R: Threads + Wait + Sync + AllocGlobal>(
    rt: &R,
    whole: Whole,
    bench: &mut Bench,
    wanted: u32,
) -> Result<(), Wrong> {
    for number in 1..LIMIT {
        let source = number;
        bench.carry_out(rt, whole.call, Faults { source, ..NONE })?;
        if bench.ending.status != 3 {
            ends_so(bench.end(), whole.end, number)?;
            return counted(number - 1, wanted);
        }
        ends_so(bench.end(), UNREAD, number)?;
    }
    Err(Wrong::Count(LIMIT))
}

/// Whether a call of the sink failed after so many others: they have taken their pieces, and the status is 4 in place of 0 and else stays.
fn is_front(whole: End, end: End, before: u32) -> bool {
    let status = if whole.status == 0 { 4 } else { whole.status };
    let taken = TAKEN.saturating_mul(before as usize);
    end.status == status && end.output.len() == taken && whole.output.starts_with(end.output)
}

/// Each call of the sink fails in turn, one for each piece of the output, beside the calls that failed before; so many fail.
pub(crate) fn each_write<R: Threads + Wait + Sync + AllocGlobal>(
    rt: &R,
    whole: Whole,
    failed: Faults,
    bench: &mut Bench,
    wanted: u32,
) -> Result<(), Wrong> {
    for number in 1..LIMIT {
        let sink = number;
        bench.carry_out(rt, whole.call, Faults { sink, ..failed })?;
        if bench.end().output.len() == whole.end.output.len() {
            ends_so(bench.end(), whole.end, number)?;
            return counted(number - 1, wanted);
        }
        if !is_front(whole.end, bench.end(), number - 1) {
            return Err(at(number));
        }
    }
    Err(Wrong::Count(LIMIT))
}

/// A call of this disk has failed after so many lines of the whole output.
fn is_failed_after(whole: End, end: End, disk: u32, lines: u32) -> bool {
    match front_of_failed(whole.output, end.output, disk) {
        Some(front) => end.status == 5 && lines_in(front.as_bytes()) == lines,
        None => false,
    }
}

/// The disk fails at each of its calls in turn, after the numbers of lines that the words spell; there is no further call.
pub(crate) fn each_disk_call<R: Threads + Wait + Sync + AllocGlobal>(
    rt: &R,
    whole: Whole,
    bench: &mut Bench,
    disk: u32,
    words: &str,
) -> Result<(), Wrong> {
    let mut call: u32 = 1;
    for word in words.split_whitespace() {
        bench.carry_out(rt, whole.call, Faults::of_disk(disk, call))?;
        if !is_failed_after(whole.end, bench.end(), disk, number(word)?) {
            return Err(at(call));
        }
        call = call.saturating_add(1);
    }
    bench.carry_out(rt, whole.call, Faults::of_disk(disk, call))?;
    ends_so(bench.end(), whole.end, call)
}
