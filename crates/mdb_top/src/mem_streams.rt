//! A source and a sink in memory, some calls of which can be told to fail.
ghost use Rattle.std.specs.Prelude.{◌≡◌, ◌≤◌, ◌<◌, ◌++◌, ◌↔◌, IfOk, IsTrue, OnErr, Contains, length, min, take};
ghost use Rattle.std.specs.Vec.{vec_capacity};
ghost use Rattle.mdb_base.specs.Counts.{HasCause};
ghost use Rattle.mdb_top.specs.Streams.{Gives, Takes};

use crate::streams::{Sink, Source};
use journal_disk::Failed;
use mdb_base::Memory;
use std::alloc::Global;

/// A source in memory, which tells what is left. One call gives at most `most` bytes, and the calls in `failing`, counted from 1, fail.
#[derive(Drop)]
pub struct MemSource {
    bytes: Vec<u8>,
    place: usize,
    most: usize,
    failing: Vec<u32>,
    calls: u64,
    faults: u64,
    ghost placed: { place ≤ length bytes.items },
    ghost gives_some: { 0 < most },
}

impl MemSource {
    ghost use Rattle.mdb_top.specs.MemStreams.{IsNewSource};

    /// A source of these bytes.
    pub fn new(bytes: Vec<u8>, most: usize, failing: Vec<u32>) -> MemSource
        requires { 0 < most }
        ensures { IsNewSource result bytes.items most failing.items }
    {
        MemSource {
            bytes,
            place: 0,
            most,
            failing,
            calls: 0,
            faults: 0,
        }
    }
}

impl Source for MemSource {
    ghost use Rattle.std.specs.Prelude.{true};
    ghost use Rattle.mdb_top.specs.MemStreams.{FailsExactlyAt, SourceKeeps, counted, source_calls, source_failing, source_faults, source_left, source_most};

    ghost tells = { true };

    ghost left = { source_left };

    ghost faults = { source_faults };

    /// Gives as many of the next bytes as the buffer has, and at most `most`. It fails exactly at the calls in `failing`, counted from 1.
    fn take(&mut self, into: &mut [u8]) -> Result<usize, Failed>
        ensures count { IfOk result (λ count. count ≤ length into.old) }
        ensures given { IfOk result (λ count. IsTrue true → Gives count (source_left self.old) (source_left self.new) (length into.old) into.new) }
        ensures err { OnErr result (IsTrue true → source_left self.new ≡ source_left self.old) }
        ensures cause { HasCause (source_faults self.old) (source_faults self.new) result }
        ensures amount { IfOk result (λ count. count ≡ min (min (length into.old) (source_most self.old)) (length (source_left self.old))) }
        ensures fails { FailsExactlyAt (source_failing self.old) (counted (source_calls self.old)) result }
        ensures keeps { SourceKeeps self.old self.new }
    {
        self.calls = self.calls.saturating_add(1);
        if is_listed(&self.failing, self.calls) {
            self.faults = self.faults.saturating_add(1);
            return Err(Failed);
        }
        let count = into.len().min(self.most).min(self.bytes.len() - self.place);
        into[..count].copy_from_slice(&self.bytes[self.place..self.place + count]);
        self.place += count;
        Ok(count)
    }
}

/// A sink in memory, which tells what was written. It takes its room when it is made, one call takes at most `most` bytes, and the
/// calls in `failing`, counted from 1, fail. A call that finds it full fails too.
#[derive(Drop)]
pub struct MemSink {
    bytes: Vec<u8>,
    room: usize,
    most: usize,
    failing: Vec<u32>,
    calls: u64,
    faults: u64,
    ghost has_room: { room ≤ vec_capacity bytes },
    ghost takes_some: { 0 < most },
}

impl MemSink {
    ghost use Rattle.mdb_top.specs.MemStreams.{IsNewSink, sink_written};

    /// An empty sink with room for so many bytes.
    pub fn new(
        alloc: Global,
        room: usize,
        most: usize,
        failing: Vec<u32>,
    ) -> Result<MemSink, Memory>
        requires { 0 < most }
        ensures { IfOk result (λ sink. IsNewSink sink room most failing.items) }
    {
        match Vec::with_capacity(alloc, room) {
            Ok(bytes) => Ok(MemSink {
                bytes,
                room,
                most,
                failing,
                calls: 0,
                faults: 0,
            }),
            Err(_) => Err(Memory),
        }
    }

    /// What was written.
    pub fn written(&self) -> &[u8]
        ensures { result.now ≡ sink_written self.now }
    {
        &self.bytes
    }
}

impl Sink for MemSink {
    ghost use Rattle.std.specs.Prelude.{true};
    ghost use Rattle.mdb_top.specs.MemStreams.{SinkFailsExactly, SinkKeeps, sink_faults, sink_left, sink_most, sink_written};

    ghost tells = { true };

    ghost written = { sink_written };

    ghost faults = { sink_faults };

    /// Takes a front of the piece: all of it, but at most `most` bytes, and no more than there is room. It fails exactly at the calls in
    /// `failing`, counted from 1, and where it is full.
    fn put(&mut self, piece: &[u8]) -> Result<usize, Failed>
        ensures count { IfOk result (λ count. Takes count (length piece.now)) }
        ensures written { IfOk result (λ count. IsTrue true → sink_written self.new ≡ sink_written self.old ++ take count piece.now) }
        ensures err { OnErr result (IsTrue true → sink_written self.new ≡ sink_written self.old) }
        ensures cause { HasCause (sink_faults self.old) (sink_faults self.new) result }
        ensures amount { IfOk result (λ count. count ≡ min (min (length piece.now) (sink_most self.old)) (sink_left self.old)) }
        ensures fails { SinkFailsExactly self.old result }
        ensures keeps { SinkKeeps self.old self.new }
    {
        self.calls = self.calls.saturating_add(1);
        let left = self.room.saturating_sub(self.bytes.len());
        if is_listed(&self.failing, self.calls) || left == 0 {
            self.faults = self.faults.saturating_add(1);
            return Err(Failed);
        }
        let count = piece.len().min(self.most).min(left);
        match self.bytes.extend_from_slice(&piece[..count]) {
            Ok(()) => Ok(count),
            Err(_) => unreachable!(),
        }
    }
}

// Whether this call is one of those.
fn is_listed(failing: &[u32], call: u64) -> bool
    ensures { IsTrue result ↔ Contains failing.now call }
{
    failing.iter().any(|listed| u64::from(*listed) == call)
}
