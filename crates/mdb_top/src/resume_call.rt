//! A session that goes on from the journals on its disks.
ghost use Rattle.std.specs.Prelude.{◌≡◌, IfOk, IsTrue, length, map};
ghost use Rattle.world_recovery.specs.Reopening.{AreSynced};
ghost use Rattle.found_disks.specs.Reading.{images_of};
ghost use Rattle.mdb_top.specs.Audits.{IsSaid};
ghost use Rattle.mdb_top.specs.Resuming.{IsRefusalPut, ResumeEnds};
ghost use Rattle.mdb_top.specs.Streams.{stream};
ghost use Rattle.mdb_top.specs.Texts as texts;

use crate::streams::Sink;
use crate::telling::{failed, named, put_made, told};
use journal_disk::Disk;
use mdb_base::{Memory, put_number, put_text};
use resume_output::{ReopenErr, resume_output_of};
use std::alloc::Global;

/// `disk`, its number and the place where it is damaged, as a line.
fn damaged_text(alloc: Global, number: u8, at: u64) -> Result<Vec<u8>, Memory>
    ensures { IfOk result (λ text. text.items ≡ texts.disk_damaged_text number at) }
{
    let mut text = Vec::new(alloc);
    put_text(&mut text, "disk ")?;
    put_number(&mut text, u64::from(number))?;
    put_text(&mut text, " is damaged at ")?;
    put_number(&mut text, at)?;
    put_text(&mut text, "\n")?;
    Ok(text)
}

/// Names the damaged disk.
fn damaged<K: Sink>(alloc: Global, sink: &mut K, number: u8, at: u64) -> u8
    ensures { IsSaid 10 (texts.disk_damaged_text number at) result (stream K.tells (K.written sink.old) (K.written sink.new) (K.faults sink.old) (K.faults sink.new)) }
{
    match damaged_text(alloc, number, at) {
        Ok(text) => told(sink, 10, &text),
        Err(Memory) => told(sink, 6, b"no memory\n"),
    }
}

/// Names the disk whose journal no session leaves.
fn foreign<K: Sink>(alloc: Global, sink: &mut K, number: u8) -> u8
    ensures { IsSaid 11 (texts.disk_foreign_text number) result (stream K.tells (K.written sink.old) (K.written sink.new) (K.faults sink.old) (K.faults sink.new)) }
{
    named(alloc, sink, 11, usize::from(number), " is foreign")
}

/// Puts why no session goes on.
fn put_refusal<K: Sink>(alloc: Global, sink: &mut K, why: ReopenErr) -> u8
    ensures { IsRefusalPut result (stream K.tells (K.written sink.old) (K.written sink.new) (K.faults sink.old) (K.faults sink.new)) why }
{
    match why {
        ReopenErr::Damaged { number, at } => damaged(alloc, sink, number, at),
        ReopenErr::Foreign { number } => foreign(alloc, sink, number),
        ReopenErr::Disk { number } => failed(alloc, sink, number),
        ReopenErr::Memory => told(sink, 6, b"no memory\n"),
    }
}

/// Puts the output of a session that goes on from the disks, or why none does.
pub(crate) fn resume<K: Sink, D: Disk>(alloc: Global, sink: &mut K, disks: &mut Vec<D>) -> u8
    requires told { IsTrue D.tells }
    requires nine { length disks.old.items ≡ 9 }
    requires synced { AreSynced (images_of (map D.seen disks.old.items)) }
    ensures ends { ResumeEnds D.seen result (stream K.tells (K.written sink.old) (K.written sink.new) (K.faults sink.old) (K.faults sink.new))
        (map D.seen disks.old.items) (map D.seen disks.new.items) }
    ensures nine { length disks.new.items ≡ 9 }
{
    match resume_output_of(alloc, disks) {
        Ok(output) => put_made(sink, Ok(output)),
        Err(why) => put_refusal(alloc, sink, why),
    }
}
