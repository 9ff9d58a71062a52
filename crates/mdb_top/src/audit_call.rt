//! The audit of the printed run that the source gives.
ghost use Rattle.std.specs.Prelude.{◌≡◌, [], ◌∷◌, IfOk, IsTrue, length, map};
ghost use Rattle.order_laws.specs.Chains.{In};
ghost use Rattle.run_audit.specs.Audits.{IsShort};
ghost use Rattle.mdb_top.specs.Audits as audits;
ghost use Rattle.mdb_top.specs.Audits.{AuditEnds, HandedEnds, IsSaid, IsVerdictPut, TextEnds};
ghost use Rattle.mdb_top.specs.Inputs.{SomeInput};
ghost use Rattle.mdb_top.specs.Streams.{stream};

use crate::reading::{LONGEST, ReadErr, read_all};
use crate::streams::{Sink, Source};
use crate::telling::{failed, put_whole, refused, told, used};
use crate::used_disks::first_used;
use fed_world::WorldErr;
use journal_disk::Disk;
use mdb_base::{Memory, put_number, put_text};
use run_audit::{Submitted, Verdict, What, submit};
use scenario_text::TextErr;
use std::alloc::Global;

/// The word of a reason.
fn what_text(what: What) -> &'static str
    ensures { result.now ≡ audits.what_text what }
{
    match what {
        What::Form => "form",
        What::Answer => "answer",
        What::Places => "places",
        What::Cycle => "cycle",
        What::Open => "open",
        What::Order => "order",
        What::Reads => "reads",
        What::Outcome => "outcome",
        What::Forgotten => "forgotten",
        What::Table => "table",
    }
}

/// `differs at line`, its number and the reason, as a line.
fn differs_text(alloc: Global, line: u32, what: What) -> Result<Vec<u8>, Memory>
    ensures { IfOk result (λ text. text.items ≡ audits.differs_text line what) }
{
    let mut text = Vec::new(alloc);
    put_text(&mut text, "differs at line ")?;
    put_number(&mut text, u64::from(line))?;
    put_text(&mut text, " ")?;
    put_text(&mut text, what_text(what))?;
    put_text(&mut text, "\n")?;
    Ok(text)
}

/// Names the first line that differs, with the reason.
fn differs<K: Sink>(alloc: Global, sink: &mut K, line: u32, what: What) -> u8
    ensures { IsSaid 9 (audits.differs_text line what) result (stream K.tells (K.written sink.old) (K.written sink.new) (K.faults sink.old) (K.faults sink.new)) }
{
    match differs_text(alloc, line, what) {
        Ok(text) => told(sink, 9, &text),
        Err(Memory) => told(sink, 6, b"no memory\n"),
    }
}

/// Puts the verdict, or why there is none.
fn put_verdict<K: Sink>(alloc: Global, sink: &mut K, verdict: Result<Verdict, WorldErr>) -> u8
    ensures { IsVerdictPut result (stream K.tells (K.written sink.old) (K.written sink.new) (K.faults sink.old) (K.faults sink.new)) verdict }
{
    match verdict {
        Ok(Verdict::Agrees) => put_whole(sink, b"agrees\n"),
        Ok(Verdict::Differs { line, what }) => differs(alloc, sink, line, what),
        Err(WorldErr::Disk { number }) => failed(alloc, sink, number),
        Err(WorldErr::Memory) => told(sink, 6, b"no memory\n"),
    }
}

/// Puts the verdict on what was handed in, where every disk is empty.
fn audited<K: Sink, D: Disk>(
    alloc: Global,
    sink: &mut K,
    handed: Submitted<'_>,
    disks: &mut Vec<D>,
) -> u8
    requires told { IsTrue D.tells }
    requires nine { length disks.old.items ≡ 9 }
    requires short { IsShort handed }
    ensures ends { HandedEnds result (stream K.tells (K.written sink.old) (K.written sink.new) (K.faults sink.old) (K.faults sink.new))
        (map D.seen disks.old.items) (map D.seen disks.new.items) handed.entry }
    ensures untouched { result ≡ 8 → disks.new ≡ disks.old }
    ensures nine { length disks.new.items ≡ 9 }
{
    match first_used(disks.as_slice()) {
        Some(number) => used(alloc, sink, number),
        None => {
            let verdict = handed.audit(alloc, disks);
            put_verdict(alloc, sink, verdict)
        }
    }
}

/// Puts the verdict on a text.
fn audit_text<K: Sink, D: Disk>(alloc: Global, sink: &mut K, text: &[u8], disks: &mut Vec<D>) -> u8
    requires told { IsTrue D.tells }
    requires nine { length disks.old.items ≡ 9 }
    ensures ends { TextEnds result (stream K.tells (K.written sink.old) (K.written sink.new) (K.faults sink.old) (K.faults sink.new))
        (map D.seen disks.old.items) (map D.seen disks.new.items) text.now }
    ensures untouched { In result (2 ∷ 7 ∷ 8 ∷ []) → disks.new ≡ disks.old }
    ensures nine { length disks.new.items ≡ 9 }
{
    if text.len() > LONGEST {
        return told(sink, 7, b"too long\n");
    }
    match submit(alloc, text) {
        Ok(handed) => audited(alloc, sink, handed, disks),
        Err(TextErr::Bad(bad)) => refused(alloc, sink, bad),
        Err(TextErr::Memory) => told(sink, 6, b"no memory\n"),
    }
}

/// Audits the text that the source gives.
pub(crate) fn audit<S: Source, K: Sink, D: Disk>(
    alloc: Global,
    source: &mut S,
    sink: &mut K,
    disks: &mut Vec<D>,
) -> u8
    requires told { IsTrue D.tells }
    requires nine { length disks.old.items ≡ 9 }
    ensures ends { SomeInput S.tells (S.left source.old) (AuditEnds result
        (stream S.tells (S.left source.old) (S.left source.new) (S.faults source.old) (S.faults source.new))
        (stream K.tells (K.written sink.old) (K.written sink.new) (K.faults sink.old) (K.faults sink.new))
        (map D.seen disks.old.items) (map D.seen disks.new.items)) }
    ensures untouched { In result (2 ∷ 3 ∷ 7 ∷ 8 ∷ []) → disks.new ≡ disks.old }
    ensures nine { length disks.new.items ≡ 9 }
{
    match read_all(alloc, source) {
        Ok(text) => audit_text(alloc, sink, &text, disks),
        Err(ReadErr::Failed) => told(sink, 3, b"read failed\n"),
        Err(ReadErr::Memory) => told(sink, 6, b"no memory\n"),
    }
}
