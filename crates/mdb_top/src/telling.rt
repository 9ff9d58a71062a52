//! What the top call puts, and the status that goes with it.
ghost use Rattle.std.specs.Prelude.{◌≡◌, [], ◌∷◌, IfOk};
ghost use Rattle.order_laws.specs.Chains.{In};
ghost use Rattle.outputs.specs.Texts.{disk_failed_text};
ghost use Rattle.mdb_top.specs.Audits.{IsSaid};
ghost use Rattle.mdb_top.specs.Endings.{IsPut, IsPutWhole};
ghost use Rattle.mdb_top.specs.Streams.{Gets, stream};
ghost use Rattle.mdb_top.specs.Texts as texts;

use crate::bad_lines::bad_line_text;
use crate::streams::Sink;
use crate::writing::put_all;
use mdb_base::{Memory, put_number, put_text};
use outputs::Output;
use scenario_text::BadLine;
use std::alloc::Global;

/// Puts a text, as far as the sink takes it, and answers this status.
pub(crate) fn told<K: Sink>(sink: &mut K, status: u8, text: &[u8]) -> u8
    ensures status { result ≡ status }
    ensures text { Gets (stream K.tells (K.written sink.old) (K.written sink.new) (K.faults sink.old) (K.faults sink.new)) text.now }
{
    match put_all(sink, text) {
        Ok(()) => status,
        Err(_) => status,
    }
}

/// Tells which words are a command.
pub(crate) fn put_usage<K: Sink>(sink: &mut K) -> u8
    ensures status { result ≡ 1 }
    ensures text { Gets (stream K.tells (K.written sink.old) (K.written sink.new) (K.faults sink.old) (K.faults sink.new)) texts.usage_text }
{
    told(
        sink,
        1,
        b"usage: mdbfed replay | run | make NUMBER SITES TRANSACTIONS | audit | store FOLDER | resume FOLDER\n",
    )
}

/// Names the first bad line.
pub(crate) fn refused<K: Sink>(alloc: Global, sink: &mut K, bad: BadLine) -> u8
    ensures bad { result ≡ 2 → Gets (stream K.tells (K.written sink.old) (K.written sink.new) (K.faults sink.old) (K.faults sink.new)) (texts.bad_line_text bad) }
    ensures wanting { result ≡ 6 → Gets (stream K.tells (K.written sink.old) (K.written sink.new) (K.faults sink.old) (K.faults sink.new)) texts.no_memory_text }
    ensures either { In result (2 ∷ 6 ∷ []) }
{
    match bad_line_text(alloc, bad) {
        Ok(text) => told(sink, 2, &text),
        Err(_) => told(sink, 6, b"no memory\n"),
    }
}

/// `disk`, its number and what is the matter with it, as a line.
fn disk_text(alloc: Global, number: usize, matter: &str) -> Result<Vec<u8>, Memory>
    ensures { IfOk result (λ text. text.items ≡ texts.disk_text number matter.now) }
{
    let mut text = Vec::new(alloc);
    put_text(&mut text, "disk ")?;
    put_number(&mut text, number as u64)?;
    put_text(&mut text, matter)?;
    put_text(&mut text, "\n")?;
    Ok(text)
}

/// Names a disk and what is the matter with it, and answers this status, or 6 where memory is wanting.
pub(crate) fn named<K: Sink>(
    alloc: Global,
    sink: &mut K,
    status: u8,
    number: usize,
    matter: &str,
) -> u8
    ensures named { result ≡ status → (status ≡ 6 → ⊥) →
        Gets (stream K.tells (K.written sink.old) (K.written sink.new) (K.faults sink.old) (K.faults sink.new)) (texts.disk_text number matter.now) }
    ensures wanting { result ≡ 6 → (status ≡ 6 → ⊥) →
        Gets (stream K.tells (K.written sink.old) (K.written sink.new) (K.faults sink.old) (K.faults sink.new)) texts.no_memory_text }
    ensures either { In result (status ∷ 6 ∷ []) }
{
    match disk_text(alloc, number, matter) {
        Ok(text) => told(sink, status, &text),
        Err(_) => told(sink, 6, b"no memory\n"),
    }
}

/// Names the disk that is used.
pub(crate) fn used<K: Sink>(alloc: Global, sink: &mut K, number: usize) -> u8
    ensures used { result ≡ 8 →
        Gets (stream K.tells (K.written sink.old) (K.written sink.new) (K.faults sink.old) (K.faults sink.new)) (texts.disk_used_text number) }
    ensures wanting { result ≡ 6 →
        Gets (stream K.tells (K.written sink.old) (K.written sink.new) (K.faults sink.old) (K.faults sink.new)) texts.no_memory_text }
    ensures either { In result (8 ∷ 6 ∷ []) }
{
    named(alloc, sink, 8, number, " is used")
}

/// Names the disk that failed.
pub(crate) fn failed<K: Sink>(alloc: Global, sink: &mut K, number: u8) -> u8
    ensures { IsSaid 5 (disk_failed_text number) result (stream K.tells (K.written sink.old) (K.written sink.new) (K.faults sink.old) (K.faults sink.new)) }
{
    named(alloc, sink, 5, usize::from(number), " failed")
}

/// Puts a whole output: 0 where the sink takes all of it, and else 4.
pub(crate) fn put_whole<K: Sink>(sink: &mut K, output: &[u8]) -> u8
    ensures { IsPutWhole result (stream K.tells (K.written sink.old) (K.written sink.new) (K.faults sink.old) (K.faults sink.new)) output.now }
{
    match put_all(sink, output) {
        Ok(()) => 0,
        Err(_) => 4,
    }
}

/// Puts what was made: a whole output, or one that names a failed disk.
pub(crate) fn put_made<K: Sink>(sink: &mut K, made: Result<Output, Memory>) -> u8
    ensures { IsPut result (stream K.tells (K.written sink.old) (K.written sink.new) (K.faults sink.old) (K.faults sink.new)) made }
{
    match made {
        Ok(Output::Whole(output)) => put_whole(sink, &output),
        Ok(Output::Broken(output)) => told(sink, 5, &output),
        Err(_) => told(sink, 6, b"no memory\n"),
    }
}
