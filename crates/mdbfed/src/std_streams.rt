//! Standard input as a source and standard output as a sink. They tell nothing of what they give and take, and count each error.
ghost use Rattle.std.specs.Prelude.{false, []};

use mdb_top::{Failed, Sink, Source};
use std::io::{Read, Write};

/// A reader as a source.
#[derive(Drop)]
pub struct StdSource<R: Read + Drop> {
    reader: R,
    faults: u64,
}

impl<R: Read + Drop> StdSource<R> {
    /// A source that didn't fail yet.
    pub fn new(reader: R) -> Self {
        StdSource { reader, faults: 0 }
    }
}

impl<R: Read + Drop> Source for StdSource<R> {
    ghost tells = { false };

    ghost left = { λ _. [] };

    ghost faults = { λ source. source.faults };

    fn take(&mut self, into: &mut [u8]) -> Result<usize, Failed> {
        match self.reader.read(into) {
            Ok(count) => Ok(count),
            Err(_) => {
                self.faults = self.faults.saturating_add(1);
                Err(Failed)
            }
        }
    }
}

/// A writer as a sink.
#[derive(Drop)]
pub struct StdSink<W: Write + Drop> {
    writer: W,
    faults: u64,
}

impl<W: Write + Drop> StdSink<W> {
    /// A sink that didn't fail yet.
    pub fn new(writer: W) -> Self {
        StdSink { writer, faults: 0 }
    }
}

impl<W: Write + Drop> Sink for StdSink<W> {
    ghost tells = { false };

    ghost written = { λ _. [] };

    ghost faults = { λ sink. sink.faults };

    fn put(&mut self, piece: &[u8]) -> Result<usize, Failed> {
        match self.writer.write(piece) {
            Ok(count) if count > 0 || piece.is_empty() => Ok(count),
            _ => {
                self.faults = self.faults.saturating_add(1);
                Err(Failed)
            }
        }
    }
}
