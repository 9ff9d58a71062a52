//! Texts that are read, and texts that are refused, with expected values from the documentation of the format.
mod limits;
mod refused;
mod scripts;

use scenario_text::{BadLine, BadWhy, TextErr, read_commands};
use std::alloc::Global;

/// The first bad line of a text that may have commands; none where it is read.
fn first_bad(alloc: Global, text: &[u8]) -> Result<Option<BadLine>, &'static str> {
    match read_commands(alloc, text) {
        Ok(_) => Ok(None),
        Err(TextErr::Bad(bad)) => Ok(Some(bad)),
        Err(TextErr::Memory) => Err("memory is ample"),
    }
}

/// The bad line of this number.
fn bad_line(line: u32, why: BadWhy) -> Option<BadLine> {
    Some(BadLine { line, why })
}
