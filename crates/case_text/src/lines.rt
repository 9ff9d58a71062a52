//! What the lines of a section spell.
use crate::hex::digit;
use mdb_base::{Memory, put_number, put_text};
use std::alloc::Global;

/// Where the reading of a line stands.
#[derive(Clone, Copy)]
enum Part {
    /// After a whole byte.
    Byte,
    /// After a backslash.
    Backslash,
    /// After a backslash and an x.
    Hex,
    /// After these and a digit of this value.
    HexDigit { high: u8 },
    /// After what spells no byte.
    Lost,
}

/// Where the reading stands after one more byte of the line.
fn after(bytes: &mut Vec<u8>, part: Part, byte: u8) -> Result<Part, Memory> {
    match part {
        Part::Byte if byte == b'\\' => Ok(Part::Backslash),
        Part::Backslash if byte == b'x' => Ok(Part::Hex),
        Part::Backslash if byte != b'\\' => Ok(Part::Lost),
        Part::Byte | Part::Backslash => {
            bytes.push(byte)?;
            Ok(Part::Byte)
        }
        Part::Hex => match digit(byte) {
            Some(high) => Ok(Part::HexDigit { high }),
            None => Ok(Part::Lost),
        },
        Part::HexDigit { high } => match digit(byte) {
            Some(low) => {
                bytes.push(high << 4 | low)?;
                Ok(Part::Byte)
            }
            None => Ok(Part::Lost),
        },
        Part::Lost => Ok(Part::Lost),
    }
}

/// Adds what a line spells, with its line feed. Says whether it spells something.
fn push_plain(bytes: &mut Vec<u8>, line: &[u8]) -> Result<bool, Memory> {
    let mut part = Part::Byte;
    for byte in line {
        part = after(bytes, part, *byte)?;
    }
    if matches!(part, Part::Byte) {
        bytes.push(b'\n')?;
    }
    Ok(matches!(part, Part::Byte | Part::Backslash))
}

/// The line with this number in place of each `{}`.
fn numbered(alloc: Global, line: &str, number: u32) -> Result<Vec<u8>, Memory> {
    let mut text = Vec::new(alloc);
    let mut is_first = true;
    for piece in line.split("{}") {
        if !is_first {
            put_number(&mut text, u64::from(number))?;
        }
        is_first = false;
        put_text(&mut text, piece)?;
    }
    Ok(text)
}

/// Adds what a line spells for each of these numbers. Says whether it spells something.
fn push_each(
    alloc: Global,
    bytes: &mut Vec<u8>,
    from: u32,
    to: u32,
    line: &str,
) -> Result<bool, Memory> {
    for number in from..=to {
        let line = numbered(alloc, line, number)?;
        if !push_plain(bytes, &line)? {
            return Ok(false);
        }
    }
    Ok(true)
}

/// The numbers and the line of `FROM TO LINE`.
fn ranged(text: &str) -> Option<(u32, u32, &str)> {
    let (from, rest) = text.split_once(' ')?;
    let (to, line) = rest.split_once(' ')?;
    Some((from.parse::<u32>().ok()?, to.parse::<u32>().ok()?, line))
}

/// Adds what a line of a section spells. Says whether it spells something.
pub(crate) fn push_line(alloc: Global, bytes: &mut Vec<u8>, line: &str) -> Result<bool, Memory> {
    match line.strip_prefix("\\each ") {
        Some(rest) => match ranged(rest) {
            Some((from, to, line)) => push_each(alloc, bytes, from, to, line),
            None => Ok(false),
        },
        None => push_plain(bytes, line.as_bytes()),
    }
}
