//! Reads a source to its end, or to one byte more than an input may have.
ghost use Rattle.std.specs.Prelude.{◌≡◌, ◌≤◌, ◌<◌, ◌+◌, IsTrue, IfOk, length, take, drop};
ghost use Rattle.mdb_base.specs.Counts.{HasCauseOf};
ghost use Rattle.mdb_top.specs.Streams.{longest};
ghost use Rattle.mdb_top.specs.Progress.{ReadsOn};

use crate::streams::Source;
use std::alloc::Global;

/// The longest input, in bytes.
pub const LONGEST: usize = 4_194_304;

/// How many bytes are asked for at a time.
const PIECE: usize = 65_536;

/// Why an input wasn't read.
#[derive(Clone, Copy, Debug, PartialEq, Eq)]
pub enum ReadErr {
    Failed,
    Memory,
}

/// Reads one piece behind the text, and answers how many bytes came: none at the end alone.
fn read_on<S: Source>(
    source: &mut S,
    piece: &mut [u8],
    text: &mut Vec<u8>,
) -> Result<usize, ReadErr>
    requires { 0 < length piece.old }
    ensures ok { IfOk result (λ count. ReadsOn S.tells count (length piece.old) (S.left source.old) (S.left source.new) text.old.items text.new.items) }
    ensures cause { HasCauseOf ReadErr.Failed (S.faults source.old) (S.faults source.new) result }
{
    let count = match source.take(piece) {
        Ok(count) => count,
        Err(_) => return Err(ReadErr::Failed),
    };
    match text.extend_from_slice(&piece[..count]) {
        Ok(()) => Ok(count),
        Err(_) => Err(ReadErr::Memory),
    }
}

/// The first `most` bytes that the source gives, asked for at most `size` at a time.
fn read_up_to<S: Source>(
    alloc: Global,
    source: &mut S,
    most: usize,
    size: usize,
) -> Result<Vec<u8>, ReadErr>
    requires { 0 < size }
    ensures text { IfOk result (λ text. IsTrue S.tells → text.items ≡ take most (S.left source.old)) }
    ensures rest { IfOk result (λ text. IsTrue S.tells → S.left source.new ≡ drop most (S.left source.old)) }
    ensures limit { IfOk result (λ text. length text.items ≤ most) }
    ensures cause { HasCauseOf ReadErr.Failed (S.faults source.old) (S.faults source.new) result }
{
    let mut piece: Vec<u8> = match Vec::from_elem(alloc, 0, size) {
        Ok(piece) => piece,
        Err(_) => return Err(ReadErr::Memory),
    };
    let mut text = Vec::new(alloc);
    let mut at_end = false;
    while !at_end && text.len() < most {
        let ask = size.min(most - text.len());
        match read_on(source, &mut piece[..ask], &mut text) {
            Ok(count) => at_end = count == 0,
            Err(why) => return Err(why),
        }
    }
    Ok(text)
}

/// The bytes that the source gives, to its end or to byte 4,194,305.
pub fn read_all<S: Source>(alloc: Global, source: &mut S) -> Result<Vec<u8>, ReadErr>
    ensures text { IfOk result (λ text. IsTrue S.tells → text.items ≡ take (longest + 1) (S.left source.old)) }
    ensures rest { IfOk result (λ text. IsTrue S.tells → S.left source.new ≡ drop (longest + 1) (S.left source.old)) }
    ensures limit { IfOk result (λ text. length text.items ≤ longest + 1) }
    ensures cause { HasCauseOf ReadErr.Failed (S.faults source.old) (S.faults source.new) result }
{
    read_up_to(alloc, source, LONGEST + 1, PIECE)
}
