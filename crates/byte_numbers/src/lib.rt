//! Numbers as bytes, the highest byte first: how they are written behind other bytes, and read from the front.
#![tactic(auto)]

ghost use Rattle.std.specs.Prelude.{◌≡◌, ◌++◌, ◌≤◌, ◌+◌, length};
ghost use Rattle.std.specs.Vec.{vec_capacity};
ghost use Rattle.byte_numbers.specs.Numbers.{number, number_at, Gives};

use byteorder::{BigEndian, ByteOrder};
use thiserror::Error;

/// Why bytes weren't decoded.
#[derive(Clone, Copy, Debug, PartialEq, Eq, Error)]
pub enum DecodeErr {
    /// The bytes spell no such value.
    #[error("the bytes spell no value")]
    NoValue,
    #[error("no memory")]
    Memory,
}

/// The byte at the front, and the bytes behind it.
pub fn u8_at(bytes: &[u8]) -> Option<(u8, &[u8])>
    ensures { Gives result (number_at 1 bytes.now) }
{
    let (first, rest) = bytes.split_first()?;
    Some((*first, rest))
}

/// The number in the first two bytes, and the bytes behind them.
pub fn u16_at(bytes: &[u8]) -> Option<(u16, &[u8])>
    ensures { Gives result (number_at 2 bytes.now) }
{
    if bytes.len() < 2 {
        return None;
    }
    Some((BigEndian::read_u16(bytes), &bytes[2..]))
}

/// The number in the first four bytes, and the bytes behind them.
pub fn u32_at(bytes: &[u8]) -> Option<(u32, &[u8])>
    ensures { Gives result (number_at 4 bytes.now) }
{
    if bytes.len() < 4 {
        return None;
    }
    Some((BigEndian::read_u32(bytes), &bytes[4..]))
}

/// The number in the first eight bytes, and the bytes behind them.
pub fn u64_at(bytes: &[u8]) -> Option<(u64, &[u8])>
    ensures { Gives result (number_at 8 bytes.now) }
{
    if bytes.len() < 8 {
        return None;
    }
    Some((BigEndian::read_u64(bytes), &bytes[8..]))
}

/// Writes a piece behind the others, for which there is room. It takes no memory.
pub fn put(out: &mut Vec<u8>, piece: &[u8])
    requires { length out.old.items + length piece.now ≤ vec_capacity out.old }
    ensures bytes { out.new.items ≡ out.old.items ++ piece.now }
    ensures size { length out.new.items ≡ length out.old.items + length piece.now }
    ensures room { vec_capacity out.old ≤ vec_capacity out.new }
{
    match out.extend_from_slice(piece) {
        Ok(()) => {}
        Err(_) => unreachable!(),
    }
}

/// Writes a byte behind the others.
pub fn put_u8(out: &mut Vec<u8>, x: u8)
    requires { length out.old.items + 1 ≤ vec_capacity out.old }
    ensures bytes { out.new.items ≡ out.old.items ++ number 1 x }
    ensures size { length out.new.items ≡ length out.old.items + 1 }
    ensures room { vec_capacity out.old ≤ vec_capacity out.new }
{
    put(out, &[x]);
}

/// Writes a number in two bytes behind the others.
pub fn put_u16(out: &mut Vec<u8>, x: u16)
    requires { length out.old.items + 2 ≤ vec_capacity out.old }
    ensures bytes { out.new.items ≡ out.old.items ++ number 2 x }
    ensures size { length out.new.items ≡ length out.old.items + 2 }
    ensures room { vec_capacity out.old ≤ vec_capacity out.new }
{
    let mut piece = [0; 2];
    BigEndian::write_u16(&mut piece, x);
    put(out, &piece);
}

/// Writes a number in four bytes behind the others.
pub fn put_u32(out: &mut Vec<u8>, x: u32)
    requires { length out.old.items + 4 ≤ vec_capacity out.old }
    ensures bytes { out.new.items ≡ out.old.items ++ number 4 x }
    ensures size { length out.new.items ≡ length out.old.items + 4 }
    ensures room { vec_capacity out.old ≤ vec_capacity out.new }
{
    let mut piece = [0; 4];
    BigEndian::write_u32(&mut piece, x);
    put(out, &piece);
}

/// Writes a number in eight bytes behind the others.
pub fn put_u64(out: &mut Vec<u8>, x: u64)
    requires { length out.old.items + 8 ≤ vec_capacity out.old }
    ensures bytes { out.new.items ≡ out.old.items ++ number 8 x }
    ensures size { length out.new.items ≡ length out.old.items + 8 }
    ensures room { vec_capacity out.old ≤ vec_capacity out.new }
{
    let mut piece = [0; 8];
    BigEndian::write_u64(&mut piece, x);
    put(out, &piece);
}
