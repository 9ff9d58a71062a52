//! A packet that is being written.
ghost use Rattle.std.specs.Prelude.{◌≡◌, ◌+◌, ◌<◌, ◌≤◌, [], ◌∷◌, ◌++◌, length};
ghost use Rattle.byte_numbers.specs.Numbers.{number};
ghost use Rattle.fed_messages.specs.Packets.{packet_of};

use crate::Packet;
use byteorder::{BigEndian, ByteOrder};
use std::marker::Model;

/// The bytes so far, seen as a list of at most 40 bytes.
#[derive(Drop)]
pub struct Text {
    len: usize,
    bytes: [u8; 40],
}

impl Model for Text {
    ghost use Rattle.std.specs.Prelude.{List, ℕ, take};
    ghost use Rattle.fed_messages.specs.Packets.{IsPadded};

    ghost Value = { List ℕ };

    ghost view = { λ t. take t.len t.bytes };

    ghost invariant = { λ t. IsPadded t.len t.bytes };
}

impl Text {
    /// No byte.
    pub fn new() -> Text
        ensures { result ≡ [] }
    {
        Text {
            len: 0,
            bytes: [0; 40],
        }
    }

    /// Writes a byte behind the others.
    pub fn push(&mut self, byte: u8)
        requires { length self.old < 40 }
        ensures bytes { self.new ≡ self.old ++ byte ∷ [] }
        ensures size { length self.new ≡ length self.old + 1 }
    {
        self.bytes[self.len] = byte;
        self.len += 1;
    }

    /// Writes a piece behind the others.
    fn put(&mut self, piece: &[u8])
        requires { length self.old + length piece.now ≤ 40 }
        ensures bytes { self.new ≡ self.old ++ piece.now }
        ensures size { length self.new ≡ length self.old + length piece.now }
    {
        for byte in piece {
            self.push(*byte);
        }
    }

    /// Writes a number in one byte behind the others.
    pub fn put_u8(&mut self, x: u8)
        requires { length self.old + 1 ≤ 40 }
        ensures bytes { self.new ≡ self.old ++ number 1 x }
        ensures size { length self.new ≡ length self.old + 1 }
    {
        self.push(x);
    }

    /// Writes a number in two bytes behind the others.
    pub fn put_u16(&mut self, x: u16)
        requires { length self.old + 2 ≤ 40 }
        ensures bytes { self.new ≡ self.old ++ number 2 x }
        ensures size { length self.new ≡ length self.old + 2 }
    {
        let mut piece = [0; 2];
        BigEndian::write_u16(&mut piece, x);
        self.put(&piece);
    }

    /// Writes a number in four bytes behind the others.
    pub fn put_u32(&mut self, x: u32)
        requires { length self.old + 4 ≤ 40 }
        ensures bytes { self.new ≡ self.old ++ number 4 x }
        ensures size { length self.new ≡ length self.old + 4 }
    {
        let mut piece = [0; 4];
        BigEndian::write_u32(&mut piece, x);
        self.put(&piece);
    }

    /// Writes a number in eight bytes behind the others.
    pub fn put_u64(&mut self, x: u64)
        requires { length self.old + 8 ≤ 40 }
        ensures bytes { self.new ≡ self.old ++ number 8 x }
        ensures size { length self.new ≡ length self.old + 8 }
    {
        let mut piece = [0; 8];
        BigEndian::write_u64(&mut piece, x);
        self.put(&piece);
    }

    /// The packet of these bytes.
    pub fn finish(self) -> Packet
        ensures { result ≡ packet_of self }
    {
        let Text { len, bytes } = self;
        Packet {
            len: len as u8,
            bytes,
        }
    }
}
